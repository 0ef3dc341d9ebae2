// What one step leaves to the next, beside the areas.
use crate::areas::Areas;
use crate::line::{first, low_u8};
use crate::packing::Packing;
use crate::reading::{Bare, InAreas};
use crate::say::{number_of, say, say_area};
use crate::step::{Change, Question};
use crate::{packing, pure, store};
use bitpacker::BitPacker;
use bitunpacker::BitUnpacker;
use blocked_bitpacker::BlockedBitpacker;

#[derive(Clone, Copy)]
pub struct State {
    packing: Packing,
    unpacker: BitUnpacker,
    store: BlockedBitpacker,
}

impl State {
    // Nothing is made; of the store no area knows yet.
    pub fn new() -> State {
        State {
            packing: Packing::new(BitPacker::new()),
            unpacker: BitUnpacker {
                num_bits: 0,
                mask: 0,
            },
            store: BlockedBitpacker {
                buffer: [0; 128],
                used: 0,
                blocks: 0,
                waiting: 0,
                last_length: 0,
            },
        }
    }

    // A step of this kind, with the numbers behind it.
    pub fn take(&mut self, rt: &impl Print, areas: &mut Areas, kind: u64, step: &[u64]) {
        if let Ok(change) = Change::try_from(kind) {
            return self.change(rt, areas, change, step);
        }
        match Question::try_from(kind) {
            Ok(question) => self.answer(rt, areas, question, step),
            Err(_) => say(rt, &[0xbad]),
        }
    }

    fn change(&mut self, rt: &impl Print, areas: &mut Areas, change: Change, step: &[u64]) {
        let (bytes, entries) = areas.both();
        match change {
            Change::MakeStore => store::make(&mut self.store, rt, bytes),
            Change::AddValues => store::add(&mut self.store, rt, step, bytes, entries),
            Change::FlushStore => store::flush(&mut self.store, rt, bytes, entries),
            Change::SetEntries => packing::set_entries(rt, step, entries),
            Change::SetBytes => packing::set_bytes(rt, step, bytes),
            Change::Write => self.packing.write(rt, step, bytes),
            Change::FlushPacker => self.packing.flush(rt, step, bytes),
            Change::MakePacker => self.go_on_packing(rt, BitPacker::new()),
            Change::Start => self.start(rt, areas, step),
            Change::ForgeStore => self.forge_store(rt, step),
            Change::ForgePacker => self.forge_packer(rt, step),
            Change::MakeUnpacker => self.make_unpacker(rt, step),
            Change::ForgeUnpacker => self.forge_unpacker(rt, step),
        }
    }

    fn answer(&self, rt: &impl Print, areas: &Areas, question: Question, step: &[u64]) {
        let bytes = areas.bytes();
        let entries = areas.entries();
        match question {
            Question::NumBits => pure::num_bits(rt, step),
            Question::MinMax => pure::minmax(rt, step),
            Question::MinMaxOfPatterns => pure::minmax_of_patterns(rt, step),
            Question::Filter => pure::filter(rt, step),
            Question::Count => store::count(&self.store, rt, bytes, entries),
            Question::Fields => store::fields(&self.store, rt),
            Question::Waiting => say_area(rt, &[0], &self.store.buffer),
            Question::Entries => say_area(rt, &[0], entries),
            Question::Bytes => say_area(rt, &[0], bytes),
            Question::OfColumn(reading) => {
                let unpacker = self.unpacker;
                reading.answer(rt, &Bare { unpacker, bytes }, step);
            }
            Question::OfStore(reading) => {
                let store = &self.store;
                let column = InAreas {
                    store,
                    bytes,
                    entries,
                };
                reading.answer(rt, &column, step);
            }
        }
    }

    // `BYTES ENTRIES`: so much is lent, and nothing made.
    fn start(&mut self, rt: &impl Print, areas: &mut Areas, step: &[u64]) {
        let [bytes, entries] = first::<2>(step);
        areas.lend(bytes, entries);
        *self = State::new();
        say(rt, &[0]);
    }

    fn go_on_packing(&mut self, rt: &impl Print, packer: BitPacker) {
        self.packing = Packing::new(packer);
        say(rt, &[0]);
    }

    // `WIDTH`: the unpacker that the port makes.
    fn make_unpacker(&mut self, rt: &impl Print, step: &[u64]) {
        let [width] = first::<1>(step);
        let port = BitUnpacker::new(low_u8(width));
        self.unpacker = port.unwrap_or(self.unpacker);
        say(rt, &[number_of(port)]);
    }

    // `USED BLOCKS WAITING LAST_LENGTH`: a store that no call of the port makes.
    fn forge_store(&mut self, rt: &impl Print, step: &[u64]) {
        let [used, blocks, waiting, last_length] = first::<4>(step);
        self.store = BlockedBitpacker {
            used: used as usize,
            blocks: blocks as usize,
            waiting: waiting as usize,
            last_length: last_length as usize,
            ..self.store
        };
        say(rt, &[0]);
    }

    // `MINI_BUFFER HELD`
    fn forge_packer(&mut self, rt: &impl Print, step: &[u64]) {
        let [mini_buffer, held] = first::<2>(step);
        let packer = BitPacker {
            mini_buffer,
            mini_buffer_written: held as usize,
        };
        self.go_on_packing(rt, packer);
    }

    // `WIDTH MASK`
    fn forge_unpacker(&mut self, rt: &impl Print, step: &[u64]) {
        let [width, mask] = first::<2>(step);
        self.unpacker = BitUnpacker {
            num_bits: width as usize,
            mask,
        };
        say(rt, &[0]);
    }
}

// A column that grows: values wait until 128 are there and are then sealed as a block. The store is a
// value; its two areas, bytes and entry words, are lent at each call. `BlockedBitpacker` of the Rust's
// src/blocked_bitpacker.rs.
#![tactic(auto)]

mod reading;

ghost use Rattle.std.specs.Prelude.{◌≡◌, length};
ghost use Rattle.bitunpacker.specs.Unpacker.{range, search};
ghost use Rattle.blocked_bitpacker.specs.Store.{fresh_store, damaged_store};
ghost use Rattle.blocked_bitpacker.specs.Parts.{Judged};
ghost use Rattle.blocked_bitpacker.specs.Calls.{made, new_of, changed, refused_with, seal_or_refuse, add_of, flush_of, counted_of, get_of, get_range_of, search_of};

use reading::Lent;
use refusal::Refusal;

// The waiting values beside how many bytes and blocks are used, how many values wait, and, once a
// flush has closed the store, how many values its last block has. The store is of a fixed size, so the
// array has all its places, and a count stands beside it.
#[derive(Clone, Copy)]
pub struct BlockedBitpacker {
    pub buffer: [u64; 128],
    pub used: usize,
    pub blocks: usize,
    pub waiting: usize,
    pub last_length: usize,
}

// What a call that changes the store answers, with the store as it then is. A refused call gives the
// store back too, so it stands beside the Result and not in its Ok.
#[derive(Clone, Copy)]
pub struct Stored {
    pub done: Result<(), Refusal>,
    pub store: BlockedBitpacker,
}

impl BlockedBitpacker {
    // How many values a block holds, and how many blocks a store.
    pub const BLOCK_SIZE: usize = 128;

    pub const MAX_BLOCKS: usize = 16_777_216;

    // The first word of an entry is the offset of its block, and its width times this.
    pub(crate) const WIDTH_PLACE: u64 = 0x100_0000_0000_0000;

    fn fresh() -> BlockedBitpacker
        ensures { result ≡ fresh_store }
    {
        BlockedBitpacker {
            buffer: [0; 128],
            used: 0,
            blocks: 0,
            waiting: 0,
            last_length: 0,
        }
    }

    // A store with nothing in it, whose byte area starts with eight zeros.
    pub fn new(bytes: &mut [u8]) -> Stored
        ensures { made result bytes.new ≡ new_of bytes.old }
    {
        let store = BlockedBitpacker::fresh();
        if bytes.len() < 8 {
            return store.refused(Refusal::NoRoom);
        }
        block::clear_eight(bytes);
        Stored {
            done: Ok(()),
            store,
        }
    }

    // Document 01's "Damaged", of a store in areas of so many bytes and entry words.
    #[tactic(auto, unfolding(crate::specs::Store::damaged_store))]
    pub(crate) fn is_damaged(&self, byte_area: usize, entry_area: usize) -> bool
        ensures { result ≡ damaged_store self.now byte_area entry_area }
    {
        127 < self.waiting
            || BlockedBitpacker::MAX_BLOCKS < self.blocks
            || 1024 * self.blocks < self.used
            || byte_area < self.used + 8
            || entry_area < 2 * self.blocks
            || 127 < self.last_length
            || 0 < self.last_length && (0 < self.waiting || self.blocks == 0)
    }

    // How many values were accepted.
    pub fn count(self, bytes: &[u8], entries: &[u64]) -> Result<usize, Refusal>
        ensures { result ≡ counted_of self bytes.now entries.now }
    {
        let lent = Lent::new(&self, bytes, entries)?;
        Ok(lent.count())
    }

    // The places of the values that wait.
    pub(crate) fn places(&self) -> &[u64]
        ensures same { result.now ≡ self.now.buffer }
        ensures len { length result.now ≡ 128 }
    {
        &self.buffer[..]
    }

    // A call that was refused, with the store as it came.
    fn refused(&self, why: Refusal) -> Stored
        ensures { result ≡ refused_with why self.now }
    {
        Stored {
            done: Err(why),
            store: *self,
        }
    }

    // Seals some values as a block behind the others, with the last length that the store then has.
    fn seal(
        &self,
        values: &[u64],
        last_length: usize,
        bytes: &mut [u8],
        entries: &mut [u64],
    ) -> Stored
        requires { Judged self.now (length bytes.old) (length entries.old) }
        ensures { changed result bytes.new entries.new ≡ seal_or_refuse self.now values.now last_length bytes.old entries.old }
    {
        let used = self.used;
        let blocks = self.blocks;
        let at = 2 * blocks;
        if BlockedBitpacker::MAX_BLOCKS <= blocks || entries.len() < at + 2 {
            return self.refused(Refusal::EntriesFull);
        }
        match block::seal(values, &mut bytes[used..]) {
            Err(why) => self.refused(why),
            Ok(sealed) => {
                entries[at] = used as u64 + sealed.width as u64 * BlockedBitpacker::WIDTH_PLACE;
                entries[at + 1] = sealed.base;
                Stored {
                    done: Ok(()),
                    store: BlockedBitpacker {
                        buffer: [0; 128],
                        used: used + sealed.size,
                        blocks: blocks + 1,
                        waiting: 0,
                        last_length,
                    },
                }
            }
        }
    }

    // Adds a value. The 128th waiting one seals a block.
    #[tactic(auto, using(crate::proofs::Judged::judged))]
    pub fn add(self, val: u64, bytes: &mut [u8], entries: &mut [u64]) -> Stored
        ensures { changed result bytes.new entries.new ≡ add_of self val bytes.old entries.old }
    {
        if self.is_damaged(bytes.len(), entries.len()) {
            return self.refused(Refusal::Damaged);
        }
        if 0 < self.last_length {
            return self.refused(Refusal::Closed);
        }
        let waiting = self.waiting;
        let mut next = self;
        next.buffer[waiting] = val;
        next.waiting = waiting + 1;
        if waiting + 1 < BlockedBitpacker::BLOCK_SIZE {
            return Stored {
                done: Ok(()),
                store: next,
            };
        }
        self.seal(next.places(), 0, bytes, entries)
    }

    // Seals what waits, and closes the store.
    #[tactic(auto, using(crate::proofs::Judged::judged))]
    pub fn flush(self, bytes: &mut [u8], entries: &mut [u64]) -> Stored
        ensures { changed result bytes.new entries.new ≡ flush_of self bytes.old entries.old }
    {
        if self.is_damaged(bytes.len(), entries.len()) {
            return self.refused(Refusal::Damaged);
        }
        let waiting = self.waiting;
        if waiting == 0 {
            return Stored {
                done: Ok(()),
                store: self,
            };
        }
        self.seal(&self.places()[..waiting], waiting, bytes, entries)
    }

    // The value at an index.
    pub fn get(self, idx: usize, bytes: &[u8], entries: &[u64]) -> Result<u64, Refusal>
        ensures { result ≡ get_of self idx bytes.now entries.now }
    {
        let lent = Lent::new(&self, bytes, entries)?;
        if lent.count() <= idx {
            return Err(Refusal::NoSuchIndex);
        }
        lent.get(idx)
    }

    // Fills the output with the values from an index on.
    pub fn get_range(
        self,
        start: usize,
        bytes: &[u8],
        entries: &[u64],
        output: &mut [u64],
    ) -> Result<(), Refusal>
        ensures { range result output.new ≡ get_range_of self start bytes.now entries.now output.old }
    {
        let lent = Lent::new(&self, bytes, entries)?;
        if output.is_empty() {
            return Ok(());
        }
        let count = lent.count();
        if count < start || count - start < output.len() {
            return Err(Refusal::NoSuchIndex);
        }
        if lent.touches_damage(start, start + output.len()) {
            return Err(Refusal::Damaged);
        }
        lent.read_all(start, output);
        Ok(())
    }

    // The ids from start to before end whose value lies in lo..=hi, ascending, at the start of the
    // positions.
    pub fn get_ids_for_value_range(
        self,
        lo: u64,
        hi: u64,
        start: u32,
        end: u32,
        bytes: &[u8],
        entries: &[u64],
        positions: &mut [u32],
    ) -> Result<usize, Refusal>
        ensures { search result positions.new ≡ search_of self lo hi start end bytes.now entries.now positions.old }
    {
        let lent = Lent::new(&self, bytes, entries)?;
        if end <= start {
            return Ok(0);
        }
        if lent.count() < end as usize {
            return Err(Refusal::NoSuchIndex);
        }
        if positions.len() < (end - start) as usize {
            return Err(Refusal::NoRoom);
        }
        if lent.touches_damage(start as usize, end as usize) {
            return Err(Refusal::Damaged);
        }
        Ok(lent.find(lo, hi, start as usize, end as usize, positions))
    }
}

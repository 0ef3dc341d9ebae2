// What is asked of single values, of a bare column or of a store.
ghost use Rattle.std.specs.Prelude.{◌≤◌, length};

use crate::areas;
use crate::areas::front;
use crate::line::{first, low_u32};
use crate::say::{number_of, say_area};
use bitunpacker::BitUnpacker;
use blocked_bitpacker::BlockedBitpacker;
use refusal::Refusal;

pub trait Column {
    fn get(&self, index: u64) -> Result<u64, Refusal>;

    fn get_range(&self, start: u64, output: &mut [u64]) -> Result<(), Refusal>;

    // The positions from start to before end of the values from lo to hi.
    fn search(
        &self,
        lo: u64,
        hi: u64,
        start: u32,
        end: u32,
        positions: &mut [u32],
    ) -> Result<usize, Refusal>;
}

// A column by itself, whose unpacker may be forged.
#[derive(Clone, Copy)]
pub struct Bare<'a> {
    pub unpacker: BitUnpacker,
    pub bytes: &'a [u8],
}

impl Column for Bare<'_> {
    fn get(&self, index: u64) -> Result<u64, Refusal> {
        self.unpacker.get(low_u32(index), self.bytes)
    }

    fn get_range(&self, start: u64, output: &mut [u64]) -> Result<(), Refusal> {
        self.unpacker.get_range(low_u32(start), self.bytes, output)
    }

    fn search(
        &self,
        lo: u64,
        hi: u64,
        start: u32,
        end: u32,
        positions: &mut [u32],
    ) -> Result<usize, Refusal> {
        self.unpacker
            .get_ids_for_value_range(lo, hi, start, end, self.bytes, positions)
    }
}

// A store in its areas, as a call of the port is lent them.
#[derive(Clone, Copy)]
pub struct InAreas<'a> {
    pub store: &'a BlockedBitpacker,
    pub bytes: &'a [u8],
    pub entries: &'a [u64],
}

impl Column for InAreas<'_> {
    fn get(&self, index: u64) -> Result<u64, Refusal> {
        self.store.get(index as usize, self.bytes, self.entries)
    }

    fn get_range(&self, start: u64, output: &mut [u64]) -> Result<(), Refusal> {
        self.store
            .get_range(start as usize, self.bytes, self.entries, output)
    }

    fn search(
        &self,
        lo: u64,
        hi: u64,
        start: u32,
        end: u32,
        positions: &mut [u32],
    ) -> Result<usize, Refusal> {
        let bytes = self.bytes;
        let entries = self.entries;
        self.store
            .get_ids_for_value_range(lo, hi, start, end, bytes, entries, positions)
    }
}

// How values are asked for.
#[derive(Clone, Copy, Debug, PartialEq, Eq)]
pub enum Reading {
    Each,
    Range,
    Search,
}

impl Reading {
    pub fn answer(self, rt: &impl Print, column: &impl Column, step: &[u64]) {
        match self {
            Reading::Each => each(rt, column, step),
            Reading::Range => range(rt, column, step),
            Reading::Search => search(rt, column, step),
        }
    }
}

// Reads one value after the other, as many as there are places for, up to the first that is refused.
fn get_each(column: &impl Column, start: u64, values: &mut [u64]) -> (usize, Result<(), Refusal>)
    ensures { result.0 ≤ length values.new }
{
    for (i, value) in values.iter_mut().enumerate() {
        match column.get(start.wrapping_add(i as u64)) {
            Ok(read) => *value = read,
            Err(why) => return (i, Err(why)),
        }
    }
    (values.len(), Ok(()))
}

// `START COUNT`: the values, each by a read of its own, up to the first that is refused. Answered by 0 or the number
// of the refusal, and by the values.
fn each(rt: &impl Print, column: &impl Column, step: &[u64]) {
    let [start, count] = first::<2>(step);
    let mut room = areas::room(areas::WORD);
    let values = front(&mut room, count);
    let (read, port) = get_each(column, start, values);
    say_area(rt, &[number_of(port)], &values[..read]);
}

// `START COUNT`: the values by one read, answered by 0 or the number of the refusal, and the output as it
// then is.
fn range(rt: &impl Print, column: &impl Column, step: &[u64]) {
    let [start, count] = first::<2>(step);
    let mut room = areas::room(areas::WORD);
    let output = front(&mut room, count);
    let port = column.get_range(start, output);
    say_area(rt, &[number_of(port)], output);
}

// `LO HI START END ROOM`, with the positions that are lent. Answered by 0 or the number of the refusal, by how many
// ids there are, and by every position that was lent.
fn search(rt: &impl Print, column: &impl Column, step: &[u64]) {
    let [lo, hi, start, end, count] = first::<5>(step);
    let mut room = areas::room(areas::POSITION);
    let positions = front(&mut room, count);
    let port = column.search(lo, hi, low_u32(start), low_u32(end), positions);
    say_area(rt, &[number_of(port), port.unwrap_or(0) as u64], positions);
}

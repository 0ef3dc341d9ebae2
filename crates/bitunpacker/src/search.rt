// The search's three roads. Values of up to 32 bits are decoded in batches of 32, the highway, with a
// ramp before and after it, and each batch is filtered; wider ones are looked at one by one.
ghost use Rattle.std.specs.Prelude.{◌≡◌, ◌+◌, ◌-◌, ◌%◌, ◌^◌, ◌≤◌, length};
ghost use Rattle.bit_rule.specs.Search.{matching_ids};
ghost use Rattle.bitunpacker.specs.Parts.{Kept};
ghost use Rattle.bitunpacker.specs.Roads.{ids_in};

use crate::column::Column;
use filter_vec::{filter_vec_in_place, lies_between};

// The values of a batch.
const BATCH: usize = 32;

// The values that are looked for, lo..=hi.
#[derive(Clone, Copy)]
pub(crate) struct Interval<T> {
    pub(crate) lo: T,
    pub(crate) hi: T,
}

// Keeps the ids of a batch's matching values at the start of the positions, and says how many they
// are. The batch is used up.
fn keep(interval: Interval<u32>, id: u32, batch: &mut [u32], positions: &mut [u32]) -> usize
    requires batch_bound { id + length batch.old ≤ 2 ^ 32 }
    requires batch_in_bounds { length batch.old ≤ length positions.old }
    ensures { Kept 0 (matching_ids interval.lo interval.hi id batch.old) positions.old result positions.new }
{
    let count = filter_vec_in_place(interval.lo, interval.hi, id, batch);
    positions[..count].copy_from_slice(&batch[..count]);
    count
}

// Where the entrance ramp ends: at the first index from `start` on whose values start on a byte, or
// at the end.
fn ramp_end(start: u32, end: u32) -> u32
    requires { start ≤ end }
    ensures { (start ≤ result) × (result ≤ end) × (result - start ≤ 32) × (32 ≤ end - result → result % 8 ≡ 0) }
{
    let ramp_len = (8 - start % 8) % 8;
    if end - start < ramp_len {
        return end;
    }
    start + ramp_len
}

// The search of a column whose values have up to 32 bits.
#[derive(Clone, Copy)]
struct Narrow<'a> {
    column: Column<'a>,
    interval: Interval<u32>,
    ghost narrow: { column.unpacker.num_bits ≤ 32 },
}

// What is asked of a range and of the positions is said at each call: both are there for one call, and a type for them
// would be made and taken apart at each.
impl Narrow<'_> {
    // A ramp: at most 32 ids, wherever they start.
    fn ramp(&self, from: u32, to: u32, positions: &mut [u32]) -> usize
        requires within { (from ≤ to) × (to ≤ self.now.column.count) }
        requires few { (to - from ≤ 32) × (to - from ≤ length positions.old) }
        ensures { Kept 0 (ids_in self.now.column self.now.interval.lo self.now.interval.hi from to) positions.old result positions.new }
    {
        let mut places = [0; BATCH];
        let batch = &mut places[..(to - from) as usize];
        self.column.fill(from as usize, batch);
        keep(self.interval, from, batch, positions)
    }

    // One batch of the highway: 32 ids that start on a byte, decoded from the part of the data that
    // starts there.
    fn highway_batch(&self, from: u32, positions: &mut [u32]) -> usize
        requires within { (from % 8 ≡ 0) × (from + 32 ≤ self.now.column.count) }
        requires few { (from + 32 ≤ 2 ^ 32) × (32 ≤ length positions.old) }
        ensures { Kept 0 (ids_in self.now.column self.now.interval.lo self.now.interval.hi from (from + 32)) positions.old result positions.new }
    {
        let offset = from as usize / 8 * self.column.unpacker.num_bits;
        let part = Column {
            unpacker: self.column.unpacker,
            bytes: &self.column.bytes[offset..],
            count: BATCH,
        };
        let mut batch = [0; BATCH];
        part.fill(0, &mut batch);
        keep(self.interval, from, &mut batch, positions)
    }

    // The entrance ramp, the highway and the exit ramp.
    fn find(&self, start: u32, end: u32, positions: &mut [u32]) -> usize
        requires within { (start ≤ end) × (end ≤ self.now.column.count) }
        requires room { end - start ≤ length positions.old }
        ensures { Kept 0 (ids_in self.now.column self.now.interval.lo self.now.interval.hi start end) positions.old result positions.new }
    {
        let on = ramp_end(start, end);
        let off = end - (end - on) % 32;
        let mut found = self.ramp(start, on, positions);
        for at in (on..off).step_by(BATCH) {
            found += self.highway_batch(at, &mut positions[found..]);
        }
        found + self.ramp(off, end, &mut positions[found..])
    }
}

impl Column<'_> {
    // The ids of matching values of any width, one by one.
    fn find_wide(
        &self,
        interval: Interval<u64>,
        start: u32,
        end: u32,
        positions: &mut [u32],
    ) -> usize
        requires within { (start ≤ end) × (end ≤ self.now.count) }
        requires room { end - start ≤ length positions.old }
        ensures { Kept 0 (ids_in self.now interval.lo interval.hi start end) positions.old result positions.new }
    {
        let mut found = 0;
        for id in start..end {
            if lies_between(interval.lo, interval.hi, self.value_at(id)) {
                positions[found] = id;
                found += 1;
            }
        }
        found
    }

    // The ids from start to before end whose value lies in the interval, ascending, at the start of
    // the positions, and how many they are.
    pub(crate) fn find(
        &self,
        interval: Interval<u64>,
        start: u32,
        end: u32,
        positions: &mut [u32],
    ) -> usize
        requires within { (start ≤ end) × (end ≤ self.now.count) }
        requires room { end - start ≤ length positions.old }
        ensures { Kept 0 (ids_in self.now interval.lo interval.hi start end) positions.old result positions.new }
    {
        if 32 < self.unpacker.num_bits {
            return self.find_wide(interval, start, end, positions);
        }
        let Ok(lo) = u32::try_from(interval.lo) else {
            return 0;
        };
        let hi = u32::try_from(interval.hi).unwrap_or(u32::MAX);
        let narrow = Narrow {
            column: *self,
            interval: Interval { lo, hi },
        };
        narrow.find(start, end, positions)
    }
}

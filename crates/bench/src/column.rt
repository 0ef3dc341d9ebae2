// Reading and searching a bare column, whose values all lie in the data.
ghost use Rattle.std.specs.Prelude.{◌≤◌, length};

use crate::areas::{BYTES, POSITIONS, area, bytes_lent};
use crate::load::Load;
use crate::pack;
use bitunpacker::BitUnpacker;
use refusal::Refusal;

// How far apart two reads are, so that they jump about in the column.
const STRIDE: u32 = 1543;

const LARGEST: u32 = 400_000;

fn next(index: u32, count: u32) -> u32 {
    if index > LARGEST {
        return 0;
    }
    let far = index + STRIDE;
    if far >= count { far - count } else { far }
}

// The sum of the values, jumping about.
pub fn get_each(unpacker: BitUnpacker, data: &[u8], count: u32) -> Result<u64, Refusal> {
    let mut sum: u64 = 0;
    let mut index = 0;
    for _ in 0..count {
        sum = sum.wrapping_add(unpacker.get(index, data)?);
        index = next(index, count);
    }
    Ok(sum)
}

// So many ranges, each as long as the output, whose length is step. A refused range leaves the output as it is, and adds 0.
fn ranges(unpacker: BitUnpacker, data: &[u8], turns: u32, step: u32, output: &mut [u64]) -> u64
    requires { 1 ≤ length output.old }
{
    let mut sum: u64 = 0;
    // Carried, and not the turn times the step, which would add a product to what is counted.
    let mut start: u32 = 0;
    for _ in 0..turns {
        output[0] = 0;
        let _ = unpacker.get_range(start, data, output);
        sum = sum.wrapping_add(output[0]);
        start = start.wrapping_add(step);
    }
    sum
}

// One for each length of the output: a `usize` of the array's cannot be computed from the 32 bits of a step, nor the other
// way round.
pub fn ranges_of_64(unpacker: BitUnpacker, data: &[u8], count: u32) -> Result<u64, Refusal> {
    Ok(ranges(unpacker, data, count / 64, 64, &mut [0; 64]))
}

pub fn ranges_of_1000(unpacker: BitUnpacker, data: &[u8], count: u32) -> Result<u64, Refusal> {
    Ok(ranges(unpacker, data, count / 1000, 1000, &mut [0; 1000]))
}

// Not inlined: the positions take more than a megabyte of the stack, which is cleared where the function begins.
#[inline(never)]
pub fn search(unpacker: BitUnpacker, data: &[u8], count: u32) -> Result<u64, Refusal> {
    let mut positions = area::<u32, POSITIONS>(0);
    let found = unpacker.get_ids_for_value_range(1, 1, 0, count, data, &mut positions)?;
    Ok(found as u64)
}

// Asks a column so many times. What is refused adds 0.
pub fn work<F: Fn(BitUnpacker, &[u8], u32) -> Result<u64, Refusal>>(load: Load, ask: F) -> u64
    requires { F.IsAlwaysCallable ask }
{
    let mut bytes = area::<u8, BYTES>(0);
    let _ = pack::fill(load.width, load.count, load.spacing, &mut bytes);
    let Ok(unpacker) = BitUnpacker::new(load.width) else {
        return 0;
    };
    let data = &bytes[0..bytes_lent(load.count)];
    let count = load.count;
    load.total(move |_| ask(unpacker, data, count).unwrap_or(0))
}

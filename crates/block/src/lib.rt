// One block of values: its packed differences and eight zeros after them, and its values read back. The
// middle of `flush` and of `get` in the Rust's src/blocked_bitpacker.rs.
#![tactic(auto)]

ghost use Rattle.std.specs.Prelude.{◌≡◌, ℕ, ◌<◌, ◌≤◌, map, length, slice_index};
ghost use Rattle.bit_rule.specs.Stream.{Fit, of_width};
ghost use Rattle.bitpacker.proofs.Run.{packed};
ghost use Rattle.bitunpacker.specs.Unpacker.{range};
ghost use Rattle.block.specs.Block.{differences, bytes_of_block, above_base};
ghost use Rattle.block.specs.Calls.{outcome, cleared_of, seal_of, read_of, read_one_of};

use bit_rule::column_bytes;
use bitpacker::BitPacker;
use bitunpacker::BitUnpacker;
use num_bits::{compute_num_bits, minmax};
use refusal::Refusal;

// A block that was sealed: its lowest value, how many bits each difference to that takes, and how many bytes the block.
#[derive(Clone, Copy)]
pub struct Sealed {
    pub base: u64,
    pub width: usize,
    pub size: usize,
}

// Packs the differences to a base at the start of the output. `stumpvessel` packs words of bytes in the same
// way: a contract of one function for both would have to say what an iterator gives, where these name the list.
#[tactic(auto, using(crate::proofs::Packing::place_within))]
fn pack(values: &[u64], base: u64, width: u8, output: &mut [u8])
    requires width_bound { (width ≤ 64) × Fit (of_width width (differences base values.now)) }
    requires by_index { (i : ℕ) → i < length values.now → base ≤ slice_index values.now i }
    requires width_in_bounds { bytes_of_block (length values.now) width ≤ length output.old }
    ensures { output.new ≡ packed (of_width width (differences base values.now)) output.old }
{
    let mut packer = BitPacker::new();
    let mut at = 0;
    for value in values {
        let written = packer
            .write(*value - base, width, &mut output[at..])
            .unwrap();
        packer = written.packer;
        at += written.emitted;
    }
    packer.flush(&mut output[at..]).unwrap();
}

// Eight zero bytes at the start of the output.
#[tactic(auto, using(crate::proofs::SealingLaws::eight_zeros_put, crate::proofs::SealingLaws::left_alone))]
pub fn clear_eight(output: &mut [u8])
    ensures { output.new ≡ cleared_of output.old }
{
    if 8 <= output.len() {
        output[..8].fill(0);
    }
}

// Seals a block: base the lowest value, width that of the highest less the lowest, the differences
// packed at the start of the bytes, and eight zero bytes after them.
pub fn seal(values: &[u64], bytes: &mut [u8]) -> Result<Sealed, Refusal>
    ensures { outcome result bytes.new ≡ seal_of values.now bytes.old }
{
    let (lowest, highest) = minmax(values).unwrap_or((0, 0));
    let num_bits = compute_num_bits(highest - lowest);
    let width = num_bits as usize;
    let size = column_bytes(values.len(), width);
    if bytes.len() < size + 8 {
        return Err(Refusal::NoRoom);
    }
    pack(values, lowest, num_bits, bytes);
    clear_eight(&mut bytes[size..]);
    Ok(Sealed {
        base: lowest,
        width,
        size,
    })
}

// Adds the base to each value.
fn raise(base: u64, values: &mut [u64])
    ensures { values.new ≡ map (above_base base) values.old }
{
    for value in values.iter_mut() {
        *value = base.wrapping_add(*value);
    }
}

// Reads the values from place `first` on of a block that starts with the bytes.
pub fn read(
    base: u64,
    width: u8,
    first: u32,
    bytes: &[u8],
    output: &mut [u64],
) -> Result<(), Refusal>
    ensures { range result output.new ≡ read_of base width first bytes.now output.old }
{
    BitUnpacker::new(width)?.get_range(first, bytes, output)?;
    raise(base, output);
    Ok(())
}

// Reads the value at one place of a block that starts with the bytes.
pub fn read_one(base: u64, width: u8, place: u32, bytes: &[u8]) -> Result<u64, Refusal>
    ensures { result ≡ read_one_of base width place bytes.now }
{
    let difference = BitUnpacker::new(width)?.get(place, bytes)?;
    Ok(base.wrapping_add(difference))
}

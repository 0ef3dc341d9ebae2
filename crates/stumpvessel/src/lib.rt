// What the desk's host program calls from C: the width of an amplitude, packing a list, one read. Each
// answers 0, or the number of a refusal, and then has written nothing.
#![tactic(auto)]

ghost use Rattle.std.specs.Prelude.{◌≡◌, ◌*◌, ◌≤◌, ◌<◌, ◌^◌, false, length, map};
ghost use Rattle.std.specs.Int.{from_le_bytes, w64};
ghost use Rattle.bit_rule.specs.Bytes.{bytes_for};
ghost use Rattle.bit_rule.specs.Stream.{of_width};
ghost use Rattle.bit_rule.specs.Width.{width_of};
ghost use Rattle.bitpacker.proofs.Run.{packed};
ghost use Rattle.stumpvessel.specs.Host.{answered, status_of, any_too_wide, pack_list_of, put_of, read_of};

use bit_rule::column_bytes;
use bitpacker::{BitPacker, exceeds};
use bitunpacker::BitUnpacker;
use num_bits::compute_num_bits;
use refusal::Refusal;

// What C is answered: 0, or the number of the refusal.
fn status(answer: Result<(), Refusal>) -> u8
    ensures { result ≡ status_of answer }
{
    match answer {
        Ok(()) => 0,
        Err(why) => why.number(),
    }
}

// The width of an amplitude.
#[unsafe(no_mangle)]
pub extern "C" fn stumpvessel_width(amplitude: u64) -> u8
    ensures { result ≡ width_of amplitude }
{
    compute_num_bits(amplitude)
}

// Whether one of the words does not fit the width.
fn has_too_wide(words: &[[u8; 8]], width: u8) -> bool
    ensures { result ≡ any_too_wide width (map (from_le_bytes w64) words.now) }
{
    words.iter().any(|word| exceeds(u64::from_le_bytes(*word), usize::from(width)))
}

// Packs the words at the start of the output, as `block` packs its values. They are two functions: a word is
// made of its bytes as it is packed and a difference of its value, and a contract of one function for both
// would have to say what an iterator gives, where these two name the list.
fn pack(words: &[[u8; 8]], width: u8, output: &mut [u8])
    requires width_bound { (width ≤ 64) × (any_too_wide width (map (from_le_bytes w64) words.now) ≡ false) }
    requires width_in_bounds { bytes_for (length words.now * width) ≤ length output.old }
    ensures { output.new ≡ packed (of_width width (map (from_le_bytes w64) words.now)) output.old }
{
    let mut packer = BitPacker::new();
    let mut at = 0;
    for word in words {
        let written = packer
            .write(u64::from_le_bytes(*word), width, &mut output[at..])
            .unwrap();
        packer = written.packer;
        at += written.emitted;
    }
    packer.flush(&mut output[at..]).unwrap();
}

// What `stumpvessel_pack` does, with the refusal in place of its number.
fn pack_list(list: &[u8], width: u8, output: &mut [u8]) -> Result<(), Refusal>
    ensures { answered (status_of result) output.new ≡ pack_list_of list.now width output.old }
{
    if 64 < width {
        return Err(Refusal::BadWidth);
    }
    let (words, rest) = list.as_chunks::<8>();
    if !rest.is_empty() {
        return Err(Refusal::OutOfData);
    }
    if has_too_wide(words, width) {
        return Err(Refusal::TooWide);
    }
    if output.len() < column_bytes(words.len(), usize::from(width)) {
        return Err(Refusal::NoRoom);
    }
    pack(words, width, output);
    Ok(())
}

// Packs a list of words of eight bytes, least byte first, at one width.
#[unsafe(no_mangle)]
pub extern "C" fn stumpvessel_pack(list: &[u8], width: u8, output: &mut [u8]) -> u8
    ensures { answered result output.new ≡ pack_list_of list.now width output.old }
{
    status(pack_list(list, width, output))
}

// Puts a value into the output's first eight bytes, least byte first.
fn put(value: u64, output: &mut [u8]) -> Result<(), Refusal>
    ensures { answered (status_of result) output.new ≡ put_of value output.old }
{
    if output.len() < 8 {
        return Err(Refusal::NoRoom);
    }
    output[..8].copy_from_slice(&value.to_le_bytes());
    Ok(())
}

// What `stumpvessel_read` does, with the refusal in place of its number.
fn read(data: &[u8], width: u8, index: u32, output: &mut [u8]) -> Result<(), Refusal>
    ensures { answered (status_of result) output.new ≡ read_of «data».now width index output.old }
{
    let value = BitUnpacker::new(width)?.get(index, data)?;
    put(value, output)
}

// Reads the value at an index of a column into the output's first eight bytes, least byte first.
#[unsafe(no_mangle)]
pub extern "C" fn stumpvessel_read(data: &[u8], width: u8, index: u32, output: &mut [u8]) -> u8
    ensures { answered result output.new ≡ read_of «data».now width index output.old }
{
    status(read(data, width, index, output))
}

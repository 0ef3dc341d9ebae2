// The arithmetic of a place in packed bytes: masks and the eight-byte load.
ghost use Rattle.std.specs.Prelude.{◌≡◌, ◌+◌, ◌/◌, ◌^◌, ◌≤◌, ◌<◌, length, take, drop};
ghost use Rattle.std.specs.Int.Bits.{bit_and};
ghost use Rattle.bit_rule.specs.Bytes.{number};
ghost use Rattle.bitunpacker.specs.Unpacker.{mask_of};

// The lowest `width` bits set.
pub(crate) fn mask_of(width: usize) -> u64
    requires { width ≤ 64 }
    ensures { result ≡ mask_of width }
{
    if width == 64 {
        u64::MAX
    } else {
        (1 << width) - 1
    }
}

// Eight bytes as a number. It compiles to one load.
fn load_word(bytes: &[u8], at: usize) -> u64
    requires { at + 8 ≤ length bytes.now }
    ensures { result ≡ number (take 8 (drop at bytes.now)) }
{
    u64::from_le_bytes(bytes[at..at + 8].try_into().unwrap())
}

// What is there of eight bytes near the end, as a number. Byte by byte: to copy as many as are there is a call of the C library,
// which takes longer, and which the functions for C would have to be linked with.
fn load_tail(bytes: &[u8], at: usize) -> u64
    requires { length bytes.now < at + 8 }
    ensures { result ≡ number (take 8 (drop at bytes.now)) }
{
    let mut value = 0;
    for i in (at..bytes.len()).rev() {
        value = value * 256 + u64::from(bytes[i]);
    }
    value
}

// The bits above `shift` of eight bytes that are there, cut by a mask.
pub(crate) fn word_at(bytes: &[u8], at: usize, shift: usize, mask: u64) -> u64
    requires at_in_bounds { at + 8 ≤ length bytes.now }
    requires shift_bound { shift < 8 }
    ensures { result ≡ bit_and (number (take 8 (drop at bytes.now)) / 2 ^ shift) mask }
{
    load_word(bytes, at) >> shift & mask
}

// The same near the end, where a byte that is not there counts as 0.
pub(crate) fn tail_at(bytes: &[u8], at: usize, shift: usize, mask: u64) -> u64
    requires bytes_len_bound { length bytes.now < at + 8 }
    requires shift_bound { shift < 8 }
    ensures { result ≡ bit_and (number (take 8 (drop at bytes.now)) / 2 ^ shift) mask }
{
    load_tail(bytes, at) >> shift & mask
}

// That, kept out of the loops that read one value after the other: few values lie there, and with it a loop takes more for each.
#[cold]
#[inline(never)]
fn tail_apart(bytes: &[u8], at: usize, shift: usize, mask: u64) -> u64
    requires bytes_len_bound { length bytes.now < at + 8 }
    requires shift_bound { shift < 8 }
    ensures { result ≡ bit_and (number (take 8 (drop at bytes.now)) / 2 ^ shift) mask }
{
    tail_at(bytes, at, shift, mask)
}

// Either of the two, at any place.
pub(crate) fn bits_at(bytes: &[u8], at: usize, shift: usize, mask: u64) -> u64
    requires { shift < 8 }
    ensures { result ≡ bit_and (number (take 8 (drop at bytes.now)) / 2 ^ shift) mask }
{
    let len = bytes.len();
    if len < 8 || len - 8 < at {
        return tail_apart(bytes, at, shift, mask);
    }
    word_at(bytes, at, shift, mask)
}

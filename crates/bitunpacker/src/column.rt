// A column as it is read: an unpacker with the data that it reads. Document 01 has the two lent
// apart, at each call; here they have been checked, and what the checks found goes with them.
ghost use Rattle.std.specs.Prelude.{◌≡◌, ℕ, ◌+◌, ◌^◌, ◌≤◌, ◌<◌, length, map};
ghost use Rattle.bit_rule.specs.Place.{value_at, values_from};
ghost use Rattle.bitunpacker.specs.Parts.{InData};

use crate::BitUnpacker;
use crate::bits::bits_at;

// What a decoded value is put into, where it is narrow enough.
pub(crate) trait Element: Copy {
    ghost width: { ℕ };

    ghost holding: { ℕ → Self };

    fn of_value(value: u64) -> Self
        requires { value < 2 ^ width }
        ensures { result ≡ holding value };
}

impl Element for u64 {
    ghost width = { 64 };

    ghost holding = { λ value. value };

    fn of_value(value: u64) -> u64 {
        value
    }
}

impl Element for u32 {
    ghost width = { 32 };

    ghost holding = { λ value. value };

    fn of_value(value: u64) -> u32 {
        value as u32
    }
}

// The first `count` values of the data, read by an unpacker that is sound.
#[derive(Clone, Copy)]
pub(crate) struct Column<'a> {
    pub(crate) unpacker: BitUnpacker,
    pub(crate) bytes: &'a [u8],
    pub(crate) count: usize,
    ghost in_data: { InData unpacker count bytes.now },
}

impl Column<'_> {
    // The value at an index.
    #[tactic(auto, using(crate::proofs::Laws::index_fits))]
    pub(crate) fn value_at(&self, index: u32) -> u64
        requires { index < self.now.count }
        ensures { result ≡ value_at self.now.unpacker.num_bits index self.now.bytes.now }
    {
        let bit = index as usize * self.unpacker.num_bits;
        bits_at(self.bytes, bit / 8, bit % 8, self.unpacker.mask)
    }

    // Fills the output with the values from an index on.
    pub(crate) fn fill<T: Element>(&self, start: usize, output: &mut [T])
        requires within { start + length output.old ≤ self.now.count }
        requires narrow { self.now.unpacker.num_bits ≤ T.width }
        ensures { output.new ≡ map T.holding (values_from self.now.unpacker.num_bits start (length output.old) self.now.bytes.now) }
    {
        let bytes = self.bytes;
        let mask = self.unpacker.mask;
        let width = self.unpacker.num_bits;
        let lead = start % 8 * width;
        let mut at = start / 8 * width + lead / 8;
        let mut shift = lead % 8;
        for slot in output.iter_mut() {
            *slot = T::of_value(bits_at(bytes, at, shift, mask));
            at += (shift + width) / 8;
            shift = (shift + width) % 8;
        }
    }
}

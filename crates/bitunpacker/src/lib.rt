// Reads and searches a column of one width: `BitUnpacker` of the Rust's src/bitpacker.rs. The data,
// the output and the positions are lent at each call, and a call that cannot be met is refused and
// changes nothing.
#![tactic(auto)]

mod bits;
mod column;
mod search;

ghost use Rattle.std.specs.Prelude.{◌≡◌, true, ◌+◌, ◌*◌, ◌%◌, ◌^◌, ◌≤◌, ◌<◌, length, IfOk, MatchResult};
ghost use Rattle.bit_rule.specs.Width.{legal_width};
ghost use Rattle.bit_rule.specs.Place.{values_from};
ghost use Rattle.bitunpacker.specs.Parts.{checked};
ghost use Rattle.bitunpacker.specs.Roads.{IsColumnOf};
ghost use Rattle.bitunpacker.specs.Unpacker.{mask_of, out_of_data, Sound, new_of, get_of, range, get_range_of, search, search_of};

use bit_rule::column_bytes;
use bits::{mask_of, tail_at, word_at};
use column::Column;
use refusal::Refusal;
use search::Interval;

// The width of every value of a column, and the mask that cuts a value to it.
#[derive(Clone, Copy)]
pub struct BitUnpacker {
    pub num_bits: usize,
    pub mask: u64,
}

impl BitUnpacker {
    // The legal widths: a value of up to 56 bits lies within eight bytes wherever it starts, and one of
    // 64 starts on a byte.
    pub const WIDEST_ANYWHERE: usize = 56;

    pub const WHOLE_WORD: usize = 64;

    fn is_legal(width: usize) -> bool
        ensures { result ≡ legal_width width }
    {
        width <= BitUnpacker::WIDEST_ANYWHERE || width == BitUnpacker::WHOLE_WORD
    }

    // An unpacker for a column of num_bits bits a value.
    #[tactic(auto, unfolding(crate::specs::Unpacker::new_of))]
    pub fn new(num_bits: u8) -> Result<BitUnpacker, Refusal>
        ensures { result ≡ new_of num_bits }
    {
        let width = usize::from(num_bits);
        if !BitUnpacker::is_legal(width) {
            return Err(Refusal::BadWidth);
        }
        let mask = mask_of(width);
        Ok(BitUnpacker {
            num_bits: width,
            mask,
        })
    }

    // The width of every value. (Of an unpacker that was not made by `new`, its lowest eight bits.)
    pub fn bit_width(self) -> u8
        ensures { result ≡ self.num_bits % 256 }
    {
        (self.num_bits % 256) as u8
    }

    // Refuses an unpacker that `new` does not make, first for its width and then for its mask.
    #[tactic(auto, using(crate::proofs::Laws::sound), unfolding(crate::specs::Parts::checked))]
    fn checked(self) -> Result<(), Refusal>
        ensures first { result ≡ checked self }
        ensures sound { IfOk result (λ _. Sound self) }
    {
        let width = self.num_bits;
        if !BitUnpacker::is_legal(width) {
            return Err(Refusal::BadWidth);
        }
        if self.mask != mask_of(width) {
            return Err(Refusal::Damaged);
        }
        Ok(())
    }

    // The first so many values of the data, which has to hold them.
    fn column<'a>(self, data: &'a [u8], count: usize) -> Result<Column<'a>, Refusal>
        requires sound { Sound self }
        requires few { count < 2 ^ 61 }
        ensures { MatchResult result (λ column. IsColumnOf self «data».now count column) (λ refusal. (refusal ≡ Refusal.OutOfData) × (out_of_data self count «data».now ≡ true)) }
    {
        if data.len() < column_bytes(count, self.num_bits) {
            return Err(Refusal::OutOfData);
        }
        Ok(Column {
            unpacker: self,
            bytes: data,
            count,
        })
    }

    // The value at an index of the data.
    #[tactic(auto, using(crate::proofs::Laws::index_fits))]
    pub fn get(self, idx: u32, data: &[u8]) -> Result<u64, Refusal>
        ensures { result ≡ get_of self idx «data».now }
    {
        self.checked()?;
        // One index of 32 bits: no product or sum can wrap. A value lies within the eight bytes that it starts in.
        let width = self.num_bits;
        let bit = idx as usize * width;
        let at = bit / 8;
        if at + 8 <= data.len() {
            return Ok(word_at(data, at, bit % 8, self.mask));
        }
        if data.len() < (bit + width + 7) / 8 {
            return Err(Refusal::OutOfData);
        }
        Ok(tail_at(data, at, bit % 8, self.mask))
    }

    // Fills the output with the values from an index on.
    pub fn get_range(self, start_idx: u32, data: &[u8], output: &mut [u64]) -> Result<(), Refusal>
        ensures { range result output.new ≡ get_range_of self start_idx «data».now output.old }
    {
        self.checked()?;
        if output.is_empty() {
            return Ok(());
        }
        let start = start_idx as usize;
        let column = self.column(data, start + output.len())?;
        column.fill(start, output);
        Ok(())
    }

    // The ids from start to before end whose value lies in lo..=hi, ascending, at the start of the
    // positions.
    pub fn get_ids_for_value_range(
        self,
        lo: u64,
        hi: u64,
        start: u32,
        end: u32,
        data: &[u8],
        positions: &mut [u32],
    ) -> Result<usize, Refusal>
        ensures { search result positions.new ≡ search_of self lo hi start end «data».now positions.old }
    {
        self.checked()?;
        if end <= start {
            return Ok(0);
        }
        let column = self.column(data, end as usize)?;
        if positions.len() < (end - start) as usize {
            return Err(Refusal::NoRoom);
        }
        let interval = Interval { lo, hi };
        Ok(column.find(interval, start, end, positions))
    }
}

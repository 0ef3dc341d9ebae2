// Reads a store that was judged: its entries, one value, stretches of values, and the search.
ghost use Rattle.std.specs.Prelude.{◌≡◌, false, true, ◌+◌, ◌-◌, ◌^◌, ◌≤◌, ◌<◌, length, IfOk, IfErr};
ghost use Rattle.bit_rule.specs.Search.{matching_ids};
ghost use Rattle.refusal.specs.declared.Refusal.TheVariants.{Damaged};
ghost use Rattle.bitunpacker.specs.Parts.{Kept};
ghost use Rattle.block.specs.Block.{entry_offset, entry_width, entry_base, damaged_entry};
ghost use Rattle.blocked_bitpacker.specs.Store.{damaged_store, count_of, length_of_block, values_of, touched_damaged};
ghost use Rattle.blocked_bitpacker.specs.Calls.{ids_of};
ghost use Rattle.blocked_bitpacker.specs.Parts.{Judged, LentOn, got, Stretch};
ghost use Rattle.std.proofs.Props.{props};

use crate::BlockedBitpacker;
use bit_rule::column_bytes;
use bitunpacker::BitUnpacker;
use filter_vec::lies_between;
use refusal::Refusal;

// What the two words of an entry say.
#[derive(Clone, Copy)]
struct Entry {
    offset: usize,
    width: u8,
    base: u64,
}

// Writes the ids of matching values to the start of the positions, and says how many they are. (Not
// `filter_vec_in_place`, whose values are of 32 bits and make room for their own ids.)
fn keep(lo: u64, hi: u64, id: u32, values: &[u64], positions: &mut [u32]) -> usize
    requires { (id + length values.now ≤ 2 ^ 32) × (length values.now ≤ length positions.old) }
    ensures { Kept 0 (matching_ids lo hi id values.now) positions.old result positions.new }
{
    let mut found = 0;
    for (i, value) in values.iter().enumerate() {
        if lies_between(lo, hi, *value) {
            positions[found] = id + i as u32;
            found += 1;
        }
    }
    found
}

// A store that is not damaged, in the two areas that are lent with it. (An index, a range or an interval is handed in at each
// call: a type for it would be made and taken apart again there.)
#[derive(Clone, Copy)]
pub(crate) struct Lent<'a> {
    pub(crate) store: &'a BlockedBitpacker,
    pub(crate) bytes: &'a [u8],
    pub(crate) entries: &'a [u64],
    ghost judged: { Judged store.now (length bytes.now) (length entries.now) } by { Prim.hlevel props },
}

impl<'a> Lent<'a> {
    // The store in its areas, refused where it is damaged there.
    #[tactic(auto, using(crate::proofs::Judged::judged))]
    pub(crate) fn new(
        store: &'a BlockedBitpacker,
        bytes: &'a [u8],
        entries: &'a [u64],
    ) -> Result<Lent<'a>, Refusal>
        ensures lent { IfOk result (λ lent. LentOn store.now bytes.now entries.now lent.store.now lent.bytes.now lent.entries.now) }
        ensures refused { IfErr result (λ why. (why ≡ Damaged) × (damaged_store store.now (length bytes.now) (length entries.now) ≡ true)) }
    {
        if store.is_damaged(bytes.len(), entries.len()) {
            return Err(Refusal::Damaged);
        }
        Ok(Lent {
            store,
            bytes,
            entries,
        })
    }

    // How many values the store holds.
    #[tactic(auto, unfolding(crate::specs::Store::count_of))]
    pub(crate) fn count(&self) -> usize
        ensures { result ≡ count_of self.now.store.now }
    {
        let store = self.store;
        if 0 < store.last_length {
            return BlockedBitpacker::BLOCK_SIZE * (store.blocks - 1) + store.last_length;
        }
        BlockedBitpacker::BLOCK_SIZE * store.blocks + store.waiting
    }

    // What the entry of block k says.
    #[tactic(auto, unfolding(block::specs::Block::entry_offset, block::specs::Block::entry_width, block::specs::Block::entry_base))]
    fn entry(&self, k: usize) -> Entry
        requires { k < self.now.store.now.blocks }
        ensures { (result.offset ≡ entry_offset k self.now.entries.now) × (result.width ≡ entry_width k self.now.entries.now) × (result.base ≡ entry_base k self.now.entries.now) }
    {
        let word = self.entries[k * 2];
        Entry {
            offset: (word % BlockedBitpacker::WIDTH_PLACE) as usize,
            width: (word / BlockedBitpacker::WIDTH_PLACE) as u8,
            base: self.entries[k * 2 + 1],
        }
    }

    // How many values block k holds.
    #[tactic(auto, unfolding(crate::specs::Store::length_of_block))]
    fn block_length(&self, k: usize) -> usize
        requires { k < self.now.store.now.blocks }
        ensures { result ≡ length_of_block self.now.store.now k }
    {
        let store = self.store;
        if 0 < store.last_length && k + 1 == store.blocks {
            return store.last_length;
        }
        BlockedBitpacker::BLOCK_SIZE
    }

    // Document 01's "Damaged", of block k's entry.
    fn entry_is_damaged(&self, k: usize) -> bool
        requires { k < self.now.store.now.blocks }
        ensures { result ≡ damaged_entry self.now.store.now.used (length_of_block self.now.store.now k) k self.now.entries.now }
    {
        let entry = self.entry(k);
        if BitUnpacker::new(entry.width).is_err() {
            return true;
        }
        let size = column_bytes(self.block_length(k), usize::from(entry.width));
        self.store.used < entry.offset + size
    }

    // The value at an index, unless it lies in a block whose entry is damaged.
    pub(crate) fn get(&self, idx: usize) -> Result<u64, Refusal>
        requires { idx < count_of self.now.store.now }
        ensures { result ≡ got self.now.store.now idx self.now.bytes.now self.now.entries.now }
    {
        let k = idx / BlockedBitpacker::BLOCK_SIZE;
        let place = idx % BlockedBitpacker::BLOCK_SIZE;
        if self.store.blocks <= k {
            return Ok(self.store.buffer[place]);
        }
        if self.entry_is_damaged(k) {
            return Err(Refusal::Damaged);
        }
        let entry = self.entry(k);
        block::read_one(
            entry.base,
            entry.width,
            place as u32,
            &self.bytes[entry.offset..],
        )
    }

    // Whether a block that holds an index from start to before end has a damaged entry.
    pub(crate) fn touches_damage(&self, start: usize, end: usize) -> bool
        requires { end ≤ count_of self.now.store.now }
        ensures { result ≡ touched_damaged self.now.store.now self.now.entries.now start end }
    {
        let first = start / BlockedBitpacker::BLOCK_SIZE;
        let last = end
            .div_ceil(BlockedBitpacker::BLOCK_SIZE)
            .min(self.store.blocks);
        for k in first..last {
            if self.entry_is_damaged(k) {
                return true;
            }
        }
        false
    }

    // Fills the output with the values from an index on, all of which lie in one block or wait.
    fn read_stretch(&self, idx: usize, output: &mut [u64])
        requires { Stretch self.now.store.now idx (length output.old) self.now.entries.now }
        ensures { output.new ≡ values_of self.now.store.now self.now.bytes.now self.now.entries.now idx (length output.old) }
    {
        let k = idx / BlockedBitpacker::BLOCK_SIZE;
        let place = idx % BlockedBitpacker::BLOCK_SIZE;
        if self.store.blocks <= k {
            output.copy_from_slice(&self.store.places()[place..place + output.len()]);
            return;
        }
        let entry = self.entry(k);
        let bytes = &self.bytes[entry.offset..];
        // Not refused, since the entry is not damaged. (With `unwrap` in place of `let _` a value takes more instructions.)
        let _ = block::read(entry.base, entry.width, place as u32, bytes, output);
    }

    // Fills the output with the values from an index on, one block's after the other's. (`find` cuts its range at the blocks in the
    // same way: a function for that would answer two indexes, about which each of them would have to be told again what is here.)
    #[tactic(auto, using(crate::proofs::Values::count_small))]
    pub(crate) fn read_all(&self, start: usize, output: &mut [u64])
        requires some { 0 < length output.old }
        requires counted { start + length output.old ≤ count_of self.now.store.now }
        requires fine { touched_damaged self.now.store.now self.now.entries.now start (start + length output.old) ≡ false }
        ensures { output.new ≡ values_of self.now.store.now self.now.bytes.now self.now.entries.now start (length output.old) }
    {
        let end = start + output.len();
        let last = end.div_ceil(BlockedBitpacker::BLOCK_SIZE);
        for k in start / BlockedBitpacker::BLOCK_SIZE..last {
            let from = start.max(BlockedBitpacker::BLOCK_SIZE * k);
            let to = end.min(BlockedBitpacker::BLOCK_SIZE * (k + 1));
            self.read_stretch(from, &mut output[from - start..to - start]);
        }
    }

    // Writes the ids of the matching values of one stretch to the start of the positions.
    fn find_in_stretch(
        &self,
        lo: u64,
        hi: u64,
        from: usize,
        to: usize,
        positions: &mut [u32],
    ) -> usize
        requires stretch { Stretch self.now.store.now from (to - from) self.now.entries.now }
        requires ids { (from ≤ to) × (to < 2 ^ 32) × (to - from ≤ length positions.old) }
        ensures { Kept 0 (ids_of self.now.store.now lo hi from to self.now.bytes.now self.now.entries.now) positions.old result positions.new }
    {
        let n = to - from;
        let mut values = [0u64; 128];
        self.read_stretch(from, &mut values[..n]);
        keep(lo, hi, from as u32, &values[..n], positions)
    }

    // Writes the ids from start to before end whose value lies in lo..=hi, ascending, to the start of the
    // positions, and says how many they are.
    pub(crate) fn find(
        &self,
        lo: u64,
        hi: u64,
        start: usize,
        end: usize,
        positions: &mut [u32],
    ) -> usize
        requires range { (start < end) × (end < 2 ^ 32) × (end ≤ count_of self.now.store.now) }
        requires room { end - start ≤ length positions.old }
        requires fine { touched_damaged self.now.store.now self.now.entries.now start end ≡ false }
        ensures { Kept 0 (ids_of self.now.store.now lo hi start end self.now.bytes.now self.now.entries.now) positions.old result positions.new }
    {
        let past = end.div_ceil(BlockedBitpacker::BLOCK_SIZE);
        let mut found = 0;
        for k in start / BlockedBitpacker::BLOCK_SIZE..past {
            let from = start.max(BlockedBitpacker::BLOCK_SIZE * k);
            let to = end.min(BlockedBitpacker::BLOCK_SIZE * (k + 1));
            found += self.find_in_stretch(lo, hi, from, to, &mut positions[found..]);
        }
        found
    }
}

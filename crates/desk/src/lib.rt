// What the desk's program decides: what its words ask for, which ids it lists, and what it shows of a block.
#![tactic(auto)]

mod words;

ghost use Rattle.std.specs.Prelude.{◌≡◌};
ghost use Rattle.bitunpacker.specs.Unpacker.{search};
ghost use Rattle.blocked_bitpacker.specs.Store.{count_of};
ghost use Rattle.blocked_bitpacker.specs.Calls.{search_of};
ghost use Rattle.desk.specs.Blocks.{block_width_of, block_base_of};

use blocked_bitpacker::BlockedBitpacker;
use refusal::Refusal;
pub use words::{Fault, Request, Word, asked};

// The ids from `from` to before `to` whose value lies in lo..hi, where both may be any numbers: the store's
// own search takes ids of 32 bits, and no store counts so far.
#[tactic(auto, using(crate::proofs::Laws::empty_range, crate::proofs::Laws::past_every_count))]
pub fn list(
    store: BlockedBitpacker,
    lo: u64,
    hi: u64,
    from: u64,
    to: u64,
    bytes: &[u8],
    entries: &[u64],
    positions: &mut [u32],
) -> Result<usize, Refusal>
    ensures { search result positions.new ≡ search_of store lo hi from to bytes.now entries.now positions.old }
{
    if to <= from {
        return store.get_ids_for_value_range(lo, hi, 0, 0, bytes, entries, positions);
    }
    let Ok(end) = u32::try_from(to) else {
        return store.get_ids_for_value_range(lo, hi, 0, u32::MAX, bytes, entries, positions);
    };
    store.get_ids_for_value_range(lo, hi, from as u32, end, bytes, entries, positions)
}

// The same over all ids.
#[tactic(auto, using(crate::proofs::Laws::not_counted, blocked_bitpacker::proofs::Counting::counted))]
pub fn list_all(
    store: BlockedBitpacker,
    lo: u64,
    hi: u64,
    bytes: &[u8],
    entries: &[u64],
    positions: &mut [u32],
) -> Result<usize, Refusal>
    ensures { search result positions.new ≡ search_of store lo hi 0 (count_of store) bytes.now entries.now positions.old }
{
    let values = store.count(bytes, entries)?;
    list(store, lo, hi, 0, values as u64, bytes, entries, positions)
}

// How many bits each value of a block takes, by its entry.
#[tactic(auto, unfolding(crate::specs::Blocks::block_width_of, block::specs::Block::entry_width))]
pub fn block_width(block: usize, entries: &[u64]) -> Result<u64, Refusal>
    ensures { result ≡ block_width_of block entries.now }
{
    if block >= entries.len() / 2 {
        return Err(Refusal::NoSuchIndex);
    }
    Ok(entries[block * 2] >> 56)
}

// The base of a block, by its entry: the lowest of its values.
#[tactic(auto, unfolding(crate::specs::Blocks::block_base_of, block::specs::Block::entry_base))]
pub fn block_base(block: usize, entries: &[u64]) -> Result<u64, Refusal>
    ensures { result ≡ block_base_of block entries.now }
{
    if block >= entries.len() / 2 {
        return Err(Refusal::NoSuchIndex);
    }
    Ok(entries[block * 2 + 1])
}

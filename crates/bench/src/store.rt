// Adding to a store, reading it and searching it.
use crate::areas::{BYTES, ENTRIES, POSITIONS, area, bytes_lent};
use crate::load::Load;
use crate::pack;
use blocked_bitpacker::BlockedBitpacker;

// A store to which the values were added one by one. Each is made of its index.
pub fn fill(count: u32, spacing: u32, bytes: &mut [u8], entries: &mut [u64]) -> BlockedBitpacker {
    let made = BlockedBitpacker::new(bytes);
    let mut store = made.store;
    for i in 0..count {
        let added = store.add(pack::value_at(i, spacing), bytes, entries);
        store = added.store;
    }
    store
}

// Adds a value to a store that is lent for the call.
fn add_lent(
    mut store: BlockedBitpacker,
    val: u64,
    bytes: &mut [u8],
    entries: &mut [u64],
) -> BlockedBitpacker {
    let _ = lent_store::add(&mut store, val, bytes, entries);
    store
}

// The same, lent for each add. Not one function with the add handed in: an add by a closure, to which the store is given
// by value or by reference, takes 150 to 850 instructions more, for copies of the store that are not the add's own.
pub fn fill_lent(
    count: u32,
    spacing: u32,
    bytes: &mut [u8],
    entries: &mut [u64],
) -> BlockedBitpacker {
    let made = BlockedBitpacker::new(bytes);
    let mut store = made.store;
    for i in 0..count {
        let val = pack::value_at(i, spacing);
        store = add_lent(store, val, bytes, entries);
    }
    store
}

// The whole store, 1,000 values at a time. The index of a turn says where it starts.
pub fn ranges(store: BlockedBitpacker, count: u32, bytes: &[u8], entries: &[u64]) -> u64 {
    let mut output = [0; 1000];
    let mut sum: u64 = 0;
    for i in 0..count as usize / 1000 {
        if store
            .get_range(i * 1000, bytes, entries, &mut output)
            .is_err()
        {
            return sum;
        }
        sum = sum.wrapping_add(output[0]);
    }
    sum
}

pub fn search(store: BlockedBitpacker, count: u32, bytes: &[u8], entries: &[u64]) -> u64 {
    let mut positions = area::<u32, POSITIONS>(0);
    store
        .get_ids_for_value_range(1, 1, 0, count, bytes, entries, &mut positions)
        .unwrap_or(0) as u64
}

// Fills a store so many times. In a loop of its own: a closure for `total` that lends the areas to `fill` gets no proof.
pub fn add<F>(load: Load, fill: F) -> u64
where
    F: Fn(u32, u32, &mut [u8], &mut [u64]) -> BlockedBitpacker,
    requires { F.IsAlwaysCallable fill }
{
    let mut bytes = area::<u8, BYTES>(0);
    let mut entries = area::<u64, ENTRIES>(0);
    let mut sum: u64 = 0;
    for _ in 0..load.times {
        let store = fill(load.count, load.spacing, &mut bytes, &mut entries);
        sum = sum.wrapping_add(store.used as u64);
    }
    sum
}

// Asks a store so many times.
pub fn work<F>(load: Load, ask: F) -> u64
where
    F: Fn(BlockedBitpacker, u32, &[u8], &[u64]) -> u64,
    requires { F.IsAlwaysCallable ask }
{
    let mut bytes = area::<u8, BYTES>(0);
    let mut entries = area::<u64, ENTRIES>(0);
    let store = fill(load.count, load.spacing, &mut bytes, &mut entries);
    let data = &bytes[0..bytes_lent(load.count)];
    load.total(|_| ask(store, load.count, data, &entries))
}

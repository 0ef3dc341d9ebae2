// What is told to a blocked store, and what is asked of the whole of it.
use crate::say::{number_of, say};
use blocked_bitpacker::{BlockedBitpacker, Stored};
use refusal::Refusal;

// The store goes on as the call left it. Answered by 0, since no value was accepted, and by 0 or the number of the
// refusal.
fn go_on(store: &mut BlockedBitpacker, rt: &impl Print, port: Stored) {
    *store = port.store;
    say(rt, &[0, number_of(port.done)]);
}

pub fn make(store: &mut BlockedBitpacker, rt: &impl Print, bytes: &mut [u8]) {
    go_on(store, rt, BlockedBitpacker::new(bytes));
}

pub fn flush(store: &mut BlockedBitpacker, rt: &impl Print, bytes: &mut [u8], entries: &mut [u64]) {
    let port = store.flush(bytes, entries);
    go_on(store, rt, port);
}

// Adds the values up to the first that is refused, and answers how many were accepted.
fn add_each(
    store: &mut BlockedBitpacker,
    values: &[u64],
    bytes: &mut [u8],
    entries: &mut [u64],
) -> (usize, Result<(), Refusal>) {
    for (accepted, value) in values.iter().enumerate() {
        let port = store.add(*value, bytes, entries);
        *store = port.store;
        if let Err(why) = port.done {
            return (accepted, Err(why));
        }
    }
    (values.len(), Ok(()))
}

// Answered by how many values were accepted, and 0 or the number of the refusal that ended it.
pub fn add(
    store: &mut BlockedBitpacker,
    rt: &impl Print,
    values: &[u64],
    bytes: &mut [u8],
    entries: &mut [u64],
) {
    let (accepted, port) = add_each(store, values, bytes, entries);
    say(rt, &[accepted as u64, number_of(port)]);
}

// Answered by 0 and the count, or the number of the refusal.
pub fn count(store: &BlockedBitpacker, rt: &impl Print, bytes: &[u8], entries: &[u64]) {
    let port = store.count(bytes, entries);
    match port {
        Ok(count) => say(rt, &[0, count as u64]),
        Err(_) => say(rt, &[number_of(port)]),
    }
}

// The fields that are numbers, `USED BLOCKS WAITING LAST_LENGTH`.
pub fn fields(store: &BlockedBitpacker, rt: &impl Print) {
    say(
        rt,
        &[
            store.used as u64,
            store.blocks as u64,
            store.waiting as u64,
            store.last_length as u64,
        ],
    );
}

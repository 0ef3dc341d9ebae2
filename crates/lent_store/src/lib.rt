// A store that is lent: "The caller keeps one store and each add changes it in place." Each function calls
// the one by value and writes the store that it answers back, a refused call's too, which is as it came.
#![tactic(auto)]

ghost use Rattle.std.specs.Prelude.{◌≡◌};
ghost use Rattle.blocked_bitpacker.specs.Calls.{changed, answered, add_of, flush_of};

use blocked_bitpacker::BlockedBitpacker;
use refusal::Refusal;

// Adds a value, as `BlockedBitpacker::add` does.
pub fn add(
    store: &mut BlockedBitpacker,
    val: u64,
    bytes: &mut [u8],
    entries: &mut [u64],
) -> Result<(), Refusal>
    ensures { changed (answered result store.new) bytes.new entries.new ≡ add_of store.old val bytes.old entries.old }
{
    let stored = (*store).add(val, bytes, entries);
    *store = stored.store;
    stored.done
}

// Seals what waits and closes the store, as `BlockedBitpacker::flush` does.
pub fn flush(
    store: &mut BlockedBitpacker,
    bytes: &mut [u8],
    entries: &mut [u64],
) -> Result<(), Refusal>
    ensures { changed (answered result store.new) bytes.new entries.new ≡ flush_of store.old bytes.old entries.old }
{
    let stored = (*store).flush(bytes, entries);
    *store = stored.store;
    stored.done
}

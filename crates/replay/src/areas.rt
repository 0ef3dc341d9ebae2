// The large areas. Those of one answer are each made in a function of its own: where one is made and used in one
// function, the check of every call that takes it goes through all its elements.
ghost use Rattle.std.specs.Prelude.{◌≡◌, ◌≤◌, length};

// How many numbers a line may hold, and an answer too.
pub(crate) const ROOM: usize = 8192;

const BYTES: usize = 32768;

const ENTRIES: usize = 256;

// What every place holds before the port writes to it: of 64 bits, of 32, and of 8.
pub(crate) const WORD: u64 = 0xa5a5_a5a5_a5a5_a5a5;

pub(crate) const POSITION: u32 = 0xa5a5_a5a5;

const BYTE: u8 = 0xa5;

// Room for an answer.
pub(crate) fn room<T: Copy>(value: T) -> [T; ROOM]
    ensures { 8192 ≡ length result }
{
    [value; ROOM]
}

// The bytes and the entry words, and how many of each are to be lent, which may be more than there are.
#[derive(Drop)]
pub(crate) struct Areas {
    bytes: [u8; BYTES],
    byte_room: u64,
    entries: [u64; ENTRIES],
    entry_room: u64,
}

impl Areas {
    pub(crate) fn new() -> Areas {
        Areas {
            bytes: [BYTE; BYTES],
            byte_room: 0,
            entries: [WORD; ENTRIES],
            entry_room: 0,
        }
    }

    // So much is lent from now on.
    pub(crate) fn lend(&mut self, bytes: u64, entries: u64) {
        self.byte_room = bytes;
        self.entry_room = entries;
    }

    pub(crate) fn bytes(&self) -> &[u8] {
        &self.bytes[..within(self.byte_room, BYTES)]
    }

    pub(crate) fn entries(&self) -> &[u64] {
        &self.entries[..within(self.entry_room, ENTRIES)]
    }

    pub(crate) fn both(&mut self) -> (&mut [u8], &mut [u64]) {
        let byte_room = self.byte_room;
        let entry_room = self.entry_room;
        let bytes = front(&mut self.bytes, byte_room);
        let entries = front(&mut self.entries, entry_room);
        (bytes, entries)
    }
}

// So many elements at the start, or all.
pub(crate) fn front<T, const N: usize>(area: &mut [T; N], room: u64) -> &mut [T] {
    let all = &mut area[..];
    let end = within(room, all.len());
    &mut all[..end]
}

// A number, or the most that there is.
pub(crate) fn within(number: u64, most: usize) -> usize
    ensures { result ≤ most }
{
    most.min(number as usize)
}

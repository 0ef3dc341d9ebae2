// A column that was loaded: its store with the areas that hold it. What the store refuses is no answer. (The store's crate has such
// a struct for itself, with what it has judged; document 01's calls are lent the three apart.)
use blocked_bitpacker::BlockedBitpacker;
use notices::NoAnswer;
use refusal::Refusal;

#[derive(Clone, Copy)]
pub(crate) struct Column<'a> {
    pub(crate) store: &'a BlockedBitpacker,
    pub(crate) bytes: &'a [u8],
    pub(crate) entries: &'a [u64],
}

impl Column<'_> {
    fn refused(&self, why: Refusal) -> NoAnswer {
        NoAnswer::Store(why, self.store.count(self.bytes, self.entries).ok())
    }

    // How many values it has.
    pub(crate) fn count(&self) -> Result<usize, NoAnswer> {
        self.store
            .count(self.bytes, self.entries)
            .map_err(|why| self.refused(why))
    }

    // The value of an id.
    pub(crate) fn get(&self, id: usize) -> Result<u64, NoAnswer> {
        self.store
            .get(id, self.bytes, self.entries)
            .map_err(|why| self.refused(why))
    }

    // Puts the ids whose value lies in lo to hi at the start of the positions, and says how many they are.
    pub(crate) fn list_all(
        &self,
        lo: u64,
        hi: u64,
        positions: &mut [u32],
    ) -> Result<usize, NoAnswer> {
        desk::list_all(*self.store, lo, hi, self.bytes, self.entries, positions).map_err(
            |why| self.refused(why),
        )
    }

    // The same of the ids from `from` to before `to`.
    pub(crate) fn list(
        &self,
        lo: u64,
        hi: u64,
        from: u64,
        to: u64,
        positions: &mut [u32],
    ) -> Result<usize, NoAnswer> {
        desk::list(
            *self.store,
            lo,
            hi,
            from,
            to,
            self.bytes,
            self.entries,
            positions,
        )
        .map_err(|why| self.refused(why))
    }
}

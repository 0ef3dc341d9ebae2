// A text of one decimal number a line, taken in pieces of any size: each line's number is added to a
// store as soon as the line ends.
#![tactic(auto)]

ghost use Rattle.std.specs.Prelude.{◌≡◌};
ghost use Rattle.blocked_bitpacker.specs.Calls.{changed, refused_with};
ghost use Rattle.terms.specs.declared.Trouble.TheVariants.{NotANumber, Refused};
ghost use Rattle.terms.specs.Loading.{nothing_read, add_line_of, stopped_by, added_by, begun, begin_of, taken, said_of, bytes_of, settled_of, loaded_by, end_of};

use blocked_bitpacker::{BlockedBitpacker, Stored};
use decimal::{Line, NumeralError};
use refusal::Refusal;

// What stops a loading: a line that is no number, or a number that the store refuses; at the end of the text, a last
// line without its line end, which may have been cut, or that there is no line at all.
#[derive(Clone, Copy, Debug, PartialEq, Eq)]
pub enum Trouble {
    NotANumber(NumeralError),
    Refused(Refusal),
    Cut,
    NoLine,
}

impl From<NumeralError> for Trouble {
    ghost from_gives = { λ why trouble. trouble ≡ NotANumber why };

    fn from(why: NumeralError) -> Trouble {
        Trouble::NotANumber(why)
    }
}

impl From<Refusal> for Trouble {
    ghost from_gives = { λ why trouble. trouble ≡ Refused why };

    fn from(why: Refusal) -> Trouble {
        Trouble::Refused(why)
    }
}

// The store so far, how many lines were added to it, modulo 2^64, what is known of the line that goes on,
// and what stopped it, if anything did. The store's two areas stay the caller's, and are lent to each call
// beside it.
#[derive(Clone, Copy)]
pub struct Loading {
    pub store: BlockedBitpacker,
    pub lines: usize,
    pub line: Line,
    pub trouble: Option<Trouble>,
}

// What a whole text led to. The line that stopped it, if one did, is the one after those that were added.
#[derive(Clone, Copy)]
pub struct Loaded {
    pub store: BlockedBitpacker,
    pub lines: usize,
    pub trouble: Option<Trouble>,
}

fn nothing_read(line: Line) -> bool
    ensures { result ≡ nothing_read line }
{
    line.wrong.is_none() && !line.after_cr && line.digits == 0
}

// As the store's own refusals, whose function is private to its crate.
fn refused(why: Refusal, store: BlockedBitpacker) -> Stored
    ensures { result ≡ refused_with why store }
{
    Stored {
        done: Err(why),
        store,
    }
}

// Adds a line's number to a store in which the block that is to hold it has an entry: a text is refused by its
// first value that could never be sealed.
#[tactic(auto, using(blocked_bitpacker::proofs::Counting::counted, blocked_bitpacker::proofs::Counting::not_counted), unfolding(crate::specs::Loading::add_line_of))]
fn add(store: BlockedBitpacker, value: u64, bytes: &mut [u8], entries: &mut [u64]) -> Stored
    ensures { changed result bytes.new entries.new ≡ add_line_of store value bytes.old entries.old }
{
    if let Err(why) = store.count(bytes, entries) {
        return refused(why, store);
    }
    let blocks = store.blocks;
    if BlockedBitpacker::MAX_BLOCKS <= blocks {
        return refused(Refusal::EntriesFull, store);
    }
    if entries.len() < 2 * (blocks + 1) {
        return refused(Refusal::EntriesFull, store);
    }
    store.add(value, bytes, entries)
}

impl Loading {
    // Nothing is read yet, and the store is new. A byte area that is too short for one stops it.
    #[tactic(auto, unfolding(crate::specs::Loading::begin_of))]
    pub fn new(bytes: &mut [u8]) -> Loading
        ensures { begun result bytes.new ≡ begin_of bytes.old }
    {
        let made = BlockedBitpacker::new(bytes);
        Loading {
            store: made.store,
            lines: 0,
            line: Line::new(),
            trouble: made.done.err().map(Trouble::from),
        }
    }

    fn stopped(self, trouble: Trouble) -> Loading
        ensures { result ≡ stopped_by trouble self }
    {
        Loading {
            trouble: Some(trouble),
            ..self
        }
    }

    // A line's number was handed to the store, which answered.
    fn added(&mut self, stored: Stored)
        ensures { self.new ≡ added_by stored self.old }
    {
        match stored.done {
            Ok(()) => {
                self.store = stored.store;
                self.lines = self.lines.wrapping_add(1);
                self.line = Line::new();
                self.trouble = None;
            }
            Err(why) => self.trouble = Some(why.into()),
        }
    }

    // The line ends, and says this.
    #[tactic(auto, unfolding(crate::specs::Loading::said_of))]
    fn said(&mut self, numeral: Result<u64, NumeralError>, bytes: &mut [u8], entries: &mut [u64])
        ensures { taken self.new bytes.new entries.new ≡ said_of self.old numeral bytes.old entries.old }
    {
        match numeral {
            Ok(value) => self.added(add(self.store, value, bytes, entries)),
            Err(why) => self.trouble = Some(why.into()),
        }
    }

    // Takes the next piece of the text. After what stopped it, nothing more is looked at.
    #[tactic(auto, using(crate::proofs::Laws::trouble_stays, crate::proofs::Laws::feed_next, crate::proofs::Laws::other_next, crate::proofs::Laws::nothing_left))]
    pub fn take(self, text: &[u8], bytes: &mut [u8], entries: &mut [u64]) -> Loading
        ensures { taken result bytes.new entries.new ≡ bytes_of self text.now bytes.old entries.old }
    {
        if self.trouble.is_some() {
            return self;
        }
        let mut loading = self;
        // Apart from the loading, which is a store too: so a byte of a line changes no more than the line.
        let mut line = self.line;
        for byte in text {
            if *byte == b'\n' {
                loading.line = line;
                loading.said(line.ended(), bytes, entries);
                if loading.trouble.is_some() {
                    return loading;
                }
                line = loading.line;
            } else {
                line = line.byte(*byte);
            }
        }
        loading.line = line;
        loading
    }

    // Whether nothing that follows can change what the text leads to.
    pub fn settled(self) -> bool
        ensures { result ≡ settled_of self }
    {
        self.line.wrong.is_some() || self.trouble.is_some()
    }

    fn loaded(self) -> Loaded
        ensures { result ≡ loaded_by self }
    {
        Loaded {
            store: self.store,
            lines: self.lines,
            trouble: self.trouble,
        }
    }

    // The text ends here. Every line of it has its line end: what follows the last one stops it, and so does a text
    // that has no line.
    #[tactic(auto, unfolding(crate::specs::Loading::end_of))]
    pub fn end(self) -> Loaded
        ensures { result ≡ end_of self }
    {
        if self.trouble.is_some() {
            return self.loaded();
        }
        if nothing_read(self.line) {
            if self.lines == 0 {
                return self.stopped(Trouble::NoLine).loaded();
            }
            return self.loaded();
        }
        if let Some(byte) = self.line.wrong {
            let why = NumeralError::NotADigit(self.line.digits, byte);
            return self.stopped(why.into()).loaded();
        }
        self.stopped(Trouble::Cut).loaded()
    }
}

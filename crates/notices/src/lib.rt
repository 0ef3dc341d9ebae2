// What the desk's program says when it has no answer: the usage and the refusals, each in one place.
#![tactic(auto)]

ghost use Rattle.std.specs.Prelude.{◌≡◌};
ghost use Rattle.notices.specs.Status.{number_of};

mod bytes;
mod refuse;
mod usage;

pub use refuse::{FileError, NoAnswer, refused, unwritable};
use std::fmt::InlineText;
use std::{fmt, io};
pub use usage::{help, version, wrong};

// What a call came to, with the number that says it: an answer, a refusal, or words that are no request.
#[derive(Clone, Copy, Debug, PartialEq, Eq)]
pub enum Status {
    Answered = 0,
    Refused = 1,
    Usage = 2,
}

impl Status {
    // 0, 1 or 2, as the help page has them.
    pub fn number(self) -> u8
        ensures { result ≡ number_of self }
    {
        self as u8
    }
}

// The most bytes of what is said in one piece. The longest has less than half as many.
const PIECE: usize = 512;

// Says something in one piece, so that two calls which share a log do not mix within it. What cannot be written is passed over, and
// what follows is tried all the same.
fn say<W: io::Write, D: fmt::Display + Drop>(err: &mut W, what: D) {
    let text = InlineText::<PIECE>::of(what);
    let _ = err.write_all(text.as_str().as_bytes());
}

// The most values that a column of the program has.
pub const LIMIT: u64 = 131_072;

// Why a call was refused, with the number and the name that document 01 gives each reason. Numbers 9
// to 12 are kept for document 02.
#![tactic(auto)]

ghost use Rattle.std.specs.Prelude.{◌≡◌, Some};
ghost use Rattle.refusal.specs.Number.{number_of};
ghost use Rattle.refusal.specs.Name.{name_of};

use std::error::Error;
use std::fmt;

#[derive(Clone, Copy, Debug, PartialEq, Eq)]
pub enum Refusal {
    BadWidth = 1,
    TooWide = 2,
    OutOfData = 3,
    NoRoom = 4,
    EntriesFull = 5,
    Closed = 6,
    NoSuchIndex = 7,
    Damaged = 8,
}

impl Refusal {
    // Document 01's number.
    pub fn number(self) -> u8
        ensures { result ≡ number_of self }
    {
        self as u8
    }
}

impl fmt::Display for Refusal {
    // Document 01's name.
    ghost output = { λ why. Some (name_of why) };

    fn fmt<W: fmt::Write>(&self, f: &mut fmt::Formatter<W>) -> fmt::Result {
        f.write_str(match self {
            Refusal::BadWidth => "BadWidth",
            Refusal::TooWide => "TooWide",
            Refusal::OutOfData => "OutOfData",
            Refusal::NoRoom => "NoRoom",
            Refusal::EntriesFull => "EntriesFull",
            Refusal::Closed => "Closed",
            Refusal::NoSuchIndex => "NoSuchIndex",
            Refusal::Damaged => "Damaged",
        })
    }
}

impl Error for Refusal {}

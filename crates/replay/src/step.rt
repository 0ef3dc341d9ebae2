// The kinds of steps: what the port is asked or told. tests/README.md has their numbers, and what follows each.
use crate::reading::Reading;

// A number that no kind of step has.
#[derive(Clone, Copy, Debug, PartialEq, Eq)]
pub struct UnknownKind;

// A step after which the port may answer otherwise.
#[derive(Clone, Copy, Debug, PartialEq, Eq)]
pub enum Change {
    MakeStore,
    AddValues,
    FlushStore,
    SetEntries,
    SetBytes,
    Write,
    FlushPacker,
    MakePacker,
    Start,
    ForgeStore,
    ForgePacker,
    MakeUnpacker,
    ForgeUnpacker,
}

impl TryFrom<u64> for Change {
    type Error = UnknownKind;

    fn try_from(kind: u64) -> Result<Change, UnknownKind> {
        match kind {
            0x0 => Ok(Change::MakeStore),
            0x1 => Ok(Change::AddValues),
            0x2 => Ok(Change::FlushStore),
            0x3 => Ok(Change::SetEntries),
            0x4 => Ok(Change::SetBytes),
            0x5 => Ok(Change::Write),
            0x6 => Ok(Change::FlushPacker),
            0x7 => Ok(Change::MakePacker),
            0x8 => Ok(Change::Start),
            0x9 => Ok(Change::ForgeStore),
            0xa => Ok(Change::ForgePacker),
            0xb => Ok(Change::MakeUnpacker),
            0xc => Ok(Change::ForgeUnpacker),
            _ => Err(UnknownKind),
        }
    }
}

// A step that changes nothing.
#[derive(Clone, Copy, Debug, PartialEq, Eq)]
pub enum Question {
    NumBits,
    MinMax,
    MinMaxOfPatterns,
    Filter,
    Count,
    Fields,
    Waiting,
    Entries,
    Bytes,
    OfColumn(Reading),
    OfStore(Reading),
}

impl TryFrom<u64> for Question {
    type Error = UnknownKind;

    fn try_from(kind: u64) -> Result<Question, UnknownKind> {
        match kind {
            0x10 => Ok(Question::NumBits),
            0x11 => Ok(Question::MinMax),
            0x12 => Ok(Question::MinMaxOfPatterns),
            0x13 => Ok(Question::Filter),
            0x14 => Ok(Question::Count),
            0x15 => Ok(Question::Fields),
            0x16 => Ok(Question::Waiting),
            0x17 => Ok(Question::Entries),
            0x18 => Ok(Question::Bytes),
            0x20 => Ok(Question::OfColumn(Reading::Each)),
            0x21 => Ok(Question::OfStore(Reading::Each)),
            0x22 => Ok(Question::OfColumn(Reading::Range)),
            0x23 => Ok(Question::OfStore(Reading::Range)),
            0x24 => Ok(Question::OfColumn(Reading::Search)),
            0x25 => Ok(Question::OfStore(Reading::Search)),
            _ => Err(UnknownKind),
        }
    }
}

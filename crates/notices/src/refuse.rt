// Refusals: `refused NUMBER NAME: FILE: what is wrong, and what to do`. Numbers to 12 are the papers'; those from 20 on are the program's own.
ghost use Rattle.std.specs.Prelude.{◌≡◌, Some};
ghost use Rattle.std.specs.IoError.{raw_os_error};
ghost use Rattle.notices.specs.FileError.{IsTold, sentence_of};
ghost use Rattle.notices.specs.declared.Status.TheVariants.{Refused};
ghost use Rattle.notices.specs.declared.refuse.NoAnswer.TheVariants.{File, NotWritten};

use crate::bytes::OtherByte;
use crate::{LIMIT, Status, say};
use decimal::NumeralError;
use refusal::Refusal;
use std::{fmt, io};
use terms::Trouble;

// Why a file cannot be opened or read.
#[derive(Clone, Copy, Debug, PartialEq, Eq)]
pub enum FileError {
    Missing,
    Denied,
    Folder,
    Other,
}

// The system's numbers for the first three. A file is told by them, since they are what each sentence is for.
const ENOENT: i32 = 2;

const EACCES: i32 = 13;

const EISDIR: i32 = 21;

impl From<io::Error> for FileError {
    ghost from_gives = { λ error why. IsTold (raw_os_error error) why };

    fn from(why: io::Error) -> FileError {
        match why.raw_os_error() {
            Some(ENOENT) => FileError::Missing,
            Some(EACCES) => FileError::Denied,
            Some(EISDIR) => FileError::Folder,
            _ => FileError::Other,
        }
    }
}

// What is wrong, and what to do about it.
impl fmt::Display for FileError {
    ghost output = { λ why. Some (sentence_of why) };

    fn fmt<W: fmt::Write>(&self, f: &mut fmt::Formatter<W>) -> fmt::Result {
        f.write_str(match self {
            FileError::Missing => "there is no such file; check its name",
            FileError::Denied => "it may not be read; ask for the right to read it",
            FileError::Folder => "it is a folder; name a file in it",
            FileError::Other =>
                "the system cannot open or read it; check its name, or try a copy in another place",
        })
    }
}

// Why there is no answer: an id, or a range of ids, that a store of so many values refuses; what stopped a text after so many
// lines; a file that cannot be opened or read to its end; or a standard output that did not take the whole answer.
#[derive(Clone, Copy)]
pub enum NoAnswer {
    Store(Refusal, Option<usize>),
    Text(Trouble, usize),
    File(FileError),
    NotWritten,
}

impl From<FileError> for NoAnswer {
    ghost from_gives = { λ why refused. refused ≡ File why };

    fn from(why: FileError) -> NoAnswer {
        Self::File(why)
    }
}

// A page says only that it could not be written.
impl From<fmt::Error> for NoAnswer {
    ghost from_gives = { λ _ refused. refused ≡ NotWritten };

    fn from(_: fmt::Error) -> NoAnswer {
        Self::NotWritten
    }
}

// No file leads to any other refusal of the store's.
const UNFORESEEN: &str = ": no file should lead here; please report it, with the file";

// The line after so many others, and its id.
#[derive(Clone, Copy)]
struct Line(usize);

impl fmt::Display for Line {
    fn fmt<W: fmt::Write>(&self, f: &mut fmt::Formatter<W>) -> fmt::Result {
        let id = self.0;
        let number = id.wrapping_add(1);
        write!(f, ", line {number} (id {id}): ")
    }
}

fn not_a_number<W: fmt::Write>(
    f: &mut fmt::Formatter<W>,
    why: NumeralError,
    lines: usize,
) -> fmt::Result {
    let line = Line(lines);
    match why {
        NumeralError::Empty => write!(
            f,
            "{line}the line is empty: write its number on it; where it stands for nobody, take it out, and every later id moves up by one"
        ),
        NumeralError::NotADigit(place, byte) => {
            let other = OtherByte { lines, place, byte };
            write!(f, "{line}{other}")
        }
        NumeralError::TooLarge => write!(
            f,
            "{line}a number of 18446744073709551616 or more; the largest is 18446744073709551615"
        ),
    }
}

// What stopped a text: the line after those that were added, or that there is none.
fn text<W: fmt::Write>(f: &mut fmt::Formatter<W>, trouble: Trouble, lines: usize) -> fmt::Result {
    let line = Line(lines);
    match trouble {
        Trouble::NotANumber(why) => not_a_number(f, why, lines),
        Trouble::Refused(Refusal::EntriesFull) => write!(
            f,
            "{line}one number too many: a column has at most {LIMIT} values; split the file"
        ),
        Trouble::Refused(_) => f.write_str(UNFORESEEN),
        Trouble::Cut => write!(
            f,
            "{line}the last line has no line end, so a part of its number may be missing: get the whole file, and end the line only where its number is right"
        ),
        Trouble::NoLine => f.write_str(
            ": there is no number in it; see that it is the right file, and that it was written to its end",
        ),
    }
}

// `NUMBER NAME`
#[derive(Clone, Copy)]
struct Named(NoAnswer);

impl fmt::Display for Named {
    fn fmt<W: fmt::Write>(&self, f: &mut fmt::Formatter<W>) -> fmt::Result {
        match self.0 {
            NoAnswer::Store(why, _) | NoAnswer::Text(Trouble::Refused(why), _) => {
                let number = why.number();
                write!(f, "{number} {why}")
            }
            NoAnswer::Text(_, _) => f.write_str("20 BadText"),
            NoAnswer::File(_) => f.write_str("21 NoFile"),
            NoAnswer::NotWritten => f.write_str("22 NotWritten"),
        }
    }
}

// What stands behind the name of what is refused.
#[derive(Clone, Copy)]
struct Reason(NoAnswer);

impl fmt::Display for Reason {
    fn fmt<W: fmt::Write>(&self, f: &mut fmt::Formatter<W>) -> fmt::Result {
        match self.0 {
            NoAnswer::Store(Refusal::NoSuchIndex, Some(values)) => {
                write!(f, ": the ids of this column are those below {values}")
            }
            NoAnswer::Store(_, _) => f.write_str(UNFORESEEN),
            NoAnswer::Text(trouble, lines) => text(f, trouble, lines),
            NoAnswer::File(why) => write!(f, ": {why}"),
            NoAnswer::NotWritten => f.write_str(
                "the answer could not be written in full; what was written is not to be used",
            ),
        }
    }
}

// Says why there is no answer from the file of a name, which need not be text and is written byte for byte. Where even that cannot
// be written, the status says it alone.
pub fn refused<W: io::Write>(err: &mut W, path: &[u8], why: NoAnswer) -> Status
    ensures { result ≡ Refused }
{
    let named = Named(why);
    let reason = Reason(why);
    match why {
        NoAnswer::NotWritten => say(err, format_args!("refused {named}: {reason}\n")),
        _ => {
            say(err, format_args!("refused {named}: "));
            let _ = err.write_all(path);
            say(err, format_args!("{reason}\n"));
        }
    }
    Status::Refused
}

// Standard output did not take the whole answer.
pub fn unwritable<W: io::Write>(err: &mut W) -> Status
    ensures { result ≡ Refused }
{
    refused(err, b"", NoAnswer::NotWritten)
}

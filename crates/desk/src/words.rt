// What the words behind the program's name ask for, or the first that is wrong or missing.
ghost use Rattle.std.specs.Prelude.{◌≡◌, Some};
ghost use Rattle.desk.specs.Sentences.{name_of, sentence_of};
ghost use Rattle.desk.specs.Words.{verb_of, number_of, alone_of, show_of, get_of, interval_of, range_of, list_of, request_of};

use std::error::Error;
use std::fmt;

// The words by their names on the help page: a verb; the file; and numbers.
#[derive(Clone, Copy, Debug, PartialEq, Eq)]
pub enum Word {
    Verb,
    Terms,
    Id,
    Lo,
    Hi,
    From,
    To,
}

// What is wrong with the words. A word that is too long, or one too many, is told by its number, from 1 on.
#[derive(Clone, Copy, Debug, PartialEq, Eq)]
pub enum Fault {
    TooLong(usize),
    Missing(Word),
    NoVerb,
    TooMany(usize),
    NotANumber(Word),
    LoAboveHi,
    FromNotBelowTo,
}

// The word by its number, and by its name on the page where it has one.
impl fmt::Display for Word {
    ghost output = { λ word. Some (name_of word) };

    fn fmt<W: fmt::Write>(&self, f: &mut fmt::Formatter<W>) -> fmt::Result {
        f.write_str(match self {
            Word::Verb => "word 1",
            Word::Terms => "word 2 (TERMS)",
            Word::Id => "word 3 (ID)",
            Word::Lo => "word 3 (LO)",
            Word::Hi => "word 4 (HI)",
            Word::From => "word 5 (FROM)",
            Word::To => "word 6 (TO)",
        })
    }
}

// Which word is wrong, and what to do about it.
impl fmt::Display for Fault {
    ghost output = { λ fault. Some (sentence_of fault) };

    fn fmt<W: fmt::Write>(&self, f: &mut fmt::Formatter<W>) -> fmt::Result {
        match self {
            Fault::TooLong(number) => write!(f, "word {number} is longer than 4096 bytes"),
            Fault::Missing(word) => write!(f, "{word} is missing"),
            Fault::NoVerb => f.write_str("word 1 is none of list, get, show, help, --version"),
            Fault::TooMany(number) => write!(f, "word {number} is one too many"),
            Fault::NotANumber(word) => write!(
                f,
                "{word} is no number: write digits only, and a number below 18446744073709551616"
            ),
            Fault::LoAboveHi => f.write_str(
                "word 3 (LO) is above word 4 (HI), and no value lies in between: put the lower one first",
            ),
            Fault::FromNotBelowTo => f.write_str(
                "word 5 (FROM) is not below word 6 (TO), which is not included: no id lies in between",
            ),
        }
    }
}

impl Error for Fault {}

// What the words ask for.
#[derive(Clone, Copy, Debug, PartialEq, Eq)]
pub enum Request {
    Help,
    Version,
    Show,
    Get(u64),
    List(u64, u64),
    ListPart(u64, u64, u64, u64),
}

#[derive(Clone, Copy, Debug, PartialEq, Eq)]
enum Verb {
    Help,
    Version,
    Show,
    Get,
    List,
}

#[tactic(auto, unfolding(crate::specs::Words::verb_of))]
fn verb_in(word: &[u8]) -> Option<Verb>
    ensures { result ≡ verb_of word.now }
{
    match word {
        b"help" | b"--help" | b"-h" => Some(Verb::Help),
        b"--version" => Some(Verb::Version),
        b"show" => Some(Verb::Show),
        b"get" => Some(Verb::Get),
        b"list" => Some(Verb::List),
        _ => None,
    }
}

// The number that a word says.
fn number(word: Word, text: &[u8]) -> Result<u64, Fault>
    ensures { result ≡ number_of word text.now }
{
    decimal::read(text).map_err(|_| Fault::NotANumber(word))
}

// A verb that stands alone.
#[tactic(auto, unfolding(crate::specs::Words::alone_of))]
fn alone(count: usize, request: Request) -> Result<Request, Fault>
    ensures { result ≡ alone_of count request }
{
    if count > 1 {
        return Err(Fault::TooMany(2));
    }
    Ok(request)
}

#[tactic(auto, unfolding(crate::specs::Words::show_of))]
fn show(count: usize) -> Result<Request, Fault>
    ensures { result ≡ show_of count }
{
    if count < 2 {
        return Err(Fault::Missing(Word::Terms));
    }
    if count > 2 {
        return Err(Fault::TooMany(3));
    }
    Ok(Request::Show)
}

#[tactic(auto, unfolding(crate::specs::Words::get_of))]
fn get(count: usize, id: &[u8]) -> Result<Request, Fault>
    ensures { result ≡ get_of count id.now }
{
    if count < 2 {
        return Err(Fault::Missing(Word::Terms));
    }
    if count < 3 {
        return Err(Fault::Missing(Word::Id));
    }
    if count > 3 {
        return Err(Fault::TooMany(4));
    }
    let id = number(Word::Id, id)?;
    Ok(Request::Get(id))
}

// LO and HI are both included. (`range` differs in its comparison and its fault: one function for the two, with both handed in,
// would be no plainer.)
#[tactic(auto, unfolding(crate::specs::Words::interval_of))]
fn interval(lo: &[u8], hi: &[u8]) -> Result<(u64, u64), Fault>
    ensures { result ≡ interval_of lo.now hi.now }
{
    let lo = number(Word::Lo, lo)?;
    let hi = number(Word::Hi, hi)?;
    if hi < lo {
        return Err(Fault::LoAboveHi);
    }
    Ok((lo, hi))
}

// TO is not included.
#[tactic(auto, unfolding(crate::specs::Words::range_of))]
fn range(from: &[u8], to: &[u8]) -> Result<(u64, u64), Fault>
    ensures { result ≡ range_of from.now to.now }
{
    let from = number(Word::From, from)?;
    let to = number(Word::To, to)?;
    if to <= from {
        return Err(Fault::FromNotBelowTo);
    }
    Ok((from, to))
}

#[tactic(auto, unfolding(crate::specs::Words::list_of))]
fn list(count: usize, lo: &[u8], hi: &[u8], from: &[u8], to: &[u8]) -> Result<Request, Fault>
    ensures { result ≡ list_of count lo.now hi.now from.now to.now }
{
    if count < 2 {
        return Err(Fault::Missing(Word::Terms));
    }
    if count < 3 {
        return Err(Fault::Missing(Word::Lo));
    }
    if count < 4 {
        return Err(Fault::Missing(Word::Hi));
    }
    if count == 5 {
        return Err(Fault::Missing(Word::To));
    }
    if count > 6 {
        return Err(Fault::TooMany(7));
    }
    let (lo, hi) = interval(lo, hi)?;
    if count == 6 {
        let (from, to) = range(from, to)?;
        return Ok(Request::ListPart(lo, hi, from, to));
    }
    Ok(Request::List(lo, hi))
}

// What so many words ask for: the first, and those from the third on; a word that is missing is empty here. The second is
// the file's name, and nothing is asked of it but that it is there. `long` is the number of the first word that was too
// long to be read, if one was.
#[tactic(auto, unfolding(crate::specs::Words::request_of))]
pub fn asked(
    count: usize,
    long: Option<usize>,
    word: &[u8],
    third: &[u8],
    fourth: &[u8],
    fifth: &[u8],
    sixth: &[u8],
) -> Result<Request, Fault>
    ensures { result ≡ request_of count long word.now third.now fourth.now fifth.now sixth.now }
{
    if let Some(number) = long {
        return Err(Fault::TooLong(number));
    }
    if count == 0 {
        return Err(Fault::Missing(Word::Verb));
    }
    match verb_in(word) {
        Some(Verb::Help) => alone(count, Request::Help),
        Some(Verb::Version) => alone(count, Request::Version),
        Some(Verb::Show) => show(count),
        Some(Verb::Get) => get(count, third),
        Some(Verb::List) => list(count, third, fourth, fifth, sixth),
        None => Err(Fault::NoVerb),
    }
}

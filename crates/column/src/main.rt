// The desk's program: its words in, an answer on standard output or a refusal on standard error, and last its status.
#![tactic(auto)]

use serve::Descriptor;
use std::env::FillError;
use std::io::Write;
use std::os::fd::AsRawFd;
use std::rt::{Env, Files};

// Where the status is said, to a caller whose first word asks for it: a program of this language has no exit status.
const STATUS_FILENO: i32 = 29;

const STATUS_WORD: &[u8] = b"--status-fd=29";

// A word of the call, in a buffer of its own, and how many bytes of it that are, or why it was not read. (The library's list
// of words puts each into memory that grows, and there is none here.)
#[derive(Clone, Copy)]
struct Word {
    bytes: [u8; 4_096],
    length: Result<usize, FillError>,
}

impl Word {
    fn read(rt: &impl Env, i: usize) -> Word {
        let mut bytes = [0; 4_096];
        let length = rt.arg(i, &mut bytes);
        Word { bytes, length }
    }

    // The word, or nothing where it is missing or too long for the buffer.
    fn text(&self) -> &[u8] {
        let bytes = &self.bytes[..];
        let length = self.length.unwrap_or(0);
        bytes.get(..length).unwrap_or(b"")
    }

    fn is_long(&self) -> bool {
        matches!(self.length, Err(FillError::TooLong))
    }
}

fn is_missing(rt: &impl Env, i: usize) -> bool {
    matches!(rt.arg(i, &mut [0]), Err(FillError::NotPresent))
}

// How many words there are from one on.
fn words_from(rt: &impl Env, first: usize) -> usize {
    (first..usize::MAX)
        .position(|i| is_missing(rt, i))
        .unwrap_or(usize::MAX - first)
}

// Answers the words from one on, and gives the number of the status.
fn answer<O: Write + AsRawFd, E: Write>(
    rt: &(impl Env + Files),
    out: &mut O,
    err: &mut E,
    first: usize,
) -> u8 {
    let words: [Word; 6] = std::array::from_fn(|i| Word::read(rt, first.saturating_add(i)));
    let long = words.iter().position(Word::is_long).map(|i| i + 1);
    let [verb, path, third, fourth, fifth, sixth] = &words;
    let asked = desk::asked(
        words_from(rt, first),
        long,
        verb.text(),
        third.text(),
        fourth.text(),
        fifth.text(),
        sixth.text(),
    );
    let status = serve::serve(rt, out, err, asked, path.text());
    serve::handed_over(rt, out, err, status.number())
}

fn main(rt: HostRuntime) {
    let mut out = rt.stdout();
    let mut err = rt.stderr();
    if Word::read(&rt, 1).text() == STATUS_WORD {
        let status = answer(&rt, &mut out, &mut err, 2);
        let _ = Descriptor(STATUS_FILENO).write_all(&[serve::digit(status)]);
        return;
    }
    answer(&rt, &mut out, &mut err, 1);
}

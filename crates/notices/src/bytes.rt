// What a byte that is no digit is, for someone who sees the file in an editor or a spreadsheet.
use std::fmt;

// A byte by its name, its sign or its number.
#[derive(Clone, Copy)]
struct Named(u8);

impl fmt::Display for Named {
    fn fmt<W: fmt::Write>(&self, f: &mut fmt::Formatter<W>) -> fmt::Result {
        match self.0 {
            0 => f.write_str("a NUL"),
            b' ' => f.write_str("a blank"),
            b'\t' => f.write_str("a tab"),
            b'\r' => f.write_str("a carriage return"),
            b',' => f.write_str("a comma"),
            b'.' => f.write_str("a point"),
            b'-' => f.write_str("a minus sign"),
            byte => sign(f, byte),
        }
    }
}

// A byte that has no name.
fn sign<W: fmt::Write>(f: &mut fmt::Formatter<W>, byte: u8) -> fmt::Result {
    if byte.is_ascii_alphabetic() {
        return write!(f, "the letter {}", char::from(byte));
    }
    if byte.is_ascii_graphic() {
        return write!(f, "the character {}", char::from(byte));
    }
    write!(f, "byte {byte}")
}

// What to do about a byte at the start of a file.
fn advice_at_start(byte: u8) -> &'static str {
    match byte {
        b'P' => {
            ": take a heading out, so that the first line is that of id 0; a spreadsheet's own file, which starts so too, has to be saved as plain text"
        }
        b'A'..=b'Z' | b'a'..=b'z' => {
            ": if it is a heading, take it out, so that the first line is that of id 0"
        }
        0xEF => {
            ", as a byte order mark has it: if the file was saved as UTF-8 with a mark, save it without"
        }
        0xFE..=0xFF => {
            ", as UTF-16 text begins: save the file as plain text, UTF-8 without a mark"
        }
        _ => advice(0, byte),
    }
}

// What to do about a byte elsewhere. What stands behind a number is not to be joined to it.
fn advice(place: usize, byte: u8) -> &'static str {
    match byte {
        0 => { ", as a spreadsheet's own file or UTF-16 text has it: save the file as plain text" }
        b' ' | b'\t' if place == 0 => ": a line starts with its number",
        b' ' | b'\t' => ": a line has one number and nothing after it",
        b',' => ": one number a line, and 1,000 is written 1000",
        b'.' => ": only whole numbers can be stored, in digits only",
        b'\r' => ": no line feed follows it; end each line with a line feed",
        b'-' => ": only numbers from 0 on can be stored",
        128..=255 => {
            ", of a character that is no plain one: write each number in digits only, one a line"
        }
        _ => ": write each number in digits only, one a line",
    }
}

// A byte that is no digit, at a place from 0 on of a line after so many others.
#[derive(Clone, Copy)]
pub(crate) struct OtherByte {
    pub(crate) lines: usize,
    pub(crate) place: usize,
    pub(crate) byte: u8,
}

impl OtherByte {
    fn advice(&self) -> &'static str {
        if self.lines == 0 && self.place == 0 {
            advice_at_start(self.byte)
        } else {
            advice(self.place, self.byte)
        }
    }
}

// Places are said from 1 on, and whether the line's digits stand before it.
impl fmt::Display for OtherByte {
    fn fmt<W: fmt::Write>(&self, f: &mut fmt::Formatter<W>) -> fmt::Result {
        let after = if self.place == 0 {
            ""
        } else {
            ", after the digits"
        };
        let name = Named(self.byte);
        let place = self.place.wrapping_add(1);
        let advice = self.advice();
        write!(f, "{name} at place {place}{after}{advice}")
    }
}

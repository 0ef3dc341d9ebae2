// A line that is read byte by byte: however long it is, what is known of it takes four fields.
ghost use Rattle.std.specs.Prelude.{◌≡◌, ◌+◌, ◌%◌, ◌^◌, Option, None, false};
ghost use Rattle.decimal.specs.Line.{line_of, new_line, wrong_line, cr_line, byte_of, ended_of};

use crate::{NumeralError, append};

// How many digits the line starts with, modulo 2^64, and the number that they stand for, unless it is too
// large; whether a carriage return follows them; and the first byte that may not stand where it does, if any.
#[derive(Clone, Copy, Debug, PartialEq, Eq)]
pub struct Line {
    pub digits: usize,
    pub value: Option<u64>,
    pub after_cr: bool,
    pub wrong: Option<u8>,
}

impl Line {
    // Nothing is read yet.
    pub fn new() -> Line
        ensures { result ≡ new_line }
    {
        Line {
            digits: 0,
            value: Some(0),
            after_cr: false,
            wrong: None,
        }
    }

    // This byte stands where it may not.
    fn wrongly(self, byte: u8) -> Line
        ensures { result ≡ wrong_line self byte }
    {
        Line {
            wrong: Some(byte),
            ..self
        }
    }

    // A carriage return behind the digits.
    fn with_cr(self) -> Line
        ensures { result ≡ cr_line self }
    {
        Line {
            after_cr: true,
            wrong: None,
            ..self
        }
    }

    // One digit more, after which the number is the one handed in, or is too large.
    fn with_digit(self, value: Option<u64>) -> Line
        ensures { result ≡ line_of ((self.digits + 1) % 2 ^ 64) value false None }
    {
        Line {
            digits: self.digits.wrapping_add(1),
            value,
            after_cr: false,
            wrong: None,
        }
    }

    // One byte more, which is no line feed.
    #[tactic(auto, using(crate::proofs::Laws::byte_of_wrong, crate::proofs::Laws::byte_after_cr, crate::proofs::Laws::byte_is_cr, crate::proofs::Laws::byte_is_other, crate::proofs::Laws::byte_is_digit))]
    pub fn byte(self, byte: u8) -> Line
        ensures { result ≡ byte_of self byte }
    {
        if self.wrong.is_some() {
            return self;
        }
        if self.after_cr {
            return self.wrongly(b'\r');
        }
        if byte == b'\r' {
            return self.with_cr();
        }
        if !byte.is_ascii_digit() {
            return self.wrongly(byte);
        }
        self.with_digit(self.value.and_then(|value| append(value, byte).ok()))
    }

    // What the line says where a line feed ends it: a carriage return may stand before that.
    #[tactic(auto, unfolding(crate::specs::Line::ended_of))]
    pub fn ended(self) -> Result<u64, NumeralError>
        ensures { result ≡ ended_of self }
    {
        if let Some(byte) = self.wrong {
            return Err(NumeralError::NotADigit(self.digits, byte));
        }
        if self.digits == 0 {
            return Err(NumeralError::Empty);
        }
        self.value.ok_or(NumeralError::TooLarge)
    }
}

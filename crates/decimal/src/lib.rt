// A number as decimal text: what a line says, and where it goes wrong.
#![tactic(auto)]

mod line;

ghost use Rattle.std.specs.Prelude.{◌≡◌, ◌<◌, length, SomeIff};
ghost use Rattle.decimal.specs.Digits.{first_other, append_of, number_or_too_large, read_of};

pub use line::Line;

// The first thing that is wrong in a text that is no number: of a byte that is no digit, its place and which it is.
#[derive(Clone, Copy, Debug, PartialEq, Eq)]
pub enum NumeralError {
    Empty,
    NotADigit(usize, u8),
    TooLarge,
}

// The place of the first byte that is no digit, if there is one.
fn first_other(text: &[u8]) -> Option<usize>
    ensures { SomeIff result (first_other text.now < length text.now) (first_other text.now) }
{
    text.iter().position(|byte| !byte.is_ascii_digit())
}

// The number of one digit more behind those that stand for value, unless it takes more than 64 bits.
#[tactic(auto, using(crate::proofs::Laws::append_other, crate::proofs::Laws::append_fits, crate::proofs::Laws::append_too_large))]
pub fn append(value: u64, byte: u8) -> Result<u64, NumeralError>
    ensures { result ≡ append_of value byte }
{
    if !byte.is_ascii_digit() {
        return Err(NumeralError::NotADigit(0, byte));
    }
    let tens = value.checked_mul(10).ok_or(NumeralError::TooLarge)?;
    tens.checked_add(u64::from(byte - b'0'))
        .ok_or(NumeralError::TooLarge)
}

// The number that digits stand for, unless it takes more than 64 bits.
fn number(text: &[u8]) -> Result<u64, NumeralError>
    requires { first_other text.now ≡ length text.now }
    ensures { result ≡ number_or_too_large text.now }
{
    let mut value = 0;
    for byte in text {
        value = append(value, *byte)?;
    }
    Ok(value)
}

// What a text says: digits only, and below 2^64. Leading zeros are digits like others.
#[tactic(auto, using(crate::proofs::Laws::other_within, crate::proofs::Laws::other_nowhere), unfolding(crate::specs::Digits::read_of))]
pub fn read(text: &[u8]) -> Result<u64, NumeralError>
    ensures { result ≡ read_of text.now }
{
    if text.is_empty() {
        return Err(NumeralError::Empty);
    }
    if let Some(other) = first_other(text) {
        return Err(NumeralError::NotADigit(other, text[other]));
    }
    number(text)
}

// The program's arguments, which are decimal numbers.
use std::rt::Env;

// No number that is longer by a digit than one above this is read.
const LONG: u64 = 1_000_000_000_000;

// The number that digits stand for, if it is not too large. Not by `str::parse`, which takes a sign before them too.
fn parse(text: &[u8]) -> Option<u64> {
    let mut value: u64 = 0;
    for byte in text {
        if !byte.is_ascii_digit() || value > LONG {
            return None;
        }
        value = value * 10 + u64::from(*byte - b'0');
    }
    Some(value)
}

// One that is missing, is no number, or has more than 4,096 bytes, counts as 0.
pub fn argument(rt: &impl Env, place: usize) -> u64 {
    let mut text = io::buffer();
    match rt.arg(place, &mut text) {
        Ok(n) => parse(&text[..n]).unwrap_or(0),
        Err(_) => 0,
    }
}

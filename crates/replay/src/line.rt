// A line of numbers in lowercase hexadecimal, a byte between two, read byte by byte.
ghost use Rattle.std.specs.Prelude.{◌<◌};

use crate::areas::ROOM;
use std::array;

// The digit that a byte is. None is in capitals.
fn digit(byte: u8) -> Option<u64> {
    match byte {
        b'0'..=b'9' => Some(u64::from(byte - b'0')),
        b'a'..=b'f' => Some(u64::from(byte - b'a' + 10)),
        _ => None,
    }
}

// The numbers so far, and the place of the one that is being read. No line has more numbers than there is room for.
#[derive(Drop)]
pub struct Line {
    numbers: [u64; ROOM],
    place: usize,
    ghost inside: { place < 8192 },
}

impl Line {
    pub fn new() -> Line {
        Line {
            numbers: [0; ROOM],
            place: 0,
        }
    }

    // The first number is the step's kind.
    pub fn kind(&self) -> u64 {
        self.numbers[0]
    }

    // The numbers after the first.
    pub fn step(&self) -> &[u64] {
        &self.numbers[1..self.place + 1]
    }

    pub fn read(&mut self, byte: u8) {
        if let Some(digit) = digit(byte) {
            self.numbers[self.place] = (self.numbers[self.place] << 4) | digit;
            return;
        }
        self.place = if byte == b'\n' {
            0
        } else {
            (self.place + 1) % ROOM
        };
        self.numbers[self.place] = 0;
    }
}

// The first numbers of a step, with 0 for each that it lacks.
pub fn first<const N: usize>(step: &[u64]) -> [u64; N] {
    array::from_fn(|i| step.get(i).copied().unwrap_or(0))
}

// The last 32 bits, and the last 8: `as` alone does not cut, since what is cast has to fit.
pub fn low_u32(number: u64) -> u32 {
    (number % 0x1_0000_0000) as u32
}

pub fn low_u8(number: u64) -> u8 {
    (number % 256) as u8
}

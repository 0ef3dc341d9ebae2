// An answer on standard output: numbers in lowercase hexadecimal, each after one space, and a line feed.
ghost use Rattle.std.specs.Prelude.{◌<◌, ◌≤◌};

use refusal::Refusal;

// What is printed gathers on a page of so many bytes: of an answer of some numbers, and of one with an area behind them. (Not
// `println!`, whose own page has 1,024, with a number put on it by `{:x}`: an answer of 32,768 bytes takes five times the
// instructions so.)
const SHORT: usize = 128;

const LONG: usize = 4_096;

// The most that a number takes with its space, and the line feed.
const NUMBER: usize = 18;

// The bytes that wait, and how many of them do.
#[derive(Drop)]
struct Page<const SIZE: usize> {
    bytes: [u8; SIZE],
    end: usize,
    ghost inside: { end < SIZE },
}

impl<const SIZE: usize> Page<SIZE> {
    fn new() -> Page<SIZE>
        requires { 18 ≤ SIZE }
    {
        Page {
            bytes: [0; SIZE],
            end: 0,
        }
    }

    // Prints the first bytes of the page. What standard output does not take is missed by whoever compares the answers.
    fn print(&self, rt: &impl Print, end: usize)
        requires { end ≤ SIZE }
    {
        let bytes = &self.bytes[..];
        let _ = rt.write_all(&bytes[..end]);
    }

    // A space and a number.
    fn put(&mut self, rt: &impl Print, number: u64)
        requires { 18 ≤ SIZE }
    {
        if self.end > SIZE - NUMBER {
            self.print(rt, self.end);
            self.end = 0;
        }
        let end = self.end;
        let digits = digit_count(number);
        self.bytes[end] = b' ';
        for place in 0..digits {
            self.bytes[end + digits - place] = digit(number >> (4 * place));
        }
        self.end = end + digits + 1;
    }

    fn end_line(mut self, rt: &impl Print) {
        self.bytes[self.end] = b'\n';
        self.print(rt, self.end + 1);
    }
}

// How many digits a number has: one where it is 0.
fn digit_count(number: u64) -> usize
    ensures { result ≤ 16 }
{
    (64 - (number | 1).leading_zeros() as usize).div_ceil(4)
}

// The sign of a number's last four bits.
fn digit(number: u64) -> u8 {
    b"0123456789abcdef"[(number % 16) as usize]
}

// Prints some numbers, and what an area holds behind them, by pages of a size.
fn say_by<const SIZE: usize, T: Copy + Into<u64>>(rt: &impl Print, numbers: &[u64], area: &[T])
    requires { (18 ≤ SIZE) × (SIZE ≤ 4096) }
{
    let mut page = Page::<SIZE>::new();
    for number in numbers {
        page.put(rt, *number);
    }
    for element in area {
        page.put(rt, (*element).into());
    }
    page.end_line(rt);
}

pub fn say_area<T: Copy + Into<u64>>(rt: &impl Print, numbers: &[u64], area: &[T]) {
    say_by::<LONG, T>(rt, numbers, area);
}

pub fn say(rt: &impl Print, numbers: &[u64]) {
    let nothing: &[u64] = &[];
    say_by::<SHORT, u64>(rt, numbers, nothing);
}

// 0, or the number of the refusal.
pub fn number_of<T: Copy>(port: Result<T, Refusal>) -> u64 {
    match port {
        Ok(_) => 0,
        Err(why) => u64::from(why.number()),
    }
}

// Runs the calls of the file `cases`, one a line, as the program would, with standard output for both of its ends.
#![tactic(auto)]

mod words;

use notices::Status;
use std::fs::File;
use std::io::Write;
use std::os::fd::AsRawFd;
use std::rt::Files;
use words::{count, word};

// `$ column WORDS`
fn say_call<W: Write>(out: &mut W, line: &[u8]) -> std::io::Result<()> {
    out.write_all(b"$ column")?;
    if !line.is_empty() {
        out.write_all(b" ")?;
    }
    out.write_all(line)?;
    out.write_all(b"\n")
}

// `status N`
fn say_status<W: Write>(out: &mut W, status: Status) -> std::io::Result<()> {
    let number = status.number();
    writeln!(out, "status {number}")
}

// One call: the line is its words. Who compares the output sees where it did not take a part.
fn call<O: Write, E: Write>(rt: &impl Files, out: &mut O, err: &mut E, line: &[u8]) {
    let _ = say_call(out, line);
    let asked = desk::asked(
        count(line),
        None,
        word(line, 0),
        word(line, 2),
        word(line, 3),
        word(line, 4),
        word(line, 5),
    );
    let status = serve::serve(rt, out, err, asked, word(line, 1));
    let _ = say_status(out, status);
}

// Each line that ends with a line feed.
fn calls<O: Write, E: Write>(rt: &impl Files, out: &mut O, err: &mut E, text: &[u8]) {
    for line in text.split_inclusive(|byte| *byte == b'\n') {
        if let Some(line) = line.strip_suffix(b"\n") {
            call(rt, out, err, line);
        }
    }
}

fn main(rt: HostRuntime) {
    let name = "cases";
    match File::open(&rt, name) {
        Ok(file) => {
            // The standard library reads to the end into memory that grows, and there is none here.
            let mut buffer = io::large_buffer();
            let n = io::read_full(file.as_raw_fd(), &mut buffer);
            drop(file);
            calls(&rt, &mut rt.stdout(), &mut rt.stdout(), &buffer[..n]);
        }
        Err(why) => {
            let _ = eprintln!(rt; "{name}: {why}");
        }
    }
}

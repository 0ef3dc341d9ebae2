// Has the port take steps, and prints its answers: a line of input is a step, and a line of output its answer.
// The steps come from the file that the first argument names, or else from standard input.
#![tactic(auto)]

mod areas;
mod line;
mod packing;
mod pure;
mod reading;
mod say;
mod state;
mod step;
mod store;

use areas::Areas;
use line::Line;
use state::State;
use std::fs::File;
use std::io::Read;
use std::{env, io};

// What is read of a line so far, and what the lines before left.
#[derive(Drop)]
struct Replay {
    line: Line,
    areas: Areas,
    state: State,
}

impl Replay {
    fn new() -> Replay {
        Replay {
            line: Line::new(),
            areas: Areas::new(),
            state: State::new(),
        }
    }

    // Takes the step of each line that ends on the page.
    fn read(&mut self, rt: &impl Print, page: &[u8]) {
        for byte in page {
            if *byte == b'\n' {
                self.state
                    .take(rt, &mut self.areas, self.line.kind(), self.line.step());
            }
            self.line.read(*byte);
        }
    }
}

// A proved loop has to end, and nothing says that the input does: the turns are counted up to a number
// that no run reaches.
fn answer_each<R: Read>(rt: &impl Print, reader: &mut R, page: &mut [u8]) -> io::Result<()> {
    let mut replay = Replay::new();
    for _ in 0..u64::MAX {
        let n = reader.read(page)?;
        if n == 0 {
            break;
        }
        replay.read(rt, &page[..n]);
    }
    Ok(())
}

fn answer_all<R: Read>(rt: &impl Print, reader: &mut R) -> io::Result<()> {
    answer_each(rt, reader, &mut [0; 65536])
}

// A file that cannot be opened is said on standard error, and nothing is answered. A read that fails ends the program
// with its error.
fn main(rt: HostRuntime) -> io::Result<()> {
    let Some(name) = env::args(&rt)?.nth(1) else {
        return answer_all(&rt, &mut rt.stdin());
    };
    match File::open(&rt, name.as_str()) {
        Ok(mut file) => answer_all(&rt, &mut file),
        Err(error) => eprintln!(rt; "{name}: {error}"),
    }
}

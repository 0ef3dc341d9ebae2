// How the program is called, and which word of a call is wrong.
ghost use Rattle.std.specs.Prelude.{◌≡◌, IfErr};
ghost use Rattle.notices.specs.declared.Status.TheVariants.{Usage};
ghost use Rattle.notices.specs.declared.refuse.NoAnswer.TheVariants.{NotWritten};

use crate::{NoAnswer, Status, say};
use desk::Fault;
use std::io;

const PAGE: &str = "./column: which values of a column lie in an interval, with nobody missing

  ./column list TERMS LO HI [FROM TO]   the ids whose value lies in LO to HI, each with its value, and how many of how many
  ./column get TERMS ID                 the value of one id
  ./column show TERMS                   how many values there are, and how they are packed
  ./column help                         this page; --help and -h are the same
  ./column --version                    the version

TERMS is a text file, or /dev/stdin, of one decimal number a line and nothing else, and at most 131072 of them.
Each line has its line end: a line feed, or a carriage return and a line feed.
The number of id N stands on line N + 1: that of id 0 on the first line.
LO and HI are both included. With FROM and TO, only ids from FROM to before TO are looked at: TO is not included.
A list ends with `K of N`: K ids were found, N were looked at. A file that was cut between two lines shows only there.
Call it by its path, as ./column: the command column of most machines is another program.

Its status:
  0  an answer, and all of it was written
  1  a refusal: standard error says why; what was printed before it is not to be used
  2  the words are no request: standard error says which word
  3  the program could not be built or started: nothing was asked
  4  the program ended without saying its status: what was printed is not to be used
  more than 128: ended by a signal, as by Ctrl-C: what was printed is not to be used
";

const VERSION: &str = "column (Stumpvessel) 0.1.0\n";

// What was asked for is a text of its own.
fn written<W: io::Write>(out: &mut W, text: &str) -> Result<(), NoAnswer>
    ensures { IfErr result (λ why. why ≡ NotWritten) }
{
    out.write_all(text.as_bytes())
        .map_err(|_| NoAnswer::NotWritten)
}

pub fn help<W: io::Write>(out: &mut W) -> Result<(), NoAnswer>
    ensures { IfErr result (λ why. why ≡ NotWritten) }
{
    written(out, PAGE)
}

pub fn version<W: io::Write>(out: &mut W) -> Result<(), NoAnswer>
    ensures { IfErr result (λ why. why ≡ NotWritten) }
{
    written(out, VERSION)
}

// Words that are no request, and what is wrong with them. Where even that cannot be written, the status says it alone.
pub fn wrong<W: io::Write>(err: &mut W, fault: Fault) -> Status
    ensures { result ≡ Usage }
{
    say(err, format_args!("usage: {fault}\n"));
    say(err, "./column help says how it is called\n");
    Status::Usage
}

// Answers what the desk's words ask for: reads the file, loads it and writes the answer, or says why not.
// It decides nothing: what the words mean is `desk`'s, what a text leads to `terms`', what is listed the store's.
#![tactic(auto)]

mod column;
mod descriptor;
mod file;
mod kept;
mod page;
mod rows;

ghost use Rattle.std.specs.Prelude.{◌≡◌, ◌+◌, ◌%◌};
ghost use Rattle.serve.specs.Status.{Status as StatusOf, HandedOver};

use column::Column;
pub use descriptor::Descriptor;
use desk::{Fault, Request};
use file::{ByteArea, EntryArea, PositionArea, area};
use notices::{NoAnswer, Status};
use std::io;
use std::os::fd::AsRawFd;
use std::rt::Files;

fn show<W: io::Write>(out: &mut W, column: &Column<'_>) -> Result<(), NoAnswer> {
    let values = column.count()?;
    Ok(rows::show(out, column, values)?)
}

fn get<W: io::Write>(out: &mut W, column: &Column<'_>, id: u64) -> Result<(), NoAnswer> {
    let value = column.get(id as usize)?;
    Ok(rows::value(out, value)?)
}

// The ids with a value in lo to hi, of all ids.
fn list<W: io::Write>(out: &mut W, column: &Column<'_>, lo: u64, hi: u64) -> Result<(), NoAnswer> {
    let mut positions: PositionArea = area();
    let values = column.count()?;
    let count = column.list_all(lo, hi, &mut positions)?;
    Ok(rows::list(out, column, &positions, count, values as u64)?)
}

// The same of the ids from `from` to before `to`. (Two functions here and in `Column`, as in `desk`: over all ids the count says how
// many were asked about.)
fn list_part<W: io::Write>(
    out: &mut W,
    column: &Column<'_>,
    lo: u64,
    hi: u64,
    from: u64,
    to: u64,
) -> Result<(), NoAnswer> {
    let mut positions: PositionArea = area();
    let count = column.list(lo, hi, from, to, &mut positions)?;
    let asked = to.saturating_sub(from);
    Ok(rows::list(out, column, &positions, count, asked)?)
}

// Loads a file, and answers from its column. Not inlined, and apart from the opening: the areas take over a megabyte of the stack,
// which is cleared where the function begins, and the requests without a file, and those of a file that cannot be opened, do not
// need them.
#[inline(never)]
fn from_open<I: io::Read + Drop, F: FnOnce(&Column<'_>) -> Result<(), NoAnswer> + Drop>(
    file: I,
    answer: F,
) -> Result<(), NoAnswer>
    requires { F.IsAlwaysCallable answer }
{
    let mut bytes: ByteArea = area();
    let mut entries: EntryArea = area();
    let loaded = file::load(file, &mut bytes, &mut entries)?;
    if let Some(trouble) = loaded.trouble {
        return Err(NoAnswer::Text(trouble, loaded.lines));
    }
    answer(&Column {
        store: &loaded.store,
        bytes: &bytes,
        entries: &entries,
    })
}

// The same of the file of a name.
fn from_file<R: Files, F: FnOnce(&Column<'_>) -> Result<(), NoAnswer> + Drop>(
    rt: &R,
    path: &[u8],
    answer: F,
) -> Result<(), NoAnswer>
    requires { F.IsAlwaysCallable answer }
{
    from_open(file::open(rt, path)?, answer)
}

fn answer<R: Files, W: io::Write>(
    rt: &R,
    out: &mut W,
    request: Request,
    path: &[u8],
) -> Result<(), NoAnswer> {
    match request {
        Request::Help => notices::help(out),
        Request::Version => notices::version(out),
        Request::Show => from_file(rt, path, |column| show(out, column)),
        Request::Get(id) => from_file(rt, path, |column| get(out, column, id)),
        Request::List(lo, hi) => from_file(rt, path, |column| list(out, column, lo, hi)),
        Request::ListPart(lo, hi, from, to) => {
            from_file(rt, path, |column| list_part(out, column, lo, hi, from, to))
        }
    }
}

// Answers a request on the file of a name. Words that are no request have their own status and no others have it; whether a
// request is answered or refused is the file's, and the contract leaves it open (docs/PROMISES.md).
pub fn serve<R: Files, O: io::Write, E: io::Write>(
    rt: &R,
    out: &mut O,
    err: &mut E,
    asked: Result<Request, Fault>,
    path: &[u8],
) -> Status
    ensures { StatusOf asked result }
{
    match asked {
        Ok(request) => match answer(rt, out, request, path) {
            Ok(()) => Status::Answered,
            Err(why) => notices::refused(err, path, why),
        },
        Err(fault) => notices::wrong(err, fault),
    }
}

// The status of a call whose answer, if it has one, is handed over by seeing that it is kept: what could not be, as on a full
// disk behind a network, shows there as far as it can be seen (docs/DECISIONS.md, 50). A status is its number here and in
// `digit`, which both take any number: an enum would ask more of who calls them.
pub fn handed_over<R: Files, O: AsRawFd, E: io::Write>(
    rt: &R,
    out: &O,
    err: &mut E,
    status: u8,
) -> u8
    ensures { HandedOver status result }
{
    if status != Status::Answered.number() {
        return status;
    }
    if kept::is_lost(rt, out) {
        return notices::unwritable(err).number();
    }
    status
}

// The digit that says a status.
pub fn digit(status: u8) -> u8
    ensures { result ≡ 48 + status % 10 }
{
    b'0' + status % 10
}

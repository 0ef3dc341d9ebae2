// Work whose instructions are counted, the port's side: `bench KIND WIDTH COUNT SPACING TIMES`. KIND is the
// number of a kind below. A column or a store has COUNT values, of which every SPACING-th is 1 and the
// others are 0; a column has WIDTH bits for each. The work is done TIMES times, so that the difference
// of two TIMES is the work alone.
#![tactic(auto)]

mod areas;
mod column;
mod load;
mod number;
mod pack;
mod store;

use load::Load;
use std::io;

#[derive(Clone, Copy, Debug, PartialEq, Eq)]
enum Kind {
    Pack,
    Get,
    RangesOf64,
    RangesOf1000,
    Search,
    AddToStore,
    ReadStore,
    SearchStore,
    AddToLentStore,
}

// A number that no kind has.
#[derive(Clone, Copy, Debug, PartialEq, Eq)]
struct UnknownKind;

impl TryFrom<u64> for Kind {
    type Error = UnknownKind;

    fn try_from(number: u64) -> Result<Kind, UnknownKind> {
        match number {
            0 => Ok(Kind::Pack),
            1 => Ok(Kind::Get),
            2 => Ok(Kind::RangesOf64),
            3 => Ok(Kind::RangesOf1000),
            4 => Ok(Kind::Search),
            5 => Ok(Kind::AddToStore),
            6 => Ok(Kind::ReadStore),
            7 => Ok(Kind::SearchStore),
            8 => Ok(Kind::AddToLentStore),
            _ => Err(UnknownKind),
        }
    }
}

fn work(kind: Kind, load: Load) -> u64 {
    match kind {
        Kind::Pack => pack::work(load),
        Kind::Get => column::work(load, column::get_each),
        Kind::RangesOf64 => column::work(load, column::ranges_of_64),
        Kind::RangesOf1000 => column::work(load, column::ranges_of_1000),
        Kind::Search => column::work(load, column::search),
        Kind::AddToStore => store::add(load, store::fill),
        Kind::ReadStore => store::work(load, store::ranges),
        Kind::SearchStore => store::work(load, store::search),
        Kind::AddToLentStore => store::add(load, store::fill_lent),
    }
}

fn main(rt: HostRuntime) -> io::Result<()> {
    let kind = Kind::try_from(number::argument(&rt, 1));
    let width = number::argument(&rt, 2);
    let count = number::argument(&rt, 3);
    let spacing = number::argument(&rt, 4);
    let times = number::argument(&rt, 5);
    let Some(load) = Load::new(width, count, spacing, times) else {
        return Ok(());
    };
    let sum = match kind {
        Ok(kind) => work(kind, load),
        Err(_) => 0,
    };
    println!(rt; "{sum}")
}

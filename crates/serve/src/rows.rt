// The answers, line by line.
use crate::column::Column;
use crate::page::Page;
use std::fmt;
use std::fmt::Write;

// For answers of any length.
type LargePage<W> = Page<W, 65_536>;

// One number on a line.
pub(crate) fn value<W: std::io::Write>(out: &mut W, value: u64) -> fmt::Result {
    let mut page = Page::<_, 4_096>::new(out);
    writeln!(page, "{value}")?;
    page.write_out()
}

// `ID VALUE` for each of the ids.
fn rows<W: std::io::Write>(
    page: &mut LargePage<&mut W>,
    column: &Column<'_>,
    ids: &[u32],
) -> fmt::Result {
    for id in ids {
        let value = column.get(*id as usize).map_err(|_| fmt::Error)?;
        writeln!(page, "{id} {value}")?;
    }
    Ok(())
}

// A row for each id that stands at the start of the positions, and last how many of how many.
pub(crate) fn list<W: std::io::Write>(
    out: &mut W,
    column: &Column<'_>,
    positions: &[u32],
    count: usize,
    asked: u64,
) -> fmt::Result {
    if count > positions.len() {
        return Err(fmt::Error);
    }
    let mut page = LargePage::new(out);
    rows(&mut page, column, &positions[..count])?;
    writeln!(page, "{count} of {asked}")?;
    page.write_out()
}

// ---- what a column is

// Whether values can still be added.
fn state(last_length: usize) -> &'static str {
    if last_length == 0 {
        "state open\n"
    } else {
        "state closed\n"
    }
}

// The last id of a block: its 128th, or the column's last.
fn last_of(first: usize, values: usize) -> usize {
    first
        .saturating_add(127)
        .min(values.saturating_sub(1))
        .max(first)
}

// `block K: ids A to B, width W, lowest L`
fn block<W: std::io::Write>(
    page: &mut LargePage<&mut W>,
    k: usize,
    values: usize,
    entries: &[u64],
) -> fmt::Result {
    let first = k.saturating_mul(128);
    let last = last_of(first, values);
    let width = desk::block_width(k, entries).unwrap_or(0);
    let lowest = desk::block_base(k, entries).unwrap_or(0);
    writeln!(
        page,
        "block {k}: ids {first} to {last}, width {width}, lowest {lowest}"
    )
}

fn blocks<W: std::io::Write>(
    page: &mut LargePage<&mut W>,
    column: &Column<'_>,
    values: usize,
) -> fmt::Result {
    for k in 0..column.store.blocks {
        block(page, k, values, column.entries)?;
    }
    Ok(())
}

// How many values there are, whether more can be added, and how they are packed.
pub(crate) fn show<W: std::io::Write>(
    out: &mut W,
    column: &Column<'_>,
    values: usize,
) -> fmt::Result {
    let store = column.store;
    let mut page = LargePage::new(out);
    writeln!(page, "values {values}")?;
    page.write_str(state(store.last_length))?;
    writeln!(page, "blocks {}", store.blocks)?;
    writeln!(page, "used bytes {}", store.used)?;
    writeln!(page, "waiting {}", store.waiting)?;
    blocks(&mut page, column, values)?;
    page.write_out()
}

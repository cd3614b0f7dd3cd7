// The lines of a report.
use crate::RULES;
use book::{Book, Entry, Mark, write_totals};
use console::NoAnswer;
use kind::Kind;
use paths::Port;
use pile::Pile;
use site::Refusal;
use std::alloc::Global;

type Point = <Pile as Kind>::Point;

// Room for each two rules.
const PAIRS: usize = RULES * (RULES - 1) / 2;

// More than the longest line: two ids, a node and a class of 16 bytes each, a point, and the words between.
const WIDEST: usize = 160;

// A line for each pair, and one with both counts.
pub fn list(heap: Global, book: &Book<'_, '_, Pile>) -> Result<Vec<u8>, NoAnswer> {
    let mut entries = Vec::new(heap);
    entries.resize_with(PAIRS, blank)?;
    let totals = book.report(entries.as_mut_slice())?;
    let mut lines = Vec::new(heap);
    for entry in entries.iter().take(totals.pairs) {
        put_line(&mut lines, |line| book.write_entry(entry, line))?;
    }
    put_line(&mut lines, |line| write_totals(totals, line))?;
    Ok(lines)
}

// What fills the places of the list that hold no pair.
fn blank() -> Entry<Point> {
    Entry {
        first: 0,
        second: 0,
        first_place: 0,
        second_place: 0,
        port: Port { link: 0, node: 0 },
        class: 0,
        point: ((0, 0), [0; 4]),
        mark: Mark::Open,
    }
}

// The line that is written into a buffer, and its end.
fn put_line<F: FnOnce(&mut [u8]) -> Result<usize, Refusal>>(
    lines: &mut Vec<u8>,
    write: F,
) -> Result<(), NoAnswer>
    requires { F.IsAlwaysCallable write }
{
    let mut line = [0; WIDEST];
    let len = write(&mut line)?;
    lines.extend_from_slice(line.get(..len).unwrap_or_default())?;
    lines.extend_from_slice(b"\n")?;
    Ok(())
}

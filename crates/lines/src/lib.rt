// The lines of a report: one for each pair, and one with the totals, written into a buffer.
#![tactic(auto)]

mod line;
mod lines;

pub use lines::{write_line, write_totals};

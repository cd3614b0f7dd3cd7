// The site sheet: a site as plain text, a declaration a line.
#![tactic(auto)]

mod lines;
mod names;

pub use lines::sheet;

// The day: sets of days of the week, as a kind of condition.
#![tactic(auto)]

mod day;

pub use day::Day;

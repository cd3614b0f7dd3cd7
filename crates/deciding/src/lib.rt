// What rules decide where several have something to say: the smallest rank number counts.
#![tactic(auto)]

mod settling;

pub use settling::{Decision, settle};

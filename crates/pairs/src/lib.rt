// The pairs of rules that contradict each other: where two rules do, which gives way, and the list of all pairs.
#![tactic(auto)]

mod answers;
mod clashing;
mod disagreement;
mod listing;
mod places;
mod walking;

pub use answers::{Entry, Mark, Totals};
pub use disagreement::said;
pub use listing::list_pairs;
pub use places::{Spot, check_place};

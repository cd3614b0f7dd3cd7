// The pile: the checker's own kinds side by side, as one kind of condition.
#![tactic(auto)]

mod pile;

pub use pile::{Pile, open_pile};

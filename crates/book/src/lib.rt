// A book of rules over a sealed site, for any kind of condition: which rules stand, which of them contradict each
// other, and what they decide.
#![tactic(auto)]

mod book;
mod routing;

pub use book::Book;
pub use deciding::Decision;
pub use lines::write_totals;
pub use pairs::{Entry, Mark, Totals};

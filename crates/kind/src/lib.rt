// Kinds of condition: what a kind is, two kinds side by side, and what kinds read and write with.
#![tactic(auto)]

mod both;
mod comparison;
mod conditions;
mod decimal;
mod printable;

pub use both::{Both, pair};
pub use comparison::{Claim, Declined, Sign};
pub use conditions::{Kind, meets};
pub use decimal::number_of;
pub use printable::{Printable, put, within};

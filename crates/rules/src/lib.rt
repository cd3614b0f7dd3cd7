// Rules: their text read section by section, and what each says of a traffic class.
#![tactic(auto)]

mod rule;
mod verdict;

pub use rule::{Rule, read_rule};
pub use sections::{Action, Target};
pub use verdict::Saying;
pub use words::more;

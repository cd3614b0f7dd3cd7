// The words of a rule's text: where they stand, which they are, and whether more come.
#![tactic(auto)]

mod blanks;
mod signs;
mod words;

pub use blanks::more;
pub use signs::Sign;
pub use words::{Due, Found, Word, word_from};

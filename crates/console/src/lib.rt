// What the desk programs read, and what they write in place of an answer.
#![tactic(auto)]

mod answers;
mod line;
mod reading;

pub use answers::{NoAnswer, write_answer};
pub use reading::read_whole;

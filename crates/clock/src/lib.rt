// The clock: windows of seconds of the day, as a kind of condition.
#![tactic(auto)]

mod clock;
mod times;

pub use clock::Clock;
pub use times::second_of;

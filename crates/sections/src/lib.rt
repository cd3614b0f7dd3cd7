// The sections of a rule's text, read one by one: its head, paths, target, conditions and action.
#![tactic(auto)]

mod action;
mod conditions;
mod head;
mod routes;
mod section;
mod targets;

pub use action::{Action, Closing, read_action};
pub use conditions::read_conditions;
pub use head::{Head, read_head};
pub use routes::read_paths;
pub use targets::{Target, read_target};

// A site: its nodes, links, traffic classes and users, read from the bytes of a map.
#![tactic(auto)]

mod draft;
mod fields;
mod parts;
mod reader;
mod refusals;
mod sealed;
mod tags;
mod users;

pub use draft::Draft;
pub use parts::{Link, Reading};
pub use refusals::{Cause, Layer, Refusal};
pub use sealed::Site;
pub use users::User;

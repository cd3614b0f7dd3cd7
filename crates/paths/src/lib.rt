// Patterns of paths over a site, and the ports that their paths touch.
#![tactic(auto)]

mod fault;
mod finding;
mod live;
mod node;
mod own;
mod pattern;
mod ports;
mod roads;
mod route;
mod routing;
mod searching;
mod tally;
mod trail;
mod uniting;
mod walking;

pub use finding::{Fault, search};
pub use own::own_path;
pub use pattern::{Item, Pattern};
pub use ports::{Port, PortSet};
pub use route::{Patterned, Route};
pub use uniting::touched;

// Lists of fixed capacity, names, and tables of names: what the checker keeps, without a heap.
#![tactic(auto)]

mod bounded;
mod naming;
mod roster;

pub use bounded::{Full, Table};
pub use naming::{Name, is_name, is_name_byte, name_run};
pub use roster::{NameFault, NameTable, Named, Roster};

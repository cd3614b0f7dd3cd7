// The address: sets of addresses by blocks, as a kind of condition.
#![tactic(auto)]

mod address;
mod block;
mod choice;
mod entry;
mod label;

pub use address::Address;

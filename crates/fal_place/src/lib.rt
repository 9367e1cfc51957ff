//! Placement: the hash of names, and the table of exceptions to it.
#![tactic(auto)]

mod hash;
mod rules;
mod starts;
mod table;

pub use hash::name_hash;
pub use table::{Table, WithFault};

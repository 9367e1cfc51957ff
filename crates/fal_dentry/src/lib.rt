//! A node's replica of directory entries, and the walk of a path over it.
#![tactic(auto)]

mod last;
mod replica;
mod walk;

pub use last::last_key;
pub use replica::Replica;
pub use walk::Walk;

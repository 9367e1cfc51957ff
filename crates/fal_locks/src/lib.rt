//! The locks of a node on keys: batches share them, and an operation of the coordinator shuts them.
#![tactic(auto)]

mod holder;
mod holders;
mod keys;
mod locks;

pub use holder::{Holder, Shut};
pub use locks::{Busy, Locks};

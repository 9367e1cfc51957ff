//! Rows of a name that is placed: by their parents, and each to its owner.
#![tactic(auto)]

mod moving;

pub use moving::{ordered, split};

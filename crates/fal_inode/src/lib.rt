//! The rows of a node: a finite map from keys to inodes, with its listings.
#![tactic(auto)]

mod rows;

pub use rows::Rows;

//! A node's answers to the questions of other actors, as messages, by its rows.
#![tactic(auto)]

mod fetch;
mod listing;
mod operation;

pub use fetch::fetched;
pub use listing::part;
pub use operation::{blocked, counted, locked, mine};

//! A small book of pairs, on which the book lock is tried: each actor counts 0, 1, 2 and so on, and hears what the others count.
#![tactic(auto)]

mod actors;
mod heard;
mod pair;
mod pairs;
#[cfg(test)]
mod tests;

pub use actors::{count, count_all, enter_next};
pub use heard::Heard;
pub use pair::Pair;
pub use pairs::Pairs;

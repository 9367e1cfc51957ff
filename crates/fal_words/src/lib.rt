//! The words of the command line: `MODE [--batch N] [--seed N] [--size N] [--chaos] [--verify]`, and what they ask for.
//!
//! The whole grammar is read. What is not served yet is refused as other words are.
#![tactic(auto)]

mod asked;
mod chosen;
mod fault;

pub use asked::{Asked, Mode, read_words};
pub use fault::WordsFault;

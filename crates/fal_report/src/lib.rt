//! The text that the program writes: the transcript of a run, its tree, and the summary.
//!
//! A text is built in one buffer. Each `put` function appends one piece, whose definition stands in `specs/`, or tells want of memory.
#![tactic(auto)]

mod bytes;
mod calls;
mod counts;
mod entries;
mod inodes;
mod rows;
mod text;

pub use calls::put_call;
pub use counts::put_count;
pub use text::{summary_of, text_of};

//! One call on one row: what a node answers that has the row of the call's last key, and what becomes of that row.
//!
//! The walk is done before: a node keeps the directory of the last name as a dentry. No call here takes memory.
#![tactic(auto)]

mod call;
mod outcome;

pub use call::exec;
pub use outcome::{Change, ExecOut};

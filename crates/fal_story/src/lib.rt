//! The legal runs of a cluster: what events may follow one another, what they record, and what holds after each of them.
#![tactic(auto)]

mod book;
mod chronicle;
mod cluster;
mod inbox;
mod post;
mod pushing;
mod sending;
mod told;

pub use book::Book;
pub use cluster::{calls_in_range_may_run, may_run};
pub use inbox::{Arrived, Inbox};
pub use pushing::{pushes_are_legal, pushes_last};
pub use sending::{answered_lanes_send, sends_are_recorded};
pub use told::Run;

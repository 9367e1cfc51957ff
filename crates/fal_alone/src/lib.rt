//! A cluster in one value: a book with all its actors, each equal to the replay of its own events. No threads.
#![tactic(auto)]

mod cluster;
mod drain;
mod follow;
mod fresh;
mod law;
mod lines;
mod opening;
mod queue;
mod queues;
mod quiet;
mod role;
mod turn;

pub use cluster::Cluster;
pub use law::quiet_is_tree;
pub use role::Role;

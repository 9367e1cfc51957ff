//! A cluster's events, entered by its actors through the lock of a book. It is a trial of the lock; `fal_scenarios` tests it.
#![tactic(auto)]

mod client_post;
mod coord_post;
mod heard;
mod looking;
mod node_post;
mod posts;
mod runs;

pub use client_post::ClientPost;
pub use coord_post::CoordPost;
pub use node_post::NodePost;
pub use posts::{Posts, post_all, seats_of, take};
pub use runs::{enter_all, open};

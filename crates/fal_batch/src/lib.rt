//! What a node does with the calls that wait at it: which leave, which wait on a fetch, and which make up the next batch.
#![tactic(auto)]

mod add;
mod ending;
mod fate;
mod idle;
mod keys;
mod names;
mod parts;
mod planning;

pub use idle::is_plan_idle;
pub use parts::{Away, Plan, Planned, Sending, Wanted};
pub use planning::plan;

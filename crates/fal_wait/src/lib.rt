//! The calls that wait at a node, the fetches that they wait on, and the test that takes each call of a client once.
#![tactic(auto)]

mod admit;
mod law;
mod pending_fetch;
mod waiting;
mod waiting_call;

pub use admit::Admit;
pub use law::fetches_settle_as_opened;
pub use pending_fetch::{Fetch, PendingFetch};
pub use waiting::Waiting;
pub use waiting_call::WaitingCall;

#[cfg(test)]
mod tests;

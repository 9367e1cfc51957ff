//! The plain tree: one sorted map, which answers and changes as the definitions of the service say.
//!
//! It is slow and simple on purpose. Everything faster is measured against it.
#![tactic(auto)]

mod answers;
mod commit;
mod fault;
mod plain;
mod reply;
mod walk;

pub use fault::ApplyFault;
pub use plain::PlainTree;

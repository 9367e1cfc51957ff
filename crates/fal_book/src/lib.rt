//! A lock round a list of entries that several actors write on several threads.
//!
//! The lock is a ticket lock over one table of two words and one slot. What each actor's seat has seen is a beginning of the one list, and what it has entered stands there once.
//! docs/BOOK-LOCK.md draws the lock and says what is proved.
#![tactic(auto)]

mod chronicle;
mod lock;
mod moves;
mod opening;
mod plays;
mod rule;
mod view;

pub use chronicle::Chronicle;
pub use lock::{ActorSeat, BookLock, EnterFault};
pub use rule::BookRule;
pub use view::{Ended, Known, Opening, View};

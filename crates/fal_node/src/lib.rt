//! A metadata node: its state, and the steps that it takes.
//!
//! `ready` makes what a step needs, records and room, and changes nothing else; `apply` then makes the step, without memory.
#![tactic(auto)]

mod apply;
mod batch;
mod block;
mod blocking;
mod deliver;
mod draft;
mod due;
mod event;
mod exec;
mod gather;
mod install;
mod item;
mod law;
mod list;
mod lock;
mod node;
mod operation;
mod patch;
mod ready;
mod room;
mod serve;
mod settle;
mod shut;

pub use batch::Batch;
pub use blocking::Blocking;
pub use draft::Draft;
pub use event::{NodeEvent, OwnEvent};
pub use item::Item;
pub use law::records_are_read;
pub use node::Node;
pub use patch::{Patch, Prepared};

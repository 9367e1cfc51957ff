//! A lane's client: it sends its calls one after another, and hears what nodes and the coordinator answer.
#![tactic(auto)]

mod asks;
mod client;
mod current;
mod event;
mod hear;
mod law;
mod list;
mod news;
mod parts;
mod patch;
mod paths;
mod send;

pub use client::Client;
pub use event::ClientEvent;
pub use law::records_are_read;
pub use patch::Prepared;

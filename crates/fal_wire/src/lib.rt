//! The records that actors send each other, as messages and as bytes.
#![tactic(auto)]

mod answer;
mod decoding;
mod encoding;
mod fault;
mod law;
mod letter;
mod list;
mod message;
mod name;
mod number;
mod op;
mod reader;
mod row;
mod writer;

pub use decoding::decode;
pub use encoding::encode;
use fal_base::{Items, Key, NamedRow, RuleChange, Update};
pub use fault::WireFault;
pub use law::spelling_laws;
pub use letter::{Letter, spelled, spelled_call};
pub use message::{Found, Message};

/// Keys, as a lock names them.
pub type KeyList = Items<Key>;

/// Rules that were set, by version.
pub type ChangeList = Items<RuleChange>;

/// What is to stand under keys.
pub type UpdateList = Items<Update>;

/// The rows of one name.
pub type NamedRowList = Items<NamedRow>;

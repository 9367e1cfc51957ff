//! The words of the service: names, paths, calls, replies, events and entries, and the definitions that every promise rests on.
//!
//! Events, envelopes, rules and marks are words that the actors of a cluster share. The definitions in `specs/` know one tree and lists of entries
//! alone: no message, node, batch or lock stands in them.
#![tactic(auto)]

mod barred;
mod call;
mod entry;
mod event;
mod inode;
mod items;
mod key;
mod key_map;
mod law;
mod mark;
mod marks;
mod memory;
mod name;
mod op;
mod path;
mod permission;
mod refuse;
mod reply;
mod row;
mod rule;

pub use barred::Barred;
pub use call::{Call, CallId, CallRec, Config, Cred};
pub use entry::Entry;
pub use event::{Actor, Envelope, Event, Note, Output, Outputs, Point};
pub use inode::{Dentry, Inode, Kind};
pub use items::Items;
pub use key::Key;
pub use key_map::KeyMap;
pub use law::trees_are_well_formed;
pub use mark::Mark;
pub use marks::{last_mark, put_mark};
pub use memory::{Duplicate, OutOfMemory};
pub use name::{Name, NameFault};
pub use op::Op;
pub use path::{Path, PathArg, PathFault};
pub use permission::may;
pub use refuse::Refuse;
pub use reply::{Errno, Reply};
pub use row::{NamedRow, TreeLine, Update};
pub use rule::{Rule, RuleChange};

/// Bytes as they were given.
pub type Bytes = Items<u8>;

/// Names, as a listing gives them.
pub type NameList = Items<Name>;

/// The calls of one lane, in their order.
pub type CallList = Items<Call>;

/// The calls of each lane, lane 1 first.
pub type LaneList = Items<CallList>;

/// Records on their way to actors.
pub type OutputList = Items<Output>;

/// What an event adds to the transcript, its points not yet resolved.
pub type NoteList = Items<Note>;

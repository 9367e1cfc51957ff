use fal_base::{CallRec, Dentry, Items, Key, NamedRow, Update};

/// Where the walk of a path has ended: at the directory of the last name, None for the root path alone, past the directories with these
/// numbers.
#[derive(Debug, Drop)]
pub struct PathWalk {
    pub parent: Option<Dentry>,
    pub inos: Items<u64>,
}

/// An operation whose paths are walked: its call, the keys that it shuts, and where each path has ended.
#[derive(Debug, Drop)]
pub struct Operation {
    pub call: CallRec,
    pub keys: Items<Key>,
    pub walks: Items<PathWalk>,
}

/// What the coordinator is at.
#[derive(Debug, Drop)]
pub enum Stage {
    /// No operation is under way.
    Idle,
    /// The call's walk waits for the directory under the key, by the fetch of this number.
    Walk {
        call: CallRec,
        number: u64,
        key: Key,
    },
    /// Keys are being shut: the nodes that have not answered, and what the others have told of their rows.
    Lock {
        operation: Operation,
        missing: Items<u8>,
        rows: Items<Update>,
    },
    /// The entries of a directory are being counted, and where it has none these are the updates: the nodes that have not answered, and what
    /// the others have counted.
    Count {
        operation: Operation,
        rows: Items<Update>,
        dir: u64,
        updates: Items<Update>,
        missing: Items<u8>,
        counts: Items<u64>,
    },
    /// The operation is decided, by these updates: the nodes that may still have its keys shut.
    Finish {
        keys: Items<Key>,
        updates: Items<Update>,
        missing: Items<u8>,
    },
    /// The call places a name, and nodes give their rows of it away: those that have not answered, and the rows that the others have given.
    Block {
        call: CallRec,
        missing: Items<u8>,
        rows: Items<NamedRow>,
    },
    /// The name is placed: the nodes that may not have taken their rows yet.
    Install {
        call: CallRec,
        missing: Items<u8>,
    },
}

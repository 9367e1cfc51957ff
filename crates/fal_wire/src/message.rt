use crate::{ChangeList, KeyList, NamedRowList, UpdateList};
use fal_base::{CallId, CallRec, Dentry, Key, Name, NameList, Reply, Rule};

/// What stands under a key that a directory was looked up by.
#[derive(Debug, Drop)]
pub enum Found {
    Nothing,
    File,
    Dir(Dentry),
}

/// What actors send each other, one form for each kind of record. `op` is an operation of the coordinator, `node` who answers it.
#[derive(Debug, Drop)]
pub enum Message {
    /// A call on its way.
    Call(CallRec),
    /// The answer to a call. It is never a list of names: those come in parts.
    Reply {
        id: CallId,
        reply: Reply,
    },
    /// The caller's table is older: the rules that were set since its version.
    Stale {
        id: CallId,
        old: u32,
        new: u32,
        changes: ChangeList,
    },
    /// A listing may begin: the directory's number.
    Opened {
        id: CallId,
        dir: u64,
    },
    /// Asks a node for its part of a listing.
    ListAsk {
        id: CallId,
        version: u32,
        dir: u64,
    },
    /// A node's names under the directory, ascending by bytes.
    ListPart {
        id: CallId,
        node: u8,
        names: NameList,
    },
    /// Asks for the directory under a key. `asker` is a node, or 255, the coordinator.
    FetchAsk {
        asker: u8,
        number: u64,
        key: Key,
    },
    /// What stands under that key.
    FetchGot {
        number: u64,
        key: Key,
        found: Found,
    },
    /// Asks every node to shut these keys.
    Lock {
        op: u32,
        keys: KeyList,
    },
    /// The keys are shut; the rows under those that the node owns.
    Locked {
        op: u32,
        node: u8,
        rows: UpdateList,
    },
    /// Asks how many rows stand under a directory.
    Count {
        op: u32,
        dir: u64,
    },
    /// How many there are at this node.
    Counted {
        op: u32,
        node: u8,
        number: u64,
    },
    /// The changes under the shut keys, which then are open again.
    Commit {
        op: u32,
        updates: UpdateList,
    },
    /// The changes are made.
    Done {
        op: u32,
        node: u8,
    },
    /// Asks every node for the rows of a name, to be moved.
    Block {
        op: u32,
        name: Name,
    },
    /// The node's rows of that name, by ascending parents.
    Blocked {
        op: u32,
        node: u8,
        rows: NamedRowList,
    },
    /// The name's new rule, and the rows that the receiver owns by it.
    Install {
        op: u32,
        version: u32,
        rule: Rule,
        rows: NamedRowList,
    },
    /// The rule and the rows are taken.
    Installed {
        op: u32,
        node: u8,
    },
}

use fal_base::{Dentry, Items, Key};

/// A call that leaves the node: it is passed on to a node, or, where `to` is None, its client is told that it has an old placement table.
#[derive(Clone, Copy, Debug, PartialEq, Eq)]
pub struct Away {
    pub ticket: u64,
    pub to: Option<u8>,
}

/// A fetch that is to be opened: its key, and the tickets of the calls that wait on it, in the order of arrival.
#[derive(Debug, Drop)]
pub struct Wanted {
    pub key: Key,
    pub waiters: Items<u64>,
}

/// A call of the batch. One that is denied search on its way has no parent, and the root's key fills the place of its last key. Another
/// one has the directory of its last name, if it has a name, and the key that it is about.
#[derive(Debug, Drop)]
pub struct Planned {
    pub ticket: u64,
    pub denied: bool,
    pub parent: Option<Dentry>,
    pub last: Key,
}

/// A record that is to be sent: of a call that leaves, or of a fetch of this key.
#[derive(Debug, Drop)]
pub enum Sending {
    Away(Away),
    Fetch(Key),
}

/// What is to be done with the free calls, each list in the order in which the calls were met.
///
/// `sends` has the calls of `away` and the keys of `fetches` in one row, each fetch at its first call. `keys` are the keys that the
/// batch is to hold, each once, in the order of their first use.
#[derive(Debug, Drop)]
pub struct Plan {
    pub away: Vec<Away>,
    pub fetches: Vec<Wanted>,
    pub sends: Vec<Sending>,
    pub calls: Vec<Planned>,
    pub keys: Vec<Key>,
}

use fal_base::{Inode, Reply};

/// What becomes of the row under a call's last key: it stays, this row is put there, or it goes.
#[derive(Clone, Copy, Debug, PartialEq, Eq)]
pub enum Change {
    Keep,
    Put(Inode),
    Remove,
}

/// What comes of a call: its answer and what becomes of the row, a listing of the directory with this number, or that it is for the
/// coordinator, since every replica may hold what it changes.
#[derive(Debug, Drop, PartialEq)]
pub enum ExecOut {
    Finish { reply: Reply, change: Change },
    Opened(u64),
    PassOn,
}

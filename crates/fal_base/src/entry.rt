use crate::memory::{Duplicate, OutOfMemory};
use crate::reply::Reply;

/// What a run records of a call. A point k means: after the first k commits.
#[derive(Debug, Drop, PartialEq)]
pub enum Entry {
    /// The lane's client sends the call.
    Sent {
        lane: u8,
        seq: u32,
    },
    /// The call changes the tree; a new row has the number `ino`, and any other commit has 0.
    Commit {
        lane: u8,
        seq: u32,
        ino: u64,
    },
    /// A listing of the directory with the number `ino` begins, as the tree stands at the point.
    Opened {
        lane: u8,
        seq: u32,
        ino: u64,
        point: u64,
    },
    /// The call gives a name its rule, and the placement table has this version.
    Placed {
        lane: u8,
        seq: u32,
        version: u32,
    },
    /// The client learns that its placement table was older: from version `old` to version `new`.
    Stale {
        lane: u8,
        seq: u32,
        old: u32,
        new: u32,
    },
    /// The call is answered: the reply is what the tree answers at the point.
    Answered {
        lane: u8,
        seq: u32,
        point: u64,
        reply: Reply,
    },
}

impl Duplicate for Entry {
    fn copy(&self) -> Result<Self, OutOfMemory> {
        match self {
            Entry::Sent { lane, seq } => Ok(Entry::Sent {
                lane: *lane,
                seq: *seq,
            }),
            Entry::Commit { lane, seq, ino } => Ok(Entry::Commit {
                lane: *lane,
                seq: *seq,
                ino: *ino,
            }),
            Entry::Opened {
                lane,
                seq,
                ino,
                point,
            } => Ok(Entry::Opened {
                lane: *lane,
                seq: *seq,
                ino: *ino,
                point: *point,
            }),
            Entry::Placed { lane, seq, version } => Ok(Entry::Placed {
                lane: *lane,
                seq: *seq,
                version: *version,
            }),
            Entry::Stale {
                lane,
                seq,
                old,
                new,
            } => Ok(Entry::Stale {
                lane: *lane,
                seq: *seq,
                old: *old,
                new: *new,
            }),
            Entry::Answered {
                lane,
                seq,
                point,
                reply,
            } => Ok(Entry::Answered {
                lane: *lane,
                seq: *seq,
                point: *point,
                reply: reply.copy()?,
            }),
        }
    }
}

use crate::memory::{Duplicate, OutOfMemory};
use crate::reply::Reply;
use crate::{Bytes, NoteList, OutputList};

/// Who takes steps: a client's lane from 1, a node from 0, or the coordinator.
#[derive(Clone, Copy, Debug, PartialEq, Eq)]
pub enum Actor {
    /// The client of a lane, by the lane's number from 1.
    Client(u8),
    /// A node, by its number from 0.
    Node(u8),
    /// The coordinator.
    Coord,
}

/// A record that was sent: by which event, at which point of the commits, and its bytes.
#[derive(Debug, Drop)]
pub struct Envelope {
    pub from: Actor,
    pub to: Actor,
    /// The number of the event that sent it, from 0.
    pub sent_at: u64,
    /// After how many commits what it tells is true. Actors copy it and decide nothing by it.
    pub point: u64,
    /// The record's spelling.
    pub bytes: Bytes,
}

/// One step of one actor. `env` is an envelope's number, from 0 in the order of sending.
#[derive(Clone, Copy, Debug, PartialEq, Eq)]
pub enum Event {
    /// A lane's client sends its next call.
    Send { lane: u8 },
    /// An envelope comes to a lane's client.
    Get { lane: u8, env: u64 },
    /// An envelope comes to a node.
    Deliver { node: u8, env: u64 },
    /// A node makes a batch of the calls that wait there.
    Gather { node: u8 },
    /// A node executes a batch.
    Exec { node: u8, batch: u64 },
    /// A node gives up the keys that a batch held.
    Release { node: u8, batch: u64 },
    /// A node serves a record that it kept.
    Serve { node: u8, item: u64 },
    /// An envelope comes to the coordinator.
    Hear { env: u64 },
    /// The coordinator begins its next operation.
    Start,
}

/// A point of the commits, as an actor knows it: so many commits of its own event after those before the event, or a point that came with a record.
#[derive(Clone, Copy, Debug, PartialEq, Eq)]
pub enum Point {
    /// The commits before the event, and so many of the event's own.
    Here(u32),
    /// A point that a record told.
    Carried(u64),
}

/// A record that an event makes.
#[derive(Debug, Drop)]
pub struct Output {
    pub to: Actor,
    pub point: Point,
    pub bytes: Bytes,
}

/// What an event adds to the transcript.
#[derive(Debug, Drop)]
pub enum Note {
    /// The lane's client sends the call.
    Sent {
        lane: u8,
        seq: u32,
    },
    /// The call changes the tree; a new row has the number `ino`, and any other commit has 0.
    Commit {
        lane: u8,
        seq: u32,
        ino: u64,
    },
    /// A listing of the directory with the number `ino` begins, as the tree stands at the point.
    Opened {
        lane: u8,
        seq: u32,
        ino: u64,
        point: Point,
    },
    /// The call gives a name its rule, and the placement table has this version.
    Placed {
        lane: u8,
        seq: u32,
        version: u32,
    },
    /// The client learns that its placement table was older: from version `old` to version `new`.
    Stale {
        lane: u8,
        seq: u32,
        old: u32,
        new: u32,
    },
    /// The call is answered: the reply is what the tree answers at the point.
    Answered {
        lane: u8,
        seq: u32,
        point: Point,
        reply: Reply,
    },
}

/// All that an event makes.
#[derive(Debug, Drop)]
pub struct Outputs {
    pub sent: OutputList,
    pub notes: NoteList,
}

impl Duplicate for Envelope {
    fn copy(&self) -> Result<Self, OutOfMemory> {
        Ok(Envelope {
            from: self.from,
            to: self.to,
            sent_at: self.sent_at,
            point: self.point,
            bytes: self.bytes.copy()?,
        })
    }
}

impl Duplicate for Output {
    fn copy(&self) -> Result<Self, OutOfMemory> {
        Ok(Output {
            to: self.to,
            point: self.point,
            bytes: self.bytes.copy()?,
        })
    }
}

impl Duplicate for Note {
    fn copy(&self) -> Result<Self, OutOfMemory> {
        match self {
            Note::Sent { lane, seq } => Ok(Note::Sent {
                lane: *lane,
                seq: *seq,
            }),
            Note::Commit { lane, seq, ino } => Ok(Note::Commit {
                lane: *lane,
                seq: *seq,
                ino: *ino,
            }),
            Note::Opened {
                lane,
                seq,
                ino,
                point,
            } => Ok(Note::Opened {
                lane: *lane,
                seq: *seq,
                ino: *ino,
                point: *point,
            }),
            Note::Placed { lane, seq, version } => Ok(Note::Placed {
                lane: *lane,
                seq: *seq,
                version: *version,
            }),
            Note::Stale {
                lane,
                seq,
                old,
                new,
            } => Ok(Note::Stale {
                lane: *lane,
                seq: *seq,
                old: *old,
                new: *new,
            }),
            Note::Answered {
                lane,
                seq,
                point,
                reply,
            } => Ok(Note::Answered {
                lane: *lane,
                seq: *seq,
                point: *point,
                reply: reply.copy()?,
            }),
        }
    }
}

impl Duplicate for Outputs {
    fn copy(&self) -> Result<Self, OutOfMemory> {
        Ok(Outputs {
            sent: self.sent.copy()?,
            notes: self.notes.copy()?,
        })
    }
}

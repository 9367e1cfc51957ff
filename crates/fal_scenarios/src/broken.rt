use fal_base::{OutOfMemory, Refuse};
use fal_tree::ApplyFault;
use std::alloc::{AllocError, AllocFailed};

/// Why a line of a scenario does not hold.
#[derive(Debug, Drop)]
pub enum Broken {
    OutOfMemory,
    /// The line is not in the grammar.
    Grammar,
    /// The cluster may not run.
    MayNotRun,
    /// The envelope that the line names was not sent, or came already, or did not come yet.
    NoEnvelope,
    /// The node has no such event due.
    NotDue,
    /// The event may not happen now.
    NotEnabled,
    /// The event may happen, against the line.
    Enabled,
    /// The event changes something, against the line.
    Changes,
    /// The cluster is quiet, against the line.
    Quiet,
    /// The cluster is not quiet, against the line.
    Busy,
    /// The cluster does not come to rest.
    Restless,
    /// Another line stands here.
    Reads(String),
    /// No further line stands here.
    Ends,
    /// So many answers are not those of the plain tree at their points.
    Answers(u32),
    /// The rows are not those of the plain tree.
    Rows,
    /// A commit is none to the plain tree.
    Commit,
    /// Through the lock of a book the events leave another transcript.
    Entered,
}

impl From<OutOfMemory> for Broken {
    fn from(_: OutOfMemory) -> Broken {
        Broken::OutOfMemory
    }
}

impl From<AllocError> for Broken {
    fn from(_: AllocError) -> Broken {
        Broken::OutOfMemory
    }
}

impl<T: Drop> From<AllocFailed<T>> for Broken {
    fn from(_: AllocFailed<T>) -> Broken {
        Broken::OutOfMemory
    }
}

impl From<Refuse> for Broken {
    fn from(refuse: Refuse) -> Broken {
        match refuse {
            Refuse::NotEnabled => Broken::NotEnabled,
            Refuse::OutOfMemory => Broken::OutOfMemory,
        }
    }
}

impl From<ApplyFault> for Broken {
    fn from(fault: ApplyFault) -> Broken {
        match fault {
            ApplyFault::OutOfMemory => Broken::OutOfMemory,
            _ => Broken::Commit,
        }
    }
}

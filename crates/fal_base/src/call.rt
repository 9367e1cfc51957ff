use crate::LaneList;
use crate::memory::{Duplicate, OutOfMemory};
use crate::op::Op;

/// Who calls.
#[derive(Clone, Copy, Debug, PartialEq, Eq)]
pub struct Cred {
    pub uid: u32,
    pub gid: u32,
}

/// Which call a record is about: the lane, the call's number there from 1, the attempt from 1, and how often it was passed on.
#[derive(Clone, Copy, Debug, PartialEq, Eq)]
pub struct CallId {
    pub client: u8,
    pub seq: u32,
    pub attempt: u32,
    pub hop: u32,
}

/// A call on its way, with the version of the placement table that its client had.
#[derive(Debug, Drop)]
pub struct CallRec {
    pub id: CallId,
    pub cred: Cred,
    pub version: u32,
    pub op: Op,
}

/// A call as a script gives it.
#[derive(Debug, Drop)]
pub struct Call {
    pub cred: Cred,
    pub op: Op,
}

/// A cluster: how many nodes it has, how many calls a batch takes at most, and the calls of each lane.
#[derive(Debug, Drop)]
pub struct Config {
    pub nodes: u8,
    pub batch: u8,
    pub lanes: LaneList,
}

impl Duplicate for CallRec {
    fn copy(&self) -> Result<Self, OutOfMemory> {
        Ok(CallRec {
            id: self.id,
            cred: self.cred,
            version: self.version,
            op: self.op.copy()?,
        })
    }
}

impl Duplicate for Call {
    fn copy(&self) -> Result<Self, OutOfMemory> {
        Ok(Call {
            cred: self.cred,
            op: self.op.copy()?,
        })
    }
}

impl Duplicate for Config {
    fn copy(&self) -> Result<Self, OutOfMemory> {
        Ok(Config {
            nodes: self.nodes,
            batch: self.batch,
            lanes: self.lanes.copy()?,
        })
    }
}

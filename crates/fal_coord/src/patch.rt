ghost use Rattle.std.specs.Prelude.{◌≡◌, []};

use crate::stage::PathWalk;
use fal_base::{CallRec, Dentry, Items, Key, NamedRow, NoteList, OutputList, Outputs, Update};
use fal_place::Table;
use std::alloc::Global;

/// How a call goes on whose paths were walked.
#[derive(Debug, Drop)]
pub enum Next {
    /// It is answered, and no operation is under way any more.
    Rest,
    /// It waits for the directory under the key.
    Ask(Key),
    /// Every node is to shut these keys.
    Lock {
        keys: Items<Key>,
        walks: Items<PathWalk>,
        missing: Items<u8>,
    },
    /// Every node is to give its rows of the name away.
    Block(Items<u8>),
}

/// What a step changes in the coordinator. What stays of the stage stays where it is.
#[derive(Debug, Drop)]
pub enum Patch {
    Nothing,
    /// The call waits.
    Take(CallRec),
    /// The first call that waits is the next operation, and goes on so.
    Start(Next),
    /// The directory is learned, and the call whose walk waited goes on so.
    Learn {
        key: Key,
        dentry: Dentry,
        next: Next,
    },
    /// These nodes are still to shut the keys, and these rows are told.
    Lock {
        missing: Items<u8>,
        rows: Items<Update>,
    },
    /// Every node is to count the entries of the directory.
    Count {
        rows: Items<Update>,
        dir: u64,
        updates: Items<Update>,
        missing: Items<u8>,
    },
    /// These nodes are still to count, and these have.
    Counted {
        missing: Items<u8>,
        counts: Items<u64>,
    },
    /// The operation is decided by these updates, and its keys leave the replica.
    Decide {
        updates: Items<Update>,
        missing: Items<u8>,
    },
    /// These nodes may still have the keys shut.
    Finish(Items<u8>),
    /// These nodes are still to give their rows away, and these rows were given.
    Block {
        missing: Items<u8>,
        rows: Items<NamedRow>,
    },
    /// The name is placed by this table, and these nodes are to take their rows.
    Place {
        table: Table,
        missing: Items<u8>,
    },
    /// These nodes may not have taken their rows yet.
    Install(Items<u8>),
    /// No operation is under way any more.
    Rest,
}

/// A step of the coordinator that was made ready, with the records and notes that it makes.
#[derive(Debug, Drop)]
pub struct Prepared {
    pub(crate) alloc: Global,
    pub(crate) patch: Patch,
    pub(crate) outputs: Outputs,
}

impl Prepared {
    /// The records and notes that the step makes. Takes no memory.
    pub fn outputs(&self) -> &Outputs
        ensures { result.now ≡ self.now.outputs }
    {
        &self.outputs
    }

    /// Hands the records and notes over and leaves none; `apply` does not need them. Takes no memory.
    pub fn take_outputs(&mut self) -> Outputs
        ensures outputs { result ≡ self.old.outputs }
        ensures none { self.new ≡ record self.old { outputs = record { sent = []; notes = [] } } }
    {
        let none = Outputs {
            sent: OutputList::new(self.alloc),
            notes: NoteList::new(self.alloc),
        };
        std::mem::replace(&mut self.outputs, none)
    }
}

ghost use Rattle.std.specs.Prelude.{◌≡◌, []};

use fal_base::{CallRec, Dentry, Items, Key, Name, NoteList, OutputList, Outputs, Update};
use fal_batch::Wanted;
use fal_place::Table;
use fal_run::{BatchCall, RowChange};
use fal_wire::Message;
use std::alloc::Global;
use std::mem;

/// What a step changes in a node.
#[derive(Debug, Drop)]
pub enum Patch {
    Nothing,
    Admit(CallRec),
    /// A record is kept, to be served later, and this is the last operation that was taken.
    Keep {
        operation: u32,
        message: Message,
    },
    /// The fetch is settled, and the directory is learned.
    Learn {
        fetch: u64,
        key: Key,
        dentry: Dentry,
    },
    /// The fetch is settled, and the calls with these tickets are dismissed.
    Dismiss {
        fetch: u64,
        tickets: Vec<u64>,
    },
    /// Fetches are opened, calls with these tickets leave, and a batch of calls holds keys.
    Gather {
        fetches: Vec<Wanted>,
        tickets: Vec<u64>,
        calls: Items<BatchCall>,
        keys: Vec<Key>,
    },
    /// A batch is executed: rows change, and so many numbers are drawn.
    Execute {
        batch: u64,
        changes: Vec<RowChange>,
        drawn: u64,
    },
    Release(u64),
    Serve(u64),
    /// An operation shuts keys, and the item is served.
    Shut {
        item: u64,
        operation: u32,
        keys: Vec<Key>,
    },
    /// Updates are laid on the rows, and the operation's keys are opened.
    Reopen {
        operation: u32,
        updates: Vec<Update>,
    },
    /// The rows of the name leave, the operation has it blocked, and the item is served.
    Block {
        item: u64,
        operation: u32,
        name: Name,
    },
    /// The node has this table, updates are laid on its rows, and nothing is blocked.
    Install {
        table: Table,
        updates: Vec<Update>,
    },
}

/// A step that a node is ready to make, with the records and notes that it makes.
#[derive(Debug, Drop)]
pub struct Prepared {
    pub(crate) alloc: Global,
    pub(crate) patch: Patch,
    pub(crate) outputs: Outputs,
}

impl Prepared {
    /// The records and notes that the step makes.
    pub fn outputs(&self) -> &Outputs
        ensures { result.now ≡ self.now.outputs }
    {
        &self.outputs
    }

    /// Hands the records and notes over, and leaves none. Takes no memory; `apply` does not need them.
    pub fn take_outputs(&mut self) -> Outputs
        ensures outputs { result ≡ self.old.outputs }
        ensures patch { self.new.patch ≡ self.old.patch }
        ensures sent { self.new.outputs.sent ≡ [] }
        ensures notes { self.new.outputs.notes ≡ [] }
    {
        let none = Outputs {
            sent: OutputList::new(self.alloc),
            notes: NoteList::new(self.alloc),
        };
        mem::replace(&mut self.outputs, none)
    }
}

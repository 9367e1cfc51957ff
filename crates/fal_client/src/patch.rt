ghost use Rattle.std.specs.Prelude.{◌≡◌, []};

use crate::current::Listing;
use crate::parts::{Part, Parts};
use fal_base::{NoteList, OutputList, Outputs};
use fal_place::Table;
use std::alloc::Global;
use std::mem;

/// What a step changes in a client.
#[derive(Debug, Drop)]
pub enum Patch {
    /// It stays.
    Keep,
    /// The next call has this number and is the current one.
    Start {
        seq: u32,
    },
    /// The next call has this number and is done.
    Skip {
        seq: u32,
    },
    /// The current call is done.
    Finish,
    /// A later table, and the next attempt. A listing begins anew, with these parts.
    Retry {
        attempt: u32,
        table: Table,
        parts: Parts,
    },
    /// The listing is under way.
    Open {
        listing: Listing,
    },
    /// A node's part of the listing is there.
    Join {
        node: u8,
        part: Part,
    },
}

/// A step that a client is ready to make, with the records and notes that it makes.
#[derive(Debug, Drop)]
pub struct Prepared {
    alloc: Global,
    pub(crate) patch: Patch,
    pub(crate) outputs: Outputs,
}

impl Prepared {
    // A step of these parts.
    pub(crate) fn new(alloc: Global, patch: Patch, sent: OutputList, notes: NoteList) -> Prepared
        ensures patch { result.patch ≡ patch }
        ensures sent { result.outputs.sent ≡ sent }
        ensures notes { result.outputs.notes ≡ notes }
    {
        Prepared {
            alloc,
            patch,
            outputs: Outputs { sent, notes },
        }
    }

    // What changes. The outputs are let go.
    pub(crate) fn into_patch(self) -> Patch
        ensures { result ≡ self.patch }
    {
        let Prepared {
            alloc: _,
            patch,
            outputs: _,
        } = self;
        patch
    }

    /// The records and notes that the step makes. Takes no memory.
    pub fn outputs(&self) -> &Outputs
        ensures { result.now ≡ self.now.outputs }
    {
        &self.outputs
    }

    /// Hands the records and notes over, and leaves none. Takes no memory; `apply` does not need them.
    pub fn take_outputs(&mut self) -> Outputs
        ensures outputs { result ≡ self.old.outputs }
        ensures patch { self.new.patch ≡ self.old.patch }
        ensures sent { self.new.outputs.sent ≡ [] }
        ensures notes { self.new.outputs.notes ≡ [] }
    {
        let none = Outputs {
            sent: OutputList::new(self.alloc),
            notes: NoteList::new(self.alloc),
        };
        mem::replace(&mut self.outputs, none)
    }
}

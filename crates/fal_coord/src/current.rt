//! What the coordinator is at, as one value that changes in place.

ghost use Rattle.std.specs.Prelude.{◌≡◌, ◌+◌, []};
ghost use Rattle.fal_coord.specs.Patch.{walked_call, operation_at as operation_of, locked_stage as locked_stage_of, counting_stage as counting_stage_of, decided_stage as decided_stage_of, counted_stage as counted_stage_of, finished_stage as finished_stage_of, placing_call as placing_call_of, blocked_stage as blocked_stage_of, installed_stage as installed_stage_of};
ghost use Rattle.fal_coord.specs.declared.stage.Stage.TheVariants as stage;

use crate::stage::{Operation, Stage};
use fal_base::{CallRec, Items, Key, NamedRow, Update};
use std::alloc::Global;
use std::marker::Model;
use std::mem;

/// What the coordinator is at. What stays of a stage moves into the next one.
#[derive(Debug, Drop)]
pub struct Current {
    stage: Stage,
}

impl Model for Current {
    ghost use Rattle.fal_coord.specs.declared.stage.Stage.{Stage as StageSeen};

    ghost Value = { StageSeen };

    ghost view = { λ c. c.stage };
}

// Lets the call go.
pub(crate) fn discard_call(call: CallRec) {
    let _call = call;
}

// Lets the operation go.
fn discard_operation(operation: Operation) {
    let Operation {
        call,
        keys: _keys,
        walks: _walks,
    } = operation;
    discard_call(call);
}

// Lets the stage go.
fn discard_stage(stage: Stage) {
    match stage {
        Stage::Idle => {}
        Stage::Walk {
            call,
            number: _,
            key: _key,
        } => discard_call(call),
        Stage::Lock {
            operation,
            missing: _missing,
            rows: _rows,
        } => discard_operation(operation),
        Stage::Count {
            operation,
            rows: _rows,
            dir: _,
            updates: _updates,
            missing: _missing,
            counts: _counts,
        } => discard_operation(operation),
        Stage::Finish {
            keys: _keys,
            updates: _updates,
            missing: _missing,
        } => {}
        Stage::Block {
            call,
            missing: _missing,
            rows: _rows,
        } => discard_call(call),
        Stage::Install {
            call,
            missing: _missing,
        } => discard_call(call),
    }
}

// The call whose walk waits in the stage.
#[tactic(auto, unfolding(crate::specs::Patch::walked_call))]
fn walked_call_of(stage: Stage) -> Option<CallRec>
    ensures { result ≡ walked_call stage }
{
    match stage {
        Stage::Walk {
            call,
            number: _,
            key: _key,
        } => Some(call),
        other => {
            discard_stage(other);
            None
        }
    }
}

// The operation whose nodes are asked in the stage.
#[tactic(auto, unfolding(crate::specs::Patch::operation_at))]
fn operation_at(stage: Stage) -> Option<Operation>
    ensures { result ≡ operation_of stage }
{
    match stage {
        Stage::Lock {
            operation,
            missing: _missing,
            rows: _rows,
        } => Some(operation),
        Stage::Count {
            operation,
            rows: _rows,
            dir: _,
            updates: _updates,
            missing: _missing,
            counts: _counts,
        } => Some(operation),
        other => {
            discard_stage(other);
            None
        }
    }
}

// With these nodes still to be heard, and these counts.
#[tactic(auto, unfolding(crate::specs::Patch::counted_stage))]
fn counted_stage(stage: Stage, missing: Items<u8>, counts: Items<u64>) -> Stage
    ensures { result ≡ counted_stage_of missing counts stage }
{
    match stage {
        Stage::Count {
            operation,
            rows,
            dir,
            updates,
            missing: _before,
            counts: _heard,
        } => Stage::Count {
            operation,
            rows,
            dir,
            updates,
            missing,
            counts,
        },
        other => {
            discard_stage(other);
            Stage::Idle
        }
    }
}

// With these nodes still to be heard.
#[tactic(auto, unfolding(crate::specs::Patch::finished_stage))]
fn finished_stage(stage: Stage, missing: Items<u8>) -> Stage
    ensures { result ≡ finished_stage_of missing stage }
{
    match stage {
        Stage::Finish {
            keys,
            updates,
            missing: _before,
        } => Stage::Finish {
            keys,
            updates,
            missing,
        },
        other => {
            discard_stage(other);
            Stage::Idle
        }
    }
}

// With these nodes still to shut the keys, and these rows.
#[tactic(auto, unfolding(crate::specs::Patch::locked_stage))]
fn locked_stage(stage: Stage, missing: Items<u8>, rows: Items<Update>) -> Stage
    ensures { result ≡ locked_stage_of missing rows (operation_of stage) }
{
    match operation_at(stage) {
        None => Stage::Idle,
        Some(operation) => Stage::Lock {
            operation,
            missing,
            rows,
        },
    }
}

// The entries of the directory are to be counted.
#[tactic(auto, unfolding(crate::specs::Patch::counting_stage))]
fn counting_stage(
    alloc: Global,
    stage: Stage,
    rows: Items<Update>,
    dir: u64,
    updates: Items<Update>,
    missing: Items<u8>,
) -> Stage
    ensures { result ≡ counting_stage_of rows dir updates missing (operation_of stage) }
{
    match operation_at(stage) {
        None => Stage::Idle,
        Some(operation) => Stage::Count {
            operation,
            rows,
            dir,
            updates,
            missing,
            counts: Items::new(alloc),
        },
    }
}

// The operation is decided by the updates.
#[tactic(auto, unfolding(crate::specs::Patch::decided_stage))]
fn decided_stage(stage: Stage, updates: Items<Update>, missing: Items<u8>) -> Stage
    ensures { result ≡ decided_stage_of updates missing (operation_of stage) }
{
    match operation_at(stage) {
        None => Stage::Idle,
        Some(operation) => {
            let Operation {
                call: _call,
                keys,
                walks: _walks,
            } = operation;
            Stage::Finish {
                keys,
                updates,
                missing,
            }
        }
    }
}

// The call that places a name in the stage.
#[tactic(auto, unfolding(crate::specs::Patch::placing_call))]
fn placing_call(stage: Stage) -> Option<CallRec>
    ensures { result ≡ placing_call_of stage }
{
    match stage {
        Stage::Block {
            call,
            missing: _missing,
            rows: _rows,
        } => Some(call),
        Stage::Install {
            call,
            missing: _missing,
        } => Some(call),
        other => {
            discard_stage(other);
            None
        }
    }
}

// With these nodes still to give their rows away, and these rows.
#[tactic(auto, unfolding(crate::specs::Patch::blocked_stage))]
fn blocked_stage(stage: Stage, missing: Items<u8>, rows: Items<NamedRow>) -> Stage
    ensures { result ≡ blocked_stage_of missing rows (placing_call_of stage) }
{
    match placing_call(stage) {
        None => Stage::Idle,
        Some(call) => Stage::Block {
            call,
            missing,
            rows,
        },
    }
}

// With these nodes still to take their rows.
#[tactic(auto, unfolding(crate::specs::Patch::installed_stage))]
fn installed_stage(stage: Stage, missing: Items<u8>) -> Stage
    ensures { result ≡ installed_stage_of missing (placing_call_of stage) }
{
    match placing_call(stage) {
        None => Stage::Idle,
        Some(call) => Stage::Install { call, missing },
    }
}

impl Current {
    /// No operation is under way.
    pub fn idle() -> Current
        ensures { result ≡ stage.Idle }
    {
        Current { stage: Stage::Idle }
    }

    /// Lets the stage go.
    pub fn discard(self) {
        let Current { stage } = self;
        discard_stage(stage);
    }

    /// The stage.
    pub fn stage(&self) -> &Stage
        ensures { result.now ≡ self.now }
    {
        &self.stage
    }

    /// Another stage.
    pub fn set(&mut self, stage: Stage)
        ensures { self.new ≡ stage }
    {
        discard_stage(mem::replace(&mut self.stage, stage));
    }

    // The stage is handed over; no operation is under way then.
    fn take(&mut self) -> Stage
        ensures stage { result ≡ self.old }
        ensures idle { self.new ≡ stage.Idle }
    {
        mem::replace(&mut self.stage, Stage::Idle)
    }

    /// The call whose walk waits is handed over; no operation is under way then.
    pub fn take_walked(&mut self) -> Option<CallRec>
        ensures call { result ≡ walked_call self.old }
        ensures idle { self.new ≡ stage.Idle }
    {
        walked_call_of(self.take())
    }

    /// These nodes are still to be heard.
    pub fn finish(&mut self, missing: Items<u8>)
        ensures { self.new ≡ finished_stage_of missing self.old }
    {
        let before = self.take();
        self.set(finished_stage(before, missing));
    }

    /// These nodes are still to be heard, and these are the counts.
    pub fn count(&mut self, missing: Items<u8>, counts: Items<u64>)
        ensures { self.new ≡ counted_stage_of missing counts self.old }
    {
        let before = self.take();
        self.set(counted_stage(before, missing, counts));
    }

    /// These nodes are still to shut the keys, and these are the rows.
    pub fn lock(&mut self, missing: Items<u8>, rows: Items<Update>)
        ensures { self.new ≡ locked_stage_of missing rows (operation_of self.old) }
    {
        let before = self.take();
        self.set(locked_stage(before, missing, rows));
    }

    /// A directory's entries are to be counted.
    pub fn begin_count(
        &mut self,
        alloc: Global,
        rows: Items<Update>,
        dir: u64,
        updates: Items<Update>,
        missing: Items<u8>,
    )
        ensures { self.new ≡ counting_stage_of rows dir updates missing (operation_of self.old) }
    {
        let before = self.take();
        self.set(counting_stage(alloc, before, rows, dir, updates, missing));
    }

    /// The operation is decided by these updates.
    pub fn decide(&mut self, updates: Items<Update>, missing: Items<u8>)
        ensures { self.new ≡ decided_stage_of updates missing (operation_of self.old) }
    {
        let before = self.take();
        self.set(decided_stage(before, updates, missing));
    }

    /// These nodes are still to give their rows away, and these are the rows.
    pub fn block(&mut self, missing: Items<u8>, rows: Items<NamedRow>)
        ensures { self.new ≡ blocked_stage_of missing rows (placing_call_of self.old) }
    {
        let before = self.take();
        self.set(blocked_stage(before, missing, rows));
    }

    /// These nodes are still to take their rows.
    pub fn install(&mut self, missing: Items<u8>)
        ensures { self.new ≡ installed_stage_of missing (placing_call_of self.old) }
    {
        let before = self.take();
        self.set(installed_stage(before, missing));
    }
}

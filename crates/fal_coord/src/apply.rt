//! A step that was prepared is made.

ghost use Rattle.std.specs.Prelude.{◌≡◌, ◌+◌, ◌<◌, ◌≤◌, ◌^◌, [], ◌∷◌, ◌++◌, drop, slice_get, vec_len, vec_capacity};
ghost use Rattle.fal_coord.specs.Hear.{taken, learned};
ghost use Rattle.fal_coord.specs.Patch.{asked_after, stage_after, started_with, walked_with, walked_call, operation_at as operation_of, locked_stage as locked_stage_of, counting_stage as counting_stage_of, decided_stage as decided_stage_of, locked_keys, counted_stage as counted_stage_of, finished_stage as finished_stage_of, placing_call, blocked_stage as blocked_stage_of, installed_stage as installed_stage_of, decided_with, patched};
ghost use Rattle.fal_coord.specs.Ready.{IsLegal, CanPatch, CanApply, after};
ghost use Rattle.fal_coord.specs.State.{at_stage};
ghost use Rattle.fal_dentry.specs.Walk.{without_keys};
ghost use Rattle.fal_coord.specs.declared.stage.Stage.TheVariants as stage;

use crate::coord::Coord;
use crate::patch::{Next, Patch, Prepared};
use crate::stage::{Operation, Stage};
use fal_base::{CallRec, Dentry, Items, Key, NamedRow, Outputs, Update, put_mark};
use fal_dentry::Replica;
use fal_place::Table;
use std::alloc::Global;

// Lets records and notes go.
fn discard_outputs(outputs: Outputs) {
    let Outputs {
        sent: _sent,
        notes: _notes,
    } = outputs;
}

// The keys that are shut for the operation of the stage leave the replica.
#[tactic(auto, unfolding(crate::specs::Patch::locked_keys, crate::specs::Patch::operation_at))]
fn drop_locked(replica: &mut Replica, stage: &Stage)
    ensures { replica.new.entries ≡ without_keys replica.old.entries (locked_keys (operation_of stage.now)) }
{
    match stage {
        Stage::Lock { operation, .. } => replica.drop_keys(operation.keys.as_slice()),
        Stage::Count { operation, .. } => replica.drop_keys(operation.keys.as_slice()),
        _ => replica.drop_keys(&[]),
    }
}

// The stage at which the call goes on, with the next fetch's number.
#[tactic(auto, unfolding(crate::specs::Patch::stage_after))]
fn stage_of(alloc: Global, asked: u64, call: CallRec, next: Next) -> Stage
    ensures { result ≡ stage_after asked call next }
{
    match next {
        Next::Rest => Stage::Idle,
        Next::Ask(key) => Stage::Walk {
            call,
            number: asked,
            key,
        },
        Next::Lock {
            keys,
            walks,
            missing,
        } => Stage::Lock {
            operation: Operation { call, keys, walks },
            missing,
            rows: Items::new(alloc),
        },
        Next::Block(missing) => Stage::Block {
            call,
            missing,
            rows: Items::new(alloc),
        },
    }
}

// How many fetches are numbered then.
#[tactic(auto, unfolding(crate::specs::Patch::asked_after))]
fn asked_of(asked: u64, next: &Next) -> u64
    requires { asked_after asked next.now < 2 ^ 64 }
    ensures { result ≡ asked_after asked next.now }
{
    match next {
        Next::Ask(_) => asked + 1,
        _ => asked,
    }
}

// Puts the call at the end.
fn push_call(waiting: &mut Vec<CallRec>, call: CallRec)
    requires { vec_len waiting.old < vec_capacity waiting.old }
    ensures { waiting.new.items ≡ waiting.old.items ++ call ∷ [] }
{
    let Ok(()) = waiting.push(call) else {
        unreachable!()
    };
}

// Takes the first call out.
fn take_first(waiting: &mut Vec<CallRec>) -> Option<CallRec>
    ensures first { result ≡ slice_get waiting.old.items 0 }
    ensures rest { waiting.new.items ≡ drop 1 waiting.old.items }
{
    if waiting.is_empty() {
        None
    } else {
        Some(waiting.remove(0))
    }
}

impl Coord {
    #[tactic(auto, unfolding(crate::specs::Hear::taken))]
    fn take(&mut self, call: CallRec)
        requires waiting { 1 ≤ self.old.room.waiting }
        requires last { 1 ≤ self.old.room.last }
        requires legal { IsLegal (taken self.old.state call) }
        ensures { self.new.state ≡ taken self.old.state call }
    {
        put_mark(&mut self.last, call.id.client, call.id.mark());
        push_call(&mut self.waiting, call);
    }

    #[tactic(auto, unfolding(crate::specs::Begin::started))]
    fn start(&mut self, next: Next)
        requires { IsLegal (started_with self.old.state next self.old.state.waiting (slice_get self.old.state.waiting 0)) }
        ensures { self.new.state ≡ started_with self.old.state next self.old.state.waiting (slice_get self.old.state.waiting 0) }
    {
        if let Some(call) = take_first(&mut self.waiting) {
            let asked = self.asked;
            self.operation += 1;
            self.asked = asked_of(asked, &next);
            self.stage.set(stage_of(self.alloc, asked, call, next));
        }
    }

    #[tactic(auto, unfolding(crate::specs::Hear::learned))]
    fn learn(&mut self, key: Key, dentry: Dentry, next: Next)
        requires room { 1 ≤ self.old.room.replica }
        requires legal { IsLegal (walked_with (learned self.old.state key dentry) next (walked_call self.old.state.stage)) }
        ensures { self.new.state ≡ walked_with (learned self.old.state key dentry) next (walked_call self.old.state.stage) }
    {
        self.replica.install(key, dentry);
        if let Some(call) = self.stage.take_walked() {
            let asked = self.asked;
            self.asked = asked_of(asked, &next);
            self.stage.set(stage_of(self.alloc, asked, call, next));
        }
    }

    fn lock(&mut self, missing: Items<u8>, rows: Items<Update>)
        requires { IsLegal (at_stage self.old.state (locked_stage_of missing rows (operation_of self.old.state.stage))) }
        ensures { self.new.state ≡ at_stage self.old.state (locked_stage_of missing rows (operation_of self.old.state.stage)) }
    {
        self.stage.lock(missing, rows);
    }

    fn count(&mut self, rows: Items<Update>, dir: u64, updates: Items<Update>, missing: Items<u8>)
        requires { IsLegal (at_stage self.old.state (counting_stage_of rows dir updates missing (operation_of self.old.state.stage))) }
        ensures { self.new.state ≡ at_stage self.old.state (counting_stage_of rows dir updates missing (operation_of self.old.state.stage)) }
    {
        self.stage
            .begin_count(self.alloc, rows, dir, updates, missing);
    }

    fn hear_count(&mut self, missing: Items<u8>, counts: Items<u64>)
        requires { IsLegal (at_stage self.old.state (counted_stage_of missing counts self.old.state.stage)) }
        ensures { self.new.state ≡ at_stage self.old.state (counted_stage_of missing counts self.old.state.stage) }
    {
        self.stage.count(missing, counts);
    }

    fn decide(&mut self, updates: Items<Update>, missing: Items<u8>)
        requires { IsLegal (decided_with self.old.state updates missing (operation_of self.old.state.stage)) }
        ensures { self.new.state ≡ decided_with self.old.state updates missing (operation_of self.old.state.stage) }
    {
        drop_locked(&mut self.replica, self.stage.stage());
        self.stage.decide(updates, missing);
    }

    fn finish(&mut self, missing: Items<u8>)
        requires { IsLegal (at_stage self.old.state (finished_stage_of missing self.old.state.stage)) }
        ensures { self.new.state ≡ at_stage self.old.state (finished_stage_of missing self.old.state.stage) }
    {
        self.stage.finish(missing);
    }

    fn block(&mut self, missing: Items<u8>, rows: Items<NamedRow>)
        requires { IsLegal (at_stage self.old.state (blocked_stage_of missing rows (placing_call self.old.state.stage))) }
        ensures { self.new.state ≡ at_stage self.old.state (blocked_stage_of missing rows (placing_call self.old.state.stage)) }
    {
        self.stage.block(missing, rows);
    }

    fn place(&mut self, table: Table, missing: Items<u8>)
        requires { IsLegal (record self.old.state { table = table; stage = installed_stage_of missing (placing_call self.old.state.stage) }) }
        ensures { self.new.state ≡ record self.old.state { table = table; stage = installed_stage_of missing (placing_call self.old.state.stage) } }
    {
        self.table = table;
        self.stage.install(missing);
    }

    fn install(&mut self, missing: Items<u8>)
        requires { IsLegal (at_stage self.old.state (installed_stage_of missing (placing_call self.old.state.stage))) }
        ensures { self.new.state ≡ at_stage self.old.state (installed_stage_of missing (placing_call self.old.state.stage)) }
    {
        self.stage.install(missing);
    }

    fn rest(&mut self)
        ensures { self.new.state ≡ at_stage self.old.state stage.Idle }
    {
        self.stage.set(Stage::Idle);
    }

    // Makes the change.
    fn change(&mut self, patch: Patch)
        requires { CanPatch self.old patch }
        ensures { self.new.state ≡ patched self.old.state patch }
    {
        match patch {
            Patch::Nothing => {}
            Patch::Take(call) => self.take(call),
            Patch::Start(next) => self.start(next),
            Patch::Learn { key, dentry, next } => self.learn(key, dentry, next),
            Patch::Lock { missing, rows } => self.lock(missing, rows),
            Patch::Count {
                rows,
                dir,
                updates,
                missing,
            } => self.count(rows, dir, updates, missing),
            Patch::Counted { missing, counts } => self.hear_count(missing, counts),
            Patch::Decide { updates, missing } => self.decide(updates, missing),
            Patch::Finish(missing) => self.finish(missing),
            Patch::Block { missing, rows } => self.block(missing, rows),
            Patch::Place { table, missing } => self.place(table, missing),
            Patch::Install(missing) => self.install(missing),
            Patch::Rest => self.rest(),
        }
    }

    /// Makes the step that was prepared. Takes no memory, and cannot fail: `ready` has made the room, and nothing was applied since.
    pub fn apply(&mut self, prepared: Prepared)
        requires { CanApply self.old prepared }
        ensures { self.new.state ≡ after self.old prepared }
    {
        let Prepared {
            alloc: _,
            patch,
            outputs,
        } = prepared;
        discard_outputs(outputs);
        self.change(patch);
    }
}

//! A record comes to the coordinator.

ghost use Rattle.std.specs.Prelude.{◌≡◌, ◌++◌, ◌∷◌, [], Some, IfOk, OnErr, IsSome, IsTrue};
ghost use Rattle.fal_base.specs.declared.event.Point.TheVariants as Point;
ghost use Rattle.fal_wire.specs.Messages.{reading};
ghost use Rattle.fal_coord.specs.declared.event.CoordEvent.TheVariants as CoordEvent;
ghost use Rattle.fal_coord.specs.Begin.{given_up, walk_step as walk_step_of};
ghost use Rattle.fal_coord.specs.Hear.{take_call as take_call_of, learned, found_at, take_found as take_found_of, lock_heard as lock_heard_of, take_locked as take_locked_of, count_heard as count_heard_of, take_counted as take_counted_of, take_done as take_done_of, take_message as take_message_of, take_read};
ghost use Rattle.fal_coord.specs.Patch.{walked_call, operation_at, counted_stage};
ghost use Rattle.fal_coord.specs.Ready.{Does, DoesOf};
ghost use Rattle.fal_coord.specs.Sound.{is_decidable, is_walked};
ghost use Rattle.fal_coord.specs.State.{begun};
ghost use Rattle.fal_coord.specs.Step.{CanMake, IsInRange, is_to_coord as is_to_coord_of, coord_step};
ghost use Rattle.fal_coord.specs.declared.stage.Stage.TheVariants as Stage;

use crate::begin::{Onward, refusal_letters, walk_step};
use crate::coord::Coord;
use crate::current::discard_call;
use crate::decide::{conclude, verdict_on};
use crate::draft::{Draft, draft_of, quiet_draft};
use crate::judging::counted;
use crate::nodes::{is_missing, without_node};
use crate::patch::Patch;
use crate::paths::is_operation;
use crate::placing::{take_blocked, take_installed};
use crate::stage::{Operation, Stage};
use crate::walks::Learned;
use fal_base::{
    Actor, CallRec, Dentry, Duplicate, Envelope, Errno, Items, Key, OutOfMemory, Point, Update,
    last_mark,
};
use fal_wire::{Found, Message, WireFault, decode};
use std::alloc::Global;

// Nothing changes.
pub(crate) fn nothing(coord: &Coord) -> Draft
    ensures { Does coord.now.state (begun coord.now.state) result }
{
    quiet_draft(coord.alloc, Patch::Nothing)
}

// Lets the message go.
fn discard_message(message: Message) {
    let _message = message;
}

// A call comes. Only an operation is for the coordinator, and one that was taken before changes nothing.
fn take_call(coord: &Coord, call: CallRec) -> Draft
    ensures { Does coord.now.state (begun (take_call_of coord.now.state call)) result }
{
    let last = last_mark(&coord.last, call.id.client);
    if is_operation(&call.op) && call.id.mark().is_newer(last) {
        quiet_draft(coord.alloc, Patch::Take(call))
    } else {
        discard_call(call);
        nothing(coord)
    }
}

// The directory is learned, and the walk goes on.
fn learn(coord: &Coord, call: &CallRec, key: Key, dentry: Dentry) -> Result<Draft, OutOfMemory>
    requires walked { IsTrue (is_walked call.now.op) }
    requires at { walked_call coord.now.state.stage ≡ Some call.now }
    ensures { IfOk result (λ draft. Does coord.now.state (walk_step_of (learned coord.now.state key dentry) call.now) draft) }
{
    let learned = Some(Learned {
        key: key.copy()?,
        dentry,
    });
    let Onward { next, letters } = walk_step(coord, coord.operation, &learned, call)?;
    let patch = Patch::Learn { key, dentry, next };
    Ok(draft_of(coord.alloc, patch, letters))
}

// The call is answered with the errno, true at the point that came with the record.
fn refuse(coord: &Coord, call: &CallRec, point: u64, errno: Errno) -> Result<Draft, OutOfMemory>
    ensures { IfOk result (λ draft. Does coord.now.state (given_up coord.now.state call.now (Point.Carried point) errno) draft) }
{
    let letters = refusal_letters(coord.alloc, call, Point::Carried(point), errno)?;
    Ok(draft_of(coord.alloc, Patch::Rest, letters))
}

// What was fetched for the call comes.
fn take_awaited(
    coord: &Coord,
    call: &CallRec,
    point: u64,
    key: Key,
    found: Found,
) -> Result<Draft, OutOfMemory>
    requires walked { IsTrue (is_walked call.now.op) }
    requires at { walked_call coord.now.state.stage ≡ Some call.now }
    ensures { IfOk result (λ draft. Does coord.now.state (found_at coord.now.state point call.now key found) draft) }
{
    match found {
        Found::Dir(dentry) => learn(coord, call, key, dentry),
        Found::Nothing => refuse(coord, call, point, Errno::Enoent),
        Found::File => refuse(coord, call, point, Errno::Enotdir),
    }
}

// What was fetched comes. Only the fetch that the walk waits for changes something.
fn take_found(
    coord: &Coord,
    point: u64,
    number: u64,
    key: Key,
    found: Found,
) -> Result<Draft, OutOfMemory>
    ensures { IfOk result (λ draft. Does coord.now.state (take_found_of coord.now.state point number key found coord.now.state.stage) draft) }
{
    match coord.stage.stage() {
        Stage::Walk {
            call,
            number: awaited,
            key: _,
        } => {
            if number == *awaited {
                take_awaited(coord, call, point, key, found)
            } else {
                Ok(nothing(coord))
            }
        }
        _ => Ok(nothing(coord)),
    }
}

// The rows kept, and those that a node tells.
pub(crate) fn with_rows<T: Duplicate + Drop>(
    rows: &Items<T>,
    told: &Items<T>,
) -> Result<Items<T>, OutOfMemory>
    ensures { IfOk result (λ all. all ≡ rows.now ++ told.now) }
{
    let mut all = rows.copy()?;
    let mut rest = told.as_slice();
    while let Some((row, others)) = rest.split_first() {
        all.push(row.copy()?)?;
        rest = others;
    }
    Ok(all)
}

// A node has shut the keys. With the last node comes the verdict.
fn lock_heard(
    coord: &Coord,
    operation: &Operation,
    rows: Items<Update>,
    missing: Items<u8>,
) -> Result<Draft, OutOfMemory>
    requires decidable { IsTrue (is_decidable operation.now) }
    requires at { operation_at coord.now.state.stage ≡ Some operation.now }
    ensures { IfOk result (λ draft. Does coord.now.state (lock_heard_of coord.now.state operation.now rows missing) draft) }
{
    if !missing.is_empty() {
        return Ok(quiet_draft(coord.alloc, Patch::Lock { missing, rows }));
    }
    let verdict = verdict_on(coord.alloc, operation, rows.as_slice())?;
    conclude(coord, operation, &rows, verdict)
}

// A node tells its rows. Only of this operation, and from a node that was not heard before.
fn take_locked(
    coord: &Coord,
    number: u32,
    node: u8,
    told: Items<Update>,
) -> Result<Draft, OutOfMemory>
    ensures { IfOk result (λ draft. Does coord.now.state (take_locked_of coord.now.state number node told coord.now.state.stage) draft) }
{
    match coord.stage.stage() {
        Stage::Lock {
            operation,
            missing,
            rows,
        } => {
            if number == coord.operation && is_missing(node, missing.as_slice()) {
                let rows = with_rows(rows, &told)?;
                let missing = without_node(coord.alloc, node, missing.as_slice())?;
                lock_heard(coord, operation, rows, missing)
            } else {
                Ok(nothing(coord))
            }
        }
        _ => Ok(nothing(coord)),
    }
}

// The counts so far, and one more.
fn with_count(alloc: Global, counts: &[u64], count: u64) -> Result<Items<u64>, OutOfMemory>
    ensures { IfOk result (λ all. all ≡ counts.now ++ count ∷ []) }
{
    let mut all = Items::new(alloc);
    let mut rest = counts;
    while let Some((first, others)) = rest.split_first() {
        all.push(*first)?;
        rest = others;
    }
    all.push(count)?;
    Ok(all)
}

// A node has counted. With the last node comes what the counts make of it.
fn count_heard(
    coord: &Coord,
    operation: &Operation,
    rows: &Items<Update>,
    dir: u64,
    updates: &Items<Update>,
    counts: Items<u64>,
    missing: Items<u8>,
) -> Result<Draft, OutOfMemory>
    requires at { operation_at coord.now.state.stage ≡ Some operation.now }
    requires stage { counted_stage missing counts coord.now.state.stage ≡ Stage.Count operation.now rows.now dir updates.now missing counts }
    ensures { IfOk result (λ draft. Does coord.now.state (count_heard_of coord.now.state operation.now rows.now dir updates.now counts missing) draft) }
{
    if missing.is_empty() {
        let updates = updates.copy()?.into_items();
        let verdict = counted(counts.as_slice(), updates);
        conclude(coord, operation, rows, verdict)
    } else {
        Ok(quiet_draft(coord.alloc, Patch::Counted { missing, counts }))
    }
}

// A node tells how many entries it has. Only of this operation, and from a node that was not heard before.
fn take_counted(coord: &Coord, number: u32, node: u8, count: u64) -> Result<Draft, OutOfMemory>
    ensures { IfOk result (λ draft. Does coord.now.state (take_counted_of coord.now.state number node count coord.now.state.stage) draft) }
{
    match coord.stage.stage() {
        Stage::Count {
            operation,
            rows,
            dir,
            updates,
            missing,
            counts,
        } => {
            if number == coord.operation && is_missing(node, missing.as_slice()) {
                let counts = with_count(coord.alloc, counts.as_slice(), count)?;
                let missing = without_node(coord.alloc, node, missing.as_slice())?;
                count_heard(coord, operation, rows, *dir, updates, counts, missing)
            } else {
                Ok(nothing(coord))
            }
        }
        _ => Ok(nothing(coord)),
    }
}

// A node has made the changes, and with the last node the operation is at its end. Only of this operation, and from a node that was not heard before.
fn take_done(coord: &Coord, number: u32, node: u8) -> Result<Draft, OutOfMemory>
    ensures { IfOk result (λ draft. Does coord.now.state (begun (take_done_of coord.now.state number node coord.now.state.stage)) draft) }
{
    match coord.stage.stage() {
        Stage::Finish {
            keys: _,
            updates: _,
            missing,
        } => {
            if number == coord.operation && is_missing(node, missing.as_slice()) {
                let missing = without_node(coord.alloc, node, missing.as_slice())?;
                if missing.is_empty() {
                    Ok(quiet_draft(coord.alloc, Patch::Rest))
                } else {
                    Ok(quiet_draft(coord.alloc, Patch::Finish(missing)))
                }
            } else {
                Ok(nothing(coord))
            }
        }
        _ => Ok(nothing(coord)),
    }
}

// A message comes. One of a kind that is not for the coordinator changes nothing.
fn take_message(coord: &Coord, point: u64, message: Message) -> Result<Draft, OutOfMemory>
    requires { IsInRange (take_message_of coord.now.state point message) }
    ensures { IfOk result (λ draft. Does coord.now.state (take_message_of coord.now.state point message) draft) }
{
    match message {
        Message::Call(call) => Ok(take_call(coord, call)),
        Message::FetchGot { number, key, found } => take_found(coord, point, number, key, found),
        Message::Locked { op, node, rows } => take_locked(coord, op, node, rows),
        Message::Counted { op, node, number } => take_counted(coord, op, node, number),
        Message::Done { op, node } => take_done(coord, op, node),
        Message::Blocked { op, node, rows } => take_blocked(coord, op, node, rows),
        Message::Installed { op, node } => take_installed(coord, op, node),
        other => {
            discard_message(other);
            Ok(nothing(coord))
        }
    }
}

// Bytes come. Those that are no record change nothing.
fn take_bytes(coord: &Coord, point: u64, bytes: &[u8]) -> Result<Draft, OutOfMemory>
    requires { IsInRange (take_read coord.now.state point (reading bytes.now)) }
    ensures { IfOk result (λ draft. Does coord.now.state (take_read coord.now.state point (reading bytes.now)) draft) }
{
    match decode(coord.alloc, bytes) {
        Ok(message) => take_message(coord, point, message),
        Err(WireFault::OutOfMemory) => Err(OutOfMemory),
        Err(_) => Ok(nothing(coord)),
    }
}

// Whether this is the coordinator.
fn is_to_coord(to: Actor) -> bool
    ensures { result ≡ is_to_coord_of to }
{
    match to {
        Actor::Client(_) => false,
        Actor::Node(_) => false,
        Actor::Coord => true,
    }
}

// An envelope comes. Only one that was sent to the coordinator may.
#[tactic(auto, unfolding(crate::specs::Step::coord_step, crate::specs::Hear::heard))]
pub(crate) fn hear(coord: &Coord, envelope: &Envelope) -> Result<Option<Draft>, OutOfMemory>
    requires { CanMake coord.now.state (CoordEvent.Hear envelope.now) }
    ensures does { IfOk result (λ draft. DoesOf coord.now.state (coord_step coord.now.state (CoordEvent.Hear envelope.now)) draft) }
    ensures err { OnErr result (IsSome (coord_step coord.now.state (CoordEvent.Hear envelope.now))) }
{
    if !is_to_coord(envelope.to) {
        return Ok(None);
    }
    let draft = take_bytes(coord, envelope.point, envelope.bytes.as_slice())?;
    Ok(Some(draft))
}

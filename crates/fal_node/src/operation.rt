//! A record of an operation of the coordinator comes.

ghost use Rattle.std.specs.Prelude.{◌≡◌, IfOk};
ghost use Rattle.fal_wire.specs.Letters.{letter};
ghost use Rattle.fal_node.specs.Letters.{begun};
ghost use Rattle.fal_node.specs.State.{is_of};
ghost use Rattle.fal_node.specs.Deliver.{take_operation as take_operation_of, take_count as take_count_of, take_commit as take_commit_of};
ghost use Rattle.fal_node.specs.Ready.{Does, CanDraft};

use crate::deliver::{discard_message, nothing};
use crate::draft::{Draft, letters_of_one, quiet_draft, sending_draft};
use crate::node::Node;
use crate::patch::Patch;
use fal_base::{Actor, OutOfMemory, Point, Update};
use fal_duty::{counted, mine};
use fal_locks::Locks;
use fal_wire::{Letter, Message};

// The record goes to the coordinator.
pub(crate) fn to_coordinator(message: Message) -> Letter
    ensures { result ≡ letter Actor.Coord (Point.Here 0) message }
{
    Letter {
        to: Actor::Coord,
        point: Point::Here(0),
        message,
    }
}

// An operation comes with its record, which is served later. One that is not newer than the last changes nothing.
pub(crate) fn take_operation(node: &Node, operation: u32, message: Message) -> Draft
    ensures does { Does node.now.state (begun (take_operation_of node.now.state operation message)) result }
    ensures can { CanDraft node.now.state result.patch }
{
    if node.last_operation < operation {
        quiet_draft(node.alloc, Patch::Keep { operation, message })
    } else {
        discard_message(message);
        nothing(node)
    }
}

// Whether this operation has shut the keys.
fn has_shut(locks: &Locks, operation: u32) -> bool
    ensures { result ≡ is_of locks.now.table.shut operation }
{
    match locks.shut_op() {
        None => false,
        Some(shut) => shut == operation,
    }
}

// The coordinator asks how many rows stand here under a directory. It is told so where the operation has shut the keys.
pub(crate) fn take_count(node: &Node, operation: u32, dir: u64) -> Result<Draft, OutOfMemory>
    ensures does { IfOk result (λ draft. Does node.now.state (take_count_of node.now.state operation dir) draft) }
    ensures can { IfOk result (λ draft. CanDraft node.now.state draft.patch) }
{
    if !has_shut(&node.locks, operation) {
        return Ok(nothing(node));
    }
    let letter = to_coordinator(counted(&node.rows, node.number, operation, dir));
    let letters = letters_of_one(node.alloc, letter)?;
    Ok(sending_draft(node.alloc, Patch::Nothing, letters))
}

// The operation ends. Where it has shut the keys, the updates of keys that live here are laid, and the keys are opened.
pub(crate) fn take_commit(
    node: &Node,
    operation: u32,
    updates: &[Update],
) -> Result<Draft, OutOfMemory>
    ensures does { IfOk result (λ draft. Does node.now.state (take_commit_of node.now.state operation updates.now) draft) }
    ensures can { IfOk result (λ draft. CanDraft node.now.state draft.patch) }
{
    if !has_shut(&node.locks, operation) {
        return Ok(nothing(node));
    }
    let updates = mine(node.alloc, &node.table, node.number, updates)?;
    let letter = to_coordinator(Message::Done {
        op: operation,
        node: node.number,
    });
    let letters = letters_of_one(node.alloc, letter)?;
    Ok(sending_draft(node.alloc, Patch::Reopen { operation, updates }, letters))
}

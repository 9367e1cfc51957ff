//! A Lock is served.

ghost use Rattle.std.specs.Prelude.{◌≡◌, IfOk, OnErr, IsSome, IsTrue, is_some};
ghost use Rattle.std.specs.List.{list_any};
ghost use Rattle.std.specs.Option.{ForSome};
ghost use Rattle.fal_locks.specs.Locks.{is_held};
ghost use Rattle.fal_node.specs.Serve.{can_shut as can_shut_by, lock_service, serve_as, served_as};
ghost use Rattle.fal_node.specs.Ready.{Does, DoesOf, CanDraft};

use crate::draft::{Draft, letters_of_one, sending_draft};
use crate::node::Node;
use crate::operation::to_coordinator;
use crate::patch::Patch;
use fal_base::{Duplicate, Key, OutOfMemory};
use fal_duty::locked;
use fal_locks::Locks;
use fal_wire::KeyList;

// Whether an operation has shut keys.
pub(crate) fn is_any_shut(locks: &Locks) -> bool
    ensures { result ≡ is_some locks.now.table.shut }
{
    locks.shut_op().is_some()
}

// Whether some batch holds one of the keys.
fn is_one_held(locks: &Locks, keys: &[Key]) -> bool
    ensures { result ≡ list_any (λ key. is_held locks.now.table key) keys.now }
{
    keys.iter().any(|key| locks.held(key))
}

// Whether an operation can shut the keys: nothing is shut, and no batch holds one of them.
pub(crate) fn can_shut(locks: &Locks, keys: &[Key]) -> bool
    ensures { result ≡ can_shut_by locks.now.table keys.now }
{
    !is_any_shut(locks) && !is_one_held(locks, keys)
}

// The keys are shut by the operation, and the coordinator is told what stands here under them.
fn draft_of_lock(
    node: &Node,
    item: u64,
    operation: u32,
    keys: &KeyList,
) -> Result<Draft, OutOfMemory>
    requires { IsTrue (can_shut_by node.now.state.locks keys.now) }
    ensures does { IfOk result (λ draft. Does node.now.state (served_as (lock_service node.now.state operation keys.now) item) draft) }
    ensures can { IfOk result (λ draft. CanDraft node.now.state draft.patch) }
{
    let shut = keys.copy()?.into_items();
    let told = locked(
        node.alloc,
        &node.rows,
        &node.table,
        node.number,
        operation,
        keys.as_slice(),
    )?;
    let letters = letters_of_one(node.alloc, to_coordinator(told))?;
    Ok(sending_draft(
        node.alloc,
        Patch::Shut {
            item,
            operation,
            keys: shut,
        },
        letters,
    ))
}

// Serves the item with this number, a Lock of the keys, where it can be served.
pub(crate) fn serve_lock(
    node: &Node,
    item: u64,
    operation: u32,
    keys: &KeyList,
) -> Result<Option<Draft>, OutOfMemory>
    ensures does { IfOk result (λ draft. DoesOf node.now.state (serve_as (lock_service node.now.state operation keys.now) item) draft) }
    ensures can { IfOk result (λ draft. ForSome draft (λ d. CanDraft node.now.state d.patch)) }
    ensures err { OnErr result (IsSome (serve_as (lock_service node.now.state operation keys.now) item)) }
{
    if !can_shut(&node.locks, keys.as_slice()) {
        return Ok(None);
    }
    let draft = draft_of_lock(node, item, operation, keys)?;
    Ok(Some(draft))
}

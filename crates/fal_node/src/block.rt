//! A Block is served.

ghost use Rattle.std.specs.Prelude.{◌≡◌, IfOk, OnErr, IsSome};
ghost use Rattle.std.specs.Option.{ForSome};
ghost use Rattle.fal_node.specs.Serve.{can_block as can_block_at, block_service, serve_as, served_as};
ghost use Rattle.fal_node.specs.Ready.{Does, DoesOf, CanDraft};

use crate::draft::{Draft, letters_of_one, sending_draft};
use crate::node::Node;
use crate::operation::to_coordinator;
use crate::patch::Patch;
use fal_base::{Duplicate, Name, OutOfMemory};
use fal_duty::blocked;

// Whether an operation can block the name: nothing is blocked, and no batch holds a key with the name.
pub(crate) fn can_block(node: &Node, name: &Name) -> bool
    ensures { result ≡ can_block_at node.now.state name.now }
{
    node.blocked.is_none() && !node.locks.held_name(name)
}

// The operation blocks the name, and the coordinator is told the rows that leave.
fn draft_of_block(node: &Node, item: u64, operation: u32, name: &Name) -> Result<Draft, OutOfMemory>
    ensures does { IfOk result (λ draft. Does node.now.state (served_as (block_service node.now.state operation name.now) item) draft) }
    ensures can { IfOk result (λ draft. CanDraft node.now.state draft.patch) }
{
    let told = blocked(node.alloc, &node.rows, node.number, operation, name)?;
    let letters = letters_of_one(node.alloc, to_coordinator(told))?;
    Ok(sending_draft(
        node.alloc,
        Patch::Block {
            item,
            operation,
            name: name.copy()?,
        },
        letters,
    ))
}

// Serves the item with this number, a Block of the name, where it can be served.
pub(crate) fn serve_block(
    node: &Node,
    item: u64,
    operation: u32,
    name: &Name,
) -> Result<Option<Draft>, OutOfMemory>
    ensures does { IfOk result (λ draft. DoesOf node.now.state (serve_as (block_service node.now.state operation name.now) item) draft) }
    ensures can { IfOk result (λ draft. ForSome draft (λ d. CanDraft node.now.state d.patch)) }
    ensures err { OnErr result (IsSome (serve_as (block_service node.now.state operation name.now) item)) }
{
    if !can_block(node, name) {
        return Ok(None);
    }
    let draft = draft_of_block(node, item, operation, name)?;
    Ok(Some(draft))
}

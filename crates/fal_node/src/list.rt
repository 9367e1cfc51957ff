//! A node's part of a listing is served.

ghost use Rattle.std.specs.Prelude.{◌≡◌, IfOk, OnErr, IsSome};
ghost use Rattle.std.specs.Option.{ForSome};
ghost use Rattle.fal_node.specs.Serve.{is_behind as is_behind_of, is_open as is_open_of, can_list as can_list_of, list_message as list_message_of, list_service, serve_as};
ghost use Rattle.fal_node.specs.Ready.{DoesOf, CanDraft};

use crate::draft::{Draft, letters_of_one, sending_draft};
use crate::lock::is_any_shut;
use crate::node::Node;
use crate::patch::Patch;
use fal_base::{Actor, CallId, OutOfMemory, Point};
use fal_duty::part;
use fal_wire::{ChangeList, Letter, Message};

// Whether the asker's table is older than the node's.
fn is_behind(node: &Node, version: u32) -> bool
    ensures { result ≡ is_behind_of node.now.state version }
{
    version < node.table.version()
}

// Whether nothing is shut and nothing is blocked.
fn is_open(node: &Node) -> bool
    ensures { result ≡ is_open_of node.now.state }
{
    !is_any_shut(&node.locks) && node.blocked.is_none()
}

// Whether the node can answer a listing by a table of this version.
pub(crate) fn can_list(node: &Node, version: u32) -> bool
    ensures { result ≡ can_list_of node.now.state version }
{
    is_behind(node, version) || (version == node.table.version() && is_open(node))
}

// What the client is told: the changes since its older table, or the names of the rows under the directory.
fn list_message(node: &Node, id: &CallId, version: u32, dir: u64) -> Result<Message, OutOfMemory>
    ensures { IfOk result (λ message. message ≡ list_message_of node.now.state id.now version dir) }
{
    if is_behind(node, version) {
        Ok(Message::Stale {
            id: *id,
            old: version,
            new: node.table.version(),
            changes: ChangeList::from_items(node.table.since(version)?),
        })
    } else {
        part(&node.rows, node.number, id, dir)
    }
}

// Serves the item with this number, a client's question for the node's part of a listing, where it can be served.
pub(crate) fn serve_list(
    node: &Node,
    item: u64,
    id: &CallId,
    version: u32,
    dir: u64,
) -> Result<Option<Draft>, OutOfMemory>
    ensures does { IfOk result (λ draft. DoesOf node.now.state (serve_as (list_service node.now.state id.now version dir) item) draft) }
    ensures can { IfOk result (λ draft. ForSome draft (λ d. CanDraft node.now.state d.patch)) }
    ensures err { OnErr result (IsSome (serve_as (list_service node.now.state id.now version dir) item)) }
{
    if !can_list(node, version) {
        return Ok(None);
    }
    let letter = Letter {
        to: Actor::Client(id.client),
        point: Point::Here(0),
        message: list_message(node, id, version, dir)?,
    };
    let letters = letters_of_one(node.alloc, letter)?;
    Ok(Some(sending_draft(node.alloc, Patch::Serve(item), letters)))
}

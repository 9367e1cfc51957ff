ghost use Rattle.std.specs.Prelude.{◌≡◌, ◌==◌, IfOk, OnErr, IsSome};
ghost use Rattle.std.specs.List.{find};
ghost use Rattle.std.specs.Option.{ForSome, option_copied};
ghost use Rattle.fal_locks.specs.Locks.{is_shut as is_shut_by};
ghost use Rattle.fal_batch.specs.Fate.{bars as bars_name};
ghost use Rattle.fal_node.specs.State.{item_of, batch_of};
ghost use Rattle.fal_node.specs.Letters.{asker_of};
ghost use Rattle.fal_node.specs.Serve.{can_tell as can_tell_of, fetch_letter as fetch_letter_of, fetch_service, serve_as, can_serve as can_serve_of, serve as serve_of};
ghost use Rattle.fal_node.specs.Step.{release as release_of};
ghost use Rattle.fal_node.specs.Ready.{DoesOf, CanDraft};

use crate::batch::Batch;
use crate::block::{can_block, serve_block};
use crate::blocking::blocked_names;
use crate::draft::{Draft, letters_of_one, quiet_draft, sending_draft};
use crate::item::Item;
use crate::list::{can_list, serve_list};
use crate::lock::{can_shut, serve_lock};
use crate::node::Node;
use crate::patch::Patch;
use fal_base::{Actor, Barred, Duplicate, Key, Name, OutOfMemory, Point};
use fal_duty::fetched;
use fal_locks::Locks;
use fal_wire::{Letter, Message};

// Whether the name is one of these.
fn bars(names: &Barred, name: &Name) -> bool
    ensures { result ≡ bars_name names.now name.now }
{
    match names {
        Barred::Nothing => false,
        Barred::One(other) => *other == *name,
        Barred::All => !name.bytes().is_empty(),
    }
}

// Whether the key is shut.
fn is_shut(locks: &Locks, key: &Key) -> bool
    ensures { result ≡ is_shut_by locks.now.table key.now }
{
    locks.shut_keys().iter().any(|other| key.is_same(other))
}

// Whether a fetch of the key can be served.
fn can_tell(node: &Node, key: &Key) -> bool
    ensures { result ≡ can_tell_of node.now.state key.now }
{
    let nothing = Barred::Nothing;
    !bars(blocked_names(&node.blocked, &nothing), &key.name)
        && (node.table.owner(key) != node.number || !is_shut(&node.locks, key))
}

fn asker(number: u8) -> Actor
    ensures { result ≡ asker_of number }
{
    if number == 255 {
        Actor::Coord
    } else {
        Actor::Node(number)
    }
}

// The record that serves a fetch.
fn fetch_letter(node: &Node, from: u8, number: u64, key: &Key) -> Result<Letter, OutOfMemory>
    ensures { IfOk result (λ letter. letter ≡ fetch_letter_of node.now.state from number key.now) }
{
    let owner = node.table.owner(key);
    if owner == node.number {
        Ok(Letter {
            to: asker(from),
            point: Point::Here(0),
            message: fetched(node.alloc, &node.rows, number, key)?,
        })
    } else {
        Ok(Letter {
            to: Actor::Node(owner),
            point: Point::Here(0),
            message: Message::FetchAsk {
                asker: from,
                number,
                key: key.copy()?,
            },
        })
    }
}

// The item with this number.
fn find_item(items: &[Item], number: u64) -> Option<&Item>
    ensures { option_copied result ≡ find (λ item. item.number == number) items.now }
{
    items.iter().find(|item| item.number == number)
}

// The batch with this number.
pub(crate) fn find_batch(batches: &[Batch], number: u64) -> Option<&Batch>
    ensures { option_copied result ≡ find (λ batch. batch.number == number) batches.now }
{
    batches.iter().find(|batch| batch.number == number)
}

// Serves the item with this number, a question about the directory of the key, where it can be served.
fn serve_fetch(
    node: &Node,
    item: u64,
    asker: u8,
    number: u64,
    key: &Key,
) -> Result<Option<Draft>, OutOfMemory>
    ensures does { IfOk result (λ draft. DoesOf node.now.state (serve_as (fetch_service node.now.state asker number key.now) item) draft) }
    ensures can { IfOk result (λ draft. ForSome draft (λ d. CanDraft node.now.state d.patch)) }
    ensures err { OnErr result (IsSome (serve_as (fetch_service node.now.state asker number key.now) item)) }
{
    if !can_tell(node, key) {
        return Ok(None);
    }
    let letter = fetch_letter(node, asker, number, key)?;
    let letters = letters_of_one(node.alloc, letter)?;
    Ok(Some(sending_draft(node.alloc, Patch::Serve(item), letters)))
}

// Whether the condition of an item with this record holds, by the kind of the record.
pub(crate) fn can_serve(node: &Node, message: &Message) -> bool
    ensures { result ≡ can_serve_of node.now.state message.now }
{
    match message {
        Message::FetchAsk { key, .. } => can_tell(node, key),
        Message::ListAsk { version, .. } => can_list(node, *version),
        Message::Lock { keys, .. } => can_shut(&node.locks, keys.as_slice()),
        Message::Block { name, .. } => can_block(node, name),
        _ => false,
    }
}

// Serves the item, where its condition holds, by the kind of the record.
#[tactic(auto, unfolding(crate::specs::Serve::served))]
fn serve_item(node: &Node, item: &Item) -> Result<Option<Draft>, OutOfMemory>
    ensures does { IfOk result (λ draft. DoesOf node.now.state (serve_of node.now.state (Some item.now)) draft) }
    ensures can { IfOk result (λ draft. ForSome draft (λ d. CanDraft node.now.state d.patch)) }
    ensures err { OnErr result (IsSome (serve_of node.now.state (Some item.now))) }
{
    match &item.message {
        Message::FetchAsk { asker, number, key } => {
            serve_fetch(node, item.number, *asker, *number, key)
        }
        Message::ListAsk { id, version, dir } => {
            serve_list(node, item.number, id, *version, *dir)
        }
        Message::Lock { op, keys } => serve_lock(node, item.number, *op, keys),
        Message::Block { op, name } => serve_block(node, item.number, *op, name),
        _ => Ok(None),
    }
}

// Serves the item, where it is there and its condition holds.
fn serve_found(node: &Node, item: Option<&Item>) -> Result<Option<Draft>, OutOfMemory>
    ensures does { IfOk result (λ draft. DoesOf node.now.state (serve_of node.now.state (option_copied item.entry)) draft) }
    ensures can { IfOk result (λ draft. ForSome draft (λ d. CanDraft node.now.state d.patch)) }
    ensures err { OnErr result (IsSome (serve_of node.now.state (option_copied item.entry))) }
{
    match item {
        None => Ok(None),
        Some(item) => serve_item(node, item),
    }
}

// The node's item with this number.
fn item_at(node: &Node, number: u64) -> Option<&Item>
    ensures { option_copied result ≡ item_of node.now.state number }
{
    find_item(&node.items, number)
}

// Serves the item with this number, where it is there and its condition holds.
pub(crate) fn serve(node: &Node, number: u64) -> Result<Option<Draft>, OutOfMemory>
    ensures does { IfOk result (λ draft. DoesOf node.now.state (serve_of node.now.state (item_of node.now.state number)) draft) }
    ensures can { IfOk result (λ draft. ForSome draft (λ d. CanDraft node.now.state d.patch)) }
    ensures err { OnErr result (IsSome (serve_of node.now.state (item_of node.now.state number))) }
{
    serve_found(node, item_at(node, number))
}

// Releases the batch with this number, where it is there and executed.
pub(crate) fn release(node: &Node, number: u64) -> Option<Draft>
    ensures does { DoesOf node.now.state (release_of node.now.state number (batch_of node.now.state number)) result }
    ensures can { ForSome result (λ d. CanDraft node.now.state d.patch) }
{
    match find_batch(&node.batches, number) {
        None => None,
        Some(batch) => {
            if batch.executed {
                Some(quiet_draft(node.alloc, Patch::Release(number)))
            } else {
                None
            }
        }
    }
}

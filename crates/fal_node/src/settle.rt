//! What was fetched comes.

ghost use Rattle.std.specs.Prelude.{◌≡◌, ◌++◌, IfOk, OnOk};
ghost use Rattle.fal_wait.specs.Waiting.{call_with_ticket, fetch_of};
ghost use Rattle.fal_wire.specs.Letters.{reply_letter};
ghost use Rattle.fal_node.specs.Deliver.{refusal, refusals as refusals_of, refuse as refuse_of, settle as settle_of, settle_pending};
ghost use Rattle.fal_node.specs.Ready.{Does, CanDraft};

use crate::draft::{Draft, quiet_draft};
use crate::node::Node;
use crate::patch::Patch;
use fal_base::{Actor, CallRec, Errno, Key, OutOfMemory, Point, Reply};
use fal_wait::{PendingFetch, Waiting};
use fal_wire::{Found, Letter, Message};
use std::alloc::Global;

// The answer to a call that waited, at the point that came with the record.
fn refusal_letter(call: &CallRec, errno: Errno, point: u64) -> Letter
    ensures { result ≡ reply_letter call.now (Point.Carried point) (Reply.Fail errno) }
{
    Letter {
        to: Actor::Client(call.id.client),
        point: Point::Carried(point),
        message: Message::Reply {
            id: call.id,
            reply: Reply::Fail(errno),
        },
    }
}

// Adds the answer to the waiter, where it is there.
fn add_refusal(
    letters: &mut Vec<Letter>,
    waiting: &Waiting,
    errno: Errno,
    point: u64,
    ticket: u64,
) -> Result<(), OutOfMemory>
    ensures { OnOk result (letters.new.items ≡ letters.old.items ++ refusal (call_with_ticket waiting.now.list ticket) errno point) }
{
    match waiting.call(ticket) {
        None => Ok(()),
        Some(call) => {
            letters.push(refusal_letter(call, errno, point))?;
            Ok(())
        }
    }
}

// The answers to the waiters, in the order of their arrival.
fn refusals(
    alloc: Global,
    waiting: &Waiting,
    errno: Errno,
    point: u64,
    tickets: &[u64],
) -> Result<Vec<Letter>, OutOfMemory>
    ensures { IfOk result (λ letters. letters.items ≡ refusals_of waiting.now.list errno point tickets.now) }
{
    let mut letters = Vec::new(alloc);
    let mut rest = tickets;
    while let Some((ticket, others)) = rest.split_first() {
        add_refusal(&mut letters, waiting, errno, point, *ticket)?;
        rest = others;
    }
    Ok(letters)
}

// The waiters leave with this errno.
fn refuse(node: &Node, errno: Errno, point: u64, fetch: &PendingFetch) -> Result<Draft, OutOfMemory>
    ensures does { IfOk result (λ draft. Does node.now.state (refuse_of node.now.state point errno fetch.now) draft) }
    ensures can { IfOk result (λ draft. CanDraft node.now.state draft.patch) }
{
    let tickets = fetch.waiters.as_slice();
    let letters = refusals(node.alloc, &node.waiting, errno, point, tickets)?;
    let tickets = Vec::from_slice(node.alloc, tickets)?;
    Ok(Draft {
        patch: Patch::Dismiss {
            fetch: fetch.number,
            tickets,
        },
        letters,
        notes: Vec::new(node.alloc),
    })
}

// What a pending fetch is told.
fn settle(
    node: &Node,
    fetch: &PendingFetch,
    point: u64,
    key: Key,
    found: Found,
) -> Result<Draft, OutOfMemory>
    ensures does { IfOk result (λ draft. Does node.now.state (settle_of node.now.state point key found fetch.now) draft) }
    ensures can { IfOk result (λ draft. CanDraft node.now.state draft.patch) }
{
    match found {
        Found::Dir(dentry) => Ok(quiet_draft(
            node.alloc,
            Patch::Learn {
                fetch: fetch.number,
                key,
                dentry,
            },
        )),
        Found::Nothing => refuse(node, Errno::Enoent, point, fetch),
        Found::File => refuse(node, Errno::Enotdir, point, fetch),
    }
}

// What the fetch with this number is told. A number that is not pending changes nothing.
pub(crate) fn take_found(
    node: &Node,
    number: u64,
    point: u64,
    key: Key,
    found: Found,
) -> Result<Draft, OutOfMemory>
    ensures does { IfOk result (λ draft. Does node.now.state (settle_pending node.now.state point key found (fetch_of node.now.state.waiting number)) draft) }
    ensures can { IfOk result (λ draft. CanDraft node.now.state draft.patch) }
{
    match node.waiting.fetch(number) {
        None => Ok(quiet_draft(node.alloc, Patch::Nothing)),
        Some(fetch) => settle(node, fetch, point, key, found),
    }
}

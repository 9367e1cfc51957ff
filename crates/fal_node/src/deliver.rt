//! An envelope comes to a node.

ghost use Rattle.std.specs.Prelude.{◌≡◌, IfOk, OnErr, IsSome, is_some};
ghost use Rattle.std.specs.Option.{ForSome};
ghost use Rattle.fal_exec.specs.RowCall.{row_names};
ghost use Rattle.fal_wire.specs.Messages.{reading};
ghost use Rattle.fal_node.specs.declared.event.NodeEvent.TheVariants as NodeEvent;
ghost use Rattle.fal_node.specs.Letters.{begun, is_asker as is_asker_of};
ghost use Rattle.fal_node.specs.State.{with_item};
ghost use Rattle.fal_node.specs.Deliver.{take_call as take_call_of, take_question as take_question_of, take_message as take_message_of, take_read};
ghost use Rattle.fal_node.specs.Step.{is_to_node as is_node_of, node_step};
ghost use Rattle.fal_node.specs.Ready.{Does, DoesOf, CanDraft};

use crate::draft::{Draft, quiet_draft};
use crate::install::take_install;
use crate::node::Node;
use crate::operation::{take_commit, take_count, take_operation};
use crate::patch::Patch;
use crate::settle::take_found;
use fal_base::{Actor, CallRec, Envelope, Key, Op, OutOfMemory};
use fal_place::Table;
use fal_wire::{Message, WireFault, decode};

// Whether one row decides the operation.
fn is_row_op(op: &Op) -> bool
    ensures { result ≡ is_some (row_names op.now) }
{
    !matches!(op, Op::Rmdir { .. }) && op.only_path().is_some()
}

// Nothing changes.
pub(crate) fn nothing(node: &Node) -> Draft
    ensures does { Does node.now.state (begun node.now.state) result }
    ensures can { CanDraft node.now.state result.patch }
{
    quiet_draft(node.alloc, Patch::Nothing)
}

// Lets the call go.
fn discard_call(call: CallRec) {
    let _call = call;
}

// Lets the message go.
pub(crate) fn discard_message(message: Message) {
    let _message = message;
}

// A call comes. Only one that a row decides is for a node, and one that was taken before changes nothing.
#[tactic(auto, unfolding(crate::specs::Deliver::admitted))]
fn take_call(node: &Node, call: CallRec) -> Draft
    ensures does { Does node.now.state (begun (take_call_of node.now.state call)) result }
    ensures can { CanDraft node.now.state result.patch }
{
    if is_row_op(&call.op) && node.waiting.takes(&call) {
        quiet_draft(node.alloc, Patch::Admit(call))
    } else {
        discard_call(call);
        nothing(node)
    }
}

// A record comes that is served later, and is of no operation.
#[tactic(auto, unfolding(crate::specs::State::with_item, crate::specs::Deliver::with_operation))]
fn keep(node: &Node, message: Message) -> Draft
    ensures does { Does node.now.state (begun (with_item node.now.state message)) result }
    ensures can { CanDraft node.now.state result.patch }
{
    quiet_draft(
        node.alloc,
        Patch::Keep {
            operation: node.last_operation,
            message,
        },
    )
}

// Whether someone has this number: a node that is there, or the coordinator.
fn is_asker(table: &Table, asker: u8) -> bool
    ensures { result ≡ is_asker_of table.now.nodes asker }
{
    asker < table.nodes() || asker == 255
}

// A question comes. One by an asker that is not there changes nothing.
fn take_question(node: &Node, asker: u8, number: u64, key: Key) -> Draft
    ensures does { Does node.now.state (begun (take_question_of node.now.state asker number key)) result }
    ensures can { CanDraft node.now.state result.patch }
{
    let message = Message::FetchAsk { asker, number, key };
    if is_asker(&node.table, asker) {
        keep(node, message)
    } else {
        discard_message(message);
        nothing(node)
    }
}

// A message comes. One of any other kind than these changes nothing.
fn take_message(node: &Node, point: u64, message: Message) -> Result<Draft, OutOfMemory>
    ensures does { IfOk result (λ draft. Does node.now.state (take_message_of node.now.state point message) draft) }
    ensures can { IfOk result (λ draft. CanDraft node.now.state draft.patch) }
{
    match message {
        Message::Call(call) => Ok(take_call(node, call)),
        Message::FetchAsk { asker, number, key } => Ok(take_question(node, asker, number, key)),
        Message::ListAsk { id, version, dir } => {
            Ok(keep(node, Message::ListAsk { id, version, dir }))
        }
        Message::FetchGot { number, key, found } => take_found(node, number, point, key, found),
        Message::Lock { op, keys } => Ok(take_operation(node, op, Message::Lock { op, keys })),
        Message::Block { op, name } => Ok(take_operation(node, op, Message::Block { op, name })),
        Message::Install {
            op,
            version,
            rule,
            rows,
        } => take_install(node, op, version, rule, rows.as_slice()),
        Message::Count { op, dir } => take_count(node, op, dir),
        Message::Commit { op, updates } => take_commit(node, op, updates.as_slice()),
        other => {
            discard_message(other);
            Ok(nothing(node))
        }
    }
}

// Bytes come. Those that are no record change nothing.
fn take_bytes(node: &Node, point: u64, bytes: &[u8]) -> Result<Draft, OutOfMemory>
    ensures does { IfOk result (λ draft. Does node.now.state (take_read node.now.state point (reading bytes.now)) draft) }
    ensures can { IfOk result (λ draft. CanDraft node.now.state draft.patch) }
{
    match decode(node.alloc, bytes) {
        Ok(message) => take_message(node, point, message),
        Err(WireFault::OutOfMemory) => Err(OutOfMemory),
        Err(_) => Ok(nothing(node)),
    }
}

// Whether this is the node with the number.
fn is_node(to: Actor, number: u8) -> bool
    ensures { result ≡ is_node_of to number }
{
    match to {
        Actor::Client(_) => false,
        Actor::Node(node) => node == number,
        Actor::Coord => false,
    }
}

// An envelope comes. Only one that was sent to this node may.
#[tactic(auto, unfolding(crate::specs::Step::node_step, crate::specs::Deliver::delivered))]
pub(crate) fn deliver(node: &Node, envelope: &Envelope) -> Result<Option<Draft>, OutOfMemory>
    ensures does { IfOk result (λ draft. DoesOf node.now.state (node_step node.now.state (NodeEvent.Deliver envelope.now)) draft) }
    ensures can { IfOk result (λ draft. ForSome draft (λ d. CanDraft node.now.state d.patch)) }
    ensures err { OnErr result (IsSome (node_step node.now.state (NodeEvent.Deliver envelope.now))) }
{
    if !is_node(envelope.to, node.number) {
        return Ok(None);
    }
    let draft = take_bytes(node, envelope.point, envelope.bytes.as_slice())?;
    Ok(Some(draft))
}

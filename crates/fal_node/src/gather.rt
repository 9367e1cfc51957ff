ghost use Rattle.std.specs.Prelude.{◌≡◌, ◌<◌, ◌^◌, ◌++◌, not, map, IfOk, OnOk, OnErr, IsSome, None};
ghost use Rattle.std.specs.List.{All};
ghost use Rattle.std.specs.Option.{ForSome};
ghost use Rattle.fal_wait.specs.Waiting.{IsNumbered, call_with_ticket, count_to};
ghost use Rattle.fal_locks.specs.Locks.{first_shut};
ghost use Rattle.fal_wire.specs.Messages.{Fits};
ghost use Rattle.fal_batch.specs.Plan.{is_idle};
ghost use Rattle.fal_batch.specs.Seen.{plan_seen};
ghost use Rattle.fal_node.specs.Gather.{plan_at, stale_letter as stale_letter_of, away_letter as away_letter_of, away_letters as away_letters_of, ask_letter as ask_letter_of, gather_letters as gather_letters_of, leaving as leaving_of, batch_call as batch_call_of, batch_calls as batch_calls_of, gathered};
ghost use Rattle.fal_node.specs.Sends.{sending_letters, next_number};
ghost use Rattle.fal_node.specs.declared.event.NodeEvent.TheVariants as NodeEvent;
ghost use Rattle.fal_node.specs.Step.{node_step, IsWithin, StaysWithin};
ghost use Rattle.fal_node.specs.Ready.{CanGather, Does, DoesOf};

use crate::blocking::blocked_names;
use crate::draft::Draft;
use crate::node::Node;
use crate::patch::Patch;
use fal_base::{Actor, Barred, CallRec, Duplicate, Items, Key, OutOfMemory, Point};
use fal_batch::{Away, Plan, Planned, Sending, is_plan_idle, plan};
use fal_run::{BatchCall, passed_on};
use fal_wait::Waiting;
use fal_wire::{Letter, Message};
use std::alloc::Global;

// What the node does with its free calls.
#[tactic(auto, unfolding(crate::specs::Gather::plan_at))]
fn plan_now(node: &Node) -> Result<Plan, OutOfMemory>
    ensures plan { IfOk result (λ plan. plan_seen plan ≡ plan_at node.now.state) }
    ensures open { IfOk result (λ plan. first_shut node.now.state.locks plan.keys.items ≡ None) }
    ensures numbered { IsNumbered node.now.state.waiting }
{
    let nothing = Barred::Nothing;
    plan(
        node.alloc,
        &node.waiting,
        &node.replica,
        &node.locks,
        &node.table,
        node.number,
        blocked_names(&node.blocked, &nothing),
        node.limit,
    )
}

// Whether some free call is not skipped. Takes no memory.
#[tactic(auto, unfolding(crate::specs::Gather::plan_at))]
pub(crate) fn can_gather(node: &Node) -> bool
    ensures { result ≡ not (is_idle (plan_at node.now.state)) }
{
    let nothing = Barred::Nothing;
    !is_plan_idle(
        node.alloc,
        &node.waiting,
        &node.replica,
        &node.locks,
        &node.table,
        node.number,
        blocked_names(&node.blocked, &nothing),
        node.limit,
    )
}

// Tells the client of the call that its table is older.
fn stale_letter(node: &Node, call: &CallRec) -> Result<Letter, OutOfMemory>
    ensures { IfOk result (λ letter. letter ≡ stale_letter_of node.now.state call.now) }
{
    let changes = node.table.since(call.version)?;
    Ok(Letter {
        to: Actor::Client(call.id.client),
        point: Point::Here(0),
        message: Message::Stale {
            id: call.id,
            old: call.version,
            new: node.table.version(),
            changes: Items::from_items(changes),
        },
    })
}

// The record for a call that leaves: it goes to a node, or its client is told.
fn away_letter(node: &Node, call: &CallRec, to: Option<u8>) -> Result<Letter, OutOfMemory>
    requires { Fits (away_letter_of node.now.state call.now to).message }
    ensures { IfOk result (λ letter. letter ≡ away_letter_of node.now.state call.now to) }
{
    match to {
        None => stale_letter(node, call),
        Some(to) => Ok(Letter {
            to: Actor::Node(to),
            point: Point::Here(0),
            message: Message::Call(passed_on(call)?),
        }),
    }
}

// Asks the owner of the key for the directory there.
fn ask_letter(node: &Node, number: u64, key: &Key) -> Result<Letter, OutOfMemory>
    ensures { IfOk result (λ letter. letter ≡ ask_letter_of node.now.state number key.now) }
{
    Ok(Letter {
        to: Actor::Node(node.table.owner(key)),
        point: Point::Here(0),
        message: Message::FetchAsk {
            asker: node.number,
            number,
            key: key.copy()?,
        },
    })
}

// Puts the record for a call that leaves at the end, if the call is there.
fn add_away(node: &Node, letters: &mut Vec<Letter>, away: &Away) -> Result<(), OutOfMemory>
    requires { All (λ letter. Fits letter.message) (away_letters_of node.now.state (call_with_ticket node.now.state.waiting away.now.ticket) away.now.to) }
    ensures { OnOk result (letters.new.items ≡ letters.old.items ++ away_letters_of node.now.state (call_with_ticket node.now.state.waiting away.now.ticket) away.now.to) }
{
    match node.waiting.call(away.ticket) {
        None => Ok(()),
        Some(call) => {
            let letter = away_letter(node, call, away.to)?;
            letters.push(letter)?;
            Ok(())
        }
    }
}

// The number after the last one, from 0.
fn number_after(last: Option<u64>) -> u64
    requires { count_to last < 2 ^ 64 }
    ensures { result ≡ count_to last }
{
    match last {
        None => 0,
        Some(last) => last + 1,
    }
}

// Puts the records for one entry of a plan's row at the end. The answer is the number of the last fetch.
fn add_sending(
    node: &Node,
    letters: &mut Vec<Letter>,
    last: Option<u64>,
    sending: &Sending,
) -> Result<Option<u64>, OutOfMemory>
    requires { All (λ letter. Fits letter.message) (sending_letters node.now.state (count_to last) sending.now) }
    ensures letters { OnOk result (letters.new.items ≡ letters.old.items ++ sending_letters node.now.state (count_to last) sending.now) }
    ensures last { IfOk result (λ later. count_to later ≡ next_number (count_to last) sending.now) }
{
    match sending {
        Sending::Away(away) => {
            add_away(node, letters, away)?;
            Ok(last)
        }
        Sending::Fetch(key) => {
            let number = number_after(last);
            let letter = ask_letter(node, number, key)?;
            letters.push(letter)?;
            Ok(Some(number))
        }
    }
}

// The records, in the order in which their calls were met.
fn gather_letters(node: &Node, sends: &[Sending]) -> Result<Vec<Letter>, OutOfMemory>
    requires { All (λ letter. Fits letter.message) (gather_letters_of node.now.state node.now.state.waiting.opened sends.now) }
    ensures { IfOk result (λ letters. letters.items ≡ gather_letters_of node.now.state node.now.state.waiting.opened sends.now) }
{
    let mut letters = Vec::new(node.alloc);
    let mut last = node.waiting.last_fetch();
    let mut rest = sends;
    while let Some((sending, others)) = rest.split_first() {
        last = add_sending(node, &mut letters, last, sending)?;
        rest = others;
    }
    Ok(letters)
}

// Puts the tickets of the calls that leave at the end.
fn add_leaving(tickets: &mut Vec<u64>, calls: &[Away]) -> Result<(), OutOfMemory>
    ensures { OnOk result (tickets.new.items ≡ tickets.old.items ++ map (λ away. away.ticket) calls.now) }
{
    for away in calls {
        tickets.push(away.ticket)?;
    }
    Ok(())
}

// Puts the tickets of the calls that join the batch at the end.
fn add_joining(tickets: &mut Vec<u64>, calls: &[Planned]) -> Result<(), OutOfMemory>
    ensures { OnOk result (tickets.new.items ≡ tickets.old.items ++ map (λ planned. planned.ticket) calls.now) }
{
    for planned in calls {
        tickets.push(planned.ticket)?;
    }
    Ok(())
}

// The tickets of the calls that leave, and of those that join the batch.
fn leaving(alloc: Global, plan: &Plan) -> Result<Vec<u64>, OutOfMemory>
    ensures { IfOk result (λ tickets. tickets.items ≡ leaving_of (plan_seen plan.now)) }
{
    let mut tickets = Vec::new(alloc);
    add_leaving(&mut tickets, &plan.away)?;
    add_joining(&mut tickets, &plan.calls)?;
    Ok(tickets)
}

// Puts the planned call with its record at the end, if the call is there.
fn add_call(
    waiting: &Waiting,
    calls: &mut Items<BatchCall>,
    planned: Planned,
) -> Result<(), OutOfMemory>
    ensures { OnOk result (calls.new ≡ calls.old ++ batch_call_of (call_with_ticket waiting.now.list planned.ticket) planned) }
{
    let Planned {
        ticket,
        denied,
        parent,
        last,
    } = planned;
    match waiting.call(ticket) {
        None => Ok(()),
        Some(call) => {
            calls.push(BatchCall {
                call: call.copy()?,
                denied,
                parent,
                last,
            })?;
            Ok(())
        }
    }
}

// The planned calls with their records.
#[tactic(auto, using(crate::proofs::Gathered::batch_calls_push))]
fn batch_calls(
    alloc: Global,
    waiting: &Waiting,
    calls: Vec<Planned>,
) -> Result<Items<BatchCall>, OutOfMemory>
    ensures { IfOk result (λ batched. batched ≡ batch_calls_of waiting.now.list calls.items) }
{
    let mut batched = Items::new(alloc);
    for planned in calls {
        add_call(waiting, &mut batched, planned)?;
    }
    Ok(batched)
}

// What the plan changes and sends.
#[tactic(auto, unfolding(crate::specs::Gather::gathered))]
fn draft_of_plan(node: &Node, plan: Plan) -> Result<Draft, OutOfMemory>
    requires plan { plan_seen plan ≡ plan_at node.now.state }
    requires open { first_shut node.now.state.locks plan.keys.items ≡ None }
    requires numbered { IsNumbered node.now.state.waiting }
    requires within { IsWithin (gathered node.now.state (plan_at node.now.state)) }
    ensures work { IfOk result (λ draft. Does node.now.state (gathered node.now.state (plan_at node.now.state)) draft) }
    ensures patch { IfOk result (λ draft. CanGather node.now.state draft.patch) }
{
    let letters = gather_letters(node, &plan.sends)?;
    let tickets = leaving(node.alloc, &plan)?;
    let Plan {
        away: _away,
        fetches,
        sends: _sends,
        calls,
        keys,
    } = plan;
    let calls = batch_calls(node.alloc, &node.waiting, calls)?;
    Ok(Draft {
        patch: Patch::Gather {
            fetches,
            tickets,
            calls,
            keys,
        },
        letters,
        notes: Vec::new(node.alloc),
    })
}

// Gathers the free calls, where one of them is not skipped. Only then it may answer want of memory.
#[tactic(auto, using(crate::proofs::Gathered::gather_enabled, crate::proofs::Gathered::gather_idle))]
pub(crate) fn draft_gather(node: &Node) -> Result<Option<Draft>, OutOfMemory>
    requires { StaysWithin node.now.state NodeEvent.Gather }
    ensures does { IfOk result (λ draft. DoesOf node.now.state (node_step node.now.state NodeEvent.Gather) draft) }
    ensures can { IfOk result (λ draft. ForSome draft (λ d. CanGather node.now.state d.patch)) }
    ensures err { OnErr result (IsSome (node_step node.now.state NodeEvent.Gather)) }
{
    if !can_gather(node) {
        return Ok(None);
    }
    let plan = plan_now(node)?;
    let draft = draft_of_plan(node, plan)?;
    Ok(Some(draft))
}

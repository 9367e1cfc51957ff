// The queues of all actors: those of the lanes, that of the coordinator, and those of the nodes.
ghost use Rattle.std.specs.Prelude.{◌≡◌, ◌<◌, ◌≤◌, ◌+◌, ◌-◌, ◌^◌, ◌++◌, ◌∷◌, OnOk, IfOk, slice_get, ℕ, Some, length, take, List, false, true, Bool};
ghost use Rattle.fal_base.specs.declared.event.Actor.{Actor as ActorSeen};
ghost use Rattle.fal_base.specs.declared.event.Envelope.{Envelope as EnvelopeSeen};
ghost use Rattle.fal_story.specs.Fresh.{came, came_with};
ghost use Rattle.fal_story.specs.World.{put};
ghost use Rattle.fal_story.proofs.Drain.Dues.{Rises};
ghost use Rattle.fal_alone.specs.Queues.{QueueSeen, queue_place, given, Holds, HaveRoom, HoldDue, WasSentTo, TakesItsOwn};
ghost use Rattle.fal_alone.specs.Turns.{told_envelopes};

use crate::queue::Queue;
use fal_base::{Actor, Event, OutOfMemory};
use fal_story::Book;

// The place of an actor's queue.
fn place(lanes: usize, nodes: usize, actor: Actor) -> Option<usize>
    requires { lanes + nodes < 2 ^ 64 }
    ensures { result ≡ queue_place lanes nodes actor }
{
    match actor {
        Actor::Client(lane) => {
            if 0 < lane && usize::from(lane) <= lanes {
                Some(usize::from(lane) - 1)
            } else {
                None
            }
        }
        Actor::Node(node) => {
            if usize::from(node) < nodes {
                Some(lanes + 1 + usize::from(node))
            } else {
                None
            }
        }
        Actor::Coord => Some(lanes),
    }
}

/// The queues of the lanes, that of the coordinator, and those of the nodes.
pub fn split(queues: &[Queue], lanes: usize) -> (&[Queue], &Queue, &[Queue])
    requires { lanes < length queues.now }
    ensures all { queues.now ≡ result.0.now ++ result.1.now ∷ result.2.now }
    ensures lanes { length result.0.now ≡ lanes }
{
    let (of_lanes, others) = queues.split_at(lanes);
    let Some((of_coord, of_nodes)) = others.split_first() else {
        unreachable!()
    };
    (of_lanes, of_coord, of_nodes)
}

/// Makes room for so many more in each queue.
pub fn reserve(queues: &mut [Queue], n: usize) -> Result<(), OutOfMemory>
    ensures same { (numbers : ℕ → List ℕ) → Holds numbers queues.old → Holds numbers queues.new }
    ensures room { OnOk result (HaveRoom n queues.new) }
{
    if n == 0 {
        return Ok(());
    }
    for i in 0..queues.len() {
        let queue = &mut queues[i];
        queue.reserve(n)?;
    }
    Ok(())
}

// Puts a number into its actor's queue.
fn give(queues: &mut [Queue], lanes: usize, nodes: usize, to: Actor, number: u64)
    requires size { length queues.old ≡ lanes + 1 + nodes }
    requires room { HaveRoom 1 queues.old }
    ensures items { (numbers : ℕ → List ℕ) → Holds numbers queues.old → Holds (given lanes numbers to number) queues.new }
    ensures room { (n : ℕ) → HaveRoom (n + 1) queues.old → HaveRoom n queues.new }
{
    if let Some(i) = place(lanes, nodes, to) {
        let queue = &mut queues[i];
        queue.push(number);
    }
}

/// Puts the book's envelopes from this number on into the queues.
pub fn catch_up(queues: &mut [Queue], lanes: usize, nodes: usize, book: &Book, from: usize)
    requires size { length queues.old ≡ lanes + 1 + nodes }
    requires queues { HoldDue lanes (came book.now.told.events) (take from (told_envelopes book.now.told)) queues.old }
    requires fresh { (k : ℕ) → from ≤ k → came book.now.told.events k ≡ false }
    requires room { HaveRoom (length (told_envelopes book.now.told) - from) queues.old }
    requires below { from ≤ length (told_envelopes book.now.told) }
    ensures { HoldDue lanes (came book.now.told.events) (told_envelopes book.now.told) queues.new }
{
    let sent = book.sent();
    for i in from..sent.len() {
        give(queues, lanes, nodes, sent[i].to, i as u64);
    }
}

// Takes a number out of an actor's queue.
fn remove(queues: &mut [Queue], lanes: usize, nodes: usize, to: Actor, number: u64)
    requires size { length queues.old ≡ lanes + 1 + nodes }
    requires rises { (place : ℕ) (queue : QueueSeen) → slice_get queues.old place ≡ Some queue → Rises 0 queue.items }
    ensures items { (came : ℕ → Bool) (envelopes : List EnvelopeSeen) → WasSentTo to number envelopes → HoldDue lanes came envelopes queues.old → HoldDue lanes (put came number true) envelopes queues.new }
    ensures room { (n : ℕ) → HaveRoom n queues.old → HaveRoom n queues.new }
{
    if let Some(i) = place(lanes, nodes, to) {
        let queue = &mut queues[i];
        queue.take(number);
    }
}

/// Takes what an event takes out of its actor's queue.
pub fn settle(queues: &mut [Queue], lanes: usize, nodes: usize, event: Event)
    requires size { length queues.old ≡ lanes + 1 + nodes }
    requires rises { (place : ℕ) (queue : QueueSeen) → slice_get queues.old place ≡ Some queue → Rises 0 queue.items }
    ensures items { (came : ℕ → Bool) (envelopes : List EnvelopeSeen) → TakesItsOwn event envelopes → HoldDue lanes came envelopes queues.old → HoldDue lanes (came_with event came) envelopes queues.new }
    ensures room { (n : ℕ) → HaveRoom n queues.old → HaveRoom n queues.new }
{
    match event {
        Event::Get { lane, env } => remove(queues, lanes, nodes, Actor::Client(lane), env),
        Event::Deliver { node, env } => remove(queues, lanes, nodes, Actor::Node(node), env),
        Event::Hear { env } => remove(queues, lanes, nodes, Actor::Coord, env),
        Event::Send { .. } | Event::Gather { .. } | Event::Start => {}
        Event::Exec { .. } | Event::Release { .. } | Event::Serve { .. } => {}
    }
}

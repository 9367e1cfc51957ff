//! What an actor is told of the envelopes that were sent to it.
ghost use Rattle.std.specs.Prelude.{◌≡◌, ℕ, ◌+◌, ◌<◌, ◌≤◌, ◌^◌, [], ◌++◌, length, drop, OnOk, OnErr, IfOk};
ghost use Rattle.fal_story.specs.Actors.{number_of as number_told};
ghost use Rattle.fal_story.specs.Arriving.{arrived, arrived_next, arrives, AreSentInOrder};

use fal_base::{Actor, Duplicate, Envelope, OutOfMemory};
use std::alloc::Global;
use std::marker::Model;

/// An envelope that was sent to the actor, with its number among all that were sent.
#[derive(Debug, Drop)]
pub struct Arrived {
    pub number: u64,
    pub envelope: Envelope,
}

/// The envelopes that an actor was told of, which contracts see as their list.
#[derive(Debug, Drop)]
pub struct Inbox {
    items: Vec<Arrived>,
}

impl Model for Inbox {
    ghost use Rattle.std.specs.Prelude.{List};
    ghost use Rattle.fal_story.specs.declared.inbox.Arrived.{Arrived};

    ghost Value = { List Arrived };

    ghost view = { λ inbox. inbox.items.items };
}

/// The number of an actor, whatever the cluster: node n has n, the coordinator 16, and lane l 16 + l. A node above 15 and a lane that is not 1
/// to 16, which no cluster has, have 255.
pub(crate) fn number_of(actor: Actor) -> u8
    ensures { result ≡ number_told actor }
{
    match actor {
        Actor::Client(lane) => {
            if lane >= 1 && lane <= 16 {
                16 + lane
            } else {
                255
            }
        }
        Actor::Node(node) => { if node < 16 { node } else { 255 } }
        Actor::Coord => 16,
    }
}

// Whether the envelope is to this actor, and was sent by this event or a later one.
fn is_for(envelope: &Envelope, actor: u8, from: u64) -> bool
    ensures { result ≡ arrives actor from envelope.now }
{
    number_of(envelope.to) == actor && envelope.sent_at >= from
}

// The place of the first envelope that was sent by this event or a later one, by binary search.
fn place_from(sent: &[Envelope], from: u64) -> usize
    requires { AreSentInOrder sent.now }
    ensures within { result ≤ length sent.now }
    ensures past { (number : ℕ) → arrived number from sent.now ≡ arrived_next result number from (drop result sent.now) }
{
    let mut low = 0;
    let mut high = sent.len();
    while low < high {
        let middle = low + (high - low) / 2;
        if sent[middle].sent_at < from {
            low = middle + 1;
        } else {
            high = middle;
        }
    }
    low
}

// Those of the envelopes that are to this actor and were sent by this event or a later one, with their numbers. The first of them all has the
// number `next`.
#[tactic(auto, using(crate::proofs::Histories::Arrivals::arrived_yes, crate::proofs::Histories::Arrivals::arrived_no))]
fn arrivals(
    alloc: Global,
    actor: u8,
    from: u64,
    next: u64,
    news: &[Envelope],
) -> Result<Vec<Arrived>, OutOfMemory>
    requires { next + length news.now < 2 ^ 64 }
    ensures { IfOk result (λ items. items.items ≡ arrived_next next actor from news.now) }
{
    let mut items = Vec::new(alloc);
    let mut number = next;
    for envelope in news {
        if is_for(envelope, actor, from) {
            let envelope = envelope.copy()?;
            items.push(Arrived { number, envelope })?;
        }
        number += 1;
    }
    Ok(items)
}

impl Inbox {
    /// Nothing arrived yet. Takes no memory.
    pub fn new(alloc: Global) -> Inbox
        ensures { result ≡ [] }
    {
        Inbox {
            items: Vec::new(alloc),
        }
    }

    /// What arrived, in its order.
    pub fn items(&self) -> &[Arrived]
        ensures { result.now ≡ self.now }
    {
        self.items.as_slice()
    }

    /// Adds those of the envelopes that were sent to this actor by this event or a later one, with their numbers. Want of memory leaves the inbox
    /// as it was.
    pub(crate) fn hear(
        &mut self,
        actor: u8,
        from: u64,
        sent: &[Envelope],
    ) -> Result<(), OutOfMemory>
        requires { AreSentInOrder sent.now }
        ensures ok { OnOk result (self.new ≡ self.old ++ arrived actor from sent.now) }
        ensures err { OnErr result (self.new ≡ self.old) }
    {
        let place = place_from(sent, from);
        let (_, news) = sent.split_at(place);
        let mut items = arrivals(*self.items.allocator(), actor, from, place as u64, news)?;
        self.items.append(&mut items)?;
        Ok(())
    }
}

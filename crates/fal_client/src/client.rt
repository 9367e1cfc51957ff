ghost use Rattle.std.specs.Prelude.{◌≡◌, ◌≤◌, ◌↔◌, IfOk, OnErr, IsErrOf, IsNone, IsSome, length, slice_get, is_none};
ghost use Rattle.std.specs.Option.{option_copied};
ghost use Rattle.fal_base.specs.declared.refuse.Refuse.TheVariants as Refuse;
ghost use Rattle.fal_client.specs.declared.event.ClientEvent.TheVariants as ClientEvent;
ghost use Rattle.fal_client.specs.declared.patch.Patch.TheVariants as Patch;
ghost use Rattle.fal_client.specs.State.{opening_client};
ghost use Rattle.fal_client.specs.Step.{IsInRange, CanMake, is_to_lane as is_lane_of, client_step, read_step};
ghost use Rattle.fal_client.specs.Patch.{IsStep, IsStepIf, IsStepFor, patched};
ghost use Rattle.fal_wire.specs.Messages.{reading};

use crate::current::{Current, Listing, again, begun, opened, with_part};
use crate::event::ClientEvent;
use crate::hear::{hear, nothing};
use crate::news::news_of;
use crate::parts::{Part, Parts};
use crate::patch::{Patch, Prepared};
use crate::send::start;
use fal_base::{Actor, Call, Envelope, OutOfMemory, Refuse};
use fal_place::Table;
use fal_wire::{WireFault, decode};
use std::alloc::Global;
use std::collections::VecDeque;
use std::marker::Model;

/// The client of a lane: which calls it has still to send, which one is under way, and its placement table.
#[derive(Debug, Drop)]
pub struct Client {
    pub(crate) alloc: Global,
    pub(crate) lane: u8,
    pub(crate) nodes: u8,
    pub(crate) table: Table,
    left: VecDeque<Call>,
    pub(crate) seq: u32,
    pub(crate) current: Option<Current>,
}

impl Model for Client {
    ghost use Rattle.std.specs.Prelude.{◌≤◌};
    ghost use Rattle.fal_client.specs.State.{ClientState};

    ghost Value = { ClientState };

    ghost view = { λ c. record { lane = c.lane; nodes = c.nodes; table = c.table; left = c.left.items; seq = c.seq; current = c.current } };

    ghost invariant = { λ c. 1 ≤ c.nodes };
}

// Whether this is the client of the lane.
#[tactic(auto, unfolding(crate::specs::Step::is_to_lane))]
fn is_lane(lane: u8, to: Actor) -> bool
    ensures { result ≡ is_lane_of lane to }
{
    match to {
        Actor::Client(other) => other == lane,
        Actor::Node(_) => false,
        Actor::Coord => false,
    }
}

impl Client {
    /// The client of a lane, 1 to 16, of a cluster with 1 to 16 nodes, before its first event. Takes no memory.
    pub fn new(alloc: Global, lane: u8, nodes: u8, calls: Vec<Call>) -> Client
        requires first { 1 ≤ lane }
        requires last { lane ≤ 16 }
        requires some { 1 ≤ nodes }
        requires few { nodes ≤ 16 }
        ensures { result ≡ opening_client lane nodes calls.items }
    {
        Client {
            alloc,
            lane,
            nodes,
            table: Table::new(alloc, nodes),
            left: VecDeque::from_vec(calls),
            seq: 0,
            current: None,
        }
    }

    /// Its placement table. Takes no memory.
    pub fn table(&self) -> &Table
        ensures { result.now ≡ self.now.table }
    {
        &self.table
    }

    /// Whether no call is under way. Takes no memory.
    pub fn idle(&self) -> bool
        ensures { result ≡ is_none self.now.current }
    {
        self.current.is_none()
    }

    /// How many calls are not yet sent. Takes no memory.
    pub fn left(&self) -> usize
        ensures { result ≡ length self.now.left }
    {
        self.left.len()
    }

    // The next call.
    fn next(&self) -> Option<&Call>
        ensures { option_copied result ≡ slice_get self.now.left 0 }
    {
        self.left.front()
    }

    // Send, if it is enabled.
    #[tactic(auto, unfolding(crate::specs::Step::client_step, crate::specs::Step::sent_next))]
    fn ready_send(&self) -> Result<Option<Prepared>, OutOfMemory>
        requires { CanMake self.now ClientEvent.Send }
        ensures ok { IfOk result (λ p. IsStepIf self.now (client_step self.now ClientEvent.Send) p) }
        ensures err { OnErr result (IsSome (client_step self.now ClientEvent.Send)) }
    {
        if !self.idle() {
            return Ok(None);
        }
        match self.next() {
            None => Ok(None),
            Some(call) => {
                let prepared = start(self, call)?;
                Ok(Some(prepared))
            }
        }
    }

    // What came as bytes.
    #[tactic(auto, unfolding(crate::specs::Step::read_step))]
    fn read(&self, point: u64, bytes: &[u8]) -> Result<Prepared, OutOfMemory>
        requires { IsInRange (read_step self.now point (reading bytes.now)) }
        ensures { IfOk result (λ p. IsStep self.now (read_step self.now point (reading bytes.now)) p) }
    {
        match decode(self.alloc, bytes) {
            Ok(message) => {
                let prepared = hear(self, point, news_of(message))?;
                Ok(prepared)
            }
            Err(WireFault::OutOfMemory) => Err(OutOfMemory),
            Err(_) => Ok(nothing(self)),
        }
    }

    // Get, if it is enabled.
    #[tactic(auto, unfolding(crate::specs::Step::client_step, crate::specs::Step::got))]
    fn ready_get(&self, envelope: &Envelope) -> Result<Option<Prepared>, OutOfMemory>
        requires { CanMake self.now (ClientEvent.Get envelope.now) }
        ensures ok { IfOk result (λ p. IsStepIf self.now (client_step self.now (ClientEvent.Get envelope.now)) p) }
        ensures err { OnErr result (IsSome (client_step self.now (ClientEvent.Get envelope.now))) }
    {
        if !is_lane(self.lane, envelope.to) {
            return Ok(None);
        }
        let prepared = self.read(envelope.point, envelope.bytes.as_slice())?;
        Ok(Some(prepared))
    }

    fn ready_event(&self, event: &ClientEvent) -> Result<Option<Prepared>, OutOfMemory>
        requires { CanMake self.now event.now }
        ensures ok { IfOk result (λ p. IsStepIf self.now (client_step self.now event.now) p) }
        ensures err { OnErr result (IsSome (client_step self.now event.now)) }
    {
        match event {
            ClientEvent::Send => self.ready_send(),
            ClientEvent::Get(envelope) => self.ready_get(envelope),
        }
    }

    /// Prepares the step of an event: all records and all growths. Nothing of the client changes. What the event makes has to be within
    /// the ranges of records and counters.
    ///
    /// Refused with `NotEnabled` exactly where the event may not happen now: a Send while a call is under way or with none left, a Get
    /// of what came to another actor; and with `OutOfMemory`.
    #[tactic(auto, using(crate::proofs::Moves::step_made, crate::proofs::Moves::enabled, crate::proofs::Moves::not_enabled, crate::proofs::Moves::some_enabled))]
    pub fn ready(&mut self, event: &ClientEvent) -> Result<Prepared, Refuse>
        requires { CanMake self.old event.now }
        ensures same { self.new ≡ self.old }
        ensures ok { IfOk result (λ p. IsStepFor self.old event.now p) }
        ensures refused { IsErrOf result Refuse.NotEnabled ↔ IsNone (client_step self.old event.now) }
    {
        match self.ready_event(event) {
            Ok(Some(prepared)) => Ok(prepared),
            Ok(None) => Err(Refuse::NotEnabled),
            Err(OutOfMemory) => Err(Refuse::OutOfMemory),
        }
    }

    // The next call becomes the current one.
    #[tactic(auto, unfolding(crate::specs::Patch::patched))]
    fn start_next(&mut self, seq: u32)
        ensures { self.new ≡ patched self.old (Patch.Start seq) }
    {
        self.seq = seq;
        self.current = begun(self.left.pop_front());
    }

    // The next call is done.
    #[tactic(auto, unfolding(crate::specs::Patch::patched))]
    fn skip_next(&mut self, seq: u32)
        ensures { self.new ≡ patched self.old (Patch.Skip seq) }
    {
        self.seq = seq;
        drop(self.left.pop_front());
        self.current = None;
    }

    // The current call is done.
    #[tactic(auto, unfolding(crate::specs::Patch::patched))]
    fn finish_current(&mut self)
        ensures { self.new ≡ patched self.old Patch.Finish }
    {
        self.current = None;
    }

    #[tactic(auto, unfolding(crate::specs::Patch::patched))]
    fn retry_current(&mut self, attempt: u32, table: Table, parts: Parts)
        ensures { self.new ≡ patched self.old (Patch.Retry attempt table parts) }
    {
        self.table = table;
        self.current = again(self.current.take(), attempt, parts);
    }

    #[tactic(auto, unfolding(crate::specs::Patch::patched))]
    fn open_listing(&mut self, listing: Listing)
        ensures { self.new ≡ patched self.old (Patch.Open listing) }
    {
        self.current = opened(self.current.take(), listing);
    }

    #[tactic(auto, unfolding(crate::specs::Patch::patched))]
    fn join_part(&mut self, node: u8, part: Part)
        ensures { self.new ≡ patched self.old (Patch.Join node part) }
    {
        self.current = with_part(self.current.take(), node, part);
    }

    /// Lays a prepared step on. Takes no memory and can't fail. After the client's own last `ready` it is that event's step.
    #[tactic(auto, unfolding(crate::specs::Patch::patched))]
    pub fn apply(&mut self, prepared: Prepared)
        ensures { self.new ≡ patched self.old prepared.patch }
    {
        match prepared.into_patch() {
            Patch::Keep => {}
            Patch::Start { seq } => self.start_next(seq),
            Patch::Skip { seq } => self.skip_next(seq),
            Patch::Finish => self.finish_current(),
            Patch::Retry {
                attempt,
                table,
                parts,
            } => self.retry_current(attempt, table, parts),
            Patch::Open { listing } => self.open_listing(listing),
            Patch::Join { node, part } => self.join_part(node, part),
        }
    }
}

ghost use Rattle.std.specs.Prelude.{◌≡◌, ◌↔◌, [], OnOk, OnErr, IfOk, IsErrOf, IsNone, Some, None, slice_get};
ghost use Rattle.fal_base.specs.declared.event.Envelope.{Envelope as EnvelopeSeen};
ghost use Rattle.fal_base.specs.declared.event.Event.TheVariants as event_seen;
ghost use Rattle.fal_base.specs.declared.refuse.Refuse.TheVariants as refuse;
ghost use Rattle.fal_story.specs.Clusters.{IsCluster};
ghost use Rattle.fal_alone.specs.Queues.{WasSentTo};
ghost use Rattle.fal_alone.specs.Turns.{told_envelopes, with_event, deed_after, IsEventOfClient, IsEventOfNode, IsEventOfCoord};

use crate::follow::{Counts, follow};
use crate::opening::{clients_of, nodes_of, queues_of};
use crate::queue::Queue;
use fal_base::{Actor, Config, Envelope, Event, Items, OutOfMemory, Refuse};
use fal_client::{Client, ClientEvent};
use fal_coord::{Coord, CoordEvent};
use fal_node::{Node, NodeEvent};
use fal_story::Book;
use std::alloc::Global;
use std::marker::Model;

/// A book with all actors of its cluster, each equal to the replay of its own events. Contracts see the book's cluster and events.
#[derive(Debug, Drop)]
pub struct Cluster {
    pub(crate) alloc: Global,
    pub(crate) book: Book,
    pub(crate) clients: Vec<Client>,
    pub(crate) nodes: Vec<Node>,
    pub(crate) coord: Coord,
    pub(crate) queues: Vec<Queue>,
}

impl Model for Cluster {
    ghost use Rattle.fal_story.specs.Told.{Told};
    ghost use Rattle.fal_alone.specs.Whole.{IsWhole};

    ghost Value = { Told };

    ghost view = { λ c. c.book.told };

    ghost invariant = { λ c. IsWhole c.book.told.config c.book.told.events c.clients.items c.nodes.items c.coord.state c.queues.items };
}

// The same envelope once more, its bytes at once.
fn copy_of(alloc: Global, envelope: &Envelope) -> Result<Envelope, OutOfMemory>
    ensures { IfOk result (λ copied. copied ≡ envelope.now) }
{
    let bytes = Vec::from_slice(alloc, envelope.bytes.as_slice())?;
    Ok(Envelope {
        from: envelope.from,
        to: envelope.to,
        sent_at: envelope.sent_at,
        point: envelope.point,
        bytes: Items::from_items(bytes),
    })
}

// Lets the nodes go.
fn discard_nodes(nodes: Vec<Node>) {
    let _nodes = nodes;
}

// Lets the clients go.
fn discard_clients(clients: Vec<Client>) {
    let _clients = clients;
}

// Lets the queues go.
fn discard_queues(queues: Vec<Queue>) {
    let _queues = queues;
}

impl Cluster {
    /// A cluster before its first event. Answers want of memory where there is too little.
    pub fn new(alloc: Global, config: Config) -> Result<Cluster, OutOfMemory>
        requires { IsCluster config }
        ensures { IfOk result (λ cluster. cluster ≡ record { config = config; events = [] }) }
    {
        let clients = clients_of(alloc, &config)?;
        let nodes = nodes_of(alloc, &config)?;
        let queues = queues_of(alloc, clients.len() + 1 + nodes.len())?;
        let coord = Coord::new(alloc, config.nodes);
        Ok(Cluster {
            alloc,
            book: Book::new(alloc, config),
            clients,
            nodes,
            coord,
            queues,
        })
    }

    /// The legal run so far. Takes no memory.
    pub fn book(&self) -> &Book
        ensures { result.now.told ≡ self.now }
    {
        &self.book
    }

    /// Hands the legal run over. Takes no memory.
    pub fn into_book(self) -> Book
        ensures { result.told ≡ self }
    {
        let Cluster {
            alloc: _,
            book,
            clients,
            nodes,
            coord,
            queues,
        } = self;
        coord.discard();
        discard_nodes(nodes);
        discard_clients(clients);
        discard_queues(queues);
        book
    }

    // The envelope of this number, if it was sent to this actor.
    fn sent_to(&self, actor: Actor, number: u64) -> Result<Option<Envelope>, OutOfMemory>
        ensures some { IfOk result (λ found. (envelope : EnvelopeSeen) → found ≡ Some envelope → (slice_get (told_envelopes self.now) number ≡ Some envelope) × (envelope.to ≡ actor)) }
        ensures none { IfOk result (λ found. found ≡ None → WasSentTo actor number (told_envelopes self.now) → ⊥) }
        ensures err { OnErr result (WasSentTo actor number (told_envelopes self.now)) }
    {
        let Some(envelope) = self.book.sent().get(number as usize) else {
            return Ok(None);
        };
        if envelope.to != actor {
            return Ok(None);
        }
        let copied = copy_of(self.alloc, envelope)?;
        Ok(Some(copied))
    }

    // An event of a lane's client.
    fn client_takes(&mut self, event: Event, lane: u8, own: ClientEvent) -> Result<(), Refuse>
        requires { IsEventOfClient self.old event lane own }
        ensures ok { OnOk result (self.new ≡ with_event self.old event) }
        ensures err { OnErr result (self.new ≡ self.old) }
        ensures refused { IsErrOf result refuse.NotEnabled ↔ IsNone (deed_after self.old event) }
    {
        self.book.legal();
        let counts = Counts {
            lanes: self.clients.len(),
            nodes: self.nodes.len(),
        };
        let place = usize::from(lane);
        if place < 1 || place > counts.lanes {
            return Err(Refuse::NotEnabled);
        }
        let client = &mut self.clients[place - 1];
        follow(
            &mut self.book,
            client,
            self.queues.as_mut_slice(),
            counts,
            event,
            &own,
        )?;
        Ok(())
    }

    // An event of a node.
    fn node_takes(&mut self, event: Event, number: u8, own: NodeEvent) -> Result<(), Refuse>
        requires { IsEventOfNode self.old event number own }
        ensures ok { OnOk result (self.new ≡ with_event self.old event) }
        ensures err { OnErr result (self.new ≡ self.old) }
        ensures refused { IsErrOf result refuse.NotEnabled ↔ IsNone (deed_after self.old event) }
    {
        self.book.legal();
        let counts = Counts {
            lanes: self.clients.len(),
            nodes: self.nodes.len(),
        };
        let place = usize::from(number);
        if place >= counts.nodes {
            return Err(Refuse::NotEnabled);
        }
        let node = &mut self.nodes[place];
        follow(
            &mut self.book,
            node,
            self.queues.as_mut_slice(),
            counts,
            event,
            &own,
        )?;
        Ok(())
    }

    // An event of the coordinator.
    fn coord_takes(&mut self, event: Event, own: CoordEvent) -> Result<(), Refuse>
        requires { IsEventOfCoord self.old event own }
        ensures ok { OnOk result (self.new ≡ with_event self.old event) }
        ensures err { OnErr result (self.new ≡ self.old) }
        ensures refused { IsErrOf result refuse.NotEnabled ↔ IsNone (deed_after self.old event) }
    {
        self.book.legal();
        let counts = Counts {
            lanes: self.clients.len(),
            nodes: self.nodes.len(),
        };
        follow(
            &mut self.book,
            &mut self.coord,
            self.queues.as_mut_slice(),
            counts,
            event,
            &own,
        )?;
        Ok(())
    }

    // A record comes to a lane.
    fn get(&mut self, event: Event, lane: u8, env: u64) -> Result<(), Refuse>
        requires { event ≡ event_seen.Get lane env }
        ensures ok { OnOk result (self.new ≡ with_event self.old event) }
        ensures err { OnErr result (self.new ≡ self.old) }
        ensures refused { IsErrOf result refuse.NotEnabled ↔ IsNone (deed_after self.old event) }
    {
        self.book.legal();
        match self.sent_to(Actor::Client(lane), env) {
            Err(OutOfMemory) => Err(Refuse::OutOfMemory),
            Ok(None) => Err(Refuse::NotEnabled),
            Ok(Some(envelope)) => self.client_takes(event, lane, ClientEvent::Get(envelope)),
        }
    }

    // A record comes to a node.
    fn deliver(&mut self, event: Event, node: u8, env: u64) -> Result<(), Refuse>
        requires { event ≡ event_seen.Deliver node env }
        ensures ok { OnOk result (self.new ≡ with_event self.old event) }
        ensures err { OnErr result (self.new ≡ self.old) }
        ensures refused { IsErrOf result refuse.NotEnabled ↔ IsNone (deed_after self.old event) }
    {
        self.book.legal();
        match self.sent_to(Actor::Node(node), env) {
            Err(OutOfMemory) => Err(Refuse::OutOfMemory),
            Ok(None) => Err(Refuse::NotEnabled),
            Ok(Some(envelope)) => self.node_takes(event, node, NodeEvent::Deliver(envelope)),
        }
    }

    // A record comes to the coordinator.
    fn hear(&mut self, event: Event, env: u64) -> Result<(), Refuse>
        requires { event ≡ event_seen.Hear env }
        ensures ok { OnOk result (self.new ≡ with_event self.old event) }
        ensures err { OnErr result (self.new ≡ self.old) }
        ensures refused { IsErrOf result refuse.NotEnabled ↔ IsNone (deed_after self.old event) }
    {
        self.book.legal();
        match self.sent_to(Actor::Coord, env) {
            Err(OutOfMemory) => Err(Refuse::OutOfMemory),
            Ok(None) => Err(Refuse::NotEnabled),
            Ok(Some(envelope)) => self.coord_takes(event, CoordEvent::Hear(envelope)),
        }
    }

    /// One event, after which the cluster's run has it at its end.
    ///
    /// Refused with `NotEnabled` exactly where the event is not enabled after the run: its lane or node is not there, its envelope was
    /// never sent or was sent to another actor, its batch or item is not there or not ready, or there is nothing to send, to gather or to
    /// start; and with `OutOfMemory`. Then the run stays as it was.
    pub fn step(&mut self, event: Event) -> Result<(), Refuse>
        ensures ok { OnOk result (self.new ≡ with_event self.old event) }
        ensures err { OnErr result (self.new ≡ self.old) }
        ensures refused { IsErrOf result refuse.NotEnabled ↔ IsNone (deed_after self.old event) }
    {
        self.book.legal();
        match event {
            Event::Send { lane } => self.client_takes(event, lane, ClientEvent::Send),
            Event::Get { lane, env } => self.get(event, lane, env),
            Event::Deliver { node, env } => self.deliver(event, node, env),
            Event::Gather { node } => self.node_takes(event, node, NodeEvent::Gather),
            Event::Exec { node, batch } => self.node_takes(event, node, NodeEvent::Exec(batch)),
            Event::Release { node, batch } => {
                self.node_takes(event, node, NodeEvent::Release(batch))
            }
            Event::Serve { node, item } => self.node_takes(event, node, NodeEvent::Serve(item)),
            Event::Hear { env } => self.hear(event, env),
            Event::Start => self.coord_takes(event, CoordEvent::Start),
        }
    }
}

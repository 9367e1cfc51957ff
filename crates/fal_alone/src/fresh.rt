// Which events are fresh.
ghost use Rattle.std.specs.Prelude.{◌≡◌, ◌+◌, ◌++◌, ◌≤◌, IfOk, OnOk, is_some, length, map, slice_get};
ghost use Rattle.fal_client.specs.declared.event.ClientEvent.TheVariants as client_seen;
ghost use Rattle.fal_client.specs.Step.{client_step};
ghost use Rattle.fal_node.specs.Due.{dues};
ghost use Rattle.fal_story.specs.Fresh.{first_reply, fresh_at, came, event_of_node as event_at};
ghost use Rattle.fal_alone.specs.Shown.{arrival as arrival_at, arrivals, gets, node_events, all_gets, all_node_events, starts, coord_events, sends, all_lane_events};
ghost use Rattle.fal_alone.specs.Turns.{world_of};

use crate::cluster::Cluster;
use crate::queue::Queue;
use crate::queues::split;
use fal_base::{Actor, Event, OutOfMemory};
use fal_client::Client;
use fal_coord::Coord;
use fal_node::{Node, OwnEvent};

// A node's own event, as an event of the run.
fn event_of(number: u8, own: OwnEvent) -> Event
    ensures { result ≡ event_at number own }
{
    match own {
        OwnEvent::Gather => Event::Gather { node: number },
        OwnEvent::Exec(batch) => Event::Exec {
            node: number,
            batch,
        },
        OwnEvent::Release(batch) => Event::Release {
            node: number,
            batch,
        },
        OwnEvent::Serve(item) => Event::Serve { node: number, item },
    }
}

// The envelope of this number comes to an actor.
fn arrival(actor: Actor, env: u64) -> Event
    ensures { result ≡ arrival_at actor env }
{
    match actor {
        Actor::Client(lane) => Event::Get { lane, env },
        Actor::Node(node) => Event::Deliver { node, env },
        Actor::Coord => Event::Hear { env },
    }
}

// The first record that comes to a lane.
fn first_get(lane: u8, queue: &Queue) -> Option<Event>
    ensures { result ≡ slice_get (gets lane queue.now) 0 }
{
    let env = queue.first()?;
    Some(Event::Get { lane, env })
}

// The first event of a node: what comes, or else its own.
fn first_at_node(number: u8, queue: &Queue, node: &Node) -> Option<Event>
    ensures { result ≡ slice_get (node_events number queue.now node.now) 0 }
{
    match queue.first() {
        Some(env) => Some(Event::Deliver { node: number, env }),
        None => {
            let own = node.first_due()?;
            Some(event_of(number, own))
        }
    }
}

// The first event of the coordinator: what comes, or else its Start.
fn first_at_coord(queue: &Queue, coord: &Coord) -> Option<Event>
    ensures { result ≡ slice_get (coord_events queue.now coord.now.state) 0 }
{
    match queue.first() {
        Some(env) => Some(Event::Hear { env }),
        None if coord.can_start() => Some(Event::Start),
        None => None,
    }
}

// The first record that comes to these lanes, which are counted from this number.
fn first_of_lanes(lane: u8, queues: &[Queue]) -> Option<Event>
    requires { lane + length queues.now ≤ 256 }
    ensures { result ≡ slice_get (all_gets lane queues.now) 0 }
{
    let mut number = lane;
    let mut rest = queues;
    while let Some((queue, others)) = rest.split_first() {
        if let Some(event) = first_get(number, queue) {
            return Some(event);
        }
        if others.is_empty() {
            return None;
        }
        number += 1;
        rest = others;
    }
    None
}

// The first event of these nodes, which are counted from this number.
fn first_of_nodes(number: u8, queues: &[Queue], nodes: &[Node]) -> Option<Event>
    requires { number + length nodes.now ≤ 255 }
    ensures { result ≡ slice_get (all_node_events number queues.now nodes.now) 0 }
{
    let mut next = number;
    let mut left = queues;
    let mut rest = nodes;
    while let Some((node, others)) = rest.split_first() {
        let Some((queue, other_queues)) = left.split_first() else {
            return None;
        };
        if let Some(event) = first_at_node(next, queue, node) {
            return Some(event);
        }
        next += 1;
        left = other_queues;
        rest = others;
    }
    None
}

// Whether a lane has a Send: no call is under way, and one is left.
fn can_send(client: &Client) -> bool
    ensures { result ≡ is_some (client_step client.now client_seen.Send) }
{
    client.idle() && client.left() > 0
}

// Puts a lane's Send at the end, where it has one.
fn push_send(events: &mut Vec<Event>, lane: u8, client: &Client) -> Result<(), OutOfMemory>
    ensures { OnOk result (events.new.items ≡ events.old.items ++ sends lane client.now) }
{
    if can_send(client) {
        events.push(Event::Send { lane })?;
    }
    Ok(())
}

// Puts what comes to an actor at the end.
fn push_arrivals(events: &mut Vec<Event>, actor: Actor, queue: &Queue) -> Result<(), OutOfMemory>
    ensures { OnOk result (events.new.items ≡ events.old.items ++ arrivals actor queue.now) }
{
    let mut at = 0;
    while let Some(env) = queue.get(at) {
        events.push(arrival(actor, env))?;
        at += 1;
    }
    Ok(())
}

// Puts a node's own events at the end.
fn push_dues(events: &mut Vec<Event>, number: u8, node: &Node) -> Result<(), OutOfMemory>
    ensures { OnOk result (events.new.items ≡ events.old.items ++ map (λ own. event_at number own) (dues node.now.state)) }
{
    for own in node.dues()? {
        events.push(event_of(number, own))?;
    }
    Ok(())
}

// Puts the coordinator's Start at the end, where it has one.
fn push_start(events: &mut Vec<Event>, coord: &Coord) -> Result<(), OutOfMemory>
    ensures { OnOk result (events.new.items ≡ events.old.items ++ starts coord.now.state) }
{
    if coord.can_start() {
        events.push(Event::Start)?;
    }
    Ok(())
}

// Puts all that is fresh at these lanes, which are counted from 1, at the end.
fn push_lanes(
    events: &mut Vec<Event>,
    queues: &[Queue],
    clients: &[Client],
) -> Result<(), OutOfMemory>
    requires { length clients.now ≤ 16 }
    ensures { OnOk result (events.new.items ≡ events.old.items ++ all_lane_events 1 queues.now clients.now) }
{
    let mut lane = 1;
    let mut left = queues;
    let mut rest = clients;
    while let Some((client, others)) = rest.split_first() {
        let Some((queue, other_queues)) = left.split_first() else {
            return Ok(());
        };
        push_send(events, lane, client)?;
        push_arrivals(events, Actor::Client(lane), queue)?;
        lane += 1;
        left = other_queues;
        rest = others;
    }
    Ok(())
}

// Puts all that is fresh at these nodes, which are counted from 0, at the end.
fn push_nodes(events: &mut Vec<Event>, queues: &[Queue], nodes: &[Node]) -> Result<(), OutOfMemory>
    requires { length nodes.now ≤ 16 }
    ensures { OnOk result (events.new.items ≡ events.old.items ++ all_node_events 0 queues.now nodes.now) }
{
    let mut number = 0;
    let mut left = queues;
    let mut rest = nodes;
    while let Some((node, others)) = rest.split_first() {
        let Some((queue, other_queues)) = left.split_first() else {
            return Ok(());
        };
        push_arrivals(events, Actor::Node(number), queue)?;
        push_dues(events, number, node)?;
        number += 1;
        left = other_queues;
        rest = others;
    }
    Ok(())
}

// Puts all that is fresh at the coordinator at the end.
fn push_coord(events: &mut Vec<Event>, queue: &Queue, coord: &Coord) -> Result<(), OutOfMemory>
    ensures { OnOk result (events.new.items ≡ events.old.items ++ coord_events queue.now coord.now.state) }
{
    push_arrivals(events, Actor::Coord, queue)?;
    push_start(events, coord)?;
    Ok(())
}

impl Cluster {
    /// The first fresh event other than a Send: by lane what comes to it, then by node what comes to it and its own events, and then what
    /// comes to the coordinator and its Start. A record is fresh where it did not come before. None exactly where no such event is fresh. It
    /// looks at no old envelope, and takes no memory.
    pub fn enabled(&self) -> Option<Event>
        ensures { result ≡ first_reply self.now.config self.now.events }
    {
        self.book.legal();
        let (of_lanes, of_coord, of_nodes) = split(&self.queues, self.clients.len());
        match first_of_lanes(1, of_lanes) {
            Some(event) => Some(event),
            None => match first_of_nodes(0, of_nodes, &self.nodes) {
                Some(event) => Some(event),
                None => first_at_coord(of_coord, &self.coord),
            },
        }
    }

    /// All fresh events, in their order: by lane its Send and then what comes to it, by node what comes to it and then its own events, and
    /// then what comes to the coordinator and its Start. Answers want of memory where there is too little.
    pub fn fresh(&self) -> Result<Vec<Event>, OutOfMemory>
        ensures { IfOk result (λ events. events.items ≡ fresh_at self.now.config (world_of self.now) (came self.now.events)) }
    {
        self.book.legal();
        let mut events = Vec::new(self.alloc);
        let (of_lanes, of_coord, of_nodes) = split(&self.queues, self.clients.len());
        push_lanes(&mut events, of_lanes, &self.clients)?;
        push_nodes(&mut events, of_nodes, &self.nodes)?;
        push_coord(&mut events, of_coord, &self.coord)?;
        Ok(events)
    }
}

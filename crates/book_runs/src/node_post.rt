//! A node at its seat.
ghost use Rattle.std.specs.Prelude.{◌≡◌, IfOk, IsTrue};
ghost use Rattle.fal_story.specs.Clusters.{IsCluster, is_node};
ghost use Rattle.fal_story.specs.Actors.{node_number};
ghost use Rattle.fal_book.specs.Sitting.{IsSameSitting};
ghost use Rattle.book_runs.specs.Posts.{IsNodePost, IsOwnOfNode, IsNew};

use crate::heard::heard;
use crate::looking::look_on;
use fal_base::{Config, Event, OutOfMemory, Refuse};
use fal_book::{ActorSeat, BookLock};
use fal_node::{Node, NodeEvent};
use fal_story::{Book, Inbox};
use std::alloc::Global;
use std::marker::Model;
use std::sync::Wait;

/// A node at its seat, with what it has heard. Contracts see its seat.
#[derive(Drop)]
pub struct NodePost {
    number: u8,
    node: Node,
    seat: ActorSeat<Book>,
    inbox: Inbox,
}

impl Model for NodePost {
    ghost use Rattle.book_runs.specs.Posts.{Seated, IsNodePost};

    ghost Value = { Seated };

    ghost view = { λ p. p.seat };

    ghost invariant = { λ p. IsNodePost p.number p.node.state p.seat p.inbox };
}

// What the event is to this node.
fn own_event(inbox: &Inbox, number: u8, event: Event) -> Result<NodeEvent, Refuse>
    ensures { IfOk result (IsOwnOfNode inbox.now number event) }
{
    match event {
        Event::Deliver { node, env } if node == number => match heard(inbox, env) {
            Ok(Some(envelope)) => Ok(NodeEvent::Deliver(envelope)),
            Ok(None) => Err(Refuse::NotEnabled),
            Err(OutOfMemory) => Err(Refuse::OutOfMemory),
        },
        Event::Gather { node } if node == number => Ok(NodeEvent::Gather),
        Event::Exec { node, batch } if node == number => Ok(NodeEvent::Exec(batch)),
        Event::Release { node, batch } if node == number => Ok(NodeEvent::Release(batch)),
        Event::Serve { node, item } if node == number => Ok(NodeEvent::Serve(item)),
        _ => Err(Refuse::NotEnabled),
    }
}

// Enters this event of the node: it is made ready, entered through the lock, and made.
fn enter_own<R: Wait>(
    rt: &R,
    lock: &BookLock<Book>,
    number: u8,
    node: &mut Node,
    seat: &mut ActorSeat<Book>,
    inbox: &Inbox,
    event: Event,
    own: &NodeEvent,
) -> Result<u64, Refuse>
    requires lock { seat.old.lock ≡ lock.now.table }
    requires post { IsNodePost number node.old.state seat.old inbox.now }
    requires own { IsOwnOfNode inbox.now number event own.now }
    ensures same { IsSameSitting seat.old seat.new }
    ensures post { IsNodePost number node.new.state seat.new inbox.now }
{
    seat.number();
    let mut prepared = node.ready(own)?;
    let outputs = prepared.take_outputs();
    match lock.enter(rt, seat, event, outputs) {
        Ok(at) => {
            node.apply(prepared);
            Ok(at)
        }
        Err(_) => Err(Refuse::OutOfMemory),
    }
}

impl NodePost {
    /// A node before its first event at a new seat, with nothing heard, or want of memory.
    pub fn new(
        alloc: Global,
        config: &Config,
        number: u8,
        seat: ActorSeat<Book>,
    ) -> Result<NodePost, OutOfMemory>
        requires cluster { IsCluster config.now }
        requires there { IsTrue (is_node config.now number) }
        requires new { IsNew config.now (node_number number) seat }
        ensures { IfOk result (λ post. post.lock ≡ seat.lock) }
    {
        let node = Node::new(alloc, number, config.nodes, config.batch)?;
        Ok(NodePost {
            number,
            node,
            seat,
            inbox: Inbox::new(alloc),
        })
    }

    /// Looks at the book, and hears what was sent to this node. Answers how many events the book has.
    pub fn look<R: Wait>(&mut self, rt: &R, lock: &BookLock<Book>) -> Result<u64, OutOfMemory>
        requires { self.old.lock ≡ lock.now.table }
        ensures { IsSameSitting self.old self.new }
    {
        look_on(rt, lock, &mut self.seat, &mut self.inbox)
    }

    /// Enters this event. Answers its number; `NotEnabled` where it is another actor's, where its envelope was not heard, and where the node may not do it now.
    pub fn enter<R: Wait>(
        &mut self,
        rt: &R,
        lock: &BookLock<Book>,
        event: Event,
    ) -> Result<u64, Refuse>
        requires { self.old.lock ≡ lock.now.table }
        ensures { IsSameSitting self.old self.new }
    {
        let own = own_event(&self.inbox, self.number, event)?;
        enter_own(
            rt,
            lock,
            self.number,
            &mut self.node,
            &mut self.seat,
            &self.inbox,
            event,
            &own,
        )
    }

    /// Hands the seat over. The node is let go.
    pub fn into_seat(self) -> ActorSeat<Book>
        ensures { result ≡ self }
    {
        let NodePost {
            number: _,
            node: _node,
            seat,
            inbox: _inbox,
        } = self;
        seat
    }
}

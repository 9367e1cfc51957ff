//! All actors of a cluster at their seats.
ghost use Rattle.std.specs.Prelude.{◌≡◌, ◌-◌, ◌<◌, ◌≤◌, All, IfOk, OnOk, length};
ghost use Rattle.std.specs.Option.{ForSome};
ghost use Rattle.fal_story.specs.Clusters.{IsCluster};
ghost use Rattle.book_runs.specs.Posts.{IsNewAt, IsAt};
ghost use Rattle.book_runs.specs.Whole.{AreAt};

use crate::client_post::ClientPost;
use crate::coord_post::CoordPost;
use crate::node_post::NodePost;
use fal_base::{Config, Event, OutOfMemory, Refuse};
use fal_book::{ActorSeat, BookLock};
use fal_story::Book;
use std::alloc::Global;
use std::mem;
use std::sync::Wait;

/// The nodes from 0, the clients of the lanes from 1 and the coordinator, at their seats, and the seats that no actor of the cluster has.
#[derive(Drop)]
pub struct Posts {
    pub nodes: Vec<NodePost>,
    pub clients: Vec<ClientPost>,
    pub coord: Option<CoordPost>,
    pub rest: Vec<ActorSeat<Book>>,
}

impl Posts {
    /// Lets the actors go, with their seats.
    pub fn discard(self) {
        let Posts {
            nodes: _nodes,
            clients: _clients,
            coord,
            rest: _rest,
        } = self;
        if let Some(post) = coord {
            post.discard();
        }
    }
}

// Gives a seat to a node.
#[tactic(auto, using(crate::proofs::Nodes::node_seat))]
fn give_node(
    alloc: Global,
    lock: &BookLock<Book>,
    config: &Config,
    number: u8,
    seat: ActorSeat<Book>,
    nodes: &mut Vec<NodePost>,
) -> Result<(), OutOfMemory>
    requires cluster { IsCluster config.now }
    requires new { IsNewAt config.now lock.now.table seat }
    requires number { number ≡ seat.number }
    requires there { number < config.now.nodes }
    requires at { All (IsAt lock.now.table) nodes.old.items }
    ensures { All (IsAt lock.now.table) nodes.new.items }
{
    let post = NodePost::new(alloc, config, number, seat)?;
    nodes.push(post)?;
    Ok(())
}

// Gives a seat to a client. Its lane is the seat's number from 16 on.
#[tactic(auto, using(crate::proofs::Clients::client_seat))]
fn give_client(
    alloc: Global,
    lock: &BookLock<Book>,
    config: &Config,
    number: u8,
    seat: ActorSeat<Book>,
    clients: &mut Vec<ClientPost>,
) -> Result<(), OutOfMemory>
    requires cluster { IsCluster config.now }
    requires new { IsNewAt config.now lock.now.table seat }
    requires number { number ≡ seat.number }
    requires above { 16 < number }
    requires there { number - 16 ≤ length config.now.lanes }
    requires at { All (IsAt lock.now.table) clients.old.items }
    ensures { All (IsAt lock.now.table) clients.new.items }
{
    let post = ClientPost::new(alloc, config, number - 16, seat)?;
    clients.push(post)?;
    Ok(())
}

// Gives a seat to the coordinator.
#[tactic(auto, using(crate::proofs::Coords::coord_seat))]
fn give_coord(
    alloc: Global,
    lock: &BookLock<Book>,
    config: &Config,
    seat: ActorSeat<Book>,
    coord: &mut Option<CoordPost>,
)
    requires cluster { IsCluster config.now }
    requires new { IsNewAt config.now lock.now.table seat }
    requires number { seat.number ≡ 16 }
    ensures { ForSome coord.new (IsAt lock.now.table) }
{
    let post = CoordPost::new(alloc, config, seat);
    if let Some(earlier) = mem::replace(coord, Some(post)) {
        earlier.discard();
    }
}

// Gives one more seat to its actor.
fn give(
    alloc: Global,
    lock: &BookLock<Book>,
    config: &Config,
    seat: ActorSeat<Book>,
    posts: &mut Posts,
) -> Result<(), OutOfMemory>
    requires cluster { IsCluster config.now }
    requires new { IsNewAt config.now lock.now.table seat }
    requires at { AreAt lock.now.table posts.old }
    ensures { AreAt lock.now.table posts.new }
{
    let number = seat.number();
    if number < config.nodes {
        return give_node(alloc, lock, config, number, seat, &mut posts.nodes);
    }
    if number == 16 {
        give_coord(alloc, lock, config, seat, &mut posts.coord);
        return Ok(());
    }
    if number > 16 && usize::from(number - 16) <= config.lanes.len() {
        return give_client(alloc, lock, config, number, seat, &mut posts.clients);
    }
    posts.rest.push(seat)?;
    Ok(())
}

/// Each seat is given to its actor.
pub fn post_all(
    alloc: Global,
    lock: &BookLock<Book>,
    config: &Config,
    seats: Vec<ActorSeat<Book>>,
) -> Result<Posts, OutOfMemory>
    requires cluster { IsCluster config.now }
    requires new { All (IsNewAt config.now lock.now.table) seats.items }
    ensures { IfOk result (AreAt lock.now.table) }
{
    let mut posts = Posts {
        nodes: Vec::new(alloc),
        clients: Vec::new(alloc),
        coord: None,
        rest: Vec::new(alloc),
    };
    for seat in seats {
        if let Err(OutOfMemory) = give(alloc, lock, config, seat, &mut posts) {
            posts.discard();
            return Err(OutOfMemory);
        }
    }
    Ok(posts)
}

/// The event's actor looks at the book and enters the event. Refused where the actor is not there, and where it may not make the event.
pub fn take<R: Wait>(
    rt: &R,
    lock: &BookLock<Book>,
    posts: &mut Posts,
    event: Event,
) -> Result<u64, Refuse>
    requires { AreAt lock.now.table posts.old }
    ensures { AreAt lock.now.table posts.new }
{
    match event {
        Event::Send { lane } | Event::Get { lane, .. } => {
            let place = usize::from(lane);
            if place < 1 || place > posts.clients.len() {
                return Err(Refuse::NotEnabled);
            }
            let post = &mut posts.clients[place - 1];
            client_takes(rt, lock, post, event)
        }
        Event::Deliver { node, .. } | Event::Gather { node } | Event::Exec { node, .. } => {
            node_at(rt, lock, &mut posts.nodes, node, event)
        }
        Event::Release { node, .. } | Event::Serve { node, .. } => {
            node_at(rt, lock, &mut posts.nodes, node, event)
        }
        Event::Hear { .. } | Event::Start => match &mut posts.coord {
            Some(post) => coord_takes(rt, lock, post, event),
            None => Err(Refuse::NotEnabled),
        },
    }
}

// A client looks at the book and enters the event.
fn client_takes<R: Wait>(
    rt: &R,
    lock: &BookLock<Book>,
    post: &mut ClientPost,
    event: Event,
) -> Result<u64, Refuse>
    requires { post.old.lock ≡ lock.now.table }
    ensures { post.new.lock ≡ lock.now.table }
{
    match post.look(rt, lock) {
        Ok(_) => post.enter(rt, lock, event),
        Err(OutOfMemory) => Err(Refuse::OutOfMemory),
    }
}

// The coordinator looks at the book and enters the event.
fn coord_takes<R: Wait>(
    rt: &R,
    lock: &BookLock<Book>,
    post: &mut CoordPost,
    event: Event,
) -> Result<u64, Refuse>
    requires { post.old.lock ≡ lock.now.table }
    ensures { post.new.lock ≡ lock.now.table }
{
    match post.look(rt, lock) {
        Ok(_) => post.enter(rt, lock, event),
        Err(OutOfMemory) => Err(Refuse::OutOfMemory),
    }
}

// A node looks at the book and enters the event.
fn node_takes<R: Wait>(
    rt: &R,
    lock: &BookLock<Book>,
    post: &mut NodePost,
    event: Event,
) -> Result<u64, Refuse>
    requires { post.old.lock ≡ lock.now.table }
    ensures { post.new.lock ≡ lock.now.table }
{
    match post.look(rt, lock) {
        Ok(_) => post.enter(rt, lock, event),
        Err(OutOfMemory) => Err(Refuse::OutOfMemory),
    }
}

// The node of this number looks at the book and enters the event.
fn node_at<R: Wait>(
    rt: &R,
    lock: &BookLock<Book>,
    nodes: &mut Vec<NodePost>,
    number: u8,
    event: Event,
) -> Result<u64, Refuse>
    requires { All (IsAt lock.now.table) nodes.old.items }
    ensures { All (IsAt lock.now.table) nodes.new.items }
{
    let place = usize::from(number);
    if place >= nodes.len() {
        return Err(Refuse::NotEnabled);
    }
    let post = &mut nodes[place];
    node_takes(rt, lock, post, event)
}

// These seats and the coordinator's, if it has one.
fn with_coord(
    lock: &BookLock<Book>,
    rest: Vec<ActorSeat<Book>>,
    coord: Option<CoordPost>,
) -> Result<Vec<ActorSeat<Book>>, OutOfMemory>
    requires rest { All (IsAt lock.now.table) rest.items }
    requires coord { ForSome coord (IsAt lock.now.table) }
    ensures { IfOk result (λ seats. All (IsAt lock.now.table) seats.items) }
{
    let mut seats = rest;
    if let Some(post) = coord {
        seats.push(post.into_seat())?;
    }
    Ok(seats)
}

/// All seats once more, where there is the memory for them.
pub fn seats_of(lock: &BookLock<Book>, posts: Posts) -> Result<Vec<ActorSeat<Book>>, OutOfMemory>
    requires { AreAt lock.now.table posts }
    ensures { IfOk result (λ seats. All (IsAt lock.now.table) seats.items) }
{
    let Posts {
        nodes,
        clients,
        coord,
        rest,
    } = posts;
    let mut seats = with_coord(lock, rest, coord)?;
    for post in nodes {
        seats.push(post.into_seat())?;
    }
    for post in clients {
        seats.push(post.into_seat())?;
    }
    Ok(seats)
}

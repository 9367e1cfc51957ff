//! A client at its seat.
ghost use Rattle.std.specs.Prelude.{◌≡◌, IfOk, IsTrue};
ghost use Rattle.fal_story.specs.Clusters.{IsCluster, calls_of_lane, is_lane};
ghost use Rattle.fal_story.specs.Actors.{client_number};
ghost use Rattle.fal_book.specs.Sitting.{IsSameSitting};
ghost use Rattle.book_runs.specs.Posts.{IsClientPost, IsOwnOfClient, IsNew};

use crate::heard::heard;
use crate::looking::look_on;
use fal_base::{Call, Config, Duplicate, Event, OutOfMemory, Refuse};
use fal_book::{ActorSeat, BookLock};
use fal_client::{Client, ClientEvent};
use fal_story::{Book, Inbox};
use std::alloc::Global;
use std::marker::Model;
use std::sync::Wait;

/// A client at its seat, with what it has heard. Contracts see its seat.
#[derive(Drop)]
pub struct ClientPost {
    lane: u8,
    client: Client,
    seat: ActorSeat<Book>,
    inbox: Inbox,
}

impl Model for ClientPost {
    ghost use Rattle.book_runs.specs.Posts.{Seated, IsClientPost};

    ghost Value = { Seated };

    ghost view = { λ p. p.seat };

    ghost invariant = { λ p. IsClientPost p.lane p.client p.seat p.inbox };
}

// What the event is to the client of this lane.
fn own_event(inbox: &Inbox, own: u8, event: Event) -> Result<ClientEvent, Refuse>
    ensures { IfOk result (IsOwnOfClient inbox.now own event) }
{
    match event {
        Event::Get { lane, env } if lane == own => match heard(inbox, env) {
            Ok(Some(envelope)) => Ok(ClientEvent::Get(envelope)),
            Ok(None) => Err(Refuse::NotEnabled),
            Err(OutOfMemory) => Err(Refuse::OutOfMemory),
        },
        Event::Send { lane } if lane == own => Ok(ClientEvent::Send),
        _ => Err(Refuse::NotEnabled),
    }
}

// Enters this event of the client: it is made ready, entered through the lock, and laid on.
fn enter_own<R: Wait>(
    rt: &R,
    lock: &BookLock<Book>,
    lane: u8,
    client: &mut Client,
    seat: &mut ActorSeat<Book>,
    inbox: &Inbox,
    event: Event,
    own: &ClientEvent,
) -> Result<u64, Refuse>
    requires lock { seat.old.lock ≡ lock.now.table }
    requires post { IsClientPost lane client.old seat.old inbox.now }
    requires own { IsOwnOfClient inbox.now lane event own.now }
    ensures same { IsSameSitting seat.old seat.new }
    ensures post { IsClientPost lane client.new seat.new inbox.now }
{
    seat.number();
    let mut prepared = client.ready(own)?;
    let outputs = prepared.take_outputs();
    match lock.enter(rt, seat, event, outputs) {
        Ok(at) => {
            client.apply(prepared);
            Ok(at)
        }
        Err(_) => Err(Refuse::OutOfMemory),
    }
}

// The calls of a lane.
fn calls_of(config: &Config, lane: u8) -> Result<Vec<Call>, OutOfMemory>
    requires { IsTrue (is_lane config.now lane) }
    ensures { IfOk result (λ calls. calls.items ≡ calls_of_lane config.now lane) }
{
    let Some(calls) = config.lanes.get(usize::from(lane) - 1) else {
        unreachable!()
    };
    let calls = calls.copy()?;
    Ok(calls.into_items())
}

impl ClientPost {
    /// The client of a lane before its first event at a new seat, with nothing heard, or want of memory.
    pub fn new(
        alloc: Global,
        config: &Config,
        lane: u8,
        seat: ActorSeat<Book>,
    ) -> Result<ClientPost, OutOfMemory>
        requires cluster { IsCluster config.now }
        requires there { IsTrue (is_lane config.now lane) }
        requires new { IsNew config.now (client_number lane) seat }
        ensures { IfOk result (λ post. post.lock ≡ seat.lock) }
    {
        let calls = calls_of(config, lane)?;
        Ok(ClientPost {
            lane,
            client: Client::new(alloc, lane, config.nodes, calls),
            seat,
            inbox: Inbox::new(alloc),
        })
    }

    /// Looks at the book, and hears what was sent to this client. Answers how many events the book has.
    pub fn look<R: Wait>(&mut self, rt: &R, lock: &BookLock<Book>) -> Result<u64, OutOfMemory>
        requires { self.old.lock ≡ lock.now.table }
        ensures { IsSameSitting self.old self.new }
    {
        look_on(rt, lock, &mut self.seat, &mut self.inbox)
    }

    /// Enters this event. Answers its number; `NotEnabled` where it is another actor's, where its envelope was not heard, and where the client may not do it now.
    pub fn enter<R: Wait>(
        &mut self,
        rt: &R,
        lock: &BookLock<Book>,
        event: Event,
    ) -> Result<u64, Refuse>
        requires { self.old.lock ≡ lock.now.table }
        ensures { IsSameSitting self.old self.new }
    {
        let own = own_event(&self.inbox, self.lane, event)?;
        enter_own(
            rt,
            lock,
            self.lane,
            &mut self.client,
            &mut self.seat,
            &self.inbox,
            event,
            &own,
        )
    }

    /// Hands the seat over. The client is let go.
    pub fn into_seat(self) -> ActorSeat<Book>
        ensures { result ≡ self }
    {
        let ClientPost {
            lane: _,
            client: _client,
            seat,
            inbox: _inbox,
        } = self;
        seat
    }
}

//! The coordinator at its seat.
ghost use Rattle.std.specs.Prelude.{◌≡◌, IfOk};
ghost use Rattle.fal_story.specs.Clusters.{IsCluster};
ghost use Rattle.fal_book.specs.Sitting.{IsSameSitting};
ghost use Rattle.book_runs.specs.Posts.{IsCoordPost, IsOwnOfCoord, IsNew};

use crate::heard::heard;
use crate::looking::look_on;
use fal_base::{Config, Event, OutOfMemory, Refuse};
use fal_book::{ActorSeat, BookLock};
use fal_coord::{Coord, CoordEvent};
use fal_story::{Book, Inbox};
use std::alloc::Global;
use std::marker::Model;
use std::sync::Wait;

/// The coordinator at its seat, with what it has heard. Contracts see its seat.
#[derive(Drop)]
pub struct CoordPost {
    coord: Coord,
    seat: ActorSeat<Book>,
    inbox: Inbox,
}

impl Model for CoordPost {
    ghost use Rattle.book_runs.specs.Posts.{Seated, IsCoordPost};

    ghost Value = { Seated };

    ghost view = { λ p. p.seat };

    ghost invariant = { λ p. IsCoordPost p.coord.state p.seat p.inbox };
}

// What the event is to the coordinator.
fn own_event(inbox: &Inbox, event: Event) -> Result<CoordEvent, Refuse>
    ensures { IfOk result (IsOwnOfCoord inbox.now event) }
{
    match event {
        Event::Hear { env } => match heard(inbox, env) {
            Ok(Some(envelope)) => Ok(CoordEvent::Hear(envelope)),
            Ok(None) => Err(Refuse::NotEnabled),
            Err(OutOfMemory) => Err(Refuse::OutOfMemory),
        },
        Event::Start => Ok(CoordEvent::Start),
        _ => Err(Refuse::NotEnabled),
    }
}

// Enters this event of the coordinator: it is made ready, entered through the lock, and made.
fn enter_own<R: Wait>(
    rt: &R,
    lock: &BookLock<Book>,
    coord: &mut Coord,
    seat: &mut ActorSeat<Book>,
    inbox: &Inbox,
    event: Event,
    own: &CoordEvent,
) -> Result<u64, Refuse>
    requires lock { seat.old.lock ≡ lock.now.table }
    requires post { IsCoordPost coord.old.state seat.old inbox.now }
    requires own { IsOwnOfCoord inbox.now event own.now }
    ensures same { IsSameSitting seat.old seat.new }
    ensures post { IsCoordPost coord.new.state seat.new inbox.now }
{
    seat.number();
    let mut prepared = coord.ready(own)?;
    let outputs = prepared.take_outputs();
    match lock.enter(rt, seat, event, outputs) {
        Ok(at) => {
            coord.apply(prepared);
            Ok(at)
        }
        Err(_) => Err(Refuse::OutOfMemory),
    }
}

impl CoordPost {
    /// The coordinator before its first event at a new seat, with nothing heard. Takes no memory.
    pub fn new(alloc: Global, config: &Config, seat: ActorSeat<Book>) -> CoordPost
        requires cluster { IsCluster config.now }
        requires new { IsNew config.now 16 seat }
        ensures { result.lock ≡ seat.lock }
    {
        CoordPost {
            coord: Coord::new(alloc, config.nodes),
            seat,
            inbox: Inbox::new(alloc),
        }
    }

    /// Looks at the book, and hears what was sent to the coordinator. Answers how many events the book has.
    pub fn look<R: Wait>(&mut self, rt: &R, lock: &BookLock<Book>) -> Result<u64, OutOfMemory>
        requires { self.old.lock ≡ lock.now.table }
        ensures { IsSameSitting self.old self.new }
    {
        look_on(rt, lock, &mut self.seat, &mut self.inbox)
    }

    /// Enters this event. Answers its number; `NotEnabled` where it is another actor's, where its envelope was not heard, and where the coordinator may not do it now.
    pub fn enter<R: Wait>(
        &mut self,
        rt: &R,
        lock: &BookLock<Book>,
        event: Event,
    ) -> Result<u64, Refuse>
        requires { self.old.lock ≡ lock.now.table }
        ensures { IsSameSitting self.old self.new }
    {
        let own = own_event(&self.inbox, event)?;
        enter_own(
            rt,
            lock,
            &mut self.coord,
            &mut self.seat,
            &self.inbox,
            event,
            &own,
        )
    }

    /// Hands the seat over. The coordinator is let go.
    pub fn into_seat(self) -> ActorSeat<Book>
        ensures { result ≡ self }
    {
        let CoordPost {
            coord,
            seat,
            inbox: _inbox,
        } = self;
        coord.discard();
        seat
    }

    /// Lets the coordinator go, with its seat.
    pub fn discard(self) {
        let CoordPost {
            coord,
            seat: _seat,
            inbox: _inbox,
        } = self;
        coord.discard();
    }
}

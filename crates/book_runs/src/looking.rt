//! An actor at its seat looks at the book.
ghost use Rattle.std.specs.Prelude.{◌≡◌, Bool};
ghost use Rattle.fal_base.specs.declared.call.Config.{Config as ConfigSeen};
ghost use Rattle.fal_base.specs.declared.event.Actor.{Actor as ActorSeen};
ghost use Rattle.fal_book.specs.Sitting.{IsSameSitting};
ghost use Rattle.fal_story.specs.Machines.{Machine};
ghost use Rattle.book_runs.specs.Posts.{IsPost};

use fal_base::OutOfMemory;
use fal_book::{ActorSeat, BookLock};
use fal_story::{Book, Inbox};
use std::sync::Wait;

/// Looks at the book, and hears what was sent to this seat's actor. The actor is at the seat as before.
pub fn look_on<R: Wait>(
    rt: &R,
    lock: &BookLock<Book>,
    seat: &mut ActorSeat<Book>,
    inbox: &mut Inbox,
) -> Result<u64, OutOfMemory>
    requires { seat.old.lock ≡ lock.now.table }
    ensures same { IsSameSitting seat.old seat.new }
    ensures kept { (has : ConfigSeen → Bool) (a : ActorSeen) (m : Machine) → IsPost has a m seat.old inbox.old → IsPost has a m seat.new inbox.new }
{
    match lock.look(rt, seat, inbox) {
        Ok(count) => Ok(count),
        Err(OutOfMemory) => Err(OutOfMemory),
    }
}

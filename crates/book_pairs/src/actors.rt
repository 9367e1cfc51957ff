//! Actors that count in one book.
ghost use Rattle.std.specs.Prelude.{◌≡◌, ◌+◌, [], All, length, IfOk, OnErr};
ghost use Rattle.fal_book.specs.Sitting.{IsSameSitting, NothingEntered};

use crate::heard::Heard;
use crate::pair::Pair;
use crate::pairs::Pairs;
use fal_base::OutOfMemory;
use fal_book::{ActorSeat, BookLock};
use std::alloc::Global;
use std::sync::Wait;
use std::sync::atomic::{AtomicU64, Ordering};
use std::thread;
use std::thread::Threads;

/// Enters this actor's next number.
pub fn enter_next<R: Wait>(
    rt: &R,
    lock: &BookLock<Pairs>,
    seat: &mut ActorSeat<Pairs>,
    number: u64,
) -> Result<u64, OutOfMemory>
    requires lock { seat.old.lock ≡ lock.now.table }
    requires next { length seat.old.mine ≡ number }
    ensures same { IsSameSitting seat.old seat.new }
    ensures ok { IfOk result (λ _. length seat.new.mine ≡ number + 1) }
    ensures err { OnErr result (NothingEntered seat.old seat.new) }
{
    let actor = seat.number();
    match lock.enter(rt, seat, Pair { actor, number }, ()) {
        Ok(at) => Ok(at),
        Err(_) => Err(OutOfMemory),
    }
}

/// Enters the next `times` numbers of this seat's actor, and looks after each; or fewer where memory runs out. Counts in `strays` each look that answers less than the one before, and each after which the actor's own pairs and those that it has heard are not as many as the look answers.
pub fn count<R: Wait>(
    rt: &R,
    alloc: Global,
    lock: &BookLock<Pairs>,
    seat: &mut ActorSeat<Pairs>,
    times: u64,
    strays: &AtomicU64,
)
    requires lock { seat.old.lock ≡ lock.now.table }
    requires none { seat.old.mine ≡ [] }
    ensures { IsSameSitting seat.old seat.new }
{
    let mut heard = Heard::new(alloc);
    let mut last = 0;
    for number in 0..times {
        if enter_next(rt, lock, seat, number).is_err() {
            return;
        }
        let Ok(found) = lock.look(rt, seat, &mut heard) else {
            return;
        };
        let own = number + 1;
        let known = (heard.pairs().len() as u64).wrapping_add(own);
        if found < last || found != known {
            strays.fetch_add(1, Ordering::SeqCst);
        }
        last = found;
    }
}

/// Each actor counts in a thread of its own.
pub fn count_all<R: Threads + Wait + Sync>(
    rt: &R,
    alloc: Global,
    lock: &BookLock<Pairs>,
    seats: &mut [ActorSeat<Pairs>],
    times: u64,
    strays: &AtomicU64,
)
    requires { All (λ s. (s.lock ≡ lock.now.table) × (s.mine ≡ [])) seats.old }
    ensures { All (λ s. s.lock ≡ lock.now.table) seats.new }
{
    thread::for_each_mut(
        rt,
        seats,
        16,
        &|_, seat| count(rt, alloc, lock, seat, times, strays),
    );
}

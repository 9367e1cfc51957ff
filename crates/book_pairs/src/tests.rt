use crate::{Heard, Pair, Pairs, count_all, enter_next};
use fal_book::{ActorSeat, BookLock};
use std::sync::atomic::{AtomicU64, Ordering};
use std::test::Fail;

#[test]
fn two_actors_count_on_two_threads(rt: HostRuntime) -> Result<(), Fail> {
    let (lock, mut seats) = BookLock::new(rt.alloc(), Pairs::new(rt.alloc()), 2)?;
    let strays = AtomicU64::new(0);
    count_all(&rt, rt.alloc(), &lock, seats.as_mut_slice(), 100, &strays);
    let book = lock.close_with(seats);
    assert_eq!(rt; book.items().len(), 200);
    let mut next = [0u64; 2];
    for pair in book.items() {
        assert!(rt; pair.actor < 2);
        let k = pair.actor as usize;
        assert_eq!(rt; pair.number, next[k]);
        assert!(rt; next[k] < 1000);
        next[k] += 1;
    }
    assert_eq!(rt; next, [100, 100]);
    assert_eq!(rt; strays.load(Ordering::SeqCst), 0);
    Ok(())
}

#[test]
fn a_look_finds_what_another_actor_entered(rt: HostRuntime) -> Result<(), Fail> {
    let (lock, mut seats) = BookLock::new(rt.alloc(), Pairs::new(rt.alloc()), 2)?;
    assert_eq!(rt; seats.len(), 2);
    let Some(mut one) = seats.pop() else {
        panic!(rt; "no seat")
    };
    let Some(mut zero) = seats.pop() else {
        panic!(rt; "no seat")
    };
    assert!(rt; zero.number() == 0 && one.number() == 1);
    let mut heard = Heard::new(rt.alloc());
    assert_eq!(rt; lock.look(&rt, &mut zero, &mut heard)?, 0);
    assert_eq!(rt; enter_next(&rt, &lock, &mut one, 0)?, 0);
    assert_eq!(rt; lock.look(&rt, &mut zero, &mut heard)?, 1);
    assert_eq!(rt;
        heard.pairs(),
        [Pair {
            actor: 1,
            number: 0
        }]
        .as_slice()
    );
    assert_eq!(rt; lock.look(&rt, &mut zero, &mut heard)?, 1);
    assert_eq!(rt; heard.pairs().len(), 1);
    Ok(())
}

#[test]
fn a_refused_enter_enters_nothing(rt: HostRuntime) -> Result<(), Fail> {
    let (lock, mut seats) = BookLock::new(rt.alloc(), Pairs::refusing(rt.alloc(), 2, 0), 1)?;
    let Some(mut seat) = seats.pop() else {
        panic!(rt; "no seat")
    };
    assert_eq!(rt; enter_next(&rt, &lock, &mut seat, 0)?, 0);
    let refused = lock.enter(
        &rt,
        &mut seat,
        Pair {
            actor: 0,
            number: 1,
        },
        (),
    );
    let Err(fault) = refused else {
        panic!(rt; "not refused")
    };
    assert_eq!(rt;
        fault.event,
        Pair {
            actor: 0,
            number: 1
        }
    );
    assert_eq!(rt; lock.look(&rt, &mut seat, &mut Heard::new(rt.alloc()))?, 1);
    assert_eq!(rt; enter_next(&rt, &lock, &mut seat, 1)?, 1);
    Ok(())
}

#[test]
fn a_refused_look_leaves_the_inbox(rt: HostRuntime) -> Result<(), Fail> {
    let (lock, mut seats) = BookLock::new(rt.alloc(), Pairs::refusing(rt.alloc(), 0, 2), 2)?;
    let Some(mut one) = seats.pop() else {
        panic!(rt; "no seat")
    };
    let Some(mut zero) = seats.pop() else {
        panic!(rt; "no seat")
    };
    let mut heard = Heard::new(rt.alloc());
    assert_eq!(rt; enter_next(&rt, &lock, &mut one, 0)?, 0);
    assert_eq!(rt; lock.look(&rt, &mut zero, &mut heard)?, 1);
    assert_eq!(rt; enter_next(&rt, &lock, &mut one, 1)?, 1);
    assert!(rt; lock.look(&rt, &mut zero, &mut heard).is_err());
    assert_eq!(rt; heard.pairs().len(), 1);
    assert_eq!(rt; lock.look(&rt, &mut zero, &mut heard)?, 2);
    assert_eq!(rt;
        heard.pairs(),
        [
            Pair {
                actor: 1,
                number: 0
            },
            Pair {
                actor: 1,
                number: 1
            }
        ]
        .as_slice()
    );
    Ok(())
}

fn crossing<T: Send>(value: T) -> T {
    value
}

fn sharing<T: Sync>(value: &T) -> &T {
    value
}

#[test]
fn a_lock_and_its_seats_cross_threads(rt: HostRuntime) -> Result<(), Fail> {
    let (lock, seats) = BookLock::new(rt.alloc(), Pairs::new(rt.alloc()), 3)?;
    let lock: BookLock<Pairs> = crossing(lock);
    sharing(&lock);
    let mut next = 0;
    for seat in seats {
        let seat: ActorSeat<Pairs> = crossing(seat);
        assert_eq!(rt; seat.number(), next);
        next = next.wrapping_add(1);
    }
    assert_eq!(rt; next, 3);
    Ok(())
}

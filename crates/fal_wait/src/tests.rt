use super::*;
use fal_base::{CallId, CallRec, Cred, Key, NameList, Op, Path, PathArg};
use std::alloc::Global;
use std::test::Fail;

// A call of client 1 with this number, attempt and hop.
fn call(alloc: Global, seq: u32, attempt: u32, hop: u32) -> CallRec {
    CallRec {
        id: CallId {
            client: 1,
            seq,
            attempt,
            hop,
        },
        cred: Cred { uid: 0, gid: 0 },
        version: 0,
        op: Op::Stat {
            path: PathArg::Good(Path::from_names(NameList::new(alloc))),
        },
    }
}

#[test]
#[tactic(auto, using(crate::proofs::Bounds::counters))]
fn each_call_is_taken_once_and_in_order(rt: HostRuntime) -> Result<(), Fail> {
    let alloc = rt.alloc();
    let mut waiting = Waiting::new(alloc);
    waiting.reserve(6)?;
    assert!(rt; waiting.is_empty());
    assert_eq!(rt;
        waiting.admit(call(alloc, 1, 1, 0)),
        Admit::Taken { ticket: 0 }
    );
    assert_eq!(rt;
        waiting.admit(call(alloc, 1, 1, 0)),
        Admit::Old,
        "a call that comes again"
    );
    assert_eq!(rt;
        waiting.admit(call(alloc, 1, 2, 0)),
        Admit::Taken { ticket: 1 },
        "a later attempt with fewer hops"
    );
    assert_eq!(rt;
        waiting.admit(call(alloc, 1, 1, 9)),
        Admit::Old,
        "an earlier attempt with more hops"
    );
    assert_eq!(rt;
        waiting.admit(call(alloc, 2, 1, 0)),
        Admit::Taken { ticket: 2 }
    );
    assert_eq!(rt; waiting.free()?.as_slice(), [0, 1, 2].as_slice());
    assert_eq!(rt; waiting.free_at(2), Some(2));
    assert_eq!(rt; waiting.free_at(3), None);
    assert_eq!(rt; waiting.free_count(), 3);
    assert_eq!(rt; waiting.last_fetch(), None);
    assert_eq!(rt; waiting.call(1).map(|call| call.id.attempt), Some(2));
    assert_eq!(rt; waiting.remove(1).map(|call| call.id.attempt), Some(2));
    assert!(rt; waiting.remove(1).is_none());
    assert!(rt; !waiting.is_empty());
    assert_eq!(rt; waiting.free()?.as_slice(), [0, 2].as_slice());
    Ok(())
}

#[test]
#[tactic(auto, using(crate::proofs::Bounds::counters))]
fn a_late_call_has_a_fetch_of_its_own(rt: HostRuntime) -> Result<(), Fail> {
    let alloc = rt.alloc();
    let mut waiting = Waiting::new(alloc);
    waiting.reserve(3)?;
    let _ = waiting.admit(call(alloc, 1, 1, 0));
    let early = waiting.free()?;
    assert_eq!(rt; waiting.open_fetch(Key::root(alloc), early), 0);
    waiting.reserve(3)?;
    let _ = waiting.admit(call(alloc, 2, 1, 0));
    let late = waiting.free()?;
    assert_eq!(rt; late.as_slice(), [1].as_slice());
    assert_eq!(rt; waiting.open_fetch(Key::root(alloc), late), 1);
    assert_eq!(rt; waiting.free_at(0), None);
    assert_eq!(rt; waiting.free_count(), 0);
    assert_eq!(rt; waiting.last_fetch(), Some(1));
    assert_eq!(rt; waiting.settle(0).map(|fetch| fetch.waiters.len()), Some(1));
    assert_eq!(rt; waiting.free_at(0), Some(0));
    assert!(rt; waiting.settle(0).is_none());
    waiting.cancel_all();
    assert_eq!(rt; waiting.free_at(1), Some(1));
    assert!(rt; waiting.settle(1).is_none(), "a fetch that was cancelled");
    Ok(())
}

use fal_base::{Barred, CallId, CallRec, Cred, Dentry, Key, Op, PathArg};
use fal_batch::{is_plan_idle, plan};
use fal_dentry::Replica;
use fal_locks::Locks;
use fal_place::Table;
use fal_wait::{Admit, Waiting};
use std::alloc::Global;
use std::test::Fail;

// The first call of client 1: a stat of /a.
fn stat_of_a(alloc: Global) -> Result<CallRec, Fail> {
    Ok(CallRec {
        id: CallId {
            client: 1,
            seq: 1,
            attempt: 1,
            hop: 0,
        },
        cred: Cred { uid: 0, gid: 0 },
        version: 0,
        op: Op::Stat {
            path: PathArg::read(alloc, b"/a")?,
        },
    })
}

fn one_call(alloc: Global) -> Result<Waiting, Fail> {
    let mut waiting = Waiting::new(alloc);
    waiting.reserve(1)?;
    match waiting.admit(stat_of_a(alloc)?) {
        Admit::Taken { ticket: 0 } => Ok(waiting),
        _ => Err(Fail::from("not taken")),
    }
}

// The root, if so told.
fn replica_of(alloc: Global, is_warm: bool) -> Result<Replica, Fail> {
    let mut replica = Replica::new(alloc);
    if is_warm {
        replica.reserve(1)?;
        let root = Dentry {
            ino: 1,
            mode: 0o755,
            uid: 0,
            gid: 0,
        };
        replica.install(Key::root(alloc), root);
    }
    Ok(replica)
}

// How many fetches, sends, calls and keys the plan for one call has, and whether it does nothing.
fn planned(alloc: Global, is_warm: bool, limit: u8) -> Result<([usize; 4], bool), Fail> {
    let waiting = one_call(alloc)?;
    let replica = replica_of(alloc, is_warm)?;
    let locks = Locks::new(alloc);
    let table = Table::new(alloc, 1);
    let open = Barred::Nothing;
    let plan = plan(alloc, &waiting, &replica, &locks, &table, 0, &open, limit)?;
    let counts = [
        plan.fetches.len(),
        plan.sends.len(),
        plan.calls.len(),
        plan.keys.len(),
    ];
    let is_idle = is_plan_idle(alloc, &waiting, &replica, &locks, &table, 0, &open, limit);
    Ok((counts, is_idle))
}

// A call waits for the root, and then joins a batch with the keys of the root and of its own row, if that may have a call.
#[test]
fn a_call_waits_for_the_root_and_then_joins(rt: HostRuntime) -> Result<(), Fail> {
    for (is_warm, limit, wanted) in [
        (false, 1, ([1, 1, 0, 0], false)),
        (false, 0, ([1, 1, 0, 0], false)),
        (true, 1, ([0, 0, 1, 2], false)),
        (true, 0, ([0, 0, 0, 0], true)),
    ] {
        assert_eq!(rt;
            planned(rt.alloc(), is_warm, limit)?,
            wanted,
            "{is_warm} {limit}"
        );
    }
    Ok(())
}

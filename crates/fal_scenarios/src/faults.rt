//! Clusters with a bad path, which has to have the fault of its bytes.

use fal_base::{
    Bytes, Call, CallList, Config, Cred, LaneList, Op, OutOfMemory, PathArg, PathFault,
};
use fal_story::may_run;
use std::alloc::Global;
use std::test::Fail;

// A cluster whose one call has a bad path of these bytes, with this fault.
fn cluster(alloc: Global, bytes: &[u8], fault: PathFault) -> Result<Config, OutOfMemory> {
    let raw = Bytes::from_items(Vec::from_slice(alloc, bytes)?);
    let path = PathArg::Bad { fault, raw };
    let mut calls = CallList::new(alloc);
    calls.push(Call {
        cred: Cred { uid: 0, gid: 0 },
        op: Op::Stat { path },
    })?;
    let mut lanes = LaneList::new(alloc);
    lanes.push(calls)?;
    Ok(Config {
        nodes: 1,
        batch: 1,
        lanes,
    })
}

// Bytes, a fault, and whether a cluster with the two may run.
const ROWS: [(&str, PathFault, bool); 6] = [
    ("a", PathFault::Relative, true),
    ("/a/..", PathFault::Dot, true),
    ("a/..", PathFault::Dot, false),
    ("/a/..", PathFault::Relative, false),
    ("/a/..", PathFault::OutOfMemory, false),
    ("/a", PathFault::OutOfMemory, false),
];

#[test]
fn a_bad_path_has_the_fault_of_its_bytes(rt: HostRuntime) -> Result<(), Fail> {
    for (bytes, fault, may) in ROWS {
        let config = cluster(rt.alloc(), bytes.as_bytes(), fault)?;
        assert_eq!(rt; may_run(&config), may, "{bytes}");
    }
    Ok(())
}

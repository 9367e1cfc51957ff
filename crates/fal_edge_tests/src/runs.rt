//! What the plain tree answers to lists of calls, in the whole text of a run, and texts that no such run has.

use crate::calls::call_of;
use crate::texts;
use fal_base::{
    Call, CallList, Config, Cred, Duplicate, Entry, Errno, LaneList, Name, Op, Reply, Rule,
};
use fal_report::{put_call, summary_of, text_of};
use fal_tree::{ApplyFault, PlainTree};
use std::alloc::Global;
use std::test::Fail;

// A run of one lane over the plain tree.
#[derive(Drop)]
struct Run {
    tree: PlainTree,
    entries: Vec<Entry>,
    commits: u64,
    made: u64,
}

fn is_new(op: &Op) -> bool {
    matches!(op, Op::Mkdir { .. } | Op::Create { .. })
}

// Lays the call on the tree. A call that makes no commit changes nothing.
fn commit(run: &mut Run, call: &Call, seq: u32) -> Result<(), Fail> {
    let ino = if is_new(&call.op) {
        run.made.wrapping_add(1).wrapping_mul(256)
    } else {
        0
    };
    match run.tree.apply(&call.cred, &call.op, ino) {
        Err(ApplyFault::NoCommit) => return Ok(()),
        Err(fault) => return Err(Fail::from(fault)),
        Ok(()) => {}
    }
    run.commits = run.commits.wrapping_add(1);
    if is_new(&call.op) {
        run.made = run.made.wrapping_add(1);
    }
    run.entries.push(Entry::Commit { lane: 1, seq, ino })?;
    Ok(())
}

fn take(run: &mut Run, call: &Call, seq: u32) -> Result<(), Fail> {
    if let Op::Place { .. } = &call.op {
        return Ok(());
    }
    run.entries.push(Entry::Sent { lane: 1, seq })?;
    let point = run.commits;
    let reply = run.tree.answer(&call.cred, &call.op)?.copy()?;
    commit(run, call, seq)?;
    run.entries.push(Entry::Answered {
        lane: 1,
        seq,
        point,
        reply,
    })?;
    Ok(())
}

fn run_of(alloc: Global, calls: &[Call]) -> Result<Run, Fail> {
    let mut run = Run {
        tree: PlainTree::new(alloc)?,
        entries: Vec::new(alloc),
        commits: 0,
        made: 0,
    };
    let mut seq: u32 = 0;
    for call in calls {
        seq = seq.wrapping_add(1);
        take(&mut run, call, seq)?;
    }
    Ok(run)
}

fn calls_of(alloc: Global, table: &[u8]) -> Result<CallList, Fail> {
    let mut calls = CallList::new(alloc);
    for line in table.split(|byte| *byte == b'\n') {
        if !line.is_empty() {
            calls.push(call_of(alloc, line)?)?;
        }
    }
    Ok(calls)
}

fn one_lane(alloc: Global, calls: CallList) -> Result<Config, Fail> {
    let mut lanes = LaneList::new(alloc);
    lanes.push(calls)?;
    Ok(Config {
        nodes: 1,
        batch: 1,
        lanes,
    })
}

// The text of the run, and its summary.
fn texts_of(alloc: Global, table: &[u8]) -> Result<(Vec<u8>, Vec<u8>), Fail> {
    let calls = calls_of(alloc, table)?;
    let run = run_of(alloc, calls.as_slice())?;
    let config = one_lane(alloc, calls)?.copy()?;
    let lines = run.tree.copy()?.lines()?;
    let text = text_of(alloc, &config, &run.entries, &lines)?;
    let summary = summary_of(alloc, &config, &run.entries, &lines)?;
    Ok((text, summary))
}

#[test]
fn runs_are_told_as_listed(rt: HostRuntime) -> Result<(), Fail> {
    for (calls, wanted) in texts::runs() {
        let (text, summary) = texts_of(rt.alloc(), calls)?;
        assert_eq!(rt; text.as_slice(), wanted);
        assert!(rt; text.ends_with(&summary) && summary.starts_with(b"calls "));
    }
    Ok(())
}

#[test]
fn a_number_of_a_row_is_fresh(rt: HostRuntime) -> Result<(), Fail> {
    let mut tree = PlainTree::new(rt.alloc())?;
    let call = call_of(rt.alloc(), b"0|0|mkdir|/a|755")?;
    for (ino, wanted) in [
        (0, Err(ApplyFault::NotFresh)),
        (1, Err(ApplyFault::NotFresh)),
        (256, Ok(())),
        (512, Err(ApplyFault::NoCommit)),
    ] {
        assert_eq!(rt; tree.apply(&call.cred, &call.op, ino), wanted, "{ino}");
    }
    Ok(())
}

// The entries that no run of the plain tree has.
fn other_entries(alloc: Global) -> Result<Vec<u8>, Fail> {
    let config = one_lane(alloc, CallList::new(alloc))?;
    let entries = [
        Entry::Opened {
            lane: 1,
            seq: 2,
            ino: 257,
            point: 3,
        },
        Entry::Placed {
            lane: 1,
            seq: 3,
            version: 1,
        },
        Entry::Stale {
            lane: 1,
            seq: 4,
            old: 0,
            new: 1,
        },
        Entry::Answered {
            lane: 1,
            seq: 5,
            point: 0,
            reply: Reply::Fail(Errno::Enospc),
        },
        Entry::Answered {
            lane: 1,
            seq: 6,
            point: 0,
            reply: Reply::Fail(Errno::Enametoolong),
        },
    ];
    Ok(text_of(alloc, &config, &entries, &[])?)
}

#[test]
fn other_entries_are_told(rt: HostRuntime) -> Result<(), Fail> {
    let text = other_entries(rt.alloc())?;
    assert_eq!(rt; text.as_slice(), texts::other_entries());
    Ok(())
}

fn placing(alloc: Global, rule: Rule) -> Result<Vec<u8>, Fail> {
    let op = Op::Place {
        name: Name::read(alloc, b"x\n")?,
        rule,
    };
    let call = Call {
        cred: Cred { uid: 0, gid: 0 },
        op,
    };
    let mut out = Vec::new(alloc);
    put_call(&mut out, &call)?;
    Ok(out)
}

#[test]
fn changes_of_placement_are_told(rt: HostRuntime) -> Result<(), Fail> {
    let rules = [
        (Rule::Hash, b"0:0 place x%0A hash".as_slice()),
        (Rule::ByParent, b"0:0 place x%0A parent".as_slice()),
        (Rule::Node(12), b"0:0 place x%0A node:12".as_slice()),
    ];
    for (rule, wanted) in rules {
        assert_eq!(rt; placing(rt.alloc(), rule)?.as_slice(), wanted);
    }
    Ok(())
}

use crate::running::run;
use fal_base::{Call, CallList, Config, Cred, Duplicate, Entry, LaneList, Op, PathArg, Reply};
use fal_report::{put_call, text_of};
use fal_tree::{ApplyFault, PlainTree};
use rand_core::utils::NextWord;
use rand_pcg::Lcg64Xsh32;
use std::alloc::Global;
use std::test::Fail;

const CALLS: u32 = 2000;

fn draw(source: &mut Lcg64Xsh32, below: u32) -> u32 {
    source.next_word().checked_rem(below).unwrap_or(0)
}

fn name(drawn: u32) -> &'static [u8] {
    match drawn {
        0 => b"/a",
        1 => b"/b",
        2 => b"/c",
        3 => b"/d",
        4 => b"/e",
        5 => b"/f",
        6 => b"/g",
        _ => b"/h",
    }
}

// One to three names of eight.
fn path(alloc: Global, source: &mut Lcg64Xsh32) -> Result<PathArg, Fail> {
    let mut path = Vec::new(alloc);
    path.extend_from_slice(name(draw(source, 8)))?;
    for _ in 0..draw(source, 3) {
        path.extend_from_slice(name(draw(source, 8)))?;
    }
    Ok(PathArg::read(alloc, &path)?)
}

fn cred(drawn: u32) -> Cred {
    match drawn {
        0 => Cred {
            uid: 1000,
            gid: 100,
        },
        1 => Cred {
            uid: 1000,
            gid: 200,
        },
        2 => Cred {
            uid: 1001,
            gid: 100,
        },
        3 => Cred {
            uid: 1001,
            gid: 200,
        },
        _ => Cred { uid: 0, gid: 0 },
    }
}

fn mode(drawn: u32) -> u16 {
    match drawn {
        0 => 0o777,
        1 => 0o750,
        2 => 0o700,
        _ => 0o757,
    }
}

fn op(path: PathArg, other: PathArg, kind: u32, drawn: u32) -> Op {
    match kind {
        0 | 1 => Op::Mkdir {
            path,
            mode: mode(drawn % 4),
        },
        2 | 3 => Op::Create {
            path,
            mode: mode(drawn % 4),
        },
        4 => Op::Stat { path },
        5 => Op::Access {
            path,
            want: (drawn % 8) as u8,
        },
        6 => Op::Truncate {
            path,
            size: u64::from(drawn),
        },
        7 => Op::Unlink { path },
        8 => Op::Chmod {
            path,
            mode: mode(drawn % 4),
        },
        9 => Op::Chown {
            path,
            uid: 1000 + drawn % 2,
            gid: 100,
        },
        10 => Op::Rmdir { path },
        11 => Op::List { path },
        _ => Op::Rename {
            old: path,
            new: other,
        },
    }
}

fn call(alloc: Global, source: &mut Lcg64Xsh32) -> Result<Call, Fail> {
    let cred = cred(draw(source, 5));
    let path = path(alloc, source)?;
    let other = self::path(alloc, source)?;
    let kind = draw(source, 14);
    let op = op(path, other, kind, draw(source, 1024));
    Ok(Call { cred, op })
}

fn is_new(op: &Op) -> bool {
    matches!(op, Op::Mkdir { .. } | Op::Create { .. })
}

// The plain tree, and what it recorded.
#[derive(Drop)]
struct Plain {
    tree: PlainTree,
    entries: Vec<Entry>,
    commits: u32,
    made: u32,
}

// Lays the call on the tree. A call that makes no commit changes nothing.
fn commit(plain: &mut Plain, call: &Call, seq: u32) -> Result<(), Fail> {
    let ino = if is_new(&call.op) {
        256 * (u64::from(plain.made) + 1)
    } else {
        0
    };
    match plain.tree.apply(&call.cred, &call.op, ino) {
        Err(ApplyFault::NoCommit) => return Ok(()),
        Err(fault) => return Err(Fail::from(fault)),
        Ok(()) => {}
    }
    plain.entries.push(Entry::Commit { lane: 1, seq, ino })?;
    plain.commits = plain.commits.saturating_add(1);
    if is_new(&call.op) {
        plain.made = plain.made.saturating_add(1);
    }
    Ok(())
}

// Notes the directory that a list has opened, where its answer has names.
fn open(plain: &mut Plain, call: &Call, seq: u32, reply: &Reply) -> Result<(), Fail> {
    if let Op::List { path } = &call.op
        && let Reply::Names(_) = reply
    {
        let op = Op::Stat { path: path.copy()? };
        if let Reply::Stat(inode) = plain.tree.answer(&call.cred, &op)? {
            let point = u64::from(plain.commits);
            plain.entries.push(Entry::Opened {
                lane: 1,
                seq,
                ino: inode.ino,
                point,
            })?;
        }
    }
    Ok(())
}

fn step(plain: &mut Plain, call: &Call, seq: u32) -> Result<(), Fail> {
    if let Op::Place { .. } = &call.op {
        return Ok(());
    }
    plain.entries.push(Entry::Sent { lane: 1, seq })?;
    let reply = plain.tree.answer(&call.cred, &call.op)?;
    open(plain, call, seq, &reply)?;
    let point = u64::from(plain.commits);
    commit(plain, call, seq)?;
    plain.entries.push(Entry::Answered {
        lane: 1,
        seq,
        point,
        reply,
    })?;
    Ok(())
}

fn config(alloc: Global, calls: CallList) -> Result<Config, Fail> {
    let mut lanes = LaneList::new(alloc);
    lanes.push(calls)?;
    Ok(Config {
        nodes: 1,
        batch: 1,
        lanes,
    })
}

// The calls, by the same numbers in each run.
fn drawn_calls(alloc: Global) -> Result<CallList, Fail> {
    let mut source = Lcg64Xsh32::new(7, 54);
    let mut calls = CallList::new(alloc);
    for _ in 0..CALLS {
        calls.push(call(alloc, &mut source)?)?;
    }
    Ok(calls)
}

fn put_line(script: &mut Vec<u8>, call: &Call) -> Result<(), Fail> {
    script.extend_from_slice(b"1 ")?;
    put_call(script, call)?;
    script.push(b'\n')?;
    Ok(())
}

fn script_of(alloc: Global, calls: &[Call]) -> Result<Vec<u8>, Fail> {
    let mut script = Vec::from_slice(alloc, b"falcon-script 1\nnodes 1\nlanes 1\n")?;
    for call in calls {
        put_line(&mut script, call)?;
    }
    Ok(script)
}

fn opening(alloc: Global) -> Result<Plain, Fail> {
    Ok(Plain {
        tree: PlainTree::new(alloc)?,
        entries: Vec::new(alloc),
        commits: 0,
        made: 0,
    })
}

fn plain_run(alloc: Global, calls: &[Call]) -> Result<Plain, Fail> {
    let mut plain = opening(alloc)?;
    let mut seq = 0u32;
    for call in calls {
        seq = seq.saturating_add(1);
        step(&mut plain, call, seq)?;
    }
    Ok(plain)
}

fn wanted(alloc: Global, calls: CallList, plain: &Plain) -> Result<Vec<u8>, Fail> {
    let config = config(alloc, calls)?;
    let lines = plain.tree.lines()?;
    Ok(text_of(alloc, &config, &plain.entries, &lines)?)
}

// What the plain tree makes of the calls, and the script of them.
fn wanted_and_script(alloc: Global) -> Result<(Vec<u8>, Vec<u8>), Fail> {
    let calls = drawn_calls(alloc)?;
    let script = script_of(alloc, calls.as_slice())?;
    let plain = plain_run(alloc, calls.as_slice())?;
    let text = wanted(alloc, calls, &plain)?;
    Ok((text, script))
}

#[test]
fn the_plain_tree_answers_alike(rt: HostRuntime) -> Result<(), Fail> {
    let (text, script) = wanted_and_script(rt.alloc())?;
    let ran = run(rt.alloc(), &script)?;
    assert_eq!(rt; ran.status, 0);
    assert!(rt; ran.text == text);
    assert!(rt; text.len() > 100_000);
    Ok(())
}

//! Random calls and events, the same ones for the same seed.

use crate::broken::Broken;
use crate::scene::Scene;
use fal_alone::Cluster;
use fal_base::{Actor, Call, Cred, Event, Name, Op, PathArg, Rule};
use rand_core::utils::NextWord;
use rand_pcg::Lcg64Xsh32;
use std::alloc::Global;

pub fn source_of(seed: u64) -> Lcg64Xsh32 {
    Lcg64Xsh32::new(seed, 54)
}

fn draw(source: &mut Lcg64Xsh32, below: u32) -> u32 {
    source.next_word().checked_rem(below).unwrap_or(0)
}

fn path_bytes(drawn: u32) -> &'static [u8] {
    match drawn {
        0 => b"/a",
        1 => b"/b",
        2 => b"/a/b",
        3 => b"/a/c",
        4 => b"/b/a",
        _ => b"/a/b/x",
    }
}

fn drawn_path(alloc: Global, source: &mut Lcg64Xsh32) -> Result<PathArg, Broken> {
    Ok(PathArg::read(alloc, path_bytes(draw(source, 6)))?)
}

// Mostly a mode that lets all users search.
fn drawn_mode(source: &mut Lcg64Xsh32) -> u16 {
    match draw(source, 4) {
        0 => 0o700,
        1 => 0o777,
        _ => 0o755,
    }
}

// A rule of a name. The node may not be there.
fn drawn_rule(source: &mut Lcg64Xsh32) -> Rule {
    match draw(source, 5) {
        0 => Rule::Hash,
        1 => Rule::ByParent,
        2 => Rule::Node(0),
        3 => Rule::Node(1),
        _ => Rule::Node(2),
    }
}

// Root, or now and then another user.
fn drawn_cred(source: &mut Lcg64Xsh32) -> Cred {
    if draw(source, 4) == 0 {
        Cred {
            uid: 1000,
            gid: 100,
        }
    } else {
        Cred { uid: 0, gid: 0 }
    }
}

// A list of a path, most often of one where a directory may stand.
fn drawn_list(alloc: Global, source: &mut Lcg64Xsh32) -> Result<Call, Broken> {
    let cred = drawn_cred(source);
    let path = match draw(source, 6) {
        0 => PathArg::read(alloc, b"/")?,
        1..=2 => PathArg::read(alloc, b"/a")?,
        3 => PathArg::read(alloc, b"/b")?,
        _ => drawn_path(alloc, source)?,
    };
    Ok(Call {
        cred,
        op: Op::List { path },
    })
}

/// A random call, or half the time a list where such are asked for.
pub fn drawn_by(alloc: Global, source: &mut Lcg64Xsh32, lists: bool) -> Result<Call, Broken> {
    if lists && draw(source, 2) == 0 {
        return drawn_list(alloc, source);
    }
    drawn_call(alloc, source)
}

// A call on one of few paths, now and then by another user than root.
fn drawn_call(alloc: Global, source: &mut Lcg64Xsh32) -> Result<Call, Broken> {
    let cred = drawn_cred(source);
    let path = drawn_path(alloc, source)?;
    let op = match draw(source, 16) {
        0..=3 => Op::Mkdir { path, mode: 0o755 },
        4 => Op::Create { path, mode: 0o640 },
        5 => Op::Truncate { path, size: 10 },
        6 => Op::Unlink { path },
        7 => Op::Chmod {
            path,
            mode: drawn_mode(source),
        },
        8 => Op::Chown {
            path,
            uid: 1000,
            gid: 100,
        },
        9 => Op::Rmdir { path },
        10 => Op::Place {
            name: Name::read(alloc, b"b").map_err(|_| Broken::OutOfMemory)?,
            rule: drawn_rule(source),
        },
        11..=13 => Op::Rename {
            old: path,
            new: drawn_path(alloc, source)?,
        },
        14 => Op::Access { path, want: 5 },
        _ => Op::Stat { path },
    };
    Ok(Call { cred, op })
}

// The delivery of an envelope that was sent.
fn delivery(cluster: &Cluster, place: usize) -> Option<Event> {
    let env = place as u64;
    match cluster.book().sent().get(place)?.to {
        Actor::Client(lane) => Some(Event::Get { lane, env }),
        Actor::Node(node) => Some(Event::Deliver { node, env }),
        Actor::Coord => Some(Event::Hear { env }),
    }
}

// A fresh event, or one time in four the delivery of any envelope, which may have come already.
fn drawn_event(cluster: &Cluster, source: &mut Lcg64Xsh32) -> Result<Option<Event>, Broken> {
    let any = draw(source, 4) == 0;
    let place = draw(source, 65_536) as usize;
    if any {
        let sent = cluster.book().sent().len();
        return Ok(delivery(cluster, place.checked_rem(sent).unwrap_or(0)));
    }
    let fresh = cluster.fresh()?;
    let place = place.checked_rem(fresh.len()).unwrap_or(0);
    Ok(fresh.get(place).copied())
}

/// So many random events.
pub fn events(scene: &mut Scene, count: u64, seed: u64) -> Result<(), Broken> {
    let mut source = source_of(seed);
    for _ in 0..count {
        if let Some(event) = drawn_event(&scene.cluster, &mut source)? {
            scene.cluster.step(event)?;
        }
    }
    Ok(())
}

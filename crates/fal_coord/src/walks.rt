//! The paths of an operation are walked, over the replica and a directory that is being learned.

ghost use Rattle.std.specs.Prelude.{◌≡◌, [], Some, IfOk, OnOk, IsTrue};
ghost use Rattle.fal_base.specs.Maps.{value_at};
ghost use Rattle.fal_dentry.specs.TreeWalk.{last_key as last_key_of, last_name as last_name_of};
ghost use Rattle.fal_dentry.specs.Walk.{replica_walk, is_among as is_among_of};
ghost use Rattle.fal_coord.specs.Judged.{is_for_rows};
ghost use Rattle.fal_coord.specs.Known.{with_learned, ended, joined};
ghost use Rattle.fal_coord.specs.Walks.{with_walk as with_walk_of, and_then, walk_paths, walked_paths, parents_of, with_key, with_ends};

use crate::paths_walk::PathsWalk;
use crate::stage::PathWalk;
use fal_base::{
    CallRec, Cred, Dentry, Duplicate, Errno, Items, Key, Name, Op, OutOfMemory, Path, PathArg,
};
use fal_dentry::{Replica, last_key};
use std::alloc::Global;

/// A directory that is being learned.
#[derive(Debug, Drop)]
pub struct Learned {
    pub key: Key,
    pub dentry: Dentry,
}

/// How the walk of a path ends: it stops with this errno, it lacks the directory under the key, or it is ready.
#[derive(Debug, Drop)]
pub enum WalkEnd {
    Stopped(Errno),
    Lacking(Key),
    Ready(PathWalk),
}

// The directory under the key once this one is learned.
#[tactic(auto, using(crate::proofs::Known::known_same, crate::proofs::Known::known_other))]
fn dir_with(replica: &Replica, learned: &Learned, key: &Key) -> Option<Dentry>
    ensures { result ≡ value_at (with_learned replica.now.entries (Some learned.now)) key.now }
{
    if key.is_same(&learned.key) {
        Some(learned.dentry)
    } else {
        replica.get(key).copied()
    }
}

// The directory under the key.
fn dir_at(replica: &Replica, learned: &Option<Learned>, key: &Key) -> Option<Dentry>
    ensures { result ≡ value_at (with_learned replica.now.entries learned.now) key.now }
{
    match learned {
        None => replica.get(key).copied(),
        Some(learned) => dir_with(replica, learned, key),
    }
}

// The walk of these names.
#[tactic(auto, using(crate::proofs::Known::ended_past))]
fn walk_names(
    alloc: Global,
    replica: &Replica,
    learned: &Option<Learned>,
    cred: &Cred,
    names: &[Name],
) -> Result<WalkEnd, OutOfMemory>
    ensures { IfOk result (λ end. end ≡ ended [] (replica_walk (with_learned replica.now.entries learned.now) cred.now names.now [])) }
{
    let mut inos = Items::new(alloc);
    let mut parent = None;
    let mut key = Key::root(alloc);
    let mut rest = names;
    while let Some((name, others)) = rest.split_first() {
        let Some(dir) = dir_at(replica, learned, &key) else {
            return Ok(WalkEnd::Lacking(key));
        };
        if !dir.grants(cred, 1) {
            return Ok(WalkEnd::Stopped(Errno::Eacces));
        }
        inos.push(dir.ino)?;
        parent = Some(dir);
        key = Key {
            parent: dir.ino,
            name: name.copy()?,
        };
        rest = others;
    }
    Ok(WalkEnd::Ready(PathWalk { parent, inos }))
}

// One more path was walked before.
fn with_walk(alloc: Global, walk: PathWalk, rest: PathsWalk) -> Result<PathsWalk, OutOfMemory>
    ensures { IfOk result (λ walks. walks ≡ with_walk_of walk rest) }
{
    match rest {
        PathsWalk::Stopped(errno) => Ok(PathsWalk::Stopped(errno)),
        PathsWalk::Lacking(key) => Ok(PathsWalk::Lacking(key)),
        PathsWalk::Ready(walks) => {
            let mut all = vec![in alloc; walk]?;
            all.append(&mut walks.into_items())?;
            Ok(PathsWalk::Ready(Items::from_items(all)))
        }
    }
}

// Where the path is ready, the rest follows.
fn join(alloc: Global, end: WalkEnd, rest: PathsWalk) -> Result<PathsWalk, OutOfMemory>
    ensures { IfOk result (λ walks. walks ≡ joined end rest) }
{
    match end {
        WalkEnd::Stopped(errno) => Ok(PathsWalk::Stopped(errno)),
        WalkEnd::Lacking(key) => Ok(PathsWalk::Lacking(key)),
        WalkEnd::Ready(walk) => with_walk(alloc, walk, rest),
    }
}

// The path is walked, and then comes the rest.
#[tactic(auto, using(crate::proofs::Known::joined_walk))]
fn walk_before(
    alloc: Global,
    replica: &Replica,
    learned: &Option<Learned>,
    cred: &Cred,
    path: &Path,
    rest: PathsWalk,
) -> Result<PathsWalk, OutOfMemory>
    ensures { IfOk result (λ walks. walks ≡ and_then (replica_walk (with_learned replica.now.entries learned.now) cred.now path.now []) rest) }
{
    let end = walk_names(alloc, replica, learned, cred, path.names())?;
    join(alloc, end, rest)
}

// The walks of the call's paths, in their order.
pub(crate) fn walk_call(
    alloc: Global,
    replica: &Replica,
    learned: &Option<Learned>,
    call: &CallRec,
) -> Result<PathsWalk, OutOfMemory>
    ensures { IfOk result (λ walks. walks ≡ walk_paths (with_learned replica.now.entries learned.now) call.now.cred (walked_paths call.now.op)) }
{
    let cred = &call.cred;
    let none = PathsWalk::Ready(Items::new(alloc));
    match &call.op {
        Op::Chmod {
            path: PathArg::Good(path),
            ..
        } => walk_before(alloc, replica, learned, cred, path, none),
        Op::Chown {
            path: PathArg::Good(path),
            ..
        } => walk_before(alloc, replica, learned, cred, path, none),
        Op::Rmdir {
            path: PathArg::Good(path),
        } => walk_before(alloc, replica, learned, cred, path, none),
        Op::Rename {
            old: PathArg::Good(old),
            new: PathArg::Good(new),
        } => {
            let rest = walk_before(alloc, replica, learned, cred, new, none)?;
            walk_before(alloc, replica, learned, cred, old, rest)
        }
        _ => Ok(none),
    }
}

// Whether the key is one of these.
fn is_among(key: &Key, keys: &[Key]) -> bool
    ensures { result ≡ is_among_of key.now keys.now }
{
    keys.iter().any(|other| other.is_same(key))
}

// Adds the last key of the path, once.
fn add_end(
    alloc: Global,
    keys: &mut Items<Key>,
    path: &Path,
    walk: &PathWalk,
) -> Result<(), OutOfMemory>
    ensures { OnOk result (keys.new ≡ with_key keys.old (last_key_of walk.now.parent (last_name_of path.now))) }
{
    let key = last_key(alloc, &walk.parent, path)?;
    if is_among(&key, keys.as_slice()) {
        return Ok(());
    }
    keys.push(key)?;
    Ok(())
}

// The last keys of the operation's paths, each once.
pub(crate) fn end_keys(
    alloc: Global,
    op: &Op,
    walks: &[PathWalk],
) -> Result<Items<Key>, OutOfMemory>
    requires { IsTrue (is_for_rows op.now (parents_of walks.now)) }
    ensures { IfOk result (λ keys. keys ≡ with_ends [] (walked_paths op.now) walks.now) }
{
    let mut keys = Items::new(alloc);
    match (op, walks) {
        (
            Op::Chmod {
                path: PathArg::Good(path),
                ..
            },
            [walk],
        ) => add_end(alloc, &mut keys, path, walk)?,
        (
            Op::Chown {
                path: PathArg::Good(path),
                ..
            },
            [walk],
        ) => add_end(alloc, &mut keys, path, walk)?,
        (
            Op::Rmdir {
                path: PathArg::Good(path),
            },
            [walk],
        ) => add_end(alloc, &mut keys, path, walk)?,
        (
            Op::Rename {
                old: PathArg::Good(old),
                new: PathArg::Good(new),
            },
            [from, to],
        ) => {
            add_end(alloc, &mut keys, old, from)?;
            add_end(alloc, &mut keys, new, to)?;
        }
        _ => unreachable!(),
    }
    Ok(keys)
}

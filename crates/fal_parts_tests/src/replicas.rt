ghost use Rattle.std.specs.Prelude.{◌≤◌, IfOk};

use crate::keys::{key_of, keys_of};
use fal_base::{Cred, Dentry, Key, Path};
use fal_dentry::{Replica, Walk};
use std::alloc::Global;
use std::process::Abort;
use std::test::Fail;

// A replica of the root and of /a, which lets its owner 5 alone search.
fn replica_of_two(alloc: Global) -> Result<Replica, Fail> {
    let mut replica = Replica::new(alloc);
    replica.reserve(2)?;
    let root = Dentry {
        ino: 1,
        mode: 0o755,
        uid: 0,
        gid: 0,
    };
    let private = Dentry {
        ino: 2,
        mode: 0o700,
        uid: 5,
        gid: 5,
    };
    replica.install(Key::root(alloc), root);
    replica.install(key_of(alloc, b"1a")?, private);
    Ok(replica)
}

// The form of the answer, how many directories were found, and the key at which the walk ends where there is one.
fn told(walk: &Walk) -> (&'static str, usize, Option<&Key>) {
    match walk {
        Walk::Shut { key } => ("shut", 0, Some(key)),
        Walk::Missing { key, keys } => ("missing", keys.len(), Some(key)),
        Walk::Stop { keys, .. } => ("stop", keys.len(), None),
        Walk::Ready { keys, .. } => ("ready", keys.len(), None),
    }
}

fn is_at(key: Option<&Key>, wanted: &[Key]) -> bool {
    match (key, wanted) {
        (None, []) => true,
        (Some(key), [wanted]) => key.is_same(wanted),
        _ => false,
    }
}

// Who walks, along which path, which keys are shut, the form of the answer, how many directories are found, and where it ends.
type Row = (
    u32,
    &'static [u8],
    &'static [u8],
    &'static str,
    usize,
    &'static [u8],
);

fn rows() -> [Row; 5] {
    [
        (5, b"/a/b", b"", "ready", 2, b""),
        (7, b"/a/b/c", b"", "stop", 2, b""),
        (5, b"/c/d/e/f", b"", "missing", 1, b"1c"),
        (7, b"/a/b/c", b"1c 1a", "shut", 0, b"1a"),
        (7, b"/c/d/e", b"1c 1a", "shut", 0, b"1c"),
    ]
}

fn walk(rt: &impl Abort, alloc: Global, replica: &Replica, row: Row) -> Result<(), Fail> {
    let (uid, path, shut, form, count, end) = row;
    let path = Path::read(alloc, path)?;
    let shut = keys_of(alloc, shut)?;
    let end = keys_of(alloc, end)?;
    let walk = replica.walk(&Cred { uid, gid: uid }, &path, &shut)?;
    let (told_form, found, key) = told(&walk);
    assert!(rt;
        told_form == form && found == count && is_at(key, &end),
        "{uid} {form} {count}"
    );
    Ok(())
}

#[test]
fn walks_end_as_listed(rt: HostRuntime) -> Result<(), Fail> {
    let replica = replica_of_two(rt.alloc())?;
    for row in rows() {
        walk(&rt, rt.alloc(), &replica, row)?;
    }
    Ok(())
}

#[test]
fn entries_of_these_keys_alone_are_dropped(rt: HostRuntime) -> Result<(), Fail> {
    let mut replica = replica_of_two(rt.alloc())?;
    let keys = keys_of(rt.alloc(), b"1c 1a")?;
    for key in keys.as_slice() {
        let is_there = replica.get(key).is_some();
        assert!(rt; replica.find(key.parent, &key.name).is_some() == is_there);
    }
    replica.drop_keys(&keys);
    for key in keys.as_slice() {
        assert!(rt; replica.get(key).is_none());
    }
    let root = Key::root(rt.alloc());
    assert!(rt; replica.get(&root).is_some());
    Ok(())
}

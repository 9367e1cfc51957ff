ghost use Rattle.std.specs.Prelude.{◌≤◌, IfOk};

use crate::keys::key_of;
use fal_base::{CallId, Dentry, Inode, Kind};
use fal_duty::{fetched, part};
use fal_inode::Rows;
use fal_wire::{Found, Message};
use std::alloc::Global;
use std::process::Abort;
use std::test::Fail;

fn inode(ino: u64, kind: Kind) -> Inode {
    Inode {
        ino,
        kind,
        mode: 0o750,
        uid: 5,
        gid: 6,
        size: 0,
    }
}

// Files under directories 2 and 9, of which the one at 2b was put twice, and directory 256 at 1a.
fn rows_of_four(alloc: Global) -> Result<Rows, Fail> {
    let mut rows = Rows::new(alloc);
    for (word, ino, kind) in [
        (b"9l", 4, Kind::File),
        (b"2l", 5, Kind::File),
        (b"2b", 6, Kind::File),
        (b"2b", 7, Kind::File),
        (b"1a", 256, Kind::Dir),
    ] {
        rows.reserve(1)?;
        rows.put(key_of(alloc, word)?, inode(ino, kind));
    }
    Ok(rows)
}

#[test]
fn what_was_put_is_listed(rt: HostRuntime) -> Result<(), Fail> {
    let rows = rows_of_four(rt.alloc())?;
    for (parent, count) in [(1, 1), (2, 2), (3, 0), (9, 1)] {
        assert_eq!(rt; rows.children(parent), count);
    }
    let names = rows.names(2)?;
    for (name, (text, count)) in names.iter().zip([(b"b", 1), (b"l", 2)]) {
        assert!(rt; name.bytes() == text.as_slice());
        assert_eq!(rt; rows.rows_of(name)?.len(), count);
    }
    assert_eq!(rt; names.len(), 2);
    let inos = [256, 7, 5, 4];
    let all = rows.all()?;
    for (line, ino) in all.iter().zip(inos) {
        assert_eq!(rt; line.inode.ino, ino);
    }
    assert_eq!(rt; all.len(), inos.len());
    Ok(())
}

#[test]
fn a_row_is_taken_once(rt: HostRuntime) -> Result<(), Fail> {
    let mut rows = rows_of_four(rt.alloc())?;
    let key = key_of(rt.alloc(), b"2b")?;
    for wanted in [Some(7), None] {
        assert_eq!(rt; rows.get(&key).map(|inode| inode.ino), wanted);
        assert_eq!(rt; rows.take(&key).map(|inode| inode.ino), wanted);
    }
    assert_eq!(rt; rows.children(2), 1);
    Ok(())
}

// The answers of node 4 to what asks it for its part of a listing have the names in each directory.
#[test]
fn a_part_is_told(rt: HostRuntime) -> Result<(), Fail> {
    let rows = rows_of_four(rt.alloc())?;
    let asked = CallId {
        client: 3,
        seq: 7,
        attempt: 2,
        hop: 0,
    };
    for (dir, count) in [(1, 1), (2, 2), (3, 0), (9, 1)] {
        let told = match part(&rows, 4, &asked, dir)? {
            Message::ListPart { id, node, names } => {
                id == asked && node == 4 && names.as_slice().len() == count
            }
            _ => false,
        };
        assert!(rt; told);
    }
    Ok(())
}

// What stands there, as a fetch may be told.
#[derive(Clone, Copy)]
enum Told {
    Nothing,
    File,
    Dir(Dentry),
}

fn is_told(found: &Found, wanted: &Told) -> bool {
    match found {
        Found::Nothing => matches!(wanted, Told::Nothing),
        Found::File => matches!(wanted, Told::File),
        Found::Dir(dir) => match wanted {
            Told::Dir(other) => dir == other,
            _ => false,
        },
    }
}

// Whether fetch 3 of the key is told this.
fn tells(alloc: Global, rows: &Rows, word: &[u8], wanted: &Told) -> Result<bool, Fail> {
    let key = key_of(alloc, word)?;
    let message = fetched(alloc, rows, 3, &key)?;
    let is_wanted = match &message {
        Message::FetchGot {
            number: 3,
            key: other,
            found,
        } => key.is_same(other) && is_told(found, wanted),
        _ => false,
    };
    Ok(is_wanted)
}

#[test]
fn a_fetch_is_told_what_stands_there(rt: HostRuntime) -> Result<(), Fail> {
    let rows = rows_of_four(rt.alloc())?;
    let dir = Dentry {
        ino: 256,
        mode: 0o750,
        uid: 5,
        gid: 6,
    };
    for (word, wanted) in [
        (b"1a", Told::Dir(dir)),
        (b"9l", Told::File),
        (b"1c", Told::Nothing),
    ] {
        assert!(rt; tells(rt.alloc(), &rows, word, &wanted)?, "{word:?}");
    }
    Ok(())
}

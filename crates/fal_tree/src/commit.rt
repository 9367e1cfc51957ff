ghost use Rattle.std.specs.Prelude.{◌≡◌, not, IfOk, OnOk, OnErr};
ghost use Rattle.fal_base.specs.Answer.{answer as answer_of};
ghost use Rattle.fal_base.specs.Tree.{with_row, without_row, same_key};
ghost use Rattle.fal_base.specs.Change.{makes as makes_of, changes as changes_of, is_fine as is_fine_of, last_key_of as last_key_of, new_row as new_row_of, update, move as move_of, change as change_of};
ghost use Rattle.fal_tree.specs.Applied.{holds_number as has_number_of, brings_row as brings_row_of, is_fresh as is_fresh_of};
ghost use Rattle.fal_tree.specs.Refused.{IsOfTree};

use crate::reply::reply_to;
use crate::walk::{Reached, walk_path};
use fal_base::{Cred, Inode, Key, KeyMap, Kind, Op, OutOfMemory, PathArg, Reply};
use std::alloc::Global;

// Where a path's walk ends, or the root's key where it does not.
fn last_key(
    alloc: Global,
    rows: &KeyMap<Inode>,
    cred: &Cred,
    path: &PathArg,
) -> Result<Key, OutOfMemory>
    ensures { IfOk result (λ key. key ≡ last_key_of rows.now.entries cred.now path.now) }
{
    match path {
        PathArg::Bad { .. } => Ok(Key::root(alloc)),
        PathArg::Good(path) => match walk_path(alloc, rows, cred, path)? {
            Reached::Stop(_) => Ok(Key::root(alloc)),
            Reached::Ready { last, .. } => Ok(last),
        },
    }
}

fn is_answered_fine(
    alloc: Global,
    rows: &KeyMap<Inode>,
    cred: &Cred,
    op: &Op,
) -> Result<bool, OutOfMemory>
    requires { IsOfTree op.now }
    ensures { IfOk result (λ fine. fine ≡ is_fine_of (answer_of rows.now.entries cred.now op.now)) }
{
    match reply_to(alloc, rows, cred, op)? {
        Reply::Fine => Ok(true),
        Reply::Fail(_) => Ok(false),
        Reply::Stat(_) => Ok(false),
        Reply::Names(_) => Ok(false),
    }
}

// Whether a rename would move a row, and not leave it under its key.
fn changes_key(
    alloc: Global,
    rows: &KeyMap<Inode>,
    cred: &Cred,
    old: &PathArg,
    new: &PathArg,
) -> Result<bool, OutOfMemory>
    ensures { IfOk result (λ apart. apart ≡ not (same_key (last_key_of rows.now.entries cred.now old.now) (last_key_of rows.now.entries cred.now new.now))) }
{
    let from = last_key(alloc, rows, cred, old)?;
    let to = last_key(alloc, rows, cred, new)?;
    let same = from.is_same(&to);
    Ok(!same)
}

fn changes(alloc: Global, rows: &KeyMap<Inode>, cred: &Cred, op: &Op) -> Result<bool, OutOfMemory>
    ensures { IfOk result (λ changing. changing ≡ changes_of rows.now.entries cred.now op.now) }
{
    match op {
        Op::Stat { .. } | Op::Access { .. } | Op::List { .. } | Op::Place { .. } => Ok(false),
        Op::Rename { old, new } => changes_key(alloc, rows, cred, old, new),
        _ => Ok(true),
    }
}

/// Whether the call makes a commit.
pub fn makes(alloc: Global, rows: &KeyMap<Inode>, cred: &Cred, op: &Op) -> Result<bool, OutOfMemory>
    ensures { IfOk result (λ made. made ≡ makes_of rows.now.entries cred.now op.now) }
{
    if !changes(alloc, rows, cred, op)? {
        return Ok(false);
    }
    is_answered_fine(alloc, rows, cred, op)
}

fn has_number(rows: &KeyMap<Inode>, ino: u64) -> bool
    ensures { result ≡ has_number_of rows.now.entries ino }
{
    rows.as_slice().iter().any(|entry| entry.1.ino == ino)
}

fn brings_row(op: &Op) -> bool
    ensures { result ≡ brings_row_of op.now }
{
    matches!(op, Op::Mkdir { .. } | Op::Create { .. })
}

/// Whether the call may have this number: any where it brings no row, and else one that is neither 0 nor in the tree.
pub fn is_fresh(rows: &KeyMap<Inode>, op: &Op, ino: u64) -> bool
    ensures { result ≡ is_fresh_of rows.now.entries op.now ino }
{
    !(brings_row(op) && (ino == 0 || has_number(rows, ino)))
}

fn new_row(cred: &Cred, kind: Kind, mode: u16, ino: u64) -> Inode
    ensures { result ≡ new_row_of cred.now kind mode ino }
{
    Inode {
        ino,
        kind,
        mode,
        uid: cred.uid,
        gid: cred.gid,
        size: 0,
    }
}

fn put_row(rows: &mut KeyMap<Inode>, key: Key, inode: Inode) -> Result<(), OutOfMemory>
    ensures ok { OnOk result (rows.new.entries ≡ with_row rows.old.entries key inode) }
    ensures err { OnErr result (rows.new.entries ≡ rows.old.entries) }
{
    rows.reserve(1)?;
    rows.put(key, inode);
    Ok(())
}

fn set_mode(rows: &mut KeyMap<Inode>, key: Key, mode: u16)
    ensures { rows.new.entries ≡ update rows.old.entries key (λ inode. record inode { mode = mode }) }
{
    if let Some(inode) = rows.get(&key).copied() {
        rows.put(key, Inode { mode, ..inode });
    }
}

fn set_owner(rows: &mut KeyMap<Inode>, key: Key, uid: u32, gid: u32)
    ensures { rows.new.entries ≡ update rows.old.entries key (λ inode. record inode { uid = uid; gid = gid }) }
{
    if let Some(inode) = rows.get(&key).copied() {
        rows.put(key, Inode { uid, gid, ..inode });
    }
}

fn set_size(rows: &mut KeyMap<Inode>, key: Key, size: u64)
    ensures { rows.new.entries ≡ update rows.old.entries key (λ inode. record inode { size = size }) }
{
    if let Some(inode) = rows.get(&key).copied() {
        rows.put(key, Inode { size, ..inode });
    }
}

fn remove_row(rows: &mut KeyMap<Inode>, key: &Key)
    ensures { rows.new.entries ≡ without_row rows.old.entries key.now }
{
    let _row = rows.take(key);
}

fn move_row(rows: &mut KeyMap<Inode>, from: &Key, to: Key) -> Result<(), OutOfMemory>
    ensures ok { OnOk result (rows.new.entries ≡ move_of rows.old.entries from.now to) }
    ensures err { OnErr result (rows.new.entries ≡ rows.old.entries) }
{
    let Some(inode) = rows.get(from).copied() else {
        return Ok(());
    };
    rows.reserve(1)?;
    let _row = rows.take(from);
    rows.put(to, inode);
    Ok(())
}

/// The change that the call makes. A new row has the number `ino`.
pub fn change(
    alloc: Global,
    rows: &mut KeyMap<Inode>,
    cred: &Cred,
    op: &Op,
    ino: u64,
) -> Result<(), OutOfMemory>
    ensures ok { OnOk result (rows.new.entries ≡ change_of rows.old.entries cred.now op.now ino) }
    ensures err { OnErr result (rows.new.entries ≡ rows.old.entries) }
{
    match op {
        Op::Mkdir { path, mode } => {
            let key = last_key(alloc, rows, cred, path)?;
            put_row(rows, key, new_row(cred, Kind::Dir, *mode, ino))
        }
        Op::Create { path, mode } => {
            let key = last_key(alloc, rows, cred, path)?;
            put_row(rows, key, new_row(cred, Kind::File, *mode, ino))
        }
        Op::Chmod { path, mode } => {
            let key = last_key(alloc, rows, cred, path)?;
            set_mode(rows, key, *mode);
            Ok(())
        }
        Op::Chown { path, uid, gid } => {
            let key = last_key(alloc, rows, cred, path)?;
            set_owner(rows, key, *uid, *gid);
            Ok(())
        }
        Op::Truncate { path, size } => {
            let key = last_key(alloc, rows, cred, path)?;
            set_size(rows, key, *size);
            Ok(())
        }
        Op::Unlink { path } => {
            let key = last_key(alloc, rows, cred, path)?;
            remove_row(rows, &key);
            Ok(())
        }
        Op::Rmdir { path } => {
            let key = last_key(alloc, rows, cred, path)?;
            remove_row(rows, &key);
            Ok(())
        }
        Op::Rename { old, new } => {
            let from = last_key(alloc, rows, cred, old)?;
            let to = last_key(alloc, rows, cred, new)?;
            move_row(rows, &from, to)
        }
        Op::Stat { .. } | Op::Access { .. } | Op::List { .. } | Op::Place { .. } => Ok(()),
    }
}

ghost use Rattle.std.specs.Prelude.{◌≡◌, IfOk, Ok, length, ◌∷◌, ◌++◌};
ghost use Rattle.std.specs.Option.{option_copied};
ghost use Rattle.fal_base.specs.declared.op.Op.TheVariants as op;
ghost use Rattle.fal_base.specs.declared.path.PathArg.TheVariants.{Good};
ghost use Rattle.fal_base.specs.Tree.{row_at, names_under as names_under_of};
ghost use Rattle.fal_base.specs.Answer.{answer, parent_grants as parent_grants_of, has_entries as has_entries_of, make_answer, unlink_answer, rmdir_answer, rename_answer, replace_answer};
ghost use Rattle.fal_tree.specs.Found.{inode_at, move_answer, removal_answer};

use crate::walk::{Reached, walk_path};
use fal_base::{
    Cred, Duplicate, Errno, Inode, Key, KeyMap, Kind, NameList, OutOfMemory, Path, Reply,
};
use std::alloc::Global;

fn parent_grants(cred: &Cred, want: u8, parent: &Option<Inode>) -> bool
    ensures { result ≡ parent_grants_of cred.now want parent.now }
{
    match parent {
        None => true,
        Some(dir) => dir.grants(cred, want),
    }
}

// The names under a directory, by their bytes.
fn names_under(alloc: Global, rows: &KeyMap<Inode>, dir: u64) -> Result<NameList, OutOfMemory>
    ensures { IfOk result (λ names. names ≡ names_under_of rows.now.entries dir) }
{
    let mut names = NameList::new(alloc);
    let mut rest = rows.as_slice();
    while let Some((first, others)) = rest.split_first() {
        if first.0.parent == dir {
            names.push(first.0.name.copy()?)?;
        }
        rest = others;
    }
    Ok(names)
}

fn has_entries(rows: &KeyMap<Inode>, dir: &Inode) -> bool
    ensures { result ≡ has_entries_of rows.now.entries dir.now }
{
    let mut rest = rows.as_slice();
    while let Some((first, others)) = rest.split_first() {
        if first.0.parent == dir.ino {
            return true;
        }
        rest = others;
    }
    false
}

// The inode that a path names, or the errno of the walk or of its end.
fn find_inode(
    alloc: Global,
    rows: &KeyMap<Inode>,
    cred: &Cred,
    path: &Path,
) -> Result<Result<Inode, Errno>, OutOfMemory>
    ensures { IfOk result (λ found. found ≡ inode_at rows.now.entries cred.now path.now) }
{
    match walk_path(alloc, rows, cred, path)? {
        Reached::Stop(errno) => Ok(Err(errno)),
        Reached::Ready { last, .. } => match rows.get(&last) {
            None => Ok(Err(Errno::Enoent)),
            Some(inode) => Ok(Ok(*inode)),
        },
    }
}

/// A mkdir or create: nothing may stand there, and the parent has to grant writing.
pub fn make(
    alloc: Global,
    rows: &KeyMap<Inode>,
    cred: &Cred,
    path: &Path,
) -> Result<Reply, OutOfMemory>
    ensures { IfOk result (λ reply. reply ≡ make_answer rows.now.entries cred.now (Good path.now)) }
{
    match walk_path(alloc, rows, cred, path)? {
        Reached::Stop(errno) => Ok(Reply::Fail(errno)),
        Reached::Ready { parent, last, .. } => {
            if rows.get(&last).is_some() {
                return Ok(Reply::Fail(Errno::Eexist));
            }
            if !parent_grants(cred, 2, &parent) {
                return Ok(Reply::Fail(Errno::Eacces));
            }
            Ok(Reply::Fine)
        }
    }
}

pub fn stat(
    alloc: Global,
    rows: &KeyMap<Inode>,
    cred: &Cred,
    path: &Path,
) -> Result<Reply, OutOfMemory>
    ensures { IfOk result (λ reply. reply ≡ answer rows.now.entries cred.now (op.Stat (Good path.now))) }
{
    match find_inode(alloc, rows, cred, path)? {
        Err(errno) => Ok(Reply::Fail(errno)),
        Ok(inode) => Ok(Reply::Stat(inode)),
    }
}

pub fn access(
    alloc: Global,
    rows: &KeyMap<Inode>,
    cred: &Cred,
    path: &Path,
    want: u8,
) -> Result<Reply, OutOfMemory>
    ensures { IfOk result (λ reply. reply ≡ answer rows.now.entries cred.now (op.Access (Good path.now) want)) }
{
    match find_inode(alloc, rows, cred, path)? {
        Err(errno) => Ok(Reply::Fail(errno)),
        Ok(inode) => {
            if !inode.grants(cred, want) {
                return Ok(Reply::Fail(Errno::Eacces));
            }
            Ok(Reply::Fine)
        }
    }
}

/// A chmod: for the owner and uid 0.
pub fn chmod(
    alloc: Global,
    rows: &KeyMap<Inode>,
    cred: &Cred,
    path: &Path,
    mode: u16,
) -> Result<Reply, OutOfMemory>
    ensures { IfOk result (λ reply. reply ≡ answer rows.now.entries cred.now (op.Chmod (Good path.now) mode)) }
{
    match find_inode(alloc, rows, cred, path)? {
        Err(errno) => Ok(Reply::Fail(errno)),
        Ok(inode) => {
            if cred.uid != 0 && cred.uid != inode.uid {
                return Ok(Reply::Fail(Errno::Eperm));
            }
            Ok(Reply::Fine)
        }
    }
}

/// A chown: for uid 0 alone.
pub fn chown(
    alloc: Global,
    rows: &KeyMap<Inode>,
    cred: &Cred,
    path: &Path,
    uid: u32,
    gid: u32,
) -> Result<Reply, OutOfMemory>
    ensures { IfOk result (λ reply. reply ≡ answer rows.now.entries cred.now (op.Chown (Good path.now) uid gid)) }
{
    match find_inode(alloc, rows, cred, path)? {
        Err(errno) => Ok(Reply::Fail(errno)),
        Ok(_) => {
            if cred.uid != 0 {
                return Ok(Reply::Fail(Errno::Eperm));
            }
            Ok(Reply::Fine)
        }
    }
}

pub fn truncate(
    alloc: Global,
    rows: &KeyMap<Inode>,
    cred: &Cred,
    path: &Path,
    size: u64,
) -> Result<Reply, OutOfMemory>
    ensures { IfOk result (λ reply. reply ≡ answer rows.now.entries cred.now (op.Truncate (Good path.now) size)) }
{
    match find_inode(alloc, rows, cred, path)? {
        Err(errno) => Ok(Reply::Fail(errno)),
        Ok(inode) => {
            if inode.kind == Kind::Dir {
                return Ok(Reply::Fail(Errno::Eisdir));
            }
            if !inode.grants(cred, 2) {
                return Ok(Reply::Fail(Errno::Eacces));
            }
            Ok(Reply::Fine)
        }
    }
}

/// A list: the names in a directory.
pub fn list(
    alloc: Global,
    rows: &KeyMap<Inode>,
    cred: &Cred,
    path: &Path,
) -> Result<Reply, OutOfMemory>
    ensures { IfOk result (λ reply. reply ≡ answer rows.now.entries cred.now (op.List (Good path.now))) }
{
    match find_inode(alloc, rows, cred, path)? {
        Err(errno) => Ok(Reply::Fail(errno)),
        Ok(inode) => {
            if inode.kind != Kind::Dir {
                return Ok(Reply::Fail(Errno::Enotdir));
            }
            if !inode.grants(cred, 4) {
                return Ok(Reply::Fail(Errno::Eacces));
            }
            Ok(Reply::Names(names_under(alloc, rows, inode.ino)?))
        }
    }
}

/// An unlink: a file's row goes.
pub fn unlink(
    alloc: Global,
    rows: &KeyMap<Inode>,
    cred: &Cred,
    path: &Path,
) -> Result<Reply, OutOfMemory>
    ensures { IfOk result (λ reply. reply ≡ unlink_answer rows.now.entries cred.now (Good path.now)) }
{
    match walk_path(alloc, rows, cred, path)? {
        Reached::Stop(errno) => Ok(Reply::Fail(errno)),
        Reached::Ready { parent, last, .. } => match rows.get(&last) {
            None => Ok(Reply::Fail(Errno::Enoent)),
            Some(inode) => {
                if !parent_grants(cred, 2, &parent) {
                    return Ok(Reply::Fail(Errno::Eacces));
                }
                match inode.kind {
                    Kind::Dir => Ok(Reply::Fail(Errno::Eperm)),
                    Kind::File => Ok(Reply::Fine),
                }
            }
        },
    }
}

/// A rmdir: an empty directory's row goes.
pub fn rmdir(
    alloc: Global,
    rows: &KeyMap<Inode>,
    cred: &Cred,
    path: &Path,
) -> Result<Reply, OutOfMemory>
    ensures { IfOk result (λ reply. reply ≡ rmdir_answer rows.now.entries cred.now (Good path.now)) }
{
    if path.names().is_empty() {
        return Ok(Reply::Fail(Errno::Ebusy));
    }
    match walk_path(alloc, rows, cred, path)? {
        Reached::Stop(errno) => Ok(Reply::Fail(errno)),
        Reached::Ready { parent, last, .. } => match rows.get(&last) {
            None => Ok(Reply::Fail(Errno::Enoent)),
            Some(inode) => Ok(removal(rows, cred, &parent, inode)),
        },
    }
}

// The checks of a rmdir on the row that stands there.
fn removal(rows: &KeyMap<Inode>, cred: &Cred, parent: &Option<Inode>, inode: &Inode) -> Reply
    ensures { result ≡ removal_answer rows.now.entries cred.now parent.now inode.now }
{
    if !parent_grants(cred, 2, parent) {
        return Reply::Fail(Errno::Eacces);
    }
    if inode.kind != Kind::Dir {
        return Reply::Fail(Errno::Enotdir);
    }
    if has_entries(rows, inode) {
        return Reply::Fail(Errno::Enotempty);
    }
    Reply::Fine
}

// What stands in the way of a move onto what is there.
fn replacement(rows: &KeyMap<Inode>, moved: &Inode, there: Option<&Inode>) -> Reply
    ensures { result ≡ replace_answer rows.now.entries moved.now (option_copied there.entry) }
{
    match there {
        None => Reply::Fine,
        Some(there) => match (moved.kind, there.kind) {
            (Kind::File, Kind::Dir) => Reply::Fail(Errno::Eisdir),
            (Kind::Dir, Kind::File) => Reply::Fail(Errno::Enotdir),
            (Kind::File, Kind::File) => Reply::Fine,
            (Kind::Dir, Kind::Dir) => {
                if has_entries(rows, there) {
                    Reply::Fail(Errno::Enotempty)
                } else {
                    Reply::Fine
                }
            }
        },
    }
}

// A rename after both walks.
fn moving(
    rows: &KeyMap<Inode>,
    cred: &Cred,
    old_parent: &Option<Inode>,
    old_last: &Key,
    new_parent: &Option<Inode>,
    passed: &[u64],
    new_last: &Key,
) -> Reply
    ensures { result ≡ move_answer rows.now.entries cred.now old_parent.now old_last.now new_parent.now passed.now new_last.now }
{
    let Some(moved) = rows.get(old_last) else {
        return Reply::Fail(Errno::Enoent);
    };
    if old_last.is_same(new_last) {
        return Reply::Fine;
    }
    if !(parent_grants(cred, 2, old_parent) && parent_grants(cred, 2, new_parent)) {
        return Reply::Fail(Errno::Eacces);
    }
    if moved.kind == Kind::Dir && passed.contains(&moved.ino) {
        return Reply::Fail(Errno::Einval);
    }
    replacement(rows, moved, rows.get(new_last))
}

/// A rename: a row moves under another key, in place of what stood there.
pub fn rename(
    alloc: Global,
    rows: &KeyMap<Inode>,
    cred: &Cred,
    old: &Path,
    new: &Path,
) -> Result<Reply, OutOfMemory>
    ensures { IfOk result (λ reply. reply ≡ rename_answer rows.now.entries cred.now (Good old.now) (Good new.now)) }
{
    if old.names().is_empty() || new.names().is_empty() {
        return Ok(Reply::Fail(Errno::Ebusy));
    }
    match walk_path(alloc, rows, cred, old)? {
        Reached::Stop(errno) => Ok(Reply::Fail(errno)),
        Reached::Ready {
            parent: old_parent,
            last: old_last,
            ..
        } => match walk_path(alloc, rows, cred, new)? {
            Reached::Stop(errno) => Ok(Reply::Fail(errno)),
            Reached::Ready {
                parent,
                passed,
                last,
            } => Ok(moving(
                rows,
                cred,
                &old_parent,
                &old_last,
                &parent,
                passed.as_slice(),
                &last,
            )),
        },
    }
}

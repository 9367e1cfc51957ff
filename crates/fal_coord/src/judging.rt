ghost use Rattle.std.specs.Prelude.{◌≡◌, ◌==◌, sum, IfOk, IsTrue};
ghost use Rattle.fal_coord.specs.Judged.{judged_of, putting_row as put_of, chmod_verdict, chown_verdict, rmdir_verdict, replace_verdict, rename_verdict, verdict_of, is_for_rows, counted_of};
ghost use Rattle.fal_coord.specs.Decided.{SaysInTrees, SaysOfParts};

use crate::judged::Verdict;
use crate::path_end::PathEnd;
use fal_base::{Cred, Dentry, Errno, Inode, Key, Kind, Op, OutOfMemory, PathArg, Update};
use std::alloc::Global;

// One row changes.
fn put(alloc: Global, key: Key, inode: Inode) -> Result<Verdict, OutOfMemory>
    ensures { IfOk result (λ verdict. judged_of verdict ≡ put_of key inode) }
{
    let row = Some(inode);
    Ok(Verdict::Change(vec![in alloc; Update { key, row }]?))
}

fn chmod(alloc: Global, cred: &Cred, end: PathEnd, mode: u16) -> Result<Verdict, OutOfMemory>
    ensures { IfOk result (λ verdict. judged_of verdict ≡ chmod_verdict cred.now end mode) }
{
    let Some(inode) = end.row else {
        return Ok(Verdict::Fail(Errno::Enoent));
    };
    if cred.uid != 0 && cred.uid != inode.uid {
        return Ok(Verdict::Fail(Errno::Eperm));
    }
    put(alloc, end.key, Inode { mode, ..inode })
}

fn chown(
    alloc: Global,
    cred: &Cred,
    end: PathEnd,
    uid: u32,
    gid: u32,
) -> Result<Verdict, OutOfMemory>
    ensures { IfOk result (λ verdict. judged_of verdict ≡ chown_verdict cred.now end uid gid) }
{
    let Some(inode) = end.row else {
        return Ok(Verdict::Fail(Errno::Enoent));
    };
    if cred.uid != 0 {
        return Ok(Verdict::Fail(Errno::Eperm));
    }
    put(alloc, end.key, Inode { uid, gid, ..inode })
}

fn rmdir(alloc: Global, cred: &Cred, end: PathEnd) -> Result<Verdict, OutOfMemory>
    ensures { IfOk result (λ verdict. judged_of verdict ≡ rmdir_verdict cred.now end) }
{
    let Some(inode) = end.row else {
        return Ok(Verdict::Fail(Errno::Enoent));
    };
    if !end.is_writable(cred) {
        return Ok(Verdict::Fail(Errno::Eacces));
    }
    if inode.kind != Kind::Dir {
        return Ok(Verdict::Fail(Errno::Enotdir));
    }
    let gone = Update {
        key: end.key,
        row: None,
    };
    Ok(Verdict::Count {
        dir: inode.ino,
        then: vec![in alloc; gone]?,
    })
}

// By these updates a row comes to where something stands, or nothing.
fn replace(moved: Inode, there: Option<Inode>, updates: Vec<Update>) -> Verdict
    ensures { judged_of result ≡ replace_verdict moved there updates.items }
{
    let Some(there) = there else {
        return Verdict::Change(updates);
    };
    match (moved.kind, there.kind) {
        (Kind::File, Kind::Dir) => Verdict::Fail(Errno::Eisdir),
        (Kind::Dir, Kind::File) => Verdict::Fail(Errno::Enotdir),
        (Kind::File, Kind::File) => Verdict::Change(updates),
        (Kind::Dir, Kind::Dir) => Verdict::Count {
            dir: there.ino,
            then: updates,
        },
    }
}

// `passed` are the numbers on the way to the new end.
fn rename(
    alloc: Global,
    cred: &Cred,
    old: PathEnd,
    new: PathEnd,
    passed: &[u64],
) -> Result<Verdict, OutOfMemory>
    ensures { IfOk result (λ verdict. judged_of verdict ≡ rename_verdict cred.now old new passed.now) }
{
    let Some(moved) = old.row else {
        return Ok(Verdict::Fail(Errno::Enoent));
    };
    if old.key.is_same(&new.key) {
        return Ok(Verdict::Same);
    }
    if !(old.is_writable(cred) && new.is_writable(cred)) {
        return Ok(Verdict::Fail(Errno::Eacces));
    }
    if moved.kind == Kind::Dir && passed.contains(&moved.ino) {
        return Ok(Verdict::Fail(Errno::Einval));
    }
    let gone = Update {
        key: old.key,
        row: None,
    };
    let come = Update {
        key: new.key,
        row: Some(moved),
    };
    Ok(replace(moved, new.row, vec![in alloc; gone, come]?))
}

#[tactic(auto, unfolding(crate::specs::Judged::verdict_of))]
fn judge(
    alloc: Global,
    cred: &Cred,
    op: &Op,
    parents: &[Option<Dentry>],
    inos: &[u64],
    rows: &[Update],
) -> Result<Verdict, OutOfMemory>
    requires { IsTrue (is_for_rows op.now parents.now) }
    ensures { IfOk result (λ verdict. judged_of verdict ≡ verdict_of cred.now op.now parents.now inos.now rows.now) }
{
    match (op, parents) {
        (
            Op::Chmod {
                path: PathArg::Good(path),
                mode,
            },
            [parent],
        ) => {
            let end = PathEnd::find(alloc, rows, parent, path)?;
            chmod(alloc, cred, end, *mode)
        }
        (
            Op::Chown {
                path: PathArg::Good(path),
                uid,
                gid,
            },
            [parent],
        ) => {
            let end = PathEnd::find(alloc, rows, parent, path)?;
            chown(alloc, cred, end, *uid, *gid)
        }
        (
            Op::Rmdir {
                path: PathArg::Good(path),
            },
            [parent],
        ) => {
            let end = PathEnd::find(alloc, rows, parent, path)?;
            rmdir(alloc, cred, end)
        }
        (
            Op::Rename {
                old: PathArg::Good(from),
                new: PathArg::Good(to),
            },
            [old_parent, new_parent],
        ) => {
            let old = PathEnd::find(alloc, rows, old_parent, from)?;
            let new = PathEnd::find(alloc, rows, new_parent, to)?;
            rename(alloc, cred, old, new, inos)
        }
        _ => unreachable!(),
    }
}

/// What a chmod, chown, rmdir or rename comes to, by the checks in their order; the first that fails is the answer (POSIX.1-2017, XSH:
/// chmod, chown, rmdir and rename; that chown is for root alone, and that root passes every check, are this service's choices).
///
/// - All: ENOENT where nothing stands under the last key, of a rename under the old one.
/// - chmod: EPERM for others than root and the owner. chown: EPERM for others than root.
/// - rmdir: EACCES without write permission on the parent, ENOTDIR for a file; a directory is removed where it is empty.
/// - rename: ok without a change where both paths have one last key; EACCES without write permission on one of the parents; EINVAL for a
///   directory to itself or below it; EISDIR for a file over a directory, ENOTDIR for a directory over a file; a directory is replaced
///   where it is empty.
///
/// The paths are good, and of a rmdir or rename none is the root path, which is answered before any walk. `parents` has the directory of
/// each path's last name, None exactly for the root path, and `inos` the numbers that the walk of the last path passed. `rows` tells what
/// stands under the last keys: a key that it lacks counts as missing, and of several the first counts.
///
/// In every tree in which these walks and rows are so, the verdict says what is answered there, and which updates are the change. Answers
/// want of memory where there is too little.
pub fn verdict(
    alloc: Global,
    cred: &Cred,
    op: &Op,
    parents: &[Option<Dentry>],
    inos: &[u64],
    rows: &[Update],
) -> Result<Verdict, OutOfMemory>
    requires { IsTrue (is_for_rows op.now parents.now) }
    ensures verdict { IfOk result (λ verdict. judged_of verdict ≡ verdict_of cred.now op.now parents.now inos.now rows.now) }
    ensures in_trees { IfOk result (λ verdict. SaysInTrees cred.now op.now parents.now inos.now rows.now (judged_of verdict)) }
{
    judge(alloc, cred, op, parents, inos, rows)
}

// Whether the counts make 0 together. No sum is made, which could be too large.
fn are_zero(counts: &[u64]) -> bool
    ensures { result ≡ (sum counts.now == 0) }
{
    counts.iter().all(|count| *count == 0)
}

/// What the nodes' counts make of a `Count`: the updates where they make 0 together, and else ENOTEMPTY (POSIX.1-2017, XSH: rmdir and
/// rename). Takes no memory.
///
/// Where each count is that of a part of the tree, and the `Count` says of the tree what is so, this does.
pub fn counted(counts: &[u64], then: Vec<Update>) -> Verdict
    ensures counted { judged_of result ≡ counted_of counts.now then.items }
    ensures in_parts { SaysOfParts counts.now then.items (judged_of result) }
{
    if are_zero(counts) {
        Verdict::Change(then)
    } else {
        Verdict::Fail(Errno::Enotempty)
    }
}

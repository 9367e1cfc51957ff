ghost use Rattle.std.specs.Prelude.{◌≡◌, IsSome};
ghost use Rattle.std.specs.Option.{option_copied};
ghost use Rattle.fal_base.specs.Change.{new_row as new_row_of};
ghost use Rattle.fal_base.specs.Walk.{kept_grants as parent_grants_of};
ghost use Rattle.fal_exec.specs.Outcome.{without_change as kept_of, make_outcome, access_outcome, changed, chmod_outcome, chown_outcome, truncate_outcome, unlink_outcome, list_outcome, outcome_of};
ghost use Rattle.fal_exec.specs.RowCall.{row_names};
ghost use Rattle.fal_exec.specs.Executed.{IsExecutedInTrees};

use crate::outcome::{Change, ExecOut};
use fal_base::{Cred, Dentry, Errno, Inode, Kind, Op, Reply};

// The call is answered, and the row stays.
fn kept(reply: Reply) -> ExecOut
    ensures { result ≡ kept_of reply }
{
    ExecOut::Finish {
        reply,
        change: Change::Keep,
    }
}

fn failed(errno: Errno) -> ExecOut
    ensures { result ≡ kept_of (Reply.Fail errno) }
{
    kept(Reply::Fail(errno))
}

fn done(change: Change) -> ExecOut
    ensures { result ≡ ExecOut.Finish Reply.Fine change }
{
    ExecOut::Finish {
        reply: Reply::Fine,
        change,
    }
}

// Whether the caller may write in the directory of the last name. Above the root nothing is refused.
fn may_write_in(parent: Option<&Dentry>, cred: &Cred) -> bool
    ensures { result ≡ parent_grants_of cred.now 2 (option_copied parent.entry) }
{
    match parent {
        None => true,
        Some(dir) => dir.grants(cred, 2),
    }
}

fn new_row(cred: &Cred, kind: Kind, mode: u16, ino: u64) -> Inode
    ensures { result ≡ new_row_of cred.now kind mode ino }
{
    Inode {
        ino,
        kind,
        mode,
        uid: cred.uid,
        gid: cred.gid,
        size: 0,
    }
}

// A new row, where none stands.
fn make(parent: Option<&Dentry>, cred: &Cred, made: Inode) -> ExecOut
    ensures { result ≡ make_outcome None (option_copied parent.entry) cred.now made }
{
    if may_write_in(parent, cred) {
        done(Change::Put(made))
    } else {
        failed(Errno::Eacces)
    }
}

fn access(cred: &Cred, want: u8, inode: &Inode) -> ExecOut
    ensures { result ≡ access_outcome cred.now want inode.now }
{
    if inode.grants(cred, want) {
        kept(Reply::Fine)
    } else {
        failed(Errno::Eacces)
    }
}

// A directory's mode and owner are in replicas, so their change is passed on.
fn put_changed(inode: &Inode, now: Inode) -> ExecOut
    ensures { result ≡ changed inode.now now }
{
    match inode.kind {
        Kind::Dir => ExecOut::PassOn,
        Kind::File => done(Change::Put(now)),
    }
}

fn chmod(cred: &Cred, mode: u16, inode: &Inode) -> ExecOut
    ensures { result ≡ chmod_outcome cred.now mode inode.now }
{
    if cred.uid != 0 && cred.uid != inode.uid {
        return failed(Errno::Eperm);
    }
    put_changed(inode, Inode { mode, ..*inode })
}

fn chown(cred: &Cred, uid: u32, gid: u32, inode: &Inode) -> ExecOut
    ensures { result ≡ chown_outcome cred.now uid gid inode.now }
{
    if cred.uid != 0 {
        return failed(Errno::Eperm);
    }
    put_changed(inode, Inode { uid, gid, ..*inode })
}

fn truncate(cred: &Cred, size: u64, inode: &Inode) -> ExecOut
    ensures { result ≡ truncate_outcome cred.now size inode.now }
{
    if inode.kind == Kind::Dir {
        return failed(Errno::Eisdir);
    }
    if !inode.grants(cred, 2) {
        return failed(Errno::Eacces);
    }
    done(Change::Put(Inode { size, ..*inode }))
}

fn unlink(parent: Option<&Dentry>, cred: &Cred, inode: &Inode) -> ExecOut
    ensures { result ≡ unlink_outcome (option_copied parent.entry) cred.now inode.now }
{
    if !may_write_in(parent, cred) {
        return failed(Errno::Eacces);
    }
    match inode.kind {
        Kind::Dir => failed(Errno::Eperm),
        Kind::File => done(Change::Remove),
    }
}

fn list(cred: &Cred, inode: &Inode) -> ExecOut
    ensures { result ≡ list_outcome cred.now inode.now }
{
    if inode.kind != Kind::Dir {
        return failed(Errno::Enotdir);
    }
    if !inode.grants(cred, 4) {
        return failed(Errno::Eacces);
    }
    ExecOut::Opened(inode.ino)
}

fn without_row(parent: Option<&Dentry>, cred: &Cred, op: &Op, fresh: u64) -> ExecOut
    requires { IsSome (row_names op.now) }
    ensures { result ≡ outcome_of None (option_copied parent.entry) cred.now op.now fresh }
{
    match op {
        Op::Mkdir { mode, .. } => make(parent, cred, new_row(cred, Kind::Dir, *mode, fresh)),
        Op::Create { mode, .. } => make(parent, cred, new_row(cred, Kind::File, *mode, fresh)),
        _ => failed(Errno::Enoent),
    }
}

fn on_row(inode: &Inode, parent: Option<&Dentry>, cred: &Cred, op: &Op, fresh: u64) -> ExecOut
    requires { IsSome (row_names op.now) }
    ensures { result ≡ outcome_of (Some inode.now) (option_copied parent.entry) cred.now op.now fresh }
{
    match op {
        Op::Mkdir { .. } | Op::Create { .. } => failed(Errno::Eexist),
        Op::Stat { .. } => kept(Reply::Stat(*inode)),
        Op::Access { want, .. } => access(cred, *want, inode),
        Op::Chmod { mode, .. } => chmod(cred, *mode, inode),
        Op::Chown { uid, gid, .. } => chown(cred, *uid, *gid, inode),
        Op::Truncate { size, .. } => truncate(cred, *size, inode),
        Op::Unlink { .. } => unlink(parent, cred, inode),
        Op::List { .. } => list(cred, inode),
        _ => unreachable!(),
    }
}

fn outcome(
    row: Option<&Inode>,
    parent: Option<&Dentry>,
    cred: &Cred,
    op: &Op,
    fresh: u64,
) -> ExecOut
    requires { IsSome (row_names op.now) }
    ensures { result ≡ outcome_of (option_copied row.entry) (option_copied parent.entry) cred.now op.now fresh }
{
    match row {
        None => without_row(parent, cred, op, fresh),
        Some(inode) => on_row(inode, parent, cred, op, fresh),
    }
}

/// One call on one row, by the row under the last key of its path and the directory of its last name, after the walk. `row` is None
/// where nothing stands there, and `parent` is None exactly for the root path. A mkdir or create gives its new row the number `fresh`.
/// Takes no memory.
///
/// The checks run in their order and the first that fails is the answer (POSIX.1-2017, XSH: mkdir, open, stat, access, chmod, chown,
/// truncate, unlink and readdir). `Opened` comes exactly for a list that is answered with names, and `PassOn` exactly for a chmod or
/// chown that is answered ok and whose row is a directory.
pub fn exec(
    row: Option<&Inode>,
    parent: Option<&Dentry>,
    cred: &Cred,
    op: &Op,
    fresh: u64,
) -> ExecOut
    requires { IsSome (row_names op.now) }
    ensures outcome { result ≡ outcome_of (option_copied row.entry) (option_copied parent.entry) cred.now op.now fresh }
    ensures in_trees { IsExecutedInTrees (option_copied row.entry) (option_copied parent.entry) cred.now op.now fresh result }
{
    outcome(row, parent, cred, op, fresh)
}

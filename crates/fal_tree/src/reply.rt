ghost use Rattle.std.specs.Prelude.{◌≡◌, IfOk, None};
ghost use Rattle.fal_base.specs.Answer.{answer as answer_of};
ghost use Rattle.fal_base.specs.OpPaths.{bad_path};
ghost use Rattle.fal_tree.specs.Refused.{IsOfTree};

use crate::answers;
use fal_base::{Cred, Inode, KeyMap, Op, OutOfMemory, PathArg, Reply};
use std::alloc::Global;

// The reply to a call whose paths are good.
#[tactic(auto, unfolding(fal_base::specs::OpPaths::bad_path))]
fn good_reply(
    alloc: Global,
    rows: &KeyMap<Inode>,
    cred: &Cred,
    op: &Op,
) -> Result<Reply, OutOfMemory>
    requires of_tree { IsOfTree op.now }
    requires good { bad_path op.now ≡ None }
    ensures { IfOk result (λ reply. reply ≡ answer_of rows.now.entries cred.now op.now) }
{
    match op {
        Op::Mkdir {
            path: PathArg::Good(path),
            ..
        } => answers::make(alloc, rows, cred, path),
        Op::Create {
            path: PathArg::Good(path),
            ..
        } => answers::make(alloc, rows, cred, path),
        Op::Stat {
            path: PathArg::Good(path),
        } => answers::stat(alloc, rows, cred, path),
        Op::Access {
            path: PathArg::Good(path),
            want,
        } => answers::access(alloc, rows, cred, path, *want),
        Op::Chmod {
            path: PathArg::Good(path),
            mode,
        } => answers::chmod(alloc, rows, cred, path, *mode),
        Op::Chown {
            path: PathArg::Good(path),
            uid,
            gid,
        } => answers::chown(alloc, rows, cred, path, *uid, *gid),
        Op::Truncate {
            path: PathArg::Good(path),
            size,
        } => answers::truncate(alloc, rows, cred, path, *size),
        Op::Unlink {
            path: PathArg::Good(path),
        } => answers::unlink(alloc, rows, cred, path),
        Op::Rmdir {
            path: PathArg::Good(path),
        } => answers::rmdir(alloc, rows, cred, path),
        Op::Rename {
            old: PathArg::Good(old),
            new: PathArg::Good(new),
        } => answers::rename(alloc, rows, cred, old, new),
        Op::List {
            path: PathArg::Good(path),
        } => answers::list(alloc, rows, cred, path),
        _ => unreachable!(),
    }
}

/// The reply to a call. A bad path is answered before anything else.
#[tactic(auto, unfolding(fal_base::specs::OpPaths::bad_path))]
pub fn reply_to(
    alloc: Global,
    rows: &KeyMap<Inode>,
    cred: &Cred,
    op: &Op,
) -> Result<Reply, OutOfMemory>
    requires { IsOfTree op.now }
    ensures { IfOk result (λ reply. reply ≡ answer_of rows.now.entries cred.now op.now) }
{
    match op.bad_path() {
        Some(fault) => Ok(Reply::Fail(fault.errno())),
        None => good_reply(alloc, rows, cred, op),
    }
}

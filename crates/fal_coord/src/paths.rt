//! Which calls the coordinator carries out.

ghost use Rattle.std.specs.Prelude.{◌≡◌};
ghost use Rattle.fal_base.specs.Answer.{is_root as is_root_path};
ghost use Rattle.fal_coord.specs.Walks.{is_operation as is_operation_of, is_busy as is_busy_of};

use fal_base::{Op, Path, PathArg};

// Whether the coordinator carries the call out: a chmod, chown, rmdir or rename with good paths, or a place.
pub(crate) fn is_operation(op: &Op) -> bool
    ensures { result ≡ is_operation_of op.now }
{
    match op {
        Op::Chmod {
            path: PathArg::Good(_),
            ..
        } => true,
        Op::Chown {
            path: PathArg::Good(_),
            ..
        } => true,
        Op::Rmdir {
            path: PathArg::Good(_),
        } => true,
        Op::Rename {
            old: PathArg::Good(_),
            new: PathArg::Good(_),
        } => true,
        Op::Place { .. } => true,
        _ => false,
    }
}

fn is_root(path: &Path) -> bool
    ensures { result ≡ is_root_path path.now }
{
    path.names().is_empty()
}

// Whether it is a rmdir of the root, or a rename with a root path.
pub(crate) fn is_busy(op: &Op) -> bool
    ensures { result ≡ is_busy_of op.now }
{
    match op {
        Op::Rmdir {
            path: PathArg::Good(path),
        } => is_root(path),
        Op::Rename {
            old: PathArg::Good(old),
            new: PathArg::Good(new),
        } => is_root(old) || is_root(new),
        _ => false,
    }
}

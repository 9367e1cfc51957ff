//! Where a call goes, and what is answered where it may not go.

ghost use Rattle.std.specs.Prelude.{◌≡◌};
ghost use Rattle.fal_base.specs.Answer.{errno_of as errno_of_fault};
ghost use Rattle.fal_client.specs.Paths.{node_for as node_for_path, addressee as addressee_of};

use fal_base::{Actor, Errno, Op, PathArg, PathFault};
use fal_place::Table;

// The errno of a broken path rule.
pub fn errno_of(fault: PathFault) -> Errno
    ensures { result ≡ errno_of_fault fault }
{
    match fault {
        PathFault::TooLong => Errno::Enametoolong,
        PathFault::NameTooLong => Errno::Enametoolong,
        PathFault::Relative => Errno::Einval,
        PathFault::Dot => Errno::Einval,
        PathFault::ZeroByte => Errno::Einval,
        PathFault::OutOfMemory => Errno::Einval,
    }
}

fn node_for(table: &Table, path: &PathArg) -> Actor
    ensures { result ≡ node_for_path table.now path.now }
{
    match path {
        PathArg::Good(path) => Actor::Node(table.route(path)),
        PathArg::Bad { .. } => Actor::Node(0),
    }
}

// To whom a call goes.
#[tactic(auto, unfolding(crate::specs::Paths::addressee))]
pub fn addressee(table: &Table, op: &Op) -> Actor
    ensures { result ≡ addressee_of table.now op.now }
{
    match op {
        Op::Mkdir { path, .. } => node_for(table, path),
        Op::Create { path, .. } => node_for(table, path),
        Op::Stat { path } => node_for(table, path),
        Op::Access { path, .. } => node_for(table, path),
        Op::Chmod { path, .. } => node_for(table, path),
        Op::Chown { path, .. } => node_for(table, path),
        Op::Truncate { path, .. } => node_for(table, path),
        Op::Unlink { path } => node_for(table, path),
        Op::Rmdir { .. } => Actor::Coord,
        Op::Rename { .. } => Actor::Coord,
        Op::List { path } => node_for(table, path),
        Op::Place { .. } => Actor::Coord,
    }
}

ghost use Rattle.std.specs.Prelude.{◌≡◌};
ghost use Rattle.std.specs.Option.{option_copied};
ghost use Rattle.fal_base.specs.OpPaths.{op_names, bad_path as bad_path_of, first_of, fault_of};

use crate::memory::{Duplicate, OutOfMemory};
use crate::name::Name;
use crate::path::{Path, PathArg, PathFault};
use crate::rule::Rule;

/// An operation with its arguments. A mode has the nine permission bits, `want` is 4 to read, 2 to write and 1 to search.
#[derive(Debug, Drop)]
pub enum Op {
    /// Makes a directory.
    Mkdir { path: PathArg, mode: u16 },
    /// Makes a file where nothing stands yet.
    Create { path: PathArg, mode: u16 },
    /// Tells the inode.
    Stat { path: PathArg },
    /// Tells whether the caller may do all that is wanted.
    Access { path: PathArg, want: u8 },
    /// Sets the permission bits.
    Chmod { path: PathArg, mode: u16 },
    /// Sets owner and group.
    Chown { path: PathArg, uid: u32, gid: u32 },
    /// Sets a file's size.
    Truncate { path: PathArg, size: u64 },
    /// Removes a file.
    Unlink { path: PathArg },
    /// Removes an empty directory.
    Rmdir { path: PathArg },
    /// Moves a file or a directory, onto what stands there where that may be replaced.
    Rename { old: PathArg, new: PathArg },
    /// Tells the names in a directory.
    List { path: PathArg },
    /// Sets where the keys with a name live.
    Place { name: Name, rule: Rule },
}

impl Duplicate for Op {
    fn copy(&self) -> Result<Self, OutOfMemory> {
        match self {
            Op::Mkdir { path, mode } => Ok(Op::Mkdir {
                path: path.copy()?,
                mode: *mode,
            }),
            Op::Create { path, mode } => Ok(Op::Create {
                path: path.copy()?,
                mode: *mode,
            }),
            Op::Stat { path } => Ok(Op::Stat { path: path.copy()? }),
            Op::Access { path, want } => Ok(Op::Access {
                path: path.copy()?,
                want: *want,
            }),
            Op::Chmod { path, mode } => Ok(Op::Chmod {
                path: path.copy()?,
                mode: *mode,
            }),
            Op::Chown { path, uid, gid } => Ok(Op::Chown {
                path: path.copy()?,
                uid: *uid,
                gid: *gid,
            }),
            Op::Truncate { path, size } => Ok(Op::Truncate {
                path: path.copy()?,
                size: *size,
            }),
            Op::Unlink { path } => Ok(Op::Unlink { path: path.copy()? }),
            Op::Rmdir { path } => Ok(Op::Rmdir { path: path.copy()? }),
            Op::Rename { old, new } => Ok(Op::Rename {
                old: old.copy()?,
                new: new.copy()?,
            }),
            Op::List { path } => Ok(Op::List { path: path.copy()? }),
            Op::Place { name, rule } => Ok(Op::Place {
                name: name.copy()?,
                rule: *rule,
            }),
        }
    }
}

// The rule that the first bad one of two paths breaks.
fn first_fault(old: &PathArg, new: &PathArg) -> Option<PathFault>
    ensures { result ≡ first_of (fault_of old.now) (fault_of new.now) }
{
    match old.fault() {
        Some(fault) => Some(fault),
        None => new.fault(),
    }
}

impl Op {
    /// The operation's path, where it has exactly one and that is good: a rename has two, and a change of placement none.
    pub fn only_path(&self) -> Option<&Path>
        ensures { option_copied result ≡ op_names self.now }
    {
        match self {
            Op::Mkdir { path, .. } => path.good(),
            Op::Create { path, .. } => path.good(),
            Op::Stat { path } => path.good(),
            Op::Access { path, .. } => path.good(),
            Op::Chmod { path, .. } => path.good(),
            Op::Chown { path, .. } => path.good(),
            Op::Truncate { path, .. } => path.good(),
            Op::Unlink { path } => path.good(),
            Op::Rmdir { path } => path.good(),
            Op::Rename { .. } => None,
            Op::List { path } => path.good(),
            Op::Place { .. } => None,
        }
    }

    /// The rule that the operation's first bad path breaks. None exactly where all its paths are good.
    #[tactic(auto, unfolding(crate::specs::OpPaths::bad_path))]
    pub fn bad_path(&self) -> Option<PathFault>
        ensures { result ≡ bad_path_of self.now }
    {
        match self {
            Op::Mkdir { path, .. } => path.fault(),
            Op::Create { path, .. } => path.fault(),
            Op::Stat { path } => path.fault(),
            Op::Access { path, .. } => path.fault(),
            Op::Chmod { path, .. } => path.fault(),
            Op::Chown { path, .. } => path.fault(),
            Op::Truncate { path, .. } => path.fault(),
            Op::Unlink { path } => path.fault(),
            Op::Rmdir { path } => path.fault(),
            Op::Rename { old, new } => first_fault(old, new),
            Op::List { path } => path.fault(),
            Op::Place { .. } => None,
        }
    }
}

use fal_base::OutOfMemory;
use thiserror::Error;

/// Why a tree is not changed: the call makes no commit here, a new row's number is 0 or stands in the tree, or want of memory.
#[derive(Clone, Copy, Debug, PartialEq, Eq, Error)]
pub enum ApplyFault {
    #[error("the call makes no commit")]
    NoCommit,
    #[error("the number is not fresh")]
    NotFresh,
    #[error("out of memory")]
    OutOfMemory,
}

impl From<OutOfMemory> for ApplyFault {
    ghost use Rattle.std.specs.Prelude.{◌≡◌};
    ghost use Rattle.fal_tree.specs.declared.fault.ApplyFault.TheVariants.{OutOfMemory as memory};

    ghost from_gives = { λ _ fault. fault ≡ memory };

    fn from(_: OutOfMemory) -> Self {
        ApplyFault::OutOfMemory
    }
}

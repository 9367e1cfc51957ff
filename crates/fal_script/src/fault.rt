ghost use Rattle.std.specs.Prelude.{◌≡◌};

use fal_base::OutOfMemory;
use std::alloc::{AllocError, AllocFailed};
use thiserror::Error;

/// Why bytes are no script: the first line that breaks a rule and the lowest rule that it breaks, or want of memory.
#[derive(Clone, Copy, Debug, PartialEq, Eq, Error)]
pub enum ScriptFault {
    /// This line, counted from 1, breaks this rule.
    #[error("line {line} breaks rule {rule}")]
    Fault { line: u32, rule: u8 },
    /// Memory was refused.
    #[error("out of memory")]
    OutOfMemory,
}

/// Why a line is not read: the lowest rule that it breaks, or want of memory.
#[derive(Clone, Copy, Debug, PartialEq, Eq)]
pub enum Broken {
    /// It breaks this rule.
    Rule(u8),
    /// Memory was refused.
    OutOfMemory,
}

impl From<AllocError> for Broken {
    ghost use Rattle.fal_script.specs.declared.fault.Broken.TheVariants as broken;

    ghost from_gives = { λ _ e. e ≡ broken.OutOfMemory };

    fn from(_: AllocError) -> Broken {
        Broken::OutOfMemory
    }
}

impl<T: Drop> From<AllocFailed<T>> for Broken {
    ghost use Rattle.fal_script.specs.declared.fault.Broken.TheVariants as broken;

    ghost from_gives = { λ _ e. e ≡ broken.OutOfMemory };

    fn from(_: AllocFailed<T>) -> Broken {
        Broken::OutOfMemory
    }
}

impl From<OutOfMemory> for Broken {
    ghost use Rattle.fal_script.specs.declared.fault.Broken.TheVariants as broken;

    ghost from_gives = { λ _ e. e ≡ broken.OutOfMemory };

    fn from(_: OutOfMemory) -> Broken {
        Broken::OutOfMemory
    }
}

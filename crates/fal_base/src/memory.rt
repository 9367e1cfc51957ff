ghost use Rattle.std.specs.Prelude.{◌≡◌, IfOk};

use std::alloc::{AllocError, AllocFailed};

/// Memory was refused. Nothing that the refused call was to change has changed, except for room.
#[derive(Clone, Copy, Debug, PartialEq, Eq)]
pub struct OutOfMemory;

impl From<AllocError> for OutOfMemory {
    fn from(_: AllocError) -> Self {
        OutOfMemory
    }
}

impl<T: Drop> From<AllocFailed<T>> for OutOfMemory {
    fn from(_: AllocFailed<T>) -> Self {
        OutOfMemory
    }
}

/// What can be copied into an equal value.
pub trait Duplicate {
    /// An equal value, or want of memory.
    fn copy(&self) -> Result<Self, OutOfMemory>
        ensures { IfOk result (λ copied. copied ≡ self.now) };
}

impl Duplicate for u8 {
    fn copy(&self) -> Result<Self, OutOfMemory> {
        Ok(*self)
    }
}

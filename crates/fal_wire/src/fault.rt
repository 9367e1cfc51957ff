ghost use Rattle.std.specs.Prelude.{◌≡◌};

use fal_base::OutOfMemory;
use std::alloc::{AllocError, AllocFailed};
use thiserror::Error;

/// Why bytes are no record: the first fault from the left, with its place counted from the record's first byte, or want of memory.
#[derive(Clone, Copy, Debug, PartialEq, Eq, Error)]
pub enum WireFault {
    /// Fewer bytes are there than the record says; the place is their number.
    #[error("the record is cut short at byte {at}")]
    Short { at: usize },
    /// The first byte is no kind of record.
    #[error("byte {at} is no kind of record")]
    Kind { at: usize },
    /// A field reaches past the body, or the fields end before it does.
    #[error("the field at byte {at} does not end with the body")]
    Length { at: usize },
    /// A field's value is out of its range or out of order.
    #[error("the value of the field at byte {at} is not allowed")]
    Value { at: usize },
    /// More bytes are there than the record says.
    #[error("bytes follow the record from byte {at} on")]
    Trailing { at: usize },
    /// Memory was refused.
    #[error("out of memory")]
    OutOfMemory,
}

/// Why reading stops.
#[derive(Debug, Drop)]
pub enum Stop {
    Memory,
    Fault(WireFault),
}

impl From<AllocError> for Stop {
    ghost use Rattle.fal_wire.specs.declared.fault.Stop.TheVariants.{Memory};

    ghost from_gives = { λ _ e. e ≡ Memory };

    fn from(_: AllocError) -> Stop {
        Stop::Memory
    }
}

impl<T: Drop> From<AllocFailed<T>> for Stop {
    ghost use Rattle.fal_wire.specs.declared.fault.Stop.TheVariants.{Memory};

    ghost from_gives = { λ _ e. e ≡ Memory };

    fn from(_: AllocFailed<T>) -> Stop {
        Stop::Memory
    }
}

impl From<OutOfMemory> for Stop {
    ghost use Rattle.fal_wire.specs.declared.fault.Stop.TheVariants.{Memory};

    ghost from_gives = { λ _ e. e ≡ Memory };

    fn from(_: OutOfMemory) -> Stop {
        Stop::Memory
    }
}

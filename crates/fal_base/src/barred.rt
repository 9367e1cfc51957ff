use crate::memory::{Duplicate, OutOfMemory};
use crate::name::Name;

/// The names that a node keeps shut while rows move: none, one, or all of them.
#[derive(Debug, Drop)]
pub enum Barred {
    /// No name.
    Nothing,
    /// This one.
    One(Name),
    /// Every name but the empty one, which the root's key alone has.
    All,
}

impl Duplicate for Barred {
    fn copy(&self) -> Result<Self, OutOfMemory> {
        match self {
            Barred::Nothing => Ok(Barred::Nothing),
            Barred::One(name) => Ok(Barred::One(name.copy()?)),
            Barred::All => Ok(Barred::All),
        }
    }
}

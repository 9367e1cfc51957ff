ghost use Rattle.std.specs.Prelude.{◌≡◌, ◌≤◌, [], length, IfOk, Ok, IsTrue};
ghost use Rattle.std.specs.Prelude.{◌==◌};
ghost use Rattle.std.proofs.Common.{rules};
ghost use Rattle.std.specs.Cmp.{partial_order_from_own_ties};
ghost use Rattle.std.specs.Cmp.Rules.{comparing};
ghost use Rattle.std.specs.Cmp.Lexicographic.{pointwise, slice_cmp};
ghost use Rattle.std.specs.Ordering.{nat_cmp, as_partial_cmp};
ghost use Rattle.fal_base.specs.Unless.{UnlessMemory};
ghost use Rattle.fal_base.specs.Names.{name_of, is_name};
ghost use Rattle.fal_base.specs.Paths.{is_dot as is_dot_name};

use crate::memory::{Duplicate, OutOfMemory};
use std::alloc::Global;
use std::cmp::Ordering;
use std::marker::Model;

/// Why bytes are no name, or want of memory.
#[derive(Clone, Copy, Debug, PartialEq, Eq)]
pub enum NameFault {
    /// There are none.
    Empty,
    /// There are more than 255.
    TooLong,
    /// One of them is a slash.
    Slash,
    /// One of them is zero.
    ZeroByte,
    /// They are `.` or `..`.
    Dot,
    /// Memory was refused.
    OutOfMemory,
}

/// One component of a path: 1 to 255 bytes, or none in the root's key alone.
#[derive(Debug, Drop)]
pub struct Name {
    bytes: Vec<u8>,
}

impl Model for Name {
    ghost use Rattle.std.specs.Prelude.{List, ℕ, length, ◌≤◌};

    ghost Value = { List ℕ };

    ghost view = { λ n. n.bytes.items };

    ghost invariant = { λ n. length n.bytes.items ≤ 255 };
}

impl Name {
    /// The name in the root's key, which has no bytes. Takes no memory.
    pub fn root(alloc: Global) -> Self
        ensures { result ≡ [] }
    {
        Name {
            bytes: Vec::new(alloc),
        }
    }

    /// Its bytes, of which there are at most 255. Takes no memory.
    pub fn bytes(&self) -> &[u8]
        ensures bytes { result.now ≡ self.now }
        ensures short { length self.now ≤ 255 }
    {
        &self.bytes
    }
}

// Whether a name is the one that stands for a directory itself or for the one above it.
pub fn is_dot(bytes: &[u8]) -> bool
    ensures { result ≡ is_dot_name bytes.now }
{
    bytes == b".".as_slice() || bytes == b"..".as_slice()
}

impl Name {
    /// The name with these bytes. Refused with the first that holds of `Empty`, `TooLong` (more than 255 bytes), `Slash`, `ZeroByte` and
    /// `Dot` (`.` or `..`).
    #[tactic(auto, unfolding(crate::specs::Names::is_name))]
    pub fn read(alloc: Global, bytes: &[u8]) -> Result<Name, NameFault>
        ensures name { UnlessMemory NameFault.OutOfMemory result (name_of bytes.now) }
        ensures good { IfOk result (λ name. IsTrue (is_name name)) }
    {
        if bytes.is_empty() {
            return Err(NameFault::Empty);
        }
        if bytes.len() > 255 {
            return Err(NameFault::TooLong);
        }
        if bytes.contains(&b'/') {
            return Err(NameFault::Slash);
        }
        if bytes.contains(&0) {
            return Err(NameFault::ZeroByte);
        }
        if is_dot(bytes) {
            return Err(NameFault::Dot);
        }
        match Vec::from_slice(alloc, bytes) {
            Ok(bytes) => Ok(Name { bytes }),
            Err(_) => Err(NameFault::OutOfMemory),
        }
    }
}

impl Name {
    // A name with these bytes, which are few enough.
    pub(crate) fn from_short(alloc: Global, bytes: &[u8]) -> Result<Name, OutOfMemory>
        requires { length bytes.now ≤ 255 }
        ensures { IfOk result (λ name. name ≡ bytes.now) }
    {
        Ok(Name {
            bytes: Vec::from_slice(alloc, bytes)?,
        })
    }
}

impl PartialEq for Name {
    ghost eq = { pointwise ◌==◌ };

    ghost laws = { Prim.search (comparing, rules) };

    fn eq(&self, other: &Name) -> bool {
        self.bytes.as_slice() == other.bytes.as_slice()
    }
}

impl Eq for Name {
    ghost laws = { Prim.search (comparing, rules) };
}

impl PartialOrd for Name {
    ghost partial_cmp = { as_partial_cmp (slice_cmp nat_cmp) };

    ghost laws = { partial_order_from_own_ties (Prim.search (comparing, rules)) (Prim.search (comparing, rules)) };

    fn partial_cmp(&self, other: &Name) -> Option<Ordering> {
        Some(self.cmp(other))
    }
}

impl Ord for Name {
    ghost cmp = { slice_cmp nat_cmp };

    ghost total = { Prim.search (comparing, rules) };

    ghost matches_partial_cmp = { Prim.search (comparing, rules) };

    ghost matches_eq = { Prim.search (comparing, rules) };

    fn cmp(&self, other: &Name) -> Ordering {
        self.bytes.as_slice().cmp(other.bytes.as_slice())
    }
}

impl Duplicate for Name {
    fn copy(&self) -> Result<Self, OutOfMemory> {
        let bytes = Vec::from_slice(*self.bytes.allocator(), self.bytes.as_slice())?;
        Ok(Name { bytes })
    }
}

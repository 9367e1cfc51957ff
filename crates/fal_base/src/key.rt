ghost use Rattle.std.specs.Prelude.{◌≡◌};
ghost use Rattle.fal_base.specs.Tree.{key_cmp, key_of, same_key, root_key};

use crate::memory::{Duplicate, OutOfMemory};
use crate::name::Name;
use std::alloc::Global;
use std::cmp::Ordering;

/// Where an inode stands: its directory's number and its name there. The root's key is parent 0 with the empty name.
#[derive(Debug, Drop, PartialEq, Eq)]
pub struct Key {
    pub parent: u64,
    pub name: Name,
}

// How the key of this parent and this name stands to another key.
#[tactic(auto, unfolding(crate::specs::Tree::key_cmp))]
pub(crate) fn compare_parts(parent: u64, name: &Name, other: &Key) -> Ordering
    ensures { result ≡ key_cmp (key_of parent name.now) other.now }
{
    match parent.cmp(&other.parent) {
        Ordering::Equal => name.cmp(&other.name),
        apart => apart,
    }
}

impl Key {
    /// The root's key. Takes no memory.
    pub fn root(alloc: Global) -> Key
        ensures { result ≡ root_key }
    {
        Key {
            parent: 0,
            name: Name::root(alloc),
        }
    }

    /// The order of keys: by the parent's number, and then by the bytes of the name.
    pub fn compare(&self, other: &Key) -> Ordering
        ensures { result ≡ key_cmp self.now other.now }
    {
        compare_parts(self.parent, &self.name, other)
    }

    /// Whether both are one key.
    pub fn is_same(&self, other: &Key) -> bool
        ensures { result ≡ same_key self.now other.now }
    {
        self.compare(other).is_eq()
    }
}

impl Duplicate for Key {
    fn copy(&self) -> Result<Self, OutOfMemory> {
        Ok(Key {
            parent: self.parent,
            name: self.name.copy()?,
        })
    }
}

use crate::inode::Inode;
use crate::key::Key;
use crate::memory::{Duplicate, OutOfMemory};

/// A row of the tree, as a listing of all rows gives it.
#[derive(Debug, Drop, PartialEq)]
pub struct TreeLine {
    pub key: Key,
    pub inode: Inode,
}

/// A row of a name that is known beside it.
#[derive(Clone, Copy, Debug, PartialEq, Eq)]
pub struct NamedRow {
    pub parent: u64,
    pub inode: Inode,
}

/// What is to stand under a key: an inode, or nothing.
#[derive(Debug, Drop, PartialEq)]
pub struct Update {
    pub key: Key,
    pub row: Option<Inode>,
}

impl Duplicate for TreeLine {
    fn copy(&self) -> Result<Self, OutOfMemory> {
        Ok(TreeLine {
            key: self.key.copy()?,
            inode: self.inode,
        })
    }
}

impl Duplicate for NamedRow {
    fn copy(&self) -> Result<Self, OutOfMemory> {
        Ok(*self)
    }
}

impl Duplicate for Update {
    fn copy(&self) -> Result<Self, OutOfMemory> {
        Ok(Update {
            key: self.key.copy()?,
            row: self.row,
        })
    }
}

ghost use Rattle.std.specs.Prelude.{◌≡◌};
ghost use Rattle.fal_base.specs.Walk.{grants as grants_of, dentry_grants, dentry_of};

use crate::call::Cred;
use crate::permission::may;

/// What an inode is.
#[derive(Clone, Copy, Debug, PartialEq, Eq)]
pub enum Kind {
    /// A regular file.
    File,
    /// A directory.
    Dir,
}

/// A file or a directory. `mode` has the nine permission bits, `size` counts bytes and is 0 for a directory.
#[derive(Clone, Copy, Debug, PartialEq, Eq)]
pub struct Inode {
    pub ino: u64,
    pub kind: Kind,
    pub mode: u16,
    pub uid: u32,
    pub gid: u32,
    pub size: u64,
}

/// What a replica keeps of a directory: its number and who may pass.
#[derive(Clone, Copy, Debug, PartialEq, Eq)]
pub struct Dentry {
    pub ino: u64,
    pub mode: u16,
    pub uid: u32,
    pub gid: u32,
}

impl Inode {
    /// Whether the caller may do all that is wanted here: 4 to read, 2 to write, 1 to search.
    pub fn grants(&self, cred: &Cred, want: u8) -> bool
        ensures { result ≡ grants_of cred.now want self.now }
    {
        may(cred.uid, cred.gid, self.mode, self.uid, self.gid, want)
    }

    /// What a replica keeps of it.
    pub fn dentry(&self) -> Dentry
        ensures { result ≡ dentry_of self.now }
    {
        Dentry {
            ino: self.ino,
            mode: self.mode,
            uid: self.uid,
            gid: self.gid,
        }
    }
}

impl Dentry {
    /// Whether the caller may do all that is wanted here: 4 to read, 2 to write, 1 to search.
    pub fn grants(&self, cred: &Cred, want: u8) -> bool
        ensures { result ≡ dentry_grants cred.now want self.now }
    {
        may(cred.uid, cred.gid, self.mode, self.uid, self.gid, want)
    }
}

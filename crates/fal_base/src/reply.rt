use crate::NameList;
use crate::inode::Inode;
use crate::memory::{Duplicate, OutOfMemory};

/// Why a call is refused. The names are those of POSIX.1-2017, XSH 2.3.
#[derive(Clone, Copy, Debug, PartialEq, Eq)]
pub enum Errno {
    Eacces,
    Ebusy,
    Eexist,
    Einval,
    Eisdir,
    Enametoolong,
    Enoent,
    Enospc,
    Enotdir,
    Enotempty,
    Eperm,
}

/// The answer to a call.
#[derive(Debug, Drop, PartialEq)]
pub enum Reply {
    /// Done, or granted.
    Fine,
    /// Refused.
    Fail(Errno),
    /// What a stat tells.
    Stat(Inode),
    /// What a list tells: the names in the directory, ascending by bytes.
    Names(NameList),
}

impl Duplicate for Reply {
    fn copy(&self) -> Result<Self, OutOfMemory> {
        match self {
            Reply::Fine => Ok(Reply::Fine),
            Reply::Fail(errno) => Ok(Reply::Fail(*errno)),
            Reply::Stat(inode) => Ok(Reply::Stat(*inode)),
            Reply::Names(names) => Ok(Reply::Names(names.copy()?)),
        }
    }
}

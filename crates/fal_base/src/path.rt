ghost use Rattle.std.specs.Prelude.{◌≡◌, ◌≤◌, ◌↔◌, IfOk, Ok, IsTrue, false};
ghost use Rattle.std.specs.List.{list_all};
ghost use Rattle.std.specs.Option.{option_copied};
ghost use Rattle.fal_base.specs.Answer.{errno_of};
ghost use Rattle.fal_base.specs.OpPaths.{good_names, fault_of};
ghost use Rattle.fal_base.specs.Unless.{UnlessMemory};
ghost use Rattle.fal_base.specs.Names.{is_name};
ghost use Rattle.fal_base.specs.Paths.{path_of, path_bytes, breaks, components};
ghost use Rattle.fal_base.specs.PathArgs.{IsRead, fault_in, path_arg_of};

use crate::memory::{Duplicate, OutOfMemory};
use crate::name::{self, Name};
use crate::reply::Errno;
use crate::{Bytes, NameList};
use std::alloc::Global;
use std::marker::Model;

/// Why bytes are no path: the lowest rule that they break, or want of memory.
#[derive(Clone, Copy, Debug, PartialEq, Eq)]
pub enum PathFault {
    /// They are empty or do not begin with a slash.
    Relative,
    /// There are more than 4,095.
    TooLong,
    /// A name has more than 255.
    NameTooLong,
    /// A name is `.` or `..`.
    Dot,
    /// One of them is zero.
    ZeroByte,
    /// Memory was refused.
    OutOfMemory,
}

impl PathFault {
    /// What a call with such a path is answered: ENAMETOOLONG where the path or a name is too long, and else EINVAL. Want of memory is no
    /// rule, and no call's path has it.
    pub fn errno(self) -> Errno
        ensures { result ≡ errno_of self }
    {
        match self {
            PathFault::TooLong | PathFault::NameTooLong => Errno::Enametoolong,
            PathFault::Relative | PathFault::Dot | PathFault::ZeroByte | PathFault::OutOfMemory => {
                Errno::Einval
            }
        }
    }
}

/// The names of a path, from the root on. The path without names is the root.
#[derive(Debug, Drop)]
pub struct Path {
    names: NameList,
}

impl Model for Path {
    ghost use Rattle.std.specs.Prelude.{List, ℕ};

    ghost Value = { List (List ℕ) };

    ghost view = { λ p. p.names };
}

impl Path {
    /// The path of these names: each follows the rules for names, and with a slash before each they have at most 4,095 bytes. Takes no memory.
    pub fn from_names(names: NameList) -> Path
        requires named { IsTrue (list_all is_name names) }
        requires short { path_bytes names ≤ 4095 }
        ensures { result ≡ names }
    {
        Path { names }
    }

    /// The names, from the root on. Takes no memory.
    pub fn names(&self) -> &[Name]
        ensures { result.now ≡ self.now }
    {
        self.names.as_slice()
    }
}

fn has_long_name(bytes: &[u8]) -> bool
    ensures { result ≡ breaks PathFault.NameTooLong bytes.now }
{
    bytes
        .split(|b| *b == b'/')
        .filter(|name| !name.is_empty())
        .any(|name| name.len() > 255)
}

fn has_dot(bytes: &[u8]) -> bool
    ensures { result ≡ breaks PathFault.Dot bytes.now }
{
    bytes
        .split(|b| *b == b'/')
        .filter(|name| !name.is_empty())
        .any(name::is_dot)
}

// The names between the slashes.
fn names_of(alloc: Global, bytes: &[u8]) -> Result<NameList, OutOfMemory>
    requires { breaks PathFault.NameTooLong bytes.now ≡ false }
    ensures { IfOk result (λ names. names ≡ components bytes.now) }
{
    let mut names = NameList::new(alloc);
    for name in bytes.split(|b| *b == b'/').filter(|name| !name.is_empty()) {
        names.push(Name::from_short(alloc, name)?)?;
    }
    Ok(names)
}

impl Path {
    /// The lowest rule that the bytes break as a path, where they break one: `Relative` where they are empty or do not begin with a slash,
    /// `TooLong` above 4,095 bytes, `NameTooLong` where a part between slashes has more than 255, `Dot` where one is `.` or `..`,
    /// `ZeroByte` where a byte is zero. Takes no memory.
    #[tactic(auto, unfolding(crate::specs::Paths::path_of))]
    pub fn fault(bytes: &[u8]) -> Option<PathFault>
        ensures { result ≡ fault_in bytes.now }
    {
        if bytes.first() != Some(&b'/') {
            return Some(PathFault::Relative);
        }
        if bytes.len() > 4095 {
            return Some(PathFault::TooLong);
        }
        if has_long_name(bytes) {
            return Some(PathFault::NameTooLong);
        }
        if has_dot(bytes) {
            return Some(PathFault::Dot);
        }
        if bytes.contains(&0) {
            return Some(PathFault::ZeroByte);
        }
        None
    }

    /// The path that the bytes spell: the parts between slashes that are not empty.
    ///
    /// Refused with the lowest rule that is broken, as `fault` tells it, and with `OutOfMemory` for want of memory alone.
    pub fn read(alloc: Global, bytes: &[u8]) -> Result<Path, PathFault>
        ensures { UnlessMemory PathFault.OutOfMemory result (path_of bytes.now) }
    {
        if let Some(fault) = Path::fault(bytes) {
            return Err(fault);
        }
        match names_of(alloc, bytes) {
            Ok(names) => Ok(Path { names }),
            Err(_) => Err(PathFault::OutOfMemory),
        }
    }
}

impl Duplicate for Path {
    fn copy(&self) -> Result<Self, OutOfMemory> {
        Ok(Path {
            names: self.names.copy()?,
        })
    }
}

/// A path as a call gives it: good, or the rule that its bytes break beside those bytes.
#[derive(Debug, Drop)]
pub enum PathArg {
    /// Its bytes break no rule.
    Good(Path),
    /// Its bytes, and the lowest rule that they break. It never is want of memory.
    Bad { fault: PathFault, raw: Bytes },
}

impl Duplicate for PathArg {
    fn copy(&self) -> Result<Self, OutOfMemory> {
        match self {
            PathArg::Good(path) => Ok(PathArg::Good(path.copy()?)),
            PathArg::Bad { fault, raw } => Ok(PathArg::Bad {
                fault: *fault,
                raw: raw.copy()?,
            }),
        }
    }
}

impl PathArg {
    /// The path that the bytes spell, or the lowest rule that they break and the bytes. A `Bad` never tells want of memory: that is the
    /// call's own answer.
    pub fn read(alloc: Global, bytes: &[u8]) -> Result<PathArg, OutOfMemory>
        ensures { IfOk result (λ arg. arg ≡ path_arg_of bytes.now) }
    {
        match Path::read(alloc, bytes) {
            Ok(path) => Ok(PathArg::Good(path)),
            Err(PathFault::OutOfMemory) => Err(OutOfMemory),
            Err(fault) => Ok(PathArg::Bad {
                fault,
                raw: Bytes::from_items(Vec::from_slice(alloc, bytes)?),
            }),
        }
    }
}

impl PathArg {
    /// The path, where it is good.
    pub fn good(&self) -> Option<&Path>
        ensures { option_copied result ≡ good_names self.now }
    {
        match self {
            PathArg::Good(path) => Some(path),
            PathArg::Bad { .. } => None,
        }
    }

    /// Whether its fault is that of its bytes, where it is bad. Takes no memory.
    pub fn is_read(&self) -> bool
        ensures { IsTrue result ↔ IsRead self.now }
    {
        match self {
            PathArg::Good(_) => true,
            PathArg::Bad { fault, raw } => Path::fault(raw.as_slice()) == Some(*fault),
        }
    }

    /// The rule that it breaks, where it is bad.
    pub fn fault(&self) -> Option<PathFault>
        ensures { result ≡ fault_of self.now }
    {
        match self {
            PathArg::Good(_) => None,
            PathArg::Bad { fault, .. } => Some(*fault),
        }
    }
}

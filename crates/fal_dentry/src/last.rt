ghost use Rattle.std.specs.Prelude.{◌≡◌, IfOk};
ghost use Rattle.fal_dentry.specs.TreeWalk.{last_name as last_name_of, last_key as last_key_of};

use fal_base::{Dentry, Duplicate, Key, Name, OutOfMemory, Path};
use std::alloc::Global;

// A copy of the last name of a path, or the root's name where it has none.
#[tactic(auto, using(crate::proofs::LastName::last_is))]
fn last_name(alloc: Global, path: &Path) -> Result<Name, OutOfMemory>
    ensures { IfOk result (λ name. name ≡ last_name_of path.now) }
{
    match path.names().last() {
        None => Ok(Name::root(alloc)),
        Some(name) => name.copy(),
    }
}

/// The key of the path's last name under this directory, or the root's key where there is no directory. Answers want of memory where
/// there is too little.
pub fn last_key(alloc: Global, parent: &Option<Dentry>, path: &Path) -> Result<Key, OutOfMemory>
    ensures { IfOk result (λ key. key ≡ last_key_of parent.now (last_name_of path.now)) }
{
    let Some(dir) = parent else {
        return Ok(Key::root(alloc));
    };
    Ok(Key {
        parent: dir.ino,
        name: last_name(alloc, path)?,
    })
}

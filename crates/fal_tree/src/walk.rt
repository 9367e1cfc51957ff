ghost use Rattle.std.specs.Prelude.{◌≡◌, ◌<◌, length, IfOk};
ghost use Rattle.fal_base.specs.Tree.{row_at};
ghost use Rattle.fal_base.specs.Walk.{walk as walk_of, walk_from as walk_from_of};
ghost use Rattle.fal_tree.specs.Walks.{directory_of, walked_of};

use fal_base::{Cred, Duplicate, Errno, Inode, Items, Key, KeyMap, Kind, Name, OutOfMemory, Path};
use std::alloc::Global;

/// Where a walk ends: why it stops, or the directory of the last name, the numbers of the directories passed, and the last key.
#[derive(Debug, Drop)]
pub enum Reached {
    Stop(Errno),
    Ready {
        parent: Option<Inode>,
        passed: Items<u64>,
        last: Key,
    },
}

// The directory under a key, or why there is none.
fn directory(rows: &KeyMap<Inode>, key: &Key) -> Result<Inode, Errno>
    ensures { result ≡ directory_of (row_at rows.now.entries key.now) }
{
    match rows.get(key) {
        None => Err(Errno::Enoent),
        Some(inode) => {
            if inode.kind == Kind::Dir {
                Ok(*inode)
            } else {
                Err(Errno::Enotdir)
            }
        }
    }
}

// From a directory on.
fn walk_from(
    alloc: Global,
    rows: &KeyMap<Inode>,
    cred: &Cred,
    from: Inode,
    names: &[Name],
) -> Result<Reached, OutOfMemory>
    requires { 0 < length names.now }
    ensures { IfOk result (λ reached. walked_of reached ≡ walk_from_of rows.now.entries cred.now from names.now) }
{
    let mut passed = Items::new(alloc);
    let mut dir = from;
    let mut rest = names;
    while let Some((name, others)) = rest.split_first() {
        if !dir.grants(cred, 1) {
            return Ok(Reached::Stop(Errno::Eacces));
        }
        passed.push(dir.ino)?;
        let key = Key {
            parent: dir.ino,
            name: name.copy()?,
        };
        if others.is_empty() {
            return Ok(Reached::Ready {
                parent: Some(dir),
                passed,
                last: key,
            });
        }
        match directory(rows, &key) {
            Ok(inner) => dir = inner,
            Err(errno) => return Ok(Reached::Stop(errno)),
        }
        rest = others;
    }
    unreachable!()
}

/// The walk of a path, from the root to the directory of its last name.
pub fn walk_path(
    alloc: Global,
    rows: &KeyMap<Inode>,
    cred: &Cred,
    path: &Path,
) -> Result<Reached, OutOfMemory>
    ensures { IfOk result (λ reached. walked_of reached ≡ walk_of rows.now.entries cred.now path.now) }
{
    let names = path.names();
    let root = Key::root(alloc);
    if names.is_empty() {
        return Ok(Reached::Ready {
            parent: None,
            passed: Items::new(alloc),
            last: root,
        });
    }
    match directory(rows, &root) {
        Ok(dir) => walk_from(alloc, rows, cred, dir, names),
        Err(errno) => Ok(Reached::Stop(errno)),
    }
}

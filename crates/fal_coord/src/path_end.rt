ghost use Rattle.std.specs.Prelude.{◌≡◌, IfOk};
ghost use Rattle.fal_base.specs.Updates.{row_among as row_among_of};
ghost use Rattle.fal_base.specs.Walk.{kept_grants};
ghost use Rattle.fal_coord.specs.Judged.{end_of};

use fal_base::{Cred, Dentry, Inode, Key, OutOfMemory, Path, Update};
use fal_dentry::last_key;
use std::alloc::Global;

/// What is known of a path's end: the directory of its last name, none above the root, its last key, and what stands there.
#[derive(Drop)]
pub struct PathEnd {
    pub parent: Option<Dentry>,
    pub key: Key,
    pub row: Option<Inode>,
}

// What the first update for the key has there.
fn row_among(rows: &[Update], key: &Key) -> Option<Inode>
    ensures { result ≡ row_among_of rows.now key.now }
{
    let mut rest = rows;
    while let Some((first, others)) = rest.split_first() {
        if first.key.is_same(key) {
            return first.row;
        }
        rest = others;
    }
    None
}

impl PathEnd {
    /// The end of this path under this directory, by the rows told.
    pub fn find(
        alloc: Global,
        rows: &[Update],
        parent: &Option<Dentry>,
        path: &Path,
    ) -> Result<PathEnd, OutOfMemory>
        ensures { IfOk result (λ end. end ≡ end_of rows.now parent.now path.now) }
    {
        let key = last_key(alloc, parent, path)?;
        let row = row_among(rows, &key);
        Ok(PathEnd {
            parent: *parent,
            key,
            row,
        })
    }

    /// Whether the caller may write in the directory of the last name. Above the root nothing is refused.
    pub fn is_writable(&self, cred: &Cred) -> bool
        ensures { result ≡ kept_grants cred.now 2 self.now.parent }
    {
        match &self.parent {
            None => true,
            Some(dir) => dir.grants(cred, 2),
        }
    }
}

ghost use Rattle.std.specs.Prelude.{◌≡◌, ◌++◌, ◌≤◌, length, IfOk, OnOk, OnErr};
ghost use Rattle.fal_base.specs.Unless.{UnlessMemory};
ghost use Rattle.fal_base.specs.Tree.{tree0, lines_of, IsInOrder};
ghost use Rattle.fal_base.specs.Answer.{answer as answer_of};
ghost use Rattle.fal_base.specs.Change.{change as change_of};
ghost use Rattle.fal_tree.specs.Refused.{IsOfTree};
ghost use Rattle.fal_tree.specs.Applied.{applied};

use crate::commit::{change, is_fresh, makes};
use crate::fault::ApplyFault;
use crate::reply::reply_to;
use fal_base::{Cred, Duplicate, Inode, Key, KeyMap, Kind, Op, OutOfMemory, Reply, TreeLine};
use std::alloc::Global;
use std::marker::Model;

/// The whole tree in one sorted map, which contracts see as the list of its rows in the order of their keys.
#[derive(Drop)]
pub struct PlainTree {
    alloc: Global,
    rows: KeyMap<Inode>,
}

impl Model for PlainTree {
    ghost use Rattle.fal_base.specs.Tree.{Tree};

    ghost Value = { Tree };

    ghost view = { λ t. t.rows.entries };
}

// An equal map.
fn copy_of(alloc: Global, rows: &KeyMap<Inode>) -> Result<KeyMap<Inode>, OutOfMemory>
    ensures { IfOk result (λ copied. copied.entries ≡ rows.now.entries) }
{
    let mut copied = KeyMap::new(alloc);
    copied.reserve(rows.len())?;
    let mut rest = rows.as_slice();
    while let Some((first, others)) = rest.split_first() {
        copied.put(first.0.copy()?, first.1);
        rest = others;
    }
    Ok(copied)
}

fn lines_in(alloc: Global, rows: &[(Key, Inode)]) -> Result<Vec<TreeLine>, OutOfMemory>
    ensures { IfOk result (λ lines. lines.items ≡ lines_of rows.now) }
{
    let mut lines = Vec::with_capacity(alloc, rows.len())?;
    for (key, inode) in rows {
        lines.push(TreeLine {
            key: key.copy()?,
            inode: *inode,
        })?;
    }
    Ok(lines)
}

impl PlainTree {
    /// The tree at the start: the root alone, a directory with number 1 and mode 755 that belongs to 0:0.
    pub fn new(alloc: Global) -> Result<PlainTree, OutOfMemory>
        ensures { IfOk result (λ tree. tree ≡ tree0) }
    {
        let mut rows = KeyMap::new(alloc);
        rows.reserve(1)?;
        let root = Inode {
            ino: 1,
            kind: Kind::Dir,
            mode: 0o755,
            uid: 0,
            gid: 0,
            size: 0,
        };
        rows.put(Key::root(alloc), root);
        Ok(PlainTree { alloc, rows })
    }

    /// The reply to a call, which is no change of placement: a bad path first, then EBUSY on the root, then the walk, then the checks. Each
    /// errno is one that POSIX.1-2017, XSH, gives for its cause; that this cause is looked at first is this service's order.
    pub fn answer(&self, cred: &Cred, op: &Op) -> Result<Reply, OutOfMemory>
        requires { IsOfTree op.now }
        ensures { IfOk result (λ reply. reply ≡ answer_of self.now cred.now op.now) }
    {
        reply_to(self.alloc, &self.rows, cred, op)
    }

    /// Changes the tree by the call's commit; a new row has the number `ino`.
    ///
    /// Refused with `NoCommit` exactly where the call makes no commit here, then with `NotFresh` exactly where a mkdir or create brings
    /// the number 0 or one that stands in the tree, or for want of memory. A refusal leaves the tree as it was.
    pub fn apply(&mut self, cred: &Cred, op: &Op, ino: u64) -> Result<(), ApplyFault>
        ensures result { UnlessMemory ApplyFault.OutOfMemory result (applied self.old cred.now op.now ino) }
        ensures ok { OnOk result (self.new ≡ change_of self.old cred.now op.now ino) }
        ensures err { OnErr result (self.new ≡ self.old) }
    {
        if !makes(self.alloc, &self.rows, cred, op)? {
            return Err(ApplyFault::NoCommit);
        }
        if !is_fresh(&self.rows, op, ino) {
            return Err(ApplyFault::NotFresh);
        }
        change(self.alloc, &mut self.rows, cred, op, ino)?;
        Ok(())
    }

    /// All rows, by parent number and then by the bytes of their names.
    pub fn lines(&self) -> Result<Vec<TreeLine>, OutOfMemory>
        ensures lines { IfOk result (λ lines. lines.items ≡ lines_of self.now) }
        ensures order { IsInOrder self.now }
    {
        lines_in(self.alloc, self.rows.as_slice())
    }
}

impl Duplicate for PlainTree {
    fn copy(&self) -> Result<Self, OutOfMemory> {
        Ok(PlainTree {
            alloc: self.alloc,
            rows: copy_of(self.alloc, &self.rows)?,
        })
    }
}

ghost use Rattle.std.specs.Prelude.{◌≡◌, ◌+◌, ◌≤◌, ◌⊎◌, [], length, OnOk, OnErr, IfOk, IsOk, IsSome};
ghost use Rattle.std.specs.Option.{option_copied};
ghost use Rattle.std.specs.List.Sorted.{IsStrictlySortedBy};
ghost use Rattle.std.specs.Ordering.{nat_cmp};
ghost use Rattle.std.specs.Cmp.Lexicographic.{slice_cmp};
ghost use Rattle.fal_base.specs.Tree.{row_at, with_row, without_row, names_under, lines_of, IsInOrder};
ghost use Rattle.fal_inode.specs.Named.{rows_named, without_named, first_parent};

use fal_base::{Duplicate, Inode, Key, KeyMap, Name, NamedRow, OutOfMemory, TreeLine};
use std::alloc::Global;
use std::marker::Model;

/// Rows under their keys, with room for some more. Contracts see the rows as a tree's, in the order of their keys.
#[derive(Debug, Drop)]
pub struct Rows {
    alloc: Global,
    map: KeyMap<Inode>,
}

impl Model for Rows {
    ghost use Rattle.fal_inode.specs.Seen.{SeenRows};

    ghost Value = { SeenRows };

    ghost view = { λ r. record { rows = r.map.entries; spare = r.map.spare } };
}

// The parent of the first row of this name.
fn first_parent_of(entries: &[(Key, Inode)], name: &Name) -> Option<u64>
    ensures { result ≡ first_parent entries.now name.now }
{
    let mut rest = entries;
    while let Some((entry, others)) = rest.split_first() {
        if entry.0.name == *name {
            return Some(entry.0.parent);
        }
        rest = others;
    }
    None
}

impl Rows {
    /// No row. Takes no memory.
    pub fn new(alloc: Global) -> Rows
        ensures { result.rows ≡ [] }
    {
        Rows {
            alloc,
            map: KeyMap::new(alloc),
        }
    }

    /// Makes room for that many more rows, or answers want of memory. The rows stay as they were, and the room never shrinks.
    pub fn reserve(&mut self, n: usize) -> Result<(), OutOfMemory>
        ensures rows { self.new.rows ≡ self.old.rows }
        ensures room { self.old.spare ≤ self.new.spare }
        ensures ok { OnOk result (n ≤ self.new.spare) }
        ensures err { OnErr result (self.new.spare ≡ self.old.spare) }
        ensures succeeds { n ≤ self.old.spare → IsOk result }
    {
        self.map.reserve(n)
    }

    /// The inode under the key. Takes no memory.
    pub fn get(&self, key: &Key) -> Option<&Inode>
        ensures { option_copied result ≡ row_at self.now.rows key.now }
    {
        self.map.get(key)
    }

    /// Puts the inode under the key, in place of what stood there. Takes no memory: there is room for one more, or the key is there.
    pub fn put(&mut self, key: Key, inode: Inode)
        requires { (1 ≤ self.old.spare) ⊎ IsSome (row_at self.old.rows key) }
        ensures rows { self.new.rows ≡ with_row self.old.rows key inode }
        ensures room { self.old.spare ≤ self.new.spare + 1 }
        ensures kept { IsSome (row_at self.old.rows key) → self.new.spare ≡ self.old.spare }
    {
        self.map.put(key, inode);
    }

    /// Takes the row under the key, if there is one. Takes no memory.
    pub fn take(&mut self, key: &Key) -> Option<Inode>
        ensures row { result ≡ row_at self.old.rows key.now }
        ensures rows { self.new.rows ≡ without_row self.old.rows key.now }
        ensures room { self.old.spare ≤ self.new.spare }
    {
        self.map.take(key)
    }

    /// Takes out the rows of this name, under whatever directories they stand, and hands the name back. Takes no memory.
    pub fn drop_named(&mut self, name: Name) -> Name
        ensures name { result ≡ name }
        ensures rows { self.new.rows ≡ without_named self.old.rows name }
        ensures room { self.old.spare ≤ self.new.spare }
    {
        let mut key = Key { parent: 0, name };
        while let Some(parent) = first_parent_of(self.map.as_slice(), &key.name) {
            key.parent = parent;
            self.map.take(&key);
        }
        let Key { parent: _, name } = key;
        name
    }

    /// How many rows stand under the directory of this number. Takes no memory.
    pub fn children(&self, parent: u64) -> u64
        ensures { result ≡ length (names_under self.now.rows parent) }
    {
        let mut count = 0;
        for (key, _) in self.map.as_slice() {
            if key.parent == parent {
                count += 1;
            }
        }
        count
    }

    /// The names under the directory of this number, ascending by their bytes. Answers want of memory where there is too little.
    #[tactic(auto, using(crate::proofs::Ascending::names_ascend))]
    pub fn names(&self, parent: u64) -> Result<Vec<Name>, OutOfMemory>
        ensures order { IsStrictlySortedBy (slice_cmp nat_cmp) (names_under self.now.rows parent) }
        ensures names { IfOk result (λ names. names.items ≡ names_under self.now.rows parent) }
    {
        let mut names = Vec::new(self.alloc);
        for (key, _) in self.map.as_slice() {
            if key.parent == parent {
                names.push(key.name.copy()?)?;
            }
        }
        Ok(names)
    }

    /// The rows of this name under whatever directories, ascending by the numbers of those. Answers want of memory where there is too little.
    #[tactic(auto, using(crate::proofs::Ascending::parents_ascend))]
    pub fn rows_of(&self, name: &Name) -> Result<Vec<NamedRow>, OutOfMemory>
        ensures order { IsStrictlySortedBy (λ a b. nat_cmp a.parent b.parent) (rows_named self.now.rows name.now) }
        ensures rows { IfOk result (λ rows. rows.items ≡ rows_named self.now.rows name.now) }
    {
        let mut rows = Vec::new(self.alloc);
        for (key, inode) in self.map.as_slice() {
            if key.name == *name {
                rows.push(NamedRow {
                    parent: key.parent,
                    inode: *inode,
                })?;
            }
        }
        Ok(rows)
    }

    /// All rows, by the parent's number and then by the bytes of the name. Answers want of memory where there is too little.
    pub fn all(&self) -> Result<Vec<TreeLine>, OutOfMemory>
        ensures lines { IfOk result (λ lines. lines.items ≡ lines_of self.now.rows) }
        ensures order { IsInOrder self.now.rows }
    {
        let entries = self.map.as_slice();
        let mut lines = Vec::with_capacity(self.alloc, entries.len())?;
        for (key, inode) in entries {
            lines.push(TreeLine {
                key: key.copy()?,
                inode: *inode,
            })?;
        }
        Ok(lines)
    }
}

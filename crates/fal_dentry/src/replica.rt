ghost use Rattle.std.specs.Prelude.{◌≡◌, ◌+◌, ◌≤◌, ◌⊎◌, [], OnOk, OnErr, IfOk, IsOk, IsSome};
ghost use Rattle.std.specs.Option.{option_copied};
ghost use Rattle.fal_base.specs.Tree.{Tree, key_of};
ghost use Rattle.fal_base.specs.Maps.{value_at, with_value};
ghost use Rattle.fal_dentry.specs.Walk.{is_among, without_keys, replica_walk};
ghost use Rattle.fal_dentry.specs.Seen.{walk_seen};
ghost use Rattle.fal_dentry.specs.TreeWalk.{IsTreeWalk};

use crate::walk::Walk;
use fal_base::{Cred, Dentry, Duplicate, Errno, Key, KeyMap, Name, OutOfMemory, Path};
use std::alloc::Global;
use std::marker::Model;

/// The directories that a node knows of, under their keys, with room for some more.
#[derive(Debug, Drop)]
pub struct Replica {
    alloc: Global,
    map: KeyMap<Dentry>,
}

impl Model for Replica {
    ghost use Rattle.fal_base.specs.Maps.{KeyEntries};
    ghost use Rattle.fal_base.specs.declared.inode.Dentry.{Dentry};

    ghost Value = { KeyEntries Dentry };

    ghost view = { λ r. r.map };
}

// Whether the key is one of these.
fn is_one_of(key: &Key, keys: &[Key]) -> bool
    ensures { result ≡ is_among key.now keys.now }
{
    keys.iter().any(|other| other.is_same(key))
}

impl Replica {
    /// No entry. Takes no memory.
    pub fn new(alloc: Global) -> Replica
        ensures { result.entries ≡ [] }
    {
        Replica {
            alloc,
            map: KeyMap::new(alloc),
        }
    }

    /// Makes room for that many more entries, or answers want of memory. The entries stay as they were, and the room never shrinks.
    pub fn reserve(&mut self, n: usize) -> Result<(), OutOfMemory>
        ensures entries { self.new.entries ≡ self.old.entries }
        ensures room { self.old.spare ≤ self.new.spare }
        ensures ok { OnOk result (n ≤ self.new.spare) }
        ensures err { OnErr result (self.new.spare ≡ self.old.spare) }
        ensures succeeds { n ≤ self.old.spare → IsOk result }
    {
        self.map.reserve(n)
    }

    /// The directory under the key. Takes no memory.
    pub fn get(&self, key: &Key) -> Option<&Dentry>
        ensures { option_copied result ≡ value_at self.now.entries key.now }
    {
        self.map.get(key)
    }

    /// The directory of this name under the directory of this number. Takes no memory.
    pub fn find(&self, parent: u64, name: &Name) -> Option<&Dentry>
        ensures { option_copied result ≡ value_at self.now.entries (key_of parent name.now) }
    {
        self.map.find(parent, name)
    }

    /// Puts the directory under the key, in place of what stood there. Takes no memory: there is room for one more, or the key is there.
    pub fn install(&mut self, key: Key, dentry: Dentry)
        requires { (1 ≤ self.old.spare) ⊎ IsSome (value_at self.old.entries key) }
        ensures entries { self.new.entries ≡ with_value self.old.entries key dentry }
        ensures room { self.old.spare ≤ self.new.spare + 1 }
        ensures kept { IsSome (value_at self.old.entries key) → self.new.spare ≡ self.old.spare }
    {
        self.map.put(key, dentry);
    }

    /// Drops what stands under each of these keys. Takes no memory.
    pub fn drop_keys(&mut self, keys: &[Key])
        ensures entries { self.new.entries ≡ without_keys self.old.entries keys.now }
        ensures room { self.old.spare ≤ self.new.spare }
    {
        let mut rest = keys;
        while let Some((key, others)) = rest.split_first() {
            self.map.take(key);
            rest = others;
        }
    }

    /// Walks the path up to the directory of its last name. For each directory before the last name, in order, the walk ends with `Shut` where its key
    /// is in `shut`, else with `Missing` where the replica lacks it, else with `Stop` and EACCES where it refuses search to the caller. It ends
    /// with `Ready` where it has passed them all. Where each entry that it meets is a tree's, it says of that tree's walk what is stated at
    /// `IsTreeWalk`. Answers want of memory where there is too little.
    pub fn walk(&self, cred: &Cred, path: &Path, shut: &[Key]) -> Result<Walk, OutOfMemory>
        ensures walk { IfOk result
            (λ walk. walk_seen walk ≡ replica_walk self.now.entries cred.now path.now shut.now) }
        ensures tree { IfOk result
            (λ walk. (tree : Tree) → IsTreeWalk tree self.now.entries cred.now path.now shut.now (walk_seen walk)) }
    {
        self.walk_names(cred, path.names(), shut)
    }

    // The walk of these names.
    fn walk_names(&self, cred: &Cred, names: &[Name], shut: &[Key]) -> Result<Walk, OutOfMemory>
        ensures { IfOk result
            (λ walk. walk_seen walk ≡ replica_walk self.now.entries cred.now names.now shut.now) }
    {
        let mut inos = Vec::new(self.alloc);
        let mut keys = Vec::new(self.alloc);
        let mut parent = None;
        let mut key = Key::root(self.alloc);
        let mut rest = names;
        while let Some((name, others)) = rest.split_first() {
            if is_one_of(&key, shut) {
                return Ok(Walk::Shut { key });
            }
            let Some(dir) = self.get(&key).copied() else {
                return Ok(Walk::Missing { key, keys });
            };
            keys.push(key)?;
            if !dir.grants(cred, 1) {
                return Ok(Walk::Stop {
                    errno: Errno::Eacces,
                    keys,
                });
            }
            inos.push(dir.ino)?;
            parent = Some(dir);
            key = Key {
                parent: dir.ino,
                name: name.copy()?,
            };
            rest = others;
        }
        Ok(Walk::Ready { parent, inos, keys })
    }
}

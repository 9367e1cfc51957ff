ghost use Rattle.std.specs.Prelude.{◌≡◌, ◌==◌, ◌+◌, ◌-◌, ◌≤◌, ◌<◌, ◌⊎◌, [], length, OnOk, OnErr, IsOk, IsSome, vec_len, vec_capacity};
ghost use Rattle.std.specs.Option.{option_copied};
ghost use Rattle.fal_base.specs.Tree.{key_of};
ghost use Rattle.fal_base.specs.Maps.{AreInOrder, value_at, with_value, without_key, place_of, IsPlace};

use crate::key::{Key, compare_parts};
use crate::memory::OutOfMemory;
use crate::name::Name;
use std::alloc::Global;
use std::marker::Model;

/// A map from keys to values, in the order of its keys. It has room for some more entries than it holds.
#[derive(Debug, Drop)]
pub struct KeyMap<X> {
    entries: Vec<(Key, X)>,
}

impl<X> Model for KeyMap<X> {
    ghost use Rattle.std.specs.Prelude.{◌-◌, vec_len, vec_capacity};
    ghost use Rattle.fal_base.specs.Maps.{KeyEntries, AreInOrder};

    ghost Value = { KeyEntries X };

    ghost view = { λ m. record { entries = m.entries.items; spare = vec_capacity m.entries - vec_len m.entries } };

    ghost invariant = { λ m. AreInOrder m.entries.items };
}

// The place of the first entry whose key is not below this one, by binary search.
fn place<X>(entries: &[(Key, X)], parent: u64, name: &Name) -> usize
    requires { AreInOrder entries.now }
    ensures { result ≡ place_of (key_of parent name.now) entries.now }
{
    let mut from = 0;
    let mut to = entries.len();
    while from < to {
        let middle = from + (to - from) / 2;
        if compare_parts(parent, name, &entries[middle].0).is_gt() {
            from = middle + 1;
        } else {
            to = middle;
        }
    }
    from
}

// The place of the key, or the place where it would go.
fn search<X>(entries: &[(Key, X)], parent: u64, name: &Name) -> Result<usize, usize>
    requires { AreInOrder entries.now }
    ensures { IsPlace (key_of parent name.now) entries.now result }
{
    let at = place(entries, parent, name);
    if at < entries.len() && compare_parts(parent, name, &entries[at].0).is_eq() {
        Ok(at)
    } else {
        Err(at)
    }
}

fn find_value<'a, X>(entries: &'a [(Key, X)], parent: u64, name: &Name) -> Option<&'a X>
    requires { AreInOrder entries.now }
    ensures { option_copied result ≡ value_at entries.now (key_of parent name.now) }
{
    match search(entries, parent, name) {
        Ok(at) => Some(&entries[at].1),
        Err(_) => None,
    }
}

fn put_value<X: Drop>(entries: &mut Vec<(Key, X)>, key: Key, value: X)
    requires in_order { AreInOrder entries.old.items }
    requires room { (vec_len entries.old < vec_capacity entries.old) ⊎ IsSome (value_at entries.old.items key) }
    ensures items { entries.new.items ≡ with_value entries.old.items key value }
    ensures room { vec_capacity entries.old - vec_len entries.old ≤ (vec_capacity entries.new - vec_len entries.new) + 1 }
    ensures kept { IsSome (value_at entries.old.items key) → vec_capacity entries.new - vec_len entries.new ≡ vec_capacity entries.old - vec_len entries.old }
{
    match search(entries, key.parent, &key.name) {
        Ok(at) => entries[at].1 = value,
        Err(at) => {
            let Ok(()) = entries.insert(at, (key, value)) else {
                unreachable!()
            };
        }
    }
}

fn take_value<X: Drop>(entries: &mut Vec<(Key, X)>, key: &Key) -> Option<X>
    requires { AreInOrder entries.old.items }
    ensures value { result ≡ value_at entries.old.items key.now }
    ensures items { entries.new.items ≡ without_key entries.old.items key.now }
    ensures room { vec_capacity entries.old - vec_len entries.old ≤ vec_capacity entries.new - vec_len entries.new }
{
    match search(entries, key.parent, &key.name) {
        Ok(at) => {
            let (_key, value) = entries.remove(at);
            Some(value)
        }
        Err(_) => None,
    }
}

impl<X> KeyMap<X> {
    /// No entry. Takes no memory.
    pub fn new(alloc: Global) -> KeyMap<X>
        ensures { result.entries ≡ [] }
    {
        KeyMap {
            entries: Vec::new(alloc),
        }
    }

    /// Makes room for that many more entries, or answers want of memory. The entries stay as they were, and the room never shrinks.
    pub fn reserve(&mut self, n: usize) -> Result<(), OutOfMemory>
        ensures entries { self.new.entries ≡ self.old.entries }
        ensures room { self.old.spare ≤ self.new.spare }
        ensures ok { OnOk result (n ≤ self.new.spare) }
        ensures err { OnErr result (self.new.spare ≡ self.old.spare) }
        ensures succeeds { n ≤ self.old.spare → IsOk result }
    {
        self.entries.reserve(n)?;
        Ok(())
    }

    /// What stands under the key. Takes no memory.
    pub fn get(&self, key: &Key) -> Option<&X>
        ensures { option_copied result ≡ value_at self.now.entries key.now }
    {
        find_value(&self.entries, key.parent, &key.name)
    }

    /// What stands under the key of this parent and this name. Takes no memory.
    pub fn find(&self, parent: u64, name: &Name) -> Option<&X>
        ensures { option_copied result ≡ value_at self.now.entries (key_of parent name.now) }
    {
        find_value(&self.entries, parent, name)
    }

    /// How many entries there are.
    pub fn len(&self) -> usize
        ensures { result ≡ length self.now.entries }
    {
        self.entries.len()
    }

    /// Whether there is no entry.
    pub fn is_empty(&self) -> bool
        ensures { result ≡ (length self.now.entries == 0) }
    {
        self.entries.is_empty()
    }

    /// All entries, by parent and then by name.
    pub fn as_slice(&self) -> &[(Key, X)]
        ensures entries { result.now ≡ self.now.entries }
        ensures order { AreInOrder self.now.entries }
    {
        &self.entries
    }
}

impl<X: Drop> KeyMap<X> {
    /// Puts the value under the key, in place of what stood there. Takes no memory: there is room for one more, or the key is there.
    pub fn put(&mut self, key: Key, value: X)
        requires { (1 ≤ self.old.spare) ⊎ IsSome (value_at self.old.entries key) }
        ensures entries { self.new.entries ≡ with_value self.old.entries key value }
        ensures room { self.old.spare ≤ self.new.spare + 1 }
        ensures kept { IsSome (value_at self.old.entries key) → self.new.spare ≡ self.old.spare }
    {
        put_value(&mut self.entries, key, value);
    }

    /// Takes what stands under the key, if anything does. Takes no memory.
    pub fn take(&mut self, key: &Key) -> Option<X>
        ensures value { result ≡ value_at self.old.entries key.now }
        ensures entries { self.new.entries ≡ without_key self.old.entries key.now }
        ensures room { self.old.spare ≤ self.new.spare }
    {
        take_value(&mut self.entries, key)
    }
}

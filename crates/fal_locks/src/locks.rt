ghost use Rattle.std.specs.Prelude.{◌≡◌, ◌≤◌, ◌+◌, IfOk, IfErr, OnOk, OnErr, IsTrue, None, Some, false, length};
ghost use Rattle.fal_locks.specs.Keys.{distinct_count as distinct_keys};
ghost use Rattle.fal_locks.specs.Locks.{no_locks, has_holder, is_held, is_name_held, is_any_held, shut_keys_of, shut_keys as keys_shut, shut_op as op_shut, first_shut, first_held as place_held, with_holder, without_holder, with_shut, without_shut, IsApart};

use crate::holder::{Holder, Shut};
use crate::holders::{drop_holder, first_held, hold_child, hold_key, hold_name};
use crate::keys::{distinct_count, first_among};
use fal_base::{Items, Key, Name, OutOfMemory};
use std::alloc::Global;
use std::marker::Model;

/// Which batch holds which keys, and the keys that an operation has shut. No key is held and shut at once.
///
/// Only `reserve` takes memory.
#[derive(Debug, Drop)]
pub struct Locks {
    holders: Vec<Holder>,
    shut: Option<Shut>,
}

impl Model for Locks {
    ghost use Rattle.std.specs.Prelude.{◌-◌, vec_len, vec_capacity};
    ghost use Rattle.fal_locks.specs.Locks.{LocksSeen, IsApart};

    ghost Value = { LocksSeen };

    ghost view = { λ a. record { table = record { holders = a.holders.items; shut = a.shut }; spare = vec_capacity a.holders - vec_len a.holders } };

    ghost invariant = { λ a. IsApart (record { holders = a.holders.items; shut = a.shut }) };
}

/// The first key that is held the other way, by its place in the list, and the list handed back.
#[derive(Debug, Drop)]
pub struct Busy {
    pub at: usize,
    pub keys: Vec<Key>,
}

// The keys that are shut.
fn shut_among(shut: &Option<Shut>) -> &[Key]
    ensures { result.now ≡ shut_keys_of shut.now }
{
    match shut {
        None => &[],
        Some(shut) => shut.keys.as_slice(),
    }
}

impl Locks {
    /// Nothing is held, and nothing is shut.
    pub fn new(alloc: Global) -> Locks
        ensures { result.table ≡ no_locks }
    {
        Locks {
            holders: Vec::new(alloc),
            shut: None,
        }
    }

    /// Makes room for that many more holders and keys, or answers want of memory. The locks stay as they were.
    pub fn reserve(&mut self, n: usize) -> Result<(), OutOfMemory>
        ensures table { self.new.table ≡ self.old.table }
        ensures room { OnOk result (n ≤ self.new.spare) }
    {
        self.holders.reserve(n)?;
        Ok(())
    }

    /// The batch holds the keys; the answer is how many different ones they are. Refused with `Busy` exactly where one of them is shut.
    pub fn try_share(&mut self, holder: u64, keys: Vec<Key>) -> Result<u64, Busy>
        requires new_holder { has_holder self.old.table holder ≡ false }
        requires room { 1 ≤ self.old.spare }
        requires room_for_keys { length keys.items ≤ self.old.spare }
        ensures ok { IfOk result (λ count. (first_shut self.old.table keys.items ≡ None) × (count ≡ distinct_keys keys.items)) }
        ensures held { OnOk result (self.new.table ≡ with_holder self.old.table holder keys.items) }
        ensures busy { IfErr result (λ busy. (first_shut self.old.table keys.items ≡ Some busy.at) × (busy.keys.items ≡ keys.items)) }
        ensures same { OnErr result (self.new ≡ self.old) }
    {
        if let Some(at) = first_among(&keys, shut_among(&self.shut)) {
            return Err(Busy { at, keys });
        }
        let count = distinct_count(&keys);
        let Ok(()) = self.holders.push(Holder {
            number: holder,
            keys: Items::from_items(keys),
        })
        else {
            unreachable!()
        };
        Ok(count)
    }

    /// The batch holds nothing any more. A batch that holds nothing changes nothing.
    pub fn release(&mut self, holder: u64)
        ensures { self.new.table ≡ without_holder self.old.table holder }
    {
        drop_holder(&mut self.holders, holder);
    }

    /// The operation shuts the keys. Refused with `Busy` exactly where a batch holds one of them.
    pub fn try_shut(&mut self, op: u32, keys: Vec<Key>) -> Result<(), Busy>
        requires open { self.old.table.shut ≡ None }
        requires room { 1 ≤ self.old.spare }
        requires room_for_keys { length keys.items ≤ self.old.spare }
        ensures ok { OnOk result (place_held self.old.table keys.items ≡ None) }
        ensures shut { OnOk result (self.new.table ≡ with_shut self.old.table op keys.items) }
        ensures busy { IfErr result (λ busy. (place_held self.old.table keys.items ≡ Some busy.at) × (busy.keys.items ≡ keys.items)) }
        ensures same { OnErr result (self.new ≡ self.old) }
    {
        if let Some(at) = first_held(&self.holders, &keys) {
            return Err(Busy { at, keys });
        }
        self.shut = Some(Shut {
            op,
            keys: Items::from_items(keys),
        });
        Ok(())
    }

    /// Opens the keys that this operation has shut. Another operation's number changes nothing.
    pub fn reopen(&mut self, op: u32)
        ensures { self.new.table ≡ without_shut self.old.table op }
    {
        if let Some(shut) = &self.shut {
            if shut.op == op {
                self.shut = None;
            }
        }
    }

    /// Whether some batch holds the key.
    pub fn held(&self, key: &Key) -> bool
        ensures { result ≡ is_held self.now.table key.now }
    {
        hold_key(&self.holders, key)
    }

    /// Whether some batch holds a key with this name.
    pub fn held_name(&self, name: &Name) -> bool
        ensures { result ≡ is_name_held self.now.table name.now }
    {
        hold_name(&self.holders, name)
    }

    /// Whether some batch holds a key with a name that is not empty, any but the root's.
    pub fn held_any(&self) -> bool
        ensures { result ≡ is_any_held self.now.table }
    {
        hold_child(&self.holders)
    }

    /// The operation that has shut keys.
    pub fn shut_op(&self) -> Option<u32>
        ensures { result ≡ op_shut self.now.table }
    {
        match &self.shut {
            None => None,
            Some(shut) => Some(shut.op),
        }
    }

    /// The keys that are shut, of which none is held.
    pub fn shut_keys(&self) -> &[Key]
        ensures keys { result.now ≡ keys_shut self.now.table }
        ensures apart { IsApart self.now.table }
    {
        shut_among(&self.shut)
    }
}

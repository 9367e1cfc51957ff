// The numbers of the envelopes that an actor has yet to take, rising.
ghost use Rattle.std.specs.Prelude.{◌≡◌, ◌==◌, length, ◌<◌, ◌≤◌, ◌+◌, ◌++◌, ◌∷◌, [], OnOk, slice_get, IfSome, IfNone, ℕ, Some};
ghost use Rattle.fal_story.proofs.Drain.Dues.{without, Rises};

use fal_base::OutOfMemory;
use std::alloc::Global;
use std::collections::VecDeque;
use std::marker::Model;

#[derive(Debug, Drop)]
pub struct Queue {
    items: VecDeque<u64>,
}

impl Model for Queue {
    ghost use Rattle.std.specs.VecDeque.{deque_len, deque_capacity};
    ghost use Rattle.std.specs.Prelude.{◌-◌};
    ghost use Rattle.fal_alone.specs.Queues.{QueueSeen};

    ghost Value = { QueueSeen };

    ghost view = { λ q. record { items = q.items.items; spare = deque_capacity q.items - deque_len q.items } };
}

// Where a number stands.
fn place(items: &VecDeque<u64>, number: u64) -> Option<usize>
    ensures some { IfSome result (λ i. slice_get items.now.items i ≡ Some number) }
    ensures none { IfNone result ((k : ℕ) → slice_get items.now.items k ≡ Some number → ⊥) }
{
    let n = items.len();
    for i in 0..n {
        if items[i] == number {
            return Some(i);
        }
    }
    None
}

impl Queue {
    /// No number. Takes no memory.
    pub fn new(alloc: Global) -> Queue
        ensures { result.items ≡ [] }
    {
        Queue {
            items: VecDeque::new(alloc),
        }
    }

    /// The first number.
    pub fn first(&self) -> Option<u64>
        ensures { result ≡ slice_get self.now.items 0 }
    {
        self.items.front().copied()
    }

    /// The number at this place, from 0.
    pub fn get(&self, place: usize) -> Option<u64>
        ensures { result ≡ slice_get self.now.items place }
    {
        self.items.get(place).copied()
    }

    /// Whether there is none.
    pub fn is_empty(&self) -> bool
        ensures { result ≡ (length self.now.items == 0) }
    {
        self.items.is_empty()
    }

    /// Makes room for so many more.
    pub fn reserve(&mut self, n: usize) -> Result<(), OutOfMemory>
        ensures same { self.new.items ≡ self.old.items }
        ensures more { self.old.spare ≤ self.new.spare }
        ensures room { OnOk result (n ≤ self.new.spare) }
    {
        self.items.reserve(n)?;
        Ok(())
    }

    /// Puts a number at the end. Takes no memory.
    pub fn push(&mut self, number: u64)
        requires { 0 < self.old.spare }
        ensures items { self.new.items ≡ self.old.items ++ number ∷ [] }
        ensures room { self.old.spare ≤ self.new.spare + 1 }
    {
        let pushed = self.items.push_back(number);
        let Ok(()) = pushed else { unreachable!() };
    }

    /// Takes a number out, if it is there. At the front that takes constant time.
    pub fn take(&mut self, number: u64)
        requires { Rises 0 self.old.items }
        ensures items { self.new.items ≡ without number self.old.items }
        ensures room { self.old.spare ≤ self.new.spare }
    {
        if let Some(i) = place(&self.items, number) {
            let Some(_) = self.items.remove(i) else {
                unreachable!()
            };
        }
    }
}

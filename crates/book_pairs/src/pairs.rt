//! The book of pairs.
ghost use Rattle.std.specs.Prelude.{◌≡◌, []};

use crate::heard::Heard;
use crate::pair::Pair;
use fal_base::OutOfMemory;
use fal_book::Chronicle;
use std::alloc::Global;
use std::marker::Model;
use std::sync::atomic::{AtomicU64, Ordering};

/// A list of pairs in which each actor counts. One call of `reserve` and one of `inbox` may be refused, to see what a lock does then.
#[derive(Drop)]
pub struct Pairs {
    items: Vec<Pair>,
    reserves: u64,
    refused_reserve: u64,
    inboxes: AtomicU64,
    refused_inbox: u64,
}

impl Model for Pairs {
    ghost use Rattle.std.specs.Prelude.{List, vec_capacity, ℕ};
    ghost use Rattle.fal_book.specs.Entries.{IsSound};
    ghost use Rattle.book_pairs.specs.declared.pair.Pair.{Pair};
    ghost use Rattle.book_pairs.specs.Pairs.{IsNext};

    ghost Value = { List Pair × ℕ };

    ghost view = { λ p. (p.items.items, vec_capacity p.items) };

    ghost invariant = { λ p. IsSound IsNext tt p.items.items };
}

impl Pairs {
    /// No pairs. Takes no memory.
    pub fn new(alloc: Global) -> Pairs
        ensures { result.0 ≡ [] }
    {
        Pairs::refusing(alloc, 0, 0)
    }

    /// No pairs. The calls of `reserve` and of `inbox` with these numbers, counted from 1, will be refused; 0 refuses none.
    pub fn refusing(alloc: Global, refused_reserve: u64, refused_inbox: u64) -> Pairs
        ensures { result.0 ≡ [] }
    {
        Pairs {
            items: Vec::new(alloc),
            reserves: 0,
            refused_reserve,
            inboxes: AtomicU64::new(0),
            refused_inbox,
        }
    }

    /// All pairs, in their order.
    pub fn items(&self) -> &[Pair]
        ensures { result.now ≡ self.now.0 }
    {
        self.items.as_slice()
    }
}

impl Chronicle for Pairs {
    ghost use Rattle.std.specs.Prelude.{length, ◌<◌, ◌+◌, ◌^◌};
    ghost use Rattle.book_pairs.specs.Pairs.{IsNext, pair_actor, Hears};
    ghost use Rattle.book_pairs.specs.Lasting.{lasting};

    type Event = Pair;

    type Outputs = ();

    type Inbox = Heard;

    type Setting = ();

    ghost entries = { λ p. p.0 };

    ghost setting = { λ _. tt };

    ghost actor_of = { pair_actor };

    ghost may_push = { IsNext };

    ghost has_room = { λ p _. (length p.0 < p.1) × (length p.0 + 1 < 2 ^ 63) };

    ghost inbox_gives = { Hears };

    ghost lasts = { lasting };

    ghost roomy = { λ x o h. h.1 };

    fn actor(event: &Pair) -> u8 {
        event.actor
    }

    fn reserve(&mut self, _outputs: &()) -> Result<(), OutOfMemory> {
        self.reserves = self.reserves.wrapping_add(1);
        if self.reserves == self.refused_reserve || self.items.len() >= 1 << 62 {
            return Err(OutOfMemory);
        }
        if self.items.reserve(1).is_err() {
            return Err(OutOfMemory);
        }
        Ok(())
    }

    fn len(&self) -> u64 {
        self.items.len() as u64
    }

    fn push(&mut self, event: Pair, _outputs: ()) {
        self.items.push_reserved(event);
    }

    fn inbox(&self, actor: u8, from: u64, into: &mut Heard) -> Result<(), OutOfMemory> {
        let before = self.inboxes.fetch_add(1, Ordering::SeqCst);
        if before.wrapping_add(1) == self.refused_inbox {
            return Err(OutOfMemory);
        }
        if from >= self.items.len() as u64 {
            return Ok(());
        }
        let (_, news) = self.items.as_slice().split_at(from as usize);
        into.hear(actor, news)
    }
}

//! What an actor hears of the others.
ghost use Rattle.std.specs.Prelude.{◌≡◌, [], ◌++◌, drop, OnOk, OnErr};
ghost use Rattle.book_pairs.specs.Pairs.{others_of};

use crate::pair::Pair;
use fal_base::OutOfMemory;
use std::alloc::Global;
use std::marker::Model;

/// The pairs that an actor has heard, which contracts see as their list.
#[derive(Drop)]
pub struct Heard {
    pairs: Vec<Pair>,
}

impl Model for Heard {
    ghost use Rattle.std.specs.Prelude.{List};
    ghost use Rattle.book_pairs.specs.declared.pair.Pair.{Pair};

    ghost Value = { List Pair };

    ghost view = { λ h. h.pairs.items };
}

impl Heard {
    /// Nothing heard yet. Takes no memory.
    pub fn new(alloc: Global) -> Heard
        ensures { result ≡ [] }
    {
        Heard {
            pairs: Vec::new(alloc),
        }
    }

    /// The pairs heard, in their order.
    pub fn pairs(&self) -> &[Pair]
        ensures { result.now ≡ self.now }
    {
        self.pairs.as_slice()
    }

    /// Adds the pairs of other actors than this one, or answers want of memory and leaves what was heard as it was.
    pub(crate) fn hear(&mut self, actor: u8, news: &[Pair]) -> Result<(), OutOfMemory>
        ensures ok { OnOk result (self.new ≡ self.old ++ others_of actor news.now) }
        ensures err { OnErr result (self.new ≡ self.old) }
    {
        self.pairs.reserve(news.len())?;
        for pair in news {
            if pair.actor != actor {
                self.pairs.push_reserved(*pair);
            }
        }
        Ok(())
    }
}

ghost use Rattle.std.specs.Prelude.{◌≡◌};
ghost use Rattle.fal_gen.specs.Picks.{pick_by as pick_of, next_pick, IsThere};
ghost use Rattle.fal_gen.specs.Source.{source_of as generator_of};

use crate::source::source_of;
use rand_core::utils::NextWord;
use rand_pcg::Lcg64Xsh32;
use std::marker::Model;

/// What to do next in a run whose order is chosen.
#[derive(Clone, Copy, Debug, PartialEq, Eq)]
pub enum Pick {
    /// The fresh event at this place.
    Fresh(usize),
    /// The delivery of the envelope of this number, whether or not it came before.
    Again(u64),
    /// Nothing.
    Nothing,
}

/// Chooses by a seed what to do next, again and again.
#[derive(Drop)]
pub struct Chooser {
    source: Lcg64Xsh32,
}

impl Model for Chooser {
    ghost use Rattle.rand_pcg.specs.Lcg.{Lcg};

    ghost Value = { Lcg };

    ghost view = { λ chooser. chooser.source };
}

// What a word picks.
#[tactic(auto, unfolding(crate::specs::Picks::pick_by))]
fn pick_by(fresh: usize, sent: u64, word: u32) -> Pick
    ensures pick { result ≡ pick_of fresh sent word }
    ensures there { IsThere fresh sent result }
{
    if word % 8 == 0 && sent != 0 {
        return Pick::Again(u64::from(word / 8) % sent);
    }
    if fresh == 0 {
        return Pick::Nothing;
    }
    Pick::Fresh((word / 8) as usize % fresh)
}

impl Chooser {
    /// A chooser at the first word of the seed. Takes no memory.
    pub fn new(seed: u64) -> Chooser
        ensures { result ≡ generator_of seed }
    {
        Chooser {
            source: source_of(seed),
        }
    }

    /// Chooses by the next word, where there are so many fresh events and so many envelopes were sent: one time in eight an envelope, where one
    /// was sent, and otherwise a fresh event, where there is one; else nothing. Takes no memory.
    pub fn pick(&mut self, fresh: usize, sent: u64) -> Pick
        ensures pick { (result, self.new) ≡ next_pick fresh sent self.old }
        ensures there { IsThere fresh sent result }
    {
        pick_by(fresh, sent, self.source.next_word())
    }
}

// A cluster is left alone until it is quiet.
ghost use Rattle.std.specs.Prelude.{OnOk};
ghost use Rattle.fal_story.specs.Fresh.{IsQuietAt, AreAnswered, came};
ghost use Rattle.fal_story.specs.Run.{transcript};
ghost use Rattle.fal_alone.specs.Extends.{Extends, DrainsTo};
ghost use Rattle.fal_alone.specs.Turns.{world_of};

use crate::cluster::Cluster;
use fal_base::{OutOfMemory, Refuse};

impl Cluster {
    /// Takes the event that `enabled` gives, again and again, until there is none. Then the cluster is quiet, and each call that was sent is
    /// answered. It returns, since each turn adds an event to the book, and a full book answers want of memory. With want of memory the run
    /// goes on from the one before.
    #[tactic(auto, using(crate::proofs::Drains::drains_not_yet, crate::proofs::Drains::drains_on, crate::proofs::Drains::drains_extend, crate::proofs::Drains::drains_to, crate::proofs::FirstEnabled::first_enabled, fal_story::proofs::Drain::Quiet::none_is_quiet, fal_story::proofs::Drain::Answered::none_is_answered))]
    pub fn drain(&mut self) -> Result<(), OutOfMemory>
        ensures extends { Extends self.old self.new }
        ensures drained { OnOk result (DrainsTo self.old self.new) }
        ensures quiet { OnOk result (IsQuietAt self.new.config (world_of self.new) (came self.new.events)) }
        ensures answered { OnOk result (AreAnswered (transcript self.new.config self.new.events)) }
    {
        while let Some(event) = self.enabled() {
            self.book.legal();
            match self.step(event) {
                Ok(()) => {}
                Err(Refuse::OutOfMemory) => return Err(OutOfMemory),
                Err(Refuse::NotEnabled) => unreachable!(),
            }
        }
        self.book.legal();
        Ok(())
    }
}

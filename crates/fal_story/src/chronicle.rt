//! A book as a chronicle: its entries are the events of a legal run.
ghost use Rattle.std.specs.Prelude.{◌≡◌, [], ◌∷◌, ◌++◌};

use crate::book::{Book, actor_of};
use crate::inbox::{Inbox, number_of};
use fal_base::{Config, Event, OutOfMemory, Outputs};
use fal_book::Chronicle;

impl Chronicle for Book {
    ghost use Rattle.fal_story.specs.Actors.{actor_number};
    ghost use Rattle.fal_story.specs.Arriving.{Arrives};
    ghost use Rattle.fal_story.specs.Pushing.{MayPush};
    ghost use Rattle.fal_story.specs.Rooms.{HasBookRoom};
    ghost use Rattle.fal_story.specs.Lasting.{lasts};

    type Event = Event;

    type Outputs = Outputs;

    type Inbox = Inbox;

    type Setting = Config;

    ghost entries = { λ book. book.told.events };

    ghost setting = { λ book. book.told.config };

    ghost actor_of = { actor_number };

    ghost may_push = { MayPush };

    ghost has_room = { HasBookRoom };

    ghost inbox_gives = { Arrives };

    ghost lasts = { lasts };

    ghost roomy = { λ book outputs room. room.few };

    #[tactic(auto, unfolding(crate::specs::Actors::actor_number))]
    fn actor(event: &Event) -> u8 {
        number_of(actor_of(*event))
    }

    fn reserve(&mut self, outputs: &Outputs) -> Result<(), OutOfMemory> {
        self.make_room(outputs)
    }

    #[tactic(auto, using(crate::proofs::Histories::Pushed::legal_sound))]
    fn len(&self) -> u64 {
        self.legal();
        self.events().len() as u64
    }

    #[tactic(auto, using(crate::proofs::Histories::Pushed::pushed_follows))]
    fn push(&mut self, event: Event, outputs: Outputs) {
        self.legal();
        self.put(event, outputs);
    }

    #[tactic(auto, using(crate::proofs::Histories::Orders::legal_in_order, crate::proofs::Histories::Pushed::legal_sent))]
    fn inbox(&self, actor: u8, from: u64, into: &mut Inbox) -> Result<(), OutOfMemory> {
        self.legal();
        into.hear(actor, from, self.sent())
    }
}

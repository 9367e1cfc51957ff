// One event of one actor, after which the queues hold what is due again.
ghost use Rattle.std.specs.Prelude.{◌≡◌, ◌+◌, ◌↔◌, ℕ, List, OnOk, OnErr, IsErrOf, IsNone, length};
ghost use Rattle.fal_base.specs.declared.refuse.Refuse.TheVariants as refuse;
ghost use Rattle.fal_story.specs.Actors.{actor_of};
ghost use Rattle.fal_story.specs.Fresh.{came};
ghost use Rattle.fal_alone.specs.Queues.{Holds, HoldDue};
ghost use Rattle.fal_alone.specs.Turns.{world_of, told_envelopes, with_event, deed_after, IsOwn, NextIn};

use crate::queue::Queue;
use crate::queues::{catch_up, settle};
use crate::role::Role;
use crate::turn::turn;
use fal_base::{Event, Refuse};
use fal_story::Book;

/// How many lanes and nodes there are.
#[derive(Clone, Copy)]
pub struct Counts {
    pub lanes: usize,
    pub nodes: usize,
}

/// One event of an actor.
pub fn follow<R: Role>(
    book: &mut Book,
    actor: &mut R,
    queues: &mut [Queue],
    counts: Counts,
    event: Event,
    own: &R::Own,
) -> Result<(), Refuse>
    requires is { IsOwn book.old.told event (R.machine actor.old) (R.made actor.old own.now) }
    requires can { R.can_make actor.old own.now }
    requires size { length queues.old ≡ counts.lanes + 1 + counts.nodes }
    requires queues { HoldDue counts.lanes (came book.old.told.events) (told_envelopes book.old.told) queues.old }
    ensures book { OnOk result (book.new.told ≡ with_event book.old.told event) }
    ensures next { OnOk result (NextIn (world_of book.old.told) (world_of (with_event book.old.told event)) (actor_of event) (R.machine actor.new)) }
    ensures queues { OnOk result (HoldDue counts.lanes (came (with_event book.old.told event).events) (told_envelopes (with_event book.old.told event)) queues.new) }
    ensures same_book { OnErr result (book.new.told ≡ book.old.told) }
    ensures same_actor { OnErr result (R.machine actor.new ≡ R.machine actor.old) }
    ensures same_queues { OnErr result ((numbers : ℕ → List ℕ) → Holds numbers queues.old → Holds numbers queues.new) }
    ensures refused { IsErrOf result refuse.NotEnabled ↔ IsNone (deed_after book.old.told event) }
{
    book.legal();
    let from = book.sent().len();
    turn(book, actor, queues, event, own)?;
    settle(queues, counts.lanes, counts.nodes, event);
    catch_up(queues, counts.lanes, counts.nodes, book, from);
    Ok(())
}

// One event of one actor: made ready, noted in the book, applied.
ghost use Rattle.std.specs.Prelude.{◌≡◌, ◌↔◌, ℕ, List, OnOk, OnErr, IsErrOf, IsNone, length};
ghost use Rattle.fal_base.specs.declared.refuse.Refuse.TheVariants as refuse;
ghost use Rattle.fal_story.specs.Actors.{actor_of};
ghost use Rattle.fal_story.specs.Run.{Follows};
ghost use Rattle.fal_alone.specs.Queues.{Holds, HaveRoom, TakesItsOwn};
ghost use Rattle.fal_alone.specs.Turns.{world_of, told_envelopes, with_event, deed_after, sent_count, IsOwn, NextIn};

use crate::queue::Queue;
use crate::queues::reserve;
use crate::role::Role;
use fal_base::{Event, OutOfMemory, Outputs, Refuse};
use fal_story::Book;

// Notes an event in the book. It leaves the queues' numbers, and makes room in them for what the event sends.
fn note(
    book: &mut Book,
    queues: &mut [Queue],
    event: Event,
    outputs: Outputs,
) -> Result<(), OutOfMemory>
    requires { Follows book.old.told.config book.old.told.events event outputs.sent outputs.notes }
    ensures queues { (numbers : ℕ → List ℕ) → Holds numbers queues.old → Holds numbers queues.new }
    ensures room { OnOk result (HaveRoom (length outputs.sent) queues.new) }
    ensures book { OnOk result (book.new.told ≡ with_event book.old.told event) }
    ensures same { OnErr result (book.new.told ≡ book.old.told) }
{
    reserve(queues, outputs.sent.len())?;
    book.step(event, outputs)?;
    Ok(())
}

/// One event of an actor. It leaves the queues' numbers, and makes room in them for what the event sends.
pub fn turn<R: Role>(
    book: &mut Book,
    actor: &mut R,
    queues: &mut [Queue],
    event: Event,
    own: &R::Own,
) -> Result<(), Refuse>
    requires is { IsOwn book.old.told event (R.machine actor.old) (R.made actor.old own.now) }
    requires can { R.can_make actor.old own.now }
    ensures queues { (numbers : ℕ → List ℕ) → Holds numbers queues.old → Holds numbers queues.new }
    ensures book { OnOk result (book.new.told ≡ with_event book.old.told event) }
    ensures next { OnOk result (NextIn (world_of book.old.told) (world_of (with_event book.old.told event)) (actor_of event) (R.machine actor.new)) }
    ensures takes { OnOk result (TakesItsOwn event (told_envelopes book.old.told)) }
    ensures room { OnOk result (HaveRoom (sent_count book.old.told event) queues.new) }
    ensures same_book { OnErr result (book.new.told ≡ book.old.told) }
    ensures same_actor { OnErr result (R.machine actor.new ≡ R.machine actor.old) }
    ensures refused { IsErrOf result refuse.NotEnabled ↔ IsNone (deed_after book.old.told event) }
{
    book.legal();
    let step = actor.prepare(own)?;
    let (prepared, outputs) = step;
    let Ok(()) = note(book, queues, event, outputs) else {
        return Err(Refuse::OutOfMemory);
    };
    actor.make(prepared);
    Ok(())
}

//! What stands in an inbox.
ghost use Rattle.std.specs.Prelude.{IfOk};
ghost use Rattle.std.specs.Option.{ForSome};
ghost use Rattle.book_runs.specs.Posts.{IsHeard};

use fal_base::{Duplicate, Envelope, OutOfMemory};
use fal_story::Inbox;

/// The envelope of this number, if the inbox has it.
#[tactic(auto, using(crate::proofs::Kept::heard))]
pub fn heard(inbox: &Inbox, number: u64) -> Result<Option<Envelope>, OutOfMemory>
    ensures { IfOk result (λ found. ForSome found (IsHeard inbox.now number)) }
{
    for arrived in inbox.items() {
        if arrived.number == number {
            return Ok(Some(arrived.envelope.copy()?));
        }
    }
    Ok(None)
}

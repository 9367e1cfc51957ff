//! Messages on their way out, and their records.

ghost use Rattle.std.specs.Prelude.{◌≡◌, IfOk, map};
ghost use Rattle.std.specs.List.{All};
ghost use Rattle.fal_wire.specs.Messages.{Fits};
ghost use Rattle.fal_wire.specs.Letters.{letter as letter_of, output_of};
ghost use Rattle.fal_wire.specs.Ops.{call_rec};
ghost use Rattle.fal_wire.specs.declared.message.Message.TheVariants.{Call as CallMessage};

use crate::encoding::{record_of, record_of_call};
use crate::message::Message;
use fal_base::{Actor, Call, CallId, Items, OutOfMemory, Output, OutputList, Point};
use std::alloc::Global;

/// A message on its way out, before it is spelled: to whom it goes, and the point of the commits at which it is true.
#[derive(Debug, Drop)]
pub struct Letter {
    pub to: Actor,
    pub point: Point,
    pub message: Message,
}

// The letter as it goes out.
#[tactic(auto, unfolding(crate::specs::Letters::output_of))]
fn output(alloc: Global, letter: &Letter) -> Result<Output, OutOfMemory>
    requires { Fits letter.now.message }
    ensures { IfOk result (λ output. output ≡ output_of letter.now) }
{
    let bytes = record_of(alloc, &letter.message)?;
    Ok(Output {
        to: letter.to,
        point: letter.point,
        bytes: Items::from_items(bytes),
    })
}

/// A call as it goes out, spelled with no copy of it made: it is the record of the letter that holds the call with this id and this
/// version of the table. The call has to be within the ranges of its record. Refused with want of memory alone.
#[tactic(auto, unfolding(crate::specs::Letters::output_of))]
pub fn spelled_call(
    alloc: Global,
    to: Actor,
    point: Point,
    id: &CallId,
    version: u32,
    call: &Call,
) -> Result<Output, OutOfMemory>
    requires { Fits (CallMessage (call_rec id.now call.now.cred version call.now.op)) }
    ensures { IfOk result (λ output. output ≡ output_of (letter_of to point (CallMessage (call_rec id.now call.now.cred version call.now.op)))) }
{
    let bytes = record_of_call(alloc, id, version, call)?;
    Ok(Output {
        to,
        point,
        bytes: Items::from_items(bytes),
    })
}

/// The letters as they go out, in their order. Each message has to be within the ranges of its record. Refused with want of memory alone.
pub fn spelled(alloc: Global, letters: &[Letter]) -> Result<OutputList, OutOfMemory>
    requires { All (λ letter. Fits letter.message) letters.now }
    ensures { IfOk result (λ sent. sent ≡ map output_of letters.now) }
{
    let mut sent = OutputList::new(alloc);
    sent.reserve(letters.len())?;
    for letter in letters {
        let output = output(alloc, letter)?;
        sent.push(output)?;
    }
    Ok(sent)
}

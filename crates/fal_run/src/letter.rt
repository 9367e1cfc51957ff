//! The records that answer calls.

ghost use Rattle.std.specs.Prelude.{◌≡◌, ◌+◌, ◌<◌, ◌^◌, IfOk};
ghost use Rattle.fal_run.specs.Calls.{answer_letter as answer_letter_of};
ghost use Rattle.fal_run.specs.Letters.{passed_on as passed_on_of};

use fal_base::{Actor, CallId, CallRec, Duplicate, OutOfMemory, Point};
use fal_exec::ExecOut;
use fal_wire::{Letter, Message};

/// The call, passed on once more. Answers want of memory where there is too little.
pub fn passed_on(call: &CallRec) -> Result<CallRec, OutOfMemory>
    requires { call.now.id.hop + 1 < 2 ^ 32 }
    ensures { IfOk result (λ passed. passed ≡ passed_on_of call.now) }
{
    Ok(CallRec {
        id: CallId {
            hop: call.id.hop + 1,
            ..call.id
        },
        cred: call.cred,
        version: call.version,
        op: call.op.copy()?,
    })
}

// The record that answers the call.
pub(crate) fn answer_letter(
    call: &CallRec,
    commits: u32,
    outcome: &ExecOut,
) -> Result<Letter, OutOfMemory>
    requires { outcome.now ≡ ExecOut.PassOn → call.now.id.hop + 1 < 2 ^ 32 }
    ensures { IfOk result (λ letter. letter ≡ answer_letter_of call.now commits outcome.now) }
{
    match outcome {
        ExecOut::Finish { reply, .. } => Ok(Letter {
            to: Actor::Client(call.id.client),
            point: Point::Here(commits),
            message: Message::Reply {
                id: call.id,
                reply: reply.copy()?,
            },
        }),
        ExecOut::Opened(dir) => Ok(Letter {
            to: Actor::Client(call.id.client),
            point: Point::Here(commits),
            message: Message::Opened {
                id: call.id,
                dir: *dir,
            },
        }),
        ExecOut::PassOn => Ok(Letter {
            to: Actor::Coord,
            point: Point::Here(commits),
            message: Message::Call(passed_on(call)?),
        }),
    }
}

//! Sending the next call.

ghost use Rattle.std.specs.Prelude.{◌≡◌, Some, IfOk, slice_get};
ghost use Rattle.fal_base.specs.OpPaths.{bad_path};
ghost use Rattle.fal_client.specs.Step.{IsInRange, begun, skipped, started};
ghost use Rattle.fal_client.specs.Patch.{IsStep};

use crate::asks::ask_outputs;
use crate::client::Client;
use crate::patch::{Patch, Prepared};
use crate::paths::errno_of;
use fal_base::{Call, CallId, Note, NoteList, OutOfMemory, OutputList, PathFault, Point, Reply};

// The call becomes the current one.
#[tactic(auto, unfolding(crate::specs::Step::begun, crate::specs::Patch::patched))]
fn begin(client: &Client, call: &Call) -> Result<Prepared, OutOfMemory>
    requires next { slice_get client.now.left 0 ≡ Some call.now }
    requires range { IsInRange (begun client.now call.now) }
    ensures { IfOk result (λ p. IsStep client.now (begun client.now call.now) p) }
{
    let alloc = client.alloc;
    let seq = client.seq + 1;
    let id = CallId {
        client: client.lane,
        seq,
        attempt: 1,
        hop: 0,
    };
    let sent = ask_outputs(alloc, id, &client.table, client.nodes, call, None)?;
    let mut notes = NoteList::new(alloc);
    notes.push(Note::Sent {
        lane: client.lane,
        seq,
    })?;
    Ok(Prepared::new(alloc, Patch::Start { seq }, sent, notes))
}

// A bad path is answered at once.
#[tactic(auto, unfolding(crate::specs::Step::skipped, crate::specs::Patch::patched))]
fn skip(client: &Client, fault: PathFault) -> Result<Prepared, OutOfMemory>
    requires { IsInRange (skipped client.now fault) }
    ensures { IfOk result (λ p. IsStep client.now (skipped client.now fault) p) }
{
    let alloc = client.alloc;
    let seq = client.seq + 1;
    let mut notes = NoteList::new(alloc);
    notes.push(Note::Sent {
        lane: client.lane,
        seq,
    })?;
    notes.push(Note::Answered {
        lane: client.lane,
        seq,
        point: Point::Here(0),
        reply: Reply::Fail(errno_of(fault)),
    })?;
    Ok(Prepared::new(alloc, Patch::Skip { seq }, OutputList::new(alloc), notes))
}

// The next call, as it is sent or answered at once.
#[tactic(auto, unfolding(crate::specs::Step::started))]
pub fn start(client: &Client, call: &Call) -> Result<Prepared, OutOfMemory>
    requires next { slice_get client.now.left 0 ≡ Some call.now }
    requires range { IsInRange (started client.now call.now (bad_path call.now.op)) }
    ensures { IfOk result (λ p. IsStep client.now (started client.now call.now (bad_path call.now.op)) p) }
{
    match call.op.bad_path() {
        None => {
            let prepared = begin(client, call)?;
            Ok(prepared)
        }
        Some(fault) => {
            let prepared = skip(client, fault)?;
            Ok(prepared)
        }
    }
}

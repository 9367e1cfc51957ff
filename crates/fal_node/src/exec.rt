ghost use Rattle.std.specs.Prelude.{◌≡◌, ◌+◌, ◌<◌, ◌^◌, IfOk, OnErr, IsTrue, IsSome};
ghost use Rattle.std.specs.Option.{ForSome};
ghost use Rattle.fal_run.specs.Calls.{are_row_calls};
ghost use Rattle.fal_node.specs.Exec.{with_executed, exec_all, execute as execute_of};
ghost use Rattle.fal_node.specs.Letters.{begun};
ghost use Rattle.fal_node.specs.Ready.{DoesOf, CanDraft};
ghost use Rattle.fal_node.specs.Runs.{run_work};
ghost use Rattle.fal_node.specs.State.{batch_of};
ghost use Rattle.fal_node.specs.Step.{IsWithin};

use crate::draft::Draft;
use crate::node::Node;
use crate::patch::Patch;
use crate::serve::find_batch;
use fal_base::OutOfMemory;
use fal_run::{BatchCall, Run, run_calls};

// Runs the calls of the batch with this number, in their order.
fn run_batch(node: &Node, number: u64, calls: &[BatchCall]) -> Result<Run, OutOfMemory>
    requires row_calls { IsTrue (are_row_calls calls.now) }
    requires within { IsWithin (exec_all (begun (with_executed node.now.state number)) calls.now) }
    ensures work { IfOk result (λ run. run_work node.now.state number run ≡ exec_all (begun (with_executed node.now.state number)) calls.now) }
    ensures fits { IfOk result (λ run. node.now.state.drawn + run.drawn < 2 ^ 64) }
{
    run_calls(node.alloc, &node.rows, node.number, node.drawn, calls)
}

// Executes the batch with this number, where it is there and not executed.
#[tactic(auto, unfolding(crate::specs::Exec::executed))]
pub(crate) fn execute(node: &Node, number: u64) -> Result<Option<Draft>, OutOfMemory>
    requires { ForSome (execute_of node.now.state number (batch_of node.now.state number)) IsWithin }
    ensures does { IfOk result (λ draft. DoesOf node.now.state (execute_of node.now.state number (batch_of node.now.state number)) draft) }
    ensures can { IfOk result (λ draft. ForSome draft (λ d. CanDraft node.now.state d.patch)) }
    ensures err { OnErr result (IsSome (execute_of node.now.state number (batch_of node.now.state number))) }
{
    match find_batch(&node.batches, number) {
        None => Ok(None),
        Some(batch) => {
            if batch.executed {
                return Ok(None);
            }
            let run = run_batch(node, number, batch.calls.as_slice())?;
            let Run {
                changes,
                letters,
                notes,
                commits: _,
                drawn,
            } = run;
            Ok(Some(Draft {
                patch: Patch::Execute {
                    batch: number,
                    changes,
                    drawn,
                },
                letters,
                notes,
            }))
        }
    }
}

ghost use Rattle.std.specs.Prelude.{◌≡◌, IfOk};
ghost use Rattle.fal_script.specs.Configs.{lane_calls as lane_calls_of, config_of_script};

use crate::script::{Script, ScriptCall};
use fal_base::{CallList, Config, Duplicate, LaneList, OutOfMemory};
use std::alloc::Global;

// The calls of one lane, in line order.
fn lane_calls(alloc: Global, lines: &[ScriptCall], lane: u8) -> Result<CallList, OutOfMemory>
    ensures { IfOk result (λ calls. calls ≡ lane_calls_of lines.now lane) }
{
    let mut calls = CallList::new(alloc);
    for line in lines {
        if line.lane == lane {
            calls.push(line.call.copy()?)?;
        }
    }
    Ok(calls)
}

/// The cluster of a script: so many nodes, batches of at most `batch` calls, and each lane's calls in line order. Answers want of memory
/// where there is too little.
pub fn config_of(alloc: Global, script: &Script, batch: u8) -> Result<Config, OutOfMemory>
    ensures { IfOk result (λ config. config ≡ config_of_script script.now batch) }
{
    let mut lanes = LaneList::new(alloc);
    for place in 0..script.lanes {
        lanes.push(lane_calls(alloc, script.lines.as_slice(), place + 1)?)?;
    }
    Ok(Config {
        nodes: script.nodes,
        batch,
        lanes,
    })
}

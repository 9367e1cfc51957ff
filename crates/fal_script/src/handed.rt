// The cluster of a script that is handed over.
ghost use Rattle.std.specs.Prelude.{◌≡◌, ◌++◌, ◌∷◌, [], ◌≤◌, IfOk, List, OnOk, length};
ghost use Rattle.fal_script.specs.Configs.{config_of_script, lanes_of_script, order_of};
ghost use Rattle.fal_script.specs.Ranges.{IsSpelledScript};
ghost use Rattle.fal_script.specs.declared.script.ScriptCall.{ScriptCall as LineSeen};

use crate::script::{Script, ScriptCall};
use fal_base::{CallList, Config, LaneList, OutOfMemory};
use std::alloc::Global;

// As many lanes without calls.
fn no_calls(alloc: Global, lanes: u8) -> Result<Vec<CallList>, OutOfMemory>
    ensures { IfOk result (λ lists. lists.items ≡ lanes_of_script [] lanes) }
{
    let mut lists = Vec::new(alloc);
    for _ in 0..lanes {
        lists.push(CallList::new(alloc))?;
    }
    Ok(lists)
}

// Puts a line's call at the end of its lane.
fn put_call(lists: &mut Vec<CallList>, line: ScriptCall) -> Result<(), OutOfMemory>
    requires from_one { 1 ≤ line.lane }
    requires within { line.lane ≤ length lists.old.items }
    ensures length { OnOk result (length lists.new.items ≡ length lists.old.items) }
    ensures put { OnOk result ((lines : List LineSeen) → lists.old.items ≡ lanes_of_script lines (length lists.old.items) → lists.new.items ≡ lanes_of_script (lines ++ line ∷ []) (length lists.old.items)) }
{
    let ScriptCall { lane, call } = line;
    let place = usize::from(lane) - 1;
    lists[place].push(call)?;
    Ok(())
}

/// The cluster of a script that is handed over, as `config_of` gives it, and the lanes of its lines in their order. Answers want of memory
/// where there is too little.
pub fn into_config(
    alloc: Global,
    script: Script,
    batch: u8,
) -> Result<(Config, Vec<u8>), OutOfMemory>
    requires { IsSpelledScript script }
    ensures config { IfOk result (λ parts. parts.0 ≡ config_of_script script batch) }
    ensures order { IfOk result (λ parts. parts.1.items ≡ order_of script.lines) }
{
    let Script {
        nodes,
        lanes,
        lines,
    } = script;
    let mut order = Vec::with_capacity(alloc, lines.len())?;
    let mut lists = no_calls(alloc, lanes)?;
    for line in lines.into_items() {
        order.push(line.lane)?;
        put_call(&mut lists, line)?;
    }
    let lanes = LaneList::from_items(lists);
    Ok((
        Config {
            nodes,
            batch,
            lanes,
        },
        order,
    ))
}

ghost use Rattle.std.specs.Prelude.{◌≡◌, ◌≤◌, ◌+◌, length, IfOk};
ghost use Rattle.std.specs.List.{All};
ghost use Rattle.fal_script.specs.Printed.{IsPrintable};
ghost use Rattle.fal_gen.specs.Lines.{root_line as root_line_of, opening_lines as openings, line_by as line_of, lines_by, script_of_words, IsMadeLine};
ghost use Rattle.fal_gen.specs.Source.{words_of_seed};

use crate::names::lane_path;
use crate::ops::op_by;
use crate::source::source_of;
use fal_base::{Call, Cred, Op, OutOfMemory};
use fal_script::{LineList, Script, ScriptCall};
use rand_core::utils::NextWord;
use std::alloc::Global;

// Root's call of a lane.
fn root_line(lane: u8, op: Op) -> ScriptCall
    ensures { result ≡ root_line_of lane op }
{
    let cred = Cred { uid: 0, gid: 0 };
    let call = Call { cred, op };
    ScriptCall { lane, call }
}

// The directories of the lanes.
fn opening_lines(alloc: Global) -> Result<LineList, OutOfMemory>
    ensures { IfOk result (λ lines. lines ≡ openings 4) }
{
    let mut lines = LineList::new(alloc);
    for place in 0..4 {
        let lane = place + 1;
        let path = lane_path(alloc, lane)?;
        lines.push(root_line(lane, Op::Mkdir { path, mode: 0o755 }))?;
    }
    Ok(lines)
}

// The call of this number by its word.
fn line_by(alloc: Global, number: u32, word: u32) -> Result<ScriptCall, OutOfMemory>
    ensures { IfOk result (λ line. line ≡ line_of number word) }
{
    let lane = (number % 4) as u8 + 1;
    let op = op_by(alloc, lane, word)?;
    Ok(root_line(lane, op))
}

// The directories, and then so many calls.
fn lines_of(alloc: Global, seed: u64, size: u32) -> Result<LineList, OutOfMemory>
    ensures { IfOk result (λ lines. lines ≡ lines_by (words_of_seed seed size)) }
{
    let mut lines = opening_lines(alloc)?;
    let mut source = source_of(seed);
    for number in 0..size {
        lines.push(line_by(alloc, number, source.next_word())?)?;
    }
    Ok(lines)
}

/// The script of a seed, with so many calls after the four that make the directories of its lanes: at most 10,000 calls in all. The same seed
/// and size give the same script. Answers want of memory where there is too little.
///
/// A made script can be printed, and read back.
pub fn make(alloc: Global, seed: u64, size: u32) -> Result<Script, OutOfMemory>
    requires some { 1 ≤ size }
    requires few { size ≤ 9996 }
    ensures script { IfOk result (λ script. script ≡ script_of_words (words_of_seed seed size)) }
    ensures count { IfOk result (λ script. length script.lines ≡ 4 + size) }
    ensures lines { IfOk result (λ script. All IsMadeLine script.lines) }
    ensures printable { IfOk result (λ script. IsPrintable script) }
{
    let lines = lines_of(alloc, seed, size)?;
    Ok(Script {
        nodes: 4,
        lanes: 4,
        lines,
    })
}

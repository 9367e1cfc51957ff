ghost use Rattle.std.specs.Prelude.{◌≡◌, ◌++◌, codes, OnOk, IfOk, Ok};
ghost use Rattle.std.specs.List.{flat_map};
ghost use Rattle.fal_script.specs.Printed.{call_line, script_header_text, script_text, IsPrintable};
ghost use Rattle.fal_script.specs.Script.{script_of};

use crate::script::{Script, ScriptCall};
use fal_base::OutOfMemory;
use fal_report::{put_call, put_count};
use std::alloc::Global;
use std::io::Write;

fn put_header(out: &mut Vec<u8>, script: &Script) -> Result<(), OutOfMemory>
    ensures { OnOk result (out.new.items ≡ out.old.items ++ script_header_text script.now) }
{
    out.extend_from_slice(b"falcon-script 1\n")?;
    put_count(out, b"nodes", script.nodes as u64)?;
    put_count(out, b"lanes", script.lanes as u64)?;
    Ok(())
}

fn put_line(out: &mut Vec<u8>, line: &ScriptCall) -> Result<(), OutOfMemory>
    ensures { OnOk result (out.new.items ≡ out.old.items ++ call_line line.now ++ codes "\n") }
{
    let lane = line.lane;
    write!(out, "{lane} ").map_err(|_| OutOfMemory)?;
    put_call(out, &line.call)?;
    out.push(b'\n')?;
    Ok(())
}

fn put_lines(out: &mut Vec<u8>, lines: &[ScriptCall]) -> Result<(), OutOfMemory>
    ensures { OnOk result (out.new.items ≡ out.old.items ++ flat_map (λ line. call_line line ++ codes "\n") lines.now) }
{
    for line in lines {
        put_line(out, line)?;
    }
    Ok(())
}

fn text_of(alloc: Global, script: &Script) -> Result<Vec<u8>, OutOfMemory>
    ensures { IfOk result (λ text. text.items ≡ script_text script.now) }
{
    let mut out = Vec::new(alloc);
    put_header(&mut out, script)?;
    put_lines(&mut out, script.lines.as_slice())?;
    Ok(out)
}

/// The text of a script: its header and a line a call, one space between words, numbers without leading zeros, modes as three octal digits,
/// and paths and names with escapes. What is printed is read back as the same script, where no line of it has more than 16,384 bytes. Answers
/// want of memory where there is too little.
pub fn print(alloc: Global, script: &Script) -> Result<Vec<u8>, OutOfMemory>
    ensures text { IfOk result (λ text. text.items ≡ script_text script.now) }
    ensures read_back { IfOk result (λ text. IsPrintable script.now → script_of text.items ≡ Ok script.now) }
{
    let text = text_of(alloc, script)?;
    Ok(text)
}

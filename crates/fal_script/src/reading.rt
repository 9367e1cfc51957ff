ghost use Rattle.std.specs.Prelude.{◌≡◌, ◌<◌, IfOk, length, map};
ghost use Rattle.fal_base.specs.Unless.{UnlessMemory};
ghost use Rattle.fal_script.specs.Printed.{IsPrintablePath, IsPrintableName};
ghost use Rattle.fal_script.specs.Ranges.{IsScriptOf};
ghost use Rattle.fal_script.specs.ReadAs.{ReadAs};
ghost use Rattle.fal_script.specs.Script.{are_words as are_words_of, labelled as labelled_of, content_line as content_of, line_of_words as line_words_of, with_line as line_of, finished as finished_of, script_of};

use crate::arguments::count_word;
use crate::calls::call_words;
use crate::fault::{Broken, ScriptFault};
use crate::lines::cut;
use crate::script::{LineList, Script};
use crate::words::{is_skipped, is_word, words_of};
use std::alloc::Global;

const LINE: usize = 16_384;

/// What has been read of a script.
#[derive(Debug, Drop)]
pub enum Draft {
    /// No content line.
    Empty,
    /// The title.
    Titled,
    /// The title and the number of nodes.
    Counted { nodes: u8 },
    /// The whole header, and the calls so far.
    Headed(Script),
}

// Whether they are these two words.
fn are_words(words: &[&[u8]], first: &[u8], second: &[u8]) -> bool
    ensures { result ≡ are_words_of first.now second.now (map (λ w. w.now) words.now) }
{
    match words {
        [one, other] => is_word(one, first) && is_word(other, second),
        _ => false,
    }
}

// The count after this label.
fn labelled(words: &[&[u8]], label: &[u8]) -> Option<u8>
    ensures { result ≡ labelled_of label.now (map (λ w. w.now) words.now) }
{
    match words {
        [word, number] if is_word(word, label) => count_word(number),
        _ => None,
    }
}

// Takes one content line more.
fn content_line(alloc: Global, draft: Draft, words: &[&[u8]]) -> Result<Draft, Broken>
    ensures { ReadAs result (content_of draft (map (λ w. w.now) words.now)) }
{
    match draft {
        Draft::Empty => {
            if are_words(words, b"falcon-script", b"1") {
                Ok(Draft::Titled)
            } else {
                Err(Broken::Rule(2))
            }
        }
        Draft::Titled => match labelled(words, b"nodes") {
            Some(nodes) => Ok(Draft::Counted { nodes }),
            None => Err(Broken::Rule(3)),
        },
        Draft::Counted { nodes } => match labelled(words, b"lanes") {
            Some(lanes) => {
                let lines = LineList::new(alloc);
                Ok(Draft::Headed(Script {
                    nodes,
                    lanes,
                    lines,
                }))
            }
            None => Err(Broken::Rule(4)),
        },
        Draft::Headed(mut script) => {
            let call = call_words(alloc, script.lanes, words)?;
            script.lines.push(call)?;
            Ok(Draft::Headed(script))
        }
    }
}

fn line_of_words(alloc: Global, draft: Draft, words: &[&[u8]]) -> Result<Draft, Broken>
    ensures { ReadAs result (line_words_of draft (map (λ w. w.now) words.now)) }
{
    if is_skipped(words) {
        return Ok(draft);
    }
    content_line(alloc, draft, words)
}

// Takes one line more.
#[tactic(auto, unfolding(crate::specs::Script::with_line))]
fn with_line(alloc: Global, draft: Draft, line: &[u8]) -> Result<Draft, Broken>
    ensures { ReadAs result (line_of draft line.now) }
{
    if line.len() > LINE {
        return Err(Broken::Rule(1));
    }
    let words = words_of(alloc, line)?;
    line_of_words(alloc, draft, &words)
}

// The script, where its header is whole before the line of this number, which is not there.
fn finished(line: u32, draft: Draft) -> Result<Script, ScriptFault>
    ensures { result ≡ finished_of line draft }
{
    match draft {
        Draft::Headed(script) => Ok(script),
        _ => Err(ScriptFault::Fault { line, rule: 14 }),
    }
}

// ReadAs line after line.
fn read_lines(alloc: Global, bytes: &[u8]) -> Result<Script, ScriptFault>
    requires { length bytes.now < 4294967295 }
    ensures { UnlessMemory ScriptFault.OutOfMemory result (script_of bytes.now) }
{
    let mut draft = Draft::Empty;
    let mut number: u32 = 1;
    let mut rest = bytes;
    while let Some((line, after)) = cut(rest) {
        match with_line(alloc, draft, line) {
            Ok(next) => draft = next,
            Err(Broken::Rule(rule)) => {
                return Err(ScriptFault::Fault { line: number, rule });
            }
            Err(Broken::OutOfMemory) => return Err(ScriptFault::OutOfMemory),
        }
        rest = after;
        number += 1;
    }
    finished(number, draft)
}

/// The script that the bytes spell, or the first line that breaks a rule, with the lowest rule that it breaks, or want of memory.
///
/// A script that is read can be printed, where no line of it gets too long by escapes.
pub fn read(alloc: Global, bytes: &[u8]) -> Result<Script, ScriptFault>
    requires { length bytes.now < 4294967295 }
    ensures script { UnlessMemory ScriptFault.OutOfMemory result (script_of bytes.now) }
    ensures printable { IfOk result (λ script. IsScriptOf IsPrintablePath IsPrintableName script) }
{
    let script = read_lines(alloc, bytes)?;
    Ok(script)
}

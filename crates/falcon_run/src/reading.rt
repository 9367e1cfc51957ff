ghost use Rattle.std.specs.Prelude.{◌≡◌, ◌≤◌, length, count_by, Option, Some, Result, List, ℕ};
ghost use Rattle.fal_io.specs.Causes.{Rose};
ghost use Rattle.falcon_run.specs.Headline.{is_list_line, is_too_large as is_too_large_of};
ghost use Rattle.falcon_run.specs.Reading.{IsReading, IsScript, OwedFor};

use fal_base::Op;
use fal_io::{ReadAll, Source, read_all};
use fal_script::{Script, ScriptCall, ScriptFault, read};
use std::alloc::Global;

const BYTES: usize = 16_777_216;

const CALLS: usize = 10_000;

// The most that lists times bytes may be: each list could tell the names of all lines.
const LISTED: usize = 134_217_728;

/// Why there is no script.
#[derive(Clone, Copy, Debug, PartialEq, Eq)]
pub enum Unread {
    ReadFault,
    TooLarge,
    /// The first line that breaks a rule, and the lowest rule that it breaks.
    NoScript { line: u32, rule: u8 },
    OutOfMemory,
}

fn is_list(line: &ScriptCall) -> bool
    ensures { result ≡ is_list_line line.now }
{
    matches!(line.call.op, Op::List { .. })
}

// How many of the calls are lists.
fn list_calls(lines: &[ScriptCall]) -> usize
    ensures { result ≡ count_by is_list_line lines.now }
{
    let mut count = 0;
    for line in lines {
        if is_list(line) {
            count += 1;
        }
    }
    count
}

// Whether a script of so many bytes has more calls or lists than are served.
fn is_too_large(size: usize, script: &Script) -> bool
    requires { size ≤ 16777216 }
    ensures { result ≡ is_too_large_of size script.now }
{
    script.lines.len() > CALLS || list_calls(script.lines.as_slice()) * size > LISTED
}

// The script of bytes that were read whole.
fn script_of(alloc: Global, bytes: &[u8]) -> Result<Script, Unread>
    requires { length bytes.now ≤ 16777216 }
    ensures { IsScript bytes.now result }
{
    match read(alloc, bytes) {
        Ok(script) => {
            if is_too_large(bytes.len(), &script) {
                Err(Unread::TooLarge)
            } else {
                Ok(script)
            }
        }
        Err(ScriptFault::Fault { line, rule }) => Err(Unread::NoScript { line, rule }),
        Err(ScriptFault::OutOfMemory) => Err(Unread::OutOfMemory),
    }
}

/// Reads all that is left of the source, as a script of at most 10,000 calls in at most 16,777,216 bytes, whose lists times its bytes are at most
/// 134,217,728.
pub fn read_script<S: Source>(alloc: Global, source: &mut S) -> Result<Script, Unread>
    ensures reading { IsReading (S.left source.old) (S.left source.new) (S.faults source.old) (S.faults source.new) result }
    ensures owed { (bytes : List ℕ) → S.left source.old ≡ Some bytes → (Rose (S.faults source.old) (S.faults source.new) → ⊥) → OwedFor result bytes }
{
    read_bytes(alloc, source)
}

fn read_bytes<S: Source>(alloc: Global, source: &mut S) -> Result<Script, Unread>
    ensures { IsReading (S.left source.old) (S.left source.new) (S.faults source.old) (S.faults source.new) result }
{
    match read_all(alloc, source, BYTES) {
        Ok(bytes) => script_of(alloc, &bytes),
        Err(ReadAll::Fault) => Err(Unread::ReadFault),
        Err(ReadAll::TooLarge) => Err(Unread::TooLarge),
        Err(ReadAll::OutOfMemory) => Err(Unread::OutOfMemory),
    }
}

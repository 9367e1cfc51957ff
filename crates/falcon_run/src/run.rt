ghost use Rattle.std.specs.Prelude.{◌≡◌, ◌≢◌, ◌⊎◌, ◌<◌, ◌≤◌, ◌^◌, ◌↔◌, [], List, ℕ, IfOk, OnOk, Some, None, Option, length, map, string_bytes, IsTrue, Result};
ghost use Rattle.fal_io.specs.Causes.{Rose, AppendsFront, Took};
ghost use Rattle.std.specs.Io.KnownBytes.{Appends};
ghost use Rattle.falcon_run.specs.Answers.{Refuses, Writes, IsOwed};
ghost use Rattle.falcon_run.specs.Recorded.{IsRecorded, run_text as run_text_of};
ghost use Rattle.falcon_run.specs.Serving.{HasCallsFor};
ghost use Rattle.fal_script.specs.Ranges.{IsSpelledScript};
ghost use Rattle.fal_story.specs.Clusters.{IsCluster};
ghost use Rattle.fal_words.specs.declared.asked.Asked.{Asked};
ghost use Rattle.fal_story.specs.Run.{IsLegal};
ghost use Rattle.falcon_run.specs.Headline.{words_ask, cluster_of, usage_line, script_line as script_line_of, fault_line, large_line, ToldFault, GaveTooMuch, IsStatus, Wrote, IsDone, IsCutOff, WantsMemory, owed};

use crate::reading::{Unread, read_script};
use crate::serving::serve;
use crate::text::run_text;
use fal_alone::Cluster;
use fal_base::{Config, Event, OutOfMemory};
use fal_io::{Failed, Sink, Source, put_all};
use fal_script::{Script, into_config, scripts_are_in_range};
use fal_story::{Run, calls_in_range_may_run};
use fal_words::{WordsFault, read_words};
use std::alloc::Global;
use std::io::Write;

/// The one run that took place: the cluster, and the events in their order.
#[derive(Debug, Drop)]
pub struct Trace {
    pub config: Option<Config>,
    pub events: Vec<Event>,
}

// Writes the line of a refusal. Its status stays, unless the sink wants memory.
fn refuse<K: Sink>(sink: &mut K, line: &[u8], status: u8) -> u8
    requires { status ≢ 6 }
    ensures { Refuses status line.now (K.holds sink.old) (K.holds sink.new) (K.faults sink.old) (K.faults sink.new) result }
{
    match put_all(sink, line) {
        Ok(()) | Err(Failed::Fault) => status,
        Err(Failed::OutOfMemory) => 6,
    }
}

// The line that tells which line of a script breaks which rule.
fn script_line(alloc: Global, line: u32, rule: u8) -> Result<Vec<u8>, OutOfMemory>
    ensures { IfOk result (λ text. text.items ≡ script_line_of line rule) }
{
    let mut text = Vec::new(alloc);
    writeln!(text, "falcon: script line {line} rule {rule}").map_err(|_| OutOfMemory)?;
    Ok(text)
}

// Writes the line of a script's fault. Its status stays, unless memory is wanted for the line or by the sink.
fn refuse_script<K: Sink>(alloc: Global, sink: &mut K, line: u32, rule: u8) -> u8
    ensures { Refuses 3 (script_line_of line rule) (K.holds sink.old) (K.holds sink.new) (K.faults sink.old) (K.faults sink.new) result }
{
    match script_line(alloc, line, rule) {
        Ok(text) => refuse(sink, &text, 3),
        Err(OutOfMemory) => 6,
    }
}

// Writes the text of a run, and says how that went.
fn write<K: Sink>(sink: &mut K, text: &[u8]) -> u8
    ensures answered { (result ≡ 0) ⊎ (result ≡ 5) ⊎ (result ≡ 6) }
    ensures whole { result ≡ 0 → Appends (K.holds sink.old) (K.holds sink.new) text.now }
    ensures failed { result ≡ 5 → Rose (K.faults sink.old) (K.faults sink.new) }
    ensures front { AppendsFront (K.holds sink.old) (K.holds sink.new) text.now }
{
    match put_all(sink, text) {
        Ok(()) => 0,
        Err(Failed::Fault) => 5,
        Err(Failed::OutOfMemory) => 6,
    }
}

// Does a call of each of these lanes in their order, and gives the text of their run.
fn run_cluster(alloc: Global, cluster: &mut Cluster, lanes: &[u8]) -> Result<Vec<u8>, OutOfMemory>
    requires calls { HasCallsFor cluster.old.config lanes.now }
    requires none { cluster.old.events ≡ [] }
    ensures config { cluster.new.config ≡ cluster.old.config }
    ensures legal { IsLegal cluster.new.config cluster.new.events }
    ensures recorded { OnOk result (IsRecorded cluster.new.config lanes.now cluster.new.events) }
    ensures text { IfOk result (λ text. text.items ≡ run_text_of cluster.new.config cluster.new.events) }
{
    let served = serve(cluster, lanes);
    cluster.book().legal();
    served?;
    run_text(alloc, cluster)
}

// Runs the script's cluster, keeps the run in the trace, and writes its text.
fn run_script<K: Sink>(alloc: Global, script: Script, sink: &mut K, trace: &mut Trace) -> u8
    requires cluster { IsCluster (cluster_of script) }
    requires range { IsSpelledScript script }
    requires config { trace.old.config ≡ None }
    requires events { trace.old.events.items ≡ [] }
    ensures { Writes script (K.holds sink.old) (K.holds sink.new) (K.faults sink.old) (K.faults sink.new) trace.new.config trace.new.events.items result }
{
    let Ok(parts) = into_config(alloc, script, 1) else {
        return 6;
    };
    let (config, lanes) = parts;
    let Ok(mut cluster) = Cluster::new(alloc, config) else {
        return 6;
    };
    let text = run_cluster(alloc, &mut cluster, &lanes);
    let Run { config, events } = cluster.into_book().into_run();
    trace.config = Some(config);
    trace.events = events.into_items();
    match text {
        Ok(text) => write(sink, &text),
        Err(OutOfMemory) => 6,
    }
}

/// Reads a script from the source, does its calls one after another on the cluster that it asks for, and writes their transcript and the tree
/// that they leave.
///
/// `trace` is empty at entry. The answer is the status of the program:
///
/// - 0: the whole text was written, and `trace` has the script's cluster and its run. The run is legal and complete, in the serial order: each
///   call alone, in line order. Every call is answered once. A reply with names is a listing, which holds what stood throughout and nothing that
///   never stood; one to a change of placement is by what was placed; every other reply is the plain tree's at one point of the commits between
///   the call's sending and its answering.
/// - 2, `falcon: usage`: the words are not in the grammar, or ask for what is not served yet. Nothing was read.
/// - 3, `falcon: script line L rule R`: the bytes, within the limit, are not in the grammar. L is the first line that breaks a rule, counted from
///   1, and R the lowest rule that it breaks.
/// - 4, `falcon: read fault`: the source's count of faults rose, and at most 16,777,216 bytes had come.
/// - 5: the sink's count of faults rose while the text was written, of which it has a front. `trace` is as with 0.
/// - 6: want of memory. The sink has a front of the text or of a line. `trace` is empty, or has a legal run of the script's cluster.
/// - 7, `falcon: too large`: more than 16,777,216 bytes came, or a script of more than 10,000 calls, or one whose lists times its bytes are more
///   than 134,217,728.
///
/// No other status is answered. With 2, 3, 4 and 7 `trace` stays empty, and the line is written whole where the sink's count of faults did not rise.
pub fn run_serial<S: Source, K: Sink>(
    alloc: Global,
    words: &[String],
    source: &mut S,
    sink: &mut K,
    trace: &mut Trace,
) -> u8
    requires config { trace.old.config ≡ None }
    requires events { trace.old.events.items ≡ [] }

    ensures statuses { IsStatus result }

    // What each status says of the words and of the bytes that were read.
    ensures done { result ≡ 0 → IsDone (S.left source.old) (S.left source.new) (K.holds sink.old) (K.holds sink.new) trace.new.config trace.new.events.items }
    ensures usage { result ≡ 2 → (words_ask words.now ≡ None) × (source.new ≡ source.old) }
    ensures script { result ≡ 3 → ToldFault (S.left source.old) (S.left source.new) (K.holds sink.old) (K.holds sink.new) (K.faults sink.old) (K.faults sink.new) }
    ensures fault { result ≡ 4 → Rose (S.faults source.old) (S.faults source.new) × Took (S.left source.old) (S.left source.new) (λ n. n ≤ 16777216) }
    ensures cut_off { result ≡ 5 → Rose (K.faults sink.old) (K.faults sink.new) × IsCutOff (S.left source.old) (S.left source.new) (K.holds sink.old) (K.holds sink.new) trace.new.config trace.new.events.items }
    ensures memory { result ≡ 6 → WantsMemory (S.left source.old) (S.left source.new) (K.holds sink.old) (K.holds sink.new) trace.new.config trace.new.events.items }
    ensures large { result ≡ 7 → GaveTooMuch (S.left source.old) (S.left source.new) }

    // The line that is written with a refusal's status; what is written with status 3 stands above.
    ensures usage_written { result ≡ 2 → Wrote usage_line (K.holds sink.old) (K.holds sink.new) (K.faults sink.old) (K.faults sink.new) }
    ensures fault_written { result ≡ 4 → Wrote fault_line (K.holds sink.old) (K.holds sink.new) (K.faults sink.old) (K.faults sink.new) }
    ensures large_written { result ≡ 7 → Wrote large_line (K.holds sink.old) (K.holds sink.new) (K.faults sink.old) (K.faults sink.new) }

    // The trace has a run only with 0, 5 and 6.
    ensures untraced { (result ≡ 2) ⊎ (result ≡ 3) ⊎ (result ≡ 4) ⊎ (result ≡ 7) → (trace.new.config ≡ None) × (trace.new.events.items ≡ []) }

    // Each status comes where it has to, but for want of memory: other words give 2, and bytes that are told give what they are owed.
    ensures other_words { words_ask words.now ≡ None → (result ≡ 2) ⊎ (result ≡ 6) }
    ensures owed { (asked : Asked) → words_ask words.now ≡ Some asked → (bytes : List ℕ) → S.left source.old ≡ Some bytes → (Rose (S.faults source.old) (S.faults source.new) → ⊥)
        → IsOwed (owed bytes) (K.faults sink.old) (K.faults sink.new) result }
{
    match read_words(alloc, words) {
        Ok(_) => {}
        Err(WordsFault::Usage) => return refuse(sink, b"falcon: usage\n", 2),
        Err(WordsFault::OutOfMemory) => return 6,
    }
    scripts_are_in_range();
    calls_in_range_may_run();
    match read_script(alloc, source) {
        Ok(script) => run_script(alloc, script, sink, trace),
        Err(Unread::ReadFault) => refuse(sink, b"falcon: read fault\n", 4),
        Err(Unread::TooLarge) => refuse(sink, b"falcon: too large\n", 7),
        Err(Unread::NoScript { line, rule }) => refuse_script(alloc, sink, line, rule),
        Err(Unread::OutOfMemory) => 6,
    }
}

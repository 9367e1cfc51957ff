ghost use Rattle.std.specs.Prelude.{◌≡◌, ◌++◌, OnOk, IfOk};
ghost use Rattle.fal_report.specs.Transcripts.{header_text, summary_text, transcript_text};

use crate::bytes::put;
use crate::counts::{put_count, put_entry_counts, put_row_counts};
use crate::entries::put_entries;
use crate::rows::put_tree;
use fal_base::{Config, Entry, OutOfMemory, TreeLine};
use std::alloc::Global;

#[tactic(auto, unfolding(crate::specs::Transcripts::header_text))]
fn put_header(out: &mut Vec<u8>, config: &Config) -> Result<(), OutOfMemory>
    ensures { OnOk result (out.new.items ≡ out.old.items ++ header_text config.now) }
{
    put(out, b"falcon-transcript 1\n")?;
    put_count(out, b"nodes", u64::from(config.nodes))?;
    put_count(out, b"lanes", config.lanes.len() as u64)?;
    Ok(())
}

#[tactic(auto, unfolding(crate::specs::Transcripts::summary_text))]
fn put_summary(out: &mut Vec<u8>, entries: &[Entry], lines: &[TreeLine]) -> Result<(), OutOfMemory>
    ensures { OnOk result (out.new.items ≡ out.old.items ++ summary_text entries.now lines.now) }
{
    put_entry_counts(out, entries)?;
    put_row_counts(out, lines)?;
    Ok(())
}

/// The whole text of a run: `falcon-transcript 1`, the node and lane counts, a line for each entry, the tree, and the summary. A Sent entry
/// whose call the config does not have is written without a call.
///
/// Refused for want of memory alone.
#[tactic(auto, unfolding(crate::specs::Transcripts::transcript_text))]
pub fn text_of(
    alloc: Global,
    config: &Config,
    entries: &[Entry],
    lines: &[TreeLine],
) -> Result<Vec<u8>, OutOfMemory>
    ensures { IfOk result (λ text. text.items ≡ transcript_text config.now entries.now lines.now) }
{
    let mut out = Vec::new(alloc);
    put_header(&mut out, config)?;
    put_entries(&mut out, config, entries)?;
    put_tree(&mut out, lines)?;
    put_summary(&mut out, entries, lines)?;
    Ok(out)
}

/// The summary of a run: `calls`, `ok`, `failed`, `commits`, `directories` and `files`, each with its number on a line of its own. `calls`
/// counts the answers, `failed` those with an errno and `ok` the others; the last two count the rows by kind.
///
/// Refused for want of memory alone.
pub fn summary_of(
    alloc: Global,
    _config: &Config,
    entries: &[Entry],
    lines: &[TreeLine],
) -> Result<Vec<u8>, OutOfMemory>
    ensures { IfOk result (λ text. text.items ≡ summary_text entries.now lines.now) }
{
    let mut out = Vec::new(alloc);
    put_summary(&mut out, entries, lines)?;
    Ok(out)
}

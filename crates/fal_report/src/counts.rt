ghost use Rattle.std.specs.Prelude.{◌≡◌, ◌++◌, count_by, OnOk};
ghost use Rattle.fal_base.specs.Transcript.{is_commit};
ghost use Rattle.fal_report.specs.Counts.{is_errno, is_answer, is_granted, is_failed, is_directory_row, is_file_row, count_text, entry_counts, row_counts};

use crate::bytes::put;
use fal_base::{Entry, Kind, OutOfMemory, Reply, TreeLine};
use std::io::Write;

fn has_answer(entry: &Entry) -> bool
    ensures { result ≡ is_answer entry.now }
{
    matches!(entry, Entry::Answered { .. })
}

fn has_errno(reply: &Reply) -> bool
    ensures { result ≡ is_errno reply.now }
{
    matches!(reply, Reply::Fail(_))
}

fn has_failed(entry: &Entry) -> bool
    ensures { result ≡ is_failed entry.now }
{
    match entry {
        Entry::Answered { reply, .. } => has_errno(reply),
        _ => false,
    }
}

fn has_succeeded(entry: &Entry) -> bool
    ensures { result ≡ is_granted entry.now }
{
    match entry {
        Entry::Answered { reply, .. } => !has_errno(reply),
        _ => false,
    }
}

fn has_commit(entry: &Entry) -> bool
    ensures { result ≡ is_commit entry.now }
{
    matches!(entry, Entry::Commit { .. })
}

fn answers(entries: &[Entry]) -> usize
    ensures { result ≡ count_by is_answer entries.now }
{
    entries.iter().filter(|entry| has_answer(entry)).count()
}

fn successes(entries: &[Entry]) -> usize
    ensures { result ≡ count_by is_granted entries.now }
{
    entries.iter().filter(|entry| has_succeeded(entry)).count()
}

fn failures(entries: &[Entry]) -> usize
    ensures { result ≡ count_by is_failed entries.now }
{
    entries.iter().filter(|entry| has_failed(entry)).count()
}

fn commits(entries: &[Entry]) -> usize
    ensures { result ≡ count_by is_commit entries.now }
{
    entries.iter().filter(|entry| has_commit(entry)).count()
}

fn directories(rows: &[TreeLine]) -> usize
    ensures { result ≡ count_by is_directory_row rows.now }
{
    rows.iter()
        .filter(|row| row.inode.kind == Kind::Dir)
        .count()
}

fn files(rows: &[TreeLine]) -> usize
    ensures { result ≡ count_by is_file_row rows.now }
{
    rows.iter()
        .filter(|row| row.inode.kind == Kind::File)
        .count()
}

/// Appends a line with a label and a number. Refused for want of memory alone; the buffer may then have a part of the line.
#[tactic(auto, unfolding(crate::specs::Counts::count_text))]
pub fn put_count(out: &mut Vec<u8>, label: &[u8], n: u64) -> Result<(), OutOfMemory>
    ensures { OnOk result (out.new.items ≡ out.old.items ++ count_text label.now n) }
{
    put(out, label)?;
    writeln!(out, " {n}").map_err(|_| OutOfMemory)
}

pub(crate) fn put_entry_counts(out: &mut Vec<u8>, entries: &[Entry]) -> Result<(), OutOfMemory>
    ensures { OnOk result (out.new.items ≡ out.old.items ++ entry_counts entries.now) }
{
    put_count(out, b"calls", answers(entries) as u64)?;
    put_count(out, b"ok", successes(entries) as u64)?;
    put_count(out, b"failed", failures(entries) as u64)?;
    put_count(out, b"commits", commits(entries) as u64)?;
    Ok(())
}

pub(crate) fn put_row_counts(out: &mut Vec<u8>, rows: &[TreeLine]) -> Result<(), OutOfMemory>
    ensures { OnOk result (out.new.items ≡ out.old.items ++ row_counts rows.now) }
{
    put_count(out, b"directories", directories(rows) as u64)?;
    put_count(out, b"files", files(rows) as u64)?;
    Ok(())
}

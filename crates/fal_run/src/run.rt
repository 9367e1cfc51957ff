//! The calls of a batch, in their order.

ghost use Rattle.std.specs.Prelude.{◌≡◌, ◌+◌, ◌<◌, ◌≤◌, ◌^◌, IfOk, OnOk, IsTrue, [], ◌∷◌, ◌++◌};
ghost use Rattle.fal_run.specs.Calls.{is_row_op, are_row_calls, number_after, call_outcome, drawn_by, change_of as change_of_outcome, draws as draws_of, noted_number as noted_number_of, is_making as is_making_op};
ghost use Rattle.fal_run.specs.Letters.{commits_in};
ghost use Rattle.fal_run.specs.Rows.{rows_changed};
ghost use Rattle.fal_run.specs.Work.{begun_on, run_one, run_all, made_by, IsRunWithin};

use crate::call::BatchCall;
use crate::change::RowChange;
use crate::letter::answer_letter;
use crate::outcome::{next_number, outcome};
use fal_base::{Duplicate, Inode, Note, Op, OutOfMemory};
use fal_exec::{Change, ExecOut};
use fal_inode::Rows;
use fal_wire::Letter;
use std::alloc::Global;

/// What calls made: the changes of rows, the records and notes, how many commits are among those, and how many inode numbers were drawn.
#[derive(Debug, Drop)]
pub struct Run {
    pub changes: Vec<RowChange>,
    pub letters: Vec<Letter>,
    pub notes: Vec<Note>,
    pub commits: u32,
    pub drawn: u64,
}

// What becomes of the row.
fn change_of(outcome: &ExecOut) -> Change
    ensures { result ≡ change_of_outcome outcome.now }
{
    match outcome {
        ExecOut::Finish { change, .. } => *change,
        _ => Change::Keep,
    }
}

// Whether the new row of the operation has a number of its own.
fn is_making(op: &Op) -> bool
    ensures { result ≡ is_making_op op.now }
{
    matches!(op, Op::Mkdir { .. } | Op::Create { .. })
}

// A row is put, by a commit.
fn put_row(run: &mut Run, planned: &BatchCall, fresh: u64, inode: Inode) -> Result<(), OutOfMemory>
    requires commits { run.old.commits + 1 < 2 ^ 32 }
    requires drawn { run.old.drawn + draws_of planned.now.call.op < 2 ^ 64 }
    ensures changes { OnOk result (run.new.changes.items ≡ run.old.changes.items ++ record { key = planned.now.last; change = Change.Put inode } ∷ []) }
    ensures letters { OnOk result (run.new.letters.items ≡ run.old.letters.items) }
    ensures notes { OnOk result (run.new.notes.items ≡ run.old.notes.items ++ Note.Commit planned.now.call.id.client planned.now.call.id.seq (noted_number_of planned.now.call.op fresh) ∷ []) }
    ensures commits { OnOk result (run.new.commits ≡ run.old.commits + 1) }
    ensures drawn { OnOk result (run.new.drawn ≡ run.old.drawn + draws_of planned.now.call.op) }
{
    let making = is_making(&planned.call.op);
    run.changes.push(RowChange {
        key: planned.last.copy()?,
        change: Change::Put(inode),
    })?;
    run.notes.push(Note::Commit {
        lane: planned.call.id.client,
        seq: planned.call.id.seq,
        ino: if making { fresh } else { 0 },
    })?;
    run.commits += 1;
    run.drawn += if making { 1 } else { 0 };
    Ok(())
}

// The row goes, by a commit.
fn remove_row(run: &mut Run, planned: &BatchCall) -> Result<(), OutOfMemory>
    requires { run.old.commits + 1 < 2 ^ 32 }
    ensures changes { OnOk result (run.new.changes.items ≡ run.old.changes.items ++ record { key = planned.now.last; change = Change.Remove } ∷ []) }
    ensures letters { OnOk result (run.new.letters.items ≡ run.old.letters.items) }
    ensures notes { OnOk result (run.new.notes.items ≡ run.old.notes.items ++ Note.Commit planned.now.call.id.client planned.now.call.id.seq 0 ∷ []) }
    ensures commits { OnOk result (run.new.commits ≡ run.old.commits + 1) }
    ensures drawn { OnOk result (run.new.drawn ≡ run.old.drawn) }
{
    run.changes.push(RowChange {
        key: planned.last.copy()?,
        change: Change::Remove,
    })?;
    run.notes.push(Note::Commit {
        lane: planned.call.id.client,
        seq: planned.call.id.seq,
        ino: 0,
    })?;
    run.commits += 1;
    Ok(())
}

// Runs one call of the batch.
fn run_call(
    rows: &Rows,
    node: u8,
    before: u64,
    run: &mut Run,
    planned: &BatchCall,
) -> Result<(), OutOfMemory>
    requires row_call { IsTrue (is_row_op planned.now.call.op) }
    requires number { 0 < drawn_by planned.now.call.op (change_of_outcome (call_outcome node (rows_changed rows.now.rows run.old.changes.items) (before + run.old.drawn) planned.now))
        → number_after node (before + run.old.drawn) < 2 ^ 64 }
    requires hop { call_outcome node (rows_changed rows.now.rows run.old.changes.items) (before + run.old.drawn) planned.now ≡ ExecOut.PassOn → planned.now.call.id.hop + 1 < 2 ^ 32 }
    requires commits { run.old.commits ≡ commits_in run.old.notes.items }
    requires few { run.old.commits + 1 < 2 ^ 32 }
    requires fits { before + run.old.drawn < 2 ^ 64 }
    ensures work { OnOk result (made_by rows.now.rows before run.new ≡ run_one node (made_by rows.now.rows before run.old) planned.now) }
    ensures commits { OnOk result (run.new.commits ≡ commits_in run.new.notes.items) }
    ensures few { OnOk result (run.new.commits ≤ run.old.commits + 1) }
    ensures fits { OnOk result (before + run.new.drawn < 2 ^ 64) }
{
    let outcome = outcome(rows, node, before, &run.changes, run.drawn, planned);
    let fresh = next_number(node, before, run.drawn);
    let letter = answer_letter(&planned.call, run.commits, &outcome)?;
    run.letters.push(letter)?;
    match change_of(&outcome) {
        Change::Keep => Ok(()),
        Change::Put(inode) => {
            put_row(run, planned, fresh, inode)?;
            Ok(())
        }
        Change::Remove => {
            remove_row(run, planned)?;
            Ok(())
        }
    }
}

// No call was run yet, at a node that has drawn so many numbers.
fn new_run(alloc: Global, before: u64) -> Run
    ensures changes { result.changes.items ≡ [] }
    ensures letters { result.letters.items ≡ [] }
    ensures notes { result.notes.items ≡ [] }
    ensures commits { result.commits ≡ 0 }
    ensures drawn { result.drawn ≡ 0 }
    ensures fits { before + result.drawn < 2 ^ 64 }
{
    let _ = before;
    Run {
        changes: Vec::new(alloc),
        letters: Vec::new(alloc),
        notes: Vec::new(alloc),
        commits: 0,
        drawn: 0,
    }
}

/// Runs the calls in their order, at the node with this number, which has these rows and had drawn so many inode numbers before. Changes no
/// row itself. One row decides each call, and what the calls make has to be within the ranges of records and numbers. Answers want of memory
/// where there is too little.
pub fn run_calls(
    alloc: Global,
    rows: &Rows,
    node: u8,
    before: u64,
    calls: &[BatchCall],
) -> Result<Run, OutOfMemory>
    requires row_calls { IsTrue (are_row_calls calls.now) }
    requires within { IsRunWithin node (run_all node (begun_on rows.now.rows before) calls.now) }
    ensures work { IfOk result (λ run. made_by rows.now.rows before run ≡ run_all node (begun_on rows.now.rows before) calls.now) }
    ensures fits { IfOk result (λ run. before + run.drawn < 2 ^ 64) }
{
    let mut run = new_run(alloc, before);
    let mut rest = calls;
    while let Some((planned, others)) = rest.split_first() {
        run_call(rows, node, before, &mut run, planned)?;
        rest = others;
    }
    Ok(run)
}

//! What comes of one call, by the rows as the calls before it left them.

ghost use Rattle.std.specs.Prelude.{◌≡◌, ◌+◌, ◌<◌, ◌^◌, IsTrue};
ghost use Rattle.fal_base.specs.Tree.{row_at};
ghost use Rattle.fal_run.specs.Calls.{is_row_op, number_after, call_outcome, drawn_by, change_of};
ghost use Rattle.fal_run.specs.Rows.{rows_changed, found_after};

use crate::call::BatchCall;
use crate::change::RowChange;
use fal_base::{Errno, Inode, Key, Reply};
use fal_exec::{Change, ExecOut, exec};
use fal_inode::Rows;

// What is found under the key after the change.
fn after_change(found: Option<Inode>, key: &Key, change: &RowChange) -> Option<Inode>
    ensures { result ≡ found_after key.now found change.now }
{
    if !key.is_same(&change.key) {
        return found;
    }
    match change.change {
        Change::Keep => found,
        Change::Put(inode) => Some(inode),
        Change::Remove => None,
    }
}

// The row under the key after these changes.
fn row_now(rows: &Rows, changes: &[RowChange], key: &Key) -> Option<Inode>
    ensures { result ≡ row_at (rows_changed rows.now.rows changes.now) key.now }
{
    let mut found = rows.get(key).copied();
    for change in changes {
        found = after_change(found, key, change);
    }
    found
}

// How many inode numbers of a node fit.
const MOST_NUMBERS: u64 = 72_057_594_037_927_935;

// The next inode number of a node, where it fits: it had drawn so many before, and so many more since.
pub(crate) fn next_number(node: u8, before: u64, drawn: u64) -> u64
    ensures { number_after node (before + drawn) < 2 ^ 64 → result ≡ number_after node (before + drawn) }
{
    let all = before.saturating_add(drawn);
    if all < MOST_NUMBERS {
        (256 * (all + 1)).saturating_add(u64::from(node))
    } else {
        0
    }
}

// What comes of the call, by the rows after these changes. Only a new row asks for the next inode number.
pub(crate) fn outcome(
    rows: &Rows,
    node: u8,
    before: u64,
    changes: &[RowChange],
    drawn: u64,
    planned: &BatchCall,
) -> ExecOut
    requires row_call { IsTrue (is_row_op planned.now.call.op) }
    requires number { 0 < drawn_by planned.now.call.op (change_of (call_outcome node (rows_changed rows.now.rows changes.now) (before + drawn) planned.now))
        → number_after node (before + drawn) < 2 ^ 64 }
    ensures { result ≡ call_outcome node (rows_changed rows.now.rows changes.now) (before + drawn) planned.now }
{
    if planned.denied {
        return ExecOut::Finish {
            reply: Reply::Fail(Errno::Eacces),
            change: Change::Keep,
        };
    }
    let fresh = next_number(node, before, drawn);
    let row = row_now(rows, changes, &planned.last);
    exec(
        row.as_ref(),
        planned.parent.as_ref(),
        &planned.call.cred,
        &planned.call.op,
        fresh,
    )
}

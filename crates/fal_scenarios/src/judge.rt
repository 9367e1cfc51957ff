//! The plain tree judges a run.

use crate::broken::Broken;
use crate::listed::wrong_listings;
use crate::placed::wrong_places;
use fal_alone::Cluster;
use fal_base::{Call, Config, Entry, Op, Reply};
use fal_tree::PlainTree;
use std::alloc::Global;

pub fn call_of(config: &Config, lane: u8, seq: u32) -> Option<&Call> {
    let calls = config.lanes.get(usize::from(lane).checked_sub(1)?)?;
    calls.get((seq as usize).checked_sub(1)?)
}

/// The plain tree after so many commits of the run.
pub fn tree_at(
    alloc: Global,
    config: &Config,
    entries: &[Entry],
    commits: u64,
) -> Result<PlainTree, Broken> {
    let mut tree = PlainTree::new(alloc)?;
    let mut made = 0u64;
    for entry in entries {
        if let Entry::Commit { lane, seq, ino } = entry
            && made < commits
            && let Some(call) = call_of(config, *lane, *seq)
        {
            tree.apply(&call.cred, &call.op, *ino)?;
            made += 1;
        }
    }
    Ok(tree)
}

// Whether the plain tree answers the call with this reply. It judges no change of placement, and no names.
fn is_answer(tree: &PlainTree, call: &Call, reply: &Reply) -> Result<bool, Broken> {
    if let Op::Place { .. } = &call.op {
        return Ok(true);
    }
    if let Reply::Names(_) = reply {
        return Ok(true);
    }
    Ok(tree.answer(&call.cred, &call.op)? == *reply)
}

// How many answers are not those of the plain tree at their points.
fn wrong(alloc: Global, config: &Config, entries: &[Entry]) -> Result<u32, Broken> {
    let mut count = 0u32;
    for entry in entries {
        if let Entry::Answered {
            lane,
            seq,
            point,
            reply,
        } = entry
            && let Some(call) = call_of(config, *lane, *seq)
            && !is_answer(&tree_at(alloc, config, entries, *point)?, call, reply)?
        {
            count = count.saturating_add(1);
        }
    }
    Ok(count)
}

/// Each answer is that of the plain tree at its point, or of the names that are placed, or a listing by the trees between its points, and the rows
/// are those that the commits leave.
pub fn judge(alloc: Global, cluster: &Cluster) -> Result<(), Broken> {
    let book = cluster.book();
    let entries = book.transcript()?;
    let count = wrong(alloc, book.config(), &entries)?;
    let count = count.saturating_add(wrong_places(alloc, book.config(), &entries)?);
    let count = count.saturating_add(wrong_listings(alloc, book.config(), &entries)?);
    if count > 0 {
        return Err(Broken::Answers(count));
    }
    let tree = tree_at(alloc, book.config(), &entries, book.commits())?;
    if tree.lines()?.as_slice() != cluster.lines()?.as_slice() {
        return Err(Broken::Rows);
    }
    Ok(())
}

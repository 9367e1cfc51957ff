//! What a listing is answered, by the trees from where its directory was opened on to its answer.

use crate::broken::Broken;
use crate::judge::{call_of, tree_at};
use fal_base::{Call, Config, Duplicate, Entry, Name, Op, Reply, TreeLine};
use fal_tree::PlainTree;
use std::alloc::Global;

// Where a directory was opened, and its number.
#[derive(Clone, Copy)]
struct Opening {
    dir: u64,
    point: u64,
}

// How many commits stand before the call was sent.
fn sent_at(entries: &[Entry], lane: u8, seq: u32) -> Option<u64> {
    let mut commits = 0u64;
    for entry in entries {
        match entry {
            Entry::Commit { .. } => commits = commits.saturating_add(1),
            Entry::Sent { lane: by, seq: of } if *by == lane && *of == seq => {
                return Some(commits);
            }
            _ => {}
        }
    }
    None
}

fn commits_in(entries: &[Entry]) -> u64 {
    let mut commits = 0u64;
    for entry in entries {
        if let Entry::Commit { .. } = entry {
            commits = commits.saturating_add(1);
        }
    }
    commits
}

// What the call has opened.
fn opening_of(entries: &[Entry], lane: u8, seq: u32) -> Option<Opening> {
    for entry in entries {
        if let Entry::Opened {
            lane: by,
            seq: of,
            ino,
            point,
        } = entry
            && *by == lane
            && *of == seq
        {
            return Some(Opening {
                dir: *ino,
                point: *point,
            });
        }
    }
    None
}

fn stands(rows: &[TreeLine], dir: u64, name: &Name) -> bool {
    rows.iter()
        .any(|row| row.key.parent == dir && row.key.name == *name)
}

fn is_listed(names: &[Name], name: &Name) -> bool {
    names.iter().any(|other| *other == *name)
}

// Whether the names rise by their bytes.
fn rise(names: &[Name]) -> bool {
    let mut before: Option<&Name> = None;
    for name in names {
        if let Some(last) = before
            && *last >= *name
        {
            return false;
        }
        before = Some(name);
    }
    true
}

// Whether the call may list its path in the tree, and finds this directory there.
fn opens(tree: &PlainTree, call: &Call, dir: u64) -> Result<bool, Broken> {
    let Op::List { path } = &call.op else {
        return Ok(false);
    };
    let op = Op::Stat { path: path.copy()? };
    let is_it = match tree.answer(&call.cred, &op)? {
        Reply::Stat(inode) => inode.ino == dir,
        _ => false,
    };
    let may = match tree.answer(&call.cred, &call.op)? {
        Reply::Names(_) => true,
        _ => false,
    };
    Ok(is_it && may)
}

// The rows of the trees after so many commits up to so many.
fn trees_between(
    alloc: Global,
    config: &Config,
    entries: &[Entry],
    from: u64,
    to: u64,
) -> Result<Vec<Vec<TreeLine>>, Broken> {
    let mut trees = Vec::new(alloc);
    for point in from..to.saturating_add(1) {
        trees.push(tree_at(alloc, config, entries, point)?.lines()?)?;
    }
    Ok(trees)
}

fn stands_in_all(trees: &[Vec<TreeLine>], dir: u64, name: &Name) -> bool {
    trees.iter().all(|rows| stands(rows.as_slice(), dir, name))
}

fn stands_in_one(trees: &[Vec<TreeLine>], dir: u64, name: &Name) -> bool {
    trees.iter().any(|rows| stands(rows.as_slice(), dir, name))
}

// Whether each name that is listed stood in one of these trees.
fn stood_sometime(trees: &[Vec<TreeLine>], dir: u64, names: &[Name]) -> bool {
    names.iter().all(|name| stands_in_one(trees, dir, name))
}

// Whether of these rows each of the directory that stood in all of these trees is listed.
fn are_listed(rows: &[TreeLine], trees: &[Vec<TreeLine>], dir: u64, names: &[Name]) -> bool {
    for row in rows {
        if row.key.parent == dir
            && !is_listed(names, &row.key.name)
            && stands_in_all(trees, dir, &row.key.name)
        {
            return false;
        }
    }
    true
}

// Whether what stood in each of these trees is listed, and each name that is listed stood in one of them.
fn holds(trees: &[Vec<TreeLine>], dir: u64, names: &[Name]) -> bool {
    match trees.first() {
        None => false,
        Some(rows) => {
            stood_sometime(trees, dir, names) && are_listed(rows.as_slice(), trees, dir, names)
        }
    }
}

// Whether the entries up to an answer with these names, at this point, make it a listing of the call.
fn is_listing(
    alloc: Global,
    config: &Config,
    entries: &[Entry],
    at: usize,
) -> Result<bool, Broken> {
    let Some(
        Entry::Answered {
            lane,
            seq,
            point,
            reply: Reply::Names(names),
        },
    ) = entries.get(at)
    else {
        return Ok(true);
    };
    let before = entries.get(..at).unwrap_or(entries);
    let Some(call) = call_of(config, *lane, *seq) else {
        return Ok(false);
    };
    let Some(sent) = sent_at(before, *lane, *seq) else {
        return Ok(false);
    };
    let Some(opening) = opening_of(before, *lane, *seq) else {
        return Ok(false);
    };
    if sent > opening.point || opening.point > *point || *point > commits_in(before) {
        return Ok(false);
    }
    let tree = tree_at(alloc, config, entries, opening.point)?;
    let trees = trees_between(alloc, config, entries, opening.point, *point)?;
    Ok(
        opens(&tree, call, opening.dir)?
            && rise(names.as_slice())
            && holds(trees.as_slice(), opening.dir, names.as_slice()),
    )
}

/// How many answers with names are no listings of their calls.
pub fn wrong_listings(alloc: Global, config: &Config, entries: &[Entry]) -> Result<u32, Broken> {
    let mut count = 0u32;
    for at in 0..entries.len() {
        if !is_listing(alloc, config, entries, at)? {
            count = count.saturating_add(1);
        }
    }
    Ok(count)
}

// The rows of all nodes.
ghost use Rattle.std.specs.Prelude.{◌≡◌, [], IfOk, IfNone, IfSome, OnOk, length, map};
ghost use Rattle.fal_base.specs.Tree.{lines_of};
ghost use Rattle.fal_story.specs.AllRows.{with_tree, all_rows, tree_left};
ghost use Rattle.fal_story.specs.Fresh.{IsQuietAt, came};
ghost use Rattle.fal_alone.specs.Merged.{is_second_next as is_second_next_of, TakesNext};
ghost use Rattle.fal_alone.specs.NodeRows.{rows_at};
ghost use Rattle.fal_alone.specs.Turns.{world_of};

use crate::cluster::Cluster;
use fal_base::{OutOfMemory, TreeLine};
use fal_inode::Rows;
use fal_node::Node;
use std::alloc::Global;
use std::collections::VecDeque;

// Whether the line that comes next is one of the second list. Of two under one key that of the first list comes first.
fn is_second_next(first: &VecDeque<TreeLine>, second: &VecDeque<TreeLine>) -> bool
    ensures { result ≡ is_second_next_of first.now.items second.now.items }
{
    let Some(other) = second.front() else {
        return false;
    };
    match first.front() {
        None => true,
        Some(line) => other.key.compare(&line.key).is_lt(),
    }
}

// Takes the line that comes next of two lists in the order of their keys.
fn take_next(first: &mut VecDeque<TreeLine>, second: &mut VecDeque<TreeLine>) -> Option<TreeLine>
    ensures none { IfNone result ((first.old.items ≡ []) × (second.old.items ≡ [])) }
    ensures some { IfSome result (λ line. TakesNext first.old.items second.old.items line first.new.items second.new.items) }
{
    if is_second_next(first, second) {
        second.pop_front()
    } else {
        first.pop_front()
    }
}

// The rows of both, in which those of the second stand in place of those of the first under the same keys.
fn merged(alloc: Global, all: &Rows, rows: &Rows) -> Result<Rows, OutOfMemory>
    ensures { IfOk result (λ merged. merged.rows ≡ with_tree all.now.rows rows.now.rows) }
{
    let mut first = VecDeque::from_vec(all.all()?);
    let mut second = VecDeque::from_vec(rows.all()?);
    let mut merged = Rows::new(alloc);
    let Some(count) = first.len().checked_add(second.len()) else {
        return Err(OutOfMemory);
    };
    merged.reserve(count)?;
    while let Some(TreeLine { key, inode }) = take_next(&mut first, &mut second) {
        merged.put(key, inode);
    }
    Ok(merged)
}

// Puts the rows of a node under their keys.
fn put_rows(alloc: Global, all: &mut Rows, rows: &Rows) -> Result<(), OutOfMemory>
    ensures { OnOk result (all.new.rows ≡ with_tree all.old.rows rows.now.rows) }
{
    *all = merged(alloc, all, rows)?;
    Ok(())
}

// The rows of all these nodes.
fn rows_of(alloc: Global, nodes: &[Node]) -> Result<Rows, OutOfMemory>
    ensures { IfOk result (λ rows. rows.rows ≡ all_rows (map (λ n. n.state.rows) nodes.now)) }
{
    let mut all = Rows::new(alloc);
    for node in nodes {
        put_rows(alloc, &mut all, node.rows())?;
    }
    Ok(all)
}

impl Cluster {
    /// The rows of all nodes, by parent and then by name. In a quiet cluster they are those of the tree that the commits leave; where an
    /// operation of the coordinator is decided and not yet carried out everywhere, some are as before. Answers want of memory where there is
    /// too little.
    pub fn lines(&self) -> Result<Vec<TreeLine>, OutOfMemory>
        ensures rows { IfOk result (λ lines. lines.items ≡ lines_of (rows_at self.now.config (world_of self.now))) }
        ensures tree { IsQuietAt self.now.config (world_of self.now) (came self.now.events) → IfOk result (λ lines. lines.items ≡ lines_of (tree_left self.now.config self.now.events)) }
    {
        self.book.legal();
        let rows = rows_of(self.alloc, &self.nodes)?;
        rows.all()
    }
}

ghost use Rattle.std.specs.Prelude.{◌≡◌, ◌≤◌, IfOk};
ghost use Rattle.fal_node.specs.State.{opening_node, opening_rows};
ghost use Rattle.fal_node.specs.Due.{is_quiet};

use crate::batch::Batch;
use crate::blocking::Blocking;
use crate::item::Item;
use fal_base::{Inode, Key, Kind, OutOfMemory};
use fal_dentry::Replica;
use fal_inode::Rows;
use fal_locks::Locks;
use fal_place::Table;
use fal_wait::Waiting;
use std::alloc::Global;
use std::marker::Model;

/// A metadata node, with room for some more rows, calls, items and batches than it has.
#[derive(Debug, Drop)]
pub struct Node {
    pub(crate) alloc: Global,
    pub(crate) number: u8,
    pub(crate) limit: u8,
    pub(crate) table: Table,
    pub(crate) rows: Rows,
    pub(crate) replica: Replica,
    pub(crate) locks: Locks,
    pub(crate) blocked: Option<Blocking>,
    pub(crate) waiting: Waiting,
    pub(crate) items: Vec<Item>,
    pub(crate) batches: Vec<Batch>,
    pub(crate) last_operation: u32,
    pub(crate) items_numbered: u64,
    pub(crate) batches_numbered: u64,
    pub(crate) drawn: u64,
}

impl Model for Node {
    ghost use Rattle.std.specs.Prelude.{◌-◌, vec_len, vec_capacity};
    ghost use Rattle.fal_node.specs.Patch.{SeenNode};
    ghost use Rattle.fal_node.specs.Sound.{IsSoundNode};

    ghost Value = { SeenNode };

    ghost view = { λ a. record {
      state = record {
        number = a.number;
        limit = a.limit;
        table = a.table;
        rows = a.rows.rows;
        replica = a.replica.entries;
        locks = a.locks.table;
        blocked = a.blocked;
        waiting = a.waiting.list;
        items = a.items.items;
        batches = a.batches.items;
        last_operation = a.last_operation;
        items_numbered = a.items_numbered;
        batches_numbered = a.batches_numbered;
        drawn = a.drawn;
      };
      room = record {
        rows = a.rows.spare;
        replica = a.replica.spare;
        locks = a.locks.spare;
        waiting = a.waiting.spare;
        items = vec_capacity a.items - vec_len a.items;
        batches = vec_capacity a.batches - vec_len a.batches;
      };
    } };

    ghost invariant = { λ a. IsSoundNode a.waiting.list.calls a.items.items a.items_numbered a.batches.items a.locks.table a.batches_numbered };
}

// The rows that a node has at first.
fn first_rows(alloc: Global, number: u8) -> Result<Rows, OutOfMemory>
    ensures { IfOk result (λ rows. rows.rows ≡ opening_rows number) }
{
    let mut rows = Rows::new(alloc);
    if number == 0 {
        rows.reserve(1)?;
        let root = Inode {
            ino: 1,
            kind: Kind::Dir,
            mode: 0o755,
            uid: 0,
            gid: 0,
            size: 0,
        };
        rows.put(Key::root(alloc), root);
    }
    Ok(rows)
}

impl Node {
    /// Node `number` of so many nodes, whose batches have at most `batch` calls. Node 0 has the root's row, and no other row is there.
    /// Answers want of memory where there is too little.
    #[tactic(auto, unfolding(crate::specs::State::opening_node))]
    pub fn new(alloc: Global, number: u8, nodes: u8, batch: u8) -> Result<Node, OutOfMemory>
        requires number { number ≤ 15 }
        requires some { 1 ≤ nodes }
        requires few { nodes ≤ 16 }
        requires batch { 1 ≤ batch }
        requires small { batch ≤ 64 }
        ensures { IfOk result (λ node. node.state ≡ opening_node number nodes batch) }
    {
        Ok(Node {
            alloc,
            number,
            limit: batch,
            table: Table::new(alloc, nodes),
            rows: first_rows(alloc, number)?,
            replica: Replica::new(alloc),
            locks: Locks::new(alloc),
            blocked: None,
            waiting: Waiting::new(alloc),
            items: Vec::new(alloc),
            batches: Vec::new(alloc),
            last_operation: 0,
            items_numbered: 0,
            batches_numbered: 0,
            drawn: 0,
        })
    }

    /// The rows of the keys that live here. Takes no memory.
    pub fn rows(&self) -> &Rows
        ensures { result.now.rows ≡ self.now.state.rows }
    {
        &self.rows
    }

    /// Where keys live, as the node knows. Takes no memory.
    pub fn table(&self) -> &Table
        ensures { result.now ≡ self.now.state.table }
    {
        &self.table
    }

    /// Whether the node has no batch, no waiting call and no item. Takes no memory.
    pub fn quiet(&self) -> bool
        ensures { result ≡ is_quiet self.now.state }
    {
        self.batches.is_empty() && self.waiting.is_empty() && self.items.is_empty()
    }
}

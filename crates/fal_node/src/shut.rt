//! What an operation of the coordinator changes in a node.

ghost use Rattle.std.specs.Prelude.{◌≡◌, ◌+◌, ◌≤◌, length, is_some, if◌then◌else◌, IsTrue, None};
ghost use Rattle.fal_base.specs.Updates.{laid, laid_at};
ghost use Rattle.fal_locks.specs.Locks.{first_held, with_shut};
ghost use Rattle.fal_node.specs.State.{without_item};
ghost use Rattle.fal_node.specs.Deliver.{reopened, installed};
ghost use Rattle.fal_node.specs.Serve.{can_shut, shutting, blocking};
ghost use Rattle.fal_node.specs.Patch.{rows_put};
ghost use Rattle.fal_node.specs.Ready.{HasRoomToShut};

use crate::blocking::Blocking;
use crate::node::Node;
use fal_base::{Barred, Inode, Key, Name, Update};
use fal_inode::Rows;
use fal_locks::Locks;
use fal_place::Table;

// This row, or none, stands under the key.
fn lay_row(rows: &mut Rows, key: Key, row: Option<Inode>)
    requires { (if is_some row then 1 else 0) ≤ rows.old.spare }
    ensures rows { rows.new.rows ≡ laid_at rows.old.rows key row }
    ensures room { rows.old.spare ≤ rows.new.spare + (if is_some row then 1 else 0) }
{
    match row {
        None => {
            rows.take(&key);
        }
        Some(inode) => rows.put(key, inode),
    }
}

// The updates are laid, one after the other.
fn lay(rows: &mut Rows, mut updates: Vec<Update>)
    requires { rows_put updates.items ≤ rows.old.spare }
    ensures rows { rows.new.rows ≡ laid updates.items rows.old.rows }
    ensures room { rows.old.spare ≤ rows.new.spare + rows_put updates.items }
{
    if let Some(last) = updates.pop() {
        lay(rows, updates);
        let Update { key, row } = last;
        lay_row(rows, key, row);
    }
}

// The operation shuts the keys.
fn shut(locks: &mut Locks, operation: u32, keys: Vec<Key>)
    requires open { locks.old.table.shut ≡ None }
    requires not_held { first_held locks.old.table keys.items ≡ None }
    requires room { 1 ≤ locks.old.spare }
    requires room_for_keys { length keys.items ≤ locks.old.spare }
    ensures { locks.new.table ≡ with_shut locks.old.table operation keys.items }
{
    let Ok(()) = locks.try_shut(operation, keys) else {
        unreachable!()
    };
}

impl Node {
    // The keys are shut: they leave the replica, and no fetch is pending any more.
    #[tactic(auto, unfolding(crate::specs::Serve::shutting))]
    fn shut_keys(&mut self, operation: u32, keys: Vec<Key>)
        requires room { HasRoomToShut self.old.room keys.items }
        requires can { IsTrue (can_shut self.old.state.locks keys.items) }
        ensures { self.new.state ≡ shutting self.old.state operation keys.items }
    {
        self.replica.drop_keys(&keys);
        self.waiting.cancel_all();
        shut(&mut self.locks, operation, keys);
    }

    // A Lock, which the item is, is served.
    pub(crate) fn serve_lock(&mut self, item: u64, operation: u32, keys: Vec<Key>)
        requires room { HasRoomToShut self.old.room keys.items }
        requires can { IsTrue (can_shut self.old.state.locks keys.items) }
        ensures { self.new.state ≡ without_item (shutting self.old.state operation keys.items) item }
    {
        self.shut_keys(operation, keys);
        self.finish(item);
    }

    // The updates are laid on the rows, and the operation has no key shut any more.
    #[tactic(auto, unfolding(crate::specs::Deliver::reopened))]
    pub(crate) fn reopen(&mut self, operation: u32, updates: Vec<Update>)
        requires { rows_put updates.items ≤ self.old.room.rows }
        ensures { self.new.state ≡ reopened self.old.state operation updates.items }
    {
        lay(&mut self.rows, updates);
        self.locks.reopen(operation);
    }

    // The rows of the name leave, and the operation has it blocked.
    #[tactic(auto, unfolding(crate::specs::Serve::blocking))]
    fn block_name(&mut self, operation: u32, name: Name)
        ensures { self.new.state ≡ blocking self.old.state operation name }
    {
        let name = self.rows.drop_named(name);
        self.blocked = Some(Blocking {
            operation,
            names: Barred::One(name),
        });
    }

    // A Block, which the item is, is served.
    pub(crate) fn serve_block(&mut self, item: u64, operation: u32, name: Name)
        ensures { self.new.state ≡ without_item (blocking self.old.state operation name) item }
    {
        self.block_name(operation, name);
        self.finish(item);
    }

    // The node has the table, the updates are laid on the rows, and nothing is blocked any more.
    #[tactic(auto, unfolding(crate::specs::Deliver::installed))]
    pub(crate) fn install(&mut self, table: Table, updates: Vec<Update>)
        requires { rows_put updates.items ≤ self.old.room.rows }
        ensures { self.new.state ≡ installed self.old.state table updates.items }
    {
        lay(&mut self.rows, updates);
        self.table = table;
        self.blocked = None;
    }
}

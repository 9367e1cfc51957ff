//! Room for what a step changes.

ghost use Rattle.std.specs.Prelude.{◌≡◌, ◌≤◌, OnOk};
ghost use Rattle.fal_node.specs.Patch.{is_put as is_put_change, puts_in as puts_in_changes, rows_put as rows_put_by};
ghost use Rattle.fal_node.specs.Ready.{HasRoom, HasRoomToShut};

use crate::node::Node;
use crate::patch::Patch;
use fal_base::{OutOfMemory, Update};
use fal_exec::Change;
use fal_run::RowChange;

// Whether the change asks for room.
fn is_put(change: &RowChange) -> bool
    ensures { result ≡ is_put_change change.now.change }
{
    matches!(change.change, Change::Put(_))
}

// For how many rows the changes ask for room.
fn puts_in(changes: &[RowChange]) -> usize
    ensures { result ≡ puts_in_changes changes.now }
{
    changes.iter().filter(|change| is_put(change)).count()
}

// For how many rows the updates ask for room.
fn rows_put(updates: &[Update]) -> usize
    ensures { result ≡ rows_put_by updates.now }
{
    updates.iter().filter(|update| update.row.is_some()).count()
}

impl Node {
    fn make_room_for_call(&mut self) -> Result<(), OutOfMemory>
        ensures state { self.new.state ≡ self.old.state }
        ensures room { OnOk result (1 ≤ self.new.room.waiting) }
    {
        self.waiting.reserve(1)
    }

    fn make_room_for_item(&mut self) -> Result<(), OutOfMemory>
        ensures state { self.new.state ≡ self.old.state }
        ensures room { OnOk result (1 ≤ self.new.room.items) }
    {
        self.items.reserve(1)?;
        Ok(())
    }

    fn make_room_for_dentry(&mut self) -> Result<(), OutOfMemory>
        ensures state { self.new.state ≡ self.old.state }
        ensures room { OnOk result (1 ≤ self.new.room.replica) }
    {
        self.replica.reserve(1)
    }

    fn make_room_for_rows(&mut self, changes: &[RowChange]) -> Result<(), OutOfMemory>
        ensures state { self.new.state ≡ self.old.state }
        ensures room { OnOk result (puts_in_changes changes.now ≤ self.new.room.rows) }
    {
        self.rows.reserve(puts_in(changes))
    }

    // Room for so many fetches, and for a batch that holds so many keys.
    fn make_room_to_gather(&mut self, fetches: usize, keys: usize) -> Result<(), OutOfMemory>
        ensures state { self.new.state ≡ self.old.state }
        ensures fetches { OnOk result (fetches ≤ self.new.room.waiting) }
        ensures batch { OnOk result (1 ≤ self.new.room.batches) }
        ensures holder { OnOk result (1 ≤ self.new.room.locks) }
        ensures keys { OnOk result (keys ≤ self.new.room.locks) }
    {
        self.waiting.reserve(fetches)?;
        self.locks.reserve(keys.max(1))?;
        self.batches.reserve(1)?;
        Ok(())
    }

    fn make_room_to_shut(&mut self, keys: usize) -> Result<(), OutOfMemory>
        ensures state { self.new.state ≡ self.old.state }
        ensures operation { OnOk result (1 ≤ self.new.room.locks) }
        ensures keys { OnOk result (keys ≤ self.new.room.locks) }
    {
        self.locks.reserve(keys.max(1))
    }

    fn make_room_for_updates(&mut self, updates: &[Update]) -> Result<(), OutOfMemory>
        ensures state { self.new.state ≡ self.old.state }
        ensures room { OnOk result (rows_put_by updates.now ≤ self.new.room.rows) }
    {
        self.rows.reserve(rows_put(updates))
    }

    // Makes room for the change. The state stays as it was, whatever the answer.
    pub(crate) fn make_room(&mut self, patch: &Patch) -> Result<(), OutOfMemory>
        ensures state { self.new.state ≡ self.old.state }
        ensures room { OnOk result (HasRoom self.new.room patch.now) }
    {
        match patch {
            Patch::Nothing => Ok(()),
            Patch::Admit(_) => self.make_room_for_call(),
            Patch::Keep { .. } => self.make_room_for_item(),
            Patch::Learn { .. } => self.make_room_for_dentry(),
            Patch::Dismiss { .. } => Ok(()),
            Patch::Gather { fetches, keys, .. } => self.make_room_to_gather(
                fetches.len(),
                keys.len(),
            ),
            Patch::Execute { changes, .. } => self.make_room_for_rows(changes),
            Patch::Release(_) => Ok(()),
            Patch::Serve(_) => Ok(()),
            Patch::Shut { keys, .. } => self.make_room_to_shut(keys.len()),
            Patch::Reopen { updates, .. } => self.make_room_for_updates(updates),
            Patch::Block { .. } => Ok(()),
            Patch::Install { updates, .. } => self.make_room_for_updates(updates),
        }
    }
}

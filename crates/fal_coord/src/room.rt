//! Room for what a step changes.

ghost use Rattle.std.specs.Prelude.{◌≡◌, ◌≤◌, OnOk};
ghost use Rattle.fal_coord.specs.Ready.{HasRoom};

use crate::coord::Coord;
use crate::patch::Patch;
use fal_base::OutOfMemory;

impl Coord {
    fn make_room_for_call(&mut self) -> Result<(), OutOfMemory>
        ensures state { self.new.state ≡ self.old.state }
        ensures waiting { OnOk result (1 ≤ self.new.room.waiting) }
        ensures last { OnOk result (1 ≤ self.new.room.last) }
    {
        self.waiting.reserve(1)?;
        self.last.reserve(1)?;
        Ok(())
    }

    fn make_room_for_dentry(&mut self) -> Result<(), OutOfMemory>
        ensures state { self.new.state ≡ self.old.state }
        ensures room { OnOk result (1 ≤ self.new.room.replica) }
    {
        self.replica.reserve(1)
    }

    // Makes room for the change. The state stays as it was, whatever the answer.
    pub(crate) fn make_room(&mut self, patch: &Patch) -> Result<(), OutOfMemory>
        ensures state { self.new.state ≡ self.old.state }
        ensures room { OnOk result (HasRoom self.new.room patch.now) }
    {
        match patch {
            Patch::Take(_) => self.make_room_for_call(),
            Patch::Learn { .. } => self.make_room_for_dentry(),
            _ => Ok(()),
        }
    }
}

//! The law of the coordinator's records.

ghost use Rattle.std.specs.Prelude.{◌≡◌, Some, All, IsOk, map};
ghost use Rattle.fal_wire.specs.Letters.{output_of};
ghost use Rattle.fal_wire.specs.Messages.{reading};
ghost use Rattle.fal_coord.specs.declared.event.CoordEvent.{CoordEvent};
ghost use Rattle.fal_coord.specs.State.{CoordState, Work};
ghost use Rattle.fal_coord.specs.Step.{CanMake, coord_step};

/// What the coordinator sends within the ranges is read as a message again.
pub fn records_are_read()
    ensures { (coord : CoordState) (event : CoordEvent) (work : Work) → CanMake coord event → coord_step coord event ≡ Some work → All (λ o. IsOk (reading o.bytes)) (map output_of work.sent) }
{}

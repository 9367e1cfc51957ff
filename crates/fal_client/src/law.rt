//! The law of a client's records.

ghost use Rattle.std.specs.Prelude.{◌≡◌, Some, All, IsOk, map};
ghost use Rattle.fal_wire.specs.Letters.{output_of};
ghost use Rattle.fal_wire.specs.Messages.{reading};
ghost use Rattle.fal_client.specs.declared.event.ClientEvent.{ClientEvent};
ghost use Rattle.fal_client.specs.State.{ClientState, Work};
ghost use Rattle.fal_client.specs.Step.{CanMake, client_step};

/// What a client sends within the ranges is read as a message again.
pub fn records_are_read()
    ensures { (c : ClientState) (event : ClientEvent) (work : Work) → CanMake c event → client_step c event ≡ Some work → All (λ o. IsOk (reading o.bytes)) (map output_of work.sent) }
{}

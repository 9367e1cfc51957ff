//! The law of a node's records.

ghost use Rattle.std.specs.Prelude.{◌≡◌, Some, All, IsOk, map};
ghost use Rattle.fal_wire.specs.Messages.{reading};
ghost use Rattle.fal_node.specs.declared.event.NodeEvent.{NodeEvent};
ghost use Rattle.fal_node.specs.State.{NodeState};
ghost use Rattle.fal_wire.specs.Letters.{output_of};
ghost use Rattle.fal_node.specs.Letters.{Work};
ghost use Rattle.fal_node.specs.Step.{StaysWithin, node_step};

/// What a node sends within the ranges is read as a message again.
pub fn records_are_read()
    ensures { (node : NodeState) (event : NodeEvent) (work : Work) → StaysWithin node event → node_step node event ≡ Some work → All (λ o. IsOk (reading o.bytes)) (map output_of work.sent) }
{}

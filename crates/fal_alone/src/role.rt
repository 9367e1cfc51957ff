//! An actor of a cluster, of whichever kind.
ghost use Rattle.std.specs.Prelude.{◌≡◌, ◌↔◌, Option, Some, IfOk, IsErrOf, IsNone};
ghost use Rattle.fal_base.specs.declared.refuse.Refuse.TheVariants as refuse;
ghost use Rattle.fal_story.specs.Machines.{Machine, Made};

use fal_base::{Outputs, Refuse};
use fal_client::{Client, ClientEvent};
use fal_coord::{Coord, CoordEvent};
use fal_node::{Node, NodeEvent};

/// An actor of a cluster: it prepares the step of an event of its own, and then makes it.
///
/// It is its state as a run has it, and what it makes of each event of its own.
pub trait Role {
    /// An event of its own.
    type Own;
    /// A step that it is ready to make.
    type Prepared: Drop;

    // Its state.
    ghost machine: { Self → Machine };

    // What it makes of its own event: its state after it, and its records and notes. None where the event is not enabled.
    ghost made: { Self → Self.Own → Option Made };

    // What it makes of the event, where that is enabled, is within the ranges of records and counters.
    ghost can_make: { Self → Self.Own → Type 0 };

    // It can make the step that was prepared.
    ghost can_apply: { Self → Self.Prepared → Type 0 };

    // Its state after that step.
    ghost after: { Self → Self.Prepared → Machine };

    /// Prepares the step of an event, and hands its records and notes over. The actor stays as it was, except for room.
    ///
    /// Refused with `NotEnabled` exactly where the event may not happen now, and with `OutOfMemory`.
    fn prepare(&mut self, own: &Self::Own) -> Result<(Self::Prepared, Outputs), Refuse>
        requires { can_make self.old own.now }
        ensures same { machine self.new ≡ machine self.old }
        ensures ok { IfOk result (λ step. made self.old own.now ≡ Some (after self.new step.0, step.1)) }
        ensures can { IfOk result (λ step. can_apply self.new step.0) }
        ensures refused { IsErrOf result refuse.NotEnabled ↔ IsNone (made self.old own.now) };

    /// Makes the step that was prepared. Takes no memory and can't fail.
    fn make(&mut self, prepared: Self::Prepared)
        requires { can_apply self.old prepared }
        ensures { machine self.new ≡ after self.old prepared };
}

impl Role for Client {
    ghost use Rattle.fal_client.specs.Patch.{patched};
    ghost use Rattle.fal_client.specs.Step.{CanMake, client_step};
    ghost use Rattle.fal_story.specs.Machines.{ClientMachine, client_made};

    type Own = ClientEvent;

    type Prepared = fal_client::Prepared;

    ghost machine = { λ c. ClientMachine c };

    ghost made = { λ c own. client_made (client_step c own) };

    ghost can_make = { λ c own. CanMake c own };

    ghost can_apply = { λ c prepared. Unit {0} };

    ghost after = { λ c prepared. ClientMachine (patched c prepared.patch) };

    fn prepare(&mut self, own: &ClientEvent) -> Result<(fal_client::Prepared, Outputs), Refuse> {
        let mut prepared = self.ready(own)?;
        let outputs = prepared.take_outputs();
        Ok((prepared, outputs))
    }

    fn make(&mut self, prepared: fal_client::Prepared) {
        self.apply(prepared);
    }
}

impl Role for Coord {
    ghost use Rattle.fal_coord.specs.Ready.{CanApply, after};
    ghost use Rattle.fal_coord.specs.Step.{CanMake, coord_step};
    ghost use Rattle.fal_story.specs.Machines.{CoordMachine, coord_made};

    type Own = CoordEvent;

    type Prepared = fal_coord::Prepared;

    ghost machine = { λ c. CoordMachine c.state };

    ghost made = { λ c own. coord_made (coord_step c.state own) };

    ghost can_make = { λ c own. CanMake c.state own };

    ghost can_apply = { λ c prepared. CanApply c prepared };

    ghost after = { λ c prepared. CoordMachine (after c prepared) };

    fn prepare(&mut self, own: &CoordEvent) -> Result<(fal_coord::Prepared, Outputs), Refuse> {
        let mut prepared = self.ready(own)?;
        let outputs = prepared.take_outputs();
        Ok((prepared, outputs))
    }

    fn make(&mut self, prepared: fal_coord::Prepared) {
        self.apply(prepared);
    }
}

impl Role for Node {
    ghost use Rattle.fal_node.specs.Ready.{CanApply, after};
    ghost use Rattle.fal_node.specs.Step.{StaysWithin, node_step};
    ghost use Rattle.fal_story.specs.Machines.{NodeMachine, node_made};

    type Own = NodeEvent;

    type Prepared = fal_node::Prepared;

    ghost machine = { λ n. NodeMachine n.state };

    ghost made = { λ n own. node_made (node_step n.state own) };

    ghost can_make = { λ n own. StaysWithin n.state own };

    ghost can_apply = { λ n prepared. CanApply n prepared };

    ghost after = { λ n prepared. NodeMachine (after n prepared) };

    fn prepare(&mut self, own: &NodeEvent) -> Result<(fal_node::Prepared, Outputs), Refuse> {
        let mut prepared = self.ready(own)?;
        let outputs = prepared.take_outputs();
        Ok((prepared, outputs))
    }

    fn make(&mut self, prepared: fal_node::Prepared) {
        self.apply(prepared);
    }
}

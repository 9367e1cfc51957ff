ghost use Rattle.std.specs.Prelude.{◌≡◌, slice_get, IfOk};
ghost use Rattle.std.specs.Option.{option_map, option_to_list};
ghost use Rattle.fal_node.specs.Due.{event_of, due_gather as due_gather_of, dues};

use crate::event::{NodeEvent, OwnEvent};
use crate::gather::can_gather;
use crate::node::Node;
use crate::serve::can_serve;
use fal_base::OutOfMemory;

// Gather, where some free call is not skipped.
fn due_gather(node: &Node) -> Option<OwnEvent>
    ensures { option_to_list result ≡ due_gather_of node.now.state }
{
    if can_gather(node) {
        Some(OwnEvent::Gather)
    } else {
        None
    }
}

// The events that are due, in their order. It is a macro, since the type of such a chain has no name.
macro_rules! due_events {
    ($node:expr) => {
        due_gather($node)
            .into_iter()
            .chain(
                $node
                    .batches
                    .iter()
                    .filter(|batch| !batch.executed)
                    .map(|batch| OwnEvent::Exec(batch.number)),
            )
            .chain(
                $node
                    .batches
                    .iter()
                    .filter(|batch| batch.executed)
                    .map(|batch| OwnEvent::Release(batch.number)),
            )
            .chain(
                $node
                    .items
                    .iter()
                    .filter(|item| can_serve($node, &item.message))
                    .map(|item| OwnEvent::Serve(item.number)),
            )
    };
}

// The event at this place among all that are due.
fn own_at(node: &Node, at: usize) -> Option<OwnEvent>
    ensures { result ≡ slice_get (dues node.now.state) at }
{
    due_events!(node).nth(at)
}

impl Node {
    /// The event at this place, from 0, among those that are due: Gather where some free call is not skipped, then the Execs and then the
    /// Releases by the number of the batch, then by its number the Serve of each item whose condition holds. None exactly where the place
    /// is past their end. Takes no memory.
    pub fn due(&self, at: usize) -> Option<NodeEvent>
        ensures { result ≡ option_map event_of (slice_get (dues self.now.state) at) }
    {
        match own_at(self, at) {
            None => None,
            Some(own) => Some(own.event()),
        }
    }

    /// The first of the events that `dues` gives. Takes no memory.
    pub fn first_due(&self) -> Option<OwnEvent>
        ensures { result ≡ slice_get (dues self.now.state) 0 }
    {
        // A node is mostly quiet, and these tests cost less than a plan.
        if self.quiet() {
            return None;
        }
        own_at(self, 0)
    }

    /// All events that are due, in the order of `due`. Answers want of memory where there is too little.
    pub fn dues(&self) -> Result<Vec<OwnEvent>, OutOfMemory>
        ensures { IfOk result (λ events. events.items ≡ dues self.now.state) }
    {
        Ok(due_events!(self).collect(self.alloc)?)
    }
}

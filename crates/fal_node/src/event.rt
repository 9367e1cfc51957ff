ghost use Rattle.std.specs.Prelude.{◌≡◌};
ghost use Rattle.fal_node.specs.Due.{event_of};

use fal_base::Envelope;

/// What happens at a node: an envelope comes, waiting calls are gathered, a batch is executed or released, or an item is served.
#[derive(Debug, Drop)]
pub enum NodeEvent {
    Deliver(Envelope),
    Gather,
    Exec(u64),
    Release(u64),
    Serve(u64),
}

/// What a node does by itself, with no envelope.
#[derive(Clone, Copy, Debug, PartialEq, Eq)]
pub enum OwnEvent {
    Gather,
    /// The batch with this number is executed.
    Exec(u64),
    /// The batch with this number gives its keys back.
    Release(u64),
    /// The item with this number is served.
    Serve(u64),
}

impl OwnEvent {
    /// The same, as an event of the node.
    pub fn event(self) -> NodeEvent
        ensures { result ≡ event_of self }
    {
        match self {
            OwnEvent::Gather => NodeEvent::Gather,
            OwnEvent::Exec(batch) => NodeEvent::Exec(batch),
            OwnEvent::Release(batch) => NodeEvent::Release(batch),
            OwnEvent::Serve(item) => NodeEvent::Serve(item),
        }
    }
}

// Whether a cluster is quiet.
ghost use Rattle.std.specs.Prelude.{◌≡◌, ◌==◌, ◌↔◌, IsTrue, length};
ghost use Rattle.std.specs.List.{list_all};
ghost use Rattle.fal_story.specs.Fresh.{IsQuietAt, came};
ghost use Rattle.fal_node.specs.Due.{is_quiet};
ghost use Rattle.fal_alone.specs.Turns.{world_of};

use crate::cluster::Cluster;
use crate::queue::Queue;
use fal_node::Node;

fn are_empty(queues: &[Queue]) -> bool
    ensures { result ≡ list_all (λ queue. length queue.items == 0) queues.now }
{
    queues.iter().all(|queue| queue.is_empty())
}

fn are_quiet(nodes: &[Node]) -> bool
    ensures { result ≡ list_all (λ n. is_quiet n.state) nodes.now }
{
    nodes.iter().all(|node| node.quiet())
}

impl Cluster {
    /// Whether every envelope came, no node has a batch, a waiting call or an item, and no call waits for the coordinator, which has no
    /// operation under way. Takes no memory.
    pub fn quiet(&self) -> bool
        ensures { IsTrue result ↔ IsQuietAt self.now.config (world_of self.now) (came self.now.events) }
    {
        self.book.legal();
        are_empty(&self.queues) && are_quiet(&self.nodes) && self.coord.quiet()
    }
}

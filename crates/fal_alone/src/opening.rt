// The actors of a cluster before its first event.
ghost use Rattle.std.specs.Prelude.{◌≡◌, ◌+◌, [], IfOk, length};
ghost use Rattle.fal_story.specs.Clusters.{IsCluster};
ghost use Rattle.fal_alone.specs.Opening.{AreClients, AreNodes, AreEmpty};

use crate::queue::Queue;
use fal_base::{Config, Duplicate, OutOfMemory};
use fal_client::Client;
use fal_node::Node;
use std::alloc::Global;

/// The clients of all lanes.
pub fn clients_of(alloc: Global, config: &Config) -> Result<Vec<Client>, OutOfMemory>
    requires { IsCluster config.now }
    ensures count { IfOk result (λ clients. length clients.items ≡ length config.now.lanes) }
    ensures are { IfOk result (λ clients. AreClients config.now clients.items) }
{
    let mut clients = Vec::new(alloc);
    let mut lane = 0;
    for calls in config.lanes.as_slice() {
        lane += 1;
        let calls = calls.copy()?;
        clients.push(Client::new(alloc, lane, config.nodes, calls.into_items()))?;
    }
    Ok(clients)
}

/// All nodes.
pub fn nodes_of(alloc: Global, config: &Config) -> Result<Vec<Node>, OutOfMemory>
    requires { IsCluster config.now }
    ensures count { IfOk result (λ nodes. length nodes.items ≡ config.now.nodes) }
    ensures are { IfOk result (λ nodes. AreNodes config.now nodes.items) }
{
    let mut nodes = Vec::new(alloc);
    for number in 0..config.nodes {
        nodes.push(Node::new(alloc, number, config.nodes, config.batch)?)?;
    }
    Ok(nodes)
}

/// So many queues, with nothing in them.
pub fn queues_of(alloc: Global, count: usize) -> Result<Vec<Queue>, OutOfMemory>
    ensures count { IfOk result (λ queues. length queues.items ≡ count) }
    ensures are { IfOk result (λ queues. AreEmpty queues.items) }
{
    let mut queues = Vec::new(alloc);
    for _ in 0..count {
        queues.push(Queue::new(alloc))?;
    }
    Ok(queues)
}

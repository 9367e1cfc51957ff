//! The nodes that the coordinator speaks with.

ghost use Rattle.std.specs.Prelude.{◌≡◌, IfOk, IsTrue};
ghost use Rattle.fal_wire.specs.Letters.{letter};
ghost use Rattle.fal_base.specs.declared.event.Actor.TheVariants as actor;
ghost use Rattle.fal_base.specs.declared.event.Point.TheVariants as point;
ghost use Rattle.fal_coord.specs.Nodes.{numbers_below as numbers_below_of, is_missing as is_missing_of, without_node as without_node_of, to_nodes as to_nodes_of, is_order};

use fal_base::{Actor, Duplicate, Items, OutOfMemory, Point};
use fal_wire::{Letter, Message};
use std::alloc::Global;

// The numbers of all nodes, the last first.
pub(crate) fn numbers_below(alloc: Global, nodes: u8) -> Result<Items<u8>, OutOfMemory>
    ensures { IfOk result (λ numbers. numbers ≡ numbers_below_of nodes) }
{
    let mut numbers = Items::new(alloc);
    let mut left = nodes;
    while left > 0 {
        left -= 1;
        numbers.push(left)?;
    }
    Ok(numbers)
}

// Whether the node is still to be heard.
pub(crate) fn is_missing(node: u8, missing: &[u8]) -> bool
    ensures { result ≡ is_missing_of node missing.now }
{
    missing.iter().any(|other| *other == node)
}

// Those that are still to be heard once the node was.
pub(crate) fn without_node(
    alloc: Global,
    node: u8,
    missing: &[u8],
) -> Result<Items<u8>, OutOfMemory>
    ensures { IfOk result (λ left. left ≡ without_node_of node missing.now) }
{
    let mut left = Items::new(alloc);
    let mut rest = missing;
    while let Some((other, others)) = rest.split_first() {
        if *other != node {
            left.push(*other)?;
        }
        rest = others;
    }
    Ok(left)
}

// A copy of what every node is told.
fn copy_order(message: &Message) -> Result<Message, OutOfMemory>
    requires { IsTrue (is_order message.now) }
    ensures { IfOk result (λ copied. copied ≡ message.now) }
{
    match message {
        Message::Lock { op, keys } => Ok(Message::Lock {
            op: *op,
            keys: keys.copy()?,
        }),
        Message::Count { op, dir } => Ok(Message::Count { op: *op, dir: *dir }),
        Message::Commit { op, updates } => Ok(Message::Commit {
            op: *op,
            updates: updates.copy()?,
        }),
        Message::Block { op, name } => Ok(Message::Block {
            op: *op,
            name: name.copy()?,
        }),
        _ => unreachable!(),
    }
}

// The message to a node.
fn order_letter(node: u8, message: &Message) -> Result<Letter, OutOfMemory>
    requires { IsTrue (is_order message.now) }
    ensures { IfOk result (λ order. order ≡ letter (actor.Node node) (point.Here 0) message.now) }
{
    Ok(Letter {
        to: Actor::Node(node),
        point: Point::Here(0),
        message: copy_order(message)?,
    })
}

// The message to each node, in their order.
#[tactic(auto, using(crate::proofs::Sent::letters_more))]
pub(crate) fn to_nodes(
    alloc: Global,
    nodes: u8,
    message: &Message,
) -> Result<Vec<Letter>, OutOfMemory>
    requires { IsTrue (is_order message.now) }
    ensures { IfOk result (λ letters. letters.items ≡ to_nodes_of nodes message.now) }
{
    let mut letters = Vec::new(alloc);
    for node in 0..nodes {
        letters.push(order_letter(node, message)?)?;
    }
    Ok(letters)
}

//! A name is to be placed: why it is refused, and what every node is told at first.

ghost use Rattle.std.specs.Prelude.{◌≡◌, ◌+◌, ◌<◌, ◌^◌, IfOk};
ghost use Rattle.fal_wire.specs.declared.message.Message.TheVariants as message;
ghost use Rattle.fal_coord.specs.declared.patch.Next.TheVariants as next;
ghost use Rattle.fal_coord.specs.Nodes.{numbers_below as numbers_below_of, to_nodes as to_nodes_of};
ghost use Rattle.fal_coord.specs.Onward.{place_next, place_letters};
ghost use Rattle.fal_coord.specs.Place.{place_refusal};

use crate::begin::{Onward, give_up};
use crate::coord::Coord;
use crate::nodes::{numbers_below, to_nodes};
use crate::patch::Next;
use fal_base::{CallRec, Cred, Duplicate, Errno, Name, OutOfMemory, Rule};
use fal_place::Table;
use fal_wire::{Letter, Message};

// Why the name is not placed: the caller is not root, the rule names a node that is not there, or the table is full.
fn refusal(table: &Table, cred: &Cred, name: &Name, rule: Rule) -> Option<Errno>
    ensures { result ≡ place_refusal table.now cred.now (record { name = name.now; rule = rule }) }
{
    if cred.uid != 0 {
        Some(Errno::Eperm)
    } else if !table.fits(rule) {
        Some(Errno::Einval)
    } else if table.is_full_for(name) {
        Some(Errno::Enospc)
    } else {
        None
    }
}

// Every node is told to give its rows of the name away.
fn block_letters(coord: &Coord, operation: u32, name: &Name) -> Result<Vec<Letter>, OutOfMemory>
    ensures { IfOk result (λ letters. letters.items ≡ to_nodes_of coord.now.state.table.nodes (message.Block operation name.now)) }
{
    let message = Message::Block {
        op: operation,
        name: name.copy()?,
    };
    to_nodes(coord.alloc, coord.table.nodes(), &message)
}

// Every node is to give its rows of the name away.
fn block(coord: &Coord, operation: u32, name: &Name) -> Result<Onward, OutOfMemory>
    ensures next { IfOk result (λ onward. onward.next ≡ next.Block (numbers_below_of coord.now.state.table.nodes)) }
    ensures letters { IfOk result (λ onward. onward.letters.items ≡ to_nodes_of coord.now.state.table.nodes (message.Block operation name.now)) }
{
    let letters = block_letters(coord, operation, name)?;
    let missing = numbers_below(coord.alloc, coord.table.nodes())?;
    Ok(Onward {
        next: Next::Block(missing),
        letters,
    })
}

// How a placement begins as a new operation: it is refused, or every node gives its rows of the name away.
pub(crate) fn place_step(
    coord: &Coord,
    call: &CallRec,
    name: &Name,
    rule: Rule,
) -> Result<Onward, OutOfMemory>
    requires { coord.now.state.operation + 1 < 2 ^ 32 }
    ensures next { IfOk result (λ onward. onward.next ≡ place_next coord.now.state.table.nodes (place_refusal coord.now.state.table call.now.cred (record { name = name.now; rule = rule }))) }
    ensures letters { IfOk result (λ onward. onward.letters.items ≡ place_letters coord.now.state call.now (record { name = name.now; rule = rule }) (place_refusal coord.now.state.table call.now.cred (record { name = name.now; rule = rule }))) }
{
    match refusal(&coord.table, &call.cred, name, rule) {
        Some(errno) => give_up(coord.alloc, call, errno),
        None => block(coord, coord.operation + 1, name),
    }
}

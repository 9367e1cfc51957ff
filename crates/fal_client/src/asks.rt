//! The letters by which a client asks.

ghost use Rattle.std.specs.Prelude.{◌≡◌, ◌∷◌, [], map, IfOk};
ghost use Rattle.std.specs.List.{All, range_with_len};
ghost use Rattle.fal_wire.specs.Letters.{output_of};
ghost use Rattle.fal_wire.specs.Messages.{Fits};
ghost use Rattle.fal_client.specs.Paths.{addressee as addressee_of};
ghost use Rattle.fal_client.specs.Step.{letter_to as letter_to_of, call_message, part_letter, asks_for};

use crate::paths::addressee;
use fal_base::{Actor, Call, CallId, OutOfMemory, OutputList, Point};
use fal_place::Table;
use fal_wire::{Letter, Message, spelled, spelled_call};
use std::alloc::Global;

// A client commits nothing, so its letters stand at the point of the event.
fn letter_to(to: Actor, message: Message) -> Letter
    ensures { result ≡ letter_to_of to message }
{
    Letter {
        to,
        point: Point::Here(0),
        message,
    }
}

// The record of the call, to whom the table says.
fn call_outputs(
    alloc: Global,
    id: CallId,
    table: &Table,
    call: &Call,
) -> Result<OutputList, OutOfMemory>
    requires { Fits (call_message id table.now.version call.now) }
    ensures { IfOk result (λ sent. sent ≡ output_of (letter_to_of (addressee_of table.now call.now.op) (call_message id table.now.version call.now)) ∷ []) }
{
    let to = addressee(table, &call.op);
    let output = spelled_call(alloc, to, Point::Here(0), &id, table.version(), call)?;
    let mut sent = OutputList::new(alloc);
    sent.push(output)?;
    Ok(sent)
}

// What asks each of so many nodes for its part of a listing.
#[tactic(auto, using(crate::proofs::Sent::letters_more))]
fn part_letters(
    alloc: Global,
    id: CallId,
    version: u32,
    nodes: u8,
    dir: u64,
) -> Result<Vec<Letter>, OutOfMemory>
    ensures { IfOk result (λ letters. letters.items ≡ map (part_letter id version dir) (range_with_len 0 nodes)) }
{
    let mut letters = Vec::new(alloc);
    for node in 0..nodes {
        letters.push(letter_to(Actor::Node(node), Message::ListAsk { id, version, dir }))?;
    }
    Ok(letters)
}

// The records that ask each of so many nodes for its part.
fn part_outputs(
    alloc: Global,
    id: CallId,
    version: u32,
    nodes: u8,
    dir: u64,
) -> Result<OutputList, OutOfMemory>
    requires { All (λ letter. Fits letter.message) (map (part_letter id version dir) (range_with_len 0 nodes)) }
    ensures { IfOk result (λ sent. sent ≡ map output_of (map (part_letter id version dir) (range_with_len 0 nodes))) }
{
    let letters = part_letters(alloc, id, version, nodes, dir)?;
    let sent = spelled(alloc, &letters)?;
    Ok(sent)
}

// The records of what asks for a call by the table; or, where its directory is known, of what asks each node for its part.
pub fn ask_outputs(
    alloc: Global,
    id: CallId,
    table: &Table,
    nodes: u8,
    call: &Call,
    dir: Option<u64>,
) -> Result<OutputList, OutOfMemory>
    requires { All (λ letter. Fits letter.message) (asks_for id table.now nodes call.now dir) }
    ensures { IfOk result (λ sent. sent ≡ map output_of (asks_for id table.now nodes call.now dir)) }
{
    match dir {
        None => {
            let sent = call_outputs(alloc, id, table, call)?;
            Ok(sent)
        }
        Some(dir) => {
            let sent = part_outputs(alloc, id, table.version(), nodes, dir)?;
            Ok(sent)
        }
    }
}

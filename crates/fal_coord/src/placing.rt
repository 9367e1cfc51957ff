//! The nodes answer a placement: their rows of the name come, and with the last node's the name is placed.

ghost use Rattle.std.specs.Prelude.{◌≡◌, ◌+◌, ◌<◌, ◌^◌, ◌++◌, ◌∷◌, [], false, map, None, Some, IfOk, IsTrue};
ghost use Rattle.fal_base.specs.declared.event.Actor.TheVariants as actor;
ghost use Rattle.fal_base.specs.declared.event.Note.TheVariants as note;
ghost use Rattle.fal_base.specs.declared.event.Point.TheVariants as point;
ghost use Rattle.fal_base.specs.declared.reply.Reply.TheVariants as reply;
ghost use Rattle.fal_move.specs.Moving.{by_parent};
ghost use Rattle.fal_place.specs.Placement.{is_full_for, is_within, with_rule};
ghost use Rattle.fal_wire.specs.Letters.{letter, reply_letter as reply_letter_of};
ghost use Rattle.fal_wire.specs.declared.message.Message.TheVariants as message;
ghost use Rattle.fal_coord.specs.Hear.{block_heard as block_heard_of, take_blocked as take_blocked_of, take_installed as take_installed_of};
ghost use Rattle.fal_coord.specs.Patch.{placing_call};
ghost use Rattle.fal_coord.specs.Place.{place_refusal, is_placeable, install_letters as install_letters_of, name_placed, placed as placed_of};
ghost use Rattle.fal_coord.specs.Ready.{Does};
ghost use Rattle.fal_coord.specs.State.{begun};
ghost use Rattle.fal_coord.specs.Step.{IsInRange};
ghost use Rattle.fal_coord.specs.Walks.{placing_of};

use crate::begin::reply_letter;
use crate::coord::Coord;
use crate::draft::{Draft, quiet_draft};
use crate::hear::{nothing, with_rows};
use crate::nodes::{is_missing, numbers_below, without_node};
use crate::patch::Patch;
use crate::stage::Stage;
use fal_base::{Actor, CallRec, Items, Name, NamedRow, Note, Op, OutOfMemory, Point, Reply, Rule};
use fal_move::{ordered, split};
use fal_place::{Table, WithFault};
use fal_wire::{Letter, Message};
use std::alloc::Global;

// The next table, in which the name has the rule. There is room for it.
fn next_table(table: &Table, name: &Name, rule: Rule) -> Result<Table, OutOfMemory>
    requires below { table.now.version + 1 < 2 ^ 32 }
    requires within { IsTrue (is_within table.now.nodes rule) }
    requires room { is_full_for table.now name.now ≡ false }
    ensures { IfOk result (λ next. next ≡ with_rule table.now name.now rule) }
{
    match table.with(name, rule) {
        Ok(next) => Ok(next),
        Err(WithFault::Full) => unreachable!(),
        Err(WithFault::OutOfMemory) => Err(OutOfMemory),
    }
}

// What the node is told: the version, the rule, and its share of the rows.
fn install_letter(
    operation: u32,
    version: u32,
    rule: Rule,
    node: u8,
    share: Vec<NamedRow>,
) -> Letter
    ensures { result ≡ letter (actor.Node node) (point.Here 0) (message.Install operation version rule share.items) }
{
    Letter {
        to: Actor::Node(node),
        point: Point::Here(0),
        message: Message::Install {
            op: operation,
            version,
            rule,
            rows: Items::from_items(share),
        },
    }
}

// Each node is told the version and the rule, and gets its share of the rows.
fn install_letters(
    coord: &Coord,
    table: &Table,
    name: &Name,
    rule: Rule,
    rows: &[NamedRow],
) -> Result<Vec<Letter>, OutOfMemory>
    ensures { IfOk result (λ letters. letters.items ≡ install_letters_of coord.now.state.operation table.now (record { name = name.now; rule = rule }) rows.now) }
{
    let mut letters = Vec::new(coord.alloc);
    let mut shares = split(coord.alloc, table, name, rows)?.into_iter();
    for node in 0..table.nodes() {
        let Some(share) = shares.next() else {
            unreachable!()
        };
        letters.push(install_letter(coord.operation, table.version(), rule, node, share))?;
    }
    Ok(letters)
}

// The nodes are told, and then the client its answer.
fn placed_letters(
    coord: &Coord,
    call: &CallRec,
    table: &Table,
    name: &Name,
    rule: Rule,
    rows: &[NamedRow],
) -> Result<Vec<Letter>, OutOfMemory>
    ensures { IfOk result (λ letters. letters.items ≡ install_letters_of coord.now.state.operation table.now (record { name = name.now; rule = rule }) (by_parent rows.now) ++ reply_letter_of call.now (point.Here 0) reply.Fine ∷ []) }
{
    let rows = ordered(coord.alloc, rows)?;
    let mut letters = install_letters(coord, table, name, rule, &rows)?;
    letters.push(reply_letter(call, Point::Here(0), Reply::Fine))?;
    Ok(letters)
}

// The note that the table has this version by the call.
fn placed_notes(alloc: Global, call: &CallRec, version: u32) -> Result<Vec<Note>, OutOfMemory>
    ensures { IfOk result (λ notes. notes.items ≡ note.Placed call.now.id.client call.now.id.seq version ∷ []) }
{
    let mut notes = Vec::new(alloc);
    notes.push(Note::Placed {
        lane: call.id.client,
        seq: call.id.seq,
        version,
    })?;
    Ok(notes)
}

// The name is placed by this table.
fn place_by(
    coord: &Coord,
    call: &CallRec,
    table: Table,
    name: &Name,
    rule: Rule,
    rows: &[NamedRow],
) -> Result<Draft, OutOfMemory>
    requires table { table ≡ with_rule coord.now.state.table name.now rule }
    requires at { placing_call coord.now.state.stage ≡ Some call.now }
    ensures { IfOk result (λ draft. Does coord.now.state (name_placed coord.now.state call.now (record { name = name.now; rule = rule }) rows.now) draft) }
{
    let missing = numbers_below(coord.alloc, table.nodes())?;
    let notes = placed_notes(coord.alloc, call, table.version())?;
    let letters = placed_letters(coord, call, &table, name, rule, rows)?;
    Ok(Draft {
        patch: Patch::Place { table, missing },
        letters,
        notes,
    })
}

// The name is placed: it has not been refused.
fn place(
    coord: &Coord,
    call: &CallRec,
    name: &Name,
    rule: Rule,
    rows: &[NamedRow],
) -> Result<Draft, OutOfMemory>
    requires below { coord.now.state.table.version + 1 < 2 ^ 32 }
    requires placeable { place_refusal coord.now.state.table call.now.cred (record { name = name.now; rule = rule }) ≡ None }
    requires at { placing_call coord.now.state.stage ≡ Some call.now }
    ensures { IfOk result (λ draft. Does coord.now.state (name_placed coord.now.state call.now (record { name = name.now; rule = rule }) rows.now) draft) }
{
    let table = next_table(&coord.table, name, rule)?;
    place_by(coord, call, table, name, rule, rows)
}

// The rows of every node have come.
fn placed(coord: &Coord, call: &CallRec, rows: &[NamedRow]) -> Result<Draft, OutOfMemory>
    requires placeable { IsTrue (is_placeable coord.now.state.table call.now (placing_of call.now.op)) }
    requires at { placing_call coord.now.state.stage ≡ Some call.now }
    requires within { IsInRange (placed_of coord.now.state call.now rows.now) }
    ensures { IfOk result (λ draft. Does coord.now.state (placed_of coord.now.state call.now rows.now) draft) }
{
    let Op::Place { name, rule } = &call.op else {
        unreachable!()
    };
    place(coord, call, name, *rule, rows)
}

// A node has given its rows away. With the last node the name is placed.
fn block_heard(
    coord: &Coord,
    call: &CallRec,
    rows: Items<NamedRow>,
    missing: Items<u8>,
) -> Result<Draft, OutOfMemory>
    requires placeable { IsTrue (is_placeable coord.now.state.table call.now (placing_of call.now.op)) }
    requires at { placing_call coord.now.state.stage ≡ Some call.now }
    requires within { IsInRange (block_heard_of coord.now.state call.now rows missing) }
    ensures { IfOk result (λ draft. Does coord.now.state (block_heard_of coord.now.state call.now rows missing) draft) }
{
    if !missing.is_empty() {
        return Ok(quiet_draft(coord.alloc, Patch::Block { missing, rows }));
    }
    placed(coord, call, rows.as_slice())
}

// A node gives its rows of the name away. Only of this operation, and from a node that was not heard before.
pub(crate) fn take_blocked(
    coord: &Coord,
    number: u32,
    node: u8,
    told: Items<NamedRow>,
) -> Result<Draft, OutOfMemory>
    requires { IsInRange (take_blocked_of coord.now.state number node told coord.now.state.stage) }
    ensures { IfOk result (λ draft. Does coord.now.state (take_blocked_of coord.now.state number node told coord.now.state.stage) draft) }
{
    match coord.stage.stage() {
        Stage::Block {
            call,
            missing,
            rows,
        } => {
            if number == coord.operation && is_missing(node, missing.as_slice()) {
                let rows = with_rows(rows, &told)?;
                let missing = without_node(coord.alloc, node, missing.as_slice())?;
                block_heard(coord, call, rows, missing)
            } else {
                Ok(nothing(coord))
            }
        }
        _ => Ok(nothing(coord)),
    }
}

// A node has taken its rows, and with the last node the operation is at its end. Only of this operation, and from a node that was not heard before.
pub(crate) fn take_installed(coord: &Coord, number: u32, node: u8) -> Result<Draft, OutOfMemory>
    ensures { IfOk result (λ draft. Does coord.now.state (begun (take_installed_of coord.now.state number node coord.now.state.stage)) draft) }
{
    match coord.stage.stage() {
        Stage::Install { call: _, missing } => {
            if number == coord.operation && is_missing(node, missing.as_slice()) {
                let left = without_node(coord.alloc, node, missing.as_slice())?;
                if left.is_empty() {
                    Ok(quiet_draft(coord.alloc, Patch::Rest))
                } else {
                    Ok(quiet_draft(coord.alloc, Patch::Install(left)))
                }
            } else {
                Ok(nothing(coord))
            }
        }
        _ => Ok(nothing(coord)),
    }
}

//! How an operation goes on once its keys are shut, and how it is decided.

ghost use Rattle.std.specs.Prelude.{◌≡◌, [], ◌∷◌, ◌++◌, Some, IfOk, IsTrue, map};
ghost use Rattle.fal_coord.specs.declared.patch.Patch.TheVariants as patch;
ghost use Rattle.fal_base.specs.declared.event.Point.TheVariants as point;
ghost use Rattle.fal_wire.specs.declared.message.Message.TheVariants as message;
ghost use Rattle.fal_wire.specs.Letters.{reply_letter as reply_letter_of};
ghost use Rattle.fal_coord.specs.Decide.{verdict_on as verdict_on_of, counting, decided, commit_note as commit_note_of, judged_work};
ghost use Rattle.fal_coord.specs.Judged.{judged_of};
ghost use Rattle.fal_coord.specs.Nodes.{to_nodes as to_nodes_of};
ghost use Rattle.fal_coord.specs.Patch.{operation_at};
ghost use Rattle.fal_coord.specs.Ready.{Does};
ghost use Rattle.fal_coord.specs.Sound.{is_decidable};
ghost use Rattle.fal_coord.specs.Walks.{parents_of as parents_of_walks, last_inos as last_inos_of};

use crate::begin::reply_letter;
use crate::coord::Coord;
use crate::draft::{Draft, draft_of};
use crate::judged::Verdict;
use crate::judging::verdict;
use crate::nodes::{numbers_below, to_nodes};
use crate::patch::Patch;
use crate::stage::{Operation, PathWalk};
use fal_base::{CallRec, Dentry, Duplicate, Items, Note, OutOfMemory, Point, Reply, Update};
use fal_wire::{Letter, Message};
use std::alloc::Global;

// The directory of each path's last name.
fn parents_of(alloc: Global, walks: &[PathWalk]) -> Result<Vec<Option<Dentry>>, OutOfMemory>
    ensures { IfOk result (λ parents. parents.items ≡ parents_of_walks walks.now) }
{
    let mut parents = Vec::new(alloc);
    let mut rest = walks;
    while let Some((walk, others)) = rest.split_first() {
        parents.push(walk.parent)?;
        rest = others;
    }
    Ok(parents)
}

// The numbers that the last of the walks passed.
fn last_inos(walks: &[PathWalk]) -> &[u64]
    ensures { result.now ≡ last_inos_of [] walks.now }
{
    let mut inos: &[u64] = &[];
    let mut rest = walks;
    while let Some((walk, others)) = rest.split_first() {
        inos = walk.inos.as_slice();
        rest = others;
    }
    inos
}

// The verdict on the operation, by the rows that the nodes have told.
pub(crate) fn verdict_on(
    alloc: Global,
    operation: &Operation,
    rows: &[Update],
) -> Result<Verdict, OutOfMemory>
    requires { IsTrue (is_decidable operation.now) }
    ensures { IfOk result (λ verdict. judged_of verdict ≡ verdict_on_of operation.now rows.now) }
{
    let walks = operation.walks.as_slice();
    let parents = parents_of(alloc, walks)?;
    let call = &operation.call;
    verdict(
        alloc,
        &call.cred,
        &call.op,
        &parents,
        last_inos(walks),
        rows,
    )
}

// Every node is asked how many entries the directory has there.
fn count_letters(coord: &Coord, dir: u64) -> Result<Vec<Letter>, OutOfMemory>
    ensures { IfOk result (λ letters. letters.items ≡ to_nodes_of coord.now.state.table.nodes (message.Count coord.now.state.operation dir)) }
{
    let message = Message::Count {
        op: coord.operation,
        dir,
    };
    to_nodes(coord.alloc, coord.table.nodes(), &message)
}

// The entries of the directory are to be counted, at every node.
fn count(
    coord: &Coord,
    operation: &Operation,
    rows: Items<Update>,
    dir: u64,
    updates: Items<Update>,
) -> Result<Draft, OutOfMemory>
    requires { operation_at coord.now.state.stage ≡ Some operation.now }
    ensures { IfOk result (λ draft. Does coord.now.state (counting coord.now.state operation.now rows dir updates) draft) }
{
    let nodes = coord.table.nodes();
    let letters = count_letters(coord, dir)?;
    let missing = numbers_below(coord.alloc, nodes)?;
    let patch = Patch::Count {
        rows,
        dir,
        updates,
        missing,
    };
    Ok(draft_of(coord.alloc, patch, letters))
}

// Every node is told the updates.
fn commit_letters(coord: &Coord, updates: &Items<Update>) -> Result<Vec<Letter>, OutOfMemory>
    ensures { IfOk result (λ letters. letters.items ≡ to_nodes_of coord.now.state.table.nodes (message.Commit coord.now.state.operation updates.now)) }
{
    let message = Message::Commit {
        op: coord.operation,
        updates: updates.copy()?,
    };
    to_nodes(coord.alloc, coord.table.nodes(), &message)
}

// Every node is told the updates, and then the client the answer.
fn decision_letters(
    coord: &Coord,
    call: &CallRec,
    updates: &Items<Update>,
    answer: Reply,
) -> Result<Vec<Letter>, OutOfMemory>
    ensures { IfOk result (λ letters. letters.items ≡ to_nodes_of coord.now.state.table.nodes (message.Commit coord.now.state.operation updates.now) ++ reply_letter_of call.now (point.Here 0) answer ∷ []) }
{
    let mut letters = commit_letters(coord, updates)?;
    letters.push(reply_letter(call, Point::Here(0), answer))?;
    Ok(letters)
}

// The operation is decided: its keys leave the replica.
#[tactic(auto, unfolding(crate::specs::Decide::decided))]
fn decide(
    coord: &Coord,
    operation: &Operation,
    updates: Items<Update>,
    notes: Vec<Note>,
    answer: Reply,
) -> Result<Draft, OutOfMemory>
    requires { operation_at coord.now.state.stage ≡ Some operation.now }
    ensures { IfOk result (λ draft. Does coord.now.state (decided coord.now.state operation.now updates notes.items answer) draft) }
{
    let letters = decision_letters(coord, &operation.call, &updates, answer)?;
    let missing = numbers_below(coord.alloc, coord.table.nodes())?;
    Ok(Draft {
        patch: Patch::Decide { updates, missing },
        letters,
        notes,
    })
}

// The commit of the operation.
fn commit_notes(alloc: Global, operation: &Operation) -> Result<Vec<Note>, OutOfMemory>
    ensures { IfOk result (λ notes. notes.items ≡ commit_note_of operation.now ∷ []) }
{
    let mut notes = Vec::new(alloc);
    notes.push(Note::Commit {
        lane: operation.call.id.client,
        seq: operation.call.id.seq,
        ino: 0,
    })?;
    Ok(notes)
}

// A failure, or what changes nothing: no node is told an update.
fn answer(coord: &Coord, operation: &Operation, reply: Reply) -> Result<Draft, OutOfMemory>
    requires { operation_at coord.now.state.stage ≡ Some operation.now }
    ensures { IfOk result (λ draft. Does coord.now.state (decided coord.now.state operation.now [] [] reply) draft) }
{
    let updates = Items::new(coord.alloc);
    let notes = Vec::new(coord.alloc);
    decide(coord, operation, updates, notes, reply)
}

// What the operation comes to, by its verdict.
pub(crate) fn conclude(
    coord: &Coord,
    operation: &Operation,
    rows: &Items<Update>,
    verdict: Verdict,
) -> Result<Draft, OutOfMemory>
    requires { operation_at coord.now.state.stage ≡ Some operation.now }
    ensures { IfOk result (λ draft. Does coord.now.state (judged_work coord.now.state operation.now rows.now (judged_of verdict)) draft) }
{
    match verdict {
        Verdict::Fail(errno) => answer(coord, operation, Reply::Fail(errno)),
        Verdict::Same => answer(coord, operation, Reply::Fine),
        Verdict::Change(updates) => {
            let notes = commit_notes(coord.alloc, operation)?;
            decide(
                coord,
                operation,
                Items::from_items(updates),
                notes,
                Reply::Fine,
            )
        }
        Verdict::Count { dir, then } => {
            let rows = rows.copy()?;
            count(coord, operation, rows, dir, Items::from_items(then))
        }
    }
}

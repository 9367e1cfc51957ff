//! How a call goes on, and how the coordinator begins with one.

ghost use Rattle.std.specs.Prelude.{◌≡◌, ◌+◌, ◌<◌, ◌^◌, [], ◌∷◌, None, IfOk, OnErr, IsSome, IsTrue};
ghost use Rattle.fal_base.specs.declared.event.Point.TheVariants as point;
ghost use Rattle.fal_base.specs.declared.reply.Reply.TheVariants as reply;
ghost use Rattle.fal_wire.specs.Letters.{reply_letter as reply_letter_of};
ghost use Rattle.fal_wire.specs.declared.message.Message.TheVariants as message;
ghost use Rattle.fal_coord.specs.declared.event.CoordEvent.TheVariants as CoordEvent;
ghost use Rattle.fal_coord.specs.declared.patch.Next.TheVariants as next;
ghost use Rattle.fal_coord.specs.Begin.{ask_letter as ask_letter_of, start_first as start_first_of};
ghost use Rattle.fal_coord.specs.Judged.{is_for_rows};
ghost use Rattle.fal_coord.specs.Known.{with_learned};
ghost use Rattle.fal_coord.specs.Nodes.{numbers_below as numbers_below_of, to_nodes as to_nodes_of};
ghost use Rattle.fal_coord.specs.Onward.{walk_of, SuitsWalk, next_of, walk_letters, start_next, start_letters};
ghost use Rattle.fal_coord.specs.Ready.{DoesOf};
ghost use Rattle.fal_coord.specs.Sound.{is_walked};
ghost use Rattle.fal_coord.specs.Step.{CanMake, IsInRange, coord_step};
ghost use Rattle.std.specs.Option.{ForSome};
ghost use Rattle.fal_coord.specs.Walks.{is_operation, parents_of, walked_paths, with_ends};

use crate::coord::Coord;
use crate::draft::{Draft, draft_of};
use crate::nodes::{numbers_below, to_nodes};
use crate::patch::{Next, Patch};
use crate::paths::is_busy;
use crate::paths_walk::PathsWalk;
use crate::place::place_step;
use crate::stage::{PathWalk, Stage};
use crate::walks::{Learned, end_keys, walk_call};
use fal_base::{Actor, CallRec, Duplicate, Errno, Items, Key, Op, OutOfMemory, Point, Reply};
use fal_wire::{Letter, Message};
use std::alloc::Global;

/// How a call goes on, and what is sent for it.
#[derive(Drop)]
pub(crate) struct Onward {
    pub next: Next,
    pub letters: Vec<Letter>,
}

// The answer to the client of a call.
pub(crate) fn reply_letter(call: &CallRec, point: Point, reply: Reply) -> Letter
    ensures { result ≡ reply_letter_of call.now point reply }
{
    Letter {
        to: Actor::Client(call.id.client),
        point,
        message: Message::Reply { id: call.id, reply },
    }
}

// The answer alone, an errno.
pub(crate) fn refusal_letters(
    alloc: Global,
    call: &CallRec,
    point: Point,
    errno: Errno,
) -> Result<Vec<Letter>, OutOfMemory>
    ensures { IfOk result (λ letters. letters.items ≡ reply_letter_of call.now point (reply.Fail errno) ∷ []) }
{
    let mut letters = Vec::new(alloc);
    letters.push(reply_letter(call, point, Reply::Fail(errno)))?;
    Ok(letters)
}

// The call is answered with the errno.
pub(crate) fn give_up(alloc: Global, call: &CallRec, errno: Errno) -> Result<Onward, OutOfMemory>
    ensures next { IfOk result (λ onward. onward.next ≡ next.Rest) }
    ensures letters { IfOk result (λ onward. onward.letters.items ≡ reply_letter_of call.now (point.Here 0) (reply.Fail errno) ∷ []) }
{
    let letters = refusal_letters(alloc, call, Point::Here(0), errno)?;
    Ok(Onward {
        next: Next::Rest,
        letters,
    })
}

// The question after the directory under the key, to the key's owner.
fn ask_letter(coord: &Coord, key: &Key) -> Result<Letter, OutOfMemory>
    ensures { IfOk result (λ letter. letter ≡ ask_letter_of coord.now.state key.now) }
{
    Ok(Letter {
        to: Actor::Node(coord.table.owner(key)),
        point: Point::Here(0),
        message: Message::FetchAsk {
            asker: 255,
            number: coord.asked,
            key: key.copy()?,
        },
    })
}

// The call waits for the directory under the key.
fn ask(coord: &Coord, key: Key) -> Result<Onward, OutOfMemory>
    ensures next { IfOk result (λ onward. onward.next ≡ next.Ask key) }
    ensures letters { IfOk result (λ onward. onward.letters.items ≡ ask_letter_of coord.now.state key ∷ []) }
{
    let mut letters = Vec::new(coord.alloc);
    letters.push(ask_letter(coord, &key)?)?;
    Ok(Onward {
        next: Next::Ask(key),
        letters,
    })
}

// Every node is told to shut the keys.
fn lock_letters(
    coord: &Coord,
    operation: u32,
    keys: &Items<Key>,
) -> Result<Vec<Letter>, OutOfMemory>
    ensures { IfOk result (λ letters. letters.items ≡ to_nodes_of coord.now.state.table.nodes (message.Lock operation keys.now)) }
{
    let message = Message::Lock {
        op: operation,
        keys: keys.copy()?,
    };
    to_nodes(coord.alloc, coord.table.nodes(), &message)
}

// Every node is to shut the operation's last keys.
fn lock(
    coord: &Coord,
    operation: u32,
    op: &Op,
    walks: Items<PathWalk>,
) -> Result<Onward, OutOfMemory>
    requires { IsTrue (is_for_rows op.now (parents_of walks)) }
    ensures next { IfOk result (λ onward. onward.next ≡ next.Lock (with_ends [] (walked_paths op.now) walks) walks (numbers_below_of coord.now.state.table.nodes)) }
    ensures letters { IfOk result (λ onward. onward.letters.items ≡ to_nodes_of coord.now.state.table.nodes (message.Lock operation (with_ends [] (walked_paths op.now) walks))) }
{
    let keys = end_keys(coord.alloc, op, walks.as_slice())?;
    let letters = lock_letters(coord, operation, &keys)?;
    let missing = numbers_below(coord.alloc, coord.table.nodes())?;
    Ok(Onward {
        next: Next::Lock {
            keys,
            walks,
            missing,
        },
        letters,
    })
}

// How the call goes on, by how its walks end.
fn go_on(
    coord: &Coord,
    operation: u32,
    call: &CallRec,
    walk: PathsWalk,
) -> Result<Onward, OutOfMemory>
    requires { SuitsWalk call.now.op walk }
    ensures next { IfOk result (λ onward. onward.next ≡ next_of coord.now.state.table.nodes call.now.op walk) }
    ensures letters { IfOk result (λ onward. onward.letters.items ≡ walk_letters coord.now.state operation call.now walk) }
{
    match walk {
        PathsWalk::Stopped(errno) => give_up(coord.alloc, call, errno),
        PathsWalk::Lacking(key) => ask(coord, key),
        PathsWalk::Ready(walks) => lock(coord, operation, &call.op, walks),
    }
}

// The call's paths are walked, with what is being learned.
pub(crate) fn walk_step(
    coord: &Coord,
    operation: u32,
    learned: &Option<Learned>,
    call: &CallRec,
) -> Result<Onward, OutOfMemory>
    requires { IsTrue (is_walked call.now.op) }
    ensures next { IfOk result (λ onward. onward.next ≡ next_of coord.now.state.table.nodes call.now.op (walk_of coord.now.state learned.now call.now)) }
    ensures letters { IfOk result (λ onward. onward.letters.items ≡ walk_letters coord.now.state operation call.now (walk_of coord.now.state learned.now call.now)) }
{
    let walk = walk_call(coord.alloc, &coord.replica, learned, call)?;
    go_on(coord, operation, call, walk)
}

// How the call goes on as a new operation. A rmdir or rename of the root is busy (POSIX.1-2017, XSH: rmdir and rename), before any walk.
fn start(coord: &Coord, call: &CallRec) -> Result<Onward, OutOfMemory>
    requires operation { IsTrue (is_operation call.now.op) }
    requires below { coord.now.state.operation + 1 < 2 ^ 32 }
    ensures next { IfOk result (λ onward. onward.next ≡ start_next coord.now.state call.now) }
    ensures letters { IfOk result (λ onward. onward.letters.items ≡ start_letters coord.now.state call.now) }
{
    if is_busy(&call.op) {
        return give_up(coord.alloc, call, Errno::Ebusy);
    }
    match &call.op {
        Op::Place { name, rule } => place_step(coord, call, name, *rule),
        _ => walk_step(coord, coord.operation + 1, &None, call),
    }
}

// The first of the calls that wait begins, where there is one.
fn start_first(coord: &Coord) -> Result<Option<Draft>, OutOfMemory>
    requires { ForSome (start_first_of coord.now.state coord.now.state.waiting) IsInRange }
    ensures does { IfOk result (λ draft. DoesOf coord.now.state (start_first_of coord.now.state coord.now.state.waiting) draft) }
    ensures err { OnErr result (IsSome (start_first_of coord.now.state coord.now.state.waiting)) }
{
    match coord.waiting.first() {
        None => Ok(None),
        Some(call) => {
            let Onward { next, letters } = start(coord, call)?;
            Ok(Some(draft_of(coord.alloc, Patch::Start(next), letters)))
        }
    }
}

// The coordinator begins, where no operation is under way and a call waits.
#[tactic(auto, unfolding(crate::specs::Step::coord_step))]
pub(crate) fn begin(coord: &Coord) -> Result<Option<Draft>, OutOfMemory>
    requires { CanMake coord.now.state CoordEvent.Start }
    ensures does { IfOk result (λ draft. DoesOf coord.now.state (coord_step coord.now.state CoordEvent.Start) draft) }
    ensures err { OnErr result (IsSome (coord_step coord.now.state CoordEvent.Start)) }
{
    match coord.stage.stage() {
        Stage::Idle => start_first(coord),
        _ => Ok(None),
    }
}

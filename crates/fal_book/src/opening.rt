//! The seats of a new lock.
ghost use Rattle.std.specs.Prelude.{◌≡◌, ◌<◌, ◌≤◌, [], Some, map, vec_capacity};
ghost use Rattle.std.specs.List.{range_with_len};
ghost use Rattle.fal_book.specs.Entries.{IsSound};
ghost use Rattle.fal_book.specs.Moves.{IsSized};
ghost use Rattle.fal_book.specs.Sitting.{first_view, newcomer};

use crate::chronicle::Chronicle;
use crate::lock::ActorSeat;
use crate::moves::{Board, Place, make};
use std::snapshot::Snapshot;

/// One seat for each number below `actors`, in order: the first of the table, and those that are split off from it.
pub(crate) fn seat_all<B: Chronicle>(
    board: &Board<B>,
    mut first: Place<B>,
    opened: &Snapshot<B>,
    actors: u8,
    mut seats: Vec<ActorSeat<B>>,
) -> Vec<ActorSeat<B>>
    requires board { (first.table_id ≡ board.now.table_id) × IsSized board.now.table_id × (board.now.key.actors ≡ actors) × (0 < actors) }
    requires first { first.me ≡ (Some (first_view B.actor_of (B.setting opened.now.value) (B.entries opened.now.value) 1), []) }
    requires sound { IsSound B.may_push (B.setting opened.now.value) (B.entries opened.now.value) }
    requires seats { (seats.items ≡ []) × (actors ≤ vec_capacity seats) }
    ensures { result.items ≡ map (newcomer B.actor_of (B.setting opened.now.value) (B.entries opened.now.value) board.now.table_id) (range_with_len 0 actors) }
{
    for number in 1..actors {
        let seat = make(board, &mut first);
        seats.push_reserved(ActorSeat::new(seat, number));
    }
    match seats.insert(0, ActorSeat::new(first, 0)) {
        Ok(()) => seats,
        Err(_) => unreachable!(),
    }
}

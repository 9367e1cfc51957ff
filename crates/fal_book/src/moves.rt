//! The moves of a seat, each of a few steps on the table.
ghost use Rattle.std.specs.Prelude.{◌≡◌, [], ◌∷◌, None};
ghost use Rattle.fal_book.specs.Entries.{IsSound};
ghost use Rattle.fal_book.specs.Moves.{IsSameSeat, IsSized, IsIdle, Waits, Drew, Reached, Took, MayGive, Gave, MayMake, TookIn};
ghost use Rattle.fal_book.specs.Steps.{view_after_split, new_view};

use crate::chronicle::Chronicle;
use crate::plays::{DrawTicket, JoinSeat, PassTurn, SeeTurn, SplitSeat};
use crate::rule::BookRule;
use crate::view::{Opening, View};
use atomic_table::{Seat, Shared};
use std::sync::Wait;
use std::thread;

/// A seat at the table.
pub(crate) type Place<B> = Seat<
    Option<B>,
    View<<B as Chronicle>::Event, <B as Chronicle>::Setting>,
>;

/// The table, as the threads share it.
pub(crate) type Board<B> = Shared<
    Option<B>,
    View<<B as Chronicle>::Event, <B as Chronicle>::Setting>,
    Opening<B>,
    BookRule<B>,
>;

/// Draws a ticket: word 1 rises by one, and its old number is the ticket.
fn draw<B: Chronicle>(board: &Board<B>, seat: &mut Place<B>) -> u64
    requires board { (seat.old.table_id ≡ board.now.table_id) × IsSized board.now.table_id }
    requires idle { IsIdle seat.old.me }
    ensures same { IsSameSeat seat.old seat.new }
    ensures drew { Drew B.entries B.setting B.actor_of result seat.old.me seat.new.me }
{
    board.fetch_add::<DrawTicket<B>>(seat, 1, 1)
}

/// Waits until word 0 is the ticket, and takes the slot.
fn reach<B: Chronicle, R: Wait>(rt: &R, board: &Board<B>, seat: &mut Place<B>, ticket: u64)
    requires board { (seat.old.table_id ≡ board.now.table_id) × IsSized board.now.table_id }
    requires waits { Waits ticket seat.old.me }
    ensures same { IsSameSeat seat.old seat.new }
    ensures reached { Reached B.entries B.setting B.actor_of seat.old.me seat.new.me }
{
    for _ in rt.forever() {
        if board.load::<SeeTurn<B>>(seat, 0) == ticket {
            return;
        }
        thread::yield_now();
    }
    unreachable!()
}

/// Waits for the seat's turn, and takes the book out of the slot.
pub(crate) fn take<B: Chronicle, R: Wait>(rt: &R, board: &Board<B>, seat: &mut Place<B>) -> B
    requires board { (seat.old.table_id ≡ board.now.table_id) × IsSized board.now.table_id }
    requires idle { IsIdle seat.old.me }
    ensures same { IsSameSeat seat.old seat.new }
    ensures took { Took B.entries B.setting B.actor_of result seat.old.me seat.new.me }
{
    let ticket = draw(board, seat);
    reach(rt, board, seat, ticket);
    let found = board.exchange(seat, 0, None);
    let Some(book) = found else { unreachable!() };
    book
}

/// Puts the book back into the slot, and passes the turn: word 0 rises by one, and the slot goes home.
pub(crate) fn give<B: Chronicle>(board: &Board<B>, seat: &mut Place<B>, book: B)
    requires board { (seat.old.table_id ≡ board.now.table_id) × IsSized board.now.table_id }
    requires may { MayGive B.entries B.setting B.actor_of (IsSound B.may_push) book seat.old.me }
    ensures same { IsSameSeat seat.old seat.new }
    ensures gave { Gave B.entries B.setting B.actor_of book seat.old.me seat.new.me }
{
    let left = board.exchange(seat, 0, Some(book));
    let None = left else { unreachable!() };
    board.fetch_add::<PassTurn<B>>(seat, 0, 1);
}

/// Splits off a seat with the next number from the seat with number 0.
pub(crate) fn make<B: Chronicle>(board: &Board<B>, first: &mut Place<B>) -> Place<B>
    requires board { (first.old.table_id ≡ board.now.table_id) × IsSized board.now.table_id }
    requires may { MayMake board.now.key.actors first.old.me }
    ensures same { IsSameSeat first.old first.new × (result.table_id ≡ first.old.table_id) }
    ensures left { first.new.me ≡ (view_after_split B.entries B.setting B.actor_of first.old.me.0, first.old.me.1) }
    ensures right { result.me ≡ (new_view B.entries B.setting B.actor_of first.old.me.0, []) }
{
    board.split_seat::<SplitSeat<B>>(first)
}

/// Joins the other seat to the first.
pub(crate) fn join<B: Chronicle>(board: &Board<B>, first: &mut Place<B>, other: Place<B>)
    requires board { (first.old.table_id ≡ board.now.table_id) × (other.table_id ≡ board.now.table_id) × IsSized board.now.table_id }
    requires idle { IsIdle first.old.me }
    requires other { IsIdle other.me }
    ensures same { IsSameSeat first.old first.new }
    ensures took_in { TookIn first.old.me other.me first.new.me }
{
    board.join_seat::<JoinSeat<B>>(first, other);
}

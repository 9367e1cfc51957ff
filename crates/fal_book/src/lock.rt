//! The lock and its seats.
ghost use Rattle.std.specs.Prelude.{◌≡◌, ◌≤◌, ◌<◌, [], ◌∷◌, ◌++◌, All, length, map, IfOk, IfErr, OnOk, OnErr};
ghost use Rattle.std.specs.List.{range_with_len};
ghost use Rattle.fal_book.specs.Entries.{IsSound};
ghost use Rattle.fal_book.specs.Sitting.{IsSameSitting, Entered, Looked, NothingEntered, IsSat, sitting_of, newcomer, IsClosed, Knows, MayEnter};
ghost use Rattle.fal_book.specs.Moves.{IsSized};
ghost use Rattle.fal_book.specs.Gathers.{Gathered};

use crate::chronicle::Chronicle;
use crate::moves::{Board, Place, give, join, take};
use crate::opening::seat_all;
use crate::rule::BookRule;
use crate::view::{Opening, View};
use atomic_table::{Seat, Table};
use fal_base::OutOfMemory;
use std::alloc::Global;
use std::marker::Model;
use std::snapshot::Snapshot;
use std::sync::Wait;

/// The lock of a book on which several actors write. Contracts see which lock it is, and how many actors it has.
#[derive(Drop)]
pub struct BookLock<B: Chronicle> {
    table: Table<Option<B>, View<B::Event, B::Setting>, Opening<B>, BookRule<B>, Global>,
    actors: u8,
}

impl<B: Chronicle> Model for BookLock<B> {
    ghost use Rattle.std.specs.Prelude.{◌≡◌, ◌<◌};
    ghost use Rattle.fal_book.specs.Sitting.{LockId};
    ghost use Rattle.fal_book.specs.Moves.{IsSized};

    ghost Value = { LockId };

    ghost view = { λ l. record { table = l.table.shared.table_id; actors = l.actors } };

    ghost invariant = { λ l. IsSized l.table.shared.table_id × (l.table.shared.key.actors ≡ l.actors) × (0 < l.actors) };
}

/// What could not be entered for want of memory. Nothing was entered.
#[derive(Drop)]
pub struct EnterFault<B: Chronicle> {
    /// The event that was to be entered.
    pub event: B::Event,
    /// Its outputs.
    pub outputs: B::Outputs,
}

/// One actor's seat at the lock.
///
/// Contracts see its lock, its actor's number, the book's setting (None only of a seat that is no longer in use, which no caller has), the list that it has seen, its actor's entries in that list, and how far it has looked: what its last look that answered Ok answered, and 0 at first.
#[derive(Drop)]
pub struct ActorSeat<B: Chronicle> {
    seat: Seat<Option<B>, View<B::Event, B::Setting>>,
    number: u8,
    looked: u64,
}

impl<B: Chronicle> Model for ActorSeat<B> {
    ghost use Rattle.fal_book.specs.Sitting.{Sitting, sitting_of, IsSat};
    ghost use Rattle.fal_book.specs.Entries.{IsSound};

    ghost Value = { Sitting B.Event B.Setting };

    ghost view = { λ s. sitting_of s.seat s.number s.looked };

    ghost invariant = { λ s. IsSat B.actor_of (IsSound B.may_push) s.seat s.number s.looked };
}

impl<B: Chronicle> ActorSeat<B> {
    pub(crate) fn new(seat: Place<B>, number: u8) -> ActorSeat<B>
        requires { IsSat B.actor_of (IsSound B.may_push) seat number 0 }
        ensures { result ≡ sitting_of seat number 0 }
    {
        ActorSeat {
            seat,
            number,
            looked: 0,
        }
    }

    /// The number of its actor. Takes no memory.
    ///
    /// The clause `knows` says what holds of every seat between two calls, for a caller that has not been told: the list that it has seen is legal and short, its actor's entries are those of that list, and it has looked no further.
    pub fn number(&self) -> u8
        ensures number { result ≡ self.now.number }
        ensures knows { Knows B.actor_of (IsSound B.may_push) self.now }
    {
        self.number
    }
}

impl<B: Chronicle + Drop> BookLock<B> {
    /// A lock round this book, and a seat for each actor's number below `actors`, in order. Each seat has the book's setting and has seen the book.
    ///
    /// Waits for nobody. Where memory is refused the book is let go.
    pub fn new(
        alloc: Global,
        book: B,
        actors: u8,
    ) -> Result<(BookLock<B>, Vec<ActorSeat<B>>), OutOfMemory>
        requires { 1 ≤ actors }
        ensures actors { IfOk result (λ r. r.0.actors ≡ actors) }
        ensures seats { IfOk result (λ r. r.1.items ≡ map (newcomer B.actor_of (B.setting book) (B.entries book) r.0.table) (range_with_len 0 actors)) }
        ensures knows { IfOk result (λ r. All (Knows B.actor_of (IsSound B.may_push)) r.1.items) }
    {
        book.len();
        let opened = Snapshot::of(&book);
        let opening = Opening {
            actors,
            book: Snapshot::of(&book),
        };
        let Ok(seats) = Vec::with_capacity(alloc, actors as usize) else {
            return Err(OutOfMemory);
        };
        let Ok(mut slots) = Vec::with_capacity(alloc, 1) else {
            return Err(OutOfMemory);
        };
        slots.push_reserved(Some(book));
        let Ok((table, first)) = Table::new(alloc, &[0, 0], slots, &opening) else {
            return Err(OutOfMemory);
        };
        let seats = seat_all(&table.shared, first, &opened, actors, seats);
        Ok((BookLock { table, actors }, seats))
    }
}

impl<B: Chronicle> BookLock<B> {
    /// Looks at all that was entered so far, and adds to the inbox what was sent to this actor since the last look. Answers how many entries the book has, which is the length of what the seat has then seen.
    ///
    /// May wait for its turn. At want of memory the inbox, the actor's entries and how far the seat has looked are as before, and what it has seen may have grown.
    pub fn look<R: Wait>(
        &self,
        rt: &R,
        seat: &mut ActorSeat<B>,
        into: &mut B::Inbox,
    ) -> Result<u64, OutOfMemory>
        requires { seat.old.lock ≡ self.now.table }
        ensures same { IsSameSitting seat.old seat.new }
        ensures knows { Knows B.actor_of (IsSound B.may_push) seat.new }

        ensures ok { IfOk result (λ n. Looked seat.old seat.new n) }
        ensures inbox { OnOk result ((c : _) → seat.old.setting ≡ Some c → B.inbox_gives c seat.new.seen seat.old.number seat.old.looked into.old into.new) }
        ensures err { OnErr result ((into.new ≡ into.old) × NothingEntered seat.old seat.new) }
    {
        let board = &self.table.shared;
        let book = take(rt, board, &mut seat.seat);
        let count = book.len();
        let told = book.inbox(seat.number, seat.looked, into);
        give(board, &mut seat.seat, book);
        match told {
            Err(OutOfMemory) => Err(OutOfMemory),
            Ok(()) => {
                seat.looked = count;
                Ok(count)
            }
        }
    }

    /// Enters this event, once, at the end of the book. Answers its number, which is how many entries stand before it.
    ///
    /// May wait for its turn. At want of memory both the event and its outputs come back and nothing was entered: the actor's entries are as before, and what the seat has seen may have grown.
    pub fn enter<R: Wait>(
        &self,
        rt: &R,
        seat: &mut ActorSeat<B>,
        event: B::Event,
        outputs: B::Outputs,
    ) -> Result<u64, EnterFault<B>>
        requires lock { seat.old.lock ≡ self.now.table }
        requires own { B.actor_of event ≡ seat.old.number }
        requires may { MayEnter B.may_push seat.old.setting seat.old.seen event outputs }
        ensures same { IsSameSitting seat.old seat.new }
        ensures looked { seat.new.looked ≡ seat.old.looked }
        ensures knows { Knows B.actor_of (IsSound B.may_push) seat.new }

        ensures ok { IfOk result (λ n. Entered seat.old seat.new event n) }
        ensures err { IfErr result (λ f. (f.event ≡ event) × (f.outputs ≡ outputs) × NothingEntered seat.old seat.new) }
    {
        let board = &self.table.shared;
        let mut book = take(rt, board, &mut seat.seat);
        let number = book.len();
        match book.reserve(&outputs) {
            Err(OutOfMemory) => {
                give(board, &mut seat.seat, book);
                Err(EnterFault { event, outputs })
            }
            Ok(()) => {
                add(&mut book, event, outputs);
                give(board, &mut seat.seat, book);
                Ok(number)
            }
        }
    }

    /// Takes the book back, with all seats of this lock. Every seat's entries are its actor's entries in the book, and what it had seen is a beginning of the book.
    ///
    /// Takes no memory, and waits for nobody.
    pub fn close_with(self, seats: Vec<ActorSeat<B>>) -> B
        requires all { length seats.items ≡ self.actors }
        requires own { All (λ s. s.lock ≡ self.table) seats.items }
        ensures { All (IsClosed B.actor_of (B.setting result) (B.entries result)) seats.items }
    {
        let BookLock { table, actors: _ } = self;
        let first = gather(&table.shared, seats);
        let mut closed = table.close_with(first);
        let slot = closed.take(0);
        closed.free();
        let Some(book) = slot else { unreachable!() };
        book
    }
}

/// Enters the event in the book that was taken out.
fn add<B: Chronicle>(book: &mut B, event: B::Event, outputs: B::Outputs)
    requires may { B.may_push (B.setting book.old) (B.entries book.old) event outputs }
    requires room { B.has_room book.old outputs }
    ensures entry { B.entries book.new ≡ B.entries book.old ++ event ∷ [] }
    ensures setting { B.setting book.new ≡ B.setting book.old }
{
    book.push(event, outputs);
}

/// Joins all seats into one.
fn gather<B: Chronicle>(board: &Board<B>, mut seats: Vec<ActorSeat<B>>) -> Place<B>
    requires board { IsSized board.now.table_id }
    requires some { 0 < length seats.items }
    requires own { All (λ s. s.lock ≡ board.now.table_id) seats.items }
    ensures same { result.table_id ≡ board.now.table_id }
    ensures all { Gathered seats.items result.me }
{
    let Some(kept) = seats.pop() else {
        unreachable!()
    };
    let ActorSeat {
        seat: mut first,
        number: _,
        looked: _,
    } = kept;
    while let Some(other) = seats.pop() {
        let ActorSeat {
            seat,
            number: _,
            looked: _,
        } = other;
        join(board, &mut first, seat);
    }
    first
}

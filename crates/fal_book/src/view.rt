//! What the seats at the table know. No value of these types is ever made: they exist in proofs alone.
use std::collections::LinkedList;
use std::snapshot::Snapshot;

/// What is kept of a seat that was given back.
pub struct Ended<E, C> {
    /// The number of its actor.
    pub number: u8,
    /// The setting of its book.
    pub setting: C,
    /// The entries of its actor.
    pub mine: LinkedList<E>,
    /// The list that it had seen.
    pub seen: LinkedList<E>,
}

/// What a seat in use knows.
pub struct Known<E, C> {
    /// The number of its actor.
    pub number: u8,
    /// The setting of its book.
    pub setting: C,
    /// A beginning of the book's list.
    pub seen: LinkedList<E>,
    /// The entries of its actor.
    pub mine: LinkedList<E>,
    /// The ticket that it drew and for which its turn has not yet passed.
    pub ticket: Option<u64>,
    /// The book's list, while the seat has the book.
    pub holding: Option<LinkedList<E>>,
    /// The seats that were given back to this one.
    pub ended: LinkedList<Ended<E, C>>,
    /// The book's list at the start. The seat with number 0 alone has it.
    pub opening: LinkedList<E>,
    /// How many numbers were given out. The seat with number 0 alone knows it.
    pub made: u64,
}

/// The view of a seat: None once it was given back.
pub type View<E, C> = Option<Known<E, C>>;

/// What the table is told when it is made: how many actors there are, and the book at the start.
#[derive(Drop)]
pub struct Opening<B> {
    pub actors: u8,
    pub book: Snapshot<B>,
}

//! The kinds of step on a word of the table, each with what it tells its seat.
//!
//! The steps on the slot (take the book, give it back with one entry, give it back unchanged) are plain exchanges by the seat that holds the slot, and tell nothing.
ghost use Rattle.std.specs.Prelude.{None};
ghost use Rattle.fal_book.specs.Steps.{Draws, Sees, Passes, view_after_split, new_view, joint_view};

use crate::chronicle::Chronicle;
use crate::view::View;
use atomic_table::{Join, Play, Split};
use std::marker::PhantomData;

/// Draw a ticket.
pub(crate) struct DrawTicket<B>(PhantomData<B>);

impl<B: Chronicle> Play<Option<B>, View<B::Event, B::Setting>> for DrawTicket<B> {
    ghost then = { λ _. Draws B.entries B.setting B.actor_of };
}

/// See the turn.
pub(crate) struct SeeTurn<B>(PhantomData<B>);

impl<B: Chronicle> Play<Option<B>, View<B::Event, B::Setting>> for SeeTurn<B> {
    ghost then = { λ _. Sees B.entries B.setting B.actor_of };
}

/// Pass the turn.
pub(crate) struct PassTurn<B>(PhantomData<B>);

impl<B: Chronicle> Play<Option<B>, View<B::Event, B::Setting>> for PassTurn<B> {
    ghost then = { λ _. Passes B.entries B.setting B.actor_of };
}

/// Split a seat.
pub(crate) struct SplitSeat<B>(PhantomData<B>);

impl<B: Chronicle> Split<View<B::Event, B::Setting>> for SplitSeat<B> {
    ghost left = { view_after_split B.entries B.setting B.actor_of };

    ghost right = { new_view B.entries B.setting B.actor_of };
}

/// Join a seat.
pub(crate) struct JoinSeat<B>(PhantomData<B>);

impl<B: Chronicle> Join<View<B::Event, B::Setting>> for JoinSeat<B> {
    ghost both = { joint_view };

    ghost spent = { None };
}

//! The rule of the table.
use crate::chronicle::Chronicle;
use crate::view::{Opening, View};
use atomic_table::TableRule;
use std::marker::PhantomData;

/// What holds between any two steps of the table, and what its first seat knows.
pub struct BookRule<B> {
    book: PhantomData<B>,
}

impl<B: Chronicle> TableRule<Option<B>, View<B::Event, B::Setting>, Opening<B>> for BookRule<B> {
    ghost use Rattle.fal_book.specs.Rule.{IsKept};
    ghost use Rattle.fal_book.specs.Steps.{opening_view};
    ghost use Rattle.fal_book.specs.Entries.{IsSound};

    ghost holds = { IsKept B.entries B.setting B.actor_of (IsSound B.may_push) };

    ghost first = { opening_view B.entries B.setting B.actor_of };
}

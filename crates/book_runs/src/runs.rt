//! Whole runs, entered through the lock.
ghost use Rattle.std.specs.Prelude.{◌≡◌, All, IfOk};
ghost use Rattle.fal_story.specs.Clusters.{IsCluster};
ghost use Rattle.book_runs.specs.Posts.{IsAt};
ghost use Rattle.book_runs.specs.Whole.{AreAt};

use crate::posts::{Posts, post_all, seats_of, take};
use fal_base::{Config, Duplicate, Event, OutOfMemory, Refuse};
use fal_book::{ActorSeat, BookLock};
use fal_story::Book;
use std::alloc::Global;
use std::sync::Wait;

/// A seat for each number that an actor may have.
const SEATS: u8 = 33;

/// The lock of a new book, with all actors at their seats.
pub fn open(alloc: Global, config: Config) -> Result<(BookLock<Book>, Posts), OutOfMemory>
    requires { IsCluster config }
    ensures { IfOk result (λ opened. AreAt opened.0.table opened.1 × (opened.0.actors ≡ 33)) }
{
    let book = Book::new(alloc, config.copy()?);
    let (lock, seats) = BookLock::new(alloc, book, SEATS)?;
    let posts = post_all(alloc, &lock, &config, seats)?;
    Ok((lock, posts))
}

// Each of these events in turn is entered by its actor, after a look.
fn enter_each<R: Wait>(
    rt: &R,
    lock: &BookLock<Book>,
    posts: &mut Posts,
    events: &[Event],
) -> Result<(), Refuse>
    requires { AreAt lock.now.table posts.old }
    ensures { AreAt lock.now.table posts.new }
{
    for event in events {
        take(rt, lock, posts, *event)?;
    }
    Ok(())
}

// The seats after these events, each entered by its actor after a look.
fn seats_after<R: Wait>(
    rt: &R,
    lock: &BookLock<Book>,
    posts: Posts,
    events: &[Event],
) -> Result<Vec<ActorSeat<Book>>, Refuse>
    requires { AreAt lock.now.table posts }
    ensures { IfOk result (λ seats. All (IsAt lock.now.table) seats.items) }
{
    let mut posts = posts;
    if let Err(refuse) = enter_each(rt, lock, &mut posts, events) {
        posts.discard();
        return Err(refuse);
    }
    match seats_of(lock, posts) {
        Ok(seats) => Ok(seats),
        Err(OutOfMemory) => Err(Refuse::OutOfMemory),
    }
}

/// Each of these events in turn is entered by its actor, after a look, on this one thread. Gives the book that the lock was round.
pub fn enter_all<R: Wait>(
    rt: &R,
    alloc: Global,
    config: Config,
    events: &[Event],
) -> Result<Book, Refuse>
    requires { IsCluster config }
{
    let Ok((lock, posts)) = open(alloc, config) else {
        return Err(Refuse::OutOfMemory);
    };
    let seats = seats_after(rt, &lock, posts, events)?;
    if seats.len() != usize::from(SEATS) {
        return Err(Refuse::NotEnabled);
    }
    Ok(lock.close_with(seats))
}

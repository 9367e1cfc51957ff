ghost use Rattle.fal_base.specs.Places.{AreOlder};
ghost use Rattle.fal_story.specs.Run.{transcript};

use fal_story::Book;

/// A client of a run is told that its table is stale only where that is older than the changes made so far, and the older version is the one
/// that it was last told. No client is stale yet.
pub fn stale_is_older(book: &Book)
    ensures { AreOlder (transcript book.now.told.config book.now.told.events) }
{
    book.legal();
}

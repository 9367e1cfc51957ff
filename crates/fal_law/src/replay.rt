ghost use Rattle.fal_story.specs.Replay.{IsReplayed};

use fal_story::Book;

/// Each actor of a run is the replay of its own events alone, with the envelopes that were sent.
pub fn replayed(book: &Book)
    ensures { IsReplayed book.now.told.config book.now.told.events }
{
    book.legal();
}

ghost use Rattle.fal_base.specs.Listing.{AreListings};
ghost use Rattle.fal_story.specs.Run.{transcript};

use fal_story::Book;

/// A call of a run that is answered with names is a list, and its directory was opened at one point of the commits, after it was sent: the
/// names rise, each name that stood in the directory from that point until the answer's is among them, and none that never stood there.
pub fn listings(book: &Book)
    ensures { AreListings book.now.told.config (transcript book.now.told.config book.now.told.events) }
{
    book.legal();
}

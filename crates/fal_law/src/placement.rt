ghost use Rattle.fal_base.specs.Places.{ArePlaced};
ghost use Rattle.fal_story.specs.Run.{transcript};

use fal_story::Book;

/// The changes of placement in a run count from 1, each found room for its name, and each call that asks for one is answered by what was placed
/// before. No placement is changed yet.
pub fn places(book: &Book)
    ensures { ArePlaced book.now.told.config (transcript book.now.told.config book.now.told.events) }
{
    book.legal();
}

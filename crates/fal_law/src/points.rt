ghost use Rattle.fal_base.specs.History.{IsLegalHistory};
ghost use Rattle.fal_base.specs.Linear.{IsLinear};
ghost use Rattle.fal_story.specs.Run.{transcript};

use fal_story::Book;

/// The commits of a run are legal, and each call is answered as the plain tree answers at one point of the commits, between its sending and its
/// answering. So the calls have one sequential order, which keeps every order that was recorded between them, and in which one plain tree gives
/// each call its reply.
pub fn linear(book: &Book)
    ensures linear { IsLinear book.now.told.config (transcript book.now.told.config book.now.told.events) }
    ensures history { IsLegalHistory book.now.told.config (transcript book.now.told.config book.now.told.events) }
{
    book.legal();
}

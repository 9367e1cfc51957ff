ghost use Rattle.fal_base.specs.EachOnce.{AreOneByOne, IsEachOnce};
ghost use Rattle.fal_story.specs.Run.{transcript};

use fal_story::Book;

/// Each call of a run is sent in its lane's order and answered at most once, before the lane's next one is sent; what else is recorded of it
/// stands between the two, and it has one commit at most. A lane sends its next call only after its last one was answered.
pub fn each_once(book: &Book)
    ensures each { IsEachOnce book.now.told.config (transcript book.now.told.config book.now.told.events) }
    ensures one_by_one { AreOneByOne (transcript book.now.told.config book.now.told.events) }
{
    book.legal();
}

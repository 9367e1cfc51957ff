ghost use Rattle.std.specs.Prelude.{◌≡◌, IfOk};
ghost use Rattle.fal_story.specs.Fresh.{IsQuietAt, came};
ghost use Rattle.fal_alone.specs.Turns.{world_of};
ghost use Rattle.falcon_run.specs.Recorded.{run_text as run_text_of};

use fal_alone::Cluster;
use fal_base::OutOfMemory;
use fal_report::text_of;
use std::alloc::Global;

/// The text of a quiet cluster's run: its entries, line by line, and the tree that its commits leave. Answers want of memory where there is too little.
#[tactic(auto, unfolding(crate::specs::Recorded::run_text))]
pub fn run_text(alloc: Global, cluster: &Cluster) -> Result<Vec<u8>, OutOfMemory>
    requires { IsQuietAt cluster.now.config (world_of cluster.now) (came cluster.now.events) }
    ensures { IfOk result (λ text. text.items ≡ run_text_of cluster.now.config cluster.now.events) }
{
    let book = cluster.book();
    let lines = cluster.lines()?;
    text_of(alloc, book.config(), book.entries(), &lines)
}

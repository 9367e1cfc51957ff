//! The law of a quiet cluster.

ghost use Rattle.std.specs.Prelude.{◌≡◌, Some};
ghost use Rattle.fal_story.specs.AllRows.{AreOnce, tree_left};
ghost use Rattle.fal_story.specs.Fresh.{IsQuiet, came};
ghost use Rattle.fal_story.specs.World.{World};
ghost use Rattle.fal_alone.specs.NodeRows.{rows_in};
ghost use Rattle.fal_alone.specs.Turns.{world_of};

use crate::cluster::Cluster;

/// In a quiet cluster the rows of the nodes, each key once, are the tree that the commits leave.
pub fn quiet_is_tree(cluster: &Cluster)
    ensures once { (w : World) → world_of cluster.now ≡ Some w → IsQuiet cluster.now.config w (came cluster.now.events) → AreOnce w }
    ensures tree { (w : World) → world_of cluster.now ≡ Some w → IsQuiet cluster.now.config w (came cluster.now.events) → rows_in cluster.now.config w ≡ tree_left cluster.now.config cluster.now.events }
{
    cluster.book.legal();
}

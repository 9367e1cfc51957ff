// Calls, one after another.
ghost use Rattle.std.specs.Prelude.{◌≡◌, ◌+◌, ◌<◌, ◌==◌, if◌then◌else◌, ℕ, OnOk, [], length};
ghost use Rattle.fal_alone.specs.Turns.{world_of};
ghost use Rattle.fal_story.specs.Clusters.{calls_of_lane};
ghost use Rattle.fal_story.specs.Fresh.{AreAnswered, IsQuietAt, came};
ghost use Rattle.fal_story.specs.Run.{transcript};
ghost use Rattle.falcon_run.specs.Recorded.{IsRecorded};
ghost use Rattle.fal_story.specs.Sending.{calls_sent};
ghost use Rattle.falcon_run.specs.Serving.{AreServed, HasCallsFor, IsServedAlone};

use fal_alone::Cluster;
use fal_base::{Event, OutOfMemory, Refuse};
use fal_law::{each_once, linear, listings, places, stale_is_older};
use fal_story::{answered_lanes_send, sends_are_recorded};

// Sends the next call of a lane where each call before is answered, and leaves the cluster alone until it is quiet.
fn serve_call(cluster: &mut Cluster, lane: u8) -> Result<(), OutOfMemory>
    requires answered { AreAnswered (transcript cluster.old.config cluster.old.events) }
    requires left { calls_sent lane cluster.old.events < length (calls_of_lane cluster.old.config lane) }
    ensures config { cluster.new.config ≡ cluster.old.config }
    ensures served { OnOk result (IsServedAlone cluster.old.config lane cluster.old.events cluster.new.events) }
    ensures sent { OnOk result ((other : ℕ) → calls_sent other cluster.new.events ≡ calls_sent other cluster.old.events + (if lane == other then 1 else 0)) }
    ensures quiet { OnOk result (IsQuietAt cluster.new.config (world_of cluster.new) (came cluster.new.events)) }
    ensures answered { OnOk result (AreAnswered (transcript cluster.new.config cluster.new.events)) }
{
    cluster.book().legal();
    answered_lanes_send();
    sends_are_recorded();
    match cluster.step(Event::Send { lane }) {
        Ok(()) => cluster.drain(),
        Err(Refuse::OutOfMemory) => Err(OutOfMemory),
        Err(Refuse::NotEnabled) => unreachable!(),
    }
}

// Does a call of each of these lanes in their order, on a cluster that has these calls and no others.
fn serve_calls(cluster: &mut Cluster, lanes: &[u8]) -> Result<(), OutOfMemory>
    requires none { cluster.old.events ≡ [] }
    requires calls { HasCallsFor cluster.old.config lanes.now }
    ensures config { cluster.new.config ≡ cluster.old.config }
    ensures served { OnOk result (AreServed cluster.new.config lanes.now cluster.new.events) }
{
    for lane in lanes {
        serve_call(cluster, *lane)?;
    }
    Ok(())
}

/// Does a call of each of these lanes in their order, each alone: the lane sends it, and then the cluster is left alone until it is quiet.
/// Answers want of memory where there is too little; then the cluster's run is a legal one, but not whole.
pub fn serve(cluster: &mut Cluster, lanes: &[u8]) -> Result<(), OutOfMemory>
    requires none { cluster.old.events ≡ [] }
    requires calls { HasCallsFor cluster.old.config lanes.now }
    ensures config { cluster.new.config ≡ cluster.old.config }
    ensures recorded { OnOk result (IsRecorded cluster.new.config lanes.now cluster.new.events) }
{
    serve_calls(cluster, lanes)?;
    let book = cluster.book();
    book.legal();
    sends_are_recorded();
    each_once(book);
    linear(book);
    listings(book);
    stale_is_older(book);
    places(book);
    Ok(())
}

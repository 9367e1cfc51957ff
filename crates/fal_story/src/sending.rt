ghost use Rattle.std.specs.Prelude.{List, ℕ, ◌≡◌, ◌<◌, length};
ghost use Rattle.fal_base.specs.Transcript.{sents};
ghost use Rattle.fal_base.specs.declared.call.Config.{Config};
ghost use Rattle.fal_base.specs.declared.event.Event.{Event};
ghost use Rattle.fal_base.specs.declared.event.Event.TheVariants.{Send};
ghost use Rattle.fal_story.specs.Clusters.{calls_of_lane};
ghost use Rattle.fal_story.specs.Fresh.{AreAnswered, IsDrained};
ghost use Rattle.fal_story.specs.Run.{IsEnabled, IsLegal, transcript};
ghost use Rattle.fal_story.specs.Sending.{calls_sent};

/// A legal run records as many calls of a lane as sent as it has Sends of the lane, and a drain sends no call.
pub fn sends_are_recorded()
    ensures recorded { (config : Config) (events : List Event) (lane : ℕ) → IsLegal config events → sents lane (transcript config events) ≡ calls_sent lane events }
    ensures drained { (config : Config) (events more : List Event) (lane : ℕ) → IsDrained config events more → calls_sent lane more ≡ 0 }
{}

/// Where each call that a legal run has sent is answered, a lane that has a call left may send it.
pub fn answered_lanes_send()
    ensures { (config : Config) (events : List Event) (lane : ℕ) → IsLegal config events → AreAnswered (transcript config events) → calls_sent lane events < length (calls_of_lane config lane) → IsEnabled config events (Send lane) }
{}

ghost use Rattle.std.specs.Prelude.{List, ◌≡◌, ◌↔◌, [], ◌++◌};
ghost use Rattle.fal_base.specs.declared.call.Config.{Config};
ghost use Rattle.fal_base.specs.declared.event.Event.{Event};
ghost use Rattle.fal_base.specs.declared.event.Outputs.{Outputs};
ghost use Rattle.fal_book.specs.Entries.{IsSound, entries_of};
ghost use Rattle.fal_story.specs.Actors.{actor_number};
ghost use Rattle.fal_story.specs.Clusters.{IsCluster};
ghost use Rattle.fal_story.specs.Pushing.{MayPush, all_sent, sent_by};
ghost use Rattle.fal_story.specs.Run.{Follows, IsLegal, commits_at, envelopes_at, run};

/// What may be pushed after a list of events may be pushed after every longer list in which its actor has no further event.
pub fn pushes_last()
    ensures { (config : Config) (before more : List Event) (event : Event) (outputs : Outputs) → MayPush config before event outputs → entries_of actor_number (actor_number event) more ≡ [] → MayPush config (before ++ more) event outputs }
{}

/// The legal runs of a cluster are the lists of fewer than 2^63 events that may be pushed one after another. What may be pushed after a legal run
/// is what is enabled there, with the records and notes that it makes, and what such a list sent and committed is what its run has.
pub fn pushes_are_legal()
    ensures runs { (config : Config) (events : List Event) → IsCluster config → IsSound MayPush config events ↔ IsLegal config events }
    ensures next { (config : Config) (events : List Event) (event : Event) (outputs : Outputs) → IsLegal config events → MayPush config events event outputs ↔ Follows config events event outputs.sent outputs.notes }
    ensures sent { (config : Config) (events : List Event) → IsLegal config events → all_sent config events ≡ envelopes_at (run config events) }
    ensures commits { (config : Config) (events : List Event) → IsLegal config events → (sent_by config events).commits ≡ commits_at (run config events) }
{}

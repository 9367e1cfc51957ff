ghost use Rattle.std.specs.Prelude.{◌≡◌, ◌∷◌, ◌++◌, [], ◌<◌, ◌^◌, OnOk, OnErr, IfOk, length};
ghost use Rattle.fal_story.specs.Actors.{actor_of as actor_told};
ghost use Rattle.fal_story.specs.Clusters.{IsCluster};
ghost use Rattle.fal_story.specs.Rooms.{HasBookRoom};
ghost use Rattle.fal_story.specs.Run.{Follows, IsLegal, commits_at, envelopes_at, run, transcript};
ghost use Rattle.fal_story.specs.Told.{Told};

use crate::post::{add_entries, add_envelopes, commits_in};
use crate::told::Run;
use fal_base::{Actor, Config, Duplicate, Entry, Envelope, Event, Items, OutOfMemory, Outputs};
use std::alloc::Global;
use std::marker::Model;

/// A book has fewer events, and its run fewer commits, than this.
const LIMIT: u64 = 1 << 63;

/// A legal run of a cluster: its events so far, with the envelopes and the entries that they make.
#[derive(Debug, Drop)]
pub struct Book {
    alloc: Global,
    config: Config,
    events: Vec<Event>,
    sent: Vec<Envelope>,
    entries: Vec<Entry>,
    commits: u64,
}

impl Model for Book {
    ghost use Rattle.std.specs.Prelude.{◌-◌, length, vec_capacity};
    ghost use Rattle.fal_story.specs.Told.{SeenBook, IsBook};

    ghost Value = { SeenBook };

    ghost view = { λ b. record {
      told = record { config = b.config; events = b.events.items };
      room = record {
        events = vec_capacity b.events - length b.events.items;
        sent = vec_capacity b.sent - length b.sent.items;
        entries = vec_capacity b.entries - length b.entries.items;
      };
    } };

    ghost invariant = { λ b. IsBook b.config b.events.items b.sent.items b.entries.items b.commits };
}

// Who makes the event.
pub(crate) fn actor_of(event: Event) -> Actor
    ensures { result ≡ actor_told event }
{
    match event {
        Event::Send { lane } | Event::Get { lane, .. } => Actor::Client(lane),
        Event::Deliver { node, .. } | Event::Gather { node } | Event::Exec { node, .. } => {
            Actor::Node(node)
        }
        Event::Release { node, .. } | Event::Serve { node, .. } => Actor::Node(node),
        Event::Hear { .. } | Event::Start => Actor::Coord,
    }
}

// The same entries once more.
fn copies(alloc: Global, entries: &[Entry]) -> Result<Vec<Entry>, OutOfMemory>
    ensures { IfOk result (λ copied. copied.items ≡ entries.now) }
{
    let mut copied = Vec::new(alloc);
    for entry in entries {
        copied.push(entry.copy()?)?;
    }
    Ok(copied)
}

impl Book {
    /// The book of a cluster before its first event. Takes no memory.
    pub fn new(alloc: Global, config: Config) -> Book
        requires { IsCluster config }
        ensures { result.told ≡ record { config = config; events = [] } }
    {
        Book {
            alloc,
            config,
            events: Vec::new(alloc),
            sent: Vec::new(alloc),
            entries: Vec::new(alloc),
            commits: 0,
        }
    }

    /// That its events are a legal run of its cluster, which holds of every book.
    pub fn legal(&self)
        ensures { IsLegal self.now.told.config self.now.told.events }
    {
        let _ = &self.events;
    }

    /// The cluster.
    pub fn config(&self) -> &Config
        ensures { result.now ≡ self.now.told.config }
    {
        &self.config
    }

    /// The events, in their order.
    pub fn events(&self) -> &[Event]
        ensures { result.now ≡ self.now.told.events }
    {
        self.events.as_slice()
    }

    /// The envelopes that were sent, by their numbers.
    pub fn sent(&self) -> &[Envelope]
        ensures { result.now ≡ envelopes_at (run self.now.told.config self.now.told.events) }
    {
        self.sent.as_slice()
    }

    /// How many commits were made.
    pub fn commits(&self) -> u64
        ensures { result ≡ commits_at (run self.now.told.config self.now.told.events) }
    {
        self.commits
    }

    /// What the run records, in its order. Takes no memory.
    pub fn entries(&self) -> &[Entry]
        ensures { result.now ≡ transcript self.now.told.config self.now.told.events }
    {
        self.entries.as_slice()
    }

    /// A copy of what the run records, or want of memory.
    pub fn transcript(&self) -> Result<Vec<Entry>, OutOfMemory>
        ensures { IfOk result (λ entries. entries.items ≡ transcript self.now.told.config self.now.told.events) }
    {
        copies(self.alloc, self.entries.as_slice())
    }

    /// One more event, which is enabled after this run, with the records and notes that it makes. Gives the event's number, from 0. Want of
    /// memory leaves the book as it was; a book of 2^63 - 1 events answers it to every further event.
    pub fn step(&mut self, event: Event, outputs: Outputs) -> Result<u64, OutOfMemory>
        requires { Follows self.old.told.config self.old.told.events event outputs.sent outputs.notes }
        ensures number { IfOk result (λ number. number ≡ length self.old.told.events) }
        ensures ok { OnOk result (self.new.told ≡ record self.old.told { events = self.old.told.events ++ event ∷ [] }) }
        ensures err { OnErr result (self.new.told ≡ self.old.told) }
    {
        self.make_room(&outputs)?;
        let number = self.events.len() as u64;
        self.put(event, outputs);
        Ok(number)
    }

    // Makes room for one more event with these outputs, or answers want of memory.
    pub(crate) fn make_room(&mut self, outputs: &Outputs) -> Result<(), OutOfMemory>
        ensures same { self.new.told ≡ self.old.told }
        ensures room { OnOk result (HasBookRoom self.new outputs.now) }
    {
        let made = commits_in(outputs.notes.as_slice());
        if self.events.len() as u64 >= LIMIT - 1 || made >= LIMIT - self.commits {
            return Err(OutOfMemory);
        }
        self.events.reserve(1)?;
        self.sent.reserve(outputs.sent.len())?;
        self.entries.reserve(outputs.notes.len())?;
        Ok(())
    }

    // One more event, which is enabled after this run, with the records and notes that it makes. There is room for it.
    pub(crate) fn put(&mut self, event: Event, outputs: Outputs)
        requires follows { Follows self.old.told.config self.old.told.events event outputs.sent outputs.notes }
        requires room { HasBookRoom self.old outputs }
        ensures { self.new.told ≡ record self.old.told { events = self.old.told.events ++ event ∷ [] } }
    {
        let number = self.events.len() as u64;
        let commits = self.commits;
        let Outputs { sent, notes } = outputs;
        let made = commits_in(notes.as_slice());
        add_envelopes(&mut self.sent, actor_of(event), number, commits, sent);
        add_entries(&mut self.entries, commits, notes);
        self.events.push_reserved(event);
        self.commits = commits + made;
    }

    /// Hands the run over.
    pub fn into_run(self) -> Run
        ensures config { result.config ≡ self.told.config }
        ensures events { result.events ≡ self.told.events }
    {
        let Book { config, events, .. } = self;
        Run {
            config,
            events: Items::from_items(events),
        }
    }
}

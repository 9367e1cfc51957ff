//! A value whose entries each name an actor.
ghost use Rattle.std.specs.Prelude.{◌≡◌, ℕ, ◌+◌, ◌<◌, ◌^◌, List, [], ◌∷◌, ◌++◌, length, OnOk, OnErr};
ghost use Rattle.fal_book.specs.Entries.{entries_of, IsSound};

use fal_base::OutOfMemory;

/// A value whose entries each name an actor by a number.
///
/// It is its list of entries, a setting that no call changes, and some room. A list is legal under a setting where each entry could be pushed after those before it.
pub trait Chronicle {
    /// An entry.
    type Event: Drop;
    /// What an event sends out. It is given with the event, and whether an event may be pushed is said of the two together.
    type Outputs: Drop;
    /// What an actor takes in of the entries.
    type Inbox;
    /// What no call changes. No value of this type is made here: it exists in proofs alone.
    type Setting;

    // The entries so far.
    ghost entries: { Self → List Self.Event };

    // What no call changes.
    ghost setting: { Self → Self.Setting };

    // The number of the actor that an event names.
    ghost actor_of: { Self.Event → ℕ };

    // Under this setting the event may be pushed, with these outputs, after this list.
    ghost may_push: { Self.Setting → List Self.Event → Self.Event → Self.Outputs → Type 0 };

    // There is room for one event with these outputs.
    ghost has_room: { Self → Self.Outputs → Type 0 };

    // What the inbox is told: a relation of the setting, the list, the actor, the number of the entry from which on it is told, the inbox before and the inbox after.
    ghost inbox_gives: { Self.Setting → List Self.Event → ℕ → ℕ → Self.Inbox → Self.Inbox → Type 0 };

    /// The number of the event's actor.
    fn actor(event: &Self::Event) -> u8
        ensures { result ≡ actor_of event.now };

    /// Makes room for one event with these outputs, or answers want of memory. Changes no entry.
    fn reserve(&mut self, outputs: &Self::Outputs) -> Result<(), OutOfMemory>
        ensures same { (entries self.new ≡ entries self.old) × (setting self.new ≡ setting self.old) }
        ensures room { OnOk result (has_room self.new outputs.now) };

    /// How many entries there are. Takes no memory.
    fn len(&self) -> u64
        ensures count { result ≡ length (entries self.now) }
        ensures sound { IsSound may_push (setting self.now) (entries self.now) };

    /// Puts the event at the end, with its outputs. Takes no memory, and changes nothing else but room.
    fn push(&mut self, event: Self::Event, outputs: Self::Outputs)
        requires may { may_push (setting self.old) (entries self.old) event outputs }
        requires room { has_room self.old outputs }
        ensures entry { entries self.new ≡ entries self.old ++ event ∷ [] }
        ensures setting { setting self.new ≡ setting self.old };

    /// Adds to the inbox what the entries from this number on sent to this actor, or answers want of memory and leaves the inbox as it was, except for room.
    fn inbox(&self, actor: u8, from: u64, into: &mut Self::Inbox) -> Result<(), OutOfMemory>
        ensures ok { OnOk result (inbox_gives (setting self.now) (entries self.now) actor from into.old into.new) }
        ensures err { OnErr result (into.new ≡ into.old) };

    // What may be pushed after a list may be pushed after every longer list in which its actor has no further entry.
    ghost lasts: { (c : Self.Setting) (xs ys : List Self.Event) (e : Self.Event) (o : Self.Outputs) → may_push c xs e o → entries_of actor_of (actor_of e) ys ≡ [] → may_push c (xs ++ ys) e o };

    // Where there is room for an event, the list stays shorter than 2^63 with it.
    ghost roomy: { (x : Self) (o : Self.Outputs) → has_room x o → length (entries x) + 1 < 2 ^ 63 };
}

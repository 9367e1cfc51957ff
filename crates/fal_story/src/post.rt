ghost use Rattle.std.specs.Prelude.{◌≡◌, ◌+◌, ◌<◌, ◌≤◌, ◌^◌, ◌++◌, length, count_by, vec_len, vec_capacity};
ghost use Rattle.fal_story.specs.Rooms.{is_commit_note};
ghost use Rattle.fal_story.specs.World.{point_of, envelope_of, envelopes_of, entry_of, entries_of};

use fal_base::{Actor, Entry, Envelope, Note, NoteList, Output, OutputList, Point};

// The point of the commits, for an event that begins after so many of them.
fn point_at(commits: u64, point: Point) -> u64
    requires { commits < 2 ^ 63 }
    ensures { result ≡ point_of commits point }
{
    match point {
        Point::Here(more) => commits + u64::from(more),
        Point::Carried(point) => point,
    }
}

fn envelope(from: Actor, event: u64, commits: u64, output: Output) -> Envelope
    requires { commits < 2 ^ 63 }
    ensures { result ≡ envelope_of from event commits output }
{
    let Output { to, point, bytes } = output;
    Envelope {
        from,
        to,
        sent_at: event,
        point: point_at(commits, point),
        bytes,
    }
}

// Puts the records of an event on their way, in their order, after what was sent before. There is room for them.
pub(crate) fn add_envelopes(
    sent: &mut Vec<Envelope>,
    from: Actor,
    event: u64,
    commits: u64,
    outputs: OutputList,
)
    requires few { commits < 2 ^ 63 }
    requires room { vec_len sent.old + length outputs ≤ vec_capacity sent.old }
    ensures { sent.new.items ≡ sent.old.items ++ envelopes_of from event commits outputs }
{
    for output in outputs.into_items() {
        sent.push_reserved(envelope(from, event, commits, output));
    }
}

fn entry(commits: u64, note: Note) -> Entry
    requires { commits < 2 ^ 63 }
    ensures { result ≡ entry_of commits note }
{
    match note {
        Note::Sent { lane, seq } => Entry::Sent { lane, seq },
        Note::Commit { lane, seq, ino } => Entry::Commit { lane, seq, ino },
        Note::Opened {
            lane,
            seq,
            ino,
            point,
        } => Entry::Opened {
            lane,
            seq,
            ino,
            point: point_at(commits, point),
        },
        Note::Placed { lane, seq, version } => Entry::Placed { lane, seq, version },
        Note::Stale {
            lane,
            seq,
            old,
            new,
        } => Entry::Stale {
            lane,
            seq,
            old,
            new,
        },
        Note::Answered {
            lane,
            seq,
            point,
            reply,
        } => Entry::Answered {
            lane,
            seq,
            point: point_at(commits, point),
            reply,
        },
    }
}

// Adds what an event tells to the transcript, with its points resolved. There is room for it.
pub(crate) fn add_entries(entries: &mut Vec<Entry>, commits: u64, notes: NoteList)
    requires few { commits < 2 ^ 63 }
    requires room { vec_len entries.old + length notes ≤ vec_capacity entries.old }
    ensures { entries.new.items ≡ entries.old.items ++ entries_of commits notes }
{
    for note in notes.into_items() {
        entries.push_reserved(entry(commits, note));
    }
}

fn is_commit(note: &Note) -> bool
    ensures { result ≡ is_commit_note note.now }
{
    matches!(note, Note::Commit { .. })
}

// How many of the notes are commits.
pub(crate) fn commits_in(notes: &[Note]) -> u64
    ensures { result ≡ count_by is_commit_note notes.now }
{
    let mut count = 0;
    for note in notes {
        if is_commit(note) {
            count += 1;
        }
    }
    count
}

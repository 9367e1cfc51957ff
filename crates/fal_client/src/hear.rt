//! Hearing what came, by its kind.

ghost use Rattle.std.specs.Prelude.{◌≡◌, Some, IfOk};
ghost use Rattle.fal_client.specs.Step.{IsInRange, answered, replied, retried, told_stale, opened, told_opened, kept, listed, told_part, is_about as is_about_of, dir_of as dir_of_listing, news_told, heard_by, heard};
ghost use Rattle.fal_client.specs.State.{unchanged};
ghost use Rattle.fal_place.specs.Placement.{AllWithin};
ghost use Rattle.fal_client.specs.Patch.{IsStep};

use crate::asks::ask_outputs;
use crate::client::Client;
use crate::current::{Current, Listing};
use crate::list::all_names;
use crate::news::News;
use crate::parts::{Part, Parts};
use crate::patch::{Patch, Prepared};
use fal_base::{
    CallId, Duplicate, NameList, Note, NoteList, OutOfMemory, OutputList, Point, Reply,
};
use fal_wire::ChangeList;

// Nothing changes.
#[tactic(auto, unfolding(crate::specs::Patch::patched))]
pub fn nothing(client: &Client) -> Prepared
    ensures { IsStep client.now (unchanged client.now) result }
{
    let alloc = client.alloc;
    Prepared::new(
        alloc,
        Patch::Keep,
        OutputList::new(alloc),
        NoteList::new(alloc),
    )
}

// The current call is answered.
#[tactic(auto, unfolding(crate::specs::Step::answered, crate::specs::Patch::patched))]
fn answer(client: &Client, point: u64, reply: Reply) -> Result<Prepared, OutOfMemory>
    ensures { IfOk result (λ p. IsStep client.now (answered client.now point reply) p) }
{
    let alloc = client.alloc;
    let mut notes = NoteList::new(alloc);
    notes.push(Note::Answered {
        lane: client.lane,
        seq: client.seq,
        point: Point::Carried(point),
        reply,
    })?;
    Ok(Prepared::new(alloc, Patch::Finish, OutputList::new(alloc), notes))
}

#[tactic(auto, unfolding(crate::specs::Step::replied))]
fn hear_reply(
    client: &Client,
    current: &Current,
    point: u64,
    reply: Reply,
) -> Result<Prepared, OutOfMemory>
    ensures { IfOk result (λ p. IsStep client.now (replied client.now point reply current.now.listing) p) }
{
    match &current.listing {
        None => {
            let prepared = answer(client, point, reply)?;
            Ok(prepared)
        }
        Some(_) => Ok(nothing(client)),
    }
}

// The directory of a listing under way.
fn dir_of(listing: &Option<Listing>) -> Option<u64>
    ensures { result ≡ dir_of_listing listing.now }
{
    match listing {
        None => None,
        Some(listing) => Some(listing.dir),
    }
}

// A later table: the call, or each part of its listing, is asked for anew.
#[tactic(auto, unfolding(crate::specs::Step::retried, crate::specs::Patch::patched))]
fn retry(
    client: &Client,
    current: &Current,
    old: u32,
    new: u32,
    changes: &ChangeList,
) -> Result<Prepared, OutOfMemory>
    requires current { client.now.current ≡ Some current.now }
    requires within { AllWithin client.now.table.nodes changes.now }
    requires range { IsInRange (retried client.now current.now old new changes.now) }
    ensures { IfOk result (λ p. IsStep client.now (retried client.now current.now old new changes.now) p) }
{
    let alloc = client.alloc;
    let attempt = current.attempt + 1;
    let id = CallId {
        client: client.lane,
        seq: client.seq,
        attempt,
        hop: 0,
    };
    let mut table = client.table.copy()?;
    table.take_changes(new, changes.as_slice())?;
    let sent = ask_outputs(
        alloc,
        id,
        &table,
        client.nodes,
        &current.call,
        dir_of(&current.listing),
    )?;
    let mut notes = NoteList::new(alloc);
    notes.push(Note::Stale {
        lane: client.lane,
        seq: client.seq,
        old,
        new,
    })?;
    let parts = Parts::none(alloc, client.nodes)?;
    let patch = Patch::Retry {
        attempt,
        table,
        parts,
    };
    Ok(Prepared::new(alloc, patch, sent, notes))
}

#[tactic(auto, unfolding(crate::specs::Step::told_stale))]
fn hear_stale(
    client: &Client,
    current: &Current,
    old: u32,
    new: u32,
    changes: &ChangeList,
) -> Result<Prepared, OutOfMemory>
    requires current { client.now.current ≡ Some current.now }
    requires range { IsInRange (told_stale client.now current.now old new changes.now) }
    ensures { IfOk result (λ p. IsStep client.now (told_stale client.now current.now old new changes.now) p) }
{
    if client.table.fits_all(changes.as_slice()) {
        let prepared = retry(client, current, old, new, changes)?;
        return Ok(prepared);
    }
    Ok(nothing(client))
}

// The directory is known: each node is asked for its part.
#[tactic(auto, unfolding(crate::specs::Step::opened, crate::specs::Patch::patched))]
fn open(client: &Client, current: &Current, dir: u64, point: u64) -> Result<Prepared, OutOfMemory>
    requires current { client.now.current ≡ Some current.now }
    requires range { IsInRange (opened client.now current.now dir point) }
    ensures { IfOk result (λ p. IsStep client.now (opened client.now current.now dir point) p) }
{
    let alloc = client.alloc;
    let id = CallId {
        client: client.lane,
        seq: client.seq,
        attempt: current.attempt,
        hop: 0,
    };
    let sent = ask_outputs(
        alloc,
        id,
        &client.table,
        client.nodes,
        &current.call,
        Some(dir),
    )?;
    let mut notes = NoteList::new(alloc);
    notes.push(Note::Opened {
        lane: client.lane,
        seq: client.seq,
        ino: dir,
        point: Point::Carried(point),
    })?;
    let listing = Listing {
        dir,
        opened: point,
        parts: Parts::none(alloc, client.nodes)?,
    };
    Ok(Prepared::new(alloc, Patch::Open { listing }, sent, notes))
}

#[tactic(auto, unfolding(crate::specs::Step::told_opened))]
fn hear_opened(
    client: &Client,
    current: &Current,
    dir: u64,
    point: u64,
) -> Result<Prepared, OutOfMemory>
    requires current { client.now.current ≡ Some current.now }
    requires range { IsInRange (told_opened client.now current.now dir point current.now.listing) }
    ensures { IfOk result (λ p. IsStep client.now (told_opened client.now current.now dir point current.now.listing) p) }
{
    match &current.listing {
        None => {
            let prepared = open(client, current, dir, point)?;
            Ok(prepared)
        }
        Some(_) => Ok(nothing(client)),
    }
}

// A node's part is kept.
#[tactic(auto, unfolding(crate::specs::Step::kept, crate::specs::Patch::patched))]
fn keep(client: &Client, current: &Current, node: u8, part: Part) -> Prepared
    requires { client.now.current ≡ Some current.now }
    ensures { IsStep client.now (kept client.now current.now node part) result }
{
    let alloc = client.alloc;
    let _ = current;
    Prepared::new(
        alloc,
        Patch::Join { node, part },
        OutputList::new(alloc),
        NoteList::new(alloc),
    )
}

// With the last part the call is answered.
#[tactic(auto, unfolding(crate::specs::Step::listed))]
fn finish(client: &Client, listing: &Listing, part: Part) -> Result<Prepared, OutOfMemory>
    ensures { IfOk result (λ p. IsStep client.now (listed client.now listing.now part) p) }
{
    let Part { point, names } = part;
    let point = listing.parts.greatest_point(point);
    let names = all_names(names, &listing.parts)?;
    let prepared = answer(client, point, Reply::Names(names))?;
    Ok(prepared)
}

#[tactic(auto, unfolding(crate::specs::Step::told_part))]
fn hear_part(
    client: &Client,
    current: &Current,
    node: u8,
    part: Part,
) -> Result<Prepared, OutOfMemory>
    requires { client.now.current ≡ Some current.now }
    ensures { IfOk result (λ p. IsStep client.now (told_part client.now current.now node part current.now.listing) p) }
{
    let Some(listing) = &current.listing else {
        return Ok(nothing(client));
    };
    if !listing.parts.is_missing(node) {
        return Ok(nothing(client));
    }
    if listing.parts.missing_count() != 1 {
        return Ok(keep(client, current, node, part));
    }
    let prepared = finish(client, listing, part)?;
    Ok(prepared)
}

// Whether a record is about the current call and its attempt.
fn is_about(client: &Client, current: &Current, id: CallId) -> bool
    ensures { result ≡ is_about_of client.now current.now id }
{
    id.seq == client.seq && id.attempt == current.attempt
}

// What a record about the current attempt changes.
#[tactic(auto, unfolding(crate::specs::Step::news_told))]
fn tell(client: &Client, current: &Current, point: u64, news: News) -> Result<Prepared, OutOfMemory>
    requires current { client.now.current ≡ Some current.now }
    requires range { IsInRange (news_told client.now current.now point news) }
    ensures { IfOk result (λ p. IsStep client.now (news_told client.now current.now point news) p) }
{
    match news {
        News::Replied { reply } => {
            let prepared = hear_reply(client, current, point, reply)?;
            Ok(prepared)
        }
        News::Stale { old, new, changes } => {
            let prepared = hear_stale(client, current, old, new, &changes)?;
            Ok(prepared)
        }
        News::Opened { dir } => {
            let prepared = hear_opened(client, current, dir, point)?;
            Ok(prepared)
        }
        News::Part { node, names } => {
            let prepared = hear_part(client, current, node, Part { point, names })?;
            Ok(prepared)
        }
    }
}

// What came while a call is under way.
#[tactic(auto, unfolding(crate::specs::Step::heard_by))]
fn hear_by(
    client: &Client,
    current: &Current,
    point: u64,
    news: Option<(CallId, News)>,
) -> Result<Prepared, OutOfMemory>
    requires current { client.now.current ≡ Some current.now }
    requires range { IsInRange (heard_by client.now current.now point news) }
    ensures { IfOk result (λ p. IsStep client.now (heard_by client.now current.now point news) p) }
{
    let Some((id, news)) = news else {
        return Ok(nothing(client));
    };
    if !is_about(client, current, id) {
        return Ok(nothing(client));
    }
    let prepared = tell(client, current, point, news)?;
    Ok(prepared)
}

// What came, which changes nothing where no call is under way.
#[tactic(auto, unfolding(crate::specs::Step::heard))]
pub fn hear(
    client: &Client,
    point: u64,
    news: Option<(CallId, News)>,
) -> Result<Prepared, OutOfMemory>
    requires { IsInRange (heard client.now point news client.now.current) }
    ensures { IfOk result (λ p. IsStep client.now (heard client.now point news client.now.current) p) }
{
    let Some(current) = &client.current else {
        return Ok(nothing(client));
    };
    let prepared = hear_by(client, current, point, news)?;
    Ok(prepared)
}

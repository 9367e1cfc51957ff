ghost use Rattle.std.specs.Prelude.{◌≡◌, Some};
ghost use Rattle.fal_base.specs.Tree.{key_of};
ghost use Rattle.fal_batch.specs.Fate.{fate_walked, fate_by, walk_of};
ghost use Rattle.fal_batch.specs.Idle.{is_skipped_at, is_skipped_after, is_skipped_if, free_call_at};
ghost use Rattle.fal_batch.specs.Plan.{plan_of, is_idle, is_skipped, is_skipped_by};
ghost use Rattle.fal_batch.specs.Seen.{setting_of, site_seen};

use crate::ending::{Ending, has_key_of, walk_end};
use crate::fate::Site;
use crate::names::{goes_by_parent, is_blocked, last_name_of, last_or};
use fal_base::{Barred, CallRec, Dentry, Name, Path};
use fal_dentry::Replica;
use fal_locks::Locks;
use fal_place::Table;
use fal_wait::Waiting;
use std::alloc::Global;

// Whether a call is skipped that has reached the key of this parent and name.
fn is_key_skipped(site: &Site<'_>, by_parent: bool, parent: u64, name: &Name) -> bool
    ensures { result ≡ is_skipped_at (site_seen site.now) by_parent (key_of parent name.now) }
{
    if by_parent && site.table.owner_at(parent, name) != site.me {
        return false;
    }
    has_key_of(site.locks.shut_keys(), parent, name) || site.limit == 0
}

// Whether a call is skipped whose walk has come to this directory.
fn is_last_skipped(site: &Site<'_>, path: &Path, parent: Option<Dentry>) -> bool
    ensures { result ≡ is_skipped_after (site_seen site.now) path.now (Ending.Ready parent) }
{
    let root = Name::root(site.alloc);
    let by_parent = goes_by_parent(site.table, last_name_of(path));
    match parent {
        None => is_key_skipped(site, by_parent, 0, &root),
        Some(dir) => is_key_skipped(site, by_parent, dir.ino, last_or(path, &root)),
    }
}

// Whether a call is skipped whose walk decides.
fn is_walk_skipped(site: &Site<'_>, call: &CallRec, path: &Path) -> bool
    ensures { result ≡ is_skipped_by site.now.limit (fate_walked (site_seen site.now) path.now (walk_of (site_seen site.now) call.now path.now)) }
{
    // Where no key is shut, and a batch has room for a call, no walk ends in a skipped one. Mostly it is so.
    if site.limit > 0 && site.locks.shut_keys().is_empty() {
        return false;
    }
    match walk_end(site, &call.cred, path) {
        Ending::Shut => true,
        Ending::Missing => false,
        Ending::Stop => site.limit == 0,
        Ending::Ready(parent) => is_last_skipped(site, path, parent),
    }
}

// Whether a call on this path is skipped.
fn is_path_skipped(site: &Site<'_>, call: &CallRec, path: &Path) -> bool
    ensures { result ≡ is_skipped_by site.now.limit (fate_by (site_seen site.now) call.now (Some path.now)) }
{
    let last = last_name_of(path);
    if is_blocked(site.blocked, last) {
        return true;
    }
    if !goes_by_parent(site.table, last) && site.table.route(path) != site.me {
        return false;
    }
    is_walk_skipped(site, call, path)
}

// Whether the call is skipped even before an empty batch.
#[tactic(auto, unfolding(crate::specs::Fate::fate))]
fn is_call_skipped(site: &Site<'_>, call: &CallRec) -> bool
    ensures { result ≡ is_skipped (site_seen site.now) call.now }
{
    match call.op.only_path() {
        None => true,
        Some(path) => is_path_skipped(site, call, path),
    }
}

// Whether the free call at this place is skipped, if it is there.
fn is_place_skipped(site: &Site<'_>, waiting: &Waiting, at: usize) -> bool
    ensures { result ≡ is_skipped_if (site_seen site.now) (free_call_at waiting.now.list at) }
{
    let Some(ticket) = waiting.free_at(at) else {
        return true;
    };
    match waiting.call(ticket) {
        None => true,
        Some(call) => is_call_skipped(site, call),
    }
}

// Whether each free call is skipped.
fn are_all_skipped(site: &Site<'_>, waiting: &Waiting) -> bool
    ensures { result ≡ is_idle (plan_of (site_seen site.now) waiting.now.list) }
{
    for at in 0..waiting.free_count() {
        if !is_place_skipped(site, waiting, at) {
            return false;
        }
    }
    true
}

/// Whether the plan for the free calls does nothing, as it is exactly where each of them is skipped. The plan is not made: takes no memory.
pub fn is_plan_idle(
    alloc: Global,
    waiting: &Waiting,
    replica: &Replica,
    locks: &Locks,
    table: &Table,
    me: u8,
    blocked: &Barred,
    limit: u8,
) -> bool
    ensures { result ≡ is_idle (plan_of (setting_of replica.now.entries locks.now.table table.now me blocked.now limit) waiting.now.list) }
{
    let site = Site {
        alloc,
        replica,
        locks,
        table,
        me,
        blocked,
        limit,
    };
    are_all_skipped(&site, waiting)
}

ghost use Rattle.std.specs.Prelude.{◌≡◌, IfOk, Some};
ghost use Rattle.fal_dentry.specs.Seen.{walk_seen};
ghost use Rattle.fal_batch.specs.Fate.{away_to, fate_at, fate_walked, fate_by, fate, goes_by_parent as is_by_parent, last_of};
ghost use Rattle.fal_batch.specs.Seen.{fate_seen, site_seen};

use crate::keys::is_among;
use crate::names::{goes_by_parent, is_blocked, last_name_of};
use fal_base::{Barred, CallRec, Dentry, Duplicate, Key, OutOfMemory, Path};
use fal_dentry::{Replica, Walk, last_key};
use fal_locks::Locks;
use fal_place::Table;
use std::alloc::Global;

// What the node has at hand.
#[derive(Drop)]
pub(crate) struct Site<'a> {
    pub(crate) alloc: Global,
    pub(crate) replica: &'a Replica,
    pub(crate) locks: &'a Locks,
    pub(crate) table: &'a Table,
    pub(crate) me: u8,
    pub(crate) blocked: &'a Barred,
    pub(crate) limit: u8,
}

// What becomes of a call, but for the limit of the batch.
#[derive(Debug, Drop)]
pub(crate) enum Fate {
    Skips,
    Leaves {
        to: Option<u8>,
    },
    Waits {
        key: Key,
    },
    Joins {
        denied: bool,
        parent: Option<Dentry>,
        last: Key,
        keys: Vec<Key>,
    },
}

// Where a call goes that belongs to another node.
fn leave_to(table: &Table, call: &CallRec, node: u8) -> Option<u8>
    ensures { result ≡ away_to table.now call.now node }
{
    if call.id.hop == 0 && call.version < table.version() {
        None
    } else {
        Some(node)
    }
}

// What becomes of a call that has reached this key.
fn fate_of_key(
    site: &Site<'_>,
    by_parent: bool,
    parent: Option<Dentry>,
    keys: Vec<Key>,
    last: Key,
) -> Result<Fate, OutOfMemory>
    ensures { IfOk result (λ fate. fate_seen fate ≡ fate_at (site_seen site.now) by_parent parent keys.items last) }
{
    if by_parent {
        let owner = site.table.owner(&last);
        if owner != site.me {
            return Ok(Fate::Leaves { to: Some(owner) });
        }
    }
    if is_among(&last, site.locks.shut_keys()) {
        return Ok(Fate::Skips);
    }
    let mut keys = keys;
    keys.push(last.copy()?)?;
    Ok(Fate::Joins {
        denied: false,
        parent,
        last,
        keys,
    })
}

// What becomes of a call whose walk has ended so. The caller has looked whether its last name goes by parent.
fn fate_of_walk(
    site: &Site<'_>,
    by_parent: bool,
    path: &Path,
    walk: Walk,
) -> Result<Fate, OutOfMemory>
    requires { by_parent ≡ is_by_parent site.now.table.now (last_of path.now) }
    ensures { IfOk result (λ fate. fate_seen fate ≡ fate_walked (site_seen site.now) path.now (walk_seen walk)) }
{
    match walk {
        Walk::Shut { key: _ } => Ok(Fate::Skips),
        Walk::Missing { key, keys: _ } => Ok(Fate::Waits { key }),
        Walk::Stop { errno: _, keys } => Ok(Fate::Joins {
            denied: true,
            parent: None,
            last: Key::root(site.alloc),
            keys,
        }),
        Walk::Ready {
            parent,
            inos: _,
            keys,
        } => {
            let last = last_key(site.alloc, &parent, path)?;
            fate_of_key(site, by_parent, parent, keys, last)
        }
    }
}

// What becomes of a call on this path.
fn fate_of_path(site: &Site<'_>, call: &CallRec, path: &Path) -> Result<Fate, OutOfMemory>
    ensures { IfOk result (λ fate. fate_seen fate ≡ fate_by (site_seen site.now) call.now (Some path.now)) }
{
    let last = last_name_of(path);
    if is_blocked(site.blocked, last) {
        return Ok(Fate::Skips);
    }
    let by_parent = goes_by_parent(site.table, last);
    if !by_parent {
        let node = site.table.route(path);
        if node != site.me {
            return Ok(Fate::Leaves {
                to: leave_to(site.table, call, node),
            });
        }
    }
    let walk = site.replica.walk(&call.cred, path, site.locks.shut_keys())?;
    fate_of_walk(site, by_parent, path, walk)
}

// What becomes of a call.
#[tactic(auto, unfolding(crate::specs::Fate::fate))]
pub(crate) fn fate_of(site: &Site<'_>, call: &CallRec) -> Result<Fate, OutOfMemory>
    ensures { IfOk result (λ told. fate_seen told ≡ fate (site_seen site.now) call.now) }
{
    match call.op.only_path() {
        None => Ok(Fate::Skips),
        Some(path) => fate_of_path(site, call, path),
    }
}

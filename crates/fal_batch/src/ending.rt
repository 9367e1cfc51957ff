ghost use Rattle.std.specs.Prelude.{◌≡◌};
ghost use Rattle.fal_base.specs.Tree.{key_of, same_key};
ghost use Rattle.fal_dentry.specs.Walk.{is_among as key_among, replica_walk};
ghost use Rattle.fal_locks.specs.Locks.{shut_keys};
ghost use Rattle.fal_batch.specs.Idle.{ending_of};

use crate::fate::Site;
use fal_base::{Cred, Dentry, Key, Name, Path};

// Where a walk ends, without the keys on its way.
#[derive(Debug, Drop)]
pub(crate) enum Ending {
    Shut,
    Missing,
    Stop,
    Ready(Option<Dentry>),
}

// Whether it is the key of this parent and name.
#[tactic(auto, unfolding(fal_base::specs::Tree::key_cmp))]
fn is_key_of(key: &Key, parent: u64, name: &Name) -> bool
    ensures { result ≡ same_key key.now (key_of parent name.now) }
{
    key.parent.cmp(&parent).then(key.name.cmp(name)).is_eq()
}

// Whether the key of this parent and name is one of these.
pub(crate) fn has_key_of(keys: &[Key], parent: u64, name: &Name) -> bool
    ensures { result ≡ key_among (key_of parent name.now) keys.now }
{
    keys.iter().any(|key| is_key_of(key, parent, name))
}

// Where the walk of the path ends. Takes no memory.
pub(crate) fn walk_end(site: &Site<'_>, cred: &Cred, path: &Path) -> Ending
    ensures { result ≡ ending_of (replica_walk site.now.replica.now.entries cred.now path.now (shut_keys site.now.locks.now.table)) }
{
    let root = Name::root(site.alloc);
    let mut parent = 0;
    let mut name = &root;
    let mut found = None;
    let mut rest = path.names();
    while let Some((next, others)) = rest.split_first() {
        if has_key_of(site.locks.shut_keys(), parent, name) {
            return Ending::Shut;
        }
        let Some(dir) = site.replica.find(parent, name).copied() else {
            return Ending::Missing;
        };
        if !dir.grants(cred, 1) {
            return Ending::Stop;
        }
        found = Some(dir);
        parent = dir.ino;
        name = next;
        rest = others;
    }
    Ending::Ready(found)
}

ghost use Rattle.std.specs.Prelude.{◌≡◌, []};
ghost use Rattle.std.specs.Option.{option_copied};
ghost use Rattle.fal_dentry.specs.TreeWalk.{last_name};
ghost use Rattle.fal_batch.specs.Fate.{last_of, is_blocked as is_name_blocked, goes_by_parent as by_parent};

use fal_base::{Barred, Name, Path, Rule};
use fal_place::Table;

// The last name of a path, if it has one.
pub(crate) fn last_name_of(path: &Path) -> Option<&Name>
    ensures { option_copied result ≡ last_of path.now }
{
    path.names().last()
}

// Whether the last name is blocked.
pub(crate) fn is_blocked(blocked: &Barred, last: Option<&Name>) -> bool
    ensures { result ≡ is_name_blocked blocked.now (option_copied last.entry) }
{
    let Some(name) = last else {
        return false;
    };
    match blocked {
        Barred::Nothing => false,
        Barred::One(other) => *other == *name,
        Barred::All => !name.bytes().is_empty(),
    }
}

// Whether the last name's keys live by the hash of parent and name.
pub(crate) fn goes_by_parent(table: &Table, last: Option<&Name>) -> bool
    ensures { result ≡ by_parent table.now (option_copied last.entry) }
{
    let Some(name) = last else {
        return false;
    };
    match table.entry(name) {
        Rule::Hash => false,
        Rule::ByParent => true,
        Rule::Node(_) => false,
    }
}

// The last name of a path, or this name of the root where it has none. Takes no memory.
#[tactic(auto, using(fal_dentry::proofs::LastName::last_is))]
pub(crate) fn last_or<'a>(path: &'a Path, root: &'a Name) -> &'a Name
    requires { root.now ≡ [] }
    ensures { result.now ≡ last_name path.now }
{
    match last_name_of(path) {
        None => root,
        Some(name) => name,
    }
}

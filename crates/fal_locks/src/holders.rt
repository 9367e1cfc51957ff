ghost use Rattle.std.specs.Prelude.{◌≡◌, ◌==◌, length, nat_lt, not, filter};
ghost use Rattle.std.specs.List.{list_any, position};
ghost use Rattle.fal_locks.specs.Keys.{has_key as key_among, has_name as name_among};

use crate::holder::Holder;
use crate::keys::{has_child, has_key, has_name};
use fal_base::{Key, Name};

// Whether one of them holds the key.
pub(crate) fn hold_key(holders: &[Holder], key: &Key) -> bool
    ensures { result ≡ list_any (λ h. key_among h.keys key.now) holders.now }
{
    holders
        .iter()
        .any(|holder| has_key(holder.keys.as_slice(), key))
}

// Whether one of them holds a key with this name.
pub(crate) fn hold_name(holders: &[Holder], name: &Name) -> bool
    ensures { result ≡ list_any (λ h. name_among h.keys name.now) holders.now }
{
    holders
        .iter()
        .any(|holder| has_name(holder.keys.as_slice(), name))
}

// Whether one of them holds a key other than the root's.
pub(crate) fn hold_child(holders: &[Holder]) -> bool
    ensures { result ≡ list_any (λ h. list_any (λ key. nat_lt 0 (length key.name)) h.keys) holders.now }
{
    holders
        .iter()
        .any(|holder| has_child(holder.keys.as_slice()))
}

// The place of the first of these keys that one of them holds.
pub(crate) fn first_held(holders: &[Holder], keys: &[Key]) -> Option<usize>
    ensures { result ≡ position (λ key. list_any (λ h. key_among h.keys key) holders.now) keys.now }
{
    keys.iter().position(|key| hold_key(holders, key))
}

// Takes out the holders with this number.
pub(crate) fn drop_holder(holders: &mut Vec<Holder>, number: u64)
    ensures { holders.new.items ≡ filter (λ h. not (h.number == number)) holders.old.items }
{
    holders.retain(|holder| holder.number != number);
}

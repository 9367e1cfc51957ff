ghost use Rattle.std.specs.Prelude.{◌≡◌, ◌==◌, ◌≤◌, length, nat_lt};
ghost use Rattle.std.specs.List.{list_any, position};
ghost use Rattle.fal_locks.specs.Keys.{has_key as key_among, has_name as name_among, distinct_count as distinct_keys};

use fal_base::{Key, Name};

// Whether the list has this key.
pub(crate) fn has_key(keys: &[Key], key: &Key) -> bool
    ensures { result ≡ key_among keys.now key.now }
{
    keys.iter().any(|other| key.is_same(other))
}

// Whether the list has a key with this name.
pub(crate) fn has_name(keys: &[Key], name: &Name) -> bool
    ensures { result ≡ name_among keys.now name.now }
{
    keys.iter().any(|key| key.name == *name)
}

// Whether the list has a key other than the root's.
pub(crate) fn has_child(keys: &[Key]) -> bool
    ensures { result ≡ list_any (λ key. nat_lt 0 (length key.name)) keys.now }
{
    keys.iter().any(|key| !key.name.bytes().is_empty())
}

// How many different keys the list has.
pub(crate) fn distinct_count(keys: &[Key]) -> u64
    ensures { result ≡ distinct_keys keys.now }
{
    let mut count = 0;
    let mut rest = keys;
    while let Some((first, others)) = rest.split_first() {
        if !has_key(others, first) {
            count += 1;
        }
        rest = others;
    }
    count
}

// The place of the first of these keys that stands among the others.
pub(crate) fn first_among(keys: &[Key], others: &[Key]) -> Option<usize>
    ensures { result ≡ position (λ key. key_among others.now key) keys.now }
{
    keys.iter().position(|key| has_key(others, key))
}

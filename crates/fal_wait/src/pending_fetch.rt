ghost use Rattle.std.specs.Prelude.{◌≡◌, ◌==◌, ◌≤◌, ◌-◌, IfNone, vec_len, vec_capacity};
ghost use Rattle.std.specs.List.{position, find};
ghost use Rattle.fal_wait.specs.Lists.{without_first};

use fal_base::{Items, Key};

/// A fetch that is pending: its number, the key that it is for, and the tickets of the calls that it was opened with.
#[derive(Debug, Drop)]
pub struct PendingFetch {
    pub number: u64,
    pub key: Key,
    pub waiters: Items<u64>,
}

/// A fetch that was taken out: its key, and the tickets of the calls that it was opened with, in the order of arrival.
#[derive(Debug, Drop)]
pub struct Fetch {
    pub key: Key,
    pub waiters: Vec<u64>,
}

// The place of the fetch with this number.
fn fetch_place(fetches: &[PendingFetch], number: u64) -> Option<usize>
    ensures { result ≡ position (λ f. f.number == number) fetches.now }
{
    fetches.iter().position(|fetch| fetch.number == number)
}

// Takes the fetch with this number out.
pub(crate) fn take_fetch(fetches: &mut Vec<PendingFetch>, number: u64) -> Option<PendingFetch>
    ensures fetch { result ≡ find (λ f. f.number == number) fetches.old.items }
    ensures rest { fetches.new.items ≡ without_first (λ f. f.number == number) fetches.old.items }
    ensures none { IfNone result (fetches.new.items ≡ fetches.old.items) }
    ensures room { vec_capacity fetches.old - vec_len fetches.old ≤ vec_capacity fetches.new - vec_len fetches.new }
{
    match fetch_place(fetches, number) {
        None => None,
        Some(at) => Some(fetches.remove(at)),
    }
}

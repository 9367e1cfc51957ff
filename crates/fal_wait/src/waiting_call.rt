ghost use Rattle.std.specs.Prelude.{◌≡◌, ◌==◌, ◌≤◌, ◌-◌, map, count_by, is_none, vec_len, vec_capacity};
ghost use Rattle.std.specs.List.{position, find};
ghost use Rattle.fal_wait.specs.Lists.{without_first, has_number as number_among};
ghost use Rattle.fal_wait.specs.Waiting.{on_fetch, off_fetch, unbound};

use fal_base::CallRec;

/// A call that waits: its ticket, and the pending fetch that it waits on, if there is one.
#[derive(Debug, Drop)]
pub struct WaitingCall {
    pub ticket: u64,
    pub call: CallRec,
    pub fetch: Option<u64>,
}

// The place of the call with this ticket.
fn call_place(calls: &[WaitingCall], ticket: u64) -> Option<usize>
    ensures { result ≡ position (λ w. w.ticket == ticket) calls.now }
{
    calls.iter().position(|waiting| waiting.ticket == ticket)
}

// Takes the call with this ticket out.
pub(crate) fn take_call(calls: &mut Vec<WaitingCall>, ticket: u64) -> Option<WaitingCall>
    ensures call { result ≡ find (λ w. w.ticket == ticket) calls.old.items }
    ensures rest { calls.new.items ≡ without_first (λ w. w.ticket == ticket) calls.old.items }
    ensures room { vec_capacity calls.old - vec_len calls.old ≤ vec_capacity calls.new - vec_len calls.new }
{
    match call_place(calls, ticket) {
        None => None,
        Some(at) => Some(calls.remove(at)),
    }
}

// Whether the number stands in the list.
pub(crate) fn has_number(numbers: &[u64], number: u64) -> bool
    ensures { result ≡ number_among numbers.now number }
{
    numbers.iter().any(|other| *other == number)
}

// The call waits on this fetch where it is one of the waiters.
fn bind(waiting: &mut WaitingCall, number: u64, waiters: &[u64])
    ensures { waiting.new ≡ on_fetch number waiters.now waiting.old }
{
    if has_number(waiters, waiting.ticket) {
        waiting.fetch = Some(number);
    }
}

// The call is free where it waited on this fetch.
fn unbind(waiting: &mut WaitingCall, number: u64)
    ensures { waiting.new ≡ off_fetch number waiting.old }
{
    if let Some(fetch) = waiting.fetch {
        if fetch == number {
            waiting.fetch = None;
        }
    }
}

// The waiters wait on this fetch.
fn bind_waiters(calls: &mut [WaitingCall], number: u64, waiters: &[u64])
    ensures { calls.new ≡ map (λ w. on_fetch number waiters.now w) calls.old }
{
    for waiting in calls.iter_mut() {
        bind(waiting, number, waiters);
    }
}

// The calls that wait on this fetch are free.
fn free_waiters(calls: &mut [WaitingCall], number: u64)
    ensures { calls.new ≡ map (λ w. off_fetch number w) calls.old }
{
    for waiting in calls.iter_mut() {
        unbind(waiting, number);
    }
}

// Each call is free.
fn free_all(calls: &mut [WaitingCall])
    ensures { calls.new ≡ map unbound calls.old }
{
    for waiting in calls.iter_mut() {
        waiting.fetch = None;
    }
}

// The calls with these tickets wait on this fetch.
pub(crate) fn wait_on(calls: &mut Vec<WaitingCall>, number: u64, waiters: &[u64])
    ensures calls { calls.new.items ≡ map (λ w. on_fetch number waiters.now w) calls.old.items }
    ensures room { vec_capacity calls.new - vec_len calls.new ≡ vec_capacity calls.old - vec_len calls.old }
{
    bind_waiters(calls, number, waiters);
}

// No call waits on this fetch.
pub(crate) fn stop_waiting(calls: &mut Vec<WaitingCall>, number: u64)
    ensures calls { calls.new.items ≡ map (λ w. off_fetch number w) calls.old.items }
    ensures room { vec_capacity calls.new - vec_len calls.new ≡ vec_capacity calls.old - vec_len calls.old }
{
    free_waiters(calls, number);
}

// No call waits on any fetch.
pub(crate) fn stop_all_waiting(calls: &mut Vec<WaitingCall>)
    ensures calls { calls.new.items ≡ map unbound calls.old.items }
    ensures room { vec_capacity calls.new - vec_len calls.new ≡ vec_capacity calls.old - vec_len calls.old }
{
    free_all(calls);
}

// How many calls have no pending fetch.
pub(crate) fn count_free(calls: &[WaitingCall]) -> usize
    ensures { result ≡ count_by (λ w. is_none w.fetch) calls.now }
{
    let mut count = 0;
    for waiting in calls {
        if waiting.fetch.is_none() {
            count += 1;
        }
    }
    count
}

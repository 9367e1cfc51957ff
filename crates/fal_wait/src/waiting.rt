ghost use Rattle.std.specs.Prelude.{◌≡◌, ◌≤◌, ◌<◌, ◌+◌, ◌-◌, ◌^◌, ◌==◌, IfOk, OnOk, length, slice_get};
ghost use Rattle.std.specs.Option.{option_copied, option_map};
ghost use Rattle.fal_wait.specs.Lists.{IsPartOf};
ghost use Rattle.fal_wait.specs.Waiting.{no_calls, IsNumbered, count_to, free_tickets, call_with_ticket, fetch_of, parts_of, told_by, is_new, after_admit, admit_answer, without_call, after_open, after_settle, after_cancel};

use crate::admit::Admit;
use crate::pending_fetch::{Fetch, PendingFetch, take_fetch};
use crate::waiting_call::{
    WaitingCall, count_free, stop_all_waiting, stop_waiting, take_call, wait_on,
};
use fal_base::{CallRec, Items, Key, Mark, OutOfMemory, last_mark, put_mark};
use std::alloc::Global;
use std::marker::Model;

/// The calls that wait at a node in the order of their arrival, the fetches that they wait on, and the last call taken of each client.
///
/// A fetch's waiters are fixed when it is opened. All but `free` and `reserve` take no memory.
#[derive(Debug, Drop)]
pub struct Waiting {
    calls: Vec<WaitingCall>,
    fetches: Vec<PendingFetch>,
    last: Vec<(u8, Mark)>,
    tickets: u64,
    last_fetch: Option<u64>,
}

impl Model for Waiting {
    ghost use Rattle.std.specs.Prelude.{◌-◌, min, vec_len, vec_capacity};
    ghost use Rattle.fal_wait.specs.Waiting.{WaitingSeen, IsNumbered, count_to};

    ghost Value = { WaitingSeen };

    ghost view = { λ a. record {
      list = record { calls = a.calls.items; fetches = a.fetches.items; last = a.last.items; tickets = a.tickets; opened = count_to a.last_fetch };
      spare = min (vec_capacity a.calls - vec_len a.calls) (min (vec_capacity a.fetches - vec_len a.fetches) (vec_capacity a.last - vec_len a.last));
    } };

    ghost invariant = { λ a. IsNumbered (record { calls = a.calls.items; fetches = a.fetches.items; last = a.last.items; tickets = a.tickets; opened = count_to a.last_fetch }) };
}

// The number after the last one, from 0.
fn number_after(last: Option<u64>) -> u64
    requires { count_to last < 2 ^ 64 }
    ensures { result ≡ count_to last }
{
    match last {
        None => 0,
        Some(last) => last + 1,
    }
}

impl Waiting {
    /// No call waits, and none was taken.
    pub fn new(alloc: Global) -> Waiting
        ensures { result.list ≡ no_calls }
    {
        Waiting {
            calls: Vec::new(alloc),
            fetches: Vec::new(alloc),
            last: Vec::new(alloc),
            tickets: 0,
            last_fetch: None,
        }
    }

    /// Makes room for that many more calls and fetches, or answers want of memory. The list stays as it was.
    pub fn reserve(&mut self, n: usize) -> Result<(), OutOfMemory>
        ensures list { self.new.list ≡ self.old.list }
        ensures room { OnOk result (n ≤ self.new.spare) }
    {
        self.calls.reserve(n)?;
        self.fetches.reserve(n)?;
        self.last.reserve(n)?;
        Ok(())
    }

    /// Whether `admit` would take the call.
    pub fn takes(&self, call: &CallRec) -> bool
        ensures { result ≡ is_new self.now.list call.now }
    {
        call.id
            .mark()
            .is_newer(last_mark(&self.last, call.id.client))
    }

    /// Takes the call, with the next ticket. `Old` exactly where its number, attempt and hop are not above those of the last call that was
    /// taken of this client, compared in this order; it changes nothing. A client's first call is taken.
    #[tactic(auto, unfolding(crate::specs::Waiting::with_call))]
    pub fn admit(&mut self, call: CallRec) -> Admit
        requires room { 1 ≤ self.old.spare }
        requires tickets { self.old.list.tickets < 2 ^ 64 - 1 }
        ensures answer { result ≡ admit_answer self.old.list call }
        ensures list { self.new.list ≡ after_admit self.old.list call }
        ensures room { self.old.spare ≤ self.new.spare + 1 }
    {
        let mark = call.id.mark();
        if !mark.is_newer(last_mark(&self.last, call.id.client)) {
            return Admit::Old;
        }
        let ticket = self.tickets;
        put_mark(&mut self.last, call.id.client, mark);
        let Ok(()) = self.calls.push(WaitingCall {
            ticket,
            call,
            fetch: None,
        })
        else {
            unreachable!()
        };
        self.tickets += 1;
        Admit::Taken { ticket }
    }

    /// The tickets of the calls without a pending fetch, in the order of arrival, or want of memory.
    pub fn free(&self) -> Result<Vec<u64>, OutOfMemory>
        ensures numbered { IsNumbered self.now.list }
        ensures tickets { IfOk result (λ tickets. tickets.items ≡ free_tickets self.now.list) }
    {
        let mut tickets = Vec::with_capacity(*self.calls.allocator(), self.calls.len())?;
        for waiting in &self.calls {
            if waiting.fetch.is_none() {
                tickets.push(waiting.ticket)?;
            }
        }
        Ok(tickets)
    }

    /// The ticket at this place of what `free` gives. None exactly where the place is past its end.
    pub fn free_at(&self, at: usize) -> Option<u64>
        ensures { result ≡ slice_get (free_tickets self.now.list) at }
    {
        let mut left = at;
        let mut rest = self.calls.as_slice();
        while let Some((first, others)) = rest.split_first() {
            if first.fetch.is_none() {
                if left == 0 {
                    return Some(first.ticket);
                }
                left -= 1;
            }
            rest = others;
        }
        None
    }

    /// Whether no call is kept, with a pending fetch or without.
    pub fn is_empty(&self) -> bool
        ensures { result ≡ (length self.now.list.calls == 0) }
    {
        self.calls.is_empty()
    }

    /// The call with this ticket. None exactly where it is not there.
    pub fn call(&self, ticket: u64) -> Option<&CallRec>
        ensures { option_copied result ≡ call_with_ticket self.now.list ticket }
    {
        match self.calls.iter().find(|waiting| waiting.ticket == ticket) {
            None => None,
            Some(waiting) => Some(&waiting.call),
        }
    }

    /// The pending fetch with this number. None exactly where the number is not pending.
    pub fn fetch(&self, number: u64) -> Option<&PendingFetch>
        ensures { option_copied result ≡ fetch_of self.now.list number }
    {
        self.fetches.iter().find(|fetch| fetch.number == number)
    }

    /// Takes the call with this ticket out. None exactly where it is not there. A pending fetch keeps the waiters that it was opened with.
    pub fn remove(&mut self, ticket: u64) -> Option<CallRec>
        ensures call { result ≡ call_with_ticket self.old.list ticket }
        ensures list { self.new.list ≡ without_call self.old.list ticket }
        ensures room { self.old.spare ≤ self.new.spare }
    {
        match take_call(&mut self.calls, ticket) {
            None => None,
            Some(waiting) => {
                let WaitingCall {
                    ticket: _,
                    call,
                    fetch: _,
                } = waiting;
                Some(call)
            }
        }
    }

    /// Opens a fetch of the key for these waiters alone; the answer is its number, one more than the last one's, from 0.
    #[tactic(auto, unfolding(crate::specs::Waiting::after_open))]
    pub fn open_fetch(&mut self, key: Key, waiters: Vec<u64>) -> u64
        requires room { 1 ≤ self.old.spare }
        requires waiters { IsPartOf waiters.items (free_tickets self.old.list) }
        requires numbers { self.old.list.opened < 2 ^ 64 }
        ensures number { result ≡ self.old.list.opened }
        ensures numbered { IsNumbered self.old.list }
        ensures list { self.new.list ≡ after_open self.old.list key waiters.items }
        ensures room { self.old.spare ≤ self.new.spare + 1 }
    {
        let number = number_after(self.last_fetch);
        wait_on(&mut self.calls, number, &waiters);
        let Ok(()) = self.fetches.push(PendingFetch {
            number,
            key,
            waiters: Items::from_items(waiters),
        })
        else {
            unreachable!()
        };
        self.last_fetch = Some(number);
        number
    }

    /// Takes the fetch with this number out, with exactly the waiters that it was opened with, and frees them. None exactly where the
    /// number is not pending; it changes nothing.
    #[tactic(auto, unfolding(crate::specs::Waiting::without_fetch))]
    pub fn settle(&mut self, id: u64) -> Option<Fetch>
        ensures fetch { option_map told_by result ≡ option_map parts_of (fetch_of self.old.list id) }
        ensures list { self.new.list ≡ after_settle self.old.list id }
        ensures room { self.old.spare ≤ self.new.spare }
    {
        match take_fetch(&mut self.fetches, id) {
            None => None,
            Some(fetch) => {
                stop_waiting(&mut self.calls, id);
                let PendingFetch {
                    number: _,
                    key,
                    waiters,
                } = fetch;
                Some(Fetch {
                    key,
                    waiters: waiters.into_items(),
                })
            }
        }
    }

    /// The number of the last fetch that was opened. None exactly where none was.
    pub fn last_fetch(&self) -> Option<u64>
        ensures { count_to result ≡ self.now.list.opened }
    {
        self.last_fetch
    }

    /// How many calls have no pending fetch: as many as `free` gives tickets.
    pub fn free_count(&self) -> usize
        ensures { result ≡ length (free_tickets self.now.list) }
    {
        count_free(&self.calls)
    }

    /// No fetch is pending, and every call is free.
    pub fn cancel_all(&mut self)
        ensures list { self.new.list ≡ after_cancel self.old.list }
        ensures room { self.old.spare ≤ self.new.spare }
    {
        stop_all_waiting(&mut self.calls);
        self.fetches.clear();
    }
}

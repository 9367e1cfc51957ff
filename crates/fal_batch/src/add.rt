ghost use Rattle.std.specs.Prelude.{◌≡◌, OnOk, IfOk, if◌then◌else◌, position};
ghost use Rattle.fal_base.specs.Tree.{same_key};
ghost use Rattle.fal_batch.specs.Plan.{with_away, is_wanted, with_waiter, with_wait, with_planned, after_fate, no_plan};
ghost use Rattle.fal_batch.specs.Seen.{plan_seen, fate_seen};

use crate::fate::Fate;
use crate::keys::add_keys;
use crate::parts::{Away, Plan, Planned, Sending, Wanted};
use fal_base::{Duplicate, Items, Key, OutOfMemory};
use std::alloc::Global;

impl Plan {
    // Nothing is to be done.
    pub(crate) fn new(alloc: Global) -> Plan
        ensures { plan_seen result ≡ no_plan }
    {
        Plan {
            away: Vec::new(alloc),
            fetches: Vec::new(alloc),
            sends: Vec::new(alloc),
            calls: Vec::new(alloc),
            keys: Vec::new(alloc),
        }
    }
}

// One more call leaves.
#[tactic(auto, unfolding(crate::specs::Plan::with_away))]
fn add_away(plan: &mut Plan, away: Away) -> Result<(), OutOfMemory>
    ensures { OnOk result (plan_seen plan.new ≡ with_away (plan_seen plan.old) away) }
{
    plan.away.push(away)?;
    plan.sends.push(Sending::Away(away))?;
    Ok(())
}

// The place of the fetch of this key.
fn fetch_place(fetches: &[Wanted], key: &Key) -> Option<usize>
    ensures { result ≡ position (λ wanted. same_key wanted.key key.now) fetches.now }
{
    fetches.iter().position(|wanted| wanted.key.is_same(key))
}

// The call waits on the fetch of the key, where there is one. The answer is whether there is.
fn join_fetch(fetches: &mut Vec<Wanted>, key: &Key, ticket: u64) -> Result<bool, OutOfMemory>
    ensures found { IfOk result (λ found. found ≡ is_wanted fetches.old.items key.now) }
    ensures joined { IfOk result (λ found. fetches.new.items ≡ (if found then with_waiter fetches.old.items key.now ticket else fetches.old.items)) }
{
    match fetch_place(fetches, key) {
        None => Ok(false),
        Some(at) => {
            fetches[at].waiters.push(ticket)?;
            Ok(true)
        }
    }
}

// One more call waits on the fetch of the key.
#[tactic(auto, using(crate::proofs::Fetches::opened), unfolding(crate::specs::Plan::with_wait))]
fn add_wait(alloc: Global, plan: &mut Plan, key: Key, ticket: u64) -> Result<(), OutOfMemory>
    ensures { OnOk result (plan_seen plan.new ≡ with_wait (plan_seen plan.old) key ticket) }
{
    if join_fetch(&mut plan.fetches, &key, ticket)? {
        return Ok(());
    }
    let mut waiters = Items::new(alloc);
    waiters.push(ticket)?;
    plan.sends.push(Sending::Fetch(key.copy()?))?;
    plan.fetches.push(Wanted { key, waiters })?;
    Ok(())
}

// One more call joins the batch.
#[tactic(auto, unfolding(crate::specs::Plan::with_planned))]
fn add_planned(plan: &mut Plan, call: Planned, keys: Vec<Key>) -> Result<(), OutOfMemory>
    ensures { OnOk result (plan_seen plan.new ≡ with_planned (plan_seen plan.old) call keys.items) }
{
    plan.calls.push(call)?;
    add_keys(&mut plan.keys, keys)
}

// The call with this ticket has met its fate.
pub(crate) fn add(
    alloc: Global,
    plan: &mut Plan,
    limit: u8,
    ticket: u64,
    fate: Fate,
) -> Result<(), OutOfMemory>
    ensures { OnOk result (plan_seen plan.new ≡ after_fate limit (plan_seen plan.old) ticket (fate_seen fate)) }
{
    match fate {
        Fate::Skips => Ok(()),
        Fate::Leaves { to } => add_away(plan, Away { ticket, to }),
        Fate::Waits { key } => add_wait(alloc, plan, key, ticket),
        Fate::Joins {
            denied,
            parent,
            last,
            keys,
        } => {
            if plan.calls.len() >= usize::from(limit) {
                return Ok(());
            }
            let call = Planned {
                ticket,
                denied,
                parent,
                last,
            };
            add_planned(plan, call, keys)
        }
    }
}

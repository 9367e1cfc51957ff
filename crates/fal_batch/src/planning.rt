ghost use Rattle.std.specs.Prelude.{◌≡◌, ◌==◌, not, length, OnOk, IfOk, IsTrue, None};
ghost use Rattle.fal_locks.specs.Locks.{first_shut};
ghost use Rattle.fal_wait.specs.Waiting.{IsNumbered};
ghost use Rattle.fal_batch.specs.Keys.{are_distinct};
ghost use Rattle.fal_batch.specs.Plan.{plan_one, plan_if, plan_of, free_call, IsUnion, IsEmptyWhereNoneJoins, IsIdleWhereAllAreSkipped, IsShared};
ghost use Rattle.fal_batch.specs.Seen.{plan_seen, setting_of, site_seen};

use crate::add::add;
use crate::fate::{Site, fate_of};
use crate::parts::Plan;
use fal_base::{Barred, OutOfMemory};
use fal_dentry::Replica;
use fal_locks::Locks;
use fal_place::Table;
use fal_wait::Waiting;
use std::alloc::Global;

// Goes on to the call with this ticket, if it is there.
#[tactic(auto, unfolding(crate::specs::Plan::plan_one))]
fn add_ticket(
    site: &Site<'_>,
    plan: &mut Plan,
    waiting: &Waiting,
    ticket: u64,
) -> Result<(), OutOfMemory>
    ensures { OnOk result (plan_seen plan.new ≡ plan_if (site_seen site.now) (plan_seen plan.old) (free_call waiting.now.list ticket)) }
{
    match waiting.call(ticket) {
        None => Ok(()),
        Some(call) => {
            let fate = fate_of(site, call)?;
            add(site.alloc, plan, site.limit, ticket, fate)
        }
    }
}

// The plan for all the free calls.
fn plan_at_site(site: &Site<'_>, waiting: &Waiting) -> Result<Plan, OutOfMemory>
    ensures plan { IfOk result (λ plan. plan_seen plan ≡ plan_of (site_seen site.now) waiting.now.list) }
    ensures numbered { IsNumbered waiting.now.list }
{
    let tickets = waiting.free()?;
    let mut plan = Plan::new(site.alloc);
    let mut rest = tickets.as_slice();
    while let Some((ticket, others)) = rest.split_first() {
        add_ticket(site, &mut plan, waiting, *ticket)?;
        rest = others;
    }
    Ok(plan)
}

/// What node `me` does with the free calls that wait at it, in the order of their arrival. Answers want of memory where there is too little.
///
/// A call whose last name is blocked is skipped. One whose last name alone tells that it belongs to another node leaves for that node; but
/// where it comes from its client with a table older than this one, the client is told so. Then the path is walked. Where the walk meets a
/// shut key, the call is skipped. Where it lacks a directory, the call waits on a fetch of that directory's key, one for all the calls that
/// lack it. Where search is denied, it joins the batch as denied. Else it has its last key: it leaves for that key's node where the last
/// name lives by parent and that is another node, is skipped where the key is shut, and otherwise joins the batch. A batch has at most
/// `limit` calls; one more is skipped. So is a call whose op has not exactly one good path.
///
/// No key of the plan comes twice or is shut, and the keys are those of its calls. There is one fetch a key, with all the calls that wait
/// for it. There are no calls exactly where none joins, and the plan does nothing exactly where each call is skipped.
pub fn plan(
    alloc: Global,
    waiting: &Waiting,
    replica: &Replica,
    locks: &Locks,
    table: &Table,
    me: u8,
    blocked: &Barred,
    limit: u8,
) -> Result<Plan, OutOfMemory>
    ensures plan { IfOk result
        (λ plan. plan_seen plan ≡ plan_of (setting_of replica.now.entries locks.now.table table.now me blocked.now limit) waiting.now.list) }
    ensures numbered { IsNumbered waiting.now.list }
    ensures distinct { IfOk result (λ plan. IsTrue (are_distinct plan.keys.items)) }
    ensures open { IfOk result (λ plan. first_shut locks.now.table plan.keys.items ≡ None) }
    ensures union { IfOk result
        (λ plan. IsUnion (setting_of replica.now.entries locks.now.table table.now me blocked.now limit) waiting.now.list (plan_seen plan)) }
    ensures shared { IfOk result
        (λ plan. IsShared (setting_of replica.now.entries locks.now.table table.now me blocked.now limit) waiting.now.list (plan_seen plan)) }
    ensures empty { IfOk result
        (λ plan. IsEmptyWhereNoneJoins (setting_of replica.now.entries locks.now.table table.now me blocked.now limit) waiting.now.list (plan_seen plan)) }
    ensures idle { IfOk result
        (λ plan. IsIdleWhereAllAreSkipped (setting_of replica.now.entries locks.now.table table.now me blocked.now limit) waiting.now.list (plan_seen plan)) }
{
    let site = Site {
        alloc,
        replica,
        locks,
        table,
        me,
        blocked,
        limit,
    };
    let plan = plan_at_site(&site, waiting)?;
    Ok(plan)
}

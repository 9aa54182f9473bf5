//! People who are imported before any request.
ghost use Rattle.std.specs.Prelude.{◌≡◌, ◌≤◌, ◌⊎◌, IfOk, OnErr};
ghost use Rattle.hall_store.specs.Store.{CanFailIn, IsSettled, Kept, KeptWorld, Leads, WritesOnce, Told, Fails};
ghost use Rattle.hall_store.specs.declared.change.Change.{Change};
ghost use Rattle.hall_desk.specs.Desk.{SaneThen};
ghost use Rattle.hall_desk.specs.Sane.{Sane};
ghost use Rattle.hall_desk.specs.Plans.{IsSeedPlan, IsSeedReply, SeedCanFail, Seeds, StopsInSeed};

use crate::import::{any_conflict, plan_import};
use crate::plan::Plan;
use crate::reply::Reply;
use crate::step::commit;
use hall_policy::{People, Rule};
use hall_store::{ReadStore, Store, StoreFault};
use std::alloc::Global;

/// Imports the people, whom the rule on lists alone may forbid.
pub(crate) fn seed<S: Store>(
    alloc: Global,
    store: &mut S,
    people: &People,
) -> Result<Reply, StoreFault>
    ensures leads { Leads (S.content store.old) (S.content store.new) }
    ensures once { WritesOnce (S.content store.old) (S.content store.new) }
    ensures seeds { IfOk result (λ reply. (S.content store.new).honest → Seeds (S.content store.old) people.now reply
        (S.content store.new)) }
    ensures answered { IfOk result IsSeedReply }
    ensures quiet { IfOk result (λ reply. reply ≡ Reply.Denied 20 →
        (S.content store.new).writes ≤ (S.content store.old).writes) }
    ensures left { OnErr result (KeptWorld (S.content store.old) (S.content store.new)) }
    ensures stops { StopsInSeed (S.content store.old) people.now (S.content store.new) }
    ensures settled { IsSettled (S.content store.new) }
    ensures fault { Fails (SeedCanFail people.now (S.content store.old) (S.content store.new)) result }
    ensures sane { SaneThen Sane (S.content store.old) (S.content store.new) }
{
    // They are read for the ranges that their types keep.
    people.in_range();
    let made = make_seed(alloc, store, people);
    store.at_rest();
    made
}

/// Makes the plan of the people, and commits it. It makes at most one write, and none for a list that is denied.
fn make_seed<S: Store>(alloc: Global, store: &mut S, people: &People) -> Result<Reply, StoreFault>
    ensures leads { Leads (S.content store.old) (S.content store.new) }
    ensures once { WritesOnce (S.content store.old) (S.content store.new) }
    ensures seeds { IfOk result (λ reply. (S.content store.new).honest → Seeds (S.content store.old) people.now reply
        (S.content store.new)) }
    ensures answered { IfOk result IsSeedReply }
    ensures quiet { IfOk result (λ reply. reply ≡ Reply.Denied 20 →
        (S.content store.new).writes ≤ (S.content store.old).writes) }
    ensures left { OnErr result (KeptWorld (S.content store.old) (S.content store.new)) }
    ensures stops { StopsInSeed (S.content store.old) people.now (S.content store.new) }
    ensures fault { Fails (SeedCanFail people.now (S.content store.old) (S.content store.new)) result }
{
    let plan = plan_seed(alloc, store, people)?;
    commit(alloc, store, plan)
}

/// The plan of the people: a denial where one of them contradicts what is known, which a look-up told.
fn plan_seed<S: ReadStore>(
    alloc: Global,
    store: &mut S,
    people: &People,
) -> Result<Plan, StoreFault>
    ensures kept { Kept (S.content store.old) (S.content store.new) }
    ensures fault { Fails (CanFailIn (S.content store.old) (S.content store.new)) result }
    ensures answered { IfOk result (λ plan. IsSeedReply plan.reply) }
    ensures changes { IfOk result
        (λ plan. (plan.change ≡ Change.Nothing) ⊎ (plan.change ≡ Change.Import people.now)) }
    ensures denied { IfOk result (λ plan. plan.reply ≡ Reply.Denied 20 → plan.change ≡ Change.Nothing) }
    ensures asked { IfOk result (λ plan. plan.change ≡ Change.Nothing → (S.content store.new).honest
        → (S.content store.new).serves) }
    ensures told { Told (S.content store.old) (S.content store.new) result
        (λ world plan. IsSeedPlan world people.now plan) }
{
    if any_conflict(alloc, store, people.as_slice())? {
        return Ok(Plan::of(Reply::Denied(Rule::ListConflict.number())));
    }
    plan_import(alloc, store, people)
}

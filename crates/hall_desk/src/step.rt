//! Plans made and committed, one request after another.
ghost use Rattle.std.specs.Prelude.{◌≡◌, ◌⊎◌, ◌+◌, ◌≤◌, ◌<◌, ◌++◌, ◌∷◌, [], length, IfOk, IsOk, OnErr, vec_len};
ghost use Rattle.std.specs.Prelude.{vec_capacity};
ghost use Rattle.hall_store.specs.Store.{CanRefuseIn};
ghost use Rattle.hall_store.specs.Store.{Leads, LeavesOneOf, IsSettled, MakesInWorld, WritesOnce, Asks, Fails};
ghost use Rattle.hall_store.specs.Change.{CanMake, changed};
ghost use Rattle.hall_store.specs.declared.change.Change.{Change};
ghost use Rattle.hall_desk.specs.Desk.{SaneThen};
ghost use Rattle.hall_desk.specs.Sane.{Sane};
ghost use Rattle.hall_desk.specs.Plans.{IsStepOver, StopsWithin, LeavesRun, Runs, AreStepped, IsNobodys, AreNobodys};
ghost use Rattle.hall_desk.specs.Plans.{IsAvailable};
ghost use Rattle.hall_desk.specs.Plans.{NobodysAreAnswered, WritesIfAny};

use crate::copies::Copies;
use crate::plan::Plan;
use crate::planning::make_plan;
use crate::reply::Reply;
use hall_policy::{Moment, Request};
use hall_store::{Change, Store, StoreFault};
use std::alloc::{AllocError, Global};

/// Makes the plan's change by one write, and answers its reply; where it changes nothing, by none.
pub(crate) fn commit<S: Store>(
    alloc: Global,
    store: &mut S,
    plan: Plan,
) -> Result<Reply, StoreFault>
    requires { Asks (S.content store.old) (CanMake plan.change) }
    ensures leads { Leads (S.content store.old) (S.content store.new) }
    ensures once { WritesOnce (S.content store.old) (S.content store.new) }
    ensures stops { (S.content store.old).serves → LeavesOneOf (λ before left. left ≡ changed plan.change before)
        (S.content store.old) (S.content store.new) }
    ensures made { (plan.change ≡ Change.Nothing)
        ⊎ MakesInWorld plan.change (S.content store.old) (S.content store.new) result }
    ensures fault { Fails (CanRefuseIn plan.change (S.content store.old) (S.content store.new)) result }
    ensures nothing { plan.change ≡ Change.Nothing → IsOk result × (store.new ≡ store.old) }
    ensures reply { IfOk result (λ reply. reply ≡ plan.reply) }
{
    let Plan { reply, change, .. } = plan;
    make(alloc, store, change)?;
    Ok(reply)
}

/// Makes the change by its one call of the store.
pub(crate) fn make<S: Store>(alloc: Global, store: &mut S, change: Change) -> Result<(), StoreFault>
    requires { Asks (S.content store.old) (CanMake change) }
    ensures leads { Leads (S.content store.old) (S.content store.new) }
    ensures once { WritesOnce (S.content store.old) (S.content store.new) }
    ensures stops { (S.content store.old).serves → LeavesOneOf (λ before left. left ≡ changed change before)
        (S.content store.old) (S.content store.new) }
    ensures made { (change ≡ Change.Nothing) ⊎ MakesInWorld change (S.content store.old) (S.content store.new) result }
    ensures fault { Fails (CanRefuseIn change (S.content store.old) (S.content store.new)) result }
    ensures nothing { change ≡ Change.Nothing → IsOk result × (store.new ≡ store.old) }
{
    match change {
        Change::Nothing => Ok(()),
        Change::Import(people) => store.import(alloc, &people),
        Change::PutPuzzle(row) => store.put_puzzle(alloc, row),
        Change::SetState { key, state } => store.set_state(alloc, &key, state),
        Change::PutRound(row) => store.put_round(alloc, row),
        Change::SetRoundFlag { round, flag } => store.set_round_flag(alloc, &round, flag),
        Change::AddAnswer(row) => store.add_answer(alloc, row),
        Change::AddAnswers(rows) => store.add_answers(alloc, &rows),
        Change::AddProtest(row) => store.add_protest(alloc, row),
        Change::RuleProtest { key, ruling } => store.rule_protest(alloc, &key, ruling),
    }
}

/// Answers one request, by one write at most, and by none where the request is denied, repeated or has nothing to
/// write. It is read for the ranges that its types keep, and so keeps a sane world.
pub(crate) fn step<S: Store>(alloc: Global, store: &mut S, t: Moment, request: &Request) -> Reply
    ensures leads { Leads (S.content store.old) (S.content store.new) }
    ensures once { WritesOnce (S.content store.old) (S.content store.new) }
    ensures steps { (S.content store.new).honest → IsStepOver (S.content store.old) t request.now result
        (S.content store.new) }
    ensures quiet { WritesIfAny (S.content store.old) t request.now (S.content store.new) }
    ensures stops { StopsWithin (S.content store.old) t request.now result (S.content store.new) }
    ensures settled { IsSettled (S.content store.new) }
    ensures answered { IsNobodys request.now → IsAvailable result }
    ensures untouched { IsNobodys request.now → store.new ≡ store.old }
    ensures sane { SaneThen Sane (S.content store.old) (S.content store.new) }
{
    let _moment = t.get();
    request.in_range();
    let reply = make_step(alloc, store, t, request);
    store.at_rest();
    reply
}

/// Makes the request's plan, and commits it.
fn make_step<S: Store>(alloc: Global, store: &mut S, t: Moment, request: &Request) -> Reply
    ensures leads { Leads (S.content store.old) (S.content store.new) }
    ensures once { WritesOnce (S.content store.old) (S.content store.new) }
    ensures steps { (S.content store.new).honest → IsStepOver (S.content store.old) t request.now result
        (S.content store.new) }
    ensures quiet { WritesIfAny (S.content store.old) t request.now (S.content store.new) }
    ensures stops { StopsWithin (S.content store.old) t request.now result (S.content store.new) }
    ensures answered { IsNobodys request.now → IsAvailable result }
    ensures untouched { IsNobodys request.now → store.new ≡ store.old }
{
    let made = make_plan(alloc, store, t, request, &mut Copies::none(), &None);
    match made {
        Ok(plan) => match commit(alloc, store, plan) {
            Ok(reply) => reply,
            Err(_) => Reply::Unavailable,
        },
        Err(_) => Reply::Unavailable,
    }
}

/// Answers the requests one after another, by no more writes than there are requests. Room for all replies is made
/// before the first.
pub(crate) fn run<S: Store>(
    alloc: Global,
    store: &mut S,
    requests: &[(Moment, Request)],
) -> Result<Vec<Reply>, AllocError>
    ensures leads { Leads (S.content store.old) (S.content store.new) }
    ensures few { (S.content store.new).writes ≤ (S.content store.old).writes + length requests.now }
    ensures runs { IfOk result (λ replies. (S.content store.new).honest →
        Runs (S.content store.old) requests.now replies.items (S.content store.new)) }
    ensures sane { SaneThen Sane (S.content store.old) (S.content store.new) }
    ensures left { IfOk result (λ replies. LeavesRun (S.content store.old) requests.now replies.items
        (S.content store.new)) }
    ensures stepped { IfOk result (λ replies. AreStepped S.content store.old requests.now replies.items store.new) }
    ensures answered { IfOk result (λ replies. NobodysAreAnswered requests.now replies.items) }
    ensures untouched { AreNobodys requests.now → store.new ≡ store.old }
    ensures refused { OnErr result (store.new ≡ store.old) }
{
    let mut replies = Vec::with_capacity(alloc, requests.len())?;
    store.at_rest();
    for asked in requests {
        let reply = step(alloc, store, asked.0, &asked.1);
        keep(&mut replies, reply);
    }
    Ok(replies)
}

/// Puts the reply at the end, where there is room.
fn keep(replies: &mut Vec<Reply>, reply: Reply)
    requires { vec_len replies.old < vec_capacity replies.old }
    ensures items { replies.new.items ≡ replies.old.items ++ reply ∷ [] }
    ensures len { vec_len replies.new ≡ vec_len replies.old + 1 }
    ensures capacity { vec_capacity replies.old ≤ vec_capacity replies.new }
{
    let _ = replies.push(reply);
}

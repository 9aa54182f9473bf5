//! Answers of different people, which are stored together.
ghost use Rattle.std.specs.Prelude.{◌≡◌, ◌≢◌, All, IfOk, IfSome, OnErr, OnOk, Some, true};
ghost use Rattle.hall_policy.specs.declared.record.Person.{Person as Known};
ghost use Rattle.hall_store.specs.Store.{Kept};
ghost use Rattle.hall_desk.specs.Plans.{IsNobodys};
ghost use Rattle.hall_desk.specs.Together.{IsPlanBeside, IsSubmission, TakesPlan};

use crate::copies::Copies;
use crate::plan::Plan;
use crate::planning::plan_for_caller;
use crate::request_at::{RequestAt, no_facts};
use hall_policy::{Action, AnswerRow, Facts, Key, Moment, Name, Person, Request};
use hall_store::{Change, JointAnswers, ReadStore, StoreFault};
use std::alloc::{AllocError, Global};

/// Whether each of the answers is another person's.
fn are_of_others(rows: &[AnswerRow], name: &Name) -> bool
    ensures { result ≡ true → All (λ row. row.key.entrant ≢ name.now) rows.now }
{
    for row in rows {
        if row.key.entrant == *name {
            return false;
        }
    }
    true
}

/// Whether the caller, if anybody, may join these answers: none of them is the caller's.
fn may_join(joint: &JointAnswers, caller: &Option<Person>) -> bool
    ensures { result ≡ true → (person : Known) → caller.now ≡ Some person →
        All (λ row. row.key.entrant ≢ person.name) joint.now }
{
    match caller {
        Some(person) => are_of_others(joint.as_slice(), &person.name),
        None => true,
    }
}

/// Puts the answer that the plan stores at the end of these, or leaves them where the plan changes nothing. Refused, it
/// leaves them: the plan can't join, there are as many as there may be, or it is out of memory.
pub fn take(joint: &mut JointAnswers, plan: Plan) -> Result<(), AllocError>
    ensures taken { OnOk result (TakesPlan plan joint.old joint.new) }
    ensures left { OnErr result (joint.new ≡ joint.old) }
{
    let Plan { change, .. } = plan;
    match change {
        Change::Nothing => Ok(()),
        Change::AddAnswer(row) => joint.push(row),
        _ => Err(AllocError),
    }
}

/// The plan for an answer after these answers, which aren't stored yet, if it may join them: none of them is of the
/// same person. Reads only.
pub(crate) fn plan_beside<S: ReadStore>(
    alloc: Global,
    store: &mut S,
    joint: &JointAnswers,
    t: Moment,
    request: &Request,
) -> Result<Option<Plan>, StoreFault>
    ensures kept { Kept (S.content store.old) (S.content store.new) }
    ensures untouched { IsNobodys request.now → store.new ≡ store.old }
    ensures planned { IfOk result (λ found. IfSome found
        (IsPlanBeside (S.content store.new) t request.now joint.now)) }
{
    match (&request.action, &request.key) {
        (Action::Submit { .. }, Some(key)) => {
            let mut facts = no_facts();
            let asked = RequestAt {
                alloc,
                t,
                request,
                memo: &None,
            };
            let plan = plan_for_key(&asked, store, joint, key, &mut facts);
            drop(facts);
            plan
        }
        _ => Ok(None),
    }
}

/// The plan for an answer by whoever has the key, with the facts that it rests on.
fn plan_for_key<S: ReadStore>(
    asked: &RequestAt,
    store: &mut S,
    joint: &JointAnswers,
    key: &Key,
    facts: &mut Facts,
) -> Result<Option<Plan>, StoreFault>
    requires { IsSubmission key.now asked.now.request.now }
    ensures kept { Kept (S.content store.old) (S.content store.new) }
    ensures planned { IfOk result (λ found. IfSome found
        (IsPlanBeside (S.content store.new) asked.now.t asked.now.request.now joint.now)) }
{
    facts.caller = store.person_by_key(asked.alloc, key)?;
    if !may_join(joint, &facts.caller) {
        return Ok(None);
    }
    let plan = plan_for_caller(asked, store, facts, &mut Copies::none())?;
    Ok(Some(plan))
}

//! Import: the people of a list whose names are unknown are added.
ghost use Rattle.std.specs.Prelude.{◌≡◌, ◌≢◌, ◌↔◌, ◌⊎◌, ℕ, List, IsTrue, IfOk, Contains};
ghost use Rattle.std.specs.FinMap.{get};
ghost use Rattle.hall_policy.specs.Rules.{Conflicts};
ghost use Rattle.hall_store.specs.Store.{CanFailIn, Kept, Served, Told, Fails};
ghost use Rattle.hall_desk.specs.Step.{unknown_people};
ghost use Rattle.hall_desk.specs.Plans.{IsImportPlan, IsSeedReply};

use crate::handler::Handler;
use crate::plan::Plan;
use crate::reply::Reply;
use hall_policy::{Action, Decision, Facts, Moment, People, Person, decide};
use hall_store::{Change, ReadStore, StoreFault};
use std::alloc::{AllocError, Global};

/// What is imported: a list of people.
#[derive(Clone, Copy)]
pub(crate) struct Import<'a> {
    pub(crate) people: &'a People,
}

impl<'a> Handler for Import<'a> {
    ghost use Rattle.hall_desk.specs.Handler.{import_action};

    ghost action_of = { import_action };

    fn decision<S: ReadStore>(
        &self,
        alloc: Global,
        store: &mut S,
        t: Moment,
        action: &Action,
        facts: &mut Facts,
    ) -> Result<Decision, StoreFault> {
        facts.conflict = any_conflict(alloc, store, self.people.as_slice())?;
        Ok(decide(facts, action, t))
    }

    fn first_reply(&self, _facts: &Facts) -> Result<Option<Reply>, AllocError> {
        Ok(None)
    }

    fn plan<S: ReadStore>(
        &self,
        alloc: Global,
        store: &mut S,
        _t: Moment,
        _facts: &Facts,
    ) -> Result<Plan, StoreFault> {
        plan_import(alloc, store, self.people)
    }
}

/// The plan that counts and adds the people whose names are unknown.
pub(crate) fn plan_import<S: ReadStore>(
    alloc: Global,
    store: &mut S,
    people: &People,
) -> Result<Plan, StoreFault>
    ensures kept { Kept (S.content store.old) (S.content store.new) }
    ensures fault { Fails (CanFailIn (S.content store.old) (S.content store.new)) result }
    ensures answered { IfOk result (λ plan. IsSeedReply plan.reply × (plan.change ≢ Change.Nothing)) }
    ensures imports { IfOk result (λ plan. plan.change ≡ Change.Import people.now) }
    ensures allowed { IfOk result (λ plan. plan.reply ≢ Reply.Denied 20) }
    ensures told { Told (S.content store.old) (S.content store.new) result
        (λ world plan. IsImportPlan world people.now plan) }
{
    let added = count_unknown(alloc, store, people.as_slice())?;
    let people = people.clone()?;
    Ok(Plan {
        reply: Reply::Import(added),
        change: Change::Import(people),
        visits: None,
    })
}

/// Whether one of the people contradicts what is known.
pub(crate) fn any_conflict<S: ReadStore>(
    alloc: Global,
    store: &mut S,
    people: &[Person],
) -> Result<bool, StoreFault>
    ensures kept { Kept (S.content store.old) (S.content store.new) }
    ensures fault { Fails (CanFailIn (S.content store.old) (S.content store.new)) result }
    ensures asked { IfOk result (λ found. IsTrue found → (S.content store.new).honest → (S.content store.new).serves) }
    ensures told { Told (S.content store.old) (S.content store.new) result
        (λ world found. IsTrue found ↔ ((person : Person) × Contains people.now person × Conflicts world person)) }
{
    for person in people {
        if conflicts(alloc, store, person)? {
            return Ok(true);
        }
    }
    Ok(false)
}

/// Whether the person has a known name with another key or other roles, has the key of another person, or is director
/// and entrant.
fn conflicts<S: ReadStore>(
    alloc: Global,
    store: &mut S,
    person: &Person,
) -> Result<bool, StoreFault>
    ensures kept { Kept (S.content store.old) (S.content store.new) }
    ensures fault { Fails (CanFailIn (S.content store.old) (S.content store.new)) result }
    ensures served { Served (S.content store.new) result (λ world found. IsTrue found ↔ Conflicts world person.now) }
{
    if is_changed(alloc, store, person)? {
        return Ok(true);
    }
    if has_key_of_another(alloc, store, person)? {
        return Ok(true);
    }
    let roles = person.roles.get();
    Ok(roles.director && roles.entrant)
}

/// Whether the name is known, with another key or other roles.
fn is_changed<S: ReadStore>(
    alloc: Global,
    store: &mut S,
    person: &Person,
) -> Result<bool, StoreFault>
    ensures kept { Kept (S.content store.old) (S.content store.new) }
    ensures fault { Fails (CanFailIn (S.content store.old) (S.content store.new)) result }
    ensures served { Served (S.content store.new) result
        (λ world found. IsTrue found ↔ ((known : Person) × (get world.people person.now.name ≡ Some known)
        × ((known.key ≢ person.now.key) ⊎ (known.roles ≢ person.now.roles)))) }
{
    match store.person(alloc, &person.name)? {
        Some(known) => Ok(differs(&known, person)),
        None => Ok(false),
    }
}

/// Whether the known person has another key or other roles.
fn differs(known: &Person, person: &Person) -> bool
    ensures { IsTrue result ↔ ((known.now.key ≢ person.now.key) ⊎ (known.now.roles ≢ person.now.roles)) }
{
    !known.key.is_same(&person.key) || known.roles.get() != person.roles.get()
}

/// Whether somebody of another name has the key.
fn has_key_of_another<S: ReadStore>(
    alloc: Global,
    store: &mut S,
    person: &Person,
) -> Result<bool, StoreFault>
    ensures kept { Kept (S.content store.old) (S.content store.new) }
    ensures fault { Fails (CanFailIn (S.content store.old) (S.content store.new)) result }
    ensures served { Served (S.content store.new) result
        (λ world found. IsTrue found ↔ ((other : List ℕ) × (known : Person) × (get world.people other ≡ Some known)
        × (other ≢ person.now.name) × (known.key ≡ person.now.key))) }
{
    match store.person_by_key(alloc, &person.key)? {
        Some(known) => Ok(!known.name.is_same(&person.name)),
        None => Ok(false),
    }
}

/// How many of the people have a name that is unknown.
fn count_unknown<S: ReadStore>(
    alloc: Global,
    store: &mut S,
    people: &[Person],
) -> Result<u64, StoreFault>
    ensures kept { Kept (S.content store.old) (S.content store.new) }
    ensures fault { Fails (CanFailIn (S.content store.old) (S.content store.new)) result }
    ensures told { Told (S.content store.old) (S.content store.new) result
        (λ world count. count ≡ unknown_people world people.now) }
{
    let mut count = 0;
    for person in people {
        if store.person(alloc, &person.name)?.is_none() {
            count += 1;
        }
    }
    Ok(count)
}

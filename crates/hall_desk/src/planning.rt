//! From a request to its plan: the caller, what the rules read, the decision, and what an allowed action answers and
//! changes.
ghost use Rattle.std.specs.Prelude.{◌≡◌, ◌≢◌, ℕ, List, None};
ghost use Rattle.hall_policy.specs.World.{World};
ghost use Rattle.hall_policy.specs.Decided.{PassesUpTo};
ghost use Rattle.hall_policy.specs.declared.request.Action.TheVariants.{Answers, ReadRound, Table};
ghost use Rattle.hall_store.specs.Store.{Asks, Kept, Told};
ghost use Rattle.hall_store.specs.declared.change.Change.{Change};
ghost use Rattle.hall_desk.specs.Copies.{AreCopied};
ghost use Rattle.hall_desk.specs.TableCopy.{AreTablesCopied};
ghost use Rattle.hall_desk.specs.Lookups.{IsCaller};
ghost use Rattle.hall_desk.specs.Plans.{IsPlanFor, Planned, FailsIn, IsAvailable, IsNobodys, IsQuietPlan};

use crate::answers::plan_answers;
use crate::certify_puzzle::Certify;
use crate::copies::Copies;
use crate::handler::Handler;
use crate::import::Import;
use crate::list_puzzles::ListPuzzles;
use crate::list_rounds::ListRounds;
use crate::memo::Memo;
use crate::plan::Plan;
use crate::protest::Protest;
use crate::protests::Protests;
use crate::publish::Publish;
use crate::put_puzzle::PutPuzzle;
use crate::put_round::PutRound;
use crate::read_puzzle::ReadPuzzle;
use crate::read_round::plan_round;
use crate::release::Release;
use crate::reply::Reply;
use crate::request_at::{RequestAt, caller_rule, no_facts};
use crate::rows::Rows;
use crate::rule_protest::RuleProtest;
use crate::solutions::Solutions;
use crate::submit::Submit;
use crate::table::plan_table;
use crate::table_copy::TableCopy;
use hall_policy::{Action, Decision, Facts, Moment, Request, RoundId};
use hall_store::{ReadStore, StoreFault};
use std::alloc::Global;

/// What the request will be answered, and what it will change. Reads only, and for a denial nothing that a later rule
/// asks. A table, a round that is read, or a listing of all answers is the one that is kept, where the round has one;
/// and what a search would find is what is remembered, where that is of the same puzzle and budget.
pub(crate) fn make_plan<S: ReadStore>(
    alloc: Global,
    store: &mut S,
    t: Moment,
    request: &Request,
    copies: &mut Copies,
    memo: &Option<Memo>,
) -> Result<Plan, StoreFault>
    requires { AreCopied (S.content store.old) copies.old }
    ensures kept { Kept (S.content store.old) (S.content store.new) }
    ensures untouched { IsNobodys request.now → store.new ≡ store.old }
    ensures keyless { IsNobodys request.now → IsQuietPlan result }
    ensures fault { FailsIn (S.content store.old) (S.content store.new) result }
    ensures planned { Planned (S.content store.new) t request.now result }
    ensures copied { AreCopied (S.content store.new) copies.new }
{
    let mut facts = no_facts();
    let asked = RequestAt {
        alloc,
        t,
        request,
        memo,
    };
    let plan = match &request.action {
        Action::Table { round } => {
            plan_for_anyone(&asked, store, round, &mut facts, &mut copies.tables)
        }
        _ => plan_by_key(&asked, store, &mut facts, copies),
    };
    drop(facts);
    plan
}

/// The plan for a table, which anyone may ask for, with a key or without.
fn plan_for_anyone<S: ReadStore>(
    asked: &RequestAt,
    store: &mut S,
    round: &RoundId,
    facts: &mut Facts,
    copied: &mut Option<Rows<TableCopy>>,
) -> Result<Plan, StoreFault>
    requires facts { facts.old.caller ≡ None }
    requires action { asked.now.request.now.action ≡ Table round.now }
    requires copied { AreTablesCopied (S.content store.old) copied.old }
    ensures kept { Kept (S.content store.old) (S.content store.new) }
    ensures fault { FailsIn (S.content store.old) (S.content store.new) result }
    ensures planned { Planned (S.content store.new) asked.now.t asked.now.request.now result }
    ensures copied { AreTablesCopied (S.content store.new) copied.new }
{
    if let Some(key) = &asked.request.key {
        facts.caller = store.person_by_key(asked.alloc, key)?;
    }
    plan_table(asked, store, round, facts, copied)
}

/// The plan for a request that its key decides first, with the facts that it rests on.
fn plan_by_key<S: ReadStore>(
    asked: &RequestAt,
    store: &mut S,
    facts: &mut Facts,
    copies: &mut Copies,
) -> Result<Plan, StoreFault>
    requires facts { facts.old.caller ≡ None }
    requires copied { AreCopied (S.content store.old) copies.old }
    requires action { (round : List ℕ) → asked.now.request.now.action ≢ Table round }
    ensures kept { Kept (S.content store.old) (S.content store.new) }
    ensures untouched { IsNobodys asked.now.request.now → store.new ≡ store.old }
    ensures keyless { IsNobodys asked.now.request.now → IsQuietPlan result }
    ensures fault { FailsIn (S.content store.old) (S.content store.new) result }
    ensures planned { Planned (S.content store.new) asked.now.t asked.now.request.now result }
    ensures copied { AreCopied (S.content store.new) copies.new }
{
    match &asked.request.key {
        Some(key) => {
            facts.caller = store.person_by_key(asked.alloc, key)?;
            plan_for_caller(asked, store, facts, copies)
        }
        None => Ok(deny_without_key(asked, facts)),
    }
}

/// The plan for a request without a key: a denial, which asks nothing of the store.
fn deny_without_key(asked: &RequestAt, facts: &Facts) -> Plan
    requires key { asked.now.request.now.key ≡ None }
    requires caller { facts.now.caller ≡ None }
    requires action { (round : List ℕ) → asked.now.request.now.action ≢ Table round }
    ensures change { result.change ≡ Change.Nothing }
    ensures available { IsAvailable result.reply }
    ensures planned { (world : World) → IsPlanFor world asked.now.t asked.now.request.now result }
{
    match caller_rule(facts, &asked.request.action, asked.t) {
        Some(rule) => Plan::of(Reply::Denied(rule)),
        None => unreachable!(),
    }
}

/// The plan where the caller was looked up. The rules on the caller are asked before anything else is read.
pub(crate) fn plan_for_caller<S: ReadStore>(
    asked: &RequestAt,
    store: &mut S,
    facts: &mut Facts,
    copies: &mut Copies,
) -> Result<Plan, StoreFault>
    requires copied { AreCopied (S.content store.old) copies.old }
    requires caller { Asks (S.content store.old) (λ world. IsCaller world asked.now.request.now.key facts.old.caller) }
    requires action { (round : List ℕ) → asked.now.request.now.action ≢ Table round }
    ensures kept { Kept (S.content store.old) (S.content store.new) }
    ensures fault { FailsIn (S.content store.old) (S.content store.new) result }
    ensures told { Told (S.content store.old) (S.content store.new) result
        (λ world plan. IsPlanFor world asked.now.t asked.now.request.now plan) }
    ensures copied { AreCopied (S.content store.new) copies.new }
{
    match caller_rule(facts, &asked.request.action, asked.t) {
        Some(rule) => Ok(Plan::of(Reply::Denied(rule))),
        None => match &asked.request.action {
            Action::ReadRound { round } => {
                plan_round(asked, store, round, facts, &mut copies.round)
            }
            Action::Answers { round } => {
                plan_answers(asked, store, round, facts, &mut copies.listings)
            }
            _ => dispatch(asked, store, facts),
        },
    }
}

/// The plan of the request's action, by its handler. (A table, a round that is read and a listing of answers have
/// none.)
fn dispatch<S: ReadStore>(
    asked: &RequestAt,
    store: &mut S,
    facts: &mut Facts,
) -> Result<Plan, StoreFault>
    requires caller { Asks (S.content store.old) (λ world. IsCaller world asked.now.request.now.key facts.old.caller) }
    requires passed { PassesUpTo 3 facts.old asked.now.request.now.action asked.now.t }
    requires action { (round : List ℕ) → asked.now.request.now.action ≢ Table round }
    requires reads { (round : List ℕ) → asked.now.request.now.action ≢ ReadRound round }
    requires lists { (round : List ℕ) → asked.now.request.now.action ≢ Answers round }
    ensures kept { Kept (S.content store.old) (S.content store.new) }
    ensures fault { FailsIn (S.content store.old) (S.content store.new) result }
    ensures told { Told (S.content store.old) (S.content store.new) result
        (λ world plan. IsPlanFor world asked.now.t asked.now.request.now plan) }
{
    match &asked.request.action {
        Action::Import { people } => asked.handle(store, &Import { people }, facts),
        Action::PutPuzzle { key, puzzle } => asked.handle(store, &PutPuzzle { key, puzzle }, facts),
        Action::ReadPuzzle { key } => asked.handle(store, &ReadPuzzle { key }, facts),
        Action::ListPuzzles => asked.handle(store, &ListPuzzles {}, facts),
        Action::Certify { key, budget } => {
            asked.handle(store, &Certify::of(key, *budget, asked.memo), facts)
        }
        Action::PutRound { round, sheet } => asked.handle(store, &PutRound { round, sheet }, facts),
        Action::Release { round } => asked.handle(store, &Release { round }, facts),
        Action::ListRounds => asked.handle(store, &ListRounds {}, facts),
        Action::Submit {
            round,
            number,
            token,
            answer,
        } => asked.handle(store, &Submit::of(round, *number, token, answer), facts),
        Action::Solutions { round } => asked.handle(store, &Solutions { round }, facts),
        Action::Protest {
            round,
            token,
            number,
            text,
        } => asked.handle(store, &Protest::of(round, token, *number, text), facts),
        Action::Protests { round } => asked.handle(store, &Protests { round }, facts),
        Action::RuleProtest {
            round,
            entrant,
            token,
            ruling,
        } => asked.handle(
            store,
            &RuleProtest::of(round, entrant, token, *ruling),
            facts,
        ),
        Action::Publish { round } => asked.handle(store, &Publish { round }, facts),
        Action::ReadRound { .. } | Action::Answers { .. } | Action::Table { .. } => unreachable!(),
    }
}

impl<'a> RequestAt<'a> {
    /// The plan by the action's handler: as it decides.
    fn handle<H: Handler, S: ReadStore>(
        &self,
        store: &mut S,
        handler: &H,
        facts: &mut Facts,
    ) -> Result<Plan, StoreFault>
        requires same { self.now.request.now.action ≡ H.action_of handler.now }
        requires caller { Asks (S.content store.old)
            (λ world. IsCaller world self.now.request.now.key facts.old.caller) }
        requires passed { PassesUpTo 3 facts.old self.now.request.now.action self.now.t }
        ensures kept { Kept (S.content store.old) (S.content store.new) }
        ensures fault { FailsIn (S.content store.old) (S.content store.new) result }
        ensures told { Told (S.content store.old) (S.content store.new) result
            (λ world plan. IsPlanFor world self.now.t self.now.request.now plan) }
    {
        let decision = handler.decision(self.alloc, store, self.t, &self.request.action, facts)?;
        match decision {
            Decision::Deny(rule) => Ok(Plan::of(Reply::Denied(rule))),
            Decision::Repeat => match handler.first_reply(facts)? {
                Some(reply) => Ok(Plan::of(reply)),
                None => unreachable!(),
            },
            Decision::Allow => handler.plan(self.alloc, store, self.t, facts),
        }
    }
}

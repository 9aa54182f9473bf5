//! RuleProtest: a protest is ruled.
ghost use Rattle.std.specs.Prelude.{◌≡◌, ◌↔◌, IfOk, IsTrue};
ghost use Rattle.hall_policy.specs.Rules.{IsInvolved};
ghost use Rattle.hall_policy.specs.declared.request.Action.{Action};
ghost use Rattle.hall_store.specs.Store.{CanFailIn, Kept, Told, Fails};
ghost use Rattle.hall_store.specs.declared.change.Change.{Change};
ghost use Rattle.hall_desk.specs.Handler.{rule_protest_action, ruled_key};

use crate::find_round::find_round;
use crate::handler::Handler;
use crate::plan::Plan;
use crate::reply::Reply;
use hall_policy::{
    Action, Decision, Facts, Moment, Name, ProtestKey, RoundId, Rule, Ruling, Token, decide,
    decide_up_to,
};
use hall_store::{Change, ReadStore, StoreFault};
use std::alloc::{AllocError, Global};

/// What is ruled, and how: the entrant's protest in the round under the token.
#[derive(Clone, Copy)]
pub(crate) struct RuleProtest<'a> {
    pub(crate) round: &'a RoundId,
    pub(crate) entrant: &'a Name,
    pub(crate) token: &'a Token,
    pub(crate) ruling: Ruling,
}

impl<'a> RuleProtest<'a> {
    /// A ruling of the entrant's protest in the round under the token.
    pub(crate) fn of(
        round: &'a RoundId,
        entrant: &'a Name,
        token: &'a Token,
        ruling: Ruling,
    ) -> RuleProtest<'a>
        ensures { rule_protest_action result ≡ Action.RuleProtest round.now entrant.now token.now ruling }
    {
        RuleProtest {
            round,
            entrant,
            token,
            ruling,
        }
    }
}

impl<'a> Handler for RuleProtest<'a> {
    ghost use Rattle.hall_desk.specs.Handler.{rule_protest_action};

    ghost action_of = { rule_protest_action };

    /// The referee's answers are looked up where the round and the protest are there.
    fn decision<S: ReadStore>(
        &self,
        alloc: Global,
        store: &mut S,
        t: Moment,
        action: &Action,
        facts: &mut Facts,
    ) -> Result<Decision, StoreFault> {
        facts.round = find_round(alloc, store, self.round)?;
        let key = key_of(self)?;
        facts.protest = store.protest(alloc, &key)?;
        if let Some(decision) = decide_up_to(facts, action, t, Rule::Missing) {
            return Ok(decision);
        }
        facts.involved = is_involved(alloc, store, facts, self)?;
        Ok(decide(facts, action, t))
    }

    fn first_reply(&self, facts: &Facts) -> Result<Option<Reply>, AllocError> {
        let Some(row) = &facts.protest else {
            return Ok(None);
        };
        match &row.ruling {
            Some(ruling) => Ok(Some(Reply::RuleProtest(*ruling))),
            None => Ok(None),
        }
    }

    fn plan<S: ReadStore>(
        &self,
        _alloc: Global,
        _store: &mut S,
        _t: Moment,
        _facts: &Facts,
    ) -> Result<Plan, StoreFault> {
        Ok(ruled(self)?)
    }
}

/// Whether the caller made the protest or has an answer in the round.
fn is_involved<S: ReadStore>(
    alloc: Global,
    store: &mut S,
    facts: &Facts,
    asked: &RuleProtest,
) -> Result<bool, StoreFault>
    ensures kept { Kept (S.content store.old) (S.content store.new) }
    ensures fault { Fails (CanFailIn (S.content store.old) (S.content store.new)) result }
    ensures told { Told (S.content store.old) (S.content store.new) result
        (λ world involved. IsTrue involved ↔ IsInvolved world facts.now.caller (rule_protest_action asked.now)) }
{
    match &facts.caller {
        Some(person) if asked.entrant.is_same(&person.name) => Ok(true),
        Some(person) => store.has_answered(alloc, &person.name, asked.round),
        None => Ok(false),
    }
}

/// The plan that rules the protest.
fn ruled(asked: &RuleProtest) -> Result<Plan, AllocError>
    ensures reply { IfOk result (λ plan. plan.reply ≡ Reply.RuleProtest asked.now.ruling) }
    ensures change { IfOk result (λ plan. plan.change ≡ Change.RuleProtest (ruled_key asked.now) asked.now.ruling) }
{
    Ok(Plan {
        reply: Reply::RuleProtest(asked.ruling),
        change: Change::RuleProtest {
            key: key_of(asked)?,
            ruling: asked.ruling,
        },
        visits: None,
    })
}

/// Where the protest is kept.
fn key_of(asked: &RuleProtest) -> Result<ProtestKey, AllocError>
    ensures { IfOk result (λ key. key ≡ ruled_key asked.now) }
{
    Ok(ProtestKey {
        entrant: asked.entrant.clone()?,
        round: asked.round.clone()?,
        token: asked.token.clone()?,
    })
}

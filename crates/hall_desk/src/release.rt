//! Release: a draft is released.
ghost use Rattle.std.specs.Prelude.{IfOk};
ghost use Rattle.hall_policy.specs.Implies.{IsAllowable};
ghost use Rattle.hall_policy.specs.declared.request.Action.{Action};
ghost use Rattle.hall_desk.specs.Plans.{IsPlanOf};

use crate::find_round::find_round;
use crate::handler::Handler;
use crate::plan::Plan;
use crate::release_faults::{EntryFault, find_fault};
use crate::reply::Reply;
use hall_policy::{Action, Decision, Facts, Moment, RoundId, Rule, decide, decide_up_to};
use hall_store::{Change, ReadStore, RoundFlag, StoreFault};
use std::alloc::{AllocError, Global};

/// What is released: the round of this id.
#[derive(Clone, Copy)]
pub(crate) struct Release<'a> {
    pub(crate) round: &'a RoundId,
}

impl<'a> Handler for Release<'a> {
    ghost use Rattle.hall_desk.specs.Handler.{release_action};

    ghost action_of = { release_action };

    /// Each entry of the round is looked at for one fault, then for the other.
    fn decision<S: ReadStore>(
        &self,
        alloc: Global,
        store: &mut S,
        t: Moment,
        action: &Action,
        facts: &mut Facts,
    ) -> Result<Decision, StoreFault> {
        facts.round = find_round(alloc, store, self.round)?;
        if let Some(decision) = decide_up_to(facts, action, t, Rule::Missing) {
            return Ok(decision);
        }
        facts.in_released = find_fault(alloc, store, self.round, &facts.round, EntryFault::Shared)?;
        if let Some(decision) = decide_up_to(facts, action, t, Rule::InReleasedRound) {
            return Ok(decision);
        }
        facts.uncertified = find_fault(
            alloc,
            store,
            self.round,
            &facts.round,
            EntryFault::Uncertified,
        )?;
        Ok(decide(facts, action, t))
    }

    fn first_reply(&self, _facts: &Facts) -> Result<Option<Reply>, AllocError> {
        Ok(None)
    }

    fn plan<S: ReadStore>(
        &self,
        _alloc: Global,
        _store: &mut S,
        _t: Moment,
        facts: &Facts,
    ) -> Result<Plan, StoreFault> {
        Ok(release_round(facts, self.round)?)
    }
}

/// The plan of an allowed Release.
fn release_round(facts: &Facts, round: &RoundId) -> Result<Plan, AllocError>
    requires { IsAllowable facts.now (Action.Release round.now) }
    ensures { IfOk result (IsPlanOf facts.now (Action.Release round.now)) }
{
    let Some(_row) = &facts.round else {
        unreachable!()
    };
    let shown = round.clone()?;
    let kept = round.clone()?;
    Ok(Plan {
        reply: Reply::Release(shown),
        change: Change::SetRoundFlag {
            round: kept,
            flag: RoundFlag::Released,
        },
        visits: None,
    })
}

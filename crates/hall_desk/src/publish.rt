//! Publish: a round is published.
ghost use Rattle.std.specs.Prelude.{IfOk};
ghost use Rattle.hall_policy.specs.Implies.{IsAllowable};
ghost use Rattle.hall_policy.specs.declared.request.Action.{Action};
ghost use Rattle.hall_desk.specs.Plans.{IsPlanOf};

use crate::find_round::find_round;
use crate::handler::Handler;
use crate::plan::Plan;
use crate::reply::Reply;
use hall_policy::{Action, Decision, Facts, Moment, RoundId, Rule, decide, decide_up_to};
use hall_store::{Change, ReadStore, RoundFlag, StoreFault};
use std::alloc::{AllocError, Global};

/// What is published: the round of this id.
#[derive(Clone, Copy)]
pub(crate) struct Publish<'a> {
    pub(crate) round: &'a RoundId,
}

impl<'a> Handler for Publish<'a> {
    ghost use Rattle.hall_desk.specs.Handler.{publish_action};

    ghost action_of = { publish_action };

    /// Protests are looked through where nothing else forbids it.
    fn decision<S: ReadStore>(
        &self,
        alloc: Global,
        store: &mut S,
        t: Moment,
        action: &Action,
        facts: &mut Facts,
    ) -> Result<Decision, StoreFault> {
        facts.round = find_round(alloc, store, self.round)?;
        if let Some(decision) = decide_up_to(facts, action, t, Rule::Published) {
            return Ok(decision);
        }
        facts.open_protest = store.has_open_protest(alloc, self.round)?;
        Ok(decide(facts, action, t))
    }

    fn first_reply(&self, _facts: &Facts) -> Result<Option<Reply>, AllocError> {
        Ok(None)
    }

    fn plan<S: ReadStore>(
        &self,
        _alloc: Global,
        _store: &mut S,
        _t: Moment,
        facts: &Facts,
    ) -> Result<Plan, StoreFault> {
        Ok(publish_round(facts, self.round)?)
    }
}

/// The plan of an allowed Publish.
fn publish_round(facts: &Facts, round: &RoundId) -> Result<Plan, AllocError>
    requires { IsAllowable facts.now (Action.Publish round.now) }
    ensures { IfOk result (IsPlanOf facts.now (Action.Publish round.now)) }
{
    let Some(_row) = &facts.round else {
        unreachable!()
    };
    let shown = round.clone()?;
    let kept = round.clone()?;
    Ok(Plan {
        reply: Reply::Publish(shown),
        change: Change::SetRoundFlag {
            round: kept,
            flag: RoundFlag::Published,
        },
        visits: None,
    })
}

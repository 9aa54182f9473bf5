//! ListRounds: the rounds that the caller sees.
ghost use Rattle.std.specs.Prelude.{◌≡◌, IfOk, map};
ghost use Rattle.std.specs.List.{filter};
ghost use Rattle.hall_desk.specs.Shown.{sees_round, round_line};

use crate::handler::Handler;
use crate::plan::Plan;
use crate::reply::{Reply, RoundLine};
use crate::rows::{Rows, push};
use hall_policy::{Action, Decision, Facts, Moment, Person, Round, decide};
use hall_store::{ReadStore, StoreFault};
use std::alloc::{AllocError, Global};

/// What is listed: rounds.
#[derive(Clone, Copy)]
pub(crate) struct ListRounds {}

impl Handler for ListRounds {
    ghost use Rattle.hall_desk.specs.Handler.{list_rounds_action};

    ghost action_of = { list_rounds_action };

    /// The rules read the caller alone.
    fn decision<S: ReadStore>(
        &self,
        _alloc: Global,
        _store: &mut S,
        t: Moment,
        action: &Action,
        facts: &mut Facts,
    ) -> Result<Decision, StoreFault> {
        Ok(decide(facts, action, t))
    }

    fn first_reply(&self, _facts: &Facts) -> Result<Option<Reply>, AllocError> {
        Ok(None)
    }

    /// The rounds that the caller sees.
    fn plan<S: ReadStore>(
        &self,
        alloc: Global,
        store: &mut S,
        _t: Moment,
        facts: &Facts,
    ) -> Result<Plan, StoreFault> {
        let Some(person) = &facts.caller else {
            unreachable!()
        };
        let rounds = store.rounds(alloc)?;
        let lines = show_rounds(alloc, person, rounds.as_slice())?;
        Ok(Plan::of(Reply::ListRounds(lines)))
    }
}

/// Those of the rounds that the person sees, as they are listed.
fn show_rounds(
    alloc: Global,
    person: &Person,
    rounds: &[Round],
) -> Result<Rows<RoundLine>, AllocError>
    ensures { IfOk result (λ lines. lines ≡ map round_line (filter (sees_round person.now) rounds.now)) }
{
    let mut lines = Vec::new(alloc);
    for round in rounds {
        if sees_round(person, round) {
            push(&mut lines, show_round(round)?)?;
        }
    }
    Ok(Rows::new(lines))
}

/// Whether the person sees the round.
fn sees_round(person: &Person, round: &Round) -> bool
    ensures { result ≡ sees_round person.now round.now }
{
    person.roles.get().director || round.released
}

/// A round as it is listed.
fn show_round(round: &Round) -> Result<RoundLine, AllocError>
    ensures { IfOk result (λ line. line ≡ round_line round.now) }
{
    Ok(RoundLine {
        id: round.id.clone()?,
        minutes: round.minutes,
        mode: round.mode,
        published: round.published,
        released: round.released,
        start: round.start,
        title: round.title.clone()?,
    })
}

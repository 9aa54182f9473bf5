//! Certify: a puzzle is searched, and what is found becomes its state.
ghost use Rattle.std.specs.Prelude.{◌≡◌, IfOk, Some};
ghost use Rattle.hall_policy.specs.Implies.{IsAllowable};
ghost use Rattle.hall_policy.specs.declared.request.Action.{Action};
ghost use Rattle.hall_desk.specs.Handler.{certify_action};
ghost use Rattle.hall_desk.specs.Step.{IsFound};
ghost use Rattle.hall_desk.specs.Plans.{IsSearchPlanOf, HasSpent};
ghost use Rattle.hall_desk.specs.Shown.{state_name};

use crate::found_state::{FoundState, find_state, is_open};
use crate::handler::Handler;
use crate::memo::Memo;
use crate::plan::Plan;
use crate::put_puzzle::state_name;
use crate::reply::Reply;
use hall_grid::Puzzle;
use hall_policy::{Action, Budget, Decision, Facts, Moment, PuzzleKey, decide};
use hall_store::{Change, ReadStore, StoreFault};
use std::alloc::{AllocError, Global};

/// What is certified: the puzzle under the key, by a search of at most so many visits.
#[derive(Clone, Copy)]
pub(crate) struct Certify<'a> {
    pub(crate) key: &'a PuzzleKey,
    pub(crate) budget: Budget,
    pub(crate) memo: &'a Option<Memo>,
}

impl<'a> Certify<'a> {
    /// The puzzle under the key, by a search of at most so many visits.
    pub(crate) fn of(key: &'a PuzzleKey, budget: Budget, memo: &'a Option<Memo>) -> Certify<'a>
        ensures action { certify_action result ≡ Action.Certify key.now budget }
        ensures memo { result.memo.now ≡ memo.now }
    {
        Certify { key, budget, memo }
    }
}

impl<'a> Handler for Certify<'a> {
    ghost use Rattle.hall_desk.specs.Handler.{certify_action};

    ghost action_of = { certify_action };

    fn decision<S: ReadStore>(
        &self,
        alloc: Global,
        store: &mut S,
        t: Moment,
        action: &Action,
        facts: &mut Facts,
    ) -> Result<Decision, StoreFault> {
        facts.puzzle = store.puzzle(alloc, self.key)?;
        Ok(decide(facts, action, t))
    }

    fn first_reply(&self, _facts: &Facts) -> Result<Option<Reply>, AllocError> {
        Ok(None)
    }

    /// The puzzle is searched where no search of it came to an end yet.
    fn plan<S: ReadStore>(
        &self,
        alloc: Global,
        _store: &mut S,
        _t: Moment,
        facts: &Facts,
    ) -> Result<Plan, StoreFault> {
        Ok(certify_puzzle(alloc, facts, self.key, self.budget, self.memo)?)
    }
}

/// The plan of an allowed Certify.
fn certify_puzzle(
    alloc: Global,
    facts: &Facts,
    key: &PuzzleKey,
    budget: Budget,
    memo: &Option<Memo>,
) -> Result<Plan, AllocError>
    requires { IsAllowable facts.now (Action.Certify key.now budget) }
    ensures { IfOk result (IsSearchPlanOf facts.now (Action.Certify key.now budget)) }
{
    let Some(row) = &facts.puzzle else {
        unreachable!()
    };
    if !is_open(&row.state) {
        return Ok(Plan {
            reply: Reply::Certify(state_name(&row.state)),
            change: Change::Nothing,
            visits: None,
        });
    }
    let key = key.clone()?;
    let found = found_or_searched(alloc, &row.puzzle, budget.get(), memo)?;
    Ok(searched(key, found))
}

/// The plan that stores what a search found.
fn searched(key: PuzzleKey, found: FoundState) -> Plan
    ensures reply { result.reply ≡ Reply.Certify (state_name found.state) }
    ensures change { result.change ≡ Change.SetState key found.state }
    ensures visits { result.visits ≡ Some found.visits }
{
    let FoundState { state, visits } = found;
    Plan {
        reply: Reply::Certify(state_name(&state)),
        change: Change::SetState { key, state },
        visits: Some(visits),
    }
}

/// What was found of the puzzle before, or else what a search of it finds now.
fn found_or_searched(
    alloc: Global,
    puzzle: &Puzzle,
    budget: u64,
    memo: &Option<Memo>,
) -> Result<FoundState, AllocError>
    ensures state { IfOk result (λ found. IsFound puzzle.now budget found.state) }
    ensures spent { IfOk result (λ found. HasSpent budget (Reply.Certify (state_name found.state)) found.visits) }
{
    if let Some(memo) = memo {
        if let Some(found) = memo.found(puzzle, budget)? {
            return Ok(found);
        }
    }
    find_state(alloc, puzzle, budget)
}

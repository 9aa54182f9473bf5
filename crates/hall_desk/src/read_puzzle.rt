//! ReadPuzzle: a puzzle with its state and text.
ghost use Rattle.std.specs.Prelude.{IfOk};
ghost use Rattle.hall_policy.specs.Implies.{IsAllowable};
ghost use Rattle.hall_policy.specs.declared.request.Action.{Action};
ghost use Rattle.hall_desk.specs.Plans.{IsPlanOf};

use crate::handler::Handler;
use crate::plan::Plan;
use crate::put_puzzle::{state_name, text_of};
use crate::reply::Reply;
use hall_policy::{Action, Decision, Facts, Moment, PuzzleKey, decide};
use hall_store::{ReadStore, StoreFault};
use std::alloc::{AllocError, Global};

/// What is read: the puzzle under this key.
#[derive(Clone, Copy)]
pub(crate) struct ReadPuzzle<'a> {
    pub(crate) key: &'a PuzzleKey,
}

impl<'a> Handler for ReadPuzzle<'a> {
    ghost use Rattle.hall_desk.specs.Handler.{read_puzzle_action};

    ghost action_of = { read_puzzle_action };

    fn decision<S: ReadStore>(
        &self,
        alloc: Global,
        store: &mut S,
        t: Moment,
        action: &Action,
        facts: &mut Facts,
    ) -> Result<Decision, StoreFault> {
        facts.puzzle = store.puzzle(alloc, self.key)?;
        Ok(decide(facts, action, t))
    }

    fn first_reply(&self, _facts: &Facts) -> Result<Option<Reply>, AllocError> {
        Ok(None)
    }

    /// The puzzle's state and its text.
    fn plan<S: ReadStore>(
        &self,
        alloc: Global,
        _store: &mut S,
        _t: Moment,
        facts: &Facts,
    ) -> Result<Plan, StoreFault> {
        Ok(read_puzzle(alloc, facts, self.key)?)
    }
}

/// The plan of an allowed ReadPuzzle.
fn read_puzzle(alloc: Global, facts: &Facts, key: &PuzzleKey) -> Result<Plan, AllocError>
    requires { IsAllowable facts.now (Action.ReadPuzzle key.now) }
    ensures { IfOk result (IsPlanOf facts.now (Action.ReadPuzzle key.now)) }
{
    let Some(row) = &facts.puzzle else {
        unreachable!()
    };
    Ok(Plan::of(Reply::ReadPuzzle {
        key: key.clone()?,
        state: state_name(&row.state),
        text: text_of(alloc, &row.puzzle)?,
    }))
}

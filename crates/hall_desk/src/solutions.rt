//! Solutions: the stored solutions of a round's puzzles.
ghost use Rattle.hall_policy.specs.Rules.{IsCertified};
ghost use Rattle.hall_store.specs.Store.{Asks, Kept, Told};
ghost use Rattle.hall_desk.specs.Sane.{Sane};
ghost use Rattle.hall_desk.specs.Shown.{AreSolutions, IsStoredSolution};
ghost use Rattle.hall_desk.specs.Plans.{FailsIn, AreInStateOne};

use crate::find_round::find_round;
use crate::handler::Handler;
use crate::plan::Plan;
use crate::reply::Reply;
use crate::rows::{Rows, push};
use hall_policy::{
    Action, AnswerText, Decision, Entry, Facts, Moment, PuzzleRow, PuzzleState, RoundId, decide,
};
use hall_store::{ReadStore, StoreFault};
use std::alloc::{AllocError, Global};

/// What is told: the solutions of the round of this id.
#[derive(Clone, Copy)]
pub(crate) struct Solutions<'a> {
    pub(crate) round: &'a RoundId,
}

impl<'a> Handler for Solutions<'a> {
    ghost use Rattle.hall_desk.specs.Handler.{solutions_action};

    ghost action_of = { solutions_action };

    fn decision<S: ReadStore>(
        &self,
        alloc: Global,
        store: &mut S,
        t: Moment,
        action: &Action,
        facts: &mut Facts,
    ) -> Result<Decision, StoreFault> {
        facts.round = find_round(alloc, store, self.round)?;
        Ok(decide(facts, action, t))
    }

    fn first_reply(&self, _facts: &Facts) -> Result<Option<Reply>, AllocError> {
        Ok(None)
    }

    /// The stored solutions of the round's puzzles.
    fn plan<S: ReadStore>(
        &self,
        alloc: Global,
        store: &mut S,
        _t: Moment,
        facts: &Facts,
    ) -> Result<Plan, StoreFault> {
        let Some(row) = &facts.round else {
            unreachable!()
        };
        let texts = find_solutions(alloc, store, row.puzzles.as_slice())?;
        Ok(Plan::of(Reply::Solutions(texts)))
    }
}

/// The stored solutions of the puzzles, in their order.
fn find_solutions<S: ReadStore>(
    alloc: Global,
    store: &mut S,
    entries: &[Entry],
) -> Result<Rows<AnswerText>, StoreFault>
    requires { Asks (S.content store.old) (λ world. Sane world → AreInStateOne world entries.now) }
    ensures kept { Kept (S.content store.old) (S.content store.new) }
    ensures fault { FailsIn (S.content store.old) (S.content store.new) result }
    ensures told { Told (S.content store.old) (S.content store.new) result
        (λ world texts. AreSolutions world entries.now texts) }
{
    let mut texts = Vec::new(alloc);
    for entry in entries {
        let text = find_solution(alloc, store, entry)?;
        push(&mut texts, text)?;
    }
    Ok(Rows::new(texts))
}

/// The stored solution of the puzzle, which is in state one in a sane world.
fn find_solution<S: ReadStore>(
    alloc: Global,
    store: &mut S,
    entry: &Entry,
) -> Result<AnswerText, StoreFault>
    requires { Asks (S.content store.old) (λ world. Sane world → IsCertified world entry.now.puzzle) }
    ensures kept { Kept (S.content store.old) (S.content store.new) }
    ensures fault { FailsIn (S.content store.old) (S.content store.new) result }
    ensures told { Told (S.content store.old) (S.content store.new) result
        (λ world text. IsStoredSolution world entry.now.puzzle text) }
{
    let Some(row) = store.puzzle(alloc, &entry.puzzle)? else {
        return Err(StoreFault::Failed);
    };
    let PuzzleRow { state, .. } = row;
    match state {
        PuzzleState::One(text) => Ok(text),
        _ => Err(StoreFault::Failed),
    }
}

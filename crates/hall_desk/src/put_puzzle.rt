//! PutPuzzle: a puzzle is stored under its author and label.
ghost use Rattle.std.specs.Prelude.{◌≡◌, ◌↔◌, IfOk, IsTrue, None};
ghost use Rattle.hall_grid.specs.Canonical.{CanonicalText};
ghost use Rattle.hall_policy.specs.Rules.{puzzles_put};
ghost use Rattle.hall_policy.specs.Implies.{IsAllowable};
ghost use Rattle.hall_policy.specs.declared.request.Action.{Action};
ghost use Rattle.hall_store.specs.Store.{CanFailIn, Kept, Told, Fails};
ghost use Rattle.hall_desk.specs.Lookups.{HasAuthor};
ghost use Rattle.hall_desk.specs.Shown.{state_name};
ghost use Rattle.hall_desk.specs.Plans.{IsPlanOf, StandsAs};

use crate::handler::Handler;
use crate::plan::Plan;
use crate::released_rounds::is_in_released_round;
use crate::reply::{Reply, StateName};
use hall_grid::{Puzzle, write_puzzle};
use hall_policy::{
    Action, Decision, Facts, Moment, Name, PuzzleKey, PuzzleRow, PuzzleState, PuzzleText, Rule,
    decide, decide_up_to,
};
use hall_store::{Change, ReadStore, StoreFault};
use std::alloc::{AllocError, Global};

/// What is put: a puzzle under its author and label.
#[derive(Clone, Copy)]
pub(crate) struct PutPuzzle<'a> {
    pub(crate) key: &'a PuzzleKey,
    pub(crate) puzzle: &'a Puzzle,
}

impl<'a> Handler for PutPuzzle<'a> {
    ghost use Rattle.hall_desk.specs.Handler.{put_puzzle_action};

    ghost action_of = { put_puzzle_action };

    /// The author is looked for, then the rounds that have the puzzle, then the puzzle; puzzles are counted where it
    /// is a new one.
    fn decision<S: ReadStore>(
        &self,
        alloc: Global,
        store: &mut S,
        t: Moment,
        action: &Action,
        facts: &mut Facts,
    ) -> Result<Decision, StoreFault> {
        facts.author_is_there = find_author(alloc, store, &self.key.author)?;
        if let Some(decision) = decide_up_to(facts, action, t, Rule::Missing) {
            return Ok(decision);
        }
        facts.in_released = is_in_released_round(alloc, store, self.key)?;
        if let Some(decision) = decide_up_to(facts, action, t, Rule::InReleasedRound) {
            return Ok(decision);
        }
        facts.puzzle = store.puzzle(alloc, self.key)?;
        facts.count = count_puzzles(alloc, store, &self.key.author, &facts.puzzle)?;
        Ok(decide(facts, action, t))
    }

    fn first_reply(&self, _facts: &Facts) -> Result<Option<Reply>, AllocError> {
        Ok(None)
    }

    /// The same puzzle again changes nothing, another one is stored as new.
    fn plan<S: ReadStore>(
        &self,
        alloc: Global,
        _store: &mut S,
        _t: Moment,
        facts: &Facts,
    ) -> Result<Plan, StoreFault> {
        Ok(put_puzzle(alloc, facts, self.key, self.puzzle)?)
    }
}

/// Whether a person of the name with the role author is there.
fn find_author<S: ReadStore>(alloc: Global, store: &mut S, name: &Name) -> Result<bool, StoreFault>
    ensures kept { Kept (S.content store.old) (S.content store.new) }
    ensures fault { Fails (CanFailIn (S.content store.old) (S.content store.new)) result }
    ensures told { Told (S.content store.old) (S.content store.new) result
        (λ world found. IsTrue found ↔ HasAuthor world name.now) }
{
    match store.person(alloc, name)? {
        Some(person) => Ok(person.roles.get().author),
        None => Ok(false),
    }
}

/// How many puzzles of the author are kept, where none is found under the key.
fn count_puzzles<S: ReadStore>(
    alloc: Global,
    store: &mut S,
    author: &Name,
    found: &Option<PuzzleRow>,
) -> Result<u64, StoreFault>
    ensures kept { Kept (S.content store.old) (S.content store.new) }
    ensures fault { Fails (CanFailIn (S.content store.old) (S.content store.new)) result }
    ensures told { Told (S.content store.old) (S.content store.new) result
        (λ world count. found.now ≡ None → count ≡ puzzles_put world author.now) }
{
    match found {
        Some(_) => Ok(0),
        None => store.puzzles_put(alloc, author),
    }
}

/// The plan of an allowed PutPuzzle.
fn put_puzzle(
    alloc: Global,
    facts: &Facts,
    key: &PuzzleKey,
    puzzle: &Puzzle,
) -> Result<Plan, AllocError>
    requires { IsAllowable facts.now (Action.PutPuzzle key.now puzzle.now) }
    ensures { IfOk result (IsPlanOf facts.now (Action.PutPuzzle key.now puzzle.now)) }
{
    let text = text_of(alloc, puzzle)?;
    match standing_state(facts, puzzle) {
        Some(state) => Ok(Plan {
            reply: Reply::PutPuzzle { state, text },
            change: Change::Nothing,
            visits: None,
        }),
        None => {
            let row = PuzzleRow {
                key: key.clone()?,
                puzzle: puzzle.clone()?,
                state: PuzzleState::New,
            };
            Ok(Plan {
                reply: Reply::PutPuzzle {
                    state: StateName::New,
                    text,
                },
                change: Change::PutPuzzle(row),
                visits: None,
            })
        }
    }
}

/// The state of the puzzle that was found, where it is the same puzzle.
fn standing_state(facts: &Facts, puzzle: &Puzzle) -> Option<StateName>
    ensures { StandsAs facts.now.puzzle puzzle.now result }
{
    match &facts.puzzle {
        Some(row) if row.puzzle.is_same(puzzle) => Some(state_name(&row.state)),
        _ => None,
    }
}

/// The canonical text of a puzzle.
pub(crate) fn text_of(alloc: Global, puzzle: &Puzzle) -> Result<PuzzleText, AllocError>
    ensures { IfOk result (λ text. CanonicalText text puzzle.now) }
{
    let text = write_puzzle(alloc, puzzle)?;
    match PuzzleText::new(text) {
        Some(text) => Ok(text),
        None => unreachable!(),
    }
}

/// What is told of a puzzle's state.
pub(crate) fn state_name(state: &PuzzleState) -> StateName
    ensures { result ≡ state_name state.now }
{
    match state {
        PuzzleState::New => StateName::New,
        PuzzleState::One(_) => StateName::One,
        PuzzleState::NoSolution => StateName::NoSolution,
        PuzzleState::More => StateName::More,
        PuzzleState::GaveUp => StateName::GaveUp,
    }
}

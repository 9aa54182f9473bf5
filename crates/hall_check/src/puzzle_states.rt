//! Whether puzzles' states are true of them: each is searched anew.
ghost use Rattle.std.specs.Prelude.{◌≡◌, ◌↔◌, ◌<◌, ◌≤◌, ◌+◌, IsTrue, IfOk, OnOk};
ghost use Rattle.hall_check.specs.States.{AreStatesTold, IsStateTold, IsJudgedSo};

use crate::ask_rows::{note, push};
use crate::sentence::{Breaches, Sentence};
use hall_desk::{find_state, is_open};
use hall_grid::Puzzle;
use hall_policy::{AnswerText, PuzzleKey, PuzzleRow, PuzzleState};
use std::alloc::{AllocError, Global};

/// What a new search of each puzzle in state one, none or more told of its state.
#[derive(Drop)]
pub struct States {
    /// The puzzles whose state is false.
    pub found: Breaches,
    /// Those whose search gave up.
    pub undecided: Vec<PuzzleKey>,
}

/// What a new search tells of a state.
#[derive(Clone, Copy, Debug, PartialEq, Eq)]
pub(crate) enum Judged {
    /// It is true.
    True,
    /// It is false.
    False,
    /// The search gave up.
    Undecided,
}

/// Each puzzle in state one, none or more is searched anew, by at most so many visits.
pub(crate) fn ask_states(
    alloc: Global,
    rows: &[PuzzleRow],
    budget: u64,
) -> Result<States, AllocError>
    ensures { IfOk result (AreStatesTold budget rows.now) }
{
    let mut states = States {
        found: Breaches {
            sentence: Sentence::StateTrue,
            first: Vec::new(alloc),
            count: 0,
        },
        undecided: Vec::new(alloc),
    };
    for row in rows {
        tell_state(alloc, row, budget, &mut states)?;
    }
    Ok(states)
}

/// Counts and names the puzzle, where its state is false, or its search gave up.
fn tell_state(
    alloc: Global,
    row: &PuzzleRow,
    budget: u64,
    states: &mut States,
) -> Result<(), AllocError>
    requires { states.old.found.count < usize.MAX }
    ensures few { OnOk result (states.new.found.count ≤ states.old.found.count + 1) }
    ensures sentence { OnOk result (states.new.found.sentence ≡ states.old.found.sentence) }
    ensures told { OnOk result (IsStateTold budget row.now states.old states.new) }
{
    match judge_state(alloc, &row.puzzle, &row.state, budget)? {
        Judged::True => Ok(()),
        Judged::False => {
            states.found.count += 1;
            note(&mut states.found.first, row)
        }
        Judged::Undecided => push(&mut states.undecided, row.key.clone()?),
    }
}

/// What a new search of the puzzle tells of the state; of a state that says nothing it is true without one.
fn judge_state(
    alloc: Global,
    puzzle: &Puzzle,
    state: &PuzzleState,
    budget: u64,
) -> Result<Judged, AllocError>
    ensures { IfOk result (IsJudgedSo puzzle.now budget state.now) }
{
    if is_open(state) {
        return Ok(Judged::True);
    }
    let found = find_state(alloc, puzzle, budget)?;
    if is_open(&found.state) {
        return Ok(Judged::Undecided);
    }
    if is_same_state(state, &found.state) {
        Ok(Judged::True)
    } else {
        Ok(Judged::False)
    }
}

/// Whether both are the same state.
fn is_same_state(state: &PuzzleState, other: &PuzzleState) -> bool
    ensures { IsTrue result ↔ (state.now ≡ other.now) }
{
    match state {
        PuzzleState::New => matches!(other, PuzzleState::New),
        PuzzleState::One(text) => is_one_with(other, text),
        PuzzleState::NoSolution => matches!(other, PuzzleState::NoSolution),
        PuzzleState::More => matches!(other, PuzzleState::More),
        PuzzleState::GaveUp => matches!(other, PuzzleState::GaveUp),
    }
}

/// Whether the state is one, with this solution.
fn is_one_with(state: &PuzzleState, text: &AnswerText) -> bool
    ensures { IsTrue result ↔ (state.now ≡ PuzzleState.One text.now) }
{
    match state {
        PuzzleState::One(other) => other.is_same(text),
        PuzzleState::New | PuzzleState::NoSolution | PuzzleState::More | PuzzleState::GaveUp =>
            false,
    }
}

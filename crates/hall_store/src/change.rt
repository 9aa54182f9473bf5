//! A change of the world.
use crate::joint::JointAnswers;
use hall_policy::{
    AnswerRow, People, ProtestKey, ProtestRow, PuzzleKey, PuzzleRow, PuzzleState, RoundId,
    RoundRow, Ruling,
};

/// What a director sets on a round, and nobody takes back.
#[derive(Clone, Copy, Debug, PartialEq, Eq)]
pub enum RoundFlag {
    Released,
    Published,
}

/// A change of the world, which one call of the store makes.
#[derive(Drop)]
pub enum Change {
    Nothing,
    /// Adds the people of the list whose names are unknown.
    Import(People),
    /// Stores the puzzle, in the place of the one under its key.
    PutPuzzle(PuzzleRow),
    /// Sets the state of the puzzle under the key.
    SetState { key: PuzzleKey, state: PuzzleState },
    /// Stores the round with its list and its testers, in the place of the one under its id.
    PutRound(RoundRow),
    /// Sets a flag of the round.
    SetRoundFlag { round: RoundId, flag: RoundFlag },
    /// Stores one more answer.
    AddAnswer(AnswerRow),
    /// Stores some more answers, one after another.
    AddAnswers(JointAnswers),
    /// Stores one more protest.
    AddProtest(ProtestRow),
    /// Rules the protest under the key.
    RuleProtest { key: ProtestKey, ruling: Ruling },
}

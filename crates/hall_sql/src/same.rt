//! Whether two records are the same, and whether two lists of them are.
ghost use Rattle.std.specs.Prelude.{◌≡◌, ◌↔◌, IsTrue};

use crate::record::Place;
use hall_policy::{
    AnswerKey, AnswerRow, Person, ProtestKey, ProtestRow, PuzzleRow, PuzzleState, Round,
};

/// A record that is compared with another of its kind.
pub(crate) trait Same {
    /// Whether both are the same record.
    fn is_same(&self, other: &Self) -> bool
        ensures { IsTrue result ↔ (self.now ≡ other.now) };
}

/// Whether both are lists of the same records.
pub(crate) fn all_same<T: Same>(left: &[T], right: &[T]) -> bool
    ensures { IsTrue result ↔ (left.now ≡ right.now) }
{
    if left.len() != right.len() {
        return false;
    }
    for (one, other) in left.iter().zip(right) {
        if !one.is_same(other) {
            return false;
        }
    }
    true
}

impl Same for Person {
    fn is_same(&self, other: &Person) -> bool {
        self.name.is_same(&other.name) && self.key.is_same(&other.key) && self.roles == other.roles
    }
}

impl Same for PuzzleState {
    fn is_same(&self, other: &PuzzleState) -> bool {
        match (self, other) {
            (PuzzleState::New, PuzzleState::New) => true,
            (PuzzleState::One(one), PuzzleState::One(another)) => one.is_same(another),
            (PuzzleState::NoSolution, PuzzleState::NoSolution) => true,
            (PuzzleState::More, PuzzleState::More) => true,
            (PuzzleState::GaveUp, PuzzleState::GaveUp) => true,
            _ => false,
        }
    }
}

impl Same for PuzzleRow {
    fn is_same(&self, other: &PuzzleRow) -> bool {
        self.key.is_same(&other.key)
            && self.puzzle.is_same(&other.puzzle)
            && self.state.is_same(&other.state)
    }
}

impl Same for Round {
    fn is_same(&self, other: &Round) -> bool {
        self.id.is_same(&other.id)
            && self.title.is_same(&other.title)
            && self.start == other.start
            && self.minutes == other.minutes
            && self.protest_minutes == other.protest_minutes
            && self.mode == other.mode
            && self.penalty == other.penalty
            && self.bonus == other.bonus
            && self.released == other.released
            && self.published == other.published
    }
}

impl Same for Place {
    fn is_same(&self, other: &Place) -> bool {
        self.0.round.is_same(&other.0.round)
            && self.0.number == other.0.number
            && self.1.puzzle.is_same(&other.1.puzzle)
            && self.1.points == other.1.points
    }
}

impl Same for AnswerKey {
    fn is_same(&self, other: &AnswerKey) -> bool {
        self.entrant.is_same(&other.entrant)
            && self.round.is_same(&other.round)
            && self.number == other.number
            && self.token.is_same(&other.token)
    }
}

impl Same for AnswerRow {
    fn is_same(&self, other: &AnswerRow) -> bool {
        self.key.is_same(&other.key)
            && self.n == other.n
            && self.moment == other.moment
            && self.answer.is_same(&other.answer)
            && self.verdict == other.verdict
    }
}

impl Same for ProtestKey {
    fn is_same(&self, other: &ProtestKey) -> bool {
        self.entrant.is_same(&other.entrant)
            && self.round.is_same(&other.round)
            && self.token.is_same(&other.token)
    }
}

impl Same for ProtestRow {
    fn is_same(&self, other: &ProtestRow) -> bool {
        self.key.is_same(&other.key)
            && self.number == other.number
            && self.text.is_same(&other.text)
            && self.ruling == other.ruling
    }
}

//! The records that the hall keeps.
ghost use Rattle.std.specs.Prelude.{◌≡◌, ◌↔◌, ◌+◌, ◌*◌, ◌≤◌, ◌≤ℤ◌, pos, negsuc, IsTrue};
ghost use Rattle.hall_policy.specs.World.{end_of, close_of, ruling_points};

use crate::list::{Entries, Testers};
use crate::number::{
    AnswerNumber, Bonus, Minutes, Moment, Penalty, Points, ProtestMinutes, PuzzleNumber,
    RulingPoints,
};
use crate::roles::SomeRoles;
use crate::text::{AnswerText, Key, Label, Name, ProtestText, RoundId, Title, Token};
use hall_grid::{Broken, Puzzle};
use std::alloc::AllocError;

/// What a person may be, all or none of it.
#[derive(Clone, Copy, Debug, PartialEq, Eq)]
pub struct Roles {
    pub director: bool,
    pub author: bool,
    pub referee: bool,
    pub entrant: bool,
}

/// Someone whom the hall knows.
#[derive(Clone, Drop)]
pub struct Person {
    pub name: Name,
    /// The secret by which requests of the person are known.
    pub key: Key,
    pub roles: SomeRoles,
}

/// Where a puzzle is kept.
#[derive(Clone, PartialEq, Eq, PartialOrd, Ord, Drop)]
pub struct PuzzleKey {
    pub author: Name,
    pub label: Label,
}

impl PuzzleKey {
    /// Whether both are the same author and label.
    pub fn is_same(&self, other: &PuzzleKey) -> bool
        ensures { IsTrue result ↔ (self.now ≡ other.now) }
    {
        self.author.is_same(&other.author) && self.label.is_same(&other.label)
    }
}

/// What is known of a puzzle's solutions.
#[derive(Clone, Drop)]
pub enum PuzzleState {
    /// Nothing was searched yet.
    New,
    /// This is the only solution.
    One(AnswerText),
    NoSolution,
    /// There are at least two.
    More,
    /// The search came to no end within its budget.
    GaveUp,
}

/// A puzzle of an author.
#[derive(Clone, Drop)]
pub struct PuzzleRow {
    pub key: PuzzleKey,
    pub puzzle: Puzzle,
    pub state: PuzzleState,
}

/// How a round's answers count, and when their verdicts are told.
#[derive(Clone, Copy, Debug, PartialEq, Eq)]
pub enum Mode {
    /// Verdicts are told at once, and the first right answer counts.
    Instant,
    /// Verdicts are told from the end on, and the last answer counts.
    Sealed,
}

/// A round without its puzzles.
#[derive(Drop)]
pub struct Round {
    pub id: RoundId,
    pub title: Title,
    pub start: Moment,
    pub minutes: Minutes,
    pub protest_minutes: ProtestMinutes,
    pub mode: Mode,
    pub penalty: Penalty,
    pub bonus: Bonus,
    /// Whether entrants may see it; until then it is a draft.
    pub released: bool,
    /// Whether its table may be seen.
    pub published: bool,
}

impl Round {
    /// The second at which the round is over.
    pub fn end(&self) -> u64
        ensures value { result ≡ end_of self.now }
        ensures bound { result ≤ 4102531200 }
    {
        self.start.get() + 60 * self.minutes.get()
    }

    /// The second from which on no protest is taken.
    pub fn close(&self) -> u64
        ensures { result ≡ close_of self.now }
    {
        self.end() + 60 * self.protest_minutes.get()
    }
}

// By hand, as a derived one would ask each field for memory.
impl Clone for Round {
    ghost use Rattle.std.specs.Prelude.{◌≡◌};

    ghost is_clone = { λ x y. y ≡ x };

    fn clone(&self) -> Result<Round, AllocError> {
        Ok(Round {
            id: self.id.clone()?,
            title: self.title.clone()?,
            start: self.start,
            minutes: self.minutes,
            protest_minutes: self.protest_minutes,
            mode: self.mode,
            penalty: self.penalty,
            bonus: self.bonus,
            released: self.released,
            published: self.published,
        })
    }
}

/// A puzzle in a round, and the points for it.
#[derive(Clone, Drop)]
pub struct Entry {
    pub puzzle: PuzzleKey,
    pub points: Points,
}

/// A round with the list of its puzzles, and its testers.
#[derive(Clone, Drop)]
pub struct RoundRow {
    pub round: Round,
    pub puzzles: Entries,
    pub testers: Testers,
}

/// Where a round's puzzle is kept.
#[derive(Drop)]
pub struct PlaceKey {
    pub round: RoundId,
    pub number: PuzzleNumber,
}

/// Where it is kept that a person tests a round.
#[derive(Drop)]
pub struct TesterKey {
    pub round: RoundId,
    pub name: Name,
}

/// Where an answer is kept.
#[derive(Clone, PartialEq, Eq, PartialOrd, Ord, Drop)]
pub struct AnswerKey {
    pub entrant: Name,
    pub round: RoundId,
    pub number: PuzzleNumber,
    pub token: Token,
}

/// An accepted answer.
#[derive(Drop)]
pub struct AnswerRow {
    pub key: AnswerKey,
    /// Its number among the entrant's answers to the puzzle in the round.
    pub n: AnswerNumber,
    pub moment: Moment,
    pub answer: AnswerText,
    pub verdict: Broken,
}

// By hand, as a derived one would ask each field for memory.
impl Clone for AnswerRow {
    ghost use Rattle.std.specs.Prelude.{◌≡◌};

    ghost is_clone = { λ x y. y ≡ x };

    fn clone(&self) -> Result<AnswerRow, AllocError> {
        Ok(AnswerRow {
            key: self.key.clone()?,
            n: self.n,
            moment: self.moment,
            answer: self.answer.clone()?,
            verdict: self.verdict,
        })
    }
}

/// Where a protest is kept.
#[derive(Clone, PartialEq, Eq, PartialOrd, Ord, Drop)]
pub struct ProtestKey {
    pub entrant: Name,
    pub round: RoundId,
    pub token: Token,
}

/// What a referee decided.
#[derive(Clone, Copy, Debug, PartialEq, Eq)]
pub enum Ruling {
    Upheld(RulingPoints),
    Rejected,
}

/// The points of an upheld protest, and none of another.
pub fn ruling_points(ruling: &Option<Ruling>) -> i16
    ensures value { result ≡ ruling_points ruling.now }
    ensures least { negsuc 999 ≤ℤ result }
    ensures most { result ≤ℤ pos 1000 }
{
    match ruling {
        Some(Ruling::Upheld(points)) => points.get(),
        Some(Ruling::Rejected) | None => 0,
    }
}

/// A protest of an entrant.
#[derive(Clone, Drop)]
pub struct ProtestRow {
    pub key: ProtestKey,
    pub number: PuzzleNumber,
    pub text: ProtestText,
    /// None while the protest is open.
    pub ruling: Option<Ruling>,
}

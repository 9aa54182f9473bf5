//! Numbers in their ranges.
ghost use Rattle.std.specs.Prelude.{◌≡◌, ◌↔◌, ℕ, ℤ, pos, negsuc, ◌≤◌, ◌<◌, ◌≤ℤ◌, IsSome, IfSome};

use std::marker::Model;

/// The answers that an entrant may give to a puzzle of a round.
pub const MOST_ANSWERS: u64 = 50;

/// The protests that an entrant may make in a round.
pub const MOST_PROTESTS: u64 = 5;

/// The puzzles that an author may put in.
pub const MOST_PUZZLES: u64 = 500;

/// The last second that a moment may be, 2100-01-01T00:00:00Z.
const LAST_SECOND: u64 = 4_102_444_800;

const MOST_POINTS: u64 = 1000;

/// A number from LEAST to MOST.
#[derive(Clone, Copy, Debug, PartialEq, Eq, PartialOrd, Ord)]
pub struct Within<const LEAST: u64, const MOST: u64> {
    value: u64,
}

impl<const LEAST: u64, const MOST: u64> Model for Within<LEAST, MOST> {
    ghost use Rattle.std.specs.Prelude.{ℕ, ◌≤◌};

    ghost Value = { ℕ };

    ghost view = { λ n. n.value };

    ghost invariant = { λ n. (LEAST ≤ n.value) × (n.value ≤ MOST) };

    ghost inverse = { λ n. record { value = n } };
}

impl<const LEAST: u64, const MOST: u64> Within<LEAST, MOST> {
    /// The number, where it lies in the range.
    pub fn new(value: u64) -> Option<Self>
        ensures in_range { IsSome result ↔ ((LEAST ≤ value) × (value ≤ MOST)) }
        ensures value { IfSome result (λ n. n ≡ value) }
    {
        if LEAST <= value && value <= MOST {
            Some(Within { value })
        } else {
            None
        }
    }

    /// The number.
    pub fn get(self) -> u64
        ensures value { result ≡ self.entry }
        ensures least { LEAST ≤ result }
        ensures most { result ≤ MOST }
    {
        self.value
    }
}

/// A whole Unix second, from 0 to 4,102,444,800.
pub type Moment = Within<0, LAST_SECOND>;

/// The number of a puzzle in a round, counted from 1.
pub type PuzzleNumber = Within<1, 99>;

/// The number of an answer among its entrant's answers to one puzzle of a round, counted from 1.
pub type AnswerNumber = Within<1, MOST_ANSWERS>;

/// The points for a puzzle.
pub type Points = Within<1, MOST_POINTS>;

/// How long a round runs.
pub type Minutes = Within<1, 1440>;

/// How long protests are taken after a round's end.
pub type ProtestMinutes = Within<0, 10_080>;

/// The points that a wrong answer costs.
pub type Penalty = Within<0, MOST_POINTS>;

/// The points for each whole minute that is left.
pub type Bonus = Within<0, MOST_POINTS>;

/// The most visits that a search may make.
pub type Budget = Within<0, 1_000_000>;

/// The points of an upheld protest, from -1,000 to 1,000.
#[derive(Clone, Copy, Debug, PartialEq, Eq)]
pub struct RulingPoints {
    points: i16,
}

impl Model for RulingPoints {
    ghost use Rattle.std.specs.Prelude.{ℤ, pos, negsuc, ◌≤ℤ◌};

    ghost Value = { ℤ };

    ghost view = { λ n. n.points };

    ghost invariant = { λ n. (negsuc 999 ≤ℤ n.points) × (n.points ≤ℤ pos 1000) };

    ghost inverse = { λ n. record { points = n } };
}

impl RulingPoints {
    /// The points, where they lie in the range.
    pub fn new(points: i16) -> Option<RulingPoints>
        ensures in_range { IsSome result ↔ ((negsuc 999 ≤ℤ points) × (points ≤ℤ pos 1000)) }
        ensures value { IfSome result (λ ruling. ruling ≡ points) }
    {
        if -1000 <= points && points <= 1000 {
            Some(RulingPoints { points })
        } else {
            None
        }
    }

    /// The points.
    pub fn get(self) -> i16
        ensures value { result ≡ self }
        ensures least { negsuc 999 ≤ℤ result }
        ensures most { result ≤ℤ pos 1000 }
    {
        self.points
    }
}

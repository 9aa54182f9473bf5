//! What a tally knows of an entrant: what the answers of the round give, and the protests.
ghost use Rattle.std.specs.Prelude.{◌≤◌, ◌<◌, ◌*◌, unsigned_abs};
ghost use Rattle.hall_policy.specs.Limits.{last_second};

use hall_policy::{AnswerNumber, Name, PuzzleNumber};

/// What answers give: their points, how many puzzles they solve, and the moment of the last that scores, 0 with none.
#[derive(Clone, Copy)]
pub(crate) struct Score {
    pub(crate) points: u64,
    pub(crate) solved: u64,
    pub(crate) last: u64,
    ghost most_points: { points ≤ 1000 * solved },
    ghost most_last: { last ≤ last_second },
}

/// The answers to the puzzle at hand: how many are wrong, whether one is right, and what they give.
#[derive(Clone, Copy)]
pub(crate) struct Tries {
    pub(crate) wrong: u64,
    pub(crate) has_right: bool,
    pub(crate) score: Score,
    ghost once: { score.solved ≤ 1 },
}

/// The answers so far: what those to earlier puzzles give, and those to the puzzle at hand up to the last n.
#[derive(Clone, Copy)]
pub(crate) struct Progress {
    pub(crate) closed: Score,
    pub(crate) number: PuzzleNumber,
    pub(crate) n: AnswerNumber,
    pub(crate) tries: Tries,
    ghost few: { closed.solved < number },
    ghost few_wrong: { tries.wrong ≤ n },
}

/// An entrant, and what that entrant's answers give so far.
#[derive(Drop)]
pub(crate) struct Entrant {
    pub(crate) name: Name,
    pub(crate) progress: Progress,
}

/// An entrant's protests: how many, and the points of the upheld ones.
#[derive(Clone, Copy)]
pub(crate) struct Rulings {
    pub(crate) count: u32,
    pub(crate) points: i64,
    ghost most: { unsigned_abs points ≤ 1000 * count },
}

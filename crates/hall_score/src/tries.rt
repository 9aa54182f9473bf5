//! One entrant's answers to one puzzle of a round, taken in the order of their n.
ghost use Rattle.std.specs.Prelude.{◌≡◌, ◌≤◌, ◌<◌, ◌+◌, ◌-◌, ◌*◌, ◌++◌, ◌∷◌, [], List, true, false, is_some};
ghost use Rattle.hall_policy.specs.Limits.{most_answers};
ghost use Rattle.hall_policy.specs.World.{entry_at};
ghost use Rattle.hall_policy.specs.declared.record.AnswerRow.{AnswerRow};
ghost use Rattle.hall_policy.specs.declared.record.RoundRow.{RoundRow};
ghost use Rattle.hall_policy.specs.declared.record.Mode.TheVariants.{Instant, Sealed};
ghost use Rattle.hall_score.specs.Total.{points_of};
ghost use Rattle.hall_score.specs.Progress.{HasScoreParts, IsScoreOf, AreTriesOf, AreTriedBefore};

use crate::entrant::{Score, Tries};
use crate::points::{entry_at, is_right};
use hall_policy::{AnswerRow, Mode, RoundRow};

/// What no answer gives.
pub(crate) fn no_score() -> Score
    ensures { HasScoreParts result 0 0 0 }
{
    Score {
        points: 0,
        solved: 0,
        last: 0,
    }
}

/// What a right answer gives where the wrong ones before it cost so much; nothing where the round has no such puzzle.
fn score_of(round: &RoundRow, row: &AnswerRow, cost: u64) -> Score
    ensures within { is_some (entry_at round.now.puzzles row.now.key.number) ≡ true
        → HasScoreParts result (points_of (entry_at round.now.puzzles row.now.key.number) - cost) 1 row.now.moment }
    ensures outside { is_some (entry_at round.now.puzzles row.now.key.number) ≡ false → HasScoreParts result 0 0 0 }
    ensures once { result.solved ≤ 1 }
{
    match entry_at(round.puzzles.as_slice(), row.key.number) {
        Some(entry) => Score {
            points: entry.points.get().saturating_sub(cost),
            solved: 1,
            last: row.moment.get(),
        },
        None => no_score(),
    }
}

/// The score of a sealed round after another answer: the last one alone counts.
fn sealed_score(round: &RoundRow, row: &AnswerRow) -> Score
    requires { round.now.round.mode ≡ Sealed }
    ensures score { (rows : List AnswerRow) → AreTriedBefore rows row.now
        → IsScoreOf round.now (rows ++ row.now ∷ []) result }
    ensures once { result.solved ≤ 1 }
{
    if is_right(row) {
        score_of(round, row, 0)
    } else {
        no_score()
    }
}

impl Tries {
    /// No answer.
    pub(crate) fn none() -> Tries
        ensures tries { (round : RoundRow) → AreTriesOf round [] result }
        ensures wrong { result.wrong ≡ 0 }
    {
        Tries {
            wrong: 0,
            has_right: false,
            score: no_score(),
        }
    }

    /// The score of an instant round after another answer: the first right one counts, less the wrong ones before it.
    fn instant_score(&self, round: &RoundRow, row: &AnswerRow) -> Score
        requires mode { round.now.round.mode ≡ Instant }
        requires few { self.now.wrong ≤ most_answers }
        ensures score { (rows : List AnswerRow) → AreTriedBefore rows row.now → AreTriesOf round.now rows self.now
            → IsScoreOf round.now (rows ++ row.now ∷ []) result }
        ensures once { result.solved ≤ 1 }
    {
        if is_right(row) && !self.has_right {
            score_of(round, row, self.wrong * round.round.penalty.get())
        } else {
            self.score
        }
    }

    /// The score after another answer.
    fn next_score(&self, round: &RoundRow, row: &AnswerRow) -> Score
        requires { self.now.wrong ≤ most_answers }
        ensures score { (rows : List AnswerRow) → AreTriedBefore rows row.now → AreTriesOf round.now rows self.now
            → IsScoreOf round.now (rows ++ row.now ∷ []) result }
        ensures once { result.solved ≤ 1 }
    {
        match round.round.mode {
            Mode::Instant => self.instant_score(round, row),
            Mode::Sealed => sealed_score(round, row),
        }
    }

    /// These and another answer to the same puzzle.
    pub(crate) fn with(&self, round: &RoundRow, row: &AnswerRow) -> Tries
        requires { self.now.wrong ≤ most_answers }
        ensures tries { (rows : List AnswerRow) → AreTriedBefore rows row.now → AreTriesOf round.now rows self.now
            → AreTriesOf round.now (rows ++ row.now ∷ []) result }
        ensures wrong { result.wrong ≤ self.now.wrong + 1 }
    {
        let right = is_right(row);
        Tries {
            wrong: self.wrong + u64::from(!right),
            has_right: self.has_right || right,
            score: self.next_score(round, row),
        }
    }
}

//! One entrant's answers of a round, taken in the order of their numbers, then of their n.
ghost use Rattle.std.specs.Prelude.{◌≡◌, ◌↔◌, ◌⊎◌, ◌≤◌, ◌<◌, ◌+◌, ◌++◌, ◌∷◌, [], List, IsTrue, unsigned_abs};
ghost use Rattle.hall_policy.specs.Limits.{most_number};
ghost use Rattle.hall_policy.specs.declared.record.AnswerRow.{AnswerRow};
ghost use Rattle.hall_policy.specs.declared.record.RoundRow.{RoundRow};
ghost use Rattle.hall_score.specs.Total.{answer_points};
ghost use Rattle.hall_score.specs.Progress.{IsScoreOf, IsProgressOf, IsAhead};

use crate::entrant::{Progress, Score, Tries};
use crate::points::bonus_from;
use crate::tries::no_score;
use hall_policy::{AnswerRow, RoundRow};

impl Progress {
    /// What an entrant's first answer gives.
    pub(crate) fn first(round: &RoundRow, row: &AnswerRow) -> Progress
        ensures { IsProgressOf round.now (row.now ∷ []) result }
    {
        // They are read for the limits that their types keep.
        let _limits = (row.key.number.get(), row.n.get());
        Progress {
            closed: no_score(),
            number: row.key.number,
            n: row.n,
            tries: Tries::none().with(round, row),
        }
    }

    /// Whether the answer is to a later puzzle than the last one, or to the same puzzle and has a greater n.
    pub(crate) fn is_before(&self, row: &AnswerRow) -> bool
        ensures { IsTrue result ↔ IsAhead self.now row.now }
    {
        let number = self.number.get();
        let next = row.key.number.get();
        number < next || (number == next && self.n.get() < row.n.get())
    }

    /// What all the answers give.
    fn score(&self) -> Score
        ensures score { (round : RoundRow) (rows : List AnswerRow) → IsProgressOf round rows self.now
            → IsScoreOf round rows result }
        ensures solved { result.solved ≤ self.now.number }
        ensures most { result.solved ≤ most_number }
    {
        // It is read for the limits that its type keeps.
        let _number = self.number.get();
        Score {
            points: self.closed.points + self.tries.score.points,
            solved: self.closed.solved + self.tries.score.solved,
            last: self.closed.last.max(self.tries.score.last),
        }
    }

    /// What these answers and the next one give.
    pub(crate) fn with(&self, round: &RoundRow, row: &AnswerRow) -> Progress
        requires { IsAhead self.now row.now }
        ensures { (rows : List AnswerRow) → IsProgressOf round.now rows self.now
            → IsProgressOf round.now (rows ++ row.now ∷ []) result }
    {
        if self.number.get() == row.key.number.get() {
            self.with_try(round, row)
        } else {
            self.with_puzzle(round, row)
        }
    }

    /// What these answers and the next one to the same puzzle give.
    fn with_try(&self, round: &RoundRow, row: &AnswerRow) -> Progress
        requires number { self.now.number ≡ row.now.key.number }
        requires n { self.now.n < row.now.n }
        ensures { (rows : List AnswerRow) → IsProgressOf round.now rows self.now
            → IsProgressOf round.now (rows ++ row.now ∷ []) result }
    {
        // It is read for the limits that its type keeps.
        let _n = row.n.get();
        Progress {
            closed: self.closed,
            number: self.number,
            n: row.n,
            tries: self.tries.with(round, row),
        }
    }

    /// What these answers and the first one to a later puzzle give.
    fn with_puzzle(&self, round: &RoundRow, row: &AnswerRow) -> Progress
        requires { self.now.number < row.now.key.number }
        ensures { (rows : List AnswerRow) → IsProgressOf round.now rows self.now
            → IsProgressOf round.now (rows ++ row.now ∷ []) result }
    {
        // It is read for the limits that its type keeps.
        let _n = row.n.get();
        Progress {
            closed: self.score(),
            number: row.key.number,
            n: row.n,
            tries: Tries::none().with(round, row),
        }
    }

    /// The points of all the answers, the bonus included.
    pub(crate) fn points(&self, round: &RoundRow) -> i64
        ensures value { (rows : List AnswerRow) → IsProgressOf round.now rows self.now
            → result ≡ answer_points round.now rows }
        ensures bound { unsigned_abs result ≤ 200000000000 }
    {
        let score = self.score();
        let mut points = score.points as i64;
        if score.solved == round.puzzles.as_slice().len() as u64 {
            points += bonus_from(round, score.last);
        }
        points
    }
}

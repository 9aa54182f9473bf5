//! An entrant's points in a round.
ghost use Rattle.std.specs.Prelude.{◌≡◌, ◌≤◌, ◌*◌, ◌*ℤ◌, ◌≤ℤ◌, pos, neg_ℤ, length};
ghost use Rattle.std.specs.Prelude.{sum_by, option_copied, unsigned_abs};
ghost use Rattle.hall_policy.specs.Limits.{last_second};
ghost use Rattle.hall_policy.specs.World.{entry_at};
ghost use Rattle.hall_score.specs.Total.{is_right, same_puzzle, has_right_before, has_later, does_count};
ghost use Rattle.hall_score.specs.Total.{wrong_before, cost_of, points_of, does_score, points_for};
ghost use Rattle.hall_score.specs.Total.{is_solved, are_all_solved, last_moment, minutes_left, bonus_of};
ghost use Rattle.hall_score.specs.Total.{protest_points, total_of};

use hall_policy::{AnswerRow, Entry, Mode, ProtestRow, PuzzleNumber, RoundRow, ruling_points};

/// Whether the answer breaks no rule.
pub(crate) fn is_right(row: &AnswerRow) -> bool
    ensures { result ≡ is_right row.now }
{
    row.verdict.bits() == 0
}

/// Whether both answers are to the same puzzle of their round.
fn is_same_puzzle(a: &AnswerRow, b: &AnswerRow) -> bool
    ensures { result ≡ same_puzzle a.now b.now }
{
    a.key.number.get() == b.key.number.get()
}

/// Whether a right answer to the same puzzle came before.
fn has_right_before(answers: &[AnswerRow], row: &AnswerRow) -> bool
    ensures { result ≡ has_right_before answers.now row.now }
{
    answers.iter().any(|other| is_same_puzzle(other, row)
        && (is_right(other) && other.n.get() < row.n.get()))
}

/// Whether an answer to the same puzzle came later.
fn has_later(answers: &[AnswerRow], row: &AnswerRow) -> bool
    ensures { result ≡ has_later answers.now row.now }
{
    answers.iter().any(|other| is_same_puzzle(other, row) && row.n.get() < other.n.get())
}

/// Whether the answer counts for its puzzle.
fn does_count(mode: Mode, answers: &[AnswerRow], row: &AnswerRow) -> bool
    ensures { result ≡ does_count mode answers.now row.now }
{
    match mode {
        Mode::Instant => is_right(row) && !has_right_before(answers, row),
        Mode::Sealed => !has_later(answers, row),
    }
}

/// The number of wrong answers to the same puzzle that came before.
fn wrong_before(answers: &[AnswerRow], row: &AnswerRow) -> usize
    ensures count { result ≡ wrong_before answers.now row.now }
    ensures bound { result ≤ length answers.now }
{
    answers
        .iter()
        .filter(|other| {
            is_same_puzzle(other, row) && (!is_right(other) && other.n.get() < row.n.get())
        })
        .count()
}

/// The points that the wrong answers before cost; a sealed round has no such cost.
fn cost_of(round: &RoundRow, answers: &[AnswerRow], row: &AnswerRow) -> u64
    requires { length answers.now ≤ 4294967295 }
    ensures { result ≡ cost_of round.now round.now.round.mode answers.now row.now }
{
    match round.round.mode {
        Mode::Instant => wrong_before(answers, row) as u64 * round.round.penalty.get(),
        Mode::Sealed => 0,
    }
}

/// The entry with this number.
pub(crate) fn entry_at(entries: &[Entry], number: PuzzleNumber) -> Option<&Entry>
    ensures { option_copied result ≡ entry_at entries.now number }
{
    entries.get(number.get() as usize - 1)
}

/// The points for the puzzle with this number, and none where the round has no such puzzle.
fn points_of(round: &RoundRow, number: PuzzleNumber) -> u64
    ensures value { result ≡ points_of (entry_at round.now.puzzles number) }
    ensures bound { result ≤ 1000 }
{
    match entry_at(round.puzzles.as_slice(), number) {
        Some(entry) => entry.points.get(),
        None => 0,
    }
}

/// Whether the answer counts for a puzzle of the round, and is right.
fn does_score(round: &RoundRow, answers: &[AnswerRow], row: &AnswerRow) -> bool
    ensures { result ≡ does_score round.now answers.now row.now }
{
    entry_at(round.puzzles.as_slice(), row.key.number).is_some()
        && (does_count(round.round.mode, answers, row) && is_right(row))
}

/// The points that an answer gives.
fn points_for(round: &RoundRow, answers: &[AnswerRow], row: &AnswerRow) -> u64
    requires { length answers.now ≤ 4294967295 }
    ensures value { result ≡ points_for round.now answers.now row.now }
    ensures bound { result ≤ 1000 }
{
    if does_score(round, answers, row) {
        points_of(round, row.key.number).saturating_sub(cost_of(round, answers, row))
    } else {
        0
    }
}

/// The points that the answers give together.
fn puzzle_points(round: &RoundRow, answers: &[AnswerRow]) -> u64
    requires { length answers.now ≤ 4294967295 }
    ensures value { result ≡ sum_by (points_for round.now answers.now) answers.now }
    ensures bound { result ≤ length answers.now * 1000 }
{
    let mut points = 0;
    for row in answers {
        points += points_for(round, answers, row);
    }
    points
}

/// Whether an answer to the puzzle of this number scores.
fn is_solved(round: &RoundRow, answers: &[AnswerRow], number: u64) -> bool
    ensures { result ≡ is_solved round.now answers.now number }
{
    answers.iter().any(|row| row.key.number.get() == number && does_score(round, answers, row))
}

/// Whether each puzzle of the round is solved.
fn are_all_solved(round: &RoundRow, answers: &[AnswerRow]) -> bool
    ensures { result ≡ are_all_solved round.now answers.now }
{
    let count = round.puzzles.as_slice().len() as u64;
    (1..count + 1).all(|number| is_solved(round, answers, number))
}

/// The greatest moment of the answers that score, and 0 where none does.
fn last_moment(round: &RoundRow, answers: &[AnswerRow]) -> u64
    ensures value { result ≡ last_moment round.now answers.now }
    ensures bound { result ≤ last_second }
{
    let mut last = 0;
    for row in answers {
        if does_score(round, answers, row) {
            last = last.max(row.moment.get());
        }
    }
    last
}

/// The whole minutes from the moment to the end, rounded down; below 0 where it lies after the end.
fn minutes_left(round: &RoundRow, moment: u64) -> i64
    requires { moment ≤ last_second }
    ensures value { result ≡ minutes_left round.now moment }
    ensures bound { unsigned_abs result ≤ 100000000 }
{
    let left = round.round.end() as i64 - moment as i64;
    left.div_euclid(60)
}

/// The bonus for the minutes that are left from the moment on.
pub(crate) fn bonus_from(round: &RoundRow, moment: u64) -> i64
    requires { moment ≤ last_second }
    ensures value { result ≡ pos round.now.round.bonus *ℤ minutes_left round.now moment }
    ensures bound { unsigned_abs result ≤ 100000000000 }
{
    round.round.bonus.get() as i64 * minutes_left(round, moment)
}

/// The bonus for the minutes that are left, where each puzzle is solved.
fn bonus_of(round: &RoundRow, answers: &[AnswerRow]) -> i64
    ensures value { result ≡ bonus_of round.now answers.now }
    ensures bound { unsigned_abs result ≤ 100000000000 }
{
    if are_all_solved(round, answers) {
        bonus_from(round, last_moment(round, answers))
    } else {
        0
    }
}

/// The points of the upheld protests together.
fn protest_points(protests: &[ProtestRow]) -> i64
    requires { length protests.now ≤ 4294967295 }
    ensures value { result ≡ protest_points protests.now }
    ensures least { neg_ℤ (pos (length protests.now * 1000)) ≤ℤ result }
    ensures most { result ≤ℤ pos (length protests.now * 1000) }
{
    let mut points = 0;
    for row in protests {
        points += i64::from(ruling_points(&row.ruling));
    }
    points
}

/// An entrant's total in a round: the points of the puzzles, the bonus, and the points of the upheld protests.
///
/// The rows are all those of one entrant in this round, with their answers to a puzzle numbered in the order in which
/// they were accepted; a right answer is one that breaks no rule. In an instant round the first right answer to a
/// puzzle gives its points less the penalty for each wrong one before it, and never less than 0. In a sealed round
/// the last answer gives the points where it is right. Where every puzzle of the round is solved so, each whole minute
/// from the greatest moment of these answers to the end gives the bonus; minutes after the end count below 0.
pub fn total(round: &RoundRow, answers: &[AnswerRow], protests: &[ProtestRow]) -> i64
    requires answers { length answers.now ≤ 4294967295 }
    requires protests { length protests.now ≤ 4294967295 }
    ensures { result ≡ total_of round.now answers.now protests.now }
{
    puzzle_points(round, answers) as i64 + bonus_of(round, answers) + protest_points(protests)
}

//! Answers in an order in which those stand together that are counted together.
ghost use Rattle.std.specs.Prelude.{◌≡◌, IfOk};
ghost use Rattle.hall_check.specs.Groups.{AreRanked, to_puzzle_cmp, with_number_cmp};

use hall_policy::AnswerRow;
use std::alloc::{AllocError, Global};
use std::cmp::Ordering;

/// The answers by entrant, round and puzzle, and then by their numbers.
pub(crate) fn ranked(alloc: Global, answers: &[AnswerRow]) -> Result<Vec<&AnswerRow>, AllocError>
    ensures { IfOk result (λ ranked. AreRanked answers.now ranked.items) }
{
    let mut ranked = Vec::with_capacity(alloc, answers.len())?;
    for row in answers {
        ranked.push(row)?;
    }
    ranked.sort_unstable_by(|row, other| number_order(*row, *other));
    Ok(ranked)
}

/// Where the answer stands to another by entrant, round and puzzle.
pub(crate) fn puzzle_order(row: &AnswerRow, other: &AnswerRow) -> Ordering
    ensures { result ≡ to_puzzle_cmp row.now other.now }
{
    let key = &row.key;
    let number = key.number.cmp(&other.key.number);
    key.entrant
        .cmp(&other.key.entrant)
        .then(key.round.cmp(&other.key.round).then(number))
}

/// Where it stands to another by these, and then by number.
pub(crate) fn number_order(row: &AnswerRow, other: &AnswerRow) -> Ordering
    ensures { result ≡ with_number_cmp row.now other.now }
{
    puzzle_order(row, other).then(row.n.cmp(&other.n))
}

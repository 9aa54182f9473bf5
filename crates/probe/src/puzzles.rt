//! Rows of puzzles: what a search finds, and what an answer breaks.
use crate::words::{Fault, number_of};
use hall_desk::{certify, judge};
use hall_grid::parse_puzzle;
use hall_solve::Outcome;
use std::alloc::Global;

/// What a search of the puzzle finds within the budget.
pub(crate) fn certify_row(alloc: Global, row: &str) -> Result<&'static str, Fault> {
    let (text, budget) = row.split_once(' ').ok_or(Fault::Row)?;
    let budget = number_of(budget)?;
    let puzzle = parse_puzzle(alloc, text.as_bytes())?;
    let found = certify(alloc, &puzzle, budget)?;
    Ok(match found.outcome() {
        Outcome::None => "none",
        Outcome::One(_solution) => "one",
        Outcome::More(_first, _second) => "more",
        Outcome::GaveUp => "gave up",
    })
}

/// The verdict on the answer to the puzzle.
pub(crate) fn judge_row(alloc: Global, row: &str) -> Result<String, Fault> {
    let (text, answer) = row.split_once(' ').ok_or(Fault::Row)?;
    let puzzle = parse_puzzle(alloc, text.as_bytes())?;
    let verdict = judge(alloc, &puzzle, answer.as_bytes())?;
    Ok(verdict.to_string(alloc)?)
}

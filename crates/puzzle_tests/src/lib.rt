//! Tests of the puzzle crates, by calls that any crate may make. What the program tells of puzzles is tested by
//! `tools/tests/test_puzzles.py`.
#![tactic(auto)]

#[cfg(test)]
mod deductions;
#[cfg(test)]
mod grid;
#[cfg(test)]
mod solve;

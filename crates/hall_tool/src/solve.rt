//! The command `solve`.
ghost use Rattle.std.specs.Prelude.{◌≡◌, ◌⊎◌, IfOk, string_bytes};
ghost use Rattle.hall_tool.specs.JudgeText.{IsTextRefused};
ghost use Rattle.hall_tool.specs.Machine.{streams};
ghost use Rattle.hall_tool.specs.SolveText.{IsOutcomeLine, IsSolved, IsSolveRun, SolveText};

use crate::device::read_input;
use crate::ending::{Ending, refused, refused_input};
use crate::fault::ToolFault;
use crate::input::{LIMIT, one_line};
use hall_desk::certify;
use hall_grid::{Counted, Puzzle, TextFault, parse_puzzle, write_answer};
use hall_http::write_all;
use hall_solve::Outcome;
use std::alloc::{AllocError, Global};
use std::io::{Read, Write};

/// An outcome as a line.
fn outcome_line(alloc: Global, puzzle: &Puzzle, budget: u64) -> Result<Ending, AllocError>
    ensures { IfOk result (λ a. IsOutcomeLine puzzle.now budget (string_bytes a.line) a.status) }
{
    match certify(alloc, puzzle, budget)?.outcome() {
        Outcome::One(filling) => {
            let text = write_answer(alloc, puzzle, &filling)?;
            let line = format!(in alloc; "one {text}\n")?;
            Ok(Ending { line, status: 0 })
        }
        Outcome::None => plain_line(alloc, "none\n"),
        Outcome::More(_first, _second) => plain_line(alloc, "more\n"),
        Outcome::GaveUp => plain_line(alloc, "gave up\n"),
    }
}

fn plain_line(alloc: Global, text: &str) -> Result<Ending, AllocError>
    ensures { IfOk result (λ a. (string_bytes a.line ≡ text.now) × (a.status ≡ 1)) }
{
    let line = String::from_str(alloc, text)?;
    Ok(Ending { line, status: 1 })
}

/// The line for a puzzle text.
fn answer_text(alloc: Global, text: &[u8], budget: u64) -> Result<Ending, AllocError>
    ensures { IfOk result (λ a. IsSolved text.now budget (string_bytes a.line) a.status
        ⊎ IsTextRefused text.now (string_bytes a.line) a.status) }
{
    match parse_puzzle(alloc, text) {
        Ok(puzzle) => outcome_line(alloc, &puzzle, budget),
        Err(TextFault::Memory) => Err(AllocError),
        Err(fault) => refused(alloc, fault),
    }
}

/// The line for an input.
fn answer_input(alloc: Global, input: &[u8], budget: u64) -> Result<Ending, AllocError>
    ensures { IfOk result (λ a. SolveText input.now budget (string_bytes a.line) a.status) }
{
    match one_line(input) {
        Some(text) => answer_text(alloc, text, budget),
        None => refused_input(alloc),
    }
}

/// Reads a puzzle text on a line, searches for its solutions in at most `budget` visits, and writes what was found on
/// a line, or why the text is refused. The result is the exit status: 0 for one solution, 1 for none, more or gave up,
/// 2 for refused.
pub fn solve_run<R: Read, W: Write>(
    alloc: Global,
    reader: &mut Counted<R>,
    writer: &mut Counted<W>,
    budget: u64,
) -> Result<u8, ToolFault>
    ensures { IsSolveRun budget (streams R.remaining W.contents) reader.old reader.new writer.old writer.new
        result }
{
    let input = read_input(alloc, reader, LIMIT + 1)?;
    let ending = answer_input(alloc, &input, budget)?;
    write_all(writer, ending.line.as_bytes())?;
    Ok(ending.status)
}

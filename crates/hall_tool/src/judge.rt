//! The command `judge`.
ghost use Rattle.std.specs.Prelude.{IfOk, string_bytes};
ghost use Rattle.hall_tool.specs.JudgeText.{JudgeText, AnswersTexts, IsJudgeRun, IsVerdictLine};
ghost use Rattle.hall_tool.specs.Machine.{streams};

use crate::device::read_input;
use crate::ending::{Ending, refused, refused_input};
use crate::fault::ToolFault;
use crate::input::{LIMIT, two_lines};
use hall_desk::judge;
use hall_grid::{Counted, Puzzle, TextFault, parse_puzzle};
use hall_http::write_all;
use std::alloc::{AllocError, Global};
use std::io::{Read, Write};

/// The verdict on an answer text, as a line.
fn judged(alloc: Global, puzzle: &Puzzle, answer: &[u8]) -> Result<Ending, AllocError>
    ensures { IfOk result (λ a. IsVerdictLine puzzle.now answer.now (string_bytes a.line) a.status) }
{
    let names = judge(alloc, puzzle, answer)?;
    let line = format!(in alloc; "{names}\n")?;
    let status = if names.bits() == 0 { 0 } else { 1 };
    Ok(Ending { line, status })
}

/// The line for a puzzle text and an answer text.
fn answer_texts(alloc: Global, text: &[u8], answer: &[u8]) -> Result<Ending, AllocError>
    ensures { IfOk result (λ a. AnswersTexts text.now answer.now (string_bytes a.line) a.status) }
{
    match parse_puzzle(alloc, text) {
        Ok(puzzle) => judged(alloc, &puzzle, answer),
        Err(TextFault::Memory) => Err(AllocError),
        Err(fault) => refused(alloc, fault),
    }
}

/// The line for an input.
fn answer_input(alloc: Global, input: &[u8]) -> Result<Ending, AllocError>
    ensures { IfOk result (λ a. JudgeText input.now (string_bytes a.line) a.status) }
{
    match two_lines(input) {
        Some((text, answer)) => answer_texts(alloc, text, answer),
        None => refused_input(alloc),
    }
}

/// Reads a puzzle text and an answer text, each on a line, and writes the verdict on a line, or why the texts are
/// refused. The result is the exit status: 0 for right, 1 for wrong, 2 for refused.
pub fn judge_run<R: Read, W: Write>(
    alloc: Global,
    reader: &mut Counted<R>,
    writer: &mut Counted<W>,
) -> Result<u8, ToolFault>
    ensures { IsJudgeRun (streams R.remaining W.contents) reader.old reader.new writer.old writer.new result }
{
    let input = read_input(alloc, reader, LIMIT + 1)?;
    let ending = answer_input(alloc, &input)?;
    write_all(writer, ending.line.as_bytes())?;
    Ok(ending.status)
}

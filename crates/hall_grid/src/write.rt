//! Writing a puzzle's text.
ghost use Rattle.std.specs.Prelude.{◌≡◌, ℕ, ◌+◌, ◌<◌, ◌≤◌, ◌↔◌, ◌++◌, List, length, string_bytes, IsTrue, IfOk, OnOk};
ghost use Rattle.std.specs.Prelude.{Some};
ghost use Rattle.hall_grid.specs.Board.{cells};
ghost use Rattle.hall_grid.specs.Text.{word_of, SpellsText};
ghost use Rattle.hall_grid.specs.Canonical.{IsFull, Takes, CanonicalText, head_of};
ghost use Rattle.hall_grid.specs.Printable.{IsPrintableText};
ghost use Rattle.hall_grid.specs.FormReading.{given_clues};
ghost use Rattle.hall_grid.specs.Writing.{IsRunAt, IsChoice, IsShort, cell4_first, number16_bytes, written};
ghost use Rattle.hall_grid.specs.Writing.{AppendsBody};

use crate::board::{Clue, Kind, Size};
use crate::form::Given;
use crate::puzzle::Puzzle;
use std::alloc::{AllocError, Global};

/// The most empty cells of one run.
const LONGEST_RUN: usize = 20;

fn word(kind: Kind) -> &'static str
    ensures { result.now ≡ word_of kind }
{
    match kind {
        Kind::Sudoku => "sudoku",
        Kind::Slither => "slither",
        Kind::Nurikabe => "nurikabe",
    }
}

/// What stands before the body.
fn head(alloc: Global, kind: Kind, size: Size) -> Result<String, AllocError>
    ensures { IfOk result (λ text. string_bytes text ≡ head_of kind size) }
{
    let word = word(kind);
    let cols = size.cols;
    let rows = size.rows;
    format!(in alloc; "{word}/{cols}/{rows}/")
}

/// Whether a cell stands so far ahead and isn't empty.
fn is_full(puzzle: &Puzzle, cell: usize, ahead: usize) -> bool
    requires { cell < cells puzzle.now.size }
    ensures { IsTrue result ↔ IsFull puzzle.now.clues (cell + ahead) }
{
    ahead < puzzle.cells() - cell && puzzle.clue(cell + ahead) != Clue::Blank
}

/// How many empty cells stand from the cell on, at most as many as one run holds.
fn run_at(puzzle: &Puzzle, cell: usize) -> usize
    requires { cell < cells puzzle.now.size }
    ensures { IsRunAt puzzle.now.clues cell result }
{
    let most = LONGEST_RUN.min(puzzle.cells() - cell);
    for count in 0..most {
        if puzzle.clue(cell + count) != Clue::Blank {
            return count;
        }
    }
    most
}

/// How many empty cells a number of Slitherlink takes with it.
fn blanks_after(puzzle: &Puzzle, cell: usize) -> usize
    requires { cell < cells puzzle.now.size }
    ensures { Takes puzzle.now.clues cell result }
{
    if is_full(puzzle, cell, 1) {
        0
    } else if is_full(puzzle, cell, 2) {
        1
    } else {
        2
    }
}

/// The form that stands at the cell.
fn choose(puzzle: &Puzzle, cell: usize) -> Given
    requires { cell < cells puzzle.now.size }
    ensures { IsChoice puzzle.now cell result }
{
    let clue = puzzle.clue(cell);
    let blanks = match (puzzle.kind(), clue) {
        (_, Clue::Blank) => run_at(puzzle, cell),
        (Kind::Slither, Clue::Number(_)) => blanks_after(puzzle, cell),
        _ => 0,
    };
    Given {
        clue: (clue != Clue::Blank).then_some(clue),
        blanks,
    }
}

/// How many cells the form covers.
fn cells_of(given: Given) -> usize
    requires { given.blanks ≤ 20 }
    ensures { result ≡ length (given_clues given) }
{
    match given.clue {
        Some(_) => given.blanks + 1,
        None => given.blanks,
    }
}

/// The byte of a number in the scheme 4Cell.
fn cell4_byte(n: u16, blanks: usize) -> u8
    requires { n ≤ 4 }
    ensures { result ≡ cell4_first blanks + n }
{
    let first = match blanks {
        0 => b'0',
        1 => b'5',
        _ => b'a',
    };
    first + n as u8
}

/// Writes a number in the scheme Number16.
fn push_number16(text: &mut String, n: u16) -> Result<(), AllocError>
    ensures { OnOk result (string_bytes text.new ≡ string_bytes text.old ++ number16_bytes n) }
{
    if n < 16 {
        write!(text, "{n:x}")
    } else if n < 256 {
        write!(text, "-{n:x}")
    } else {
        write!(text, "+{n:x}")
    }
}

fn push_form(text: &mut String, kind: Kind, given: Given) -> Result<(), AllocError>
    requires blanks { given.blanks ≤ 20 }
    requires number { IsShort kind given.clue }
    ensures { OnOk result (string_bytes text.new ≡ string_bytes text.old ++ written kind given) }
{
    match (kind, given.clue) {
        (_, None | Some(Clue::Blank)) => text.push((b'f' + given.blanks as u8) as char),
        (_, Some(Clue::Unknown)) => text.push('.'),
        (Kind::Slither, Some(Clue::Number(n))) => text.push(cell4_byte(n, given.blanks) as char),
        (_, Some(Clue::Number(n))) => push_number16(text, n),
    }
}

fn push_body(text: &mut String, puzzle: &Puzzle) -> Result<(), AllocError>
    ensures { OnOk result (AppendsBody puzzle.now (string_bytes text.old) (string_bytes text.new)) }
{
    let mut cell = 0;
    while cell < puzzle.cells() {
        let form = choose(puzzle, cell);
        push_form(text, puzzle.kind(), form)?;
        cell += cells_of(form);
    }
    Ok(())
}

/// The one canonical text of the puzzle, in at most 4,015 bytes of printable ASCII. The error means out of memory.
pub fn write_puzzle(alloc: Global, puzzle: &Puzzle) -> Result<String, AllocError>
    ensures canonical { IfOk result (λ text. CanonicalText (string_bytes text) puzzle.now) }
    ensures reads_back { IfOk result (λ text. SpellsText (string_bytes text) puzzle.now) }
    ensures printable { IfOk result (λ text. IsPrintableText 1 4015 (string_bytes text)) }
    ensures only { IfOk result
        (λ text. (other : List ℕ) → CanonicalText other puzzle.now → other ≡ string_bytes text) }
{
    let mut text = head(alloc, puzzle.kind(), puzzle.size())?;
    push_body(&mut text, puzzle)?;
    Ok(text)
}

//! The verdict on an answer text.
ghost use Rattle.std.specs.Prelude.{◌≡◌, IfOk};
ghost use Rattle.hall_grid.specs.Answer.{Verdict, IsNoForm, IsFilling, AreBroken};

use hall_grid::{Broken, Filling, Kind, Puzzle, Rule, parse_answer};
use std::alloc::{AllocError, Global};

/// The names for an answer text: the rules that its filling breaks, or A0 alone where no filling has this text. The
/// answer is right where there is none.
pub fn judge(alloc: Global, puzzle: &Puzzle, text: &[u8]) -> Result<Broken, AllocError>
    ensures { IfOk result (Verdict puzzle.now text.now) }
{
    match parse_answer(alloc, puzzle, text)? {
        Some(filling) => broken(alloc, puzzle, &filling),
        None => Ok(no_form()),
    }
}

/// The names of the rules that the filling breaks, by the judge of the puzzle's kind.
fn broken(alloc: Global, puzzle: &Puzzle, filling: &Filling) -> Result<Broken, AllocError>
    requires { IsFilling puzzle.now filling.now }
    ensures { IfOk result (AreBroken puzzle.now filling.now) }
{
    match puzzle.kind() {
        Kind::Sudoku => Ok(hall_sudoku::broken(puzzle, filling)),
        Kind::Slither => hall_slither::broken(alloc, puzzle, filling),
        Kind::Nurikabe => hall_nurikabe::broken(alloc, puzzle, filling),
    }
}

/// A0 alone.
fn no_form() -> Broken
    ensures { IsNoForm result }
{
    let mut names = Broken::new();
    names.insert(Rule::A0);
    names
}

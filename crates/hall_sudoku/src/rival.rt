//! Cells that stand in the way of each other: two of one unit that have the same value.
ghost use Rattle.std.specs.Prelude.{◌≡◌, ◌↔◌, ◌<◌, IsTrue, length};
ghost use Rattle.hall_grid.specs.Board.{cells};
ghost use Rattle.hall_solve.specs.Question.{IsHopeless};
ghost use Rattle.hall_sudoku.specs.Units.{units_question};
ghost use Rattle.hall_sudoku.specs.Rival.{HasRival};

use crate::units::Units;
use hall_solve::Partial;

/// Whether another cell of the cell's row, column or box has the cell's value.
pub(crate) fn has_rival(units: &Units, partial: &Partial, cell: usize) -> bool
    requires exact { length partial.now.places ≡ cells units.now }
    requires cell { cell < cells units.now }
    ensures rival { IsTrue result ↔ HasRival units.now partial.now.places cell }
    ensures hopeless { IsTrue result → IsHopeless (units_question units.now) partial.now.places }
{
    let Some(value) = partial.get(cell) else {
        return false;
    };
    for other in 0..partial.len() {
        if other != cell && partial.get(other) == Some(value) && units.share(cell, other) {
            return true;
        }
    }
    false
}

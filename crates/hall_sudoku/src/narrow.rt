//! Values that are taken out of the sets of candidates where nothing follows from a single cell or unit.
ghost use Rattle.std.specs.Prelude.{◌≡◌, ◌≤◌, ◌<◌, ℕ, false, IsTrue, length, slice_index};
ghost use Rattle.hall_grid.specs.Board.{cells};
ghost use Rattle.hall_solve.specs.Question.{IsPartial, IsHopeless};
ghost use Rattle.hall_sudoku.specs.Units.{units_question};
ghost use Rattle.hall_sudoku.specs.Candidates.{AreCandidates, AreFilled};
ghost use Rattle.hall_sudoku.specs.Parts.{AreElsewhere, AreOut};

use crate::parts::Parts;
use crate::units::Units;
use crate::values::Values;
use hall_solve::Partial;

/// Takes values out that the cells have in no solution.
pub(crate) fn take_out(units: &Units, partial: &Partial, out: &[Values], candidates: &mut [Values])
    requires room { cells units.now ≤ length candidates.old }
    requires out_room { cells units.now ≤ length out.now }
    requires out { AreOut units.now partial.now.places out.now }
    requires candidates { AreCandidates units.now partial.now.places candidates.old }
    ensures { AreCandidates units.now partial.now.places candidates.new }
{
    for cell in 0..units.cells() {
        candidates[cell] = candidates[cell].without(out[cell]);
    }
}

/// Whether each cell has a candidate left.
pub(crate) fn all_filled(units: &Units, partial: &Partial, candidates: &[Values]) -> bool
    requires room { cells units.now ≤ length candidates.now }
    requires candidates { AreCandidates units.now partial.now.places candidates.now }
    ensures filled { IsTrue result → AreFilled units.now candidates.now }
    ensures dead { result ≡ false → IsHopeless (units_question units.now) partial.now.places }
{
    for cell in 0..units.cells() {
        if candidates[cell].is_empty() {
            return false;
        }
    }
    true
}

/// For each cell the values that another of the first units must have in the cell's second unit.
fn elsewhere_of<const CELLS: usize>(
    units: &Units,
    first: &[u8],
    second: &[u8],
    candidates: &[Values],
) -> [Values; CELLS]
    requires room { cells units.now ≤ length candidates.now }
    requires fits { cells units.now ≤ CELLS }
    requires few { CELLS ≤ 625 }
    requires first_size { length first.now ≡ cells units.now }
    requires second_size { length second.now ≡ cells units.now }
    requires first_small { (cell : ℕ) → cell < length first.now → slice_index first.now cell < units.now.cols }
    requires second_small { (cell : ℕ) → cell < length second.now → slice_index second.now cell < units.now.cols }
    ensures size { length result ≡ CELLS }
    ensures elsewhere { AreElsewhere units.now (slice_index first.now) (slice_index second.now) candidates.now result }
{
    let parts = Parts {
        units,
        first,
        second,
    };
    parts.elsewhere::<CELLS>(candidates)
}

/// Takes out what boxes and lines say of each other.
fn take_out_by_parts<const CELLS: usize>(
    units: &Units,
    partial: &Partial,
    candidates: &mut [Values],
)
    requires fits { cells units.now ≤ CELLS }
    requires few { CELLS ≤ 625 }
    requires room { cells units.now ≤ length candidates.old }
    requires partial { IsPartial (units_question units.now) partial.now.places }
    requires candidates { AreCandidates units.now partial.now.places candidates.old }
    ensures { AreCandidates units.now partial.now.places candidates.new }
{
    let (rows, columns, boxes) = (units.rows(), units.columns(), units.boxes());
    let out = elsewhere_of::<CELLS>(units, rows, boxes, candidates);
    take_out(units, partial, &out, candidates);
    let out = elsewhere_of::<CELLS>(units, columns, boxes, candidates);
    take_out(units, partial, &out, candidates);
    let out = elsewhere_of::<CELLS>(units, boxes, rows, candidates);
    take_out(units, partial, &out, candidates);
    let out = elsewhere_of::<CELLS>(units, boxes, columns, candidates);
    take_out(units, partial, &out, candidates);
}

/// Takes values out; tells whether each cell has a candidate left.
pub(crate) fn narrow<const CELLS: usize>(
    units: &Units,
    partial: &Partial,
    candidates: &mut [Values],
) -> bool
    requires fits { cells units.now ≤ CELLS }
    requires few { CELLS ≤ 625 }
    requires room { cells units.now ≤ length candidates.old }
    requires partial { IsPartial (units_question units.now) partial.now.places }
    requires candidates { AreCandidates units.now partial.now.places candidates.old }
    ensures candidates { AreCandidates units.now partial.now.places candidates.new }
    ensures filled { IsTrue result → AreFilled units.now candidates.new }
    ensures dead { result ≡ false → IsHopeless (units_question units.now) partial.now.places }
{
    take_out_by_parts::<CELLS>(units, partial, candidates);
    all_filled(units, partial, candidates)
}

//! Pairs: two values that two cells of a unit alone may have stand in these, which so have no other value.
ghost use Rattle.std.specs.Prelude.{◌≡◌, ◌≤◌, ◌<◌, ℕ, false, IsTrue, length, slice_index};
ghost use Rattle.hall_grid.specs.Board.{cells};
ghost use Rattle.hall_solve.specs.Question.{IsPartial, IsHopeless};
ghost use Rattle.hall_sudoku.specs.Values.{Has};
ghost use Rattle.hall_sudoku.specs.Units.{units_question};
ghost use Rattle.hall_sudoku.specs.Candidates.{AreCandidates, AreFilled};
ghost use Rattle.hall_sudoku.specs.Pairs.{HaveThrice, IsBesidePair, AreBesidePairs};

use crate::narrow::{all_filled, take_out};
use crate::units::{MOST_UNITS, Units};
use crate::values::Values;
use hall_solve::Partial;

/// The values that three cells of each unit may have.
fn thrice_in(units: &[u8], candidates: &[Values]) -> [Values; MOST_UNITS]
    requires cells { length units.now ≤ length candidates.now }
    requires units { (cell : ℕ) → cell < length units.now → slice_index units.now cell < MOST_UNITS }
    ensures size { length result ≡ MOST_UNITS }
    ensures thrice { HaveThrice (slice_index units.now) (length units.now) candidates.now result }
{
    let mut seen = [Values::none(); MOST_UNITS];
    let mut shared = [Values::none(); MOST_UNITS];
    let mut thrice = [Values::none(); MOST_UNITS];
    for (cell, unit) in units.iter().enumerate() {
        let unit = *unit as usize;
        let left = candidates[cell];
        thrice[unit] = thrice[unit].or(shared[unit].and(left));
        shared[unit] = shared[unit].or(seen[unit].and(left));
        seen[unit] = seen[unit].or(left);
    }
    thrice
}

/// The cells that may have two values which at most two cells of their unit may have, and how many they are.
fn cells_with_two<const CELLS: usize>(
    units: &[u8],
    candidates: &[Values],
    thrice: &[Values],
) -> ([usize; CELLS], usize)
    requires cells { length units.now ≤ length candidates.now }
    requires fits { length units.now ≤ CELLS }
    requires few { CELLS ≤ 625 }
    requires units { (cell : ℕ) → cell < length units.now → slice_index units.now cell < MOST_UNITS }
    requires thrice { length thrice.now ≡ MOST_UNITS }
    ensures size { length result.0 ≡ CELLS }
    ensures count { result.1 ≤ CELLS }
    ensures cells { (k : ℕ) → k < result.1 → slice_index result.0 k < length units.now }
{
    let mut found = [0; CELLS];
    let mut count = 0;
    for (cell, unit) in units.iter().enumerate() {
        let unit = *unit as usize;
        if candidates[cell].without(thrice[unit]).has_two() {
            found[count] = cell;
            count += 1;
        }
    }
    (found, count)
}

/// What the cell has not where it and one of the cells found alone may have two values of their unit.
fn beside_pair(
    units: &[u8],
    candidates: &[Values],
    thrice: &[Values],
    found: &[usize],
    cell: usize,
) -> Values
    requires cells { length units.now ≤ length candidates.now }
    requires units { (cell : ℕ) → cell < length units.now → slice_index units.now cell < MOST_UNITS }
    requires size { length thrice.now ≡ MOST_UNITS }
    requires thrice { HaveThrice (slice_index units.now) (length units.now) candidates.now thrice.now }
    requires found { (k : ℕ) → k < length found.now → slice_index found.now k < length units.now }
    requires cell { cell < length units.now }
    ensures { (v : ℕ) → Has result v → IsBesidePair (slice_index units.now) (length units.now) candidates.now cell v }
{
    let unit = units[cell];
    let own = candidates[cell].without(thrice[unit as usize]);
    for other in found {
        if *other != cell && units[*other] == unit {
            let pair = own.and(candidates[*other]);
            if pair.has_two() {
                return candidates[cell].without(pair);
            }
        }
    }
    Values::none()
}

/// For each cell what it has not, since it has one of a pair's values.
fn beside_pairs<const CELLS: usize>(units: &[u8], candidates: &[Values]) -> [Values; CELLS]
    requires cells { length units.now ≤ length candidates.now }
    requires fits { length units.now ≤ CELLS }
    requires few { CELLS ≤ 625 }
    requires units { (cell : ℕ) → cell < length units.now → slice_index units.now cell < MOST_UNITS }
    ensures size { length result ≡ CELLS }
    ensures beside { AreBesidePairs (slice_index units.now) (length units.now) candidates.now result }
{
    let thrice = thrice_in(units, candidates);
    let (found, count) = cells_with_two::<CELLS>(units, candidates, &thrice);
    let found = &found[..count];
    let mut out = [Values::none(); CELLS];
    for cell in found {
        out[*cell] = beside_pair(units, candidates, &thrice, found, *cell);
    }
    out
}

/// Takes out what pairs leave no room for; tells whether each cell has a candidate left.
pub(crate) fn leave_pairs<const CELLS: usize>(
    units: &Units,
    partial: &Partial,
    candidates: &mut [Values],
) -> bool
    requires fits { cells units.now ≤ CELLS }
    requires few { CELLS ≤ 625 }
    requires room { cells units.now ≤ length candidates.old }
    requires partial { IsPartial (units_question units.now) partial.now.places }
    requires candidates { AreCandidates units.now partial.now.places candidates.old }
    ensures candidates { AreCandidates units.now partial.now.places candidates.new }
    ensures filled { IsTrue result → AreFilled units.now candidates.new }
    ensures dead { result ≡ false → IsHopeless (units_question units.now) partial.now.places }
{
    let out = beside_pairs::<CELLS>(units.rows(), candidates);
    take_out(units, partial, &out, candidates);
    let out = beside_pairs::<CELLS>(units.columns(), candidates);
    take_out(units, partial, &out, candidates);
    let out = beside_pairs::<CELLS>(units.boxes(), candidates);
    take_out(units, partial, &out, candidates);
    all_filled(units, partial, candidates)
}

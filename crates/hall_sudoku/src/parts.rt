//! Boxes and lines: a value that a unit may have in one part only stands there, and so nowhere else in the unit that
//! it has this part in common with.
ghost use Rattle.std.specs.Prelude.{◌≡◌, ◌<◌, ℕ, length, slice_index};
ghost use Rattle.hall_grid.specs.Board.{cells};
ghost use Rattle.hall_sudoku.specs.Parts.{part_of, AreGathered, AreConfined, AreElsewhere};

use crate::seen_values::seen_and_shared;
use crate::units::Units;
use crate::values::Values;

/// Units of two sorts: those of the second divide those of the first into parts.
#[derive(Drop)]
pub(crate) struct Parts<'a> {
    pub(crate) units: &'a Units,
    pub(crate) first: &'a [u8],
    pub(crate) second: &'a [u8],
    pub(crate) ghost first_size: { length first.now ≡ cells units.now },
    pub(crate) ghost second_size: { length second.now ≡ cells units.now },
    pub(crate) ghost first_small: { (c : ℕ) → c < length first.now → slice_index first.now c < units.now.cols },
    pub(crate) ghost second_small: { (cell : ℕ) → cell < length second.now
        → slice_index second.now cell < units.now.cols },
}

impl Parts<'_> {
    ghost use Rattle.std.specs.Prelude.{◌≡◌, ◌<◌, ◌≤◌, length, slice_index};
    ghost use Rattle.hall_sudoku.specs.Parts.{part_of, AreGathered, AreConfined, AreElsewhere};

    /// The number of the part in which the cell is.
    fn of(&self, cell: usize) -> usize
        requires { cell < cells self.now.units.now }
        ensures part { result ≡ part_of self.now.units.now (slice_index self.now.first.now)
            (slice_index self.now.second.now) cell }
        ensures board { result < cells self.now.units.now }
    {
        let side = usize::from(self.units.side());
        usize::from(self.first[cell]) * side + usize::from(self.second[cell])
    }

    /// For each part the values that one of its cells may have.
    fn gathered<const CELLS: usize>(&self, candidates: &[Values]) -> [Values; CELLS]
        requires room { cells self.now.units.now ≤ length candidates.now }
        requires fits { cells self.now.units.now ≤ CELLS }
        requires few { CELLS ≤ 625 }
        ensures size { length result ≡ CELLS }
        ensures gathered { AreGathered self.now.units.now (slice_index self.now.first.now)
            (slice_index self.now.second.now) (cells self.now.units.now) candidates.now result }
    {
        let mut parts = [Values::none(); CELLS];
        for cell in 0..self.units.cells() {
            let part = self.of(cell);
            parts[part] = parts[part].or(candidates[cell]);
        }
        parts
    }

    /// For each part the values that its unit of the first sort may have there alone.
    fn confined<const CELLS: usize>(&self, candidates: &[Values]) -> [Values; CELLS]
        requires room { cells self.now.units.now ≤ length candidates.now }
        requires fits { cells self.now.units.now ≤ CELLS }
        requires few { CELLS ≤ 625 }
        ensures size { length result ≡ CELLS }
        ensures confined { AreConfined self.now.units.now (slice_index self.now.first.now)
            (slice_index self.now.second.now) candidates.now result }
    {
        let parts = self.gathered::<CELLS>(candidates);
        let (_, shared) = seen_and_shared(self.units.rows(), &parts);
        let mut confined = [Values::none(); CELLS];
        for part in 0..self.units.cells() {
            confined[part] = parts[part].without(shared[self.units.row(part)]);
        }
        confined
    }

    /// For each cell the values that another unit of the first sort must have in the cell's unit of the second.
    pub(crate) fn elsewhere<const CELLS: usize>(&self, candidates: &[Values]) -> [Values; CELLS]
        requires room { cells self.now.units.now ≤ length candidates.now }
        requires fits { cells self.now.units.now ≤ CELLS }
        requires few { CELLS ≤ 625 }
        ensures size { length result ≡ CELLS }
        ensures elsewhere { AreElsewhere self.now.units.now (slice_index self.now.first.now)
            (slice_index self.now.second.now) candidates.now result }
    {
        let confined = self.confined::<CELLS>(candidates);
        let (claimed, _) = seen_and_shared(self.units.columns(), &confined);
        let mut out = [Values::none(); CELLS];
        for cell in 0..self.units.cells() {
            let other = usize::from(self.second[cell]);
            out[cell] = claimed[other].without(confined[self.of(cell)]);
        }
        out
    }
}

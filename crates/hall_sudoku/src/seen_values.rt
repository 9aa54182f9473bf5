//! The values that the cells of each unit may have.
ghost use Rattle.std.specs.Prelude.{◌≡◌, ◌≤◌, ◌<◌, ℕ, length, slice_index};
ghost use Rattle.hall_sudoku.specs.Candidates.{AreSeen, AreShared};

use crate::units::MOST_UNITS;
use crate::values::Values;

/// The values that some cell of each unit may have, and those that several may have.
pub(crate) fn seen_and_shared(
    units: &[u8],
    candidates: &[Values],
) -> ([Values; MOST_UNITS], [Values; MOST_UNITS])
    requires cells { length units.now ≤ length candidates.now }
    requires units { (cell : ℕ) → cell < length units.now → slice_index units.now cell < MOST_UNITS }
    ensures seen_size { length result.0 ≡ MOST_UNITS }
    ensures shared_size { length result.1 ≡ MOST_UNITS }
    ensures seen { AreSeen (slice_index units.now) (length units.now) candidates.now result.0 }
    ensures shared { AreShared (slice_index units.now) (length units.now) candidates.now result.1 }
{
    let mut seen = [Values::none(); MOST_UNITS];
    let mut shared = [Values::none(); MOST_UNITS];
    for (cell, unit) in units.iter().enumerate() {
        let unit = *unit as usize;
        let left = candidates[cell];
        shared[unit] = shared[unit].or(seen[unit].and(left));
        seen[unit] = seen[unit].or(left);
    }
    (seen, shared)
}

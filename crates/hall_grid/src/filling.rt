//! A filling: a value for each place of a board.
ghost use Rattle.std.specs.Prelude.{◌≡◌};

use std::marker::Model;

/// A value for each place of a board, in the order of the places.
///
/// Sudoku has a place for each cell, row by row, and its values are numbers less 1. Nurikabe has the same places,
/// with 0 for white and 1 for wall. Slitherlink has a place for each side of a cell, first the horizontal ones
/// row by row, then the upright ones, with 1 for a line and 0 for none.
#[derive(Debug, Drop)]
pub struct Filling {
    values: Vec<u8>,
}

impl Model for Filling {
    ghost use Rattle.std.specs.Prelude.{List, ℕ};

    ghost Value = { List ℕ };

    ghost view = { λ f. f.values.items };
}

impl Filling {
    /// The filling with these values.
    pub fn new(values: Vec<u8>) -> Filling
        ensures { result ≡ values.items }
    {
        Filling { values }
    }

    /// The values, one for each place.
    pub fn as_slice(&self) -> &[u8]
        ensures { result.now ≡ self.now }
    {
        &self.values
    }

    /// The values as a list of the caller's own.
    pub fn into_vec(self) -> Vec<u8>
        ensures { result.items ≡ self }
    {
        self.values
    }
}

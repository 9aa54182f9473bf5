//! A puzzle, how far it is filled, what that says of colours, and where to look next.
ghost use Rattle.std.specs.Prelude.{◌≡◌, All};
ghost use Rattle.hall_grid.specs.declared.board.Kind.TheVariants.{Slither};
ghost use Rattle.hall_solve.specs.Question.{IsPartial};
ghost use Rattle.hall_solve.specs.Puzzle.{question_of};
ghost use Rattle.hall_slither.specs.Colour.{AreColoured};
ghost use Rattle.hall_slither.specs.Count.{IsCentre};

use crate::colour::Colours;
use crate::count::Centre;
use hall_grid::Puzzle;
use hall_solve::Partial;

/// A Slitherlink and a partial filling of it, with what is known of colours and the dots and cells still to look at.
#[derive(Drop)]
pub(crate) struct Position<'a> {
    pub(crate) puzzle: &'a Puzzle,
    pub(crate) partial: &'a mut Partial,
    pub(crate) colours: &'a mut Colours,
    pub(crate) stack: &'a mut Vec<Centre>,
    pub(crate) ghost kind: { puzzle.now.kind ≡ Slither },
    pub(crate) ghost fits: { IsPartial (question_of Slither puzzle.now) partial.now.places },
    pub(crate) ghost coloured: { AreColoured puzzle.now partial.now.places colours.now },
    pub(crate) ghost centres: { All (IsCentre puzzle.now.size) stack.now.items },
}

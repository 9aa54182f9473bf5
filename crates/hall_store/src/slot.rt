//! The keys of the maps of answers and of uses, whose orders put side by side what is asked for together.
ghost use Rattle.std.specs.Prelude.{◌≡◌, IfOk};

use hall_policy::{AnswerNumber, Label, Name, PuzzleNumber, RoundId};
use std::alloc::AllocError;

/// Where an answer is kept: a round's slots are in the order of listings.
#[derive(PartialEq, Eq, PartialOrd, Ord, Drop)]
pub(crate) struct AnswerSlot {
    pub(crate) round: RoundId,
    pub(crate) entrant: Name,
    pub(crate) number: PuzzleNumber,
    pub(crate) n: AnswerNumber,
}

// By hand, as a derived one would ask each field for memory.
impl Clone for AnswerSlot {
    ghost use Rattle.std.specs.Prelude.{◌≡◌};

    ghost is_clone = { λ x y. y ≡ x };

    fn clone(&self) -> Result<AnswerSlot, AllocError> {
        slot_at(&self.entrant, &self.round, self.number, self.n)
    }
}

/// Which answers are asked for together.
#[derive(Clone, Copy)]
pub(crate) enum Part {
    /// Those of a round.
    Round,
    /// Those of an entrant in a round.
    Entrant,
    /// Those of an entrant to one puzzle of a round.
    Puzzle,
}

/// That a round may have a puzzle.
#[derive(PartialEq, Eq, PartialOrd, Ord, Drop)]
pub(crate) struct UseKey {
    pub(crate) author: Name,
    pub(crate) label: Label,
    pub(crate) round: RoundId,
}

/// The slot of the entrant's n-th answer to the round's puzzle of that number.
pub(crate) fn slot_at(
    entrant: &Name,
    round: &RoundId,
    number: PuzzleNumber,
    n: AnswerNumber,
) -> Result<AnswerSlot, AllocError>
    ensures { IfOk result
        (λ slot. slot ≡ record { round = round.now; entrant = entrant.now; number = number; n = n }) }
{
    Ok(AnswerSlot {
        round: round.clone()?,
        entrant: entrant.clone()?,
        number,
        n,
    })
}

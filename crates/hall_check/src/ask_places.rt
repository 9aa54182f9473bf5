//! What is asked of the entries of rounds' lists.
ghost use Rattle.std.specs.Prelude.{◌↔◌, IsTrue};
ghost use Rattle.hall_check.specs.Sentences.{IsCertifiedFirst, IsElsewhere, IsInAnother, IsInNoOther};
ghost use Rattle.hall_check.specs.Whole.{IsInOrder, world_of_whole};

use crate::ask_rows::Asked;
use crate::counts::Asking;
use crate::sentence::Sentence;
use crate::whole::Whole;
use hall_desk::is_one;
use hall_store::Place;
use std::alloc::AllocError;

impl Asked for Place {
    ghost use Rattle.hall_check.specs.Checks.{SaysOfEntry};

    ghost says = { SaysOfEntry };

    fn is_true(&self, asking: &Asking, sentence: Sentence) -> Result<bool, AllocError> {
        match sentence {
            Sentence::EntryHome => Ok(asking.whole.round(&self.0.round).is_some()),
            Sentence::PuzzleThere => Ok(asking.whole.puzzle(&self.1.puzzle).is_some()),
            Sentence::CertifiedFirst => Ok(is_certified_first(asking.whole, self)),
            Sentence::InNoOther => Ok(is_in_no_other(asking.whole, self)),
            _ => Ok(false),
        }
    }
}

/// Whether the puzzle of the place is in state one, where the round is released.
fn is_certified_first(whole: &Whole, place: &Place) -> bool
    ensures { IsTrue result ↔ IsCertifiedFirst (world_of_whole whole.now) place.now }
{
    if !whole.is_released(&place.0.round) {
        return true;
    }
    match whole.puzzle(&place.1.puzzle) {
        Some(puzzle) => is_one(&puzzle.state),
        None => false,
    }
}

/// Whether the puzzle of the place is in no other released round, where the round is released.
fn is_in_no_other(whole: &Whole, place: &Place) -> bool
    ensures { IsInOrder whole.now → IsTrue result ↔ IsInNoOther (world_of_whole whole.now) place.now }
{
    if !whole.is_released(&place.0.round) {
        return true;
    }
    !is_in_another(whole, place)
}

/// Whether the puzzle of the place is in another round that is there and released.
fn is_in_another(whole: &Whole, place: &Place) -> bool
    ensures { IsTrue result ↔ IsInAnother whole.now place.now }
{
    for other in &whole.places {
        if is_elsewhere(whole, place, other) {
            return true;
        }
    }
    false
}

/// Whether the other place is of the same puzzle, in another round that is there and released.
fn is_elsewhere(whole: &Whole, place: &Place, other: &Place) -> bool
    ensures { IsTrue result ↔ IsElsewhere (world_of_whole whole.now) place.now other.now }
{
    other.1.puzzle.is_same(&place.1.puzzle)
        && !other.0.round.is_same(&place.0.round)
        && whole.is_released(&other.0.round)
}

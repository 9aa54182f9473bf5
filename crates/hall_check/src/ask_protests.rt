//! What is asked of protests.
ghost use Rattle.std.specs.Prelude.{◌↔◌, IsTrue};
ghost use Rattle.hall_check.specs.Sentences.{IsRuledFirst};
ghost use Rattle.hall_check.specs.Whole.{world_of_whole};

use crate::ask_answers::{has_place, may_take_part};
use crate::ask_rows::Asked;
use crate::counts::Asking;
use crate::sentence::Sentence;
use crate::whole::Whole;
use hall_policy::{MOST_PROTESTS, ProtestRow};
use std::alloc::AllocError;

impl Asked for ProtestRow {
    ghost use Rattle.hall_check.specs.Checks.{SaysOfProtest};

    ghost says = { SaysOfProtest };

    fn is_true(&self, asking: &Asking, sentence: Sentence) -> Result<bool, AllocError> {
        let whole = asking.whole;
        let key = &self.key;
        match sentence {
            Sentence::ProtesterThere => Ok(whole.person(&key.entrant).is_some()),
            Sentence::ProtestedThere => Ok(has_place(whole, &key.round, self.number)),
            Sentence::ProtestReleased => Ok(whole.is_released(&key.round)),
            Sentence::MayProtest => Ok(may_take_part(whole, &key.entrant, &key.round)),
            Sentence::RuledFirst => Ok(is_ruled_first(whole, self)),
            Sentence::FewProtests => Ok(asking.protests_made(self)? <= MOST_PROTESTS),
            _ => Ok(false),
        }
    }
}

/// Whether the protest is ruled, where its round is published.
fn is_ruled_first(whole: &Whole, row: &ProtestRow) -> bool
    ensures { IsTrue result ↔ IsRuledFirst (world_of_whole whole.now) row.now }
{
    match whole.round(&row.key.round) {
        Some(round) => !round.published || row.ruling.is_some(),
        None => true,
    }
}

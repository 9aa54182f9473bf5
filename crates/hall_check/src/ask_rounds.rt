//! What is asked of rounds.
ghost use Rattle.std.specs.Prelude.{◌≡◌, ◌↔◌, ◌+◌, IsTrue, IfOk, option_map};
ghost use Rattle.hall_policy.specs.Lists.{AreEntries};
ghost use Rattle.hall_check.specs.Asking.{CanAsk, asked_world};
ghost use Rattle.hall_check.specs.Sentences.{HasList, IsListTold};

use crate::ask_rows::{Asked, push};
use crate::counts::Asking;
use crate::sentence::Sentence;
use hall_policy::{Entries, Entry, MOST_TESTERS, Round, RoundId};
use hall_store::Place;
use std::alloc::{AllocError, Global};

impl Asked for Round {
    ghost use Rattle.hall_check.specs.Checks.{SaysOfRound};

    ghost says = { SaysOfRound };

    fn is_true(&self, asking: &Asking, sentence: Sentence) -> Result<bool, AllocError> {
        match sentence {
            Sentence::ListWhole => has_list(asking, &self.id),
            Sentence::FewTesters => Ok(asking.testers_of(&self.id) <= MOST_TESTERS as u64),
            Sentence::ReleasedFirst => Ok(!self.published || self.released),
            _ => Ok(false),
        }
    }
}

/// Whether the round has 1 to `MOST_ENTRIES` puzzles, none twice, numbered from 1.
fn has_list(asking: &Asking, id: &RoundId) -> Result<bool, AllocError>
    ensures { IfOk result (λ told. CanAsk asking.now → IsTrue told ↔ HasList (asked_world asking.now) id.now) }
{
    match entries_of(asking.alloc, &asking.whole.places, id)? {
        Some(list) => are_entries(list),
        None => Ok(false),
    }
}

/// Whether a round may have the list.
fn are_entries(list: Vec<Entry>) -> Result<bool, AllocError>
    ensures { IfOk result (λ told. IsTrue told ↔ AreEntries list.items) }
{
    Ok(Entries::new(list)?.is_some())
}

/// The entries of the round in the order of their numbers, where these are 1, 2 and so on.
fn entries_of(
    alloc: Global,
    places: &[Place],
    id: &RoundId,
) -> Result<Option<Vec<Entry>>, AllocError>
    ensures { IfOk result (λ told. IsListTold places.now id.now
        (option_map (λ list. list.items) told)) }
{
    let mut list = Vec::new(alloc);
    for place in places {
        if !place.0.round.is_same(id) {
            continue;
        }
        if !is_next(place, list.len()) {
            return Ok(None);
        }
        push(&mut list, place.1.clone()?)?;
    }
    Ok(Some(list))
}

/// Whether the place's number is the next one after so many.
fn is_next(place: &Place, count: usize) -> bool
    ensures { IsTrue result ↔ (place.now.0.number ≡ 1 + count) }
{
    match place.0.number.get().checked_sub(1) {
        Some(before) => before == count as u64,
        None => false,
    }
}

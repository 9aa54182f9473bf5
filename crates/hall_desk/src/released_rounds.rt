//! Whether a puzzle stands in a released round.
ghost use Rattle.std.specs.Prelude.{◌↔◌, ℕ, List, IsTrue, Contains};
ghost use Rattle.hall_policy.specs.Rules.{StandsReleased};
ghost use Rattle.hall_store.specs.Store.{Kept, Told};
ghost use Rattle.hall_desk.specs.Lookups.{IsReleasedRound};
ghost use Rattle.hall_desk.specs.Plans.{FailsIn};

use crate::find_round::find_round;
use hall_policy::{PuzzleKey, RoundId};
use hall_store::{ReadStore, StoreFault};
use std::alloc::Global;

/// Whether the puzzle stands in a released round.
pub(crate) fn is_in_released_round<S: ReadStore>(
    alloc: Global,
    store: &mut S,
    key: &PuzzleKey,
) -> Result<bool, StoreFault>
    ensures kept { Kept (S.content store.old) (S.content store.new) }
    ensures fault { FailsIn (S.content store.old) (S.content store.new) result }
    ensures told { Told (S.content store.old) (S.content store.new) result
        (λ world found. IsTrue found ↔ ((id : List ℕ) × StandsReleased world key.now id)) }
{
    let ids = store.rounds_using(alloc, key)?;
    any_released(alloc, store, ids.as_slice())
}

/// Whether one of the rounds is there and released.
pub(crate) fn any_released<S: ReadStore>(
    alloc: Global,
    store: &mut S,
    ids: &[RoundId],
) -> Result<bool, StoreFault>
    ensures kept { Kept (S.content store.old) (S.content store.new) }
    ensures fault { FailsIn (S.content store.old) (S.content store.new) result }
    ensures told { Told (S.content store.old) (S.content store.new) result
        (λ world found. IsTrue found ↔ ((id : List ℕ) × Contains ids.now id × IsReleasedRound world id)) }
{
    for id in ids {
        if is_released(alloc, store, id)? {
            return Ok(true);
        }
    }
    Ok(false)
}

/// Whether the round is there and released.
fn is_released<S: ReadStore>(alloc: Global, store: &mut S, id: &RoundId) -> Result<bool, StoreFault>
    ensures kept { Kept (S.content store.old) (S.content store.new) }
    ensures fault { FailsIn (S.content store.old) (S.content store.new) result }
    ensures told { Told (S.content store.old) (S.content store.new) result
        (λ world released. IsTrue released ↔ IsReleasedRound world id.now) }
{
    match find_round(alloc, store, id)? {
        Some(row) => Ok(row.round.released),
        None => Ok(false),
    }
}

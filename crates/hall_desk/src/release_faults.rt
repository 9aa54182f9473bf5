//! What keeps a round from its release.
ghost use Rattle.std.specs.Prelude.{◌≡◌, ◌≢◌, ◌↔◌, ℕ, List, IsTrue, Contains, not};
ghost use Rattle.std.specs.List.{filter};
ghost use Rattle.hall_policy.specs.World.{same_text};
ghost use Rattle.hall_policy.specs.Rules.{StandsReleased, IsCertified};
ghost use Rattle.hall_store.specs.Store.{CanFailIn, Asks, Kept, Told, Fails, IsRoundKept};
ghost use Rattle.hall_desk.specs.Lookups.{HasFault, HasFaultyEntry};
ghost use Rattle.hall_desk.specs.Plans.{FailsIn};

use crate::released_rounds::any_released;
use hall_policy::{Entry, PuzzleKey, PuzzleState, RoundId, RoundRow};
use hall_store::{ReadStore, StoreFault};
use std::alloc::Global;

/// What may be wrong with an entry of a round that is to be released.
#[derive(Clone, Copy, Debug, PartialEq, Eq)]
pub(crate) enum EntryFault {
    /// Its puzzle stands in another released round.
    Shared,
    /// Its puzzle isn't in state one.
    Uncertified,
}

/// Whether an entry of the round has the fault. `round` is what the store keeps of it.
pub(crate) fn find_fault<S: ReadStore>(
    alloc: Global,
    store: &mut S,
    id: &RoundId,
    round: &Option<RoundRow>,
    fault: EntryFault,
) -> Result<bool, StoreFault>
    requires { Asks (S.content store.old) (λ world. IsRoundKept world id.now round.now) }
    ensures kept { Kept (S.content store.old) (S.content store.new) }
    ensures fault { FailsIn (S.content store.old) (S.content store.new) result }
    ensures told { Told (S.content store.old) (S.content store.new) result
        (λ world found. IsTrue found ↔ HasFaultyEntry fault world id.now) }
{
    match round {
        Some(row) => any_faulty(alloc, store, id, row.puzzles.as_slice(), fault),
        None => Ok(false),
    }
}

/// Whether one of the entries has the fault.
fn any_faulty<S: ReadStore>(
    alloc: Global,
    store: &mut S,
    id: &RoundId,
    entries: &[Entry],
    fault: EntryFault,
) -> Result<bool, StoreFault>
    ensures kept { Kept (S.content store.old) (S.content store.new) }
    ensures fault { FailsIn (S.content store.old) (S.content store.new) result }
    ensures told { Told (S.content store.old) (S.content store.new) result
        (λ world found. IsTrue found ↔
        ((entry : Entry) × Contains entries.now entry × HasFault fault world id.now entry)) }
{
    for entry in entries {
        if has_fault(alloc, store, id, entry, fault)? {
            return Ok(true);
        }
    }
    Ok(false)
}

/// Whether the entry has the fault.
fn has_fault<S: ReadStore>(
    alloc: Global,
    store: &mut S,
    id: &RoundId,
    entry: &Entry,
    fault: EntryFault,
) -> Result<bool, StoreFault>
    ensures kept { Kept (S.content store.old) (S.content store.new) }
    ensures fault { FailsIn (S.content store.old) (S.content store.new) result }
    ensures told { Told (S.content store.old) (S.content store.new) result
        (λ world found. IsTrue found ↔ HasFault fault world id.now entry.now) }
{
    match fault {
        EntryFault::Shared => is_shared(alloc, store, id, &entry.puzzle),
        EntryFault::Uncertified => is_uncertified(alloc, store, &entry.puzzle),
    }
}

/// Whether the puzzle stands in a released round other than this one.
fn is_shared<S: ReadStore>(
    alloc: Global,
    store: &mut S,
    id: &RoundId,
    key: &PuzzleKey,
) -> Result<bool, StoreFault>
    ensures kept { Kept (S.content store.old) (S.content store.new) }
    ensures fault { FailsIn (S.content store.old) (S.content store.new) result }
    ensures told { Told (S.content store.old) (S.content store.new) result
        (λ world found. IsTrue found ↔ ((other : List ℕ) × (other ≢ id.now) × StandsReleased world key.now other)) }
{
    let mut others = store.rounds_using(alloc, key)?;
    leave_out(&mut others, id);
    any_released(alloc, store, others.as_slice())
}

/// Takes the id out of the list.
fn leave_out(ids: &mut Vec<RoundId>, id: &RoundId)
    ensures { ids.new.items ≡ filter (λ other. not (same_text other id.now)) ids.old.items }
{
    ids.retain(|other| *other != *id);
}

/// Whether the puzzle isn't kept in state one.
fn is_uncertified<S: ReadStore>(
    alloc: Global,
    store: &mut S,
    key: &PuzzleKey,
) -> Result<bool, StoreFault>
    ensures kept { Kept (S.content store.old) (S.content store.new) }
    ensures fault { Fails (CanFailIn (S.content store.old) (S.content store.new)) result }
    ensures told { Told (S.content store.old) (S.content store.new) result
        (λ world found. IsTrue found ↔ ¬ (IsCertified world key.now)) }
{
    match store.puzzle(alloc, key)? {
        Some(row) => Ok(!is_one(&row.state)),
        None => Ok(true),
    }
}

/// Whether the state is that of a puzzle with exactly one solution.
pub fn is_one(state: &PuzzleState) -> bool
    ensures { IsTrue result ↔ ((text : List ℕ) × (state.now ≡ PuzzleState.One text)) }
{
    match state {
        PuzzleState::One(_) => true,
        PuzzleState::New | PuzzleState::NoSolution | PuzzleState::More | PuzzleState::GaveUp =>
            false,
    }
}

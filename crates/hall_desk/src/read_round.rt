//! ReadRound: a round with its puzzles' texts.
ghost use Rattle.std.specs.Prelude.{◌≡◌, ◌≢◌, ◌≤◌, ◌<◌, ◌+◌, None, length};
ghost use Rattle.std.specs.FinMap.{get};
ghost use Rattle.hall_policy.specs.Limits.{most_entries};
ghost use Rattle.hall_policy.specs.World.{IsRoundAt};
ghost use Rattle.hall_policy.specs.declared.request.Action.TheVariants as action;
ghost use Rattle.hall_store.specs.Store.{Asks, Kept, Served, Told};
ghost use Rattle.hall_desk.specs.Lookups.{IsCaller};
ghost use Rattle.hall_desk.specs.RoundCopy.{IsRoundCopied, IsShownAt};
ghost use Rattle.hall_desk.specs.Sane.{Sane};
ghost use Rattle.hall_desk.specs.Shown.{ShowsRound, ShowsPuzzles, ShowsPuzzle};
ghost use Rattle.hall_desk.specs.Plans.{FailsIn, AreKept, IsPlanFor};

use crate::find_round::find_round;
use crate::plan::Plan;
use crate::put_puzzle::text_of;
use crate::reply::{Reply, ShownPuzzle, ShownRound};
use crate::request_at::RequestAt;
use crate::round_copy::{RoundCopy, copy_of, shown_of};
use crate::rows::{Rows, push};
use hall_policy::{Decision, Entry, Facts, PuzzleNumber, RoundId, RoundRow, decide};
use hall_store::{ReadStore, StoreFault};
use std::alloc::Global;

/// The plan for a round that is read: by the copy, where it is this round's.
pub(crate) fn plan_round<S: ReadStore>(
    asked: &RequestAt,
    store: &mut S,
    round: &RoundId,
    facts: &mut Facts,
    copied: &mut Option<RoundCopy>,
) -> Result<Plan, StoreFault>
    requires action { asked.now.request.now.action ≡ action.ReadRound round.now }
    requires copied { IsRoundCopied (S.content store.old) copied.old }
    requires caller { Asks (S.content store.old) (λ world. IsCaller world asked.now.request.now.key facts.old.caller) }
    ensures kept { Kept (S.content store.old) (S.content store.new) }
    ensures fault { FailsIn (S.content store.old) (S.content store.new) result }
    ensures told { Told (S.content store.old) (S.content store.new) result
        (λ world plan. IsPlanFor world asked.now.t asked.now.request.now plan) }
    ensures copied { IsRoundCopied (S.content store.new) copied.new }
{
    facts.round = find_round(asked.alloc, store, round)?;
    match decide(facts, &asked.request.action, asked.t) {
        Decision::Deny(rule) => Ok(Plan::of(Reply::Denied(rule))),
        Decision::Repeat => unreachable!(),
        Decision::Allow => {
            let Some(row) = &facts.round else {
                unreachable!()
            };
            let shown = make_shown(asked.alloc, store, round, row, copied)?;
            Ok(Plan::of(Reply::ReadRound(shown)))
        }
    }
}

/// The round as it is read, of which a copy is kept where there is memory for it.
fn make_shown<S: ReadStore>(
    alloc: Global,
    store: &mut S,
    round: &RoundId,
    row: &RoundRow,
    copied: &mut Option<RoundCopy>,
) -> Result<ShownRound, StoreFault>
    requires row { (S.content store.old).honest → (S.content store.old).serves
        × IsRoundAt (S.content store.old).world round.now row.now }
    requires copied { IsRoundCopied (S.content store.old) copied.old }
    ensures kept { Kept (S.content store.old) (S.content store.new) }
    ensures fault { FailsIn (S.content store.old) (S.content store.new) result }
    ensures served { Served (S.content store.new) result (λ world shown. IsShownAt world round.now shown) }
    ensures copied { IsRoundCopied (S.content store.new) copied.new }
{
    if let Some(shown) = shown_of(alloc, copied, round)? {
        return Ok(shown);
    }
    let shown = show_round(alloc, store, row)?;
    *copied = copy_of(alloc, round, &shown).ok();
    Ok(shown)
}

/// The round as it is read.
fn show_round<S: ReadStore>(
    alloc: Global,
    store: &mut S,
    row: &RoundRow,
) -> Result<ShownRound, StoreFault>
    requires { Asks (S.content store.old) (λ world. Sane world → AreKept world row.now.puzzles) }
    ensures kept { Kept (S.content store.old) (S.content store.new) }
    ensures fault { FailsIn (S.content store.old) (S.content store.new) result }
    ensures told { Told (S.content store.old) (S.content store.new) result
        (λ world found. ShowsRound world row.now found) }
{
    let id = row.round.id.clone()?;
    let title = row.round.title.clone()?;
    let puzzles = show_puzzles(alloc, store, row.puzzles.as_slice())?;
    Ok(ShownRound {
        bonus: row.round.bonus,
        id,
        minutes: row.round.minutes,
        mode: row.round.mode,
        penalty: row.round.penalty,
        protest_minutes: row.round.protest_minutes,
        puzzles,
        start: row.round.start,
        title,
    })
}

/// The puzzles of a round as they are read, numbered from 1.
fn show_puzzles<S: ReadStore>(
    alloc: Global,
    store: &mut S,
    entries: &[Entry],
) -> Result<Rows<ShownPuzzle>, StoreFault>
    requires few { length entries.now ≤ most_entries }
    requires listed { Asks (S.content store.old) (λ world. Sane world → AreKept world entries.now) }
    ensures kept { Kept (S.content store.old) (S.content store.new) }
    ensures fault { FailsIn (S.content store.old) (S.content store.new) result }
    ensures told { Told (S.content store.old) (S.content store.new) result
        (λ world found. ShowsPuzzles world 1 entries.now found) }
{
    let mut shown = Vec::new(alloc);
    for (place, entry) in entries.iter().enumerate() {
        let line = show_puzzle(alloc, store, place, entry)?;
        push(&mut shown, line)?;
    }
    Ok(Rows::new(shown))
}

/// The puzzle at a place, counted from 0, as it is read.
fn show_puzzle<S: ReadStore>(
    alloc: Global,
    store: &mut S,
    place: usize,
    entry: &Entry,
) -> Result<ShownPuzzle, StoreFault>
    requires few { place < most_entries }
    requires listed { Asks (S.content store.old) (λ world. Sane world → get world.puzzles entry.now.puzzle ≢ None) }
    ensures kept { Kept (S.content store.old) (S.content store.new) }
    ensures fault { FailsIn (S.content store.old) (S.content store.new) result }
    ensures told { Told (S.content store.old) (S.content store.new) result
        (λ world found. ShowsPuzzle world (place + 1) entry.now found) }
{
    let Some(number) = PuzzleNumber::new(place as u64 + 1) else {
        unreachable!()
    };
    let Some(row) = store.puzzle(alloc, &entry.puzzle)? else {
        return Err(StoreFault::Failed);
    };
    let text = text_of(alloc, &row.puzzle);
    drop(row);
    Ok(ShownPuzzle {
        number,
        points: entry.points,
        text: text?,
    })
}

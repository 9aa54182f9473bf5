//! A copy of the round that was read last.
ghost use Rattle.std.specs.Prelude.{◌≡◌, ◌⊎◌, IfOk, IfSome, Some, None};
ghost use Rattle.hall_desk.specs.RoundCopy.{LeavesRounds};
ghost use Rattle.hall_desk.specs.declared.round_copy.RoundCopy.{RoundCopy};

use crate::reply::{ShownPuzzle, ShownRound};
use crate::rows::{Rows, push};
use hall_policy::RoundId;
use hall_store::Change;
use std::alloc::{AllocError, Global};

/// A round's id, and the round as it is read.
#[derive(Drop)]
pub(crate) struct RoundCopy {
    pub(crate) round: RoundId,
    pub(crate) shown: ShownRound,
}

/// The round of the copy, where it is the one of this id; an error means out of memory.
pub(crate) fn shown_of(
    alloc: Global,
    copied: &Option<RoundCopy>,
    round: &RoundId,
) -> Result<Option<ShownRound>, AllocError>
    ensures { IfOk result (λ found. IfSome found
        (λ shown. (copy : RoundCopy) × (copied.now ≡ Some copy) × (copy.round ≡ round.now) × (copy.shown ≡ shown))) }
{
    match copied {
        Some(copy) if copy.round == *round => {
            let shown = copy_shown(alloc, &copy.shown)?;
            Ok(Some(shown))
        }
        _ => Ok(None),
    }
}

/// A copy of the round of this id; an error means out of memory.
pub(crate) fn copy_of(
    alloc: Global,
    round: &RoundId,
    shown: &ShownRound,
) -> Result<RoundCopy, AllocError>
    ensures { IfOk result (λ copy. (copy.round ≡ round.now) × (copy.shown ≡ shown.now)) }
{
    let shown = copy_shown(alloc, shown)?;
    Ok(RoundCopy {
        round: round.clone()?,
        shown,
    })
}

/// The same round once more.
fn copy_shown(alloc: Global, shown: &ShownRound) -> Result<ShownRound, AllocError>
    ensures { IfOk result (λ copy. copy ≡ shown.now) }
{
    let id = shown.id.clone()?;
    let title = shown.title.clone()?;
    let puzzles = copy_puzzles(alloc, shown.puzzles.as_slice())?;
    Ok(ShownRound {
        bonus: shown.bonus,
        id,
        minutes: shown.minutes,
        mode: shown.mode,
        penalty: shown.penalty,
        protest_minutes: shown.protest_minutes,
        puzzles,
        start: shown.start,
        title,
    })
}

/// The same puzzles once more.
fn copy_puzzles(alloc: Global, lines: &[ShownPuzzle]) -> Result<Rows<ShownPuzzle>, AllocError>
    ensures { IfOk result (λ copies. copies ≡ lines.now) }
{
    let mut copies = Vec::with_capacity(alloc, lines.len())?;
    for line in lines {
        let copy = copy_puzzle(line)?;
        push(&mut copies, copy)?;
    }
    Ok(Rows::new(copies))
}

/// The same puzzle once more.
fn copy_puzzle(line: &ShownPuzzle) -> Result<ShownPuzzle, AllocError>
    ensures { IfOk result (λ copy. copy ≡ line.now) }
{
    Ok(ShownPuzzle {
        number: line.number,
        points: line.points,
        text: line.text.clone()?,
    })
}

/// What is left of the copy by a change: nothing where it changes a round or a puzzle.
pub(crate) fn left_by(change: &Change, copied: Option<RoundCopy>) -> Option<RoundCopy>
    ensures { LeavesRounds change.now × (result ≡ copied) ⊎ (result ≡ None) }
{
    match change {
        Change::Nothing
        | Change::Import(_)
        | Change::AddAnswer(_)
        | Change::AddAnswers(_)
        | Change::AddProtest(_)
        | Change::RuleProtest { .. } => copied,
        Change::PutPuzzle(_)
        | Change::SetState { .. }
        | Change::PutRound(_)
        | Change::SetRoundFlag { .. } => None,
    }
}

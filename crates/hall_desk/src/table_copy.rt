//! Copies of the tables that were made last.
ghost use Rattle.std.specs.Prelude.{◌≡◌, ◌⊎◌, not, Contains, IfOk, IfSome, IsTrue};
ghost use Rattle.std.specs.List.{filter, list_all};
ghost use Rattle.hall_policy.specs.World.{same_text};
ghost use Rattle.hall_desk.specs.Listings.{leaves_listing};
ghost use Rattle.hall_desk.specs.TableCopy.{IsKept, leaves_table};
ghost use Rattle.hall_desk.specs.declared.table_copy.TableCopy.{TableCopy};

use crate::reply::TableText;
use crate::rows::Rows;
use hall_policy::{AnswerRow, RoundId};
use hall_store::Change;
use std::alloc::{AllocError, Global};

/// The most copies that are kept: as many as there are connections, so that whoever waits for a table is told it at its
/// next turn, and never finds its copy let go for those of others who wait.
const MOST_COPIES: usize = 500;

/// The most bytes of their texts, but for a copy that is kept alone.
const MOST_BYTES: usize = 33_554_432;

/// A round, and the text of its table.
#[derive(Drop)]
pub(crate) struct TableCopy {
    pub(crate) round: RoundId,
    pub(crate) text: TableText,
}

/// The text of the round's copy, where one is kept; an error means out of memory.
pub(crate) fn text_of(
    alloc: Global,
    copied: &Option<Rows<TableCopy>>,
    round: &RoundId,
) -> Result<Option<TableText>, AllocError>
    ensures { IfOk result (λ found. IfSome found
        (λ text. (copy : TableCopy) × IsKept copied.now copy × (copy.round ≡ round.now) × (copy.text ≡ text))) }
{
    let Some(copies) = copied else {
        return Ok(None);
    };
    for copy in copies.as_slice() {
        if copy.round == *round {
            let text = String::from_str(alloc, copy.text.as_str())?;
            return Ok(Some(TableText::new(text)));
        }
    }
    Ok(None)
}

/// Whether a copy of the round's table is kept.
pub(crate) fn is_copied(copied: &Option<Rows<TableCopy>>, round: &RoundId) -> bool {
    match copied {
        Some(copies) => copies.as_slice().iter().any(|copy| copy.round == *round),
        None => false,
    }
}

/// Keeps a copy of the round's table, where there is memory for it.
pub(crate) fn keep(alloc: Global, copied: &mut Option<Rows<TableCopy>>, round: &RoundId, text: &str)
    ensures { (copy : TableCopy) → IsKept copied.new copy →
        IsKept copied.old copy ⊎ ((copy.round ≡ round.now) × (copy.text ≡ text.now)) }
{
    let Ok(copy) = copy_of(alloc, round, text) else {
        return;
    };
    keep_copy(alloc, copied, copy);
}

/// Keeps the copy where there is memory for it: beside the others, or in their place where there is no room beside
/// them. The result is whether it is kept.
pub(crate) fn keep_copy(
    alloc: Global,
    copied: &mut Option<Rows<TableCopy>>,
    copy: TableCopy,
) -> bool
    ensures some { (other : TableCopy) → IsKept copied.new other → IsKept copied.old other ⊎ (other ≡ copy) }
    ensures kept { IsTrue result → IsKept copied.new copy }
{
    let mut copies = those_beside(alloc, copied.take(), copy.text.as_str().len());
    let kept = copies.push(copy).is_ok();
    *copied = Some(copies);
    kept
}

/// The copies beside which there is room for one more, of so many bytes: those that are kept, or none.
fn those_beside(alloc: Global, copied: Option<Rows<TableCopy>>, bytes: usize) -> Rows<TableCopy>
    ensures { (copy : TableCopy) → Contains result copy → IsKept copied copy }
{
    match copied {
        Some(copies) if has_room(copies.as_slice(), bytes) => copies,
        _ => Rows::new(Vec::new(alloc)),
    }
}

/// Whether there is room beside these copies for one more, of so many bytes.
fn has_room(copies: &[TableCopy], bytes: usize) -> bool {
    let mut sum = bytes;
    for copy in copies {
        sum = sum.saturating_add(copy.text.as_str().len());
    }
    copies.len() < MOST_COPIES && sum <= MOST_BYTES
}

/// A copy of the round's table; an error means out of memory.
fn copy_of(alloc: Global, round: &RoundId, text: &str) -> Result<TableCopy, AllocError>
    ensures { IfOk result (λ copy. (copy.round ≡ round.now) × (copy.text ≡ text.now)) }
{
    let text = TableText::new(String::from_str(alloc, text)?);
    Ok(TableCopy {
        round: round.clone()?,
        text,
    })
}

/// What is left of the copies by a change: those of rounds of which it changes nothing.
pub(crate) fn left_by(change: &Change, copied: Option<Rows<TableCopy>>) -> Option<Rows<TableCopy>>
    ensures { (copy : TableCopy) → IsKept result copy →
        IsKept copied copy × IsTrue (leaves_table change.now copy.round) }
{
    match copied {
        Some(copies) => Some(left_of(change, copies)),
        None => None,
    }
}

/// Those of the copies that the change leaves.
fn left_of(change: &Change, copies: Rows<TableCopy>) -> Rows<TableCopy>
    ensures { result ≡ filter (λ copy. leaves_table change.now copy.round) copies }
{
    let mut list = copies.into_vec();
    list.retain(|copy| leaves(change, &copy.round));
    Rows::new(list)
}

/// Whether the change adds no answer to the round.
pub(crate) fn leaves_listing(change: &Change, round: &RoundId) -> bool
    ensures { result ≡ leaves_listing change.now round.now }
{
    match change {
        Change::AddAnswer(row) => row.key.round != *round,
        Change::AddAnswers(rows) => are_outside(rows.as_slice(), round),
        _ => true,
    }
}

/// Whether the change is of no round, answer or protest that the round's table is made of.
pub(crate) fn leaves(change: &Change, round: &RoundId) -> bool
    ensures { result ≡ leaves_table change.now round.now }
{
    match change {
        Change::Nothing | Change::Import(_) | Change::PutPuzzle(_) | Change::SetState { .. } =>
            true,
        Change::PutRound(row) => row.round.id != *round,
        Change::SetRoundFlag { round: other, .. } => *other != *round,
        Change::AddAnswer(_) | Change::AddAnswers(_) => leaves_listing(change, round),
        Change::AddProtest(row) => row.key.round != *round,
        Change::RuleProtest { .. } => false,
    }
}

/// Whether no answer is of the round.
fn are_outside(rows: &[AnswerRow], round: &RoundId) -> bool
    ensures { result ≡ list_all (λ row. not (same_text row.key.round round.now)) rows.now }
{
    rows.iter().all(|row| row.key.round != *round)
}

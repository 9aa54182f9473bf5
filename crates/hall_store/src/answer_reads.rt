//! What the map of answers answers.
ghost use Rattle.std.specs.Prelude.{◌≡◌, ◌↔◌, IsTrue, IfOk, IfErr, OnOk, count_by, find, is_some};
ghost use Rattle.std.specs.List.{filter};
ghost use Rattle.std.specs.BTreeMap as tree;
ghost use Rattle.hall_policy.specs.World.{same_text};
ghost use Rattle.hall_store.specs.Store.{Stops, is_after, is_between};
ghost use Rattle.hall_policy.specs.Sink.{HasTaken};
ghost use Rattle.hall_store.specs.Keyed.{Each, IsAnswerKept, IsFirst, slot_cmp, slot_of, first_slot, agree, least_word};
ghost use Rattle.hall_store.specs.Keyed.{HasAny, first_name, is_inside};
ghost use Rattle.hall_store.specs.declared.slot.Part.TheVariants.{Entrant as ToEntrant, Puzzle as ToPuzzle};
ghost use Rattle.hall_store.specs.declared.slot.Part.TheVariants.{Round as ToRound};

use crate::slot::{AnswerSlot, Part, slot_at};
use crate::writes::push;
use hall_policy::{AnswerNumber, AnswerRow, Name, PuzzleNumber, RoundId, Sink, SinkFault, Token};
use std::alloc::{AllocError, Global};
use std::collections::BTreeMap;

/// The answer's slot.
pub(crate) fn own_slot(row: &AnswerRow) -> Result<AnswerSlot, AllocError>
    ensures { IfOk result (λ slot. IsAnswerKept slot row.now) }
{
    // They are read for the limits that their types keep.
    let _entrant = row.key.entrant.as_str();
    let _number = row.key.number.get();
    let _n = row.n.get();
    slot_at(&row.key.entrant, &row.key.round, row.key.number, row.n)
}

/// The least slot that an answer in the round can have.
pub(crate) fn first_in(alloc: Global, round: &RoundId) -> Result<AnswerSlot, AllocError>
    ensures { IfOk result (λ slot. slot ≡ first_slot round.now least_word 1) }
{
    let Some(entrant) = Name::new(String::from_str(alloc, "-")?) else {
        unreachable!()
    };
    first_of(&entrant, round)
}

/// The least slot that an answer in the round can have by an entrant from the name on, or by any.
pub(crate) fn first_from(
    alloc: Global,
    round: &RoundId,
    name: &Option<Name>,
) -> Result<AnswerSlot, AllocError>
    ensures { IfOk result (λ slot. slot ≡ first_slot round.now (first_name name.now) 1) }
{
    match name {
        Some(name) => first_of(name, round),
        None => first_in(alloc, round),
    }
}

/// The least slot that an answer of the entrant in the round can have.
pub(crate) fn first_of(entrant: &Name, round: &RoundId) -> Result<AnswerSlot, AllocError>
    ensures { IfOk result (λ slot. slot ≡ first_slot round.now entrant.now 1) }
{
    let Some(number) = PuzzleNumber::new(1) else {
        unreachable!()
    };
    first_to(entrant, round, number)
}

/// The least slot that an answer of the entrant to the round's puzzle of that number can have.
pub(crate) fn first_to(
    entrant: &Name,
    round: &RoundId,
    number: PuzzleNumber,
) -> Result<AnswerSlot, AllocError>
    ensures { IfOk result (λ slot. slot ≡ first_slot round.now entrant.now number) }
{
    let Some(n) = AnswerNumber::new(1) else {
        unreachable!()
    };
    slot_at(entrant, round, number, n)
}

/// Whether both slots are of the same round, entrant or puzzle, as the part says.
fn agree(part: Part, a: &AnswerSlot, b: &AnswerSlot) -> bool
    ensures { result ≡ agree part a.now b.now }
{
    match part {
        Part::Round => a.round == b.round,
        Part::Entrant => a.round == b.round && a.entrant == b.entrant,
        Part::Puzzle => a.round == b.round && a.entrant == b.entrant && a.number == b.number,
    }
}

/// Copies of the part's answers, which stand next to each other from its first slot on.
pub(crate) fn answer_rows(
    alloc: Global,
    answers: &BTreeMap<AnswerSlot, AnswerRow>,
    part: Part,
    first: &AnswerSlot,
) -> Result<Vec<AnswerRow>, AllocError>
    requires kept { Each slot_cmp answers.now.entries IsAnswerKept }
    requires first { IsFirst part first.now }
    ensures rows { IfOk result (λ rows. rows.items
        ≡ filter (λ row. agree part (slot_of row) first.now) (tree.values answers.now)) }
    ensures ordered { tree.IsOrdered slot_cmp answers.now }
{
    let mut rows = Vec::new(alloc);
    for (slot, row) in answers.range(first..) {
        if !agree(part, slot, first) {
            break;
        }
        push(&mut rows, row.clone()?)?;
    }
    Ok(rows)
}

/// How many answers the entrant gave to the puzzle, from its first slot on.
pub(crate) fn count_answers(answers: &BTreeMap<AnswerSlot, AnswerRow>, first: &AnswerSlot) -> u64
    requires kept { Each slot_cmp answers.now.entries IsAnswerKept }
    requires first { IsFirst ToPuzzle first.now }
    ensures count { result ≡ count_by (λ row. agree ToPuzzle (slot_of row) first.now) (tree.values answers.now) }
    ensures ordered { tree.IsOrdered slot_cmp answers.now }
{
    let mut count = 0;
    for (slot, _) in answers.range(first..) {
        if !agree(Part::Puzzle, slot, first) {
            break;
        }
        count += 1;
    }
    count
}

/// Whether the entrant has an answer in the round, from the first slot on.
pub(crate) fn has_answer(answers: &BTreeMap<AnswerSlot, AnswerRow>, first: &AnswerSlot) -> bool
    requires kept { Each slot_cmp answers.now.entries IsAnswerKept }
    requires first { IsFirst ToEntrant first.now }
    ensures has { IsTrue result ↔ HasAny
        (filter (λ row. agree ToEntrant (slot_of row) first.now) (tree.values answers.now)) }
    ensures ordered { tree.IsOrdered slot_cmp answers.now }
{
    match answers.range(first..).next() {
        Some((slot, _)) => agree(Part::Entrant, slot, first),
        None => false,
    }
}

/// A copy of the entrant's answer to the puzzle with the token, from its first slot on.
pub(crate) fn answer_with(
    answers: &BTreeMap<AnswerSlot, AnswerRow>,
    first: &AnswerSlot,
    token: &Token,
) -> Result<Option<AnswerRow>, AllocError>
    requires kept { Each slot_cmp answers.now.entries IsAnswerKept }
    requires first { IsFirst ToPuzzle first.now }
    ensures { IfOk result (λ found. found ≡ find (λ row. same_text row.key.token token.now)
        (filter (λ row. agree ToPuzzle (slot_of row) first.now) (tree.values answers.now))) }
{
    for (slot, row) in answers.range(first..) {
        if !agree(Part::Puzzle, slot, first) {
            return Ok(None);
        }
        if row.key.token == *token {
            return Ok(Some(row.clone()?));
        }
    }
    Ok(None)
}

/// Whether an answer stands in the slot.
pub(crate) fn is_taken(answers: &BTreeMap<AnswerSlot, AnswerRow>, slot: &AnswerSlot) -> bool
    ensures taken { result ≡ is_some (tree.get slot_cmp answers.now slot.now) }
    ensures ordered { tree.IsOrdered slot_cmp answers.now }
{
    // The map's order is told by any call, and is needed with what is found.
    let _count = answers.len();
    answers.contains_key(slot)
}

/// Whether the name comes after this one, or none is given.
fn is_after(after: &Option<Name>, name: &Name) -> bool
    ensures { result ≡ is_after after.now name.now }
{
    match after {
        Some(after) => after.cmp(name).is_lt(),
        None => true,
    }
}

/// Whether the slot is of the round, and its entrant's name doesn't come after the last, where one is given.
fn is_inside(round: &RoundId, last: &Option<Name>, slot: &AnswerSlot) -> bool
    ensures { result ≡ is_inside round.now last.now slot.now }
{
    if slot.round != *round {
        return false;
    }
    match last {
        Some(last) => slot.entrant.cmp(last).is_le(),
        None => true,
    }
}

/// Gives the sink the round's answers by entrants after the one name and up to the other, one after another, from the
/// first slot on that an entrant from the one name on can have.
pub(crate) fn feed_answers<K: Sink<AnswerRow>>(
    answers: &BTreeMap<AnswerSlot, AnswerRow>,
    first: &AnswerSlot,
    after: &Option<Name>,
    last: &Option<Name>,
    sink: &mut K,
) -> Result<(), SinkFault>
    requires kept { Each slot_cmp answers.now.entries IsAnswerKept }
    requires first { first.now ≡ first_slot first.now.round (first_name after.now) 1 }
    ensures fed { OnOk result (HasTaken K.takes sink.old
        (filter (is_between first.now.round after.now last.now) (tree.values answers.now)) sink.new) }
    ensures stopped { IfErr result (λ fault. Stops K.takes K.refuses sink.old
        (filter (is_between first.now.round after.now last.now) (tree.values answers.now)) sink.new fault) }
    ensures ordered { tree.IsOrdered slot_cmp answers.now }
{
    for (slot, row) in answers.range(first..) {
        if !is_inside(&first.round, last, slot) {
            break;
        }
        // The range begins with the answers of the entrant after whom others are asked for.
        if !is_after(after, &slot.entrant) {
            continue;
        }
        sink.take(row)?;
    }
    Ok(())
}

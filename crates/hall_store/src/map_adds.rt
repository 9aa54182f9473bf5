//! How a world in ordered maps begins, and what is added to it.
ghost use Rattle.std.specs.Prelude.{◌≡◌, IfOk, OnOk, OnErr, Some};
ghost use Rattle.std.specs.BTreeMap as tree;
ghost use Rattle.std.specs.FinMap.{from_entries};
ghost use Rattle.hall_policy.specs.Text.{text_cmp};
ghost use Rattle.hall_policy.specs.Lists.{ArePeopleDifferent};
ghost use Rattle.hall_store.specs.Change.{CanAddAnswers, with_people};
ghost use Rattle.hall_store.specs.Keyed.{Each, IsRoundIndexed, IsUseKept, UsesStay, use_cmp, use_of};
ghost use Rattle.hall_store.specs.Keyed.{AgreedStay, AreLed};
ghost use Rattle.hall_store.specs.Maps.{HasPutAnswer, HoldsAnswers, world_of_maps, empty_world};

use crate::answer_reads::own_slot;
use crate::map_store::MapStore;
use crate::slot::{AnswerSlot, UseKey};
use crate::writes::put;
use hall_policy::{AnswerRow, Key, Name, Person, PuzzleKey, RoundId, RoundRow};
use std::alloc::{AllocError, Global};
use std::collections::BTreeMap;

impl MapStore {
    /// Nobody and nothing.
    pub fn new(alloc: Global) -> MapStore
        ensures { world_of_maps result ≡ empty_world }
    {
        MapStore {
            people: BTreeMap::new(alloc),
            keys: BTreeMap::new(alloc),
            puzzles: BTreeMap::new(alloc),
            rounds: BTreeMap::new(alloc),
            uses: BTreeMap::new(alloc),
            answers: BTreeMap::new(alloc),
            protests: BTreeMap::new(alloc),
        }
    }
}

/// Leads from the key of each person of the list to the name. Refused, it may have led from some of them.
pub(crate) fn index_people(
    keys: &mut BTreeMap<Key, Name>,
    list: &[Person],
) -> Result<(), AllocError>
    requires { ArePeopleDifferent list.now }
    ensures stay { AgreedStay list.now keys.old.entries keys.new.entries }
    ensures led { OnOk result (AreLed list.now keys.new.entries) }
{
    for person in list {
        index_person(keys, person)?;
    }
    Ok(())
}

/// Leads from the person's key to the name. Refused, it leaves the index.
fn index_person(keys: &mut BTreeMap<Key, Name>, person: &Person) -> Result<(), AllocError>
    ensures ok { OnOk result (tree.Updates text_cmp keys.old keys.new person.now.key (Some person.now.name)) }
    ensures err { OnErr result (tree.IsUnchanged keys.old keys.new) }
{
    let key = person.key.clone()?;
    let name = person.name.clone()?;
    put(keys, key, name)
}

/// The people, and those of the list whose names are unknown.
pub(crate) fn with_people(
    known: &BTreeMap<Name, Person>,
    list: &[Person],
) -> Result<BTreeMap<Name, Person>, AllocError>
    ensures { IfOk result
        (λ people. from_entries people.entries ≡ with_people (from_entries known.now.entries) list.now) }
{
    let mut people = known.clone()?;
    for person in list {
        if !people.contains_key(&person.name) {
            put_person(&mut people, person.clone()?)?;
        }
    }
    Ok(people)
}

/// Puts the person under that person's name. Refused, it leaves the people.
fn put_person(people: &mut BTreeMap<Name, Person>, person: Person) -> Result<(), AllocError>
    ensures ok { OnOk result (tree.Updates text_cmp people.old people.new person.name (Some person)) }
    ensures err { OnErr result (tree.IsUnchanged people.old people.new) }
{
    let name = person.name.clone()?;
    put(people, name, person)
}

/// Leads from each of the round's puzzles to the round. Refused, it may have led from some of them.
pub(crate) fn index_round(uses: &mut BTreeMap<UseKey, ()>, row: &RoundRow) -> Result<(), AllocError>
    requires { Each use_cmp uses.old.entries IsUseKept }
    ensures kept { Each use_cmp uses.new.entries IsUseKept }
    ensures stay { UsesStay uses.old.entries uses.new.entries }
    ensures indexed { OnOk result (IsRoundIndexed uses.new.entries row.now.round.id row.now) }
{
    for entry in row.puzzles.as_slice() {
        index_use(uses, &entry.puzzle, &row.round.id)?;
    }
    Ok(())
}

/// Leads from the puzzle to the round. Refused, it leaves the index.
fn index_use(
    uses: &mut BTreeMap<UseKey, ()>,
    key: &PuzzleKey,
    round: &RoundId,
) -> Result<(), AllocError>
    requires { Each use_cmp uses.old.entries IsUseKept }
    ensures kept { Each use_cmp uses.new.entries IsUseKept }
    ensures stay { UsesStay uses.old.entries uses.new.entries }
    ensures indexed { OnOk result (tree.get use_cmp uses.new (use_of key.now round.now) ≡ Some tt) }
{
    // It is read for the limits that its type keeps.
    let _word = round.as_str();
    let used = use_of(key, round)?;
    put(uses, used, ())
}

/// That the round may have the puzzle.
fn use_of(key: &PuzzleKey, round: &RoundId) -> Result<UseKey, AllocError>
    ensures { IfOk result (λ used. used ≡ use_of key.now round.now) }
{
    Ok(UseKey {
        author: key.author.clone()?,
        label: key.label.clone()?,
        round: round.clone()?,
    })
}

/// Puts the round under its own id. Refused, it leaves the rounds.
pub(crate) fn put_round(
    rounds: &mut BTreeMap<RoundId, RoundRow>,
    row: RoundRow,
) -> Result<(), AllocError>
    ensures ok { OnOk result (tree.Updates text_cmp rounds.old rounds.new row.round.id (Some row)) }
    ensures err { OnErr result (tree.IsUnchanged rounds.old rounds.new) }
    ensures ordered { OnOk result (tree.IsOrdered text_cmp rounds.new) }
    ensures was_ordered { OnOk result (tree.IsOrdered text_cmp rounds.old) }
{
    let id = row.round.id.clone()?;
    put(rounds, id, row)
}

/// The answers of the store, and these, one after another.
pub(crate) fn with_answers(
    store: &MapStore,
    rows: &[AnswerRow],
) -> Result<BTreeMap<AnswerSlot, AnswerRow>, AllocError>
    requires { CanAddAnswers (world_of_maps store.now) rows.now }
    ensures { IfOk result (λ answers. HoldsAnswers store.now rows.now answers.entries) }
{
    let mut answers = store.answers.clone()?;
    for row in rows {
        put_answer(&mut answers, row.clone()?)?;
    }
    Ok(answers)
}

/// Puts the answer into its own slot. Refused, it leaves the answers.
pub(crate) fn put_answer(
    answers: &mut BTreeMap<AnswerSlot, AnswerRow>,
    row: AnswerRow,
) -> Result<(), AllocError>
    ensures ok { OnOk result (HasPutAnswer answers.old.entries row answers.new.entries) }
    ensures err { OnErr result (tree.IsUnchanged answers.old answers.new) }
{
    let slot = own_slot(&row)?;
    put(answers, slot, row)
}

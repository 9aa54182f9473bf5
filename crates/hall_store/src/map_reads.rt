//! What the maps of people, puzzles and rounds answer.
ghost use Rattle.std.specs.Prelude.{◌≡◌, ◌++◌, ◌∷◌, [], IfOk, OnOk, cond, map, count_by, option_copied, AllPairs};
ghost use Rattle.std.specs.Prelude.{take};
ghost use Rattle.std.specs.List.{filter};
ghost use Rattle.std.specs.Map.{values_of};
ghost use Rattle.std.specs.BTreeMap as tree;
ghost use Rattle.hall_policy.specs.Text.{text_cmp};
ghost use Rattle.hall_policy.specs.World.{same_text, puzzle_cmp};
ghost use Rattle.hall_store.specs.Keyed.{Each, IsPuzzleKept, IsUseKept, holder_of, first_label, least_word};
ghost use Rattle.hall_store.specs.Keyed.{use_of, use_cmp, is_use_of, is_use_true, has_puzzle, has_puzzle_at, ids_using};
ghost use Rattle.hall_store.specs.Keyed.{testers_at};
ghost use Rattle.hall_store.specs.Store.{is_after, people_at_once};

use crate::slot::UseKey;
use crate::store::PEOPLE_AT_ONCE;
use crate::writes::push;
use hall_policy::{
    Entry, Key, Label, Name, Person, PuzzleKey, PuzzleRow, Round, RoundId, RoundRow,
};
use std::alloc::{AllocError, Global};
use std::collections::BTreeMap;
use std::ops::Bound;

/// The person with the key, as the index leads to the name; the row decides.
pub(crate) fn find_holder<'a>(
    people: &'a BTreeMap<Name, Person>,
    keys: &BTreeMap<Key, Name>,
    key: &Key,
) -> Option<&'a Person>
    ensures { option_copied result ≡ holder_of people.now.entries keys.now.entries key.now }
{
    let person = people.get(keys.get(key)?)?;
    if person.key == *key {
        Some(person)
    } else {
        None
    }
}

/// A copy of the person with the key.
pub(crate) fn holder(
    people: &BTreeMap<Name, Person>,
    keys: &BTreeMap<Key, Name>,
    key: &Key,
) -> Result<Option<Person>, AllocError>
    ensures { IfOk result (λ found. found ≡ holder_of people.now.entries keys.now.entries key.now) }
{
    match find_holder(people, keys, key) {
        Some(person) => Ok(Some(person.clone()?)),
        None => Ok(None),
    }
}

/// A copy of the person under the name.
pub(crate) fn person_at(
    people: &BTreeMap<Name, Person>,
    name: &Name,
) -> Result<Option<Person>, AllocError>
    ensures { IfOk result (λ found. found ≡ tree.get text_cmp people.now name.now) }
{
    match people.get(name) {
        Some(person) => Ok(Some(person.clone()?)),
        None => Ok(None),
    }
}

/// Copies of all people, in the order of their names.
pub(crate) fn all_people(
    alloc: Global,
    people: &BTreeMap<Name, Person>,
) -> Result<Vec<Person>, AllocError>
    ensures people { IfOk result (λ all. all.items ≡ tree.values people.now) }
    ensures ordered { tree.IsOrdered text_cmp people.now }
{
    let mut all = Vec::new(alloc);
    for person in people.values() {
        push(&mut all, person.clone()?)?;
    }
    Ok(all)
}

/// Copies of the next people after the name, or of the first, `PEOPLE_AT_ONCE` at most, in the order of their names.
pub(crate) fn next_people(
    alloc: Global,
    people: &BTreeMap<Name, Person>,
    after: &Option<Name>,
) -> Result<Vec<Person>, AllocError>
    ensures people { IfOk result (λ next. next.items
        ≡ take people_at_once (values_of (filter (λ entry. is_after after.now entry.0) people.now.entries))) }
    ensures ordered { tree.IsOrdered text_cmp people.now }
{
    let start = match after {
        Some(name) => Bound::Excluded(name),
        None => Bound::Unbounded,
    };
    let mut next = Vec::new(alloc);
    for (_, person) in people.range((start, Bound::Unbounded)) {
        if next.len() >= PEOPLE_AT_ONCE {
            break;
        }
        push(&mut next, person.clone()?)?;
    }
    Ok(next)
}

/// A copy of the puzzle under the key.
pub(crate) fn puzzle_at(
    puzzles: &BTreeMap<PuzzleKey, PuzzleRow>,
    key: &PuzzleKey,
) -> Result<Option<PuzzleRow>, AllocError>
    ensures { IfOk result (λ found. found ≡ tree.get puzzle_cmp puzzles.now key.now) }
{
    match puzzles.get(key) {
        Some(row) => Ok(Some(row.clone()?)),
        None => Ok(None),
    }
}

/// A copy of the round under the id.
pub(crate) fn round_at(
    rounds: &BTreeMap<RoundId, RoundRow>,
    id: &RoundId,
) -> Result<Option<RoundRow>, AllocError>
    ensures found { IfOk result (λ found. found ≡ tree.get text_cmp rounds.now id.now) }
    ensures ordered { tree.IsOrdered text_cmp rounds.now }
{
    // The map's order is told by any call, and is needed where nothing is found too.
    let _count = rounds.len();
    match rounds.get(id) {
        Some(row) => Ok(Some(row.clone()?)),
        None => Ok(None),
    }
}

/// Copies of the names of those who test the round under the id.
pub(crate) fn testers_at(
    alloc: Global,
    rounds: &BTreeMap<RoundId, RoundRow>,
    id: &RoundId,
) -> Result<Vec<Name>, AllocError>
    ensures names { IfOk result (λ names. names.items ≡ testers_at (tree.get text_cmp rounds.now id.now)) }
    ensures different { IfOk result (λ names. AllPairs (λ a b. ¬ (a ≡ b)) names.items) }
    ensures ordered { tree.IsOrdered text_cmp rounds.now }
{
    // The map's order is told by any call, and is needed where nothing is found too.
    let _count = rounds.len();
    match rounds.get(id) {
        Some(row) => row.testers.as_slice().to_vec(alloc),
        None => Ok(Vec::new(alloc)),
    }
}

/// Copies of all rounds without their puzzles and testers, in the order of their ids.
pub(crate) fn heads(
    alloc: Global,
    rounds: &BTreeMap<RoundId, RoundRow>,
) -> Result<Vec<Round>, AllocError>
    ensures heads { IfOk result (λ heads. heads.items ≡ map (λ row. row.round) (tree.values rounds.now)) }
    ensures ordered { tree.IsOrdered text_cmp rounds.now }
{
    let mut heads = Vec::new(alloc);
    for row in rounds.values() {
        push(&mut heads, row.round.clone()?)?;
    }
    Ok(heads)
}

/// The puzzle's key.
pub(crate) fn own_key(row: &PuzzleRow) -> Result<PuzzleKey, AllocError>
    ensures { IfOk result (λ key. IsPuzzleKept key row.now) }
{
    // It is read for the limits that its type keeps.
    let _label = row.key.label.as_str();
    row.key.clone()
}

/// The least key that a puzzle of the author can have.
pub(crate) fn first_label(alloc: Global, author: &Name) -> Result<PuzzleKey, AllocError>
    ensures { IfOk result (λ key. key ≡ first_label author.now) }
{
    let Some(label) = Label::new(String::from_str(alloc, "-")?) else {
        unreachable!()
    };
    Ok(PuzzleKey {
        author: author.clone()?,
        label,
    })
}

/// Copies of the author's puzzles, which stand next to each other from the author's first key on.
pub(crate) fn puzzle_rows(
    alloc: Global,
    puzzles: &BTreeMap<PuzzleKey, PuzzleRow>,
    first: &PuzzleKey,
) -> Result<Vec<PuzzleRow>, AllocError>
    requires kept { Each puzzle_cmp puzzles.now.entries IsPuzzleKept }
    requires first { first.now.label ≡ least_word }
    ensures rows { IfOk result (λ rows. rows.items
        ≡ filter (λ row. same_text row.key.author first.now.author) (tree.values puzzles.now)) }
    ensures ordered { tree.IsOrdered puzzle_cmp puzzles.now }
{
    let mut rows = Vec::new(alloc);
    for (key, row) in puzzles.range(first..) {
        if key.author != first.author {
            break;
        }
        push(&mut rows, row.clone()?)?;
    }
    Ok(rows)
}

/// Copies of all puzzles, in the order of their keys.
pub(crate) fn all_puzzle_rows(
    alloc: Global,
    puzzles: &BTreeMap<PuzzleKey, PuzzleRow>,
) -> Result<Vec<PuzzleRow>, AllocError>
    ensures rows { IfOk result (λ rows. rows.items ≡ tree.values puzzles.now) }
    ensures ordered { tree.IsOrdered puzzle_cmp puzzles.now }
{
    let mut all = Vec::new(alloc);
    for row in puzzles.values() {
        push(&mut all, row.clone()?)?;
    }
    Ok(all)
}

/// How many puzzles the author has, from the author's first key on.
pub(crate) fn count_puzzles(puzzles: &BTreeMap<PuzzleKey, PuzzleRow>, first: &PuzzleKey) -> u64
    requires kept { Each puzzle_cmp puzzles.now.entries IsPuzzleKept }
    requires first { first.now.label ≡ least_word }
    ensures count { result ≡ count_by (λ row. same_text row.key.author first.now.author) (tree.values puzzles.now) }
    ensures ordered { tree.IsOrdered puzzle_cmp puzzles.now }
{
    let mut count = 0;
    for (key, _) in puzzles.range(first..) {
        if key.author != first.author {
            break;
        }
        count += 1;
    }
    count
}

/// The least use that there can be of the puzzle.
pub(crate) fn first_use(alloc: Global, key: &PuzzleKey) -> Result<UseKey, AllocError>
    ensures { IfOk result (λ first. first ≡ use_of key.now least_word) }
{
    let Some(round) = RoundId::new(String::from_str(alloc, "-")?) else {
        unreachable!()
    };
    Ok(UseKey {
        author: key.author.clone()?,
        label: key.label.clone()?,
        round,
    })
}

/// The ids of the rounds that have the puzzle, as the index leads to them from the first use on; the rows decide.
pub(crate) fn ids_using(
    alloc: Global,
    rounds: &BTreeMap<RoundId, RoundRow>,
    uses: &BTreeMap<UseKey, ()>,
    first: &UseKey,
    key: &PuzzleKey,
) -> Result<Vec<RoundId>, AllocError>
    requires kept { Each use_cmp uses.now.entries IsUseKept }
    requires first { first.now ≡ use_of key.now least_word }
    ensures ids { IfOk result (λ ids. ids.items ≡ ids_using rounds.now.entries key.now uses.now.entries) }
    ensures rounds_ordered { tree.IsOrdered text_cmp rounds.now }
    ensures uses_ordered { tree.IsOrdered use_cmp uses.now }
{
    // The map's order is told by any call, and is needed where no use is found too.
    let _count = rounds.len();
    let mut ids = Vec::new(alloc);
    for (used, _) in uses.range(first..) {
        if !is_use_of(key, used) {
            break;
        }
        push_user(&mut ids, rounds, key, used)?;
    }
    Ok(ids)
}

/// Puts the use's round at the end, where that round has the puzzle.
fn push_user(
    ids: &mut Vec<RoundId>,
    rounds: &BTreeMap<RoundId, RoundRow>,
    key: &PuzzleKey,
    used: &UseKey,
) -> Result<(), AllocError>
    ensures { OnOk result (ids.new.items
        ≡ ids.old.items ++ cond (is_use_true rounds.now.entries key.now (used.now, tt)) (used.now.round ∷ []) []) }
{
    if has_puzzle_at(rounds, &used.round, key) {
        push(ids, used.round.clone()?)?;
    }
    Ok(())
}

/// Whether the use is of the puzzle.
fn is_use_of(key: &PuzzleKey, used: &UseKey) -> bool
    ensures { result ≡ is_use_of key.now used.now }
{
    used.author == key.author && used.label == key.label
}

/// Whether the round under the id has the puzzle.
fn has_puzzle_at(rounds: &BTreeMap<RoundId, RoundRow>, id: &RoundId, key: &PuzzleKey) -> bool
    ensures { result ≡ has_puzzle_at key.now (tree.get text_cmp rounds.now id.now) }
{
    match rounds.get(id) {
        Some(row) => has_puzzle(row.puzzles.as_slice(), key),
        None => false,
    }
}

/// Whether one of the entries is the puzzle.
fn has_puzzle(entries: &[Entry], key: &PuzzleKey) -> bool
    ensures { result ≡ has_puzzle entries.now key.now }
{
    entries.iter().any(|entry| entry.puzzle.author == key.author && entry.puzzle.label == key.label)
}

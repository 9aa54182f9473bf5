//! Copies of what a store told of people, rounds and puzzles.
ghost use Rattle.std.specs.Prelude.{◌≡◌, ◌<◌, ◌≤◌, ◌⊎◌, length, IfOk, IfSome, OnErr, Some};
ghost use Rattle.std.specs.BTreeMap as tree;
ghost use Rattle.hall_policy.specs.Text.{text_cmp};
ghost use Rattle.hall_policy.specs.World.{puzzle_cmp};
ghost use Rattle.hall_store.specs.Cache.{IsNoted, IsEmptied};

use crate::fault::StoreFault;
use hall_policy::{Key, Person, PuzzleKey, PuzzleRow, RoundId, RoundRow};
use std::alloc::{AllocError, Global};
use std::collections::BTreeMap;

/// The most copies of people, which is the most that an entry list has. Where one more comes, those of its kind are
/// forgotten, here and below.
const MOST_PEOPLE: usize = 5000;

const MOST_ROUNDS: usize = 1000;

const MOST_PUZZLES: usize = 1000;

/// Copies of what a store told.
#[derive(Drop)]
pub(crate) struct Cache {
    people: BTreeMap<Key, Person>,
    rounds: BTreeMap<RoundId, RoundRow>,
    puzzles: BTreeMap<PuzzleKey, PuzzleRow>,
}

impl Cache {
    /// No copies.
    pub(crate) fn new(alloc: Global) -> Cache
        ensures { IsEmptied result }
    {
        Cache {
            people: BTreeMap::new(alloc),
            rounds: BTreeMap::new(alloc),
            puzzles: BTreeMap::new(alloc),
        }
    }

    /// Forgets all copies.
    pub(crate) fn clear(&mut self)
        ensures { IsEmptied self.new }
    {
        self.people.clear();
        self.rounds.clear();
        self.puzzles.clear();
    }

    /// Forgets all copies where the store refused a call: it may tell nothing any more.
    pub(crate) fn forget_if_refused<T>(&mut self, told: &Result<T, StoreFault>)
        ensures kept { IfOk told.now (λ _. self.new ≡ self.old) }
        ensures forgot { OnErr told.now (IsEmptied self.new) }
    {
        if told.is_err() {
            self.clear();
        }
    }

    /// A copy of the person with the key. Where there is no memory for it, all copies are forgotten, and there is none.
    pub(crate) fn person(&mut self, key: &Key) -> Option<Person>
        ensures found { IfSome result (λ found. tree.get text_cmp self.old.people key.now ≡ Some found) }
        ensures kept { (self.new ≡ self.old) ⊎ IsEmptied self.new }
    {
        match find_person(&self.people, key) {
            Ok(found) => found,
            Err(_) => {
                self.clear();
                None
            }
        }
    }

    /// A copy of the round. Where there is no memory for it, all copies are forgotten, and there is none.
    pub(crate) fn round(&mut self, id: &RoundId) -> Option<RoundRow>
        ensures found { IfSome result (λ found. tree.get text_cmp self.old.rounds id.now ≡ Some found) }
        ensures kept { (self.new ≡ self.old) ⊎ IsEmptied self.new }
    {
        match find_round(&self.rounds, id) {
            Ok(found) => found,
            Err(_) => {
                self.clear();
                None
            }
        }
    }

    /// A copy of the puzzle. Where there is no memory for it, all copies are forgotten, and there is none.
    pub(crate) fn puzzle(&mut self, key: &PuzzleKey) -> Option<PuzzleRow>
        ensures found { IfSome result (λ found. tree.get puzzle_cmp self.old.puzzles key.now ≡ Some found) }
        ensures kept { (self.new ≡ self.old) ⊎ IsEmptied self.new }
    {
        match find_puzzle(&self.puzzles, key) {
            Ok(found) => found,
            Err(_) => {
                self.clear();
                None
            }
        }
    }

    /// Keeps a copy of the person with the key; an error means out of memory.
    pub(crate) fn keep_person(&mut self, key: &Key, person: &Person) -> Result<(), AllocError>
        ensures people { IsNoted text_cmp self.old.people self.new.people key.now person.now }
        ensures few { length self.old.people.entries ≤ 5000 → length self.new.people.entries ≤ 5000 }
        ensures rounds { self.new.rounds ≡ self.old.rounds }
        ensures puzzles { self.new.puzzles ≡ self.old.puzzles }
    {
        let key = key.clone()?;
        note(&mut self.people, MOST_PEOPLE, key, person.clone()?)
    }

    /// Keeps a copy of the round; an error means out of memory.
    pub(crate) fn keep_round(&mut self, id: &RoundId, row: &RoundRow) -> Result<(), AllocError>
        ensures rounds { IsNoted text_cmp self.old.rounds self.new.rounds id.now row.now }
        ensures few { length self.old.rounds.entries ≤ 1000 → length self.new.rounds.entries ≤ 1000 }
        ensures people { self.new.people ≡ self.old.people }
        ensures puzzles { self.new.puzzles ≡ self.old.puzzles }
    {
        let id = id.clone()?;
        note(&mut self.rounds, MOST_ROUNDS, id, row.clone()?)
    }

    /// Keeps a copy of the puzzle; an error means out of memory.
    pub(crate) fn keep_puzzle(&mut self, key: &PuzzleKey, row: &PuzzleRow) -> Result<(), AllocError>
        ensures puzzles { IsNoted puzzle_cmp self.old.puzzles self.new.puzzles key.now row.now }
        ensures few { length self.old.puzzles.entries ≤ 1000 → length self.new.puzzles.entries ≤ 1000 }
        ensures people { self.new.people ≡ self.old.people }
        ensures rounds { self.new.rounds ≡ self.old.rounds }
    {
        let (key, row) = entry_of(key, row)?;
        note(&mut self.puzzles, MOST_PUZZLES, key, row)
    }
}

fn find_person(people: &BTreeMap<Key, Person>, key: &Key) -> Result<Option<Person>, AllocError>
    ensures { IfOk result (λ found. found ≡ tree.get text_cmp people.now key.now) }
{
    match people.get(key) {
        Some(person) => Ok(Some(person.clone()?)),
        None => Ok(None),
    }
}

fn find_round(
    rounds: &BTreeMap<RoundId, RoundRow>,
    id: &RoundId,
) -> Result<Option<RoundRow>, AllocError>
    ensures { IfOk result (λ found. found ≡ tree.get text_cmp rounds.now id.now) }
{
    match rounds.get(id) {
        Some(row) => Ok(Some(row.clone()?)),
        None => Ok(None),
    }
}

fn find_puzzle(
    puzzles: &BTreeMap<PuzzleKey, PuzzleRow>,
    key: &PuzzleKey,
) -> Result<Option<PuzzleRow>, AllocError>
    ensures { IfOk result (λ found. found ≡ tree.get puzzle_cmp puzzles.now key.now) }
{
    match puzzles.get(key) {
        Some(row) => Ok(Some(row.clone()?)),
        None => Ok(None),
    }
}

/// Copies of the key and of the row.
fn entry_of(key: &PuzzleKey, row: &PuzzleRow) -> Result<(PuzzleKey, PuzzleRow), AllocError>
    ensures { IfOk result (λ entry. (entry.0 ≡ key.now) × (entry.1 ≡ row.now)) }
{
    Ok((key.clone()?, row.clone()?))
}

/// Forgets what the map has where it has so many entries.
fn make_room<K: Ord + Drop, V: Drop>(map: &mut BTreeMap<K, V>, most: usize)
    requires { 0 < most }
    ensures kept { (map.new ≡ map.old) ⊎ tree.IsEmpty map.new }
    ensures room { length map.new.entries < most }
{
    if map.len() >= most {
        map.clear();
    }
}

/// Puts the value under the key of a map that is to have so many entries at the most; an error means out of memory.
fn note<K: Ord + Drop, V: Drop>(
    map: &mut BTreeMap<K, V>,
    most: usize,
    key: K,
    value: V,
) -> Result<(), AllocError>
    requires { 0 < most }
    ensures noted { IsNoted K.cmp map.old map.new key value }
    ensures few { length map.new.entries ≤ most }
{
    make_room(map, most);
    map.insert(key, value)?;
    Ok(())
}

//! All that a hall keeps, row by row, and what stands at a key.
ghost use Rattle.std.specs.Prelude.{◌≡◌, ◌≢◌, ◌↔◌, IsTrue, None, option_copied, map, find};
ghost use Rattle.std.specs.FinMap.{get};
ghost use Rattle.std.specs.List.Sorted.{IsStrictlySortedBy};
ghost use Rattle.std.specs.Ordering.{is_eq};
ghost use Rattle.std.proofs.Props.{props};
ghost use Rattle.hall_policy.specs.Text.{text_cmp};
ghost use Rattle.hall_policy.specs.World.{puzzle_cmp, place_cmp, tester_cmp};
ghost use Rattle.hall_check.specs.Halves.{AreOrdered};

use crate::halves::find_by;
use hall_policy::{
    AnswerRow, Entry, Name, Person, ProtestRow, PuzzleKey, PuzzleNumber, PuzzleRow, Round, RoundId,
};
use hall_store::{Place, Tester};
use std::cmp::Ordering;

/// The rows of each table, in the order of their keys.
#[derive(Drop)]
pub(crate) struct Whole {
    pub(crate) people: Vec<Person>,
    pub(crate) puzzles: Vec<PuzzleRow>,
    pub(crate) rounds: Vec<Round>,
    pub(crate) places: Vec<Place>,
    pub(crate) testers: Vec<Tester>,
    pub(crate) answers: Vec<AnswerRow>,
    pub(crate) protests: Vec<ProtestRow>,
    /// Whether the rows that are looked up stand in that order, as they do where the store is honest.
    pub(crate) in_order: bool,
    ghost ordered: { IsTrue in_order
        → AreOrdered people.items puzzles.items rounds.items places.items testers.items } by { Prim.hlevel props },
}

impl Whole {
    ghost use Rattle.hall_desk.specs.Lookups.{IsReleasedRound};
    ghost use Rattle.hall_check.specs.Whole.{world_of_whole};

    /// The person of the name.
    pub(crate) fn person(&self, name: &Name) -> Option<&Person>
        ensures { option_copied result ≡ get (world_of_whole self.now).people name.now }
    {
        find_by(&self.people, self.in_order, |person| person.name.cmp(name))
    }

    /// The puzzle under the key.
    pub(crate) fn puzzle(&self, key: &PuzzleKey) -> Option<&PuzzleRow>
        ensures { option_copied result ≡ get (world_of_whole self.now).puzzles key.now }
    {
        find_by(&self.puzzles, self.in_order, |row| row.key.cmp(key))
    }

    /// The round of the id.
    pub(crate) fn round(&self, id: &RoundId) -> Option<&Round>
        ensures { option_copied result ≡ get (world_of_whole self.now).rounds id.now }
    {
        find_by(&self.rounds, self.in_order, |round| round.id.cmp(id))
    }

    /// Whether the round is there and released.
    pub(crate) fn is_released(&self, id: &RoundId) -> bool
        ensures { IsTrue result ↔ IsReleasedRound (world_of_whole self.now) id.now }
    {
        match self.round(id) {
            Some(round) => round.released,
            None => false,
        }
    }

    /// The entry of that number in the round's list.
    pub(crate) fn entry(&self, round: &RoundId, number: PuzzleNumber) -> Option<&Entry>
        ensures { option_copied result
            ≡ get (world_of_whole self.now).places (record { round = round.now; number = number }) }
    {
        match self.place(round, number) {
            Some(place) => Some(&place.1),
            None => None,
        }
    }

    /// The place of that number in the round's list.
    fn place(&self, round: &RoundId, number: PuzzleNumber) -> Option<&Place>
        ensures { option_copied result
            ≡ find (λ place. is_eq (place_cmp place.0 (record { round = round.now; number = number })))
            self.now.places.items }
    {
        find_by(
            &self.places,
            self.in_order,
            |place| place_order(place, round, number),
        )
    }

    /// Whether the person of the name tests the round.
    pub(crate) fn is_tester(&self, round: &RoundId, name: &Name) -> bool
        ensures { IsTrue result
            ↔ (get (world_of_whole self.now).testers (record { round = round.now; name = name.now }) ≢ None) }
    {
        self.tester(round, name).is_some()
    }

    /// The row that says that the person of the name tests the round.
    fn tester(&self, round: &RoundId, name: &Name) -> Option<&Tester>
        ensures { option_copied result
            ≡ find (λ tester. is_eq (tester_cmp tester.0 (record { round = round.now; name = name.now })))
            self.now.testers.items }
    {
        find_by(
            &self.testers,
            self.in_order,
            |tester| tester_order(tester, round, name),
        )
    }
}

/// Where the place stands to the round's place of that number.
fn place_order(place: &Place, round: &RoundId, number: PuzzleNumber) -> Ordering
    ensures { result ≡ place_cmp place.now.0 (record { round = round.now; number = number }) }
{
    place.0.round.cmp(round).then(place.0.number.cmp(&number))
}

/// Where the tester stands to the round's tester of the name.
fn tester_order(tester: &Tester, round: &RoundId, name: &Name) -> Ordering
    ensures { result ≡ tester_cmp tester.now.0 (record { round = round.now; name = name.now }) }
{
    tester.0.round.cmp(round).then(tester.0.name.cmp(name))
}

/// Whether the rows of each table stand in the order of their keys, none of which is there twice.
pub(crate) fn are_in_order(
    people: &[Person],
    puzzles: &[PuzzleRow],
    rounds: &[Round],
    places: &[Place],
    testers: &[Tester],
) -> bool
    ensures { IsTrue result → AreOrdered people.now puzzles.now rounds.now places.now testers.now }
{
    are_people_in_order(people)
        && are_puzzles_in_order(puzzles)
        && are_rounds_in_order(rounds)
        && are_places_in_order(places)
        && are_testers_in_order(testers)
}

/// Whether the people stand in the order of their names.
fn are_people_in_order(people: &[Person]) -> bool
    ensures { IsTrue result → IsStrictlySortedBy text_cmp (map (λ person. person.name) people.now) }
{
    people.is_sorted_by(|before, after| before.name < after.name)
}

/// Whether the puzzles stand in the order of their keys.
fn are_puzzles_in_order(puzzles: &[PuzzleRow]) -> bool
    ensures { IsTrue result → IsStrictlySortedBy puzzle_cmp (map (λ row. row.key) puzzles.now) }
{
    puzzles.is_sorted_by(|before, after| before.key < after.key)
}

/// Whether the rounds stand in the order of their ids.
fn are_rounds_in_order(rounds: &[Round]) -> bool
    ensures { IsTrue result → IsStrictlySortedBy text_cmp (map (λ round. round.id) rounds.now) }
{
    rounds.is_sorted_by(|before, after| before.id < after.id)
}

/// Whether the entries of rounds' lists stand in the order of their rounds and numbers.
fn are_places_in_order(places: &[Place]) -> bool
    ensures { IsTrue result → IsStrictlySortedBy place_cmp (map (λ place. place.0) places.now) }
{
    places.is_sorted_by(|before, after| place_order(before, &after.0.round, after.0.number).is_lt())
}

/// Whether the testers stand in the order of their rounds and names.
fn are_testers_in_order(testers: &[Tester]) -> bool
    ensures { IsTrue result → IsStrictlySortedBy tester_cmp (map (λ tester. tester.0) testers.now) }
{
    testers.is_sorted_by(|before, after| tester_order(
        before,
        &after.0.round,
        &after.0.name,
    ).is_lt())
}

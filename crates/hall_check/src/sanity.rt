//! Whether a store's world is sane.
ghost use Rattle.std.specs.Prelude.{◌≡◌, ◌↔◌, [], IsTrue, IfOk};
ghost use Rattle.hall_store.specs.Store.{CanFailIn, Kept, Served, Fails};
ghost use Rattle.hall_check.specs.Checked.{IsChecked, IsNothingFound, AreStatesAsked, AreStatesTrue};
ghost use Rattle.hall_check.specs.Finds.{EveryRow};
ghost use Rattle.hall_check.specs.Whole.{IsInOrder, IsWholeOf, world_of_whole};

use crate::puzzle_states::{States, ask_states};
use crate::ranges::in_range;
use crate::sentence::Breaches;
use crate::sentences::tell_all;
use crate::whole::{Whole, are_in_order};
use hall_policy::PuzzleRow;
use hall_store::{StoreFault, WholeStore};
use std::alloc::{AllocError, Global};

/// What a check of a world found.
#[derive(Drop)]
pub struct Checked {
    pub people: u64,
    pub puzzles: u64,
    pub rounds: u64,
    pub answers: u64,
    pub protests: u64,
    /// What was found of each sentence but that of puzzles' states.
    pub told: Vec<Breaches>,
    /// What new searches told of puzzles' states; none where no puzzle was searched.
    pub states: Option<States>,
}

impl Checked {
    /// Whether no sentence was found false, and each puzzle in state one, none or more was searched to an end: then the
    /// world is sane.
    pub fn is_sane(&self) -> bool
        ensures { IsTrue result ↔ IsNothingFound self.now }
    {
        are_true(self.told.as_slice()) && are_states_true(&self.states)
    }
}

/// Whether none of the sentences was found false.
fn are_true(told: &[Breaches]) -> bool
    ensures { IsTrue result ↔ EveryRow (λ found. found.first.items ≡ []) told.now }
{
    for found in told {
        if !is_unbroken(found) {
            return false;
        }
    }
    true
}

/// Whether the sentence wasn't found false.
fn is_unbroken(found: &Breaches) -> bool
    ensures { IsTrue result ↔ (found.now.first.items ≡ []) }
{
    found.first.is_empty()
}

/// Whether each puzzle was searched to an end, and no state was found false.
fn are_states_true(states: &Option<States>) -> bool
    ensures { IsTrue result ↔ AreStatesTrue states.now }
{
    match states {
        Some(states) => states.found.first.is_empty() && states.undecided.is_empty(),
        None => false,
    }
}

/// Whether the store's world is sane, sentence by sentence. With a budget each puzzle in state one, none or more is
/// searched anew, by at most so many visits.
pub fn check<S: WholeStore>(
    alloc: Global,
    store: &mut S,
    budget: Option<u64>,
) -> Result<Checked, StoreFault>
    ensures kept { Kept (S.content store.old) (S.content store.new) }
    ensures served { Served (S.content store.new) result (λ world checked. IsChecked world budget checked) }
    ensures fault { Fails (CanFailIn (S.content store.old) (S.content store.new)) result }
{
    let whole = read_whole(alloc, store)?;
    Ok(check_whole(alloc, &whole, budget)?)
}

/// The rows of all tables.
fn read_whole<S: WholeStore>(alloc: Global, store: &mut S) -> Result<Whole, StoreFault>
    ensures kept { Kept (S.content store.old) (S.content store.new) }
    ensures served { Served (S.content store.new) result (λ world whole. IsWholeOf world whole) }
    ensures fault { Fails (CanFailIn (S.content store.old) (S.content store.new)) result }
{
    let people = store.people(alloc)?;
    let puzzles = store.all_puzzles(alloc)?;
    let rounds = store.rounds(alloc)?;
    let places = store.all_places(alloc)?;
    let testers = store.all_testers(alloc)?;
    let answers = store.all_answers(alloc)?;
    let protests = store.all_protests(alloc)?;
    store.under_own_keys();
    let in_order = are_in_order(&people, &puzzles, &rounds, &places, &testers);
    Ok(Whole {
        people,
        puzzles,
        rounds,
        places,
        testers,
        answers,
        protests,
        in_order,
    })
}

/// What is found of the rows.
fn check_whole(alloc: Global, whole: &Whole, budget: Option<u64>) -> Result<Checked, AllocError>
    ensures { IfOk result (λ checked. IsInOrder whole.now → IsChecked (world_of_whole whole.now) budget checked) }
{
    in_range(whole);
    let told = tell_all(alloc, whole)?;
    let states = tell_states(alloc, whole.puzzles.as_slice(), budget)?;
    Ok(Checked {
        people: whole.people.len() as u64,
        puzzles: whole.puzzles.len() as u64,
        rounds: whole.rounds.len() as u64,
        answers: whole.answers.len() as u64,
        protests: whole.protests.len() as u64,
        told,
        states,
    })
}

/// What new searches tell of puzzles' states, where there is a budget.
fn tell_states(
    alloc: Global,
    rows: &[PuzzleRow],
    budget: Option<u64>,
) -> Result<Option<States>, AllocError>
    ensures { IfOk result (AreStatesAsked budget rows.now) }
{
    match budget {
        Some(budget) => Ok(Some(ask_states(alloc, rows, budget)?)),
        None => Ok(None),
    }
}

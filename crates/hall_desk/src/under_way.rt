//! The searches that requests wait for, each gone on with for a while whenever its request has its turn.
ghost use Rattle.std.specs.Prelude.{◌≡◌, ◌≢◌, ◌↔◌, ◌⊎◌, ◌<◌, ◌≤◌, ◌+◌, ℕ, IfErr, IfNone, IfOk, IfSome, IsTrue};
ghost use Rattle.std.specs.Prelude.{MatchOption, None, Some, false, length, slice_set, true};
ghost use Rattle.hall_solve.specs.Searched.{visits_made, visits_of};
ghost use Rattle.hall_desk.specs.Memo.{Remembers};
ghost use Rattle.hall_desk.specs.Searches.{Begins, GivesWay, HasNoPlace, HasWorked, IsAsked, IsAt, IsFreeFor};
ghost use Rattle.hall_desk.specs.Searches.{IsOpenFor, IsPutAt, WaitsAmong, asked_once};
ghost use Rattle.hall_desk.specs.Searches.{IsUnasked, IsWanted, IsWorkOfTurn, IsWorked, StaysAt};
ghost use Rattle.hall_desk.specs.declared.prepared.Prepared.TheVariants as Prepared;
ghost use Rattle.hall_desk.specs.declared.under_way.Underway.{Underway};

use crate::memo::Memo;
use crate::prepared::Prepared;
use crate::puzzle_search::{Certifying, PuzzleSearch};
use crate::search_outcome::Finding;
use crate::wanted_search::Wanted;
use hall_grid::{Kind, Puzzle};
use hall_policy::{Key, PuzzleKey};
use std::alloc::{AllocError, Global};
use std::marker::Model;

/// The most searches under way.
const MOST_SEARCHES: usize = 8;

/// A search that wasn't asked for while any were so often is one that nobody waits for. Between two turns of one of
/// 500 connections that wait each of them may have a turn 500 times, with three requests in each.
const FORGOTTEN: u64 = 1_000_000;

/// A search under way, the key of whoever began it, the name of its puzzle, and when it was asked for last.
#[derive(Drop)]
struct Underway {
    key: Key,
    name: PuzzleKey,
    search: PuzzleSearch,
    last: u64,
}

/// The searches under way, at most one for each key, how often any was asked for, and how often it was when one came to
/// its end last.
#[derive(Drop)]
pub(crate) struct Searches {
    places: Vec<Option<Underway>>,
    asked: u64,
    ended: u64,
}

impl Model for Searches {
    ghost use Rattle.hall_desk.specs.Searches.{AreUnderWay, SearchesView};

    ghost Value = { SearchesView };

    ghost view = { λ s. record { places = s.places.items; asked = s.asked; ended = s.ended } };

    ghost invariant = { λ s. AreUnderWay s.places.items };
}

impl Searches {
    /// None yet.
    pub(crate) fn new(alloc: Global) -> Result<Searches, AllocError>
        ensures none { IfOk result (λ searches. (place : ℕ) (a : Underway) → ¬ (IsAt searches.places place a)) }
        ensures asked { IfOk result (λ searches. searches.asked ≡ 1) }
        ensures ended { IfOk result (λ searches. searches.ended ≡ 0) }
    {
        let mut places = Vec::with_capacity(alloc, MOST_SEARCHES)?;
        for _place in 0..MOST_SEARCHES {
            places.push(None)?;
        }
        Ok(Searches {
            places,
            asked: 1,
            ended: 0,
        })
    }

    /// Goes on for a while with the search that is wanted, and tells what was found if it came to its end. One that
    /// isn't under way begins where it may, and makes no visit yet: so a request has none before its second turn. A
    /// search that is refused memory is gone, and begins anew when it is asked for again.
    pub(crate) fn go_on(
        &mut self,
        alloc: Global,
        wanted: Wanted,
    ) -> Result<Option<Finding>, AllocError>
        ensures { HasWorked (asked_once self.old) wanted result self.new }
    {
        self.ask();
        self.work(alloc, wanted)
    }

    /// Counts that a search was asked for.
    fn ask(&mut self)
        ensures { self.new ≡ asked_once self.old }
    {
        self.asked = self.asked.saturating_add(1);
    }

    /// Goes on with the search that is wanted, or begins it where it may.
    fn work(&mut self, alloc: Global, wanted: Wanted) -> Result<Option<Finding>, AllocError>
        ensures { HasWorked self.old wanted result self.new }
    {
        let Some(place) = self.place_of(&wanted) else {
            self.begin(alloc, wanted)?;
            return Ok(None);
        };
        let most = visits_of_turn(&wanted.puzzle);
        match self.take(place) {
            Some(underway) => self.go_on_at(alloc, place, underway, most),
            None => unreachable!(),
        }
    }

    /// Makes so many visits of a search that was taken off the place, and puts it back where it isn't at its end.
    fn go_on_at(
        &mut self,
        alloc: Global,
        place: usize,
        underway: Underway,
        most: u64,
    ) -> Result<Option<Finding>, AllocError>
        requires free { IsFreeFor self.old.places underway.key place }
        requires inside { place < length self.old.places }
        ensures asked { self.new.asked ≡ self.old.asked }
        ensures ended { IfOk result (λ found. MatchOption found (self.new.ended ≡ self.old.ended)
            (λ finding. (self.new.ended ≡ self.old.asked) × (self.new.places ≡ self.old.places)
            × (finding.puzzle ≡ underway.search.puzzle) × (finding.budget ≡ underway.search.budget)
            × (visits_made (visits_of finding.searched) ≤ underway.search.visits + most))) }
        ensures paused { IfOk result (λ found. IfNone found
            ((underway.search.visits + most < underway.search.budget) × (b : Underway)
            × IsWorked self.old underway most b × IsPutAt self.old.places place b self.new.places)) }
        ensures refused { IfErr result (λ _. self.new ≡ self.old) }
    {
        let Underway {
            key,
            name,
            search,
            ..
        } = underway;
        match search.go_on(alloc, most)? {
            Certifying::Found(finding) => {
                self.ended = self.asked;
                Ok(Some(finding))
            }
            Certifying::Paused(search) => {
                self.put(place, key, name, search);
                Ok(None)
            }
        }
    }

    /// The place of the search that is wanted, if it is under way.
    fn place_of(&self, wanted: &Wanted) -> Option<usize>
        ensures some { IfSome result (λ place. (a : Underway) × IsAt self.now.places place a × IsWanted wanted.now a) }
        ensures none { IfNone result (IsUnasked self.now wanted.now) }
    {
        for place in 0..self.places.len() {
            if let Some(underway) = &self.places[place]
                && underway.search.is_of(&wanted.puzzle, wanted.budget)
            {
                return Some(place);
            }
        }
        None
    }

    /// The place of the search that is under way for the key, if any is.
    fn place_for(&self, key: &Key) -> Option<usize>
        ensures some { IfSome result (λ place. (a : Underway) × IsAt self.now.places place a × (a.key ≡ key.now)) }
        ensures none { IfNone result
            ((place : ℕ) (a : Underway) → IsAt self.now.places place a → ¬ (a.key ≡ key.now)) }
    {
        for place in 0..self.places.len() {
            if let Some(underway) = &self.places[place]
                && underway.key == *key
            {
                return Some(place);
            }
        }
        None
    }

    /// A place where the search that is wanted may begin: none at once after one has ended, where the next request on
    /// that connection would always come first; and while one is under way for its key none but that one's, if that
    /// one makes room.
    fn free_place(&self, wanted: &Wanted) -> Option<usize>
        ensures some { IfSome result (λ place. (place < length self.now.places) × IsOpenFor self.now wanted.now place
            × IsFreeFor self.now.places wanted.now.key place) }
        ensures none { IfNone result (HasNoPlace self.now wanted.now) }
    {
        if self.asked.saturating_sub(self.ended) == 1 {
            return None;
        }
        match self.place_for(&wanted.key) {
            Some(place) if self.makes_room(place, wanted) => Some(place),
            Some(_) => None,
            None => self.any_place(wanted),
        }
    }

    /// Whether the place is free, or its search makes room for the one that is wanted.
    fn makes_room(&self, place: usize, wanted: &Wanted) -> bool
        requires { place < length self.now.places }
        ensures room { result ≡ true → IsOpenFor self.now wanted.now place }
        ensures stays { result ≡ false → (a : Underway) × StaysAt self.now wanted.now place a }
    {
        match &self.places[place] {
            Some(underway) => gives_way(underway, wanted, self.asked),
            None => true,
        }
    }

    /// A place that is free, or whose search makes room.
    fn any_place(&self, wanted: &Wanted) -> Option<usize>
        ensures some { IfSome result (λ place. (place < length self.now.places) × IsOpenFor self.now wanted.now place) }
        ensures none { IfNone result ((place : ℕ) → place < length self.now.places →
            (a : Underway) × StaysAt self.now wanted.now place a) }
    {
        for place in 0..self.places.len() {
            if self.makes_room(place, wanted) {
                return Some(place);
            }
        }
        None
    }

    /// Begins the search that is wanted, where it may.
    fn begin(&mut self, alloc: Global, wanted: Wanted) -> Result<(), AllocError>
        ensures asked { self.new.asked ≡ self.old.asked }
        ensures ended { self.new.ended ≡ self.old.ended }
        ensures begun { IfOk result (λ _. Begins self.old wanted self.new.places
            ⊎ (self.new.places ≡ self.old.places) × HasNoPlace self.old wanted) }
        ensures refused { IfErr result (λ _. self.new.places ≡ self.old.places) }
    {
        let Some(place) = self.free_place(&wanted) else {
            return Ok(());
        };
        let Wanted {
            key,
            name,
            puzzle,
            budget,
        } = wanted;
        let search = PuzzleSearch::new(alloc, puzzle, budget)?;
        self.put(place, key, name, search);
        Ok(())
    }

    /// Takes the search off the place, if there is one.
    fn take(&mut self, place: usize) -> Option<Underway>
        ensures taken { IfSome result (IsAt self.old.places place) }
        ensures inside { IfSome result (λ _. place < length self.old.places) }
        ensures left { IfSome result
            (λ _. self.new ≡ record self.old { places = slice_set self.old.places place None }) }
        ensures free { IfSome result (λ taken. IsFreeFor self.new.places taken.key place) }
        ensures none { IfNone result ((a : Underway) → ¬ (IsAt self.old.places place a)) }
    {
        if place >= self.places.len() {
            return None;
        }
        self.places[place].take()
    }

    /// Puts a search that was asked for now to the place.
    fn put(&mut self, place: usize, key: Key, name: PuzzleKey, search: PuzzleSearch)
        requires free { IsFreeFor self.old.places key place }
        requires inside { place < length self.old.places }
        ensures put { (b : Underway) × IsAsked key name search.puzzle search.budget search.visits self.old.asked b
            × (self.new ≡ record self.old { places = slice_set self.old.places place (Some b) }) }
    {
        let underway = Underway {
            key,
            name,
            search,
            last: self.asked,
        };
        put_at(&mut self.places[place], underway);
    }
}

/// Puts the search there in place of what was.
fn put_at(place: &mut Option<Underway>, underway: Underway)
    ensures { place.new ≡ Some underway }
{
    *place = Some(underway);
}

/// Goes on for a while with the search that is wanted, and tells whether it is remembered what it found.
pub(crate) fn search_on(
    alloc: Global,
    searches: &mut Option<Searches>,
    memo: &mut Option<Memo>,
    wanted: Wanted,
) -> Prepared
    ensures ready { result ≡ Prepared.Ready → Remembers memo.new wanted.puzzle wanted.budget }
    ensures waits { result ≡ Prepared.Waits → WaitsAmong searches.old wanted searches.new }
{
    let mut under_way = match searches.take() {
        Some(under_way) => under_way,
        None => match Searches::new(alloc) {
            Ok(under_way) => under_way,
            Err(_) => return Prepared::Refused,
        },
    };
    let worked = under_way.go_on(alloc, wanted);
    *searches = Some(under_way);
    match worked {
        Ok(Some(finding)) => remember(alloc, memo, finding),
        Ok(None) => Prepared::Waits,
        Err(_) => Prepared::Refused,
    }
}

/// Remembers what a search found in place of what was. Refused, it remembers nothing.
fn remember(alloc: Global, memo: &mut Option<Memo>, finding: Finding) -> Prepared
    ensures ready { result ≡ Prepared.Ready → Remembers memo.new finding.puzzle finding.budget }
    ensures ends { result ≢ Prepared.Waits }
{
    *memo = None;
    match Memo::of(alloc, finding) {
        Ok(found) => {
            *memo = Some(found);
            Prepared::Ready
        }
        Err(_) => Prepared::Refused,
    }
}

/// Whether the search gives way to the one that is wanted, after so many were asked for: another puzzle was put under
/// its name since it began, or nobody asked for it while any were so often.
fn gives_way(underway: &Underway, wanted: &Wanted, asked: u64) -> bool
    ensures { IsTrue result ↔ GivesWay asked wanted.now underway.now }
{
    let is_replaced = underway.name == wanted.name && !underway.search.is_of_puzzle(&wanted.puzzle);
    is_replaced || asked.saturating_sub(underway.last) > FORGOTTEN
}

/// How many visits a turn has: a few milliseconds at most, by what a visit of such a board may take.
fn visits_of_turn(puzzle: &Puzzle) -> u64
    ensures { IsWorkOfTurn puzzle.now result }
{
    let cells = match puzzle.kind() {
        Kind::Sudoku => 20_000,
        Kind::Slither => 5_000,
        Kind::Nurikabe => 3_000,
    };
    match cells / puzzle.cells().max(1) {
        0 => 1,
        most => most as u64,
    }
}

//! The search over one board: a visit, then the next value of the newest choice that has one.
ghost use Rattle.std.specs.Prelude.{◌≡◌, ◌≤◌, ◌<◌, ◌+◌, ◌↔◌, ◌⊎◌, ℕ, false, List, None, Some};
ghost use Rattle.std.specs.Prelude.{IfOk, IsTrue};
ghost use Rattle.std.specs.Prelude.{length, slice_index_or, slice_set};
ghost use Rattle.hall_solve.specs.Question.{IsPartial, IsQuestionFilling, IsHopeless, IsSameQuestion, IsOpen};
ghost use Rattle.hall_solve.specs.Question.{plain_tree, open_places};
ghost use Rattle.hall_solve.specs.Answer.{OutcomeOf, fewest_visits};
ghost use Rattle.hall_solve.specs.Trail.{IsTrailed};
ghost use Rattle.hall_solve.specs.Progress.{IsBegun, IsWalkAt, IsProgress};
ghost use Rattle.hall_solve.specs.Choices.{AreMade, AwaitsTurn, InRange, IsAhead, visits_left, visits_ahead};

use crate::choice::Choice;
use crate::outcome::Outcome;
use crate::partial::Partial;
use crate::rules::Rules;
use crate::visit::{Visited, visit};
use hall_grid::Filling;
use std::alloc::{AllocError, Global};

/// Searches for the fillings that solve, in at most `budget` visits.
///
/// It visits each partial filling once, and asks about a whole one at its visit alone. One whose newest
/// value the rules refuse it passes over. It gives up only where one more visit than the budget would be needed.
pub fn search<R: Rules>(
    alloc: Global,
    rules: &mut R,
    start: &Partial,
    budget: u64,
) -> Result<Outcome, AllocError>
    requires fresh { R.visits rules.old ≡ 0 }
    requires not_asked { R.asked rules.old ≡ 0 }
    requires start { IsPartial (R.question rules.old) start.now.places }
    ensures outcome { IfOk result (OutcomeOf (R.question rules.old) start.now.places budget) }

    // How many visits it made.
    ensures spent { IfOk result (λ o. o ≡ Outcome.GaveUp → R.visits rules.new ≡ budget) }
    ensures took { IfOk result (λ o. fewest_visits o ≤ R.visits rules.new) }
    ensures frugal { IfOk result
        (λ _. R.visits rules.new ≤ plain_tree (R.question rules.old).values (open_places start.now.places)) }
    ensures within { R.visits rules.new ≤ budget }
    ensures at_visits { R.asked rules.new ≤ R.visits rules.new }

    ensures same { IsSameQuestion (R.question rules.old) (R.question rules.new) }
{
    let walk = begin(alloc, start)?;
    match go_on(alloc, rules, start, walk, budget)? {
        Progress::Told(outcome) => Ok(outcome),
        Progress::Paused(_walk) => Ok(Outcome::GaveUp),
    }
}

/// A search that is under way.
#[derive(Drop)]
pub(crate) struct Walk {
    /// What is set now.
    pub(crate) board: Partial,
    /// The choices that were made and aren't exhausted.
    pub(crate) stack: Vec<Choice>,
    /// What was found.
    pub(crate) found: Option<Filling>,
}

/// How far a search came.
#[derive(Drop)]
pub(crate) enum Progress {
    /// To its end.
    Told(Outcome),
    /// To as many visits as it was given. It may go on.
    Paused(Walk),
}

/// A search that made no visit yet.
pub(crate) fn begin(alloc: Global, start: &Partial) -> Result<Walk, AllocError>
    ensures { IfOk result (IsBegun start.now.places) }
{
    let board = own_board(alloc, start)?;
    let stack = Vec::with_capacity(alloc, board.len())?;
    Ok(Walk {
        board,
        stack,
        found: None,
    })
}

/// Goes on with a search until it is at its end, or so many visits are made in all.
///
/// The start is named for what is told of it, and isn't read.
pub(crate) fn go_on<R: Rules>(
    alloc: Global,
    rules: &mut R,
    start: &Partial,
    walk: Walk,
    until: u64,
) -> Result<Progress, AllocError>
    requires under_way { IsWalkAt (R.question rules.old) start.now.places (R.visits rules.old) walk }
    requires at_visits { R.asked rules.old ≤ R.visits rules.old }
    requires ahead { R.visits rules.old ≤ until }
    ensures progress { IfOk result (IsProgress (R.question rules.old) start.now.places until (R.visits rules.new)) }
    ensures frugal { IfOk result
        (λ _. R.visits rules.new ≤ plain_tree (R.question rules.old).values (open_places start.now.places)) }
    ensures within { R.visits rules.new ≤ until }
    ensures at_visits { R.asked rules.new ≤ R.visits rules.new }
    ensures same { IsSameQuestion (R.question rules.old) (R.question rules.new) }
{
    let _ = start;
    let Walk {
        mut board,
        mut stack,
        mut found,
    } = walk;
    'visiting: while rules.visits() < until {
        match visit(alloc, rules, &mut board)? {
            Visited::Open(place) => {
                descend(&mut board, &mut stack, place)?;
                if !is_refused(rules, &board, &stack) {
                    continue;
                }
            }
            Visited::Closed => {}
            Visited::Whole(filling) => match found.take() {
                None => found = Some(filling),
                Some(first) => return Ok(Progress::Told(Outcome::More(first, filling))),
            },
        }
        if !turn(rules, &mut board, &mut stack) {
            return Ok(Progress::Told(match found {
                None => Outcome::None,
                Some(filling) => Outcome::One(filling),
            }));
        }
    }
    Ok(Progress::Paused(Walk {
        board,
        stack,
        found,
    }))
}

/// A board with what the start has.
fn own_board(alloc: Global, start: &Partial) -> Result<Partial, AllocError>
    ensures places { IfOk result (λ b. b.places ≡ start.now.places) }
    ensures trailed { IfOk result IsTrailed }
{
    let mut board = Partial::new(alloc, start.len())?;
    for place in 0..start.len() {
        if let Some(value) = start.get(place) {
            board.set(place, value);
        }
    }
    Ok(board)
}

/// Chooses the first value for a place.
fn descend(board: &mut Partial, stack: &mut Vec<Choice>, place: usize) -> Result<(), AllocError>
    requires unset { IsOpen board.old.places place }
    requires made { AreMade board.old stack.old.items }
    ensures made { IfOk result (λ _. AreMade board.new stack.new.items) }
    ensures ahead { IfOk result (λ _. (f : List ℕ)
        → IsAhead board.old stack.old.items f ↔ IsAhead board.new stack.new.items f) }
    ensures paid { IfOk result (λ _. (k : ℕ) → 0 < k
        → visits_ahead k board.new stack.new.items + 1 ≡ visits_ahead k board.old stack.old.items) }
    ensures places { board.new.places ≡ slice_set board.old.places place (Some 0) }
    ensures trailed { IfOk result (λ _. IsTrailed board.new) }
{
    let mark = board.mark();
    board.set(place, 0);
    stack.push(Choice {
        mark,
        place,
        value: 0,
    })?;
    Ok(())
}

/// Goes to the next value of the newest choice that has one, past those that the rules refuse.
fn turn<R: Rules>(rules: &R, board: &mut Partial, stack: &mut Vec<Choice>) -> bool
    requires partial { IsPartial (R.question rules.now) board.old.places }
    requires made { AreMade board.old stack.old.items }
    ensures made { IsTrue result → AreMade board.new stack.new.items }
    ensures waited { IsTrue result → (f : List ℕ) → IsQuestionFilling (R.question rules.now) f
        → IsAhead board.new stack.new.items f → AwaitsTurn board.old stack.old.items f }
    ensures ahead { IsTrue result → (f : List ℕ) → IsQuestionFilling (R.question rules.now) f
        → (R.question rules.now).right f
        → AwaitsTurn board.old stack.old.items f → IsAhead board.new stack.new.items f }
    ensures paid { IsTrue result → visits_ahead (R.question rules.now).values board.new stack.new.items
        ≤ visits_left (length board.old.places) (R.question rules.now).values stack.old.items }
    ensures over { result ≡ false → (f : List ℕ) → IsQuestionFilling (R.question rules.now) f
        → (R.question rules.now).right f → AwaitsTurn board.old stack.old.items f → ⊥ }
    ensures partial { IsTrue result → IsPartial (R.question rules.now) board.new.places }
    ensures trailed { IsTrue result → IsTrailed board.new }
{
    'turning: while advance(board, stack, rules.values()) {
        if !is_refused(rules, board, stack) {
            return true;
        }
    }
    false
}

/// Whether the rules refuse the value of the newest choice.
fn is_refused<R: Rules>(rules: &R, board: &Partial, stack: &[Choice]) -> bool
    requires partial { IsPartial (R.question rules.now) board.now.places }
    requires made { AreMade board.now stack.now }
    ensures hopeless { IsTrue result → IsHopeless (R.question rules.now) board.now.places }
{
    match stack.last() {
        Some(choice) => rules.refuses(board, choice.place),
        None => false,
    }
}

/// Goes to the next value of the newest choice that has one.
fn advance(board: &mut Partial, stack: &mut Vec<Choice>, values: u8) -> bool
    requires made { AreMade board.old stack.old.items }
    ensures made { IsTrue result → AreMade board.new stack.new.items }
    ensures ahead { IsTrue result → (f : List ℕ) → InRange (length board.old.places) values f
        → AwaitsTurn board.old stack.old.items f ↔ IsAhead board.new stack.new.items f }
    ensures paid { IsTrue result
        → visits_ahead values board.new stack.new.items ≤ visits_left (length board.old.places) values stack.old.items }
    ensures over { result ≡ false → (f : List ℕ) → InRange (length board.old.places) values f
        → AwaitsTurn board.old stack.old.items f → ⊥ }
    ensures size { length board.new.places ≡ length board.old.places }
    ensures values { IsTrue result → (i v : ℕ) → slice_index_or board.new.places i None ≡ Some v
        → (slice_index_or board.old.places i None ≡ Some v) ⊎ (v < values) }
    ensures trailed { IsTrue result → IsTrailed board.new }
{
    'popping: while let Some(choice) = stack.pop() {
        board.undo_to(choice.mark);
        if choice.value < values.saturating_sub(1) {
            board.set(choice.place, choice.value + 1);
            let _ = stack.push(Choice {
                value: choice.value + 1,
                ..choice
            });
            return true;
        }
    }
    false
}

//! A small kind of rules: right is a filling whose first value is below a limit.
ghost use Rattle.std.specs.Prelude.{◌≡◌, ℕ, ◌+◌, ◌<◌, ◌≤◌, List};
ghost use Rattle.hall_solve.specs.Question.{Question};
ghost use Rattle.puzzle_tests.specs.FirstBelow.{first_below};

use hall_grid::Filling;
use hall_solve::{
    Deduce, Finding, Look, Outcome, Partial, Pass, Rules, Step, search, settle, sweep,
};
use std::alloc::{AllocError, AllocGlobal, Global};
use std::process::Abort;
use std::test::Fail;

#[derive(Drop)]
struct Below {
    cells: usize,
    values: u8,
    limit: u8,
    ghost some: { 1 ≤ cells },
}

impl Look for Below {
    ghost question = { λ s. first_below s.cells s.values s.limit };

    ghost spots = { λ _. 1 };

    fn spots(&self) -> usize {
        1
    }

    fn look(
        &self,
        _alloc: Global,
        partial: &mut Partial,
        spot: usize,
    ) -> Result<Finding, AllocError> {
        let found = match partial.get(spot) {
            Some(value) if value >= self.limit => Finding::Impossible,
            None if self.limit == 0 => Finding::Impossible,
            None if self.limit == 1 && self.values > 0 => Finding::Must(spot, 0),
            _ => Finding::Nothing,
        };
        Ok(found)
    }
}

impl Deduce for Below {
    type Scratch = ();

    ghost question = { λ s. first_below s.cells s.values s.limit };

    fn pass(
        &self,
        alloc: Global,
        partial: &mut Partial,
        _scratch: &mut (),
    ) -> Result<Pass, AllocError> {
        sweep(alloc, self, partial)
    }
}

#[derive(Drop)]
struct Kind {
    below: Below,
    deduces: bool,
    visits: u64,
    asked: u64,
}

impl Rules for Kind {
    ghost question = { λ s. first_below s.below.cells s.below.values s.below.limit };

    ghost visits = { λ s. s.visits };

    ghost asked = { λ s. s.asked };

    fn cells(&self) -> usize {
        self.below.cells
    }

    fn values(&self) -> u8 {
        self.below.values
    }

    fn visits(&self) -> u64 {
        self.visits
    }

    fn asked(&self) -> u64 {
        self.asked
    }

    fn propagate(&mut self, alloc: Global, partial: &mut Partial) -> Result<Step, AllocError> {
        self.visits += 1;
        if !self.deduces {
            return Ok(Step::Live);
        }
        settle(alloc, &self.below, partial, &mut ())
    }

    fn accepts(&mut self, _alloc: Global, filling: &Filling) -> Result<bool, AllocError> {
        self.asked += 1;
        Ok(filling.as_slice()[0] < self.below.limit)
    }
}

fn make_kind(cells: usize, values: u8, limit: u8, deduces: bool) -> Kind
    requires { 1 ≤ cells }
    ensures cells { result.below.cells ≡ cells }
    ensures visits { result.visits ≡ 0 }
    ensures asked { result.asked ≡ 0 }
{
    let below = Below {
        cells,
        values,
        limit,
    };
    Kind {
        below,
        deduces,
        visits: 0,
        asked: 0,
    }
}

/// An outcome in words, with the first values of the fillings that it hands out.
fn outcome_text(rt: &(impl AllocGlobal + Abort), outcome: &Outcome) -> String {
    let text = match outcome {
        Outcome::None => String::from_str(rt.alloc(), "none"),
        Outcome::One(one) => format!(in rt.alloc(); "one {}", first_of(one)),
        Outcome::More(a, b) => format!(in rt.alloc(); "more {} {}", first_of(a), first_of(b)),
        Outcome::GaveUp => String::from_str(rt.alloc(), "gave up"),
    };
    text.expect(rt, "memory")
}

fn first_of(filling: &Filling) -> u8 {
    filling.as_slice().first().copied().unwrap_or(u8::MAX)
}

fn number(rt: &impl Abort, word: Option<&str>) -> u64 {
    word.expect(rt, "word").parse::<u64>().expect(rt, "number")
}

fn small(rt: &impl Abort, word: Option<&str>) -> u8 {
    word.expect(rt, "word").parse::<u8>().expect(rt, "number")
}

/// Cells, values, limit, whether it deduces, and budget; how often it visits, how often it asks, and the outcome.
const SEARCHES: &str = "\
2 2 0 plain 100 7 4 none
2 2 0 plain 7 7 4 none
2 2 0 plain 6 6 3 gave up
2 2 0 plain 0 0 0 gave up
1 3 1 plain 100 4 3 one 0
1 3 1 plain 3 3 2 gave up
1 3 2 plain 3 3 2 more 0 1
1 3 2 plain 2 2 1 gave up
2 2 1 plain 100 4 2 more 0 0
1 3 1 deduces 1 1 1 one 0
1 3 0 deduces 1 1 0 none
2 3 1 deduces 100 3 2 more 0 0
1 0 5 plain 1 1 0 none";

/// Sees what a search with such rules finds, how often it visits, and how often it asks.
fn see_search(rt: &(impl AllocGlobal + Abort), row: &str) {
    let mut words = row.splitn(6, ' ');
    let cells = number(rt, words.next()) as usize;
    let values = small(rt, words.next());
    let limit = small(rt, words.next());
    let deduces = words.next() == Some("deduces");
    let budget = number(rt, words.next());
    assert!(rt; cells != 0);
    let mut rules = make_kind(cells, values, limit, deduces);
    let start = Partial::new(rt.alloc(), cells).expect(rt, "memory");
    let outcome = search(rt.alloc(), &mut rules, &start, budget).expect(rt, "memory");
    let outcome = outcome_text(rt, &outcome);
    let told = format!(in rt.alloc(); "{} {} {outcome}", rules.visits, rules.asked);
    let told = told.expect(rt, "memory");
    assert!(rt; words.next() == Some(told.as_str()), "{row}: {told}");
}

/// Each node of a tree is visited once.
///
/// A tree of 1 + 2 + 4 nodes takes seven visits, and its four whole fillings are asked about once each.
#[test]
fn wastes_no_visits(rt: HostRuntime) {
    for row in SEARCHES.lines() {
        see_search(&rt, row);
    }
}

#[test]
fn sets_and_undoes_places(rt: HostRuntime) {
    let mut board = Partial::new(rt.alloc(), 3).expect(&rt, "memory");
    assert!(rt; board.len() == 3 && board.first_unset() == Some(0));
    board.set(0, 7);
    let mark = board.mark();
    board.set(2, 9);
    board.set(1, 8);
    assert!(rt; board.first_unset().is_none());
    let filling = board.filling(rt.alloc()).expect(&rt, "memory");
    board.undo_to(mark);
    assert!(rt; board.as_slice() == [Some(7), None, None].as_slice());
    assert!(rt; board.first_unset() == Some(1));
    board.set(1, 4);
    assert!(rt; board.as_slice() == [Some(7), Some(4), None].as_slice());
    assert!(rt; filling.as_slice() == [7, 8, 9].as_slice());
    assert!(rt; filling.into_vec().as_slice() == [7, 8, 9].as_slice());
}

#[test]
fn advances_until_settled(rt: HostRuntime) -> Result<(), Fail> {
    let rules = make_kind(2, 3, 1, true);
    let mut board = Partial::new(rt.alloc(), 2)?;
    assert_eq!(rt;
        sweep(rt.alloc(), &rules.below, &mut board)?,
        Pass::Advanced
    );
    assert_eq!(rt; board.get(0), Some(0));
    assert_eq!(rt; sweep(rt.alloc(), &rules.below, &mut board)?, Pass::Settled);
    assert_eq!(rt;
        settle(rt.alloc(), &rules.below, &mut board, &mut ())?,
        Step::Live
    );
    assert_eq!(rt; rules.branch_place(&board), Some(1));
    let none = make_kind(2, 3, 0, true);
    let mut other = Partial::new(rt.alloc(), 2)?;
    assert_eq!(rt;
        settle(rt.alloc(), &none.below, &mut other, &mut ())?,
        Step::Dead
    );
    Ok(())
}

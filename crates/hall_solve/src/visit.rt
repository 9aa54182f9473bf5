//! One visit to a partial filling.
ghost use Rattle.std.specs.Prelude.{◌≡◌, ◌≤◌, ◌<◌, ◌+◌, ◌^◌, ◌-◌, IfOk};
ghost use Rattle.hall_solve.specs.Question.{IsPartial, IsSameQuestion, IsWhole};
ghost use Rattle.hall_solve.specs.Trail.{Grows};
ghost use Rattle.hall_solve.specs.Visit.{IsLook, IsVisit};

use crate::partial::Partial;
use crate::rules::{Rules, Step};
use hall_grid::Filling;
use std::alloc::{AllocError, Global};

/// What one visit found.
#[derive(Drop)]
pub(crate) enum Visited {
    /// No filling below it solves.
    Closed,
    /// This filling alone below it solves.
    Whole(Filling),
    /// This place is open, and may have a value.
    Open(usize),
}

/// Visits a partial filling once, and asks about it where all its places are set then.
///
/// Only where a place stays open does the partial filling keep what was set.
pub(crate) fn visit<R: Rules>(
    alloc: Global,
    rules: &mut R,
    partial: &mut Partial,
) -> Result<Visited, AllocError>
    requires partial { IsPartial (R.question rules.old) partial.old.places }
    requires countable { R.visits rules.old < 2 ^ 64 - 1 }
    requires at_visits { R.asked rules.old ≤ R.visits rules.old }
    ensures visit { IfOk result (IsVisit (R.question rules.old) partial.old partial.new) }
    ensures counted { R.visits rules.new ≡ R.visits rules.old + 1 }
    ensures at_visits { R.asked rules.new ≤ R.visits rules.new }
    ensures same { IsSameQuestion (R.question rules.old) (R.question rules.new) }
{
    let mark = partial.mark();
    let visited = look(alloc, rules, partial)?;
    match visited {
        Visited::Open(place) => Ok(Visited::Open(place)),
        closed => {
            partial.undo_to(mark);
            Ok(closed)
        }
    }
}

/// Visits the partial filling, and keeps what was set.
fn look<R: Rules>(
    alloc: Global,
    rules: &mut R,
    partial: &mut Partial,
) -> Result<Visited, AllocError>
    requires partial { IsPartial (R.question rules.old) partial.old.places }
    requires countable { R.visits rules.old < 2 ^ 64 - 1 }
    requires at_visits { R.asked rules.old ≤ R.visits rules.old }
    ensures look { IfOk result (IsLook (R.question rules.old) partial.old.places partial.new.places) }
    ensures grows { Grows partial.old partial.new }
    ensures counted { R.visits rules.new ≡ R.visits rules.old + 1 }
    ensures at_visits { R.asked rules.new ≤ R.visits rules.new }
    ensures same { IsSameQuestion (R.question rules.old) (R.question rules.new) }
{
    match rules.propagate(alloc, partial)? {
        Step::Dead => return Ok(Visited::Closed),
        Step::Live => {}
    }
    let Some(place) = rules.branch_place(partial) else {
        return judge(alloc, rules, partial);
    };
    if rules.values() == 0 {
        return Ok(Visited::Closed);
    }
    Ok(Visited::Open(place))
}

/// Asks whether a partial filling whose places are all set is right.
fn judge<R: Rules>(alloc: Global, rules: &mut R, whole: &Partial) -> Result<Visited, AllocError>
    requires whole { IsWhole whole.now.places }
    requires partial { IsPartial (R.question rules.old) whole.now.places }
    requires countable { R.asked rules.old < 2 ^ 64 - 1 }
    ensures answer { IfOk result (IsLook (R.question rules.old) whole.now.places whole.now.places) }
    ensures asked { R.asked rules.new ≤ R.asked rules.old + 1 }
    ensures visits { R.visits rules.new ≡ R.visits rules.old }
    ensures same { IsSameQuestion (R.question rules.old) (R.question rules.new) }
{
    let filling = whole.filling(alloc)?;
    if rules.accepts(alloc, &filling)? {
        Ok(Visited::Whole(filling))
    } else {
        Ok(Visited::Closed)
    }
}

//! A search that pauses, and goes on from there.
ghost use Rattle.std.specs.Prelude.{◌≡◌, ◌≤◌, ◌+◌, IfOk};
ghost use Rattle.hall_solve.specs.Question.{IsPartial, IsSameQuestion, plain_tree, open_places};
ghost use Rattle.hall_solve.specs.Paused.{started_at, budget_of, IsSearchAt, HasGoneOn};

use crate::explore::{Progress, Walk, begin, go_on};
use crate::outcome::Outcome;
use crate::partial::Partial;
use crate::rules::Rules;
use crate::searched::Searched;
use std::alloc::{AllocError, Global};

/// A search from a start, within a budget, that is under way.
#[derive(Drop)]
pub struct Search {
    pub(crate) start: Partial,
    pub(crate) budget: u64,
    pub(crate) walk: Walk,
}

/// What came of going on with a search.
#[derive(Drop)]
pub enum Searching {
    /// It is at its end.
    Ended(Searched),
    /// It made as many visits as it was given, and may go on.
    Paused(Search),
}

impl Search {
    /// A search that made no visit yet, by rules of which none was made either.
    pub fn new<R: Rules>(
        alloc: Global,
        rules: &R,
        start: Partial,
        budget: u64,
    ) -> Result<Search, AllocError>
        requires fresh { R.visits rules.now ≡ 0 }
        requires start { IsPartial (R.question rules.now) start.places }
        ensures start { IfOk result (λ search. started_at search ≡ start.places) }
        ensures budget { IfOk result (λ search. budget_of search ≡ budget) }
        ensures under_way { IfOk result (IsSearchAt (R.question rules.now) (R.visits rules.now)) }
    {
        let walk = begin(alloc, &start)?;
        Ok(Search {
            start,
            budget,
            walk,
        })
    }

    /// Goes on by the same rules until it is at its end, or has made so many more visits.
    ///
    /// At its end it tells what a search without a pause may tell. Refused, it is gone.
    pub fn go_on<R: Rules>(
        self,
        alloc: Global,
        rules: &mut R,
        most: u64,
    ) -> Result<Searching, AllocError>
        requires under_way { IsSearchAt (R.question rules.old) (R.visits rules.old) self }
        requires at_visits { R.asked rules.old ≤ R.visits rules.old }
        ensures gone_on { IfOk result (HasGoneOn (R.question rules.old) (R.question rules.new) self
            (R.visits rules.old + most) (R.visits rules.new)) }

        // How many visits were made.
        ensures frugal { IfOk result
            (λ _. R.visits rules.new ≤ plain_tree (R.question rules.old).values (open_places (started_at self))) }
        ensures within { R.visits rules.new ≤ budget_of self }
        ensures bounded { R.visits rules.new ≤ R.visits rules.old + most }
        ensures at_visits { R.asked rules.new ≤ R.visits rules.new }

        ensures same { IsSameQuestion (R.question rules.old) (R.question rules.new) }
    {
        let Search {
            start,
            budget,
            walk,
        } = self;
        let until = rules.visits().saturating_add(most).min(budget);
        match go_on(alloc, rules, &start, walk, until)? {
            Progress::Told(outcome) => Ok(Searching::Ended(Searched::of(outcome, rules.visits()))),
            Progress::Paused(_) if until == budget => Ok(Searching::Ended(Searched::of(
                Outcome::GaveUp,
                rules.visits(),
            ))),
            Progress::Paused(walk) => Ok(Searching::Paused(Search {
                start,
                budget,
                walk,
            })),
        }
    }
}

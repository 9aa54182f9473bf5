//! What a search found, and how many visits it made.
ghost use Rattle.std.specs.Prelude.{◌≡◌};
ghost use Rattle.hall_solve.specs.Searched.{visits_made, outcome_of, visits_of};

use crate::outcome::Outcome;

/// How many visits a search made. A search alone makes one of these, so who has one has searched.
#[derive(Clone, Copy)]
pub struct Visits {
    count: u64,
}

impl Visits {
    /// Their number.
    pub fn get(self) -> u64
        ensures { result ≡ visits_made self }
    {
        self.count
    }
}

/// What a search found, and the visits that it made. A search alone makes one of these, so who has one has both of the
/// same search.
#[derive(Drop)]
pub struct Searched {
    outcome: Outcome,
    visits: Visits,
}

impl Searched {
    /// What a search found, and how many visits it made.
    pub(crate) fn of(outcome: Outcome, count: u64) -> Searched
        ensures outcome { outcome_of result ≡ outcome }
        ensures visits { visits_made (visits_of result) ≡ count }
    {
        Searched {
            outcome,
            visits: Visits { count },
        }
    }

    /// What the search found.
    pub fn outcome(self) -> Outcome
        ensures { result ≡ outcome_of self }
    {
        self.outcome
    }

    /// The visits that the search made.
    pub fn visits(&self) -> Visits
        ensures { result ≡ visits_of self.now }
    {
        self.visits
    }
}

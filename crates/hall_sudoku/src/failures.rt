//! How often values that a search chose for each cell failed, and what that says of where to branch next. Nothing is
//! proved from it.

use hall_solve::Step;
use std::alloc::{AllocError, Global};

/// How often values that a search chose for each cell were found to leave no solution.
#[derive(Drop)]
pub(crate) struct Failures {
    counts: Vec<u32>,
}

impl Failures {
    /// None, on a board of so many cells.
    pub(crate) fn new(alloc: Global, cells: usize) -> Result<Failures, AllocError> {
        Ok(Failures {
            counts: vec![in alloc; 0; cells]?,
        })
    }

    /// Notes what a visit found after the cell's value was set, where there was one.
    pub(crate) fn note(&mut self, cell: Option<usize>, step: &Result<Step, AllocError>) {
        if let (Some(cell), Ok(Step::Dead)) = (cell, step) {
            if cell < self.counts.len() {
                self.counts[cell] = self.counts[cell].saturating_add(1);
            }
        }
    }

    /// How often values of each cell failed; nothing where no failure is to count.
    pub(crate) fn counts(&self, to_count: bool) -> &[u32] {
        let cells = if to_count { self.counts.len() } else { 0 };
        &self.counts[..cells]
    }
}

/// How soon a search is to branch at a cell: the fewer its candidates are, divided by one more than its failures.
#[derive(Clone, Copy)]
pub(crate) struct Urgency {
    candidates: u32,
    failures: u32,
}

impl Urgency {
    /// That of a cell with so many candidates; the counts may lack it.
    pub(crate) fn of(candidates: u32, counts: &[u32], cell: usize) -> Urgency {
        Urgency {
            candidates,
            failures: if cell < counts.len() { counts[cell] } else { 0 },
        }
    }

    /// Less than that of any cell.
    pub(crate) fn least() -> Urgency {
        Urgency {
            candidates: u32::MAX,
            failures: 0,
        }
    }

    /// Whether it is more than the other.
    pub(crate) fn exceeds(self, other: Urgency) -> bool {
        self.candidates_times(other.failures) < other.candidates_times(self.failures)
    }

    fn candidates_times(self, failures: u32) -> u64 {
        u64::from(self.candidates).saturating_mul(u64::from(failures).saturating_add(1))
    }
}

//! What searches found last, for each of the requests that wanted them.

use crate::memo::Memo;
use hall_policy::{Action, PuzzleKey, Request};
use std::alloc::{AllocError, Global};

/// So much is kept of what was found, of other puzzles or within other budgets: more than searches that end before the
/// first of them is answered.
const MOST_KEPT: usize = 16;

/// What was found last of the puzzle under this name, within this budget.
#[derive(Drop)]
struct Kept {
    name: PuzzleKey,
    budget: u64,
    memo: Option<Memo>,
}

/// What searches found last, once for each name and budget: so what a request waits for isn't lost to another's search
/// before it is answered.
#[derive(Drop)]
pub(crate) struct Memos {
    kept: Vec<Kept>,
}

impl Memos {
    /// Where something was kept for the name and the budget.
    fn place_of(&self, name: &PuzzleKey, budget: u64) -> usize {
        for place in 0..self.kept.len() {
            let kept = &self.kept[place];
            if kept.name == *name && kept.budget == budget {
                return place;
            }
        }
        self.kept.len()
    }

    /// Takes what was kept for the name and the budget.
    fn take(&mut self, name: &PuzzleKey, budget: u64) -> Option<Memo> {
        let place = self.place_of(name, budget);
        if place < self.kept.len() {
            return self.kept[place].memo.take();
        }
        None
    }

    /// Keeps this for the name and the budget, in place of what was. Refused, it is lost.
    fn put(&mut self, name: &PuzzleKey, budget: u64, memo: Memo) -> Result<(), AllocError> {
        let place = self.place_of(name, budget);
        if place < self.kept.len() {
            self.kept[place].memo = Some(memo);
            return Ok(());
        }
        let name = name.clone()?;
        if self.kept.len() >= MOST_KEPT {
            let _oldest = self.kept.remove(0);
        }
        self.kept.push(Kept {
            name,
            budget,
            memo: Some(memo),
        })?;
        Ok(())
    }
}

/// Takes what was kept for the request, if anything was.
pub(crate) fn take(memos: &mut Option<Memos>, request: &Request) -> Option<Memo> {
    match (memos, &request.action) {
        (Some(memos), Action::Certify { key, budget }) => memos.take(key, budget.get()),
        _ => None,
    }
}

/// Keeps it for the request, in place of what was: what was taken before needs no memory. Refused, it is lost.
pub(crate) fn put(
    alloc: Global,
    memos: &mut Option<Memos>,
    request: &Request,
    memo: Option<Memo>,
) -> Result<(), AllocError> {
    let (Action::Certify { key, budget }, Some(memo)) = (&request.action, memo) else {
        return Ok(());
    };
    let mut all = match memos.take() {
        Some(all) => all,
        None => Memos {
            kept: Vec::new(alloc),
        },
    };
    let put = all.put(key, budget.get(), memo);
    *memos = Some(all);
    put
}

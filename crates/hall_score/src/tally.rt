//! The totals of a round, from its protests and answers taken one after another.
ghost use Rattle.std.specs.Prelude.{◌≡◌, ◌++◌, ◌∷◌, [], List, IfOk, OnOk, OnErr, IfErr};
ghost use Rattle.hall_policy.specs.Sink.{HasTaken};
ghost use Rattle.hall_policy.specs.declared.record.AnswerRow.{AnswerRow};
ghost use Rattle.hall_policy.specs.declared.record.ProtestRow.{ProtestRow};
ghost use Rattle.hall_policy.specs.declared.record.RoundRow.{RoundRow};
ghost use Rattle.hall_score.specs.declared.tally.Tally.{Tally};
ghost use Rattle.hall_score.specs.Tally.{AreTotalsOf, IsTallyOf, IsLater, IsFollowing, TakesAnswer, TakesProtest};
ghost use Rattle.hall_score.specs.declared.tally.Following.TheVariants.{Next};

use crate::entrant::{Entrant, Progress};
use crate::rulings::RulingsByEntrant;
use crate::totals::Totals;
use hall_policy::{AnswerRow, Name, ProtestRow, RoundRow, Sink, SinkFault};
use std::alloc::{AllocError, Global};
use std::cmp::Ordering;

/// Takes the protests of a round and then its answers, by entrant, number, then n, and gives the totals. It holds the
/// round, one sum for each entrant with a protest, what the last entrant's answers give, and the totals of those
/// before.
#[derive(Drop)]
pub struct Tally {
    pub(crate) round: RoundRow,
    pub(crate) rulings: RulingsByEntrant,
    pub(crate) totals: Totals,
    pub(crate) last: Option<Entrant>,
}

/// How an answer follows those taken.
#[derive(Clone, Copy)]
pub(crate) enum Following {
    /// It is of a later entrant.
    Later,
    /// It is the last entrant's, and comes after those that the entrant has so far.
    Next,
    /// It comes after them in neither way.
    Past,
}

impl Tally {
    /// Of the round, with nothing taken.
    pub fn new(alloc: Global, round: RoundRow) -> Tally
        ensures { IsTallyOf round [] [] result }
    {
        Tally {
            round,
            rulings: RulingsByEntrant::new(alloc),
            totals: Totals::new(alloc),
            last: None,
        }
    }

    /// Puts the last entrant's total after those of the ones before. Refused, it leaves them.
    fn close(&mut self) -> Result<(), AllocError>
        ensures ok { OnOk result ((round : RoundRow) (protests : List ProtestRow) (answers : List AnswerRow) →
            IsTallyOf round protests answers self.old → AreTotalsOf round protests answers self.new.totals) }
        ensures rest { OnOk result ((self.new.round ≡ self.old.round) × (self.new.rulings ≡ self.old.rulings)) }
        ensures err { OnErr result (self.new ≡ self.old) }
    {
        if let Some(entrant) = &self.last {
            let points = entrant.progress.points(&self.round)
                + self.rulings.at(&entrant.name).points;
            self.totals.push((entrant.name.clone()?, points))?;
        }
        Ok(())
    }

    /// Takes the first answer of another entrant. Refused, it stays as it was.
    fn begin(&mut self, row: &AnswerRow) -> Result<(), AllocError>
        requires { IsLater self.old.last row.now }
        ensures ok { OnOk result (TakesAnswer self.old row.now self.new) }
        ensures err { OnErr result (self.new ≡ self.old) }
    {
        let name = row.key.entrant.clone()?;
        self.close()?;
        self.last = Some(Entrant {
            name,
            progress: Progress::first(&self.round, row),
        });
        Ok(())
    }

    /// How the answer follows those taken.
    fn following(&self, row: &AnswerRow) -> Following
        ensures { IsFollowing self.now.last row.now result }
    {
        match &self.last {
            Some(entrant) => match entrant.name.cmp(&row.key.entrant) {
                Ordering::Less => Following::Later,
                Ordering::Equal => {
                    if entrant.progress.is_before(row) {
                        Following::Next
                    } else {
                        Following::Past
                    }
                }
                Ordering::Greater => Following::Past,
            },
            None => Following::Later,
        }
    }

    /// Takes the next answer of the last entrant.
    fn add(&mut self, row: &AnswerRow)
        requires { IsFollowing self.old.last row.now Next }
        ensures { TakesAnswer self.old row.now self.new }
    {
        if let Some(entrant) = &mut self.last {
            entrant.progress = entrant.progress.with(&self.round, row);
        }
    }

    /// The totals of what was taken. The error means out of memory.
    pub fn totals(self) -> Result<Vec<(Name, i64)>, AllocError>
        ensures { IfOk result (λ totals. (round : RoundRow) (protests : List ProtestRow) (answers : List AnswerRow)
            (fresh between : Tally) → IsTallyOf round [] [] fresh → HasTaken TakesProtest fresh protests between
            → HasTaken TakesAnswer between answers self → AreTotalsOf round protests answers totals.items) }
    {
        let mut tally = self;
        tally.close()?;
        Ok(tally.totals.into_list())
    }
}

impl Sink<AnswerRow> for Tally {
    ghost use Rattle.hall_score.specs.Tally.{TakesAnswer, RefusesAnswer};

    ghost takes = { TakesAnswer };

    ghost refuses = { RefusesAnswer };

    fn take(&mut self, row: &AnswerRow) -> Result<(), SinkFault> {
        match self.following(row) {
            Following::Later => {
                self.begin(row)?;
                Ok(())
            }
            Following::Next => {
                self.add(row);
                Ok(())
            }
            Following::Past => Err(SinkFault::Refused),
        }
    }
}

impl Sink<ProtestRow> for Tally {
    ghost use Rattle.hall_score.specs.Tally.{TakesProtest, RefusesProtest};

    ghost takes = { TakesProtest };

    ghost refuses = { RefusesProtest };

    fn take(&mut self, row: &ProtestRow) -> Result<(), SinkFault> {
        if self.last.is_some() {
            return Err(SinkFault::Refused);
        }
        let rulings = self.rulings.at(&row.key.entrant);
        if rulings.count == u32::MAX {
            return Err(SinkFault::Refused);
        }
        self.rulings.put(&row.key.entrant, rulings.with(row))?;
        Ok(())
    }
}

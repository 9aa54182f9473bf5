//! PutRound: a draft is stored, or replaced.
ghost use Rattle.std.specs.Prelude.{◌≡◌, ◌↔◌, IsTrue, IfOk};
ghost use Rattle.hall_policy.specs.Rules.{SheetLacks, LacksPuzzle, LacksTester, may_test};
ghost use Rattle.hall_store.specs.Store.{CanFailIn, Kept, Told, Fails};
ghost use Rattle.hall_desk.specs.Step.{draft_of};

use crate::find_round::find_round;
use crate::handler::Handler;
use crate::plan::Plan;
use crate::reply::Reply;
use hall_policy::{
    Action, Decision, Entry, Facts, Moment, Name, Person, Round, RoundId, RoundRow, Rule, Sheet,
    decide, decide_up_to,
};
use hall_store::{Change, ReadStore, StoreFault};
use std::alloc::{AllocError, Global};

/// What is drafted: the round of this id, by a sheet.
#[derive(Clone, Copy)]
pub(crate) struct PutRound<'a> {
    pub(crate) round: &'a RoundId,
    pub(crate) sheet: &'a Sheet,
}

impl<'a> Handler for PutRound<'a> {
    ghost use Rattle.hall_desk.specs.Handler.{put_round_action};

    ghost action_of = { put_round_action };

    /// The sheet's puzzles are looked for, then its testers, then the round.
    fn decision<S: ReadStore>(
        &self,
        alloc: Global,
        store: &mut S,
        t: Moment,
        action: &Action,
        facts: &mut Facts,
    ) -> Result<Decision, StoreFault> {
        facts.sheet_lacks = any_lacking(alloc, store, self.sheet)?;
        if let Some(decision) = decide_up_to(facts, action, t, Rule::Missing) {
            return Ok(decision);
        }
        facts.round = find_round(alloc, store, self.round)?;
        Ok(decide(facts, action, t))
    }

    fn first_reply(&self, _facts: &Facts) -> Result<Option<Reply>, AllocError> {
        Ok(None)
    }

    fn plan<S: ReadStore>(
        &self,
        _alloc: Global,
        _store: &mut S,
        _t: Moment,
        _facts: &Facts,
    ) -> Result<Plan, StoreFault> {
        let shown = self.round.clone()?;
        let row = draft_row(self.round, self.sheet)?;
        Ok(Plan {
            reply: Reply::PutRound(shown),
            change: Change::PutRound(row),
            visits: None,
        })
    }
}

/// The draft that the sheet describes, with the sheet's puzzles and testers.
fn draft_row(id: &RoundId, sheet: &Sheet) -> Result<RoundRow, AllocError>
    ensures { IfOk result (λ row. row ≡
        record { round = draft_of id.now sheet.now; puzzles = sheet.now.puzzles; testers = sheet.now.testers }) }
{
    Ok(RoundRow {
        round: draft_of(id, sheet)?,
        puzzles: sheet.puzzles.clone()?,
        testers: sheet.testers.clone()?,
    })
}

/// The draft that the sheet describes.
fn draft_of(id: &RoundId, sheet: &Sheet) -> Result<Round, AllocError>
    ensures { IfOk result (λ round. round ≡ draft_of id.now sheet.now) }
{
    Ok(Round {
        id: id.clone()?,
        title: sheet.title.clone()?,
        start: sheet.start,
        minutes: sheet.minutes,
        protest_minutes: sheet.protest_minutes,
        mode: sheet.mode,
        penalty: sheet.penalty,
        bonus: sheet.bonus,
        released: false,
        published: false,
    })
}

/// Whether a puzzle of the sheet isn't kept, or a tester is nobody who may test.
fn any_lacking<S: ReadStore>(
    alloc: Global,
    store: &mut S,
    sheet: &Sheet,
) -> Result<bool, StoreFault>
    ensures kept { Kept (S.content store.old) (S.content store.new) }
    ensures fault { Fails (CanFailIn (S.content store.old) (S.content store.new)) result }
    ensures told { Told (S.content store.old) (S.content store.new) result
        (λ world found. IsTrue found ↔ SheetLacks world sheet.now) }
{
    if lacks_puzzle(alloc, store, sheet.puzzles.as_slice())? {
        return Ok(true);
    }
    lacks_tester(alloc, store, sheet.testers.as_slice())
}

/// Whether one of the entries is of a puzzle that isn't kept.
fn lacks_puzzle<S: ReadStore>(
    alloc: Global,
    store: &mut S,
    entries: &[Entry],
) -> Result<bool, StoreFault>
    ensures kept { Kept (S.content store.old) (S.content store.new) }
    ensures fault { Fails (CanFailIn (S.content store.old) (S.content store.new)) result }
    ensures told { Told (S.content store.old) (S.content store.new) result
        (λ world found. IsTrue found ↔ LacksPuzzle world entries.now) }
{
    for entry in entries {
        if store.puzzle(alloc, &entry.puzzle)?.is_none() {
            return Ok(true);
        }
    }
    Ok(false)
}

/// Whether one of the names is of nobody who may test.
fn lacks_tester<S: ReadStore>(
    alloc: Global,
    store: &mut S,
    names: &[Name],
) -> Result<bool, StoreFault>
    ensures kept { Kept (S.content store.old) (S.content store.new) }
    ensures fault { Fails (CanFailIn (S.content store.old) (S.content store.new)) result }
    ensures told { Told (S.content store.old) (S.content store.new) result
        (λ world found. IsTrue found ↔ LacksTester world names.now) }
{
    for name in names {
        if !may_test(&store.person(alloc, name)?) {
            return Ok(true);
        }
    }
    Ok(false)
}

/// Whether the person is there and has the role entrant or referee.
fn may_test(person: &Option<Person>) -> bool
    ensures { result ≡ may_test person.now }
{
    match person {
        Some(person) => person.roles.get().entrant || person.roles.get().referee,
        None => false,
    }
}

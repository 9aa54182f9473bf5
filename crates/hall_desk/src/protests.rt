//! Protests: the protests of a round that the caller sees.
ghost use Rattle.std.specs.Prelude.{◌≡◌, IfOk, map};
ghost use Rattle.std.specs.List.{filter};
ghost use Rattle.std.specs.FinMap.{values};
ghost use Rattle.hall_store.specs.Store.{CanFailIn, Kept, Served, Fails};
ghost use Rattle.hall_desk.specs.Shown.{sees_protest, protest_line};

use crate::find_round::find_round;
use crate::handler::Handler;
use crate::plan::Plan;
use crate::reply::{ProtestLine, Reply};
use crate::rows::{Rows, push};
use hall_policy::{Action, Decision, Facts, Moment, Person, ProtestRow, RoundId, decide};
use hall_store::{ReadStore, StoreFault};
use std::alloc::{AllocError, Global};

/// What is listed: the protests of the round of this id.
#[derive(Clone, Copy)]
pub(crate) struct Protests<'a> {
    pub(crate) round: &'a RoundId,
}

impl<'a> Handler for Protests<'a> {
    ghost use Rattle.hall_desk.specs.Handler.{protests_action};

    ghost action_of = { protests_action };

    fn decision<S: ReadStore>(
        &self,
        alloc: Global,
        store: &mut S,
        t: Moment,
        action: &Action,
        facts: &mut Facts,
    ) -> Result<Decision, StoreFault> {
        facts.round = find_round(alloc, store, self.round)?;
        Ok(decide(facts, action, t))
    }

    fn first_reply(&self, _facts: &Facts) -> Result<Option<Reply>, AllocError> {
        Ok(None)
    }

    /// The rows that the caller sees.
    fn plan<S: ReadStore>(
        &self,
        alloc: Global,
        store: &mut S,
        _t: Moment,
        facts: &Facts,
    ) -> Result<Plan, StoreFault> {
        let Some(person) = &facts.caller else {
            unreachable!()
        };
        let rows = find_protests(alloc, store, person, self.round)?;
        let lines = show_protests(alloc, rows.as_slice())?;
        Ok(Plan::of(Reply::Protests(lines)))
    }
}

/// The protests of the round that the person sees: all of them, or those that the person made.
fn find_protests<S: ReadStore>(
    alloc: Global,
    store: &mut S,
    person: &Person,
    round: &RoundId,
) -> Result<Vec<ProtestRow>, StoreFault>
    ensures kept { Kept (S.content store.old) (S.content store.new) }
    ensures fault { Fails (CanFailIn (S.content store.old) (S.content store.new)) result }
    ensures served { Served (S.content store.new) result
        (λ world rows. rows.items ≡ filter (sees_protest person.now round.now) (values world.protests)) }
{
    let roles = person.roles.get();
    if roles.director || roles.referee {
        store.protests_in(alloc, round)
    } else {
        store.protests_of(alloc, &person.name, round)
    }
}

/// The protests as they are listed.
fn show_protests(alloc: Global, rows: &[ProtestRow]) -> Result<Rows<ProtestLine>, AllocError>
    ensures { IfOk result (λ lines. lines ≡ map protest_line rows.now) }
{
    let mut lines = Vec::new(alloc);
    for row in rows {
        push(&mut lines, show_protest(row)?)?;
    }
    Ok(Rows::new(lines))
}

/// A protest as it is listed.
fn show_protest(row: &ProtestRow) -> Result<ProtestLine, AllocError>
    ensures { IfOk result (λ line. line ≡ protest_line row.now) }
{
    Ok(ProtestLine {
        entrant: row.key.entrant.clone()?,
        number: row.number,
        ruling: row.ruling,
        text: row.text.clone()?,
        token: row.key.token.clone()?,
    })
}

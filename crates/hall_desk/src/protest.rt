//! Protest: a protest about a puzzle of a round is stored.
ghost use Rattle.std.specs.Prelude.{◌≡◌, IfOk};
ghost use Rattle.hall_policy.specs.declared.request.Action.{Action};
ghost use Rattle.hall_store.specs.Store.{CanFailIn, Kept, Told, Fails};
ghost use Rattle.hall_store.specs.declared.change.Change.{Change};
ghost use Rattle.hall_desk.specs.Handler.{protest_action, protest_key, protest_row, IsProtestOf, IsProtestCountOf};

use crate::find_round::find_round;
use crate::handler::Handler;
use crate::plan::Plan;
use crate::reply::Reply;
use hall_policy::{
    Action, Decision, Facts, Moment, Person, ProtestKey, ProtestRow, ProtestText, PuzzleNumber,
    RoundId, Rule, Token, decide, decide_up_to,
};
use hall_store::{Change, ReadStore, StoreFault};
use std::alloc::{AllocError, Global};

/// What is protested: about the round's puzzle of that number, under a token.
#[derive(Clone, Copy)]
pub(crate) struct Protest<'a> {
    pub(crate) round: &'a RoundId,
    pub(crate) token: &'a Token,
    pub(crate) number: PuzzleNumber,
    pub(crate) text: &'a ProtestText,
}

impl<'a> Protest<'a> {
    /// A protest about the round's puzzle of that number, under a token.
    pub(crate) fn of(
        round: &'a RoundId,
        token: &'a Token,
        number: PuzzleNumber,
        text: &'a ProtestText,
    ) -> Protest<'a>
        ensures { protest_action result ≡ Action.Protest round.now token.now number text.now }
    {
        Protest {
            round,
            token,
            number,
            text,
        }
    }
}

impl<'a> Handler for Protest<'a> {
    ghost use Rattle.hall_desk.specs.Handler.{protest_action};

    ghost action_of = { protest_action };

    /// The token is looked up where the round lets the request pass, and protests are counted where nothing else
    /// forbids it.
    fn decision<S: ReadStore>(
        &self,
        alloc: Global,
        store: &mut S,
        t: Moment,
        action: &Action,
        facts: &mut Facts,
    ) -> Result<Decision, StoreFault> {
        facts.round = find_round(alloc, store, self.round)?;
        if let Some(decision) = decide_up_to(facts, action, t, Rule::OwnPuzzle) {
            return Ok(decision);
        }
        facts.protest = find_protest(alloc, store, facts, self)?;
        if let Some(decision) = decide_up_to(facts, action, t, Rule::Published) {
            return Ok(decision);
        }
        facts.count = count_protests(alloc, store, facts, self)?;
        Ok(decide(facts, action, t))
    }

    fn first_reply(&self, facts: &Facts) -> Result<Option<Reply>, AllocError> {
        match &facts.protest {
            Some(_) => Ok(Some(Reply::Protest(self.token.clone()?))),
            None => Ok(None),
        }
    }

    fn plan<S: ReadStore>(
        &self,
        _alloc: Global,
        _store: &mut S,
        _t: Moment,
        facts: &Facts,
    ) -> Result<Plan, StoreFault> {
        let Some(person) = &facts.caller else {
            unreachable!()
        };
        Ok(protested(person, self)?)
    }
}

/// The caller's protest under the token.
fn find_protest<S: ReadStore>(
    alloc: Global,
    store: &mut S,
    facts: &Facts,
    asked: &Protest,
) -> Result<Option<ProtestRow>, StoreFault>
    ensures kept { Kept (S.content store.old) (S.content store.new) }
    ensures fault { Fails (CanFailIn (S.content store.old) (S.content store.new)) result }
    ensures told { Told (S.content store.old) (S.content store.new) result
        (λ world found. IsProtestOf world facts.now.caller asked.now found) }
{
    match &facts.caller {
        Some(person) => {
            let key = key_of(person, asked)?;
            store.protest(alloc, &key)
        }
        None => Ok(None),
    }
}

/// How many protests in the round the caller made.
fn count_protests<S: ReadStore>(
    alloc: Global,
    store: &mut S,
    facts: &Facts,
    asked: &Protest,
) -> Result<u64, StoreFault>
    ensures kept { Kept (S.content store.old) (S.content store.new) }
    ensures fault { Fails (CanFailIn (S.content store.old) (S.content store.new)) result }
    ensures told { Told (S.content store.old) (S.content store.new) result
        (λ world count. IsProtestCountOf world facts.now.caller asked.now count) }
{
    match &facts.caller {
        Some(person) => store.protests_made(alloc, &person.name, asked.round),
        None => Ok(0),
    }
}

/// The plan that stores the protest, open.
fn protested(person: &Person, asked: &Protest) -> Result<Plan, AllocError>
    ensures reply { IfOk result (λ plan. plan.reply ≡ Reply.Protest asked.now.token.now) }
    ensures change { IfOk result (λ plan. plan.change ≡ Change.AddProtest (protest_row person.now asked.now)) }
{
    let stored = ProtestRow {
        key: key_of(person, asked)?,
        number: asked.number,
        text: asked.text.clone()?,
        ruling: None,
    };
    Ok(Plan {
        reply: Reply::Protest(asked.token.clone()?),
        change: Change::AddProtest(stored),
        visits: None,
    })
}

/// Where the protest is kept.
fn key_of(person: &Person, asked: &Protest) -> Result<ProtestKey, AllocError>
    ensures { IfOk result (λ key. key ≡ protest_key person.now asked.now) }
{
    Ok(ProtestKey {
        entrant: person.name.clone()?,
        round: asked.round.clone()?,
        token: asked.token.clone()?,
    })
}

//! The search that a request waits for.
ghost use Rattle.std.specs.Prelude.{◌≡◌, ◌↔◌, IfOk, IfSome, IsTrue, Some};
ghost use Rattle.hall_store.specs.Store.{Asks, Kept, Told};
ghost use Rattle.hall_desk.specs.Handler.{certify_action};
ghost use Rattle.hall_desk.specs.Lookups.{IsCaller};
ghost use Rattle.hall_desk.specs.Memo.{Remembers};
ghost use Rattle.hall_desk.specs.Plans.{FailsIn, IsNobodys};
ghost use Rattle.hall_desk.specs.Wanted.{IsFoundFor, IsFoundOf};

use crate::certify_puzzle::Certify;
use crate::found_state::is_open;
use crate::handler::Handler;
use crate::memo::{Memo, is_remembered};
use crate::request_at::{RequestAt, caller_rule, no_facts};
use hall_grid::Puzzle;
use hall_policy::{Action, Decision, Facts, Key, Moment, PuzzleKey, Request};
use hall_store::{ReadStore, StoreFault};
use std::alloc::{AllocError, Global};

/// A search that a plan would make: of a puzzle, which stands under this name, within a budget, for whoever has the
/// key.
#[derive(Drop)]
pub(crate) struct Wanted {
    pub(crate) key: Key,
    pub(crate) name: PuzzleKey,
    pub(crate) puzzle: Puzzle,
    pub(crate) budget: u64,
}

/// The search that a plan of the request would make now: of the puzzle of an allowed Certify, where no search of it
/// came to an end yet and nothing is remembered of it. Who asks is looked up first, and for a caller whom the rules
/// forbid it nothing else.
pub(crate) fn search_for<S: ReadStore>(
    alloc: Global,
    store: &mut S,
    request: &Request,
    memo: &Option<Memo>,
) -> Result<Option<Wanted>, StoreFault>
    ensures kept { Kept (S.content store.old) (S.content store.new) }
    ensures untouched { IsNobodys request.now → store.new ≡ store.old }
    ensures fault { FailsIn (S.content store.old) (S.content store.new) result }
    ensures told { Told (S.content store.old) (S.content store.new) result
        (λ world. IsFoundFor world request.now memo.now) }
    ensures fresh { IfOk result (λ found. IfSome found
        (λ search. ¬ (Remembers memo.now search.puzzle search.budget))) }
{
    // No rule that a Certify is asked speaks of the moment.
    let Some(t) = Moment::new(0) else {
        unreachable!()
    };
    match &request.action {
        Action::Certify { key, budget } => match &request.key {
            Some(pass) => {
                let asked = RequestAt {
                    alloc,
                    t,
                    request,
                    memo,
                };
                search_by_key(&asked, store, pass, &Certify::of(key, *budget, memo))
            }
            None => Ok(None),
        },
        _ => Ok(None),
    }
}

/// The search for whoever has the key.
fn search_by_key<S: ReadStore>(
    asked: &RequestAt,
    store: &mut S,
    pass: &Key,
    certified: &Certify,
) -> Result<Option<Wanted>, StoreFault>
    requires action { asked.now.request.now.action ≡ certify_action certified.now }
    requires key { asked.now.request.now.key ≡ Some pass.now }
    ensures kept { Kept (S.content store.old) (S.content store.new) }
    ensures fault { FailsIn (S.content store.old) (S.content store.new) result }
    ensures told { Told (S.content store.old) (S.content store.new) result
        (λ world. IsFoundFor world asked.now.request.now certified.now.memo.now) }
    ensures fresh { IfOk result (λ found. IfSome found
        (λ search. ¬ (Remembers certified.now.memo.now search.puzzle search.budget))) }
{
    let mut facts = no_facts();
    let found = search_by_facts(asked, store, pass, certified, &mut facts);
    drop(facts);
    found
}

/// The search for whoever has the key, by facts that tell of nothing yet.
fn search_by_facts<S: ReadStore>(
    asked: &RequestAt,
    store: &mut S,
    pass: &Key,
    certified: &Certify,
    facts: &mut Facts,
) -> Result<Option<Wanted>, StoreFault>
    requires action { asked.now.request.now.action ≡ certify_action certified.now }
    requires key { asked.now.request.now.key ≡ Some pass.now }
    ensures kept { Kept (S.content store.old) (S.content store.new) }
    ensures fault { FailsIn (S.content store.old) (S.content store.new) result }
    ensures told { Told (S.content store.old) (S.content store.new) result
        (λ world. IsFoundFor world asked.now.request.now certified.now.memo.now) }
    ensures fresh { IfOk result (λ found. IfSome found
        (λ search. ¬ (Remembers certified.now.memo.now search.puzzle search.budget))) }
{
    facts.caller = store.person_by_key(asked.alloc, pass)?;
    search_for_caller(asked, store, pass, certified, facts)
}

/// The search for the caller: of the puzzle, where the action is allowed. The rules on the caller are asked before the
/// puzzle is looked up.
fn search_for_caller<S: ReadStore>(
    asked: &RequestAt,
    store: &mut S,
    pass: &Key,
    certified: &Certify,
    facts: &mut Facts,
) -> Result<Option<Wanted>, StoreFault>
    requires action { asked.now.request.now.action ≡ certify_action certified.now }
    requires key { asked.now.request.now.key ≡ Some pass.now }
    requires caller { Asks (S.content store.old) (λ world. IsCaller world asked.now.request.now.key facts.old.caller) }
    ensures kept { Kept (S.content store.old) (S.content store.new) }
    ensures fault { FailsIn (S.content store.old) (S.content store.new) result }
    ensures told { Told (S.content store.old) (S.content store.new) result
        (λ world. IsFoundFor world asked.now.request.now certified.now.memo.now) }
    ensures fresh { IfOk result (λ found. IfSome found
        (λ search. ¬ (Remembers certified.now.memo.now search.puzzle search.budget))) }
{
    if let Some(_rule) = caller_rule(facts, &asked.request.action, asked.t) {
        return Ok(None);
    }
    match certified.decision(asked.alloc, store, asked.t, &asked.request.action, facts)? {
        Decision::Allow => Ok(search_of_found(facts, pass, certified)?),
        Decision::Deny(_) | Decision::Repeat => Ok(None),
    }
}

/// The search of the puzzle that was found, where one is wanted.
fn search_of_found(
    facts: &Facts,
    pass: &Key,
    certified: &Certify,
) -> Result<Option<Wanted>, AllocError>
    ensures found { IfOk result
        (IsFoundOf facts.now.puzzle pass.now certified.now.key.now certified.now.budget certified.now.memo.now) }
    ensures fresh { IfOk result (λ found. IfSome found
        (λ search. ¬ (Remembers certified.now.memo.now search.puzzle search.budget))) }
{
    let Some(row) = &facts.puzzle else {
        return Ok(None);
    };
    let budget = certified.budget.get();
    if !is_open(&row.state) || is_remembered(certified.memo, &row.puzzle, budget) {
        return Ok(None);
    }
    Ok(Some(Wanted {
        key: pass.clone()?,
        name: certified.key.clone()?,
        puzzle: row.puzzle.clone()?,
        budget,
    }))
}

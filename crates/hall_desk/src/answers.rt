//! Answers: the answers of a round that the caller sees.
ghost use Rattle.std.specs.Prelude.{◌≡◌, IfOk, map, true};
ghost use Rattle.hall_policy.specs.declared.request.Action.TheVariants as action;
ghost use Rattle.hall_store.specs.Store.{CanFailIn, Asks, Kept, Served, Told, Fails, is_in, is_of};
ghost use Rattle.hall_desk.specs.Lines.{AreLinesOf};
ghost use Rattle.hall_desk.specs.Listings.{AreListings};
ghost use Rattle.hall_desk.specs.Lookups.{IsCaller};
ghost use Rattle.hall_desk.specs.Plans.{FailsIn, IsPlanFor};
ghost use Rattle.hall_desk.specs.Shown.{is_sealed, sees_all, shows_verdict, answer_line, sees_answer};

use crate::find_round::find_round;
use crate::lines::{Lines, ROOM};
use crate::listing::Listings;
use crate::plan::Plan;
use crate::reply::{AnswersText, Reply};
use crate::request_at::RequestAt;
use hall_policy::{AnswerRow, Decision, Facts, Mode, Moment, Name, Person, Round, RoundId, decide};
use hall_store::{ReadStore, StoreFault};
use std::alloc::{AllocError, Global};

/// The plan for the answers of the round that the caller sees: all of them by the finished listing, where it is this
/// round's.
pub(crate) fn plan_answers<S: ReadStore>(
    asked: &RequestAt,
    store: &mut S,
    round: &RoundId,
    facts: &mut Facts,
    listings: &mut Listings,
) -> Result<Plan, StoreFault>
    requires action { asked.now.request.now.action ≡ action.Answers round.now }
    requires listed { AreListings (S.content store.old) listings.old }
    requires caller { Asks (S.content store.old) (λ world. IsCaller world asked.now.request.now.key facts.old.caller) }
    ensures kept { Kept (S.content store.old) (S.content store.new) }
    ensures fault { FailsIn (S.content store.old) (S.content store.new) result }
    ensures told { Told (S.content store.old) (S.content store.new) result
        (λ world plan. IsPlanFor world asked.now.t asked.now.request.now plan) }
    ensures listed { AreListings (S.content store.new) listings.new }
{
    facts.round = find_round(asked.alloc, store, round)?;
    match decide(facts, &asked.request.action, asked.t) {
        Decision::Deny(rule) => Ok(Plan::of(Reply::Denied(rule))),
        Decision::Repeat => unreachable!(),
        Decision::Allow => {
            let Some(person) = &facts.caller else {
                unreachable!()
            };
            let Some(row) = &facts.round else {
                unreachable!()
            };
            let lines = list_answers(asked, store, round, person, &row.round, listings)?;
            Ok(Plan::of(Reply::Answers(lines)))
        }
    }
}

/// The answers of the round of this id that the person sees, as they are listed.
fn list_answers<S: ReadStore>(
    asked: &RequestAt,
    store: &mut S,
    id: &RoundId,
    person: &Person,
    round: &Round,
    listings: &mut Listings,
) -> Result<AnswersText, StoreFault>
    requires serves { (S.content store.old).honest → (S.content store.old).serves }
    requires listed { AreListings (S.content store.old) listings.old }
    ensures kept { Kept (S.content store.old) (S.content store.new) }
    ensures fault { FailsIn (S.content store.old) (S.content store.new) result }
    ensures served { Served (S.content store.new) result (λ world lines. AreLinesOf world
        (sees_answer person.now round.now id.now asked.now.t)
        (shows_verdict person.now round.now asked.now.t) lines) }
    ensures listed { AreListings (S.content store.new) listings.new }
{
    if sees_all(person, round, asked.t) {
        take_listing(asked.alloc, store, id, listings)
    } else {
        let shows = shows_verdict(person, round, asked.t);
        list_own(asked.alloc, store, id, &person.name, shows)
    }
}

/// Whether the person sees the answers of all entrants.
fn sees_all(person: &Person, round: &Round, t: Moment) -> bool
    ensures { result ≡ sees_all person.now round.now t }
{
    let roles = person.roles.get();
    roles.director || (roles.referee && round.end() <= t.get())
}

/// Whether the person sees verdicts.
fn shows_verdict(person: &Person, round: &Round, t: Moment) -> bool
    ensures { result ≡ shows_verdict person.now round.now t }
{
    !is_sealed(round.mode) || round.end() <= t.get() || person.roles.get().director
}

/// Whether verdicts wait for the end.
fn is_sealed(mode: Mode) -> bool
    ensures { result ≡ is_sealed mode }
{
    match mode {
        Mode::Instant => false,
        Mode::Sealed => true,
    }
}

/// All answers of the round: the finished listing, where it is this round's, or else one that is made at once.
fn take_listing<S: ReadStore>(
    alloc: Global,
    store: &mut S,
    round: &RoundId,
    listings: &mut Listings,
) -> Result<AnswersText, StoreFault>
    requires serves { (S.content store.old).honest → (S.content store.old).serves }
    requires listed { AreListings (S.content store.old) listings.old }
    ensures kept { Kept (S.content store.old) (S.content store.new) }
    ensures fault { Fails (CanFailIn (S.content store.old) (S.content store.new)) result }
    ensures served { Served (S.content store.new) result
        (λ world lines. AreLinesOf world (is_in round.now) true lines) }
    ensures listed { AreListings (S.content store.new) listings.new }
{
    match listings.take_listed(round) {
        Some(lines) => Ok(lines),
        None => list_all(alloc, store, round),
    }
}

/// All answers of the round as they are listed. Each row is let go once its line is made.
fn list_all<S: ReadStore>(
    alloc: Global,
    store: &mut S,
    round: &RoundId,
) -> Result<AnswersText, StoreFault>
    ensures kept { Kept (S.content store.old) (S.content store.new) }
    ensures fault { Fails (CanFailIn (S.content store.old) (S.content store.new)) result }
    ensures served { Served (S.content store.new) result
        (λ world lines. AreLinesOf world (is_in round.now) true lines) }
{
    let mut lines = Lines::begin(alloc, true, ROOM)?;
    store.feed_answers(alloc, round, &None, &None, &mut lines)?;
    Ok(lines.end()?)
}

/// The entrant's answers in the round as they are listed.
fn list_own<S: ReadStore>(
    alloc: Global,
    store: &mut S,
    round: &RoundId,
    name: &Name,
    shows: bool,
) -> Result<AnswersText, StoreFault>
    ensures kept { Kept (S.content store.old) (S.content store.new) }
    ensures fault { Fails (CanFailIn (S.content store.old) (S.content store.new)) result }
    ensures served { Served (S.content store.new) result
        (λ world lines. AreLinesOf world (is_of name.now round.now) shows lines) }
{
    let rows = store.answers_of(alloc, name, round)?;
    Ok(show_answers(alloc, rows.as_slice(), shows)?)
}

/// The answers as they are listed.
fn show_answers(alloc: Global, rows: &[AnswerRow], shows: bool) -> Result<AnswersText, AllocError>
    ensures { IfOk result (λ lines. lines ≡ map (answer_line shows) rows.now) }
{
    let mut lines = Lines::begin(alloc, shows, ROOM)?;
    for row in rows {
        lines.add(row)?;
    }
    lines.end()
}

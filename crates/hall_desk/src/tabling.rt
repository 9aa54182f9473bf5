//! The table of a round, made in slices of its answers.
ghost use Rattle.std.specs.Prelude.{◌≡◌, IfOk, IfSome, Ok, None};
ghost use Rattle.hall_policy.specs.World.{World, IsRoundAt};
ghost use Rattle.hall_policy.specs.declared.request.Action.TheVariants.{Table};
ghost use Rattle.hall_score.specs.Tally.{TakesAnswer};
ghost use Rattle.hall_store.specs.Store.{Asks, Kept, Served};
ghost use Rattle.hall_desk.specs.Copies.{AreCopied};
ghost use Rattle.hall_desk.specs.Slices.{AreAllTaken, AreUnderWay, AsksIfAny, kept_where};
ghost use Rattle.hall_desk.specs.TableCopy.{leaves_table};
ghost use Rattle.hall_desk.specs.Tabling.{BeginsTally, IsTalliedIn, TablesOn, WaitsForTable};
ghost use Rattle.hall_desk.specs.Totals.{IsTableAt};
ghost use Rattle.hall_desk.specs.Wanted.{AsksTable};
ghost use Rattle.hall_desk.specs.declared.prepared.Prepared.TheVariants as Prepared;

use crate::copies::{Copies, Tabling};
use crate::find_round::find_round;
use crate::prepared::Prepared;
use crate::reply::TableText;
use crate::request_at::no_facts;
use crate::slices::{Sliced, Slices};
use crate::table_copy::{TableCopy, is_copied, keep_copy, leaves};
use hall_policy::{Decision, Moment, Request, RoundId, RoundRow, decide};
use hall_score::{Tally, table_text};
use hall_store::{Change, ReadStore, StoreFault};
use std::alloc::{AllocError, Global};

/// Works for a while on the round's table, where one is to be told and no copy is kept: by a slice of the table that is
/// under way, of whichever round, so that nobody's begins anew. Where no memory is left for a copy, nothing is to be
/// waited for.
pub(crate) fn prepare_table<S: ReadStore>(
    alloc: Global,
    store: &mut S,
    request: &Request,
    round: &RoundId,
    copies: &mut Copies,
) -> Result<Prepared, StoreFault>
    requires action { request.now.action ≡ Table round.now }
    requires copied { AreCopied (S.content store.old) copies.old }
    ensures kept { Kept (S.content store.old) (S.content store.new) }
    ensures copied { AreCopied (S.content store.new) copies.new }
    ensures waits { result ≡ Ok Prepared.Waits →
        WaitsForTable (S.content store.new) request.now copies.old copies.new }
{
    if is_copied(&copies.tables, round) {
        return Ok(Prepared::Ready);
    }
    match told_round(alloc, store, request, round)? {
        Some(row) => go_on(alloc, store, round, row, copies),
        None => Ok(Prepared::Ready),
    }
}

/// The round, where its table may be told to whoever asks.
fn told_round<S: ReadStore>(
    alloc: Global,
    store: &mut S,
    request: &Request,
    round: &RoundId,
) -> Result<Option<RoundRow>, StoreFault>
    requires { request.now.action ≡ Table round.now }
    ensures kept { Kept (S.content store.old) (S.content store.new) }
    ensures told { Served (S.content store.new) result (λ world found. IfSome found
        (λ row. IsRoundAt world round.now row × AsksTable world request.now)) }
{
    // No rule that a Table is asked speaks of the caller or the moment.
    let Some(t) = Moment::new(0) else {
        unreachable!()
    };
    let mut facts = no_facts();
    facts.round = find_round(alloc, store, round)?;
    match decide(&facts, &request.action, t) {
        Decision::Allow => Ok(facts.round.take()),
        Decision::Deny(_) | Decision::Repeat => Ok(None),
    }
}

/// Gives a slice to the table under way, or else begins that of the round.
fn go_on<S: ReadStore>(
    alloc: Global,
    store: &mut S,
    round: &RoundId,
    row: RoundRow,
    copies: &mut Copies,
) -> Result<Prepared, StoreFault>
    requires row { Asks (S.content store.old) (λ world. IsRoundAt world round.now row) }
    requires copied { AreCopied (S.content store.old) copies.old }
    ensures kept { Kept (S.content store.old) (S.content store.new) }
    ensures copied { AreCopied (S.content store.new) copies.new }
    ensures waits { result ≡ Ok Prepared.Waits → (S.content store.new).honest → (S.content store.new).serves
        × TablesOn copies.old.tabling round.now copies.new.tabling copies.new.tables }
{
    let tabling = under_way(alloc, store, round, row, copies.tabling.take())?;
    match tabling.go_on(alloc, store)? {
        Sliced::On(tabling) => {
            copies.tabling = Some(tabling);
            Ok(Prepared::Waits)
        }
        Sliced::Whole { round: made, taken } => {
            let is_own = made == *round;
            let copy = copy_of(alloc, made, taken)?;
            let kept = keep_copy(alloc, &mut copies.tables, copy);
            Ok(if kept && !is_own {
                Prepared::Waits
            } else {
                Prepared::Ready
            })
        }
    }
}

/// The tally under way, or else a new one of the round.
fn under_way<S: ReadStore>(
    alloc: Global,
    store: &mut S,
    round: &RoundId,
    row: RoundRow,
    tabling: Option<Tabling>,
) -> Result<Tabling, StoreFault>
    requires row { Asks (S.content store.old) (λ world. IsRoundAt world round.now row) }
    requires tallied { AsksIfAny (S.content store.old) IsTalliedIn tabling }
    ensures kept { Kept (S.content store.old) (S.content store.new) }
    ensures tallied { IfOk result (λ tabling. Asks (S.content store.new) (λ world. IsTalliedIn world tabling)) }
    ensures is { IfOk result (AreUnderWay tabling round.now) }
{
    match tabling {
        Some(tabling) => Ok(tabling),
        None => begin(alloc, store, round, row),
    }
}

/// A new tally of the round, whose protests it takes. They are few, and are taken at once.
fn begin<S: ReadStore>(
    alloc: Global,
    store: &mut S,
    round: &RoundId,
    row: RoundRow,
) -> Result<Tabling, StoreFault>
    requires { Asks (S.content store.old) (λ world. IsRoundAt world round.now row) }
    ensures kept { Kept (S.content store.old) (S.content store.new) }
    ensures tallied { Served (S.content store.new) result IsTalliedIn }
    ensures begun { IfOk result (λ tabling. (tabling.round ≡ round.now) × (tabling.after ≡ None)) }
{
    let mut taken = Tally::new(alloc, row);
    store.feed_protests(alloc, round, &mut taken)?;
    Ok(Slices {
        round: round.clone()?,
        taken,
        after: None,
    })
}

/// The table of the round, all of whose answers were taken.
fn copy_of(alloc: Global, round: RoundId, taken: Tally) -> Result<TableCopy, AllocError>
    ensures same { IfOk result (λ copy. copy.round ≡ round) }
    ensures table { (world : World) → AreAllTaken TakesAnswer BeginsTally world round taken →
        IfOk result (λ copy. IsTableAt world round copy.text) }
{
    let totals = taken.totals()?;
    let text = table_text(alloc, totals.as_slice())?;
    Ok(TableCopy {
        round,
        text: TableText::new(text),
    })
}

/// What is left of the tally by a change: nothing where it changes anything of the round.
pub(crate) fn left_by(change: &Change, tabling: Option<Tabling>) -> Option<Tabling>
    ensures { result ≡ kept_where (λ tabling. leaves_table change.now tabling.round) tabling }
{
    match tabling {
        Some(tabling) if leaves(change, &tabling.round) => Some(tabling),
        _ => None,
    }
}

//! Table: the totals of a published round, ranked.
ghost use Rattle.std.specs.Prelude.{◌≡◌};
ghost use Rattle.hall_policy.specs.World.{IsRoundAt};
ghost use Rattle.hall_policy.specs.declared.request.Action.TheVariants.{Table};
ghost use Rattle.hall_store.specs.Store.{Asks, Kept, Served};
ghost use Rattle.hall_desk.specs.Lookups.{IsCaller};
ghost use Rattle.hall_desk.specs.TableCopy.{AreTablesCopied};
ghost use Rattle.hall_desk.specs.Totals.{AreTotals, IsTableAt};
ghost use Rattle.hall_desk.specs.Plans.{IsPlanFor, FailsIn};

use crate::find_round::find_round;
use crate::plan::Plan;
use crate::reply::{Reply, TableText};
use crate::request_at::RequestAt;
use crate::rows::Rows;
use crate::table_copy::{TableCopy, keep, text_of};
use hall_policy::{Decision, Facts, Name, RoundId, RoundRow, decide};
use hall_score::{Tally, table_text};
use hall_store::{ReadStore, StoreFault};
use std::alloc::Global;

/// The plan for the round's table, which is anyone's, with a key or without: by the round's copy, where one is kept.
pub(crate) fn plan_table<S: ReadStore>(
    asked: &RequestAt,
    store: &mut S,
    round: &RoundId,
    facts: &mut Facts,
    copied: &mut Option<Rows<TableCopy>>,
) -> Result<Plan, StoreFault>
    requires action { asked.now.request.now.action ≡ Table round.now }
    requires copied { AreTablesCopied (S.content store.old) copied.old }
    requires caller { Asks (S.content store.old) (λ world. IsCaller world asked.now.request.now.key facts.old.caller) }
    ensures kept { Kept (S.content store.old) (S.content store.new) }
    ensures fault { FailsIn (S.content store.old) (S.content store.new) result }
    ensures served { Served (S.content store.new) result
        (λ world plan. IsPlanFor world asked.now.t asked.now.request.now plan) }
    ensures copied { AreTablesCopied (S.content store.new) copied.new }
{
    facts.round = find_round(asked.alloc, store, round)?;
    match decide(facts, &asked.request.action, asked.t) {
        Decision::Deny(rule) => Ok(Plan::of(Reply::Denied(rule))),
        Decision::Repeat => unreachable!(),
        Decision::Allow => {
            let Some(row) = &facts.round else {
                unreachable!()
            };
            let text = make_table(asked.alloc, store, round, row, copied)?;
            Ok(Plan::of(Reply::Table(text)))
        }
    }
}

/// The table of the round, of which a copy is kept where there is memory for it.
fn make_table<S: ReadStore>(
    alloc: Global,
    store: &mut S,
    round: &RoundId,
    row: &RoundRow,
    copied: &mut Option<Rows<TableCopy>>,
) -> Result<TableText, StoreFault>
    requires row { (S.content store.old).honest → (S.content store.old).serves
        × IsRoundAt (S.content store.old).world round.now row.now }
    requires copied { AreTablesCopied (S.content store.old) copied.old }
    ensures kept { Kept (S.content store.old) (S.content store.new) }
    ensures fault { FailsIn (S.content store.old) (S.content store.new) result }
    ensures served { Served (S.content store.new) result (λ world text. IsTableAt world round.now text) }
    ensures copied { AreTablesCopied (S.content store.new) copied.new }
{
    if let Some(text) = text_of(alloc, copied, round)? {
        return Ok(text);
    }
    let totals = find_totals(alloc, store, round, row)?;
    let text = table_text(alloc, totals.as_slice())?;
    keep(alloc, copied, round, text.as_str());
    Ok(TableText::new(text))
}

/// The totals of the round's entrants, from its rows, which are given one at a time.
fn find_totals<S: ReadStore>(
    alloc: Global,
    store: &mut S,
    round: &RoundId,
    row: &RoundRow,
) -> Result<Vec<(Name, i64)>, StoreFault>
    ensures kept { Kept (S.content store.old) (S.content store.new) }
    ensures fault { FailsIn (S.content store.old) (S.content store.new) result }
    ensures served { Served (S.content store.new) result
        (λ world totals. AreTotals world round.now row.now totals.items) }
{
    let mut tally = Tally::new(alloc, row.clone()?);
    store.feed_protests(alloc, round, &mut tally)?;
    store.feed_answers(alloc, round, &None, &None, &mut tally)?;
    Ok(tally.totals()?)
}

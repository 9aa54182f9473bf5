//! The command `table`.
ghost use Rattle.std.specs.Prelude.{◌≡◌, ℕ, List, None, Option, IfOk, IfErr, IfSome, IsErrOf, string_bytes};
ghost use Rattle.std.specs.Io.KnownBytes.{Appends};
ghost use Rattle.hall_grid.specs.Device.{Rises};
ghost use Rattle.hall_policy.specs.Ranges.{IsRoundId};
ghost use Rattle.hall_store.specs.Store.{Kept};
ghost use Rattle.hall_desk.specs.Desk.{kept_by};
ghost use Rattle.hall_desk.specs.Plan.{planned_reply};
ghost use Rattle.hall_desk.specs.declared.reply.Reply.{Reply};
ghost use Rattle.hall_http.specs.Device.{WritesPart};
ghost use Rattle.hall_tool.specs.SeedText.{denial_of};
ghost use Rattle.hall_tool.specs.Status.{IsOfMemoryOrStore};
ghost use Rattle.hall_desk.specs.Plans.{PlanCanFail};
ghost use Rattle.hall_tool.specs.TableText.{IsOtherReply, IsTableOver, IsTableWritten, TableText};

use crate::ending::Ending;
use crate::fault::{ToolFault, told};
use hall_desk::{Desk, Plan, Reply};
use hall_grid::Counted;
use hall_http::write_all;
use hall_policy::{Action, Moment, Request, RoundId};
use hall_store::ReadStore;
use std::alloc::{AllocError, Global};
use std::io::Write;

/// The rule that denies a round that isn't there.
const NO_ROUND: u8 = 4;

/// The round's id that the bytes are, where they are one.
fn round_id(alloc: Global, bytes: &[u8]) -> Result<Option<RoundId>, AllocError>
    ensures some { IfOk result (λ found. IfSome found (λ id. (id ≡ bytes.now) × IsRoundId bytes.now)) }
    ensures none { IfOk result (λ found. found ≡ None → ¬ (IsRoundId bytes.now)) }
{
    match str::from_utf8(bytes) {
        Ok(text) => Ok(RoundId::new(String::from_str(alloc, text)?)),
        Err(_) => Ok(None),
    }
}

/// A denial on a line.
fn denied(alloc: Global, rule: u8) -> Result<Ending, AllocError>
    ensures { IfOk result (λ a. (string_bytes a.line ≡ denial_of rule) × (a.status ≡ 2)) }
{
    let line = format!(in alloc; "denied {rule}\n")?;
    Ok(Ending { line, status: 2 })
}

/// What is written of the reply to a request for a table.
fn written(alloc: Global, reply: &Reply) -> Result<Ending, ToolFault>
    ensures written { IfOk result (λ a. IsTableWritten reply.now (string_bytes a.line) a.status) }
    ensures cause { IfErr result IsOfMemoryOrStore }
    ensures fault { IsErrOf result ToolFault.Store → IsOtherReply reply.now }
{
    match reply {
        Reply::Table(text) => {
            let line = String::from_str(alloc, text.as_str())?;
            Ok(Ending { line, status: 0 })
        }
        Reply::Denied(rule) => Ok(denied(alloc, *rule)?),
        _ => Err(ToolFault::Store),
    }
}

/// What is written of the plan for a table.
fn written_of(alloc: Global, plan: Plan) -> Result<Ending, ToolFault>
    ensures written { IfOk result (λ a. IsTableWritten (planned_reply plan) (string_bytes a.line) a.status) }
    ensures cause { IfErr result IsOfMemoryOrStore }
    ensures fault { IsErrOf result ToolFault.Store → IsOtherReply (planned_reply plan) }
{
    let ending = written(alloc, plan.reply());
    drop(plan);
    ending
}

/// The round's table, as it is written.
fn table_of<S: ReadStore>(
    alloc: Global,
    desk: &mut Desk<S>,
    round: RoundId,
) -> Result<Ending, ToolFault>
    ensures kept { Kept (S.content (kept_by desk.old)) (S.content (kept_by desk.new)) }
    ensures told { IfOk result (λ a. (given : Reply)
        × IsTableOver (S.content (kept_by desk.new)) round given
        × IsTableWritten given (string_bytes a.line) a.status) }
    ensures cause { IfErr result IsOfMemoryOrStore }
    ensures fault { IsErrOf result ToolFault.Store → PlanCanFail
        (S.content (kept_by desk.old)) (S.content (kept_by desk.new)) }
{
    let Some(t) = Moment::new(0) else {
        unreachable!()
    };
    let request = Request {
        key: None,
        action: Action::Table { round },
    };
    let planned = desk.plan(alloc, t, &request);
    drop(request);
    match planned {
        Ok(plan) => written_of(alloc, plan),
        Err(fault) => Err(told(fault)),
    }
}

/// What is written of the table of the round that the bytes name.
fn table_ending<S: ReadStore>(
    alloc: Global,
    desk: &mut Desk<S>,
    round: &[u8],
) -> Result<Ending, ToolFault>
    ensures kept { Kept (S.content (kept_by desk.old)) (S.content (kept_by desk.new)) }
    ensures text { IfOk result
        (λ a. TableText round.now (S.content (kept_by desk.new)) (string_bytes a.line) a.status) }
    ensures cause { IfErr result IsOfMemoryOrStore }
    ensures fault { IsErrOf result ToolFault.Store → PlanCanFail
        (S.content (kept_by desk.old)) (S.content (kept_by desk.new)) }
{
    match round_id(alloc, round)? {
        Some(id) => table_of(alloc, desk, id),
        None => Ok(denied(alloc, NO_ROUND)?),
    }
}

/// Writes the table of the round whose id the bytes are, or on a line the number of the rule that denies it: 4 for a
/// round that isn't there, or bytes that are no round's id, 15 for one that isn't published. The result is the exit
/// status: 0 for the table, 2 for a denial. The world stays. `Store` is answered only where the store can fail, or its
/// world isn't sane.
pub fn table_run<S: ReadStore, W: Write>(
    alloc: Global,
    desk: &mut Desk<S>,
    round: &[u8],
    writer: &mut Counted<W>,
) -> Result<u8, ToolFault>
    ensures kept { Kept (S.content (kept_by desk.old)) (S.content (kept_by desk.new)) }
    ensures text { IfOk result (λ status. (text : List ℕ)
        × TableText round.now (S.content (kept_by desk.new)) text status
        × Appends (W.contents writer.old.device) (W.contents writer.new.device) text) }
    ensures same { IfOk result (λ _. writer.new.failures ≡ writer.old.failures) }
    ensures device { IsErrOf result ToolFault.Device → Rises writer.old.failures writer.new.failures }
    // At a device's fault a first part of the text was written, perhaps none of it.
    ensures part { IsErrOf result ToolFault.Device → (text : List ℕ) × (status : ℕ)
        × TableText round.now (S.content (kept_by desk.new)) text status
        × WritesPart (W.contents writer.old.device) (W.contents writer.new.device) text }
    // Another fault leaves the writer as it was.
    ensures memory { IsErrOf result ToolFault.Memory → writer.new ≡ writer.old }
    ensures store { IsErrOf result ToolFault.Store → writer.new ≡ writer.old }
    ensures fault { IsErrOf result ToolFault.Store → PlanCanFail
        (S.content (kept_by desk.old)) (S.content (kept_by desk.new)) }
{
    let ending = table_ending(alloc, desk, round)?;
    write_all(writer, ending.line.as_bytes())?;
    Ok(ending.status)
}

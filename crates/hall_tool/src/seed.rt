//! People of an entry list, who stand before any request.
ghost use Rattle.std.specs.Prelude.{◌≡◌, ◌⊎◌, ℕ, List, IfOk, IfErr, IsErrOf, OnErr, Err, string_bytes};
ghost use Rattle.std.specs.Io.KnownBytes.{Appends};
ghost use Rattle.hall_grid.specs.Device.{Rises};
ghost use Rattle.hall_store.specs.Store.{IsSettled, KeptWorld, Leads, WritesOnce};
ghost use Rattle.hall_desk.specs.Desk.{kept_by, SaneThen};
ghost use Rattle.hall_desk.specs.Sane.{Sane};
ghost use Rattle.hall_desk.specs.Plans.{IsSeedReply};
ghost use Rattle.hall_http.specs.Device.{WritesPart};
ghost use Rattle.hall_sheet.specs.People.{people_in};
ghost use Rattle.hall_sheet.specs.declared.fault.Refusal.{Refusal};
ghost use Rattle.hall_tool.specs.SeedText.{SeedText, IsSeeded, IsToldBy, AddsNobody, StopsInList, ListCanFail};
ghost use Rattle.hall_tool.specs.SeedText.{seeded_line, seeded_status};

use crate::ending::Ending;
use crate::fault::ToolFault;
use hall_desk::{Desk, Reply};
use hall_grid::Counted;
use hall_http::write_all;
use hall_sheet::{Refusal, SheetFault, read_people};
use hall_store::{Store, StoreFault};
use std::alloc::{AllocError, Global};
use std::io::Write;

/// What came of a list.
#[derive(Clone, Copy, Debug, PartialEq, Eq)]
pub(crate) enum Seeded {
    /// Its bytes are no entry list.
    Refused(Refusal),
    /// The rule of this number forbids it.
    Denied(u8),
    /// So many of its people were added.
    Added(u64),
}

/// What came of a list that the desk answered so.
fn seeded_of(reply: &Reply) -> Seeded
    requires { IsSeedReply reply.now }
    ensures { IsToldBy reply.now result }
{
    match reply {
        Reply::Import(added) => Seeded::Added(*added),
        Reply::Denied(rule) => Seeded::Denied(*rule),
        _ => unreachable!(),
    }
}

/// What came of a seed, by its reply, which is let go.
fn seeded_by(reply: Reply) -> Seeded
    requires { IsSeedReply reply }
    ensures { IsToldBy reply result }
{
    let seeded = seeded_of(&reply);
    drop(reply);
    seeded
}

/// Imports the people of the list before any request, by one write at most, and by none where the list is denied.
pub(crate) fn seed_desk<S: Store>(
    alloc: Global,
    desk: &mut Desk<S>,
    list: &[u8],
) -> Result<Seeded, ToolFault>
    ensures leads { Leads (S.content (kept_by desk.old)) (S.content (kept_by desk.new)) }
    ensures once { WritesOnce (S.content (kept_by desk.old)) (S.content (kept_by desk.new)) }
    ensures seeded { IfOk result
        (IsSeeded list.now (S.content (kept_by desk.old)) (S.content (kept_by desk.new))) }
    ensures stops { StopsInList list.now (S.content (kept_by desk.old)) (S.content (kept_by desk.new)) }
    ensures settled { IsSettled (S.content (kept_by desk.new)) }
    ensures sane { SaneThen Sane (S.content (kept_by desk.old)) (S.content (kept_by desk.new)) }
    ensures refused { (refusal : Refusal) → people_in list.now ≡ Err refusal → desk.new ≡ desk.old }
    ensures left { OnErr result (KeptWorld (S.content (kept_by desk.old)) (S.content (kept_by desk.new))) }
    ensures cause { IfErr result (λ e. (e ≡ ToolFault.Memory) ⊎ (e ≡ ToolFault.Store)) }
    ensures fault { IsErrOf result ToolFault.Store → ListCanFail list.now
        (S.content (kept_by desk.old)) (S.content (kept_by desk.new)) }
{
    match read_people(alloc, list) {
        Ok(people) => match desk.try_seed(alloc, &people) {
            Ok(reply) => Ok(seeded_by(reply)),
            Err(StoreFault::Memory) => Err(ToolFault::Memory),
            Err(StoreFault::Failed) => Err(ToolFault::Store),
        },
        Err(SheetFault::Refused(refusal)) => {
            desk.at_rest();
            Ok(Seeded::Refused(refusal))
        }
        Err(SheetFault::Memory) => {
            desk.at_rest();
            Err(ToolFault::Memory)
        }
    }
}

/// Why nobody was added, on a line; where people were, no line.
pub(crate) fn seeded_ending(alloc: Global, seeded: Seeded) -> Result<Ending, AllocError>
    ensures line { IfOk result
        (λ a. (string_bytes a.line ≡ seeded_line seeded) × (a.status ≡ seeded_status seeded)) }
    ensures memory { OnErr result (AddsNobody seeded) }
{
    let line = match seeded {
        Seeded::Refused(refusal) => format!(in alloc; "refused {refusal}\n")?,
        Seeded::Denied(rule) => format!(in alloc; "denied {rule}\n")?,
        Seeded::Added(_) => {
            return Ok(Ending {
                line: String::new(alloc),
                status: 0,
            });
        }
    };
    Ok(Ending { line, status: 2 })
}

/// Imports the people of an entry list before any request, and writes nothing; or writes on a line why nobody was
/// added, and has then made no write; else it has made one at most. The result is the exit status: 0 where the people
/// were imported, 2 where the list is refused or denied.
pub fn seed_run<S: Store, W: Write>(
    alloc: Global,
    desk: &mut Desk<S>,
    list: &[u8],
    writer: &mut Counted<W>,
) -> Result<u8, ToolFault>
    ensures leads { Leads (S.content (kept_by desk.old)) (S.content (kept_by desk.new)) }
    ensures once { WritesOnce (S.content (kept_by desk.old)) (S.content (kept_by desk.new)) }
    ensures line { IfOk result (λ status. (line : List ℕ)
        × SeedText list.now (S.content (kept_by desk.old)) (S.content (kept_by desk.new)) line status
        × Appends (W.contents writer.old.device) (W.contents writer.new.device) line) }
    ensures same { IfOk result (λ _. writer.new.failures ≡ writer.old.failures) }
    ensures stops { StopsInList list.now (S.content (kept_by desk.old)) (S.content (kept_by desk.new)) }
    ensures settled { IsSettled (S.content (kept_by desk.new)) }
    ensures sane { SaneThen Sane (S.content (kept_by desk.old)) (S.content (kept_by desk.new)) }
    ensures refused { (refusal : Refusal) → people_in list.now ≡ Err refusal → desk.new ≡ desk.old }
    // A fault leaves the world.
    ensures left { OnErr result (KeptWorld (S.content (kept_by desk.old)) (S.content (kept_by desk.new))) }
    ensures device { IsErrOf result ToolFault.Device → Rises writer.old.failures writer.new.failures }
    // At a device's fault a first part of the line was written, perhaps none of it.
    ensures part { IsErrOf result ToolFault.Device → (line : List ℕ) × (status : ℕ)
        × SeedText list.now (S.content (kept_by desk.old)) (S.content (kept_by desk.new)) line status
        × WritesPart (W.contents writer.old.device) (W.contents writer.new.device) line }
    // Another fault leaves the writer as it was.
    ensures memory { IsErrOf result ToolFault.Memory → writer.new ≡ writer.old }
    ensures store { IsErrOf result ToolFault.Store → writer.new ≡ writer.old }
    ensures cause { IsErrOf result ToolFault.Store → ListCanFail list.now
        (S.content (kept_by desk.old)) (S.content (kept_by desk.new)) }
{
    let seeded = seed_desk(alloc, desk, list)?;
    let ending = seeded_ending(alloc, seeded)?;
    write_all(writer, ending.line.as_bytes())?;
    Ok(ending.status)
}

//! People of an entry list, who are imported into what the store keeps.
ghost use Rattle.std.specs.Prelude.{◌≡◌, ◌≤◌, ℕ, List, IfOk, IsErrOf, OnErr, [], string_bytes};
ghost use Rattle.std.specs.String.{string_capacity, string_len};
ghost use Rattle.std.specs.Io.KnownBytes.{Appends};
ghost use Rattle.hall_grid.specs.Device.{Rises};
ghost use Rattle.hall_store.specs.Store.{IsSettled, KeptWorld, Leads, WritesOnce};
ghost use Rattle.hall_desk.specs.Desk.{kept_by, SaneThen};
ghost use Rattle.hall_desk.specs.Sane.{Sane};
ghost use Rattle.hall_http.specs.Device.{WritesPart};
ghost use Rattle.hall_sheet.specs.People.{people_in};
ghost use Rattle.hall_sheet.specs.declared.fault.Refusal.{Refusal};
ghost use Rattle.std.specs.Prelude.{Err};
ghost use Rattle.hall_tool.specs.InitText.{InitText, init_line};
ghost use Rattle.hall_tool.specs.SeedText.{AddsNobody, ListCanFail, StopsInList, seeded_status};

use crate::ending::{Ending, ROOM, counted};
use crate::fault::ToolFault;
use crate::seed::{Seeded, seed_desk, seeded_ending};
use hall_desk::Desk;
use hall_grid::Counted;
use hall_http::write_all;
use hall_store::Store;
use std::alloc::{AllocError, Global};
use std::io::Write;

/// What came of the list, on a line; the empty line given has room for a number of people.
fn init_ending(alloc: Global, line: String, seeded: Seeded) -> Result<Ending, AllocError>
    requires empty { string_bytes line ≡ [] }
    requires begins { string_len line ≡ 0 }
    requires room { 64 ≤ string_capacity line }
    ensures line { IfOk result (λ a. (string_bytes a.line ≡ init_line seeded) × (a.status ≡ seeded_status seeded)) }
    ensures memory { OnErr result (AddsNobody seeded) }
{
    match seeded {
        Seeded::Added(count) => Ok(counted(line, "added ", count)),
        Seeded::Refused(_) | Seeded::Denied(_) => seeded_ending(alloc, seeded),
    }
}

/// Imports the people of an entry list, whose rule on lists alone is asked, and writes on a line how many were added,
/// or why nobody was. It makes at most one write, and none where the list is refused or denied. The result is the exit
/// status: 0 where the people were imported, 2 where the list is refused or denied.
pub fn init_run<S: Store, W: Write>(
    alloc: Global,
    desk: &mut Desk<S>,
    list: &[u8],
    writer: &mut Counted<W>,
) -> Result<u8, ToolFault>
    ensures leads { Leads (S.content (kept_by desk.old)) (S.content (kept_by desk.new)) }
    ensures once { WritesOnce (S.content (kept_by desk.old)) (S.content (kept_by desk.new)) }
    ensures line { IfOk result (λ status. (line : List ℕ)
        × InitText list.now (S.content (kept_by desk.old)) (S.content (kept_by desk.new)) line status
        × Appends (W.contents writer.old.device) (W.contents writer.new.device) line) }
    ensures same { IfOk result (λ _. writer.new.failures ≡ writer.old.failures) }
    ensures stops { StopsInList list.now (S.content (kept_by desk.old)) (S.content (kept_by desk.new)) }
    ensures settled { IsSettled (S.content (kept_by desk.new)) }
    ensures sane { SaneThen Sane (S.content (kept_by desk.old)) (S.content (kept_by desk.new)) }
    ensures refused { (refusal : Refusal) → people_in list.now ≡ Err refusal → desk.new ≡ desk.old }
    ensures device { IsErrOf result ToolFault.Device → Rises writer.old.failures writer.new.failures }
    // At a device's fault a first part of the line was written, perhaps none of it; the people may have been imported.
    ensures part { IsErrOf result ToolFault.Device → (line : List ℕ) × (status : ℕ)
        × InitText list.now (S.content (kept_by desk.old)) (S.content (kept_by desk.new)) line status
        × WritesPart (W.contents writer.old.device) (W.contents writer.new.device) line }
    // Another fault leaves the world and the writer.
    ensures memory { IsErrOf result ToolFault.Memory → KeptWorld (S.content (kept_by desk.old))
        (S.content (kept_by desk.new)) × (writer.new ≡ writer.old) }
    ensures store { IsErrOf result ToolFault.Store → ListCanFail list.now
        (S.content (kept_by desk.old)) (S.content (kept_by desk.new))
        × KeptWorld (S.content (kept_by desk.old)) (S.content (kept_by desk.new)) × (writer.new ≡ writer.old) }
{
    desk.at_rest();
    // The line's memory is taken first, so that a want of it leaves the world.
    let line = String::with_capacity(alloc, ROOM)?;
    let seeded = seed_desk(alloc, desk, list)?;
    let ending = init_ending(alloc, line, seeded)?;
    write_all(writer, ending.line.as_bytes())?;
    Ok(ending.status)
}

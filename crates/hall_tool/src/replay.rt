//! The command `replay`.
ghost use Rattle.std.specs.Prelude.{◌≡◌};
ghost use Rattle.hall_desk.specs.Desk.{kept_by, SaneThen};
ghost use Rattle.hall_desk.specs.Sane.{Sane};
ghost use Rattle.hall_tool.specs.Machine.{kinds, stand, streams};
ghost use Rattle.hall_tool.specs.ReplayRun.{IsReplayRun, replay_end};

use crate::fault::ToolFault;
use crate::seed::seed_run;
use hall_desk::Desk;
use hall_grid::Counted;
use hall_http::{ReplayFault, replay};
use hall_store::Store;
use std::alloc::Global;
use std::io::{Read, Write};

/// The status for an input that is refused.
const REFUSED: u8 = 2;

/// How the command ends after its records.
fn replay_end(ended: Result<(), ReplayFault>) -> Result<u8, ToolFault>
    ensures { result ≡ replay_end ended }
{
    match ended {
        Ok(()) => Ok(0),
        Err(ReplayFault::Record) => Ok(REFUSED),
        Err(ReplayFault::Device) => Err(ToolFault::Device),
        Err(ReplayFault::Memory) => Err(ToolFault::Memory),
    }
}

/// Imports the people of an entry list, and answers the records of the input over the world that this leaves; or writes
/// on a line why nobody was added, and reads no record. The result is the exit status: 0 where the input held whole
/// records and no more, 2 where the list is refused or denied, or what is left of the input is no record.
pub fn replay_run<S: Store, R: Read, W: Write>(
    alloc: Global,
    desk: &mut Desk<S>,
    list: &[u8],
    reader: &mut Counted<R>,
    writer: &mut Counted<W>,
) -> Result<u8, ToolFault>
    ensures run { IsReplayRun (kinds S.content (streams R.remaining W.contents)) list.now
        (stand (kept_by desk.old) reader.old writer.old) (stand (kept_by desk.new) reader.new writer.new) result }
    ensures sane { SaneThen Sane (S.content (kept_by desk.old)) (S.content (kept_by desk.new)) }
{
    match seed_run(alloc, desk, list, writer) {
        Ok(0) => replay_end(replay(alloc, desk, reader, writer)),
        ended => ended,
    }
}

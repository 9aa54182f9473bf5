//! A replay: the records of an input, answered one after another.
ghost use Rattle.std.specs.Prelude.{◌≡◌, ◌<◌, [], IfOk, OnOk, OnErr, MatchResult, length};
ghost use Rattle.std.specs.Io.KnownBytes.{Appends};
ghost use Rattle.hall_grid.specs.Device.{Rises};
ghost use Rattle.hall_desk.specs.Desk.{kept_by, SaneThen};
ghost use Rattle.hall_desk.specs.Sane.{Sane};
ghost use Rattle.hall_desk.specs.Promises.{HasUniqueSolutions, RightAnswersAreSolutions};
ghost use Rattle.hall_http.specs.Device.{WritesPart};
ghost use Rattle.hall_http.specs.Answered.{answer_text};
ghost use Rattle.hall_http.specs.Replay.{IsReplayed};
ghost use Rattle.hall_http.specs.Served.{line};

use crate::answer::{Answer, answer_bytes};
use crate::device::write_parts;
use crate::fault::{DeviceFault, ReplayFault};
use crate::inbox::{Inbox, ReadFault};
use crate::record::{RecordCut, cut_record};
use crate::routes::Routes;
use hall_desk::Desk;
use hall_grid::Counted;
use hall_store::Store;
use std::alloc::{AllocError, Global};
use std::io::{Read, Write};

/// The most reads of a replay.
const READ_LIMIT: u64 = 1_000_000_000;

/// Writes the answer.
pub(crate) fn send<W: Write>(writer: &mut Counted<W>, answer: Answer) -> Result<(), DeviceFault>
    ensures written { OnOk result
        (Appends (W.contents writer.old.device) (W.contents writer.new.device) (answer_text answer)) }
    ensures same { OnOk result (writer.new.failures ≡ writer.old.failures) }
    ensures part { OnErr result
        (WritesPart (W.contents writer.old.device) (W.contents writer.new.device) (answer_text answer)) }
    ensures device { OnErr result (Rises writer.old.failures writer.new.failures) }
{
    write_parts(writer, answer.parts())
}

/// The routes, and an inbox without bytes: what a session takes before its first read.
pub(crate) fn routes_and_inbox(alloc: Global) -> Result<(Routes, Inbox), AllocError>
    ensures { IfOk result (λ made. made.1 ≡ []) }
{
    let routes = Routes::new(alloc)?;
    let inbox = Inbox::new(alloc)?;
    Ok((routes, inbox))
}

/// Answers the records of the input, and writes the replies.
///
/// Ends well where the input held whole records and no more. Refused for memory, it has read nothing. It ends at the
/// first read or write that fails: the records handled are made, the last one's reply perhaps unsent. Any other fault
/// comes after the replies of the records before. A sane world stays sane.
pub fn replay<R: Read, W: Write, S: Store>(
    alloc: Global,
    desk: &mut Desk<S>,
    reader: &mut Counted<R>,
    writer: &mut Counted<W>,
) -> Result<(), ReplayFault>
    ensures replayed { IsReplayed S.content (line R.remaining W.contents reader.old writer.old) (kept_by desk.old)
        (line R.remaining W.contents reader.new writer.new) (kept_by desk.new) result }
    ensures sane { SaneThen Sane (S.content (kept_by desk.old)) (S.content (kept_by desk.new)) }
    ensures unique { SaneThen HasUniqueSolutions (S.content (kept_by desk.old)) (S.content (kept_by desk.new)) }
    ensures right { SaneThen RightAnswersAreSolutions (S.content (kept_by desk.old)) (S.content (kept_by desk.new)) }
{
    desk.at_rest();
    let (routes, inbox) = routes_and_inbox(alloc)?;
    answer_records(alloc, &routes, inbox, desk, reader, writer)
}

/// Answers the records of the input, and writes the replies, with an empty inbox.
fn answer_records<R: Read, W: Write, S: Store>(
    alloc: Global,
    routes: &Routes,
    mut inbox: Inbox,
    desk: &mut Desk<S>,
    reader: &mut Counted<R>,
    writer: &mut Counted<W>,
) -> Result<(), ReplayFault>
    requires { inbox ≡ [] }
    ensures { IsReplayed S.content (line R.remaining W.contents reader.old writer.old) (kept_by desk.old)
        (line R.remaining W.contents reader.new writer.new) (kept_by desk.new) result }
{
    desk.at_rest();
    let mut reads = 0;
    'records: loop {
        match cut_record(inbox.unread()) {
            RecordCut::Whole { moment, start, end } => {
                let answer = answer_bytes(alloc, routes, desk, moment, &inbox.unread()[start..end]);
                desk.at_rest();
                inbox.pass(end);
                match send(writer, answer) {
                    Ok(()) => {}
                    Err(_) => return Err(ReplayFault::Device),
                }
            }
            RecordCut::More => {
                if reads == READ_LIMIT {
                    return Err(ReplayFault::Record);
                }
                reads += 1;
                match inbox.read_more(reader) {
                    Ok(true) => {}
                    Ok(false) => return end_of_input(inbox.unread()),
                    Err(ReadFault::Device) => return Err(ReplayFault::Device),
                    Err(ReadFault::Memory) => unreachable!(),
                }
            }
            RecordCut::Never => return Err(ReplayFault::Record),
        }
    }
}

/// How a replay ends at the end of its input, with these bytes left.
fn end_of_input(unread: &[u8]) -> Result<(), ReplayFault>
    ensures { MatchResult result (λ _. unread.now ≡ []) (λ e. (e ≡ ReplayFault.Record) × (0 < length unread.now)) }
{
    if unread.is_empty() {
        Ok(())
    } else {
        Err(ReplayFault::Record)
    }
}

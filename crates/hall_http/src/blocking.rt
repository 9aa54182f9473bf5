//! One connection over a reader and a writer that wait.
ghost use Rattle.std.specs.Prelude.{◌≡◌, ◌≤◌, [], length, IfOk, OnOk, OnErr};
ghost use Rattle.std.specs.Io.KnownBytes.{Consumes};
ghost use Rattle.hall_grid.specs.Device.{Rises};
ghost use Rattle.hall_desk.specs.Desk.{kept_by, SaneThen};
ghost use Rattle.hall_desk.specs.Sane.{Sane};
ghost use Rattle.hall_desk.specs.Promises.{HasUniqueSolutions, RightAnswersAreSolutions};
ghost use Rattle.hall_http.specs.Limits.{most_reads};
ghost use Rattle.hall_http.specs.Feeding.{IsFed};
ghost use Rattle.hall_http.specs.Served.{IsHandled, IsServed, line};

use crate::connection::{Clock, Connection, ServeEnd, State};
use crate::device::write_parts;
use crate::fault::DeviceFault;
use crate::inbox::Inbox;
use crate::responder::Responder;
use crate::routes::Routes;
use crate::session::routes_and_inbox;
use hall_desk::Desk;
use hall_grid::Counted;
use hall_store::Store;
use std::alloc::{AllocError, Global};
use std::io::{Read, Write};

/// The most bytes of one read.
const CHUNK_SIZE: usize = 4096;

/// Serves one connection: reads its requests, answers each in turn, and writes the replies.
///
/// Refused for memory, it has read nothing. A request is answered before anything more is read, and its reply written
/// once its change is made. Bytes that are no request are answered by the fault of their form, and end the connection.
/// The first read or write that fails ends it too, and none is tried again.
pub fn serve<S: Store, R: Read, W: Write, C: Clock>(
    alloc: Global,
    desk: &mut Desk<S>,
    reader: &mut Counted<R>,
    writer: &mut Counted<W>,
    clock: &mut C,
) -> Result<ServeEnd, AllocError>
    ensures desk { OnErr result (desk.new ≡ desk.old) }
    ensures clock { OnErr result (clock.new ≡ clock.old) }
    ensures reader { OnErr result (reader.new ≡ reader.old) }
    ensures writer { OnErr result (writer.new ≡ writer.old) }
    ensures served { IfOk result (IsServed S.content C.now_gives
        (line R.remaining W.contents reader.old writer.old) (kept_by desk.old, clock.old)
        (line R.remaining W.contents reader.new writer.new) (kept_by desk.new, clock.new)) }
    ensures sane { SaneThen Sane (S.content (kept_by desk.old)) (S.content (kept_by desk.new)) }
    ensures unique { SaneThen HasUniqueSolutions (S.content (kept_by desk.old)) (S.content (kept_by desk.new)) }
    ensures right { SaneThen RightAnswersAreSolutions (S.content (kept_by desk.old)) (S.content (kept_by desk.new)) }
{
    let (routes, inbox) = routes_and_inbox(alloc)?;
    Ok(serve_with(alloc, &routes, inbox, desk, reader, writer, clock))
}

/// Serves one connection as `serve` does, with these routes and the room of this inbox.
fn serve_with<S: Store, R: Read, W: Write, C: Clock>(
    alloc: Global,
    routes: &Routes,
    inbox: Inbox,
    desk: &mut Desk<S>,
    reader: &mut Counted<R>,
    writer: &mut Counted<W>,
    clock: &mut C,
) -> ServeEnd
    ensures served { IsServed S.content C.now_gives
        (line R.remaining W.contents reader.old writer.old) (kept_by desk.old, clock.old)
        (line R.remaining W.contents reader.new writer.new) (kept_by desk.new, clock.new) result }
    ensures sane { SaneThen Sane (S.content (kept_by desk.old)) (S.content (kept_by desk.new)) }
    ensures unique { SaneThen HasUniqueSolutions (S.content (kept_by desk.old)) (S.content (kept_by desk.new)) }
    ensures right { SaneThen RightAnswersAreSolutions (S.content (kept_by desk.old)) (S.content (kept_by desk.new)) }
{
    desk.at_rest();
    serve_requests(alloc, routes, inbox, desk, reader, writer, clock)
}

/// Answers the requests of a connection, in their order.
fn serve_requests<H: Responder, R: Read, W: Write, C: Clock>(
    alloc: Global,
    routes: &Routes,
    inbox: Inbox,
    responder: &mut H,
    reader: &mut Counted<R>,
    writer: &mut Counted<W>,
    clock: &mut C,
) -> ServeEnd
    ensures { IsHandled H.answers C.now_gives
        (line R.remaining W.contents reader.old writer.old) (responder.old, clock.old)
        (line R.remaining W.contents reader.new writer.new) (responder.new, clock.new) result }
{
    let mut connection = Connection::new(inbox);
    loop {
        match connection.state() {
            State::Looking => {
                let _goes_on = connection.look(alloc, routes, responder, clock);
            }
            State::Reading => match feed(&mut connection, reader) {
                Ok(()) => {}
                Err(_) => return ServeEnd::Device,
            },
            State::Writing(_) => match write_parts(writer, connection.pending()) {
                Ok(()) => connection.sent_all(),
                Err(_) => return ServeEnd::Device,
            },
            State::Ended(end) => return end,
        }
    }
}

/// Reads once, and has the connection hear what came.
fn feed<R: Read>(connection: &mut Connection, reader: &mut Counted<R>) -> Result<(), DeviceFault>
    requires room { length connection.old.inbox ≤ 77824 }
    requires few { connection.old.reads ≤ most_reads }
    ensures fed { OnOk result (IsFed (R.remaining reader.old.device) (R.remaining reader.new.device)
        reader.old.failures reader.new.failures connection.old connection.new) }
    ensures asked { Rises reader.old.calls reader.new.calls }
    ensures same { OnErr result (connection.new ≡ connection.old) }
    ensures taken { OnErr result (Consumes (R.remaining reader.old.device) (R.remaining reader.new.device) []) }
    ensures failed { OnErr result (Rises reader.old.failures reader.new.failures) }
{
    let mut chunk = [0u8; CHUNK_SIZE];
    match reader.read(&mut chunk) {
        Ok(0) => connection.end_input(),
        Ok(count) => connection.hear(&chunk[..count]),
        Err(_) => return Err(DeviceFault),
    }
    Ok(())
}

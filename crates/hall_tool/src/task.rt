//! What a command does with a hall, whichever store keeps it.
ghost use Rattle.std.specs.Prelude.{◌≡◌};
ghost use Rattle.hall_tool.specs.Tasks.{command_end, serve_end};

use crate::fault::{CommandFault, ToolFault};
use crate::init::init_run;
use crate::replay::replay_run;
use crate::table::table_run;
use hall_desk::Desk;
use hall_grid::Counted;
use hall_http::{Host, ServeAllEnd, none_came, serve_all};
use hall_store::Store;
use std::alloc::Global;
use std::io::{Read, Write};

/// What is done with a hall, on a machine.
pub trait Task<N> {
    ghost use Rattle.std.specs.Prelude.{ℕ, Result};
    ghost use Rattle.hall_desk.specs.Desk.{kept_by};
    ghost use Rattle.hall_tool.specs.Machine.{Kinds, OnHost, kinds, on_host, streams};
    ghost use Rattle.hall_tool.specs.declared.fault.CommandFault.{CommandFault};

    /// Over stores, readers and writers of these kinds, it leads from one machine, store, reader and writer to another,
    /// and ends so.
    ghost does: { {S R W : Type 0} → Kinds S R W → Self → OnHost N S R W → OnHost N S R W → Result ℕ CommandFault
        → Type 0 };

    /// Does it with the hall that the desk keeps, and gives the exit status.
    fn run<S: Store, R: Read, W: Write>(
        &self,
        alloc: Global,
        host: &mut N,
        desk: &mut Desk<S>,
        reader: &mut Counted<R>,
        writer: &mut Counted<W>,
    ) -> Result<u8, CommandFault>
        ensures { does (kinds S.content (streams R.remaining W.contents)) self.now
            (on_host host.old (kept_by desk.old) reader.old writer.old)
            (on_host host.new (kept_by desk.new) reader.new writer.new) result };
}

/// How a command ends where what it does ended so.
pub fn command_end(ended: Result<u8, ToolFault>) -> Result<u8, CommandFault>
    ensures { result ≡ command_end ended }
{
    match ended {
        Ok(status) => Ok(status),
        Err(fault) => Err(CommandFault::Tool(fault)),
    }
}

/// How serving ends where the connections ended so.
fn serve_end(end: ServeAllEnd) -> Result<u8, CommandFault>
    ensures { result ≡ serve_end end }
{
    match end {
        ServeAllEnd::Served => Ok(0),
        ServeAllEnd::Refused => Err(CommandFault::Client),
        ServeAllEnd::Shut => Err(CommandFault::Tool(ToolFault::Store)),
    }
}

/// Imports the people of an entry list.
#[derive(Clone, Copy)]
pub struct Init<'a> {
    pub list: &'a [u8],
}

impl<N> Task<N> for Init<'_> {
    ghost use Rattle.hall_tool.specs.Tasks.{DoesInit};

    ghost does = { λ k task. DoesInit k task.list.now };

    fn run<S: Store, R: Read, W: Write>(
        &self,
        alloc: Global,
        _host: &mut N,
        desk: &mut Desk<S>,
        _reader: &mut Counted<R>,
        writer: &mut Counted<W>,
    ) -> Result<u8, CommandFault> {
        command_end(init_run(alloc, desk, self.list, writer))
    }
}

/// Writes the table of the round of this name.
#[derive(Clone, Copy)]
pub struct Table<'a> {
    pub round: &'a [u8],
}

impl<N> Task<N> for Table<'_> {
    ghost use Rattle.hall_tool.specs.Tasks.{DoesTable};

    ghost does = { λ k task. DoesTable k task.round.now };

    fn run<S: Store, R: Read, W: Write>(
        &self,
        alloc: Global,
        _host: &mut N,
        desk: &mut Desk<S>,
        _reader: &mut Counted<R>,
        writer: &mut Counted<W>,
    ) -> Result<u8, CommandFault> {
        command_end(table_run(alloc, desk, self.round, writer))
    }
}

/// Answers the records of the input, once the people of an entry list are imported.
#[derive(Clone, Copy)]
pub struct Replay<'a> {
    pub list: &'a [u8],
}

impl<N> Task<N> for Replay<'_> {
    ghost use Rattle.hall_tool.specs.Tasks.{DoesReplay};

    ghost does = { λ k task. DoesReplay k task.list.now };

    fn run<S: Store, R: Read, W: Write>(
        &self,
        alloc: Global,
        _host: &mut N,
        desk: &mut Desk<S>,
        reader: &mut Counted<R>,
        writer: &mut Counted<W>,
    ) -> Result<u8, CommandFault> {
        command_end(replay_run(alloc, desk, self.list, reader, writer))
    }
}

/// Serves so many connections on the host's port, however each ends, and tells before the first that the hall in the
/// file at the path is served, and how many people and rounds it knows.
#[derive(Clone, Copy)]
pub struct Serve<'a> {
    pub path: &'a str,
    pub port: u64,
    pub connections: u64,
}

impl<H: Host> Task<H> for Serve<'_> {
    ghost use Rattle.hall_tool.specs.Machine.{host_of};
    ghost use Rattle.hall_tool.specs.Tasks.{DoesServe, service};

    ghost does = { λ k task.
        DoesServe (host_of H.Host H.Sockets.Sockets H.Sockets.Peer.Peer H.Clock.Clock) k.content
        (service task.path.now task.port task.connections) };

    fn run<S: Store, R: Read, W: Write>(
        &self,
        alloc: Global,
        host: &mut H,
        desk: &mut Desk<S>,
        _reader: &mut Counted<R>,
        _writer: &mut Counted<W>,
    ) -> Result<u8, CommandFault> {
        let Ok(mut sockets) = host.listen(self.port, self.connections) else {
            return Err(CommandFault::Port);
        };
        // Where people and rounds can't be counted, the hall is served all the same.
        host.tell(self.port, self.path, desk.census(alloc).ok());
        let mut clock = host.clock();
        let Ok((end, gone)) = serve_all(alloc, desk, &mut sockets, &mut clock) else {
            host.end(sockets, none_came());
            return Err(CommandFault::Tool(ToolFault::Memory));
        };
        host.end(sockets, gone);
        serve_end(end)
    }
}

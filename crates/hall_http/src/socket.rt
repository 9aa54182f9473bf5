//! A socket, as the other side of a connection.
ghost use Rattle.std.specs.Prelude.{◌≡◌, length};
ghost use Rattle.hall_http.specs.Peer.{IsUntouched};
ghost use Rattle.hall_http.specs.Socket.{traffic_of};

use crate::outgoing::Outgoing;
use crate::peer::{Call, Moved, Peer};
use crate::places::HeardLog;
use http_server::Log;
use mio::net::TcpStream;
use std::io::{ErrorKind, Read, Write};
use std::net::Shutdown;

/// A socket, what was read of it and written to it, and the places of those that were handed out before it.
#[derive(Drop)]
pub struct Socket {
    stream: TcpStream,
    before: Log<usize, HeardLog>,
    reads: Log<[u8; 4096], usize>,
    writes: Log<Outgoing, (usize, usize)>,
    /// A read told that no more comes.
    is_over: bool,
    /// A write told that no more goes.
    is_broken: bool,
    /// It was told that no more is sent.
    is_hung_up: bool,
    /// All reads and writes, and what each told.
    calls: Log<Call, Moved>,
}

impl Socket {
    /// One that nothing was read of, after these.
    pub fn new(stream: TcpStream, before: Log<usize, HeardLog>) -> Socket
        ensures number { (traffic_of result).number ≡ length before.items }
        ensures untouched { IsUntouched (traffic_of result) }
    {
        Socket {
            stream,
            before,
            reads: Log::new(),
            writes: Log::new(),
            is_over: false,
            is_broken: false,
            is_hung_up: false,
            calls: Log::new(),
        }
    }
}

impl Peer for Socket {
    ghost traffic = { traffic_of };

    fn receive(&mut self, chunk: &mut [u8; 4096]) -> Moved {
        let told = match (&self.stream).read(chunk.as_mut_slice()) {
            Ok(count) if count > 0 => {
                self.reads = self.reads.and(chunk, &count);
                Moved::Some(count)
            }
            Err(error) if error.kind() == ErrorKind::WouldBlock => Moved::Wait,
            _ => {
                self.is_over = true;
                Moved::None
            }
        };
        self.calls = self.calls.and(&Call::Receive, &told);
        told
    }

    fn send(&mut self, bytes: &Outgoing, from: usize) -> Moved {
        let told = match (&self.stream).write(bytes.from(from)) {
            Ok(count) if count > 0 => {
                self.writes = self.writes.and(bytes, &(from, count));
                Moved::Some(count)
            }
            Err(error) if error.kind() == ErrorKind::WouldBlock => Moved::Wait,
            _ => {
                self.is_broken = true;
                Moved::None
            }
        };
        self.calls = self.calls.and(&Call::Send, &told);
        told
    }

    fn end_sending(&mut self) {
        let _shut = self.stream.shutdown(Shutdown::Write);
        self.is_hung_up = true;
    }
}

//! The machine that a hall is served on.
ghost use Rattle.std.specs.Prelude.{◌≡◌, ℕ, List, Option, IfOk, None, OnErr};
ghost use Rattle.hall_desk.specs.declared.census.Census.{Census};
ghost use Rattle.hall_http.specs.Coming.{AreAllHeard};
ghost use Rattle.hall_http.specs.Crowd.{Past};
ghost use Rattle.hall_http.specs.Clock.{read_by, told_by};
ghost use Rattle.hall_http.specs.Host.{TellsNothing, ListensOn, ended, told_on, uncalled};
ghost use Rattle.std.specs.Prelude.{[], ◌∷◌, ◌++◌};
ghost use Rattle.hall_http.specs.Notice.{IsNotified};

use crate::clients::Gone;
use crate::clock::SystemClock;
use crate::connection::Clock;
use crate::event_loop::EventLoop;
use crate::notice::notify;
use crate::server::Sockets;
use crate::socket::Socket;
use hall_desk::Census;
use hall_grid::Counted;
use http_server::Log;
use std::io::{ErrorKind, Write};
use std::net::{Ipv4Addr, Net, SocketAddr, SocketAddrV4};
use std::{io, time};

/// A machine that a hall can be served on.
pub trait Host {
    type Sockets: Sockets + Drop;

    type Clock: Clock + Drop;

    /// Asked to listen on the port for so many connections, it hands out these sockets.
    ghost listens: { Self → ℕ → ℕ → Self.Sockets → Self → Type 0 };

    /// Asked to listen on the port, it refuses.
    ghost refuses: { Self → ℕ → Self → Type 0 };

    /// It was told that the hall in the file at the path, which knows so many people and rounds, is served on the port.
    ghost tells: { Self → ℕ → List ℕ → Option Census → Self → Type 0 };

    ghost shows: { Self → Self.Clock → Type 0 };

    /// It was told of the connections that came to these sockets.
    ghost ends: { Self → Self.Sockets → List (Past Self.Sockets.Peer) → Self → Type 0 };

    /// Listens on the port for so many connections, of clients of this machine alone. The sockets have heard of each
    /// turn that they gave.
    fn listen(&mut self, port: u64, connections: u64) -> io::Result<Self::Sockets>
        ensures heard { IfOk result (λ sockets. AreAllHeard (Self.Sockets.said sockets)) }
        ensures listening { IfOk result (λ sockets. listens self.old port connections sockets self.new) }
        ensures refused { OnErr result (refuses self.old port self.new) };

    /// Tells whoever runs the machine that the hall in the file at the path is served on the port, and how many people
    /// and rounds it knows, where they were counted.
    fn tell(&mut self, port: u64, path: &str, census: Option<Census>)
        ensures { tells self.old port path.now census self.new };

    /// The machine's clock.
    fn clock(&self) -> Self::Clock
        ensures { shows self.now result };

    /// Takes the sockets back, and the connections that came.
    fn end(&mut self, sockets: Self::Sockets, gone: Gone<<Self::Sockets as Sockets>::Peer>)
        ensures { ends self.old sockets gone.items self.new };
}

/// The machine that the program runs on, and where it tells what it has to tell.
#[derive(Drop)]
pub struct SystemHost<'r, N, E> {
    rt: &'r N,
    error: Counted<E>,
    journal: Option<Counted<E>>,
    ended: Log<Gone<Socket>, EventLoop<'r, N, E>>,
}

impl<'r, N, E> SystemHost<'r, N, E> {
    /// The machine that the runtime has, which tells there; and in the journal what befalls the first sockets that it
    /// hands out.
    pub fn new(rt: &'r N, error: E, journal: E) -> SystemHost<'r, N, E>
        ensures { told_on result ≡ uncalled error }
    {
        SystemHost {
            rt,
            error: Counted::new(error),
            journal: Some(Counted::new(journal)),
            ended: Log::new(),
        }
    }
}

// What its sockets bind and what its clock reads is the system's.
impl<'r, N: Net + AllocGlobal + time::Clock, E: Write + Drop> Host for SystemHost<'r, N, E> {
    type Sockets = EventLoop<'r, N, E>;

    type Clock = SystemClock<&'r N>;

    ghost listens = { λ old port connections sockets new. TellsNothing old new × ListensOn port connections sockets };

    ghost refuses = { λ old port new. TellsNothing old new };

    ghost tells = { λ old port path census new.
        IsNotified E.contents port path census (told_on old) (told_on new) × (ended new ≡ ended old) };

    ghost shows = { λ host clock. (read_by clock ≡ host.rt) × (told_by clock ≡ None) };

    ghost ends = { λ old sockets gone new.
        (told_on new ≡ told_on old) × (ended new ≡ ended old ++ (gone, sockets) ∷ []) };

    fn listen(&mut self, port: u64, connections: u64) -> io::Result<EventLoop<'r, N, E>> {
        let Ok(port) = u16::try_from(port) else {
            return Err(io::Error::from(ErrorKind::InvalidInput));
        };
        let address = SocketAddrV4::new(Ipv4Addr::new(127, 0, 0, 1), port);
        let journal = self.journal.take();
        EventLoop::new(self.rt, SocketAddr::V4(address), connections, journal)
    }

    fn tell(&mut self, port: u64, path: &str, census: Option<Census>) {
        notify(self.rt.alloc(), port, path, census, &mut self.error)
    }

    fn clock(&self) -> SystemClock<&'r N> {
        SystemClock::new(self.rt)
    }

    fn end(&mut self, sockets: EventLoop<'r, N, E>, gone: Gone<Socket>)
        ensures { (told_on self.new ≡ told_on self.old)
            × (ended self.new ≡ ended self.old ++ (gone.items, sockets.entry) ∷ []) }
    {
        self.ended = self.ended.and(&gone, &sockets);
    }
}

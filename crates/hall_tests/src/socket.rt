//! Connections over sockets.
ghost use Rattle.std.specs.Prelude.{◌≡◌, [], ◌∷◌, ◌++◌, map};
ghost use Rattle.hall_http.specs.Coming.{logged};
ghost use Rattle.hall_http.specs.EventLoop.{said_by};
ghost use Rattle.hall_tests.specs.Brief.{AgreeInTurns};

use crate::opening::opening_desk;
use hall_desk::Desk;
use hall_http::{
    Clock, EventLoop, Host, Next, Socket, Sockets, Step, SystemClock, SystemHost, serve_all,
};
use hall_policy::Moment;
use hall_store::Store;
use http_server::Log;
use std::io;
use std::io::{Stderr, Write};
use std::net::{Ipv4Addr, Shutdown, SocketAddr, TcpStream};
use std::test::Fail;

/// What is heard of a turn, beside whether a connection has gone.
type Heard = Log<((usize, Step), Option<Option<Moment>>), bool>;

/// What was heard, and this too.
fn with_heard(
    heard: &Heard,
    place: usize,
    step: Step,
    held: &Option<Option<Moment>>,
    has_gone: bool,
) -> Heard
    ensures { result.items ≡ heard.now.items ++ (((place, step), held.now), has_gone) ∷ [] }
{
    heard.and(&((place, step), *held), &has_gone)
}

/// Sockets that let none in, and give none a turn, once a connection has gone.
#[derive(Drop)]
struct Brief<'r> {
    inner: EventLoop<'r, HostRuntime, Stderr>,
    has_gone: bool,
    nexts: Log<Next<Socket>, bool>,
    heard: Heard,
    ghost same: { AgreeInTurns (logged nexts) (map (λ one. one.0) heard.items) (said_by inner) },
}

impl<'r> Sockets for Brief<'r> {
    type Peer = Socket;

    ghost is_over = { λ _. Unit {0} };

    ghost is_fair = { λ _. Unit {0} };

    ghost said = { λ sockets. record {
      nexts = logged sockets.nexts;
      count = (said_by sockets.inner).count;
      most = (said_by sockets.inner).most;
      heard = map (λ one. one.0) sockets.heard.items;
    } };

    fn next(&mut self) -> Next<Socket> {
        let next = if self.has_gone {
            Next::Refused
        } else {
            self.inner.next()
        };
        self.has_gone = self.has_gone || matches!(&next, Next::Gone(_));
        self.nexts = self.nexts.and(&next, &self.has_gone);
        next
    }

    fn stands(&mut self, place: usize, step: Step, held: Option<Option<Moment>>) {
        self.has_gone = matches!(step, Step::Over);
        self.heard = with_heard(&self.heard, place, step, &held, self.has_gone);
        self.inner.stands(place, step, held);
    }

    fn answered(&mut self, place: usize) {
        self.inner.answered(place);
    }

    fn hear_of_writes(&mut self, refuses_writes: bool) {
        self.inner.hear_of_writes(refuses_writes);
    }
}

/// Clients of the sockets that send these bytes. All but the last never end what they send.
fn connect_all(
    rt: &HostRuntime,
    sockets: &EventLoop<'_, HostRuntime, Stderr>,
    clients: &[&[u8]],
) -> io::Result<Vec<TcpStream>> {
    let mut connected = Vec::new(rt.alloc());
    for sent in clients {
        let mut client = TcpStream::connect(rt, sockets.local_addr()?)?;
        client.write_all(sent)?;
        connected.push(client)?;
    }
    if let Some(last) = connected.last() {
        last.shutdown(Shutdown::Write)?;
    }
    Ok(connected)
}

/// Serves over these sockets, of which nothing was heard yet, until a connection has gone.
fn serve_briefly<S: Store>(rt: &HostRuntime, desk: &mut Desk<S>, mut brief: Brief<'_>)
    requires nexts { brief.nexts.items ≡ [] }
    requires heard { brief.heard.items ≡ [] }
{
    let mut clock = SystemClock::new(rt);
    let ended = serve_all(rt.alloc(), desk, &mut brief, &mut clock);
    drop(ended);
}

/// What the last of them is sent.
fn sent_to_last(rt: &HostRuntime, mut clients: Vec<TcpStream>) -> io::Result<String> {
    match clients.pop() {
        Some(last) => io::read_to_string(rt.alloc(), last),
        None => Ok(String::new(rt.alloc())),
    }
}

/// What the last of the clients is answered, which send these bytes.
fn last_answered<S: Store>(
    rt: &HostRuntime,
    desk: &mut Desk<S>,
    clients: &[&[u8]],
) -> io::Result<String> {
    let address = SocketAddr::from((Ipv4Addr::LOCALHOST, 0));
    let brief = Brief {
        inner: EventLoop::new(rt, address, 100, None)?,
        has_gone: false,
        nexts: Log::new(),
        heard: Log::new(),
    };
    match connect_all(rt, &brief.inner, clients) {
        Ok(connected) => {
            serve_briefly(rt, desk, brief);
            sent_to_last(rt, connected)
        }
        Err(error) => Err(error),
    }
}

#[test]
fn the_last_reply_reaches_a_client_that_sends_more(rt: HostRuntime) -> Result<(), Fail> {
    let mut sent = Vec::new(rt.alloc());
    sent.extend_from_slice(b"GET /nothing HTTP/1.1\r\n\r\nno request\r\n\r\n")?;
    sent.resize(60_000, b'x')?;
    let mut desk = opening_desk(&rt);
    let text = last_answered(&rt, &mut desk, &[sent.as_slice()]);
    desk.into_store();
    let text = text?;
    assert!(rt; text.as_str().starts_with("HTTP/1.1 404 Not Found"));
    assert!(rt; text.as_str().ends_with("{\"form\":\"F7\"}"));
    Ok(())
}

#[test]
fn clients_that_stall_keep_no_other_out(rt: HostRuntime) -> Result<(), Fail> {
    let request = b"GET /nothing HTTP/1.1\r\n\r\n".as_slice();
    let mut desk = opening_desk(&rt);
    let text = last_answered(&rt, &mut desk, &[b"", &request[..9], request, request]);
    desk.into_store();
    let text = text?;
    assert!(rt; text.as_str().starts_with("HTTP/1.1 404 Not Found"));
    Ok(())
}

#[test]
fn the_systems_clock_tells_seconds_of_this_century(rt: HostRuntime) {
    let Some(now) = SystemClock::new(&rt).now() else {
        assert!(rt; false);
        return;
    };
    assert!(rt; now.get() > 1_700_000_000);
}

#[test]
fn the_systems_host_listens_for_this_machine_alone(rt: HostRuntime) -> Result<(), Fail> {
    let mut host = SystemHost::new(&rt, rt.stderr(), rt.stderr());
    let listener = host.listen(0, 1)?;
    assert!(rt; listener.local_addr()?.ip().is_loopback());
    assert!(rt; host.listen(65_536, 1).is_err());
    assert!(rt; host.clock().now().is_some());
    Ok(())
}

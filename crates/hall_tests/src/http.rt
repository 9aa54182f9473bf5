//! Bytes to bytes: replays, and connections.
use crate::devices::{endless_reader, failing_reader, failing_writer};
use crate::opening::opening_desk;
use hall_grid::Counted;
use hall_http::{Clock, ReplayFault, ServeEnd, replay, serve};
use hall_policy::Moment;
use std::alloc::AllocGlobal;
use std::io;
use std::io::{ErrorKind, Read, Write};
use std::net::{Net, Shutdown, TcpListener, TcpStream};
use std::process::Abort;
use std::test::Fail;

pub(crate) const NO_ROUTE: &[u8] = b"\
    HTTP/1.1 404 Not Found\r\n\
    Content-Type: application/json\r\n\
    Content-Length: 13\r\n\r\n\
    {\"form\":\"F6\"}";

pub(crate) const NOT_WHOLE: &[u8] = b"\
    HTTP/1.1 400 Bad Request\r\n\
    Content-Type: application/json\r\n\
    Content-Length: 13\r\n\r\n\
    {\"form\":\"F7\"}";

/// Replays over the opening world.
fn replayed<R: Read, W: Write>(
    rt: &(impl AllocGlobal + Abort),
    reader: &mut Counted<R>,
    writer: &mut Counted<W>,
) -> Result<(), ReplayFault> {
    let mut desk = opening_desk(rt);
    let ended = replay(rt.alloc(), &mut desk, reader, writer);
    desk.into_store();
    ended
}

/// Records that certify the puzzle of round r1, release it, read it too early and answer it.
const RECORDS: &[u8] = b"\
    @1777700000 103\n\
    POST /puzzles/bob/p1/certificate HTTP/1.1\r\n\
    Hall-Key: bob-key-1\r\n\
    Content-Length: 17\r\n\r\n\
    {\"budget\":200000}\
    @1777700000 56\n\
    POST /rounds/r1/release HTTP/1.1\r\n\
    Hall-Key: dora-key\r\n\r\n\
    @1777712399 48\n\
    GET /rounds/r1 HTTP/1.1\r\n\
    Hall-Key: eve-key-1\r\n\r\n\
    @1777715999 110\n\
    PUT /rounds/r1/answers/1/k1 HTTP/1.1\r\n\
    Hall-Key: eve-key-1\r\n\
    Content-Length: 29\r\n\r\n\
    {\"answer\":\"1234341221434321\"}";

const REPLIES: &[u8] = b"\
    HTTP/1.1 200 OK\r\n\
    Content-Type: application/json\r\n\
    Content-Length: 15\r\n\r\n\
    {\"state\":\"one\"}\
    HTTP/1.1 200 OK\r\n\
    Content-Type: application/json\r\n\
    Content-Length: 17\r\n\r\n\
    {\"released\":\"r1\"}\
    HTTP/1.1 403 Forbidden\r\n\
    Content-Type: application/json\r\n\
    Content-Length: 12\r\n\r\n\
    {\"denied\":7}\
    HTTP/1.1 200 OK\r\n\
    Content-Type: application/json\r\n\
    Content-Length: 32\r\n\r\n\
    {\"received\":1,\"verdict\":\"right\"}";

#[test]
fn a_replay_ends_at_a_device_fault(rt: HostRuntime) {
    for fails_at in 0..RECORDS.len() + 1 {
        let mut reader = failing_reader(RECORDS, fails_at, ErrorKind::Interrupted);
        let mut writer = Counted::new(Vec::new(rt.alloc()));
        let ended = replayed(&rt, &mut reader, &mut writer);
        assert!(rt; ended == Err(ReplayFault::Device));
        assert!(rt; REPLIES.starts_with(writer.into_inner().as_slice()));
    }
    for fails_at in 0..REPLIES.len() {
        let mut writer = failing_writer(fails_at, fails_at % 2 == 0);
        let ended = replayed(&rt, &mut Counted::new(RECORDS), &mut writer);
        assert!(rt; ended == Err(ReplayFault::Device));
        assert!(rt; writer.into_inner().asked == fails_at + 1);
    }
}

/// The requests of the records.
const CERTIFY: &[u8] = b"\
    POST /puzzles/bob/p1/certificate HTTP/1.1\r\n\
    Hall-Key: bob-key-1\r\n\
    Content-Length: 17\r\n\r\n\
    {\"budget\":200000}";

const RELEASE: &[u8] = b"POST /rounds/r1/release HTTP/1.1\r\nHall-Key: dora-key\r\n\r\n";

const READ: &[u8] = b"GET /rounds/r1 HTTP/1.1\r\nHall-Key: eve-key-1\r\n\r\n";

const HAND_IN: &[u8] = b"\
    PUT /rounds/r1/answers/1/k1 HTTP/1.1\r\n\
    Hall-Key: eve-key-1\r\n\
    Content-Length: 29\r\n\r\n\
    {\"answer\":\"1234341221434321\"}";

/// A clock that tells its moments in turn, the last one from then on, and counts how often it is asked.
#[derive(Drop)]
pub(crate) struct Telling<'a> {
    moments: &'a [u64],
    pub(crate) asked: u64,
}

impl Clock for Telling<'_> {
    ghost now_gives = { λ _ _ _. Unit {0} };

    fn now(&mut self) -> Option<Moment> {
        self.asked = self.asked.wrapping_add(1);
        let [first, rest @ ..] = self.moments else {
            return None;
        };
        if !rest.is_empty() {
            self.moments = rest;
        }
        Moment::new(*first)
    }
}

/// No moment.
const NONE: u64 = u64::MAX;

pub(crate) const REQUEST: &[u8] = b"GET /nothing HTTP/1.1\r\n\r\n";

pub(crate) const NO_SERVICE: &[u8] = b"\
    HTTP/1.1 503 Service Unavailable\r\n\
    Content-Type: application/json\r\n\
    Content-Length: 16\r\n\r\n\
    {\"fault\":\"hall\"}";

pub(crate) const CLOSING: &[u8] = b"GET /nothing HTTP/1.1\r\nConnection: CLOSE\r\n\r\n";

/// What the clock tells, what a client sends, the replies that it gets, and how the connection ends.
pub(crate) type Served = (
    &'static [u64],
    &'static [&'static [u8]],
    &'static [&'static [u8]],
    ServeEnd,
);

pub(crate) const SERVED: [Served; 16] = [
    (&[1], &[], &[], ServeEnd::Closed),
    (&[1], &[REQUEST], &[NO_ROUTE], ServeEnd::Closed),
    (
        &[1],
        &[REQUEST, REQUEST],
        &[NO_ROUTE, NO_ROUTE],
        ServeEnd::Closed,
    ),
    (
        &[NONE, 1],
        &[REQUEST, REQUEST],
        &[NO_SERVICE, NO_ROUTE],
        ServeEnd::Closed,
    ),
    (
        &[1_777_700_000, 1_777_700_000, 1_777_712_399, 1_777_715_999],
        &[CERTIFY, RELEASE, READ, HAND_IN],
        &[REPLIES],
        ServeEnd::Closed,
    ),
    (
        &[1],
        &[REQUEST, b"GET /noth"],
        &[NO_ROUTE, NOT_WHOLE],
        ServeEnd::BadHead,
    ),
    (
        &[1],
        &[b"GET /nothing HTTP/1.0\r\n\r\n", REQUEST],
        &[NO_ROUTE],
        ServeEnd::Closed,
    ),
    (&[1], &[CLOSING, REQUEST], &[NO_ROUTE], ServeEnd::Closed),
    (
        &[1],
        &[
            b"GET /nothing HTTP/1.1\r\nConnection: close, x\r\n\r\n",
            REQUEST,
        ],
        &[NO_ROUTE, NO_ROUTE],
        ServeEnd::Closed,
    ),
    (
        &[1],
        &[
            b"POST /nothing HTTP/1.1\r\nContent-Length: 3\r\n\r\nabc",
            REQUEST,
        ],
        &[NO_ROUTE, NO_ROUTE],
        ServeEnd::Closed,
    ),
    (
        &[1],
        &[
            b"POST /nothing HTTP/1.1\r\nContent-Length: 00005\r\n\r\n12345",
            REQUEST,
        ],
        &[NO_ROUTE, NO_ROUTE],
        ServeEnd::Closed,
    ),
    (
        &[1],
        &[
            b"POST /nothing HTTP/1.1\r\nContent-Length: 000005\r\n\r\n12345",
            REQUEST,
        ],
        &[NOT_WHOLE],
        ServeEnd::BadHead,
    ),
    (
        &[1],
        &[
            b"POST /nothing HTTP/1.1\r\nContent-Length: 5\r\nContent-Length: 5\r\n\r\n12345",
            REQUEST,
        ],
        &[NOT_WHOLE],
        ServeEnd::BadHead,
    ),
    (
        &[1],
        &[
            b"POST /nothing HTTP/1.1\r\nTransfer-Encoding: chunked\r\n\r\n0\r\n\r\n",
            REQUEST,
        ],
        &[NOT_WHOLE],
        ServeEnd::BadHead,
    ),
    (
        &[1],
        &[
            b"GET /nothing HTTP/1.1\r\nHall-Key: eve-key-1\r\nHall-Key: eve-key-1\r\n\r\n",
            REQUEST,
        ],
        &[NOT_WHOLE],
        ServeEnd::BadHead,
    ),
    (&[1], &[b"\0", REQUEST], &[NOT_WHOLE], ServeEnd::BadHead),
];

pub(crate) fn joined(rt: &(impl AllocGlobal + Abort), parts: &[&[u8]]) -> Vec<u8> {
    let mut bytes = Vec::new(rt.alloc());
    for part in parts {
        bytes.extend_from_slice(part).expect(rt, "memory");
    }
    bytes
}

/// Serves one connection over the opening world.
fn served<R: Read, W: Write>(
    rt: &(impl AllocGlobal + Abort),
    reader: &mut Counted<R>,
    writer: &mut Counted<W>,
    clock: &mut Telling<'_>,
) -> ServeEnd {
    let mut desk = opening_desk(rt);
    let ended = serve(rt.alloc(), &mut desk, reader, writer, clock);
    desk.into_store();
    ended.expect(rt, "serve")
}

pub(crate) fn clock(moments: &[u64]) -> Telling<'_> {
    Telling { moments, asked: 0 }
}

#[test]
fn a_connection_is_served_to_its_end(rt: HostRuntime) {
    for (place, (moments, sent, replies, end)) in SERVED.iter().enumerate() {
        let sent = joined(&rt, sent);
        let replies = joined(&rt, replies);
        let mut writer = Counted::new(Vec::new(rt.alloc()));
        let ended = served(
            &rt,
            &mut Counted::new(sent.as_slice()),
            &mut writer,
            &mut clock(moments),
        );
        assert!(rt; ended == *end, "connection {place}");
        assert!(rt; writer.into_inner() == replies, "connection {place}");
        // The same a byte at a time: the reader fails once all are given.
        let mut dripping = failing_reader(
            sent.as_slice(),
            sent.len().wrapping_add(1),
            ErrorKind::Other,
        );
        let mut writer = Counted::new(Vec::new(rt.alloc()));
        let ended = served(&rt, &mut dripping, &mut writer, &mut clock(moments));
        assert!(rt; ended == *end, "connection {place}");
        assert!(rt; writer.into_inner() == replies, "connection {place}");
    }
}

/// How many plain requests come, what follows them, and how the connection ends after a thousand replies.
pub(crate) const THOUSANDS: [(u64, &[u8], ServeEnd); 4] = [
    (1001, b"", ServeEnd::Limit),
    (1000, b"", ServeEnd::Limit),
    (1000, b"\0", ServeEnd::Limit),
    (999, CLOSING, ServeEnd::Closed),
];

#[test]
fn a_connection_ends_after_a_thousand_requests(rt: HostRuntime) {
    for (place, (count, rest, end)) in THOUSANDS.iter().enumerate() {
        let mut sent = Vec::new(rt.alloc());
        for _ in 0..*count {
            sent.extend_from_slice(REQUEST).expect(&rt, "memory");
        }
        sent.extend_from_slice(rest).expect(&rt, "memory");
        let mut clock = clock(&[1]);
        let mut writer = Counted::new(Vec::new(rt.alloc()));
        let mut reader = Counted::new(sent.as_slice());
        let ended = served(&rt, &mut reader, &mut writer, &mut clock);
        assert!(rt; ended == *end && clock.asked == 1000, "connection {place}");
        let written = writer.into_inner().len();
        assert!(rt;
            written == NO_ROUTE.len().wrapping_mul(1000),
            "connection {place}"
        );
    }
}

/// A request whose head has so many bytes.
pub(crate) fn long_head(rt: &(impl AllocGlobal + Abort), size: usize) -> Vec<u8> {
    let mut head = joined(rt, &[b"GET /nothing HTTP/1.1\r\nA: "]);
    head.resize(size.saturating_sub(4), b'x')
        .expect(rt, "memory");
    head.extend_from_slice(b"\r\n\r\n").expect(rt, "memory");
    head
}

#[test]
fn a_connection_ends_after_a_hundred_thousand_reads(rt: HostRuntime) {
    let head = long_head(&rt, 8192);
    let mut reader = endless_reader(head.as_slice());
    let mut writer = Counted::new(Vec::new(rt.alloc()));
    let mut clock = clock(&[1]);
    let ended = served(&rt, &mut reader, &mut writer, &mut clock);
    assert!(rt; ended == ServeEnd::Limit && clock.asked == 12);
    assert!(rt; reader.calls() == 100_000);
    assert!(rt; reader.into_inner().asked == 100_000);
    assert!(rt; writer.into_inner().len() == NO_ROUTE.len().wrapping_mul(12));
}

#[test]
fn a_clock_without_a_moment_is_asked_once_and_gives_503(rt: HostRuntime) {
    let mut clock = clock(&[NONE]);
    let mut writer = Counted::new(Vec::new(rt.alloc()));
    let ended = served(&rt, &mut Counted::new(REQUEST), &mut writer, &mut clock);
    assert!(rt; ended == ServeEnd::Closed && clock.asked == 1);
    assert!(rt; writer.into_inner().as_slice() == NO_SERVICE);
}

#[test]
fn a_connection_ends_at_a_device_fault(rt: HostRuntime) {
    for fails_at in 0..REQUEST.len() {
        let mut reader = failing_reader(REQUEST, fails_at, ErrorKind::Interrupted);
        let mut writer = Counted::new(Vec::new(rt.alloc()));
        let ended = served(&rt, &mut reader, &mut writer, &mut clock(&[1]));
        assert!(rt; ended == ServeEnd::Device && writer.into_inner().is_empty());
    }
    // What came whole is answered, and after a request that closes nothing is read.
    for (request, end) in [(REQUEST, ServeEnd::Device), (CLOSING, ServeEnd::Closed)] {
        let mut reader = failing_reader(request, request.len(), ErrorKind::Interrupted);
        let mut writer = Counted::new(Vec::new(rt.alloc()));
        let ended = served(&rt, &mut reader, &mut writer, &mut clock(&[1]));
        assert!(rt; ended == end && writer.into_inner().as_slice() == NO_ROUTE);
    }
    for fails_at in 0..NO_ROUTE.len() {
        let mut writer = failing_writer(fails_at, fails_at % 2 == 0);
        let ended = served(
            &rt,
            &mut Counted::new(REQUEST),
            &mut writer,
            &mut clock(&[1]),
        );
        assert!(rt; ended == ServeEnd::Device);
        assert!(rt; writer.into_inner().asked == fails_at + 1);
    }
}

#[test]
fn a_connection_over_a_socket(rt: HostRuntime) -> Result<(), Fail> {
    let listener = TcpListener::bind(&rt, "127.0.0.1:0")?;
    let mut client = TcpStream::connect(&rt, listener.local_addr()?)?;
    client.write_all(REQUEST)?;
    client.write_all(
        b"GET /rounds/r1 HTTP/1.1\r\nHall-Key: dora-key\r\nConnection: close\r\n\r\n",
    )?;
    client.shutdown(Shutdown::Write)?;
    let (stream, _) = listener.accept()?;
    let mut reader = Counted::new(&stream);
    let mut writer = Counted::new(&stream);
    let ended = served(&rt, &mut reader, &mut writer, &mut clock(&[1]));
    assert!(rt; ended == ServeEnd::Closed);
    drop(reader);
    drop(writer);
    drop(stream);
    let text = io::read_to_string(rt.alloc(), client)?;
    assert!(rt;
        text.as_bytes().starts_with(NO_ROUTE) && text.as_str().ends_with("\"title\":\"Morning\"}")
    );
    Ok(())
}

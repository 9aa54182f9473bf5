//! Many connections at once, of clients in memory.
use crate::http::{
    CLOSING, NO_ROUTE, NO_SERVICE, NOT_WHOLE, REQUEST, SERVED, THOUSANDS, clock, joined, long_head,
};
use crate::opening::opening_desk;
use crate::peers::{After, Coming, Listed, Manner, PLAIN, Seen};
use hall_desk::Desk;
use hall_http::{Clock, ServeAllEnd, serve_all};
use hall_policy::Moment;
use hall_store::{MapStore, Store};
use std::alloc::AllocGlobal;
use std::process::Abort;
use test_harness::LimitedStore;

/// More turns than the clients of a test need.
const MANY: u64 = 1_000_000;

/// So many clients that saw nothing yet.
fn unseen(rt: &(impl AllocGlobal + Abort), count: usize) -> Vec<Seen> {
    let mut all = Vec::new(rt.alloc());
    for _ in 0..count {
        all.push(Seen::new(rt.alloc())).expect(rt, "memory");
    }
    all
}

/// The item at the place.
fn at<'a, T>(rt: &impl Abort, items: &'a [T], place: usize) -> &'a T {
    items.get(place).expect(rt, "place")
}

/// Serves these clients over the desk, for so many turns at most; how that ends.
fn serve_listed<S: Store, C: Clock>(
    rt: &(impl AllocGlobal + Abort),
    desk: &mut Desk<S>,
    clock: &mut C,
    coming: Vec<Coming<'_>>,
    turns: u64,
    is_stubborn: bool,
) -> ServeAllEnd {
    let mut listed = Listed::new(rt.alloc(), coming, turns, is_stubborn);
    let served = serve_all(rt.alloc(), desk, &mut listed, clock);
    served.expect(rt, "memory").0
}

/// Serves these clients over the opening world, for so many turns at most; how often the clock was asked.
fn serve_clients(
    rt: &(impl AllocGlobal + Abort),
    clients: &[Coming<'_>],
    turns: u64,
    is_stubborn: bool,
) -> u64 {
    let mut coming = Vec::new(rt.alloc());
    for client in clients {
        coming.push(*client).expect(rt, "memory");
    }
    let mut desk = opening_desk(rt);
    let mut clock = clock(&[1]);
    let end = serve_listed(rt, &mut desk, &mut clock, coming, turns, is_stubborn);
    desk.into_store();
    assert!(rt; matches!(end, ServeAllEnd::Served));
    clock.asked
}

/// All at once, a byte at a call, and each call the second time.
const MANNERS: [Manner; 4] = [
    PLAIN,
    Manner { most: 1, ..PLAIN },
    Manner {
        stalls: true,
        ..PLAIN
    },
    Manner {
        most: 7,
        stalls: true,
        ..PLAIN
    },
];

/// Whether a clock tells the one moment for ever.
fn is_plain(moments: &[u64]) -> bool {
    matches!(moments, [1])
}

/// The connections of the table whose clock tells the one moment are served at once.
fn sees_each_reply(rt: &(impl AllocGlobal + Abort), manner: Manner, is_stubborn: bool) {
    let seen = unseen(rt, SERVED.len());
    let mut sent = Vec::new(rt.alloc());
    for (_, parts, _, _) in &SERVED {
        sent.push(joined(rt, parts)).expect(rt, "memory");
    }
    let mut coming = Vec::new(rt.alloc());
    for (place, (moments, _, _, _)) in SERVED.iter().enumerate() {
        if is_plain(moments) {
            let client = Coming {
                sent: at(rt, sent.as_slice(), place).as_slice(),
                manner,
                seen: at(rt, seen.as_slice(), place),
            };
            coming.push(client).expect(rt, "memory");
        }
    }
    serve_clients(rt, coming.as_slice(), MANY, is_stubborn);
    for (place, (moments, _, replies, _)) in SERVED.iter().enumerate() {
        if is_plain(moments) {
            let replies = joined(rt, replies);
            let saw = at(rt, seen.as_slice(), place);
            assert!(rt; saw.is_sent(replies.as_slice()), "connection {place}");
            assert!(rt; saw.ends.get() == 1, "connection {place}");
        }
    }
}

#[test]
fn each_connection_is_sent_its_own_replies(rt: HostRuntime) {
    for manner in &MANNERS {
        sees_each_reply(&rt, *manner, false);
        sees_each_reply(&rt, *manner, true);
    }
}

#[test]
fn each_connection_ends_after_a_thousand_requests(rt: HostRuntime) {
    let seen = unseen(&rt, THOUSANDS.len());
    let mut sent = Vec::new(rt.alloc());
    for (count, rest, _) in &THOUSANDS {
        let mut bytes = Vec::new(rt.alloc());
        for _ in 0..*count {
            bytes.extend_from_slice(REQUEST).expect(&rt, "memory");
        }
        bytes.extend_from_slice(rest).expect(&rt, "memory");
        sent.push(bytes).expect(&rt, "memory");
    }
    let mut coming = Vec::new(rt.alloc());
    for (bytes, seen) in sent.iter().zip(seen.iter()) {
        let client = Coming {
            sent: bytes.as_slice(),
            manner: PLAIN,
            seen,
        };
        coming.push(client).expect(&rt, "memory");
    }
    let asked = serve_clients(&rt, coming.as_slice(), MANY, false);
    assert!(rt; asked == 4000);
    for (place, seen) in seen.iter().enumerate() {
        assert!(rt;
            seen.count() == NO_ROUTE.len().wrapping_mul(1000),
            "connection {place}"
        );
        assert!(rt; seen.ends.get() == 1, "connection {place}");
    }
}

#[test]
fn an_endless_connection_ends_after_a_hundred_thousand_reads(rt: HostRuntime) {
    let head = long_head(&rt, 8192);
    let seen = Seen::new(rt.alloc());
    let endless = Coming {
        sent: head.as_slice(),
        manner: Manner {
            most: 1,
            after: After::Again,
            ..PLAIN
        },
        seen: &seen,
    };
    let asked = serve_clients(&rt, &[endless], MANY, false);
    assert!(rt; asked == 12);
    assert!(rt; seen.reads_before_end.get() == 100_000);
    assert!(rt; seen.count() == NO_ROUTE.len().wrapping_mul(12));
}

#[test]
fn a_connection_is_hung_up_and_what_still_comes_is_read_off(rt: HostRuntime) {
    let seen = Seen::new(rt.alloc());
    let endless = Coming {
        sent: CLOSING,
        manner: Manner {
            most: 1,
            after: After::Again,
            ..PLAIN
        },
        seen: &seen,
    };
    let asked = serve_clients(&rt, &[endless], 1000, false);
    assert!(rt; asked == 1 && seen.is_sent(NO_ROUTE));
    assert!(rt; seen.reads_before_end.get() == CLOSING.len());
    assert!(rt; seen.reads.get() > CLOSING.len() && seen.ends.get() == 1);
}

#[test]
fn a_connection_whose_client_breaks_off_leaves_the_others(rt: HostRuntime) {
    for takes in 0..NO_ROUTE.len() {
        let seen = unseen(&rt, 3);
        let breaks = Manner { takes, ..PLAIN };
        let mut coming = Vec::new(rt.alloc());
        for (seen, manner) in seen.iter().zip([PLAIN, breaks, PLAIN]) {
            let client = Coming {
                sent: REQUEST,
                manner,
                seen,
            };
            coming.push(client).expect(&rt, "memory");
        }
        let asked = serve_clients(&rt, coming.as_slice(), MANY, false);
        assert!(rt; asked == 3, "{takes} bytes");
        let (first, last) = (at(&rt, seen.as_slice(), 0), at(&rt, seen.as_slice(), 2));
        let broken = at(&rt, seen.as_slice(), 1);
        assert!(rt; broken.is_sent(&NO_ROUTE[..takes]), "{takes} bytes");
        assert!(rt;
            first.is_sent(NO_ROUTE) && last.is_sent(NO_ROUTE),
            "{takes} bytes"
        );
    }
}

/// A clock that tells no moment any more once one of these was sent something.
#[derive(Drop)]
struct Unsent<'a> {
    seen: &'a [Seen],
}

impl Clock for Unsent<'_> {
    ghost now_gives = { λ _ _ _. Unit {0} };

    fn now(&mut self) -> Option<Moment> {
        for seen in self.seen {
            if seen.count() > 0 {
                return None;
            }
        }
        Moment::new(1)
    }
}

#[test]
fn a_moment_is_told_before_any_of_those_that_are_held_is_answered(rt: HostRuntime) {
    let seen = unseen(&rt, 3);
    let mut coming = Vec::new(rt.alloc());
    for seen in seen.iter() {
        let client = Coming {
            sent: REQUEST,
            manner: PLAIN,
            seen,
        };
        coming.push(client).expect(&rt, "memory");
    }
    let mut desk = opening_desk(&rt);
    let mut clock = Unsent {
        seen: seen.as_slice(),
    };
    let end = serve_listed(&rt, &mut desk, &mut clock, coming, MANY, false);
    desk.into_store();
    assert!(rt; matches!(end, ServeAllEnd::Served));
    for seen in seen.iter() {
        assert!(rt; seen.is_sent(NO_ROUTE));
    }
}

/// What clients send that never end, and what they are sent before they are let go.
const SILENT: [(&[u8], &[u8]); 4] = [
    (b"", b""),
    (b"GET /noth", b""),
    (REQUEST, NO_ROUTE),
    (b"\0", NOT_WHOLE),
];

#[test]
fn clients_that_stall_are_let_go_and_keep_no_other_out(rt: HostRuntime) {
    let seen = unseen(&rt, SILENT.len());
    let mut sent = Vec::new(rt.alloc());
    for (begun, _) in &SILENT {
        let mut bytes = Vec::new(rt.alloc());
        bytes.extend_from_slice(begun).expect(&rt, "memory");
        sent.push(bytes).expect(&rt, "memory");
    }
    let mut coming = Vec::new(rt.alloc());
    for (bytes, seen) in sent.iter().zip(seen.iter()) {
        let client = Coming {
            sent: bytes.as_slice(),
            manner: Manner {
                after: After::Silence,
                ..PLAIN
            },
            seen,
        };
        coming.push(client).expect(&rt, "memory");
    }
    serve_clients(&rt, coming.as_slice(), 100, false);
    for (place, (_, replies)) in SILENT.iter().enumerate() {
        let saw = at(&rt, seen.as_slice(), place);
        assert!(rt; saw.is_sent(replies));
    }
}

/// A request that asks the store once, and the reply where nobody has the key.
const ASKING: &[u8] = b"GET /rounds HTTP/1.1\r\nHall-Key: eve-key-1\r\n\r\n";

const UNKNOWN: &[u8] = b"\
    HTTP/1.1 403 Forbidden\r\n\
    Content-Type: application/json\r\n\
    Content-Length: 12\r\n\r\n\
    {\"denied\":1}";

/// Serves these clients over a store that answers so many calls; how that ends, and how often the clock was asked.
fn serve_limited(
    rt: &(impl AllocGlobal + Abort),
    coming: Vec<Coming<'_>>,
    left: u64,
) -> (ServeAllEnd, u64) {
    let mut empty = MapStore::new(rt.alloc());
    let mut desk = Desk::new(LimitedStore {
        store: &mut empty,
        left,
    });
    let mut clock = clock(&[1]);
    let end = serve_listed(rt, &mut desk, &mut clock, coming, MANY, false);
    desk.into_store();
    (end, clock.asked)
}

#[test]
fn nothing_is_answered_after_a_request_that_left_the_store_shut(rt: HostRuntime) {
    for left in 0..5 {
        let sent = joined(&rt, &[ASKING, ASKING, ASKING]);
        let seen = unseen(&rt, 2);
        let mut coming = Vec::new(rt.alloc());
        for seen in seen.iter() {
            let client = Coming {
                sent: sent.as_slice(),
                manner: PLAIN,
                seen,
            };
            coming.push(client).expect(&rt, "memory");
        }
        let (end, asked) = serve_limited(&rt, coming, left);
        assert!(rt; matches!(end, ServeAllEnd::Shut), "{left} calls");
        // Each of the two has one request held at most, of which the last may not be answered any more.
        let answered = left.wrapping_add(1);
        assert!(rt;
            asked == answered || asked == answered.wrapping_add(1),
            "{left} calls"
        );
        let mut told = NO_SERVICE.len();
        for _ in 0..left {
            told = told.wrapping_add(UNKNOWN.len());
        }
        let mut sent_to_all: usize = 0;
        for seen in seen.iter() {
            sent_to_all = sent_to_all.wrapping_add(seen.count());
        }
        assert!(rt; sent_to_all == told, "{left} calls");
    }
}

/// A puzzle whose search takes many turns.
const PUT_HARD: &[u8] = b"\
    PUT /puzzles/bob/h HTTP/1.1\r\n\
    Hall-Key: bob-key-1\r\n\
    Content-Length: 53\r\n\r\n\
    {\"text\":\"sudoku/9/9/k5g8j6g1g43p1g5n1g6i3m553k61n4o\"}";

const CERTIFY_HARD: &[u8] = b"\
    POST /puzzles/bob/h/certificate HTTP/1.1\r\n\
    Hall-Key: bob-key-1\r\n\
    Content-Length: 15\r\n\r\n\
    {\"budget\":1000}";

const READ_HARD: &[u8] = b"GET /puzzles/bob/h HTTP/1.1\r\nHall-Key: dora-key\r\n\r\n";

/// What is replied to whoever puts the puzzle and certifies it, and to whoever reads it meanwhile.
const GAVE_UP: &[u8] = b"\
    HTTP/1.1 200 OK\r\n\
    Content-Type: application/json\r\n\
    Content-Length: 67\r\n\r\n\
    {\"state\":\"new\",\"text\":\"sudoku/9/9/k5g8j6g1g43p1g5n1g6i3m553k61n4o\"}\
    HTTP/1.1 200 OK\r\n\
    Content-Type: application/json\r\n\
    Content-Length: 19\r\n\r\n\
    {\"state\":\"gave up\"}";

const STILL_NEW: &[u8] = b"\
    HTTP/1.1 200 OK\r\n\
    Content-Type: application/json\r\n\
    Content-Length: 94\r\n\r\n\
    {\"author\":\"bob\",\"label\":\"h\",\"state\":\"new\",\"text\":\"sudoku/9/9/k5g8j6g1g43p1g5n1g6i3m553k61n4o\"}";

#[test]
fn others_are_answered_while_a_puzzle_is_searched(rt: HostRuntime) {
    let hard = joined(&rt, &[PUT_HARD, CERTIFY_HARD]);
    let seen = unseen(&rt, 2);
    let mut coming = Vec::new(rt.alloc());
    // The last one is let in first.
    for (place, sent) in [READ_HARD, hard.as_slice()].iter().enumerate() {
        let client = Coming {
            sent,
            manner: PLAIN,
            seen: at(&rt, seen.as_slice(), place),
        };
        coming.push(client).expect(&rt, "memory");
    }
    let asked = serve_clients(&rt, coming.as_slice(), MANY, false);
    assert!(rt; at(&rt, seen.as_slice(), 0).is_sent(STILL_NEW));
    assert!(rt; at(&rt, seen.as_slice(), 1).is_sent(GAVE_UP));
    assert!(rt; asked == 3);
}

//! Lists of requests by chance: a hall over tables replies as one in maps does, with a cache and without.
use crate::opening::{Asked, answered, number_of, open, request_told, routes};
use crate::tables::{Ask, ask_over, connection};
use hall_http::Answer;
use hall_store::{CachedStore, MapStore, Store};
use std::alloc::AllocGlobal;
use std::process::Abort;

/// Requests that may come, at another moment and perhaps with another key than that of one who may ask it.
const ROWS: &str = "\
0|0|dora-key|POST /people|name,key,roles~hal,hal-key-1,entrant+author~eve,eve-key-1,entrant~
0|0|dora-key|POST /people|name,key,roles~ivy,ivy-key-1,entrant~jan,eve-key-1,entrant~
0|0|dora-key|POST /people|name,key,roles~kim,kim-key-1,judge~
1|0|bob-key-1|PUT /puzzles/bob/p3|{\"text\":\"sudoku/4/4/123434122143432g\"}
1|0|bob-key-1|PUT /puzzles/bob/p3|{\"text\":\"sudoku/4/4/v\"}
1|0|bob-key-1|PUT /puzzles/bob/p1|{\"text\":\"sudoku/4/4/v\"}
1|0|bob-key-1|PUT /puzzles/bob/p2|{\"text\":\"sudoku/4/4/123434122143432g\"}
1|0|ada-key-1|PUT /puzzles/ada/q2|{\"text\":\"sudoku/4/4/123434122143432g\"}
1|0|ada-key-1|PUT /puzzles/bob/p3|{\"text\":\"sudoku/4/4/123434122143432g\"}
1|0|dora-key|PUT /puzzles/zoe/p1|{\"text\":\"sudoku/4/4/123434122143432g\"}
1|0|bob-key-1|PUT /puzzles/bob/p3|{\"text\":\"sudoku/4/4/1\"}
2|0|bob-key-1|GET /puzzles/bob/p3|
2|0|bob-key-1|GET /puzzles/bob/v|
2|0|dora-key|GET /puzzles/ada/q2|
3|0|dora-key|GET /puzzles|
3|0|bob-key-1|GET /puzzles|
4|0|bob-key-1|POST /puzzles/bob/p3/certificate|{\"budget\":200000}
4|0|bob-key-1|POST /puzzles/bob/v/certificate|{\"budget\":200000}
4|0|bob-key-1|POST /puzzles/bob/v/certificate|{\"budget\":1}
4|0|dora-key|POST /puzzles/ada/q2/certificate|{\"budget\":200000}
5|0|dora-key|PUT /rounds/r1|version = 1~title = \"Ten\"~start = \"2026-05-02T10:00:00Z\"~minutes = 20~\
protest_minutes = 5~mode = \"instant\"~penalty = 1~bonus = 1~\
puzzle = [{author = \"bob\", label = \"p2\", points = 10}]~
5|0|dora-key|PUT /rounds/r3|version = 1~title = \"Ten\"~start = \"2026-05-02T10:00:00Z\"~minutes = 20~\
protest_minutes = 5~mode = \"instant\"~penalty = 1~bonus = 1~\
puzzle = [{author = \"bob\", label = \"p2\", points = 10}]~
5|0|dora-key|PUT /rounds/r5|version = 1~title = \"Morning\"~start = \"2026-05-02T09:00:00Z\"~minutes = 60~\
protest_minutes = 30~mode = \"instant\"~penalty = 5~bonus = 2~\
puzzle = [{author = \"bob\", label = \"p1\", points = 40}]~
5|0|dora-key|PUT /rounds/r4|version = 3~title = \"Ten\"~start = \"2026-05-02T10:00:00\"~zone = \"UTC0\"~minutes = 20~\
protest_minutes = 5~mode = \"instant\"~penalty = 1~bonus = 1~testers = [\"rex\", \"eve\"]~\
puzzle = [{author = \"bob\", label = \"p2\", points = 10}]~
5|0|dora-key|PUT /rounds/r5|version = 1~
6|0|dora-key|POST /rounds/r1/release|
6|0|dora-key|POST /rounds/r3/release|
6|0|dora-key|POST /rounds/r4/release|
6|0|dora-key|POST /rounds/r4/release|
6|0|dora-key|POST /rounds/r5/release|
7|0|dora-key|GET /rounds|
7|0|eve-key-1|GET /rounds|
8|0|eve-key-1|GET /rounds/r1|
8|0|ada-key-1|GET /rounds/r2|
8|0|dora-key|GET /rounds/r3|
8|0|fay-key-1|GET /rounds/r4|
9|0|eve-key-1|PUT /rounds/r1/answers/1/k1|{\"answer\":\"1234341221434312\"}
9|0|eve-key-1|PUT /rounds/r1/answers/1/k1|{\"answer\":\"1234341221434321\"}
9|0|eve-key-1|PUT /rounds/r1/answers/1/k2|{\"answer\":\"1234341221434321\"}
9|0|fay-key-1|PUT /rounds/r1/answers/1/a|{\"answer\":\"1234341221434312\"}
9|0|fay-key-1|PUT /rounds/r1/answers/1/b|{\"answer\":\"1234341221434321\"}
9|0|ada-key-1|PUT /rounds/r1/answers/1/k1|{\"answer\":\"1234341221434321\"}
9|0|gil-key-1|PUT /rounds/r1/answers/1/k1|{\"answer\":\"1234341221434312\"}
9|0|eve-key-1|PUT /rounds/r2/answers/1/k1|{\"answer\":\"1234341221434312\"}
9|0|fay-key-1|PUT /rounds/r2/answers/1/a|{\"answer\":\"1234341221434321\"}
9|0|ada-key-1|PUT /rounds/r2/answers/1/k1|{\"answer\":\"1234341221434321\"}
9|0|eve-key-1|PUT /rounds/r4/answers/1/k1|{\"answer\":\"1234341221434321\"}
9|0|eve-key-1|PUT /rounds/r4/answers/2/k1|{\"answer\":\"1234341221434321\"}
9|0|fay-key-1|PUT /rounds/r1/answers/2/k1|{\"answer\":\"1234341221434321\"}
10|0|eve-key-1|GET /rounds/r1/answers|
10|0|dora-key|GET /rounds/r1/answers|
10|0|fay-key-1|GET /rounds/r2/answers|
11|0|eve-key-1|GET /rounds/r1/solutions|
11|0|dora-key|GET /rounds/r2/solutions|
12|0|eve-key-1|PUT /rounds/r1/protests/w1|{\"number\":1,\"text\":\"unclear\"}
12|0|eve-key-1|PUT /rounds/r1/protests/w1|{\"number\":1,\"text\":\"wrong\"}
12|0|fay-key-1|PUT /rounds/r1/protests/w1|{\"number\":1,\"text\":\"unclear\"}
12|0|gil-key-1|PUT /rounds/r1/protests/w2|{\"number\":1,\"text\":\"unclear\"}
12|0|fay-key-1|PUT /rounds/r2/protests/w1|{\"number\":1,\"text\":\"late\"}
13|0|rex-key-1|GET /rounds/r1/protests|
13|0|eve-key-1|GET /rounds/r1/protests|
13|0|dora-key|GET /rounds/r2/protests|
14|0|rex-key-1|PUT /rounds/r1/rulings/eve/w1|{\"points\":-5,\"upheld\":true}
14|0|rex-key-1|PUT /rounds/r1/rulings/eve/w1|{\"points\":0,\"upheld\":false}
14|0|rex-key-1|PUT /rounds/r1/rulings/fay/w1|{\"points\":1000,\"upheld\":true}
14|0|gil-key-1|PUT /rounds/r1/rulings/fay/w1|{\"points\":7,\"upheld\":true}
14|0|gil-key-1|PUT /rounds/r2/rulings/fay/w1|{\"points\":7,\"upheld\":true}
14|0|rex-key-1|PUT /rounds/r1/rulings/eve/w1|{\"points\":5,\"upheld\":false}
15|0|dora-key|POST /rounds/r1/publish|
15|0|dora-key|POST /rounds/r2/publish|
16|0|eve-key-1|GET /rounds/r1/table|
16|0|no-such-key|GET /rounds/r2/table|
2|0|bob-key-1|GET /puzzles/bob|
16|0|dora-key|GET /rounds/r9/table|";

const KEYS: &str = "\
dora-key
ada-key-1
bob-key-1
eve-key-1
fay-key-1
gil-key-1
rex-key-1
no-such-key
short";

/// The moments at which requests come, hour by hour: those at which a round begins, ends or closes, and those before.
const MOMENTS: &str = "\
1 1777712398 1777712399 1777712400
1777712400 1777712460 1777714199 1777714200
1777714200 1777715000 1777715999 1777716000
1777715999 1777716000 1777717199 1777717200
1777717500 1777717799 1777717800 1777719599
1777717800 1777719599 1777719600 4102444800";

/// What each list ends with: a release that is too late, seven protests, rulings of what is open, publications and
/// tables.
const ENDING: &str = "\
1|1777720000|bob-key-1|PUT /puzzles/bob/p4|{\"text\":\"sudoku/4/4/123434122143432g\"}
4|1777720000|bob-key-1|POST /puzzles/bob/p4/certificate|{\"budget\":200000}
5|1777720000|dora-key|PUT /rounds/r6|version = 3~title = \"Alone\"~start = \"2026-05-02T09:00:00\"~zone = \"UTC0\"~\
minutes = 60~protest_minutes = 30~mode = \"instant\"~penalty = 0~bonus = 0~testers = [\"rex\", \"fay\"]~\
puzzle = [{author = \"bob\", label = \"p4\", points = 40}]~
6|1777720000|dora-key|POST /rounds/r6/release|
12|1777716000|gil-key-1|PUT /rounds/r1/protests/w2|{\"number\":1,\"text\":\"unclear\"}
14|1777720000|gil-key-1|PUT /rounds/r1/rulings/gil/w2|{\"points\":9,\"upheld\":true}
14|1777720000|rex-key-1|PUT /rounds/r1/rulings/gil/w2|{\"points\":1,\"upheld\":true}
12|1777716000|eve-key-1|PUT /rounds/r1/protests/w1|{\"number\":1,\"text\":\"unclear\"}
12|1777716000|eve-key-1|PUT /rounds/r1/protests/w2|{\"number\":1,\"text\":\"unclear\"}
12|1777716000|eve-key-1|PUT /rounds/r1/protests/w3|{\"number\":1,\"text\":\"unclear\"}
12|1777716000|eve-key-1|PUT /rounds/r1/protests/w4|{\"number\":1,\"text\":\"unclear\"}
12|1777716000|eve-key-1|PUT /rounds/r1/protests/w5|{\"number\":1,\"text\":\"unclear\"}
12|1777716000|eve-key-1|PUT /rounds/r1/protests/w6|{\"number\":1,\"text\":\"unclear\"}
15|1777720000|dora-key|POST /rounds/r1/publish|
14|1777720000|rex-key-1|PUT /rounds/r1/rulings/eve/w1|{\"points\":3,\"upheld\":true}
14|1777720000|rex-key-1|PUT /rounds/r1/rulings/eve/w2|{\"points\":0,\"upheld\":false}
14|1777720000|rex-key-1|PUT /rounds/r1/rulings/eve/w3|{\"points\":0,\"upheld\":true}
14|1777720000|rex-key-1|PUT /rounds/r1/rulings/eve/w4|{\"points\":-9,\"upheld\":true}
14|1777720000|rex-key-1|PUT /rounds/r1/rulings/eve/w5|{\"points\":9,\"upheld\":true}
14|1777720000|rex-key-1|PUT /rounds/r1/rulings/fay/w1|{\"points\":0,\"upheld\":false}
14|1777720000|rex-key-1|PUT /rounds/r1/rulings/gil/w2|{\"points\":0,\"upheld\":false}
14|1777720000|rex-key-1|PUT /rounds/r2/rulings/fay/w1|{\"points\":2,\"upheld\":true}
13|1777720000|rex-key-1|GET /rounds/r1/protests|
15|1777720000|dora-key|POST /rounds/r1/publish|
15|1777720000|dora-key|POST /rounds/r2/publish|
16|1777720000|eve-key-1|GET /rounds/r1/table|
16|1777720000|eve-key-1|GET /rounds/r2/table|
10|1777720000|dora-key|GET /rounds/r1/answers|
10|1777720000|dora-key|GET /rounds/r2/answers|
7|1777720000|dora-key|GET /rounds|
3|1777720000|dora-key|GET /puzzles|
9|1777715999|eve-key-1|PUT /rounds/r1/answers/1/k9|{\"answer\":\"1234341221434321\"}";

/// How the replies of each status begin.
const STATUSES: &str = "\
HTTP/1.1 200 OK
HTTP/1.1 400 Bad Request
HTTP/1.1 403 Forbidden
HTTP/1.1 404 Not Found";

/// How the reply ends that denies by a rule, in the order of their numbers.
const DENIALS: &str = "\
{\"denied\":1}
{\"denied\":2}
{\"denied\":3}
{\"denied\":4}
{\"denied\":5}
{\"denied\":6}
{\"denied\":7}
{\"denied\":8}
{\"denied\":9}
{\"denied\":10}
{\"denied\":11}
{\"denied\":12}
{\"denied\":13}
{\"denied\":14}
{\"denied\":15}
{\"denied\":16}
{\"denied\":17}
{\"denied\":18}
{\"denied\":19}
{\"denied\":20}";

/// The lines of a table.
fn lines_of(rt: &(impl AllocGlobal + Abort), table: &'static str) -> Vec<&'static str> {
    table.lines().collect(rt.alloc()).expect(rt, "memory")
}

/// The one of a list that a number tells, which goes on to the next number.
fn pick(rt: &impl Abort, seed: &mut u64, list: &[&'static str]) -> &'static str {
    *seed = seed
        .wrapping_mul(6_364_136_223_846_793_005)
        .wrapping_add(1_442_695_040_888_963_407);
    let count = list.len() as u64;
    assert!(rt; count != 0);
    let place = (*seed >> 33) % count;
    list.get(place as usize).expect(rt, "row")
}

/// The tables from which a list is picked.
#[derive(Drop)]
struct Tables {
    rows: Vec<&'static str>,
    keys: Vec<&'static str>,
}

/// One request by chance: three times of four with the key of one who may ask it.
fn pick_request(
    rt: &impl Abort,
    tables: &Tables,
    seed: &mut u64,
    moments: &[&'static str],
) -> Asked<'static> {
    let mut request = request_told(rt, pick(rt, seed, tables.rows.as_slice()));
    if pick(rt, seed, &["usual", "usual", "usual", "any"]) == "any" {
        request.key = pick(rt, seed, tables.keys.as_slice());
    }
    request.moment = number_of(rt, pick(rt, seed, moments));
    request
}

/// Adds thirty requests of an hour.
fn add_hour(
    rt: &(impl AllocGlobal + Abort),
    list: &mut Vec<Asked<'static>>,
    tables: &Tables,
    seed: &mut u64,
    moments: &'static str,
) {
    let moments: Vec<&'static str> = moments.split(' ').collect(rt.alloc()).expect(rt, "memory");
    for _ in 0..30 {
        let request = pick_request(rt, tables, seed, moments.as_slice());
        list.push(request).expect(rt, "memory");
    }
}

/// The list that a seed tells, and then the ending.
fn list_of(rt: &(impl AllocGlobal + Abort), seed: u64) -> Vec<Asked<'static>> {
    let tables = Tables {
        rows: lines_of(rt, ROWS),
        keys: lines_of(rt, KEYS),
    };
    let mut seed = seed;
    let mut list = Vec::new(rt.alloc());
    for moments in MOMENTS.lines() {
        add_hour(rt, &mut list, &tables, &mut seed, moments);
    }
    for row in ENDING.lines() {
        list.push(request_told(rt, row)).expect(rt, "memory");
    }
    list
}

/// A list, and what a hall over a store that held nothing replies to it.
#[derive(Drop)]
struct Replies<'a> {
    list: &'a [Asked<'static>],
    replies: Vec<Answer>,
}

impl Ask for Replies<'_> {
    fn ask<S: Store, R: AllocGlobal + Abort>(&mut self, rt: &R, store: S) {
        let routes = routes(rt);
        let mut desk = open(rt, &routes, store);
        for asked in self.list {
            let reply = answered(rt, &routes, &mut desk, asked);
            self.replies.push(reply).expect(rt, "memory");
        }
        desk.into_store();
    }
}

/// The same behind a cache.
#[derive(Drop)]
struct Cached<'a> {
    replies: Replies<'a>,
}

impl Ask for Cached<'_> {
    fn ask<S: Store, R: AllocGlobal + Abort>(&mut self, rt: &R, store: S) {
        self.replies.ask(rt, CachedStore::new(rt.alloc(), store));
    }
}

fn no_replies<'a>(rt: &(impl AllocGlobal + Abort), list: &'a [Asked<'static>]) -> Replies<'a> {
    Replies {
        list,
        replies: Vec::new(rt.alloc()),
    }
}

/// Asks it of a hall in new tables.
fn ask_tables<A: Ask>(rt: &(impl AllocGlobal + Abort), ask: &mut A) {
    let is_asked = ask_over(rt, connection(rt, &[]), ask);
    assert!(rt; is_asked, "tables");
}

/// Sees that the replies to the list are the wanted ones.
fn see_same(rt: &impl Abort, list: &[Asked<'static>], wanted: &[Answer], found: &[Answer]) {
    assert!(rt; wanted.len() == list.len() && found.len() == list.len());
    for (asked, (one, other)) in list.iter().zip(wanted.iter().zip(found)) {
        let (front, rest) = one.parts();
        let (other_front, other_rest) = other.parts();
        let is_same = front == other_front && rest == other_rest;
        assert!(rt;
            is_same,
            "{} of {} at {}",
            asked.line, asked.key, asked.moment
        );
    }
}

/// What was seen, one bit each: the actions that were done, the statuses, and the rules that denied.
#[derive(Clone, Copy)]
struct Seen {
    done: u64,
    statuses: u64,
    denials: u64,
}

/// The set with the place in it.
fn with(set: u64, place: u64) -> u64 {
    set | (1 << (place % 64))
}

/// Notes a reply to a request of the action.
fn note(seen: &mut Seen, action: u64, reply: &[u8]) {
    for (place, status) in STATUSES.lines().enumerate() {
        if reply.starts_with(status.as_bytes()) {
            seen.statuses = with(seen.statuses, place as u64);
        }
    }
    for (place, denial) in DENIALS.lines().enumerate() {
        if reply.ends_with(denial.as_bytes()) {
            seen.denials = with(seen.denials, place as u64);
        }
    }
    if reply.starts_with(b"HTTP/1.1 200 OK") {
        seen.done = with(seen.done, action);
    }
}

/// Asks all halls the list that the seed tells, and sees that they reply the same.
fn ask_list(rt: &(impl AllocGlobal + Abort), seen: &mut Seen, seed: u64) {
    let list = list_of(rt, seed);
    let mut wanted = no_replies(rt, list.as_slice());
    wanted.ask(rt, MapStore::new(rt.alloc()));
    let mut found = no_replies(rt, list.as_slice());
    ask_tables(rt, &mut found);
    see_same(rt, list.as_slice(), &wanted.replies, &found.replies);
    let mut cached = Cached {
        replies: no_replies(rt, list.as_slice()),
    };
    ask_tables(rt, &mut cached);
    see_same(
        rt,
        list.as_slice(),
        &wanted.replies,
        &cached.replies.replies,
    );
    for (asked, reply) in list.iter().zip(wanted.replies.iter()) {
        note(seen, asked.action, reply.parts().0);
    }
}

#[test]
fn lists_of_requests_get_the_same_replies_from_all_stores(rt: HostRuntime) {
    let mut seen = Seen {
        done: 0,
        statuses: 0,
        denials: 0,
    };
    for seed in 1..4 {
        ask_list(&rt, &mut seen, seed);
    }
    // Each of the 17 actions was done, each of the 4 statuses came, and each of the 20 rules denied.
    assert!(rt; seen.done == 0x1_ffff, "actions {:b}", seen.done);
    assert!(rt; seen.statuses == 0xf, "statuses {:b}", seen.statuses);
    assert!(rt; seen.denials == 0xf_ffff, "denials {:b}", seen.denials);
}

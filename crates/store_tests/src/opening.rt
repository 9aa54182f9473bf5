//! Requests to a hall over any store, and the hall that they find.
use hall_desk::{Desk, Reply};
use hall_http::{Answer, Routes, answer_bytes};
use hall_policy::Moment;
use hall_sheet::read_people;
use hall_store::Store;
use std::alloc::AllocGlobal;
use std::process::Abort;
use test_harness::request_text;

/// A request: the number of its action, the moment, the key that is shown, the method and path, and the body, in which
/// `~` ends a line.
#[derive(Clone, Copy)]
pub(crate) struct Asked<'a> {
    pub(crate) action: u64,
    pub(crate) moment: u64,
    pub(crate) key: &'a str,
    pub(crate) line: &'a str,
    body: &'a str,
}

pub(crate) fn number_of(rt: &impl Abort, word: &str) -> u64 {
    word.parse::<u64>().expect(rt, "number")
}

/// The request that a line of a table tells.
pub(crate) fn request_told<'a>(rt: &impl Abort, row: &'a str) -> Asked<'a> {
    let mut cells = row.split('|');
    Asked {
        action: number_of(rt, cells.next().expect(rt, "action")),
        moment: number_of(rt, cells.next().expect(rt, "moment")),
        key: cells.next().expect(rt, "key"),
        line: cells.next().expect(rt, "line"),
        body: cells.next().expect(rt, "body"),
    }
}

/// Gil may both answer and rule.
const PEOPLE: &str = "\
    name,key,roles\n\
    dora,dora-key,director\n\
    ada,ada-key-1,author+entrant\n\
    bob,bob-key-1,author\n\
    eve,eve-key-1,entrant\n\
    fay,fay-key-1,entrant\n\
    gil,gil-key-1,entrant+referee\n\
    rex,rex-key-1,referee\n";

/// Four puzzles are put and three certified; of four rounds two are released. They begin at nine o'clock on 2 May 2026,
/// but r2 at half past nine and r4 at ten; the puzzle of r3 has many solutions.
const OPENING: &str = "\
1|0|bob-key-1|PUT /puzzles/bob/p1|{\"text\":\"sudoku/4/4/123434122143432g\"}
1|0|bob-key-1|PUT /puzzles/bob/p2|{\"text\":\"sudoku/4/4/123434122143g32g\"}
1|0|bob-key-1|PUT /puzzles/bob/v|{\"text\":\"sudoku/4/4/v\"}
1|0|ada-key-1|PUT /puzzles/ada/q1|{\"text\":\"nurikabe/2/2/1i\"}
4|0|bob-key-1|POST /puzzles/bob/p1/certificate|{\"budget\":200000}
4|0|bob-key-1|POST /puzzles/bob/p2/certificate|{\"budget\":200000}
4|0|ada-key-1|POST /puzzles/ada/q1/certificate|{\"budget\":200000}
5|0|dora-key|PUT /rounds/r1|version = 1~title = \"Morning\"~start = \"2026-05-02T09:00:00Z\"~minutes = 60~\
protest_minutes = 30~mode = \"instant\"~penalty = 5~bonus = 2~\
puzzle = [{author = \"bob\", label = \"p1\", points = 40}]~
5|0|dora-key|PUT /rounds/r2|version = 1~title = \"Late\"~start = \"2026-05-02T09:30:00Z\"~minutes = 60~\
protest_minutes = 30~mode = \"sealed\"~penalty = 0~bonus = 0~\
puzzle = [{author = \"ada\", label = \"q1\", points = 30}]~
5|0|dora-key|PUT /rounds/r3|version = 1~title = \"Morning\"~start = \"2026-05-02T09:00:00Z\"~minutes = 60~\
protest_minutes = 30~mode = \"instant\"~penalty = 5~bonus = 2~\
puzzle = [{author = \"bob\", label = \"v\", points = 40}]~
5|0|dora-key|PUT /rounds/r4|version = 1~title = \"Ten\"~start = \"2026-05-02T10:00:00Z\"~minutes = 20~\
protest_minutes = 5~mode = \"instant\"~penalty = 1~bonus = 1~\
puzzle = [{author = \"bob\", label = \"p2\", points = 10}]~
6|0|dora-key|POST /rounds/r1/release|
6|0|dora-key|POST /rounds/r2/release|";

/// What the desk replies.
pub(crate) fn answered<S: Store>(
    rt: &(impl AllocGlobal + Abort),
    routes: &Routes,
    desk: &mut Desk<S>,
    asked: &Asked<'_>,
) -> Answer {
    let body = asked
        .body
        .replace(rt.alloc(), '~', "\n")
        .expect(rt, "memory");
    let text = request_text(rt.alloc(), asked.key, asked.line, body.as_str());
    let moment = Moment::new(asked.moment).expect(rt, "moment");
    let text = text.expect(rt, "memory");
    answer_bytes(rt.alloc(), routes, desk, moment, text.as_bytes())
}

/// Whether the desk does what is asked.
pub(crate) fn is_done<S: Store>(
    rt: &(impl AllocGlobal + Abort),
    routes: &Routes,
    desk: &mut Desk<S>,
    asked: &Asked<'_>,
) -> bool {
    let answer = answered(rt, routes, desk, asked);
    answer.parts().0.starts_with(b"HTTP/1.1 200 OK")
}

pub(crate) fn routes(rt: &(impl AllocGlobal + Abort)) -> Routes {
    Routes::new(rt.alloc()).expect(rt, "memory")
}

/// A desk over a store that held nothing, with the people.
pub(crate) fn seeded<S: Store>(rt: &(impl AllocGlobal + Abort), store: S) -> Desk<S> {
    let mut desk = Desk::new(store);
    let people = read_people(rt.alloc(), PEOPLE.as_bytes()).expect(rt, "people");
    let reply = desk.seed(rt.alloc(), &people);
    assert!(rt; matches!(&reply, Reply::Import(7)));
    desk
}

/// The hall over a store that held nothing.
pub(crate) fn open<S: Store>(
    rt: &(impl AllocGlobal + Abort),
    routes: &Routes,
    store: S,
) -> Desk<S> {
    let mut desk = seeded(rt, store);
    for row in OPENING.lines() {
        assert!(rt;
            is_done(rt, routes, &mut desk, &request_told(rt, row)),
            "{row}"
        );
    }
    desk
}

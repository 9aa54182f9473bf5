//! The world that most tests begin with: six people, a puzzle that nobody certified yet, and two drafts that have it.
use hall_desk::{Desk, Reply};
use hall_http::{Routes, answer_bytes};
use hall_policy::Moment;
use hall_sheet::read_people;
use hall_store::MapStore;
use std::alloc::AllocGlobal;
use std::process::Abort;
use test_harness::request_text;

/// The entry list.
pub(crate) const PEOPLE: &[u8] = b"\
    name,key,roles\n\
    dora,dora-key,director\n\
    ada,ada-key-1,author+entrant\n\
    bob,bob-key-1,author\n\
    eve,eve-key-1,entrant\n\
    fay,fay-key-1,entrant\n\
    rex,rex-key-1,referee\n";

/// From nine o'clock on 2 May 2026.
pub(crate) const MORNING: &str = "\
    version = 1\n\
    title = \"Morning\"\n\
    start = \"2026-05-02T09:00:00Z\"\n\
    minutes = 60\n\
    protest_minutes = 30\n\
    mode = \"instant\"\n\
    penalty = 5\n\
    bonus = 2\n\
    puzzle = [{author = \"bob\", label = \"p1\", points = 40}]\n";

/// What is put: the key that is shown, the method and path, and the body.
const PUTS: [(&str, &str, &str); 3] = [
    (
        "bob-key-1",
        "PUT /puzzles/bob/p1",
        "{\"text\":\"sudoku/4/4/123434122143432g\"}",
    ),
    ("dora-key", "PUT /rounds/r1", MORNING),
    ("dora-key", "PUT /rounds/r2", MORNING),
];

/// Puts what the line and the body say, for who has the key.
pub(crate) fn put(
    rt: &(impl AllocGlobal + Abort),
    routes: &Routes,
    desk: &mut Desk<MapStore>,
    key: &str,
    line: &str,
    body: &str,
) {
    let put = request_text(rt.alloc(), key, line, body).expect(rt, "memory");
    let t = Moment::new(0).expect(rt, "moment");
    let answer = answer_bytes(rt.alloc(), routes, desk, t, put.as_bytes());
    assert!(rt; answer.parts().0.starts_with(b"HTTP/1.1 200 OK"), "{line}");
}

/// A hall in ordered maps.
pub(crate) fn opening_desk(rt: &(impl AllocGlobal + Abort)) -> Desk<MapStore> {
    let mut desk = Desk::new(MapStore::new(rt.alloc()));
    let people = read_people(rt.alloc(), PEOPLE).expect(rt, "people");
    let reply = desk.seed(rt.alloc(), &people);
    drop(people);
    assert!(rt; matches!(&reply, Reply::Import(6)));
    drop(reply);
    let routes = Routes::new(rt.alloc()).expect(rt, "memory");
    for (key, line, body) in &PUTS {
        put(rt, &routes, &mut desk, key, line, body);
    }
    drop(routes);
    desk
}

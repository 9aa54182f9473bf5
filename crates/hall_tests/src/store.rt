//! The cache before a store: as many copies of each kind as it keeps, and one more.
use crate::fixtures::{puzzle_key, text};
use crate::opening::{MORNING, opening_desk, put};
use hall_desk::{Desk, Reply};
use hall_http::Routes;
use hall_sheet::read_people;
use hall_store::{CachedStore, MapStore, ReadStore};
use std::alloc::AllocGlobal;
use std::process::Abort;
use test_harness::LimitedStore;

/// What a cache keeps copies of.
#[derive(Clone, Copy)]
enum Kind {
    Person,
    Puzzle,
    Round,
}

/// Each kind, and how many copies of it are kept at the most.
const KINDS: [(Kind, u64); 3] = [
    (Kind::Person, 5000),
    (Kind::Puzzle, 1000),
    (Kind::Round, 1000),
];

/// The author of the n-th puzzle.
fn author_of(rt: &(impl AllocGlobal + Abort), n: u64) -> String {
    format!(in rt.alloc(); "n{}", n / 500).expect(rt, "memory")
}

/// Adds the people from one number up to another.
fn add_people(rt: &(impl AllocGlobal + Abort), desk: &mut Desk<MapStore>, first: u64, end: u64) {
    let mut list = String::from_str(rt.alloc(), "name,key,roles\n").expect(rt, "memory");
    for n in first..end {
        let line = format!(in rt.alloc(); "n{n},key-of-n{n},author\n").expect(rt, "memory");
        list.push_str(line.as_str()).expect(rt, "memory");
    }
    let people = read_people(rt.alloc(), list.as_bytes()).expect(rt, "people");
    drop(list);
    let reply = desk.seed(rt.alloc(), &people);
    drop(people);
    assert!(rt; matches!(&reply, Reply::Import(_)));
    drop(reply);
}

/// Puts the n-th puzzle and the n-th round.
fn put_next(rt: &(impl AllocGlobal + Abort), routes: &Routes, desk: &mut Desk<MapStore>, n: u64) {
    let author = author_of(rt, n);
    let key = format!(in rt.alloc(); "key-of-{}", author.as_str()).expect(rt, "memory");
    let line = format!(in rt.alloc(); "PUT /puzzles/{}/n{n}", author.as_str()).expect(rt, "memory");
    let text = "{\"text\":\"sudoku/4/4/v\"}";
    put(rt, routes, desk, key.as_str(), line.as_str(), text);
    let line = format!(in rt.alloc(); "PUT /rounds/n{n}").expect(rt, "memory");
    put(rt, routes, desk, "dora-key", line.as_str(), MORNING);
}

/// A hall that has more of each kind than copies of it are kept.
fn full_hall(rt: &(impl AllocGlobal + Abort)) -> MapStore {
    let mut desk = opening_desk(rt);
    add_people(rt, &mut desk, 0, 5000);
    add_people(rt, &mut desk, 5000, 5001);
    let routes = Routes::new(rt.alloc()).expect(rt, "memory");
    for n in 0..1001 {
        put_next(rt, &routes, &mut desk, n);
    }
    desk.into_store()
}

fn is_person_told<S: ReadStore>(
    rt: &(impl AllocGlobal + Abort),
    store: &mut S,
    name: &str,
) -> bool {
    let key = format!(in rt.alloc(); "key-of-{name}").expect(rt, "memory");
    let found = store.person_by_key(rt.alloc(), &text(rt, key.as_str()));
    match &found.expect(rt, "person") {
        Some(person) => person.name.as_str() == name,
        None => false,
    }
}

fn is_puzzle_told<S: ReadStore>(
    rt: &(impl AllocGlobal + Abort),
    store: &mut S,
    author: &str,
    label: &str,
) -> bool {
    let found = store.puzzle(rt.alloc(), &puzzle_key(rt, author, label));
    match &found.expect(rt, "puzzle") {
        Some(row) => row.key.author.as_str() == author && row.key.label.as_str() == label,
        None => false,
    }
}

fn is_round_told<S: ReadStore>(rt: &(impl AllocGlobal + Abort), store: &mut S, id: &str) -> bool {
    let found = store.round(rt.alloc(), &text(rt, id));
    match &found.expect(rt, "round") {
        Some(row) => row.round.id.as_str() == id,
        None => false,
    }
}

/// Asks for the n-th of the kind. Whether it is what is told.
fn is_told<S: ReadStore>(
    rt: &(impl AllocGlobal + Abort),
    store: &mut S,
    kind: Kind,
    n: u64,
) -> bool {
    let name = format!(in rt.alloc(); "n{n}").expect(rt, "memory");
    match kind {
        Kind::Person => is_person_told(rt, store, name.as_str()),
        Kind::Puzzle => is_puzzle_told(rt, store, author_of(rt, n).as_str(), name.as_str()),
        Kind::Round => is_round_told(rt, store, name.as_str()),
    }
}

/// Asks for so many of the kind, and sees that they are told.
fn see_told<S: ReadStore>(rt: &(impl AllocGlobal + Abort), store: &mut S, kind: Kind, count: u64) {
    for n in 0..count {
        let is_told = is_told(rt, store, kind, n);
        assert!(rt; is_told, "{n}");
    }
}

#[test]
fn a_cache_keeps_so_many_copies_of_a_kind_and_forgets_those_of_no_other(rt: HostRuntime) {
    // Of each kind the store is asked for as many as are kept, for one more, and then for all of these once more.
    let mut hall = full_hall(&rt);
    let store = LimitedStore {
        store: &mut hall,
        left: 10_002 + 2002 + 2002,
    };
    let mut cached = CachedStore::new(rt.alloc(), store);
    for (kind, most) in &KINDS {
        see_told(&rt, &mut cached, *kind, *most);
    }
    for (kind, most) in &KINDS {
        see_told(&rt, &mut cached, *kind, *most);
        see_told(&rt, &mut cached, *kind, most.saturating_add(1));
        see_told(&rt, &mut cached, *kind, most.saturating_add(1));
    }
    assert!(rt; cached.into_store().left == 0);
}

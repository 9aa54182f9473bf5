//! Reads by slices of people, over either store: the slices are the whole listing.
use crate::opening::{is_done, open, request_told, routes};
use crate::tables::{Ask, ask_over, connection};
use hall_policy::{AnswerRow, Name, Person, RoundId, Sink, SinkFault};
use hall_store::{JointAnswers, MapStore, PEOPLE_AT_ONCE, ReadStore, Store};
use std::alloc::AllocGlobal;
use std::process::Abort;

/// Answers of four entrants.
const ANSWERS: &str = "\
9|1777712500|fay-key-1|PUT /rounds/r1/answers/1/k1|{\"answer\":\"1234341221434312\"}
9|1777712501|eve-key-1|PUT /rounds/r1/answers/1/k1|{\"answer\":\"1234341221434312\"}
9|1777712502|gil-key-1|PUT /rounds/r1/answers/1/k1|{\"answer\":\"1234341221434321\"}
9|1777712503|ada-key-1|PUT /rounds/r1/answers/1/k1|{\"answer\":\"1234341221434321\"}
9|1777712504|eve-key-1|PUT /rounds/r1/answers/1/k0|{\"answer\":\"1234341221434321\"}";

/// The names with which slices end, but for the last one, and the entrants whose answers each slice has.
const SLICES: &str = "\
eve: ada eve eve | fay gil
a eve eve zoe: | ada eve eve | | fay gil |
dora fay: ada | eve eve fay | gil
-: | ada eve eve fay gil";

fn checked_name(rt: &(impl AllocGlobal + Abort), name: &str) -> Name {
    let name = String::from_str(rt.alloc(), name).expect(rt, "memory");
    Name::new(name).expect(rt, "name")
}

fn add(rt: &impl Abort, text: &mut String, word: &str) {
    if !text.is_empty() {
        text.push_str(" ").expect(rt, "memory");
    }
    text.push_str(word).expect(rt, "memory");
}

/// The answers that a store feeds.
#[derive(Drop)]
struct Fed {
    rows: JointAnswers,
}

impl Sink<AnswerRow> for Fed {
    ghost use Rattle.std.specs.Prelude.{⊤};

    ghost takes = { λ _ _ _. ⊤ };

    ghost refuses = { λ _ _. ⊥ };

    fn take(&mut self, row: &AnswerRow) -> Result<(), SinkFault> {
        let row = row.clone()?;
        self.rows.push(row)?;
        Ok(())
    }
}

/// Adds the entrants of the slice.
fn add_slice<S: ReadStore>(
    rt: &(impl AllocGlobal + Abort),
    text: &mut String,
    store: &mut S,
    after: &Option<Name>,
    last: &Option<Name>,
) {
    let id = RoundId::new(String::from_str(rt.alloc(), "r1").expect(rt, "memory"));
    let mut fed = Fed {
        rows: JointAnswers::new(rt.alloc()),
    };
    let told = store.feed_answers(rt.alloc(), &id.expect(rt, "id"), after, last, &mut fed);
    told.expect(rt, "fed");
    for row in fed.rows.as_slice() {
        add(rt, text, row.key.entrant.as_str());
    }
}

/// The entrants of slices that end with these names, and of the last one.
fn sliced<S: ReadStore>(rt: &(impl AllocGlobal + Abort), store: &mut S, ends: &str) -> String {
    let mut text = String::new(rt.alloc());
    let mut after = None;
    for end in ends.split(' ') {
        let last = Some(checked_name(rt, end));
        add_slice(rt, &mut text, store, &after, &last);
        add(rt, &mut text, "|");
        after = last;
    }
    add_slice(rt, &mut text, store, &after, &None);
    text
}

fn see_answers<S: ReadStore>(rt: &(impl AllocGlobal + Abort), store: &mut S) {
    for row in SLICES.lines() {
        let (ends, wanted) = row.split_once(": ").expect(rt, "row");
        let found = sliced(rt, store, ends);
        assert!(rt; found.as_str() == wanted, "{row}");
    }
    let mut whole = String::new(rt.alloc());
    add_slice(rt, &mut whole, store, &None, &None);
    assert!(rt; whole.as_str() == "ada eve eve fay gil");
}

fn add_names(rt: &impl Abort, text: &mut String, people: &[Person]) {
    for person in people {
        add(rt, text, person.name.as_str());
    }
}

/// The names of all people, read some at once, and in how many reads.
fn names_read<S: ReadStore>(rt: &(impl AllocGlobal + Abort), store: &mut S) -> (String, u64) {
    let mut text = String::new(rt.alloc());
    let mut after = None;
    for reads in 1..100 {
        let people = store.people_after(rt.alloc(), &after).expect(rt, "people");
        add_names(rt, &mut text, people.as_slice());
        if people.len() < PEOPLE_AT_ONCE {
            return (text, reads);
        }
        let last = people.as_slice().last().expect(rt, "last");
        after = Some(checked_name(rt, last.name.as_str()));
    }
    (text, 100)
}

/// A request to add 400 people to the seven.
fn people_row(rt: &(impl AllocGlobal + Abort)) -> String {
    let begun = String::from_str(rt.alloc(), "0|0|dora-key|POST /people|name,key,roles~");
    let mut row = begun.expect(rt, "memory");
    for number in 100..500 {
        let line = format!(in rt.alloc(); "p{number},key-of-p{number},entrant~");
        let line = line.expect(rt, "memory");
        row.push_str(line.as_str()).expect(rt, "memory");
    }
    row
}

fn see_people<S: ReadStore>(rt: &(impl AllocGlobal + Abort), store: &mut S) {
    let (names, reads) = names_read(rt, store);
    let mut whole = String::new(rt.alloc());
    let people = store.people(rt.alloc()).expect(rt, "people");
    add_names(rt, &mut whole, people.as_slice());
    assert!(rt; names.as_str() == whole.as_str() && reads == 3);
}

/// Slices of a hall.
#[derive(Drop)]
struct Slices {}

impl Ask for Slices {
    fn ask<S: Store, R: AllocGlobal + Abort>(&mut self, rt: &R, store: S) {
        let routes = routes(rt);
        let mut desk = open(rt, &routes, store);
        for row in ANSWERS.lines() {
            assert!(rt;
                is_done(rt, &routes, &mut desk, &request_told(rt, row)),
                "{row}"
            );
        }
        let row = people_row(rt);
        let asked = request_told(rt, row.as_str());
        assert!(rt; is_done(rt, &routes, &mut desk, &asked), "people");
        let mut store = desk.into_store();
        see_answers(rt, &mut store);
        see_people(rt, &mut store);
    }
}

#[test]
fn slices_are_the_whole_listing(rt: HostRuntime) {
    let mut slices = Slices {};
    slices.ask(&rt, MapStore::new(rt.alloc()));
    let is_asked = ask_over(&rt, connection(&rt, &[]), &mut slices);
    assert!(&rt; is_asked, "tables");
}

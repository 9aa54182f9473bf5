//! Rows of requests: to the world that stands, and to a world made again, whose store answers ever more calls.
use crate::words::{Fault, fields_of, number_of, with_lines, within};
use hall_desk::{Desk, Reply};
use hall_http::{Answer, Routes, answer_bytes};
use hall_policy::{Moment, People};
use hall_sheet::read_people;
use hall_store::{MapStore, Store};
use std::alloc::Global;
use test_harness::{LimitedStore, request_text};

/// A request at its moment.
#[derive(Drop)]
struct Asked {
    moment: Moment,
    request: String,
}

/// The world that stands, and how it came about: an entry list before any request, and requests.
#[derive(Drop)]
pub(crate) struct World {
    pub(crate) store: MapStore,
    list: String,
    requests: Vec<Asked>,
}

/// More calls than any request takes.
const AMPLE: u64 = 1000;

/// What is answered where the store fails.
const UNAVAILABLE: &str = "503 {\"fault\":\"hall\"}";

/// The reply to an import of the people before any request.
fn seed<S: Store>(alloc: Global, store: S, people: &People) -> Reply {
    let mut desk = Desk::new(store);
    let reply = desk.seed(alloc, people);
    desk.into_store();
    reply
}

/// The same of the entry list, over a store that answers so many calls, as it is shown.
fn seeded(alloc: Global, store: &mut MapStore, left: u64, list: &str) -> Result<String, Fault> {
    let people = read_people(alloc, list.as_bytes())?;
    match seed(alloc, LimitedStore { store, left }, &people) {
        Reply::Import(added) => Ok(format!(in alloc; "added {added}")?),
        Reply::Unavailable => Ok(String::from_str(alloc, UNAVAILABLE)?),
        _ => Err(Fault::Row),
    }
}

/// How many calls the import takes, and its reply.
fn calls_to_seed(alloc: Global, store: &mut MapStore, list: &str) -> Result<String, Fault> {
    for left in 0..AMPLE {
        let reply = seeded(alloc, store, left, list)?;
        if reply.as_str() != UNAVAILABLE {
            return Ok(format!(in alloc; "{left} {reply}")?);
        }
    }
    Err(Fault::Row)
}

/// Both parts of a reply.
fn joined(alloc: Global, parts: (&[u8], &[u8])) -> Result<Vec<u8>, Fault> {
    let mut bytes = Vec::with_capacity(alloc, parts.0.len().saturating_add(parts.1.len()))?;
    bytes.extend_from_slice(parts.0)?;
    bytes.extend_from_slice(parts.1)?;
    Ok(bytes)
}

/// The status and the body of a reply.
fn shown(alloc: Global, bytes: &[u8]) -> Result<String, Fault> {
    let Ok(text) = str::from_utf8(bytes) else {
        return Err(Fault::Row);
    };
    let (head, body) = text.split_once("\r\n\r\n").ok_or(Fault::Row)?;
    let line = head.strip_prefix("HTTP/1.1 ").ok_or(Fault::Row)?;
    let (status, _) = line.split_once(' ').ok_or(Fault::Row)?;
    Ok(format!(in alloc; "{status} {body}")?)
}

/// The answer to the request.
fn answer<S: Store>(alloc: Global, routes: &Routes, store: S, asked: &Asked) -> Answer {
    let mut desk = Desk::new(store);
    let request = asked.request.as_bytes();
    let answer = answer_bytes(alloc, routes, &mut desk, asked.moment, request);
    desk.into_store();
    answer
}

/// The reply to the request, over a store that answers so many calls.
fn reply(alloc: Global, store: &mut MapStore, left: u64, asked: &Asked) -> Result<String, Fault> {
    let routes = Routes::new(alloc)?;
    let answer = answer(alloc, &routes, LimitedStore { store, left }, asked);
    let bytes = joined(alloc, answer.parts())?;
    shown(alloc, bytes.as_slice())
}

/// How many calls the request takes, and its reply: over a store that answers fewer it is answered by 503, and leaves
/// the world.
fn calls_to_reply(alloc: Global, store: &mut MapStore, asked: &Asked) -> Result<String, Fault> {
    for left in 0..AMPLE {
        let reply = reply(alloc, store, left, asked)?;
        if reply.as_str() != UNAVAILABLE {
            return Ok(format!(in alloc; "{left} {reply}")?);
        }
    }
    Err(Fault::Row)
}

/// The request of the fields: its moment, the key that is shown, the method and path, and the body.
fn asked_of(alloc: Global, fields: &[&str]) -> Result<Asked, Fault> {
    let [moment, key, line, body] = fields else {
        return Err(Fault::Row);
    };
    let moment = within(number_of(moment)?)?;
    let key = if *key == "-" { "" } else { *key };
    let body = if *body == "-" { "" } else { *body };
    let body = with_lines(alloc, body)?;
    let request = request_text(alloc, key, line, body.as_str())?;
    Ok(Asked { moment, request })
}

fn asked_in(alloc: Global, row: &str) -> Result<Asked, Fault> {
    let fields = fields_of(alloc, row)?;
    asked_of(alloc, fields.as_slice())
}

impl World {
    pub(crate) fn new(alloc: Global) -> World {
        World {
            store: MapStore::new(alloc),
            list: String::new(alloc),
            requests: Vec::new(alloc),
        }
    }

    /// Begins with the people of the entry list, and tells how many calls their import takes.
    pub(crate) fn begin(&mut self, alloc: Global, row: &str) -> Result<String, Fault> {
        self.store = MapStore::new(alloc);
        self.requests = Vec::new(alloc);
        self.list = with_lines(alloc, row)?;
        calls_to_seed(alloc, &mut self.store, self.list.as_str())
    }

    /// How many calls the request of the row takes, and its reply; the request is kept.
    pub(crate) fn step(&mut self, alloc: Global, row: &str) -> Result<String, Fault> {
        let asked = asked_in(alloc, row)?;
        let reply = calls_to_reply(alloc, &mut self.store, &asked)?;
        match self.requests.push(asked) {
            Ok(()) => Ok(reply),
            Err(_) => Err(Fault::Memory),
        }
    }

    /// Makes this world again, in an empty store.
    fn make(&self, alloc: Global, store: &mut MapStore) -> Result<(), Fault> {
        let _seeded = seeded(alloc, store, AMPLE, self.list.as_str())?;
        for asked in &self.requests {
            let _reply = reply(alloc, store, AMPLE, asked)?;
        }
        Ok(())
    }

    fn calls_over(
        &self,
        alloc: Global,
        store: &mut MapStore,
        asked: &Asked,
    ) -> Result<String, Fault> {
        self.make(alloc, store)?;
        calls_to_reply(alloc, store, asked)
    }

    /// How many calls the request of the row takes, and its reply, in another world like this one.
    pub(crate) fn calls(&self, alloc: Global, row: &str) -> Result<String, Fault> {
        let asked = asked_in(alloc, row)?;
        let mut store = MapStore::new(alloc);
        self.calls_over(alloc, &mut store, &asked)
    }
}

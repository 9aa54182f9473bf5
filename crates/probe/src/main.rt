//! The program `probe`: rows of calls that no command of the program `hall` makes alone, and what they answer.
//!
//! A row is a word and what follows it, and is answered by a line or more. Empty lines, and those that begin with `#`,
//! are written as they stand.
#![tactic(auto)]

mod limits;
mod policy;
mod puzzles;
mod reads;
mod records;
mod score;
mod words;
mod world;

use crate::limits::{entries_limit, number_limit, people_limit, text_limit};
use crate::policy::decided;
use crate::puzzles::{certify_row, judge_row};
use crate::reads::{Call, called};
use crate::score::{table_row, tally_row, total_row};
use crate::words::{Fault, named};
use crate::world::World;
use std::alloc::Global;
use std::io;
use std::io::ErrorKind;
use std::process::ExitCode;

/// What a row is.
#[derive(Clone, Copy)]
enum Kind {
    Decide,
    Text,
    Number,
    Entries,
    People,
    Total,
    Tally,
    Table,
    Certify,
    Judge,
    World,
    Then,
    Calls,
    Call(Call),
}

const KINDS: [(&str, Kind); 28] = [
    ("decide", Kind::Decide),
    ("text", Kind::Text),
    ("number", Kind::Number),
    ("entries", Kind::Entries),
    ("people", Kind::People),
    ("total", Kind::Total),
    ("tally", Kind::Tally),
    ("table", Kind::Table),
    ("certify", Kind::Certify),
    ("judge", Kind::Judge),
    ("world", Kind::World),
    ("then", Kind::Then),
    ("calls", Kind::Calls),
    ("person", Kind::Call(Call::Person)),
    ("everyone", Kind::Call(Call::People)),
    ("count", Kind::Call(Call::Count)),
    ("labels", Kind::Call(Call::Labels)),
    ("puzzle", Kind::Call(Call::Puzzle)),
    ("puzzles", Kind::Call(Call::Puzzles)),
    ("using", Kind::Call(Call::Using)),
    ("round", Kind::Call(Call::Round)),
    ("rounds", Kind::Call(Call::Rounds)),
    ("flag", Kind::Call(Call::Flag)),
    ("answer", Kind::Call(Call::Answer)),
    ("given", Kind::Call(Call::Given)),
    ("answers", Kind::Call(Call::Answers)),
    ("answers_of", Kind::Call(Call::AnswersOf)),
    ("feed", Kind::Call(Call::Feed)),
];

fn word_text(alloc: Global, word: Result<&str, Fault>) -> Result<String, Fault> {
    Ok(String::from_str(alloc, word?)?)
}

/// What the row is answered.
fn answer(alloc: Global, world: &mut World, row: &str) -> Result<String, Fault> {
    let (word, rest) = row.split_once(' ').unwrap_or((row, ""));
    match named(&KINDS, word)? {
        Kind::Decide => decided(alloc, rest),
        Kind::Text => word_text(alloc, text_limit(alloc, rest)),
        Kind::Number => word_text(alloc, number_limit(alloc, rest)),
        Kind::Entries => word_text(alloc, entries_limit(alloc, rest)),
        Kind::People => word_text(alloc, people_limit(alloc, rest)),
        Kind::Total => total_row(alloc, rest),
        Kind::Tally => tally_row(alloc, rest),
        Kind::Table => table_row(alloc, rest),
        Kind::Certify => word_text(alloc, certify_row(alloc, rest)),
        Kind::Judge => judge_row(alloc, rest),
        Kind::World => world.begin(alloc, rest),
        Kind::Then => world.step(alloc, rest),
        Kind::Calls => world.calls(alloc, rest),
        Kind::Call(call) => called(alloc, &mut world.store, call, rest),
    }
}

fn write_answer(rt: &(impl AllocGlobal + Print), world: &mut World, row: &str) -> io::Result<()> {
    if row.is_empty() || row.starts_with('#') {
        return rt.println(row);
    }
    match answer(rt.alloc(), world, row) {
        Ok(text) => rt.println(text.as_str()),
        Err(Fault::Row) => rt.println("bad row"),
        Err(Fault::Memory) => Err(io::Error::from(ErrorKind::OutOfMemory)),
    }
}

fn run(rt: &(impl AllocGlobal + Input + Print), world: &mut World) -> io::Result<()> {
    for row in rt.lines(rt.alloc()) {
        write_answer(rt, world, row?.as_str())?;
    }
    Ok(())
}

fn main(rt: HostRuntime) -> ExitCode {
    let mut world = World::new(rt.alloc());
    match run(&rt, &mut world) {
        Ok(()) => ExitCode::SUCCESS,
        Err(_) => ExitCode::from(3),
    }
}

//! Rows of limits: which texts and numbers a type takes, and which lists hold nothing twice.
use crate::records::{entries, person};
use crate::words::{Fault, named, signed_of, taken, words_of};
use hall_policy::{
    AnswerNumber, Bonus, Checked, Key, Minutes, Moment, Penalty, People, Person, Points,
    ProtestMinutes, ProtestText, PuzzleNumber, Roles, RulingPoints, Title,
};
use std::alloc::{AllocError, Global};

#[derive(Clone, Copy)]
enum Text {
    Key,
    Title,
    Protest,
}

const TEXTS: [(&str, Text); 3] = [
    ("key", Text::Key),
    ("title", Text::Title),
    ("protest", Text::Protest),
];

#[derive(Clone, Copy)]
enum Number {
    Answer,
    Points,
    Minutes,
    Puzzle,
    ProtestMinutes,
    Penalty,
    Bonus,
    Moment,
}

const NUMBERS: [(&str, Number); 8] = [
    ("answer", Number::Answer),
    ("points", Number::Points),
    ("minutes", Number::Minutes),
    ("puzzle", Number::Puzzle),
    ("protest_minutes", Number::ProtestMinutes),
    ("penalty", Number::Penalty),
    ("bonus", Number::Bonus),
    ("moment", Number::Moment),
];

fn push_times(text: &mut String, letter: char, count: u16) -> Result<(), AllocError> {
    for _ in 0..count {
        text.push(letter)?;
    }
    Ok(())
}

fn is_text(kind: Text, text: String) -> bool {
    match kind {
        Text::Key => {
            let text: Option<Key> = Checked::new(text);
            text.is_some()
        }
        Text::Title => {
            let text: Option<Title> = Checked::new(text);
            text.is_some()
        }
        Text::Protest => {
            let text: Option<ProtestText> = Checked::new(text);
            text.is_some()
        }
    }
}

/// Whether the kind of text takes the byte of this code, so many times.
pub(crate) fn text_limit(alloc: Global, row: &str) -> Result<&'static str, Fault> {
    let words = words_of(alloc, row)?;
    let [kind, code, count] = words.as_slice() else {
        return Err(Fault::Row);
    };
    let kind = named(&TEXTS, kind)?;
    let (Ok(code), Ok(count)) = (code.parse::<u8>(), count.parse::<u16>()) else {
        return Err(Fault::Row);
    };
    let mut text = String::new(alloc);
    push_times(&mut text, char::from(code), count)?;
    Ok(taken(is_text(kind, text)))
}

fn is_number(kind: Number, number: u64) -> bool {
    match kind {
        Number::Answer => AnswerNumber::new(number).is_some(),
        Number::Points => Points::new(number).is_some(),
        Number::Minutes => Minutes::new(number).is_some(),
        Number::Puzzle => PuzzleNumber::new(number).is_some(),
        Number::ProtestMinutes => ProtestMinutes::new(number).is_some(),
        Number::Penalty => Penalty::new(number).is_some(),
        Number::Bonus => Bonus::new(number).is_some(),
        Number::Moment => Moment::new(number).is_some(),
    }
}

fn is_ruling(number: i64) -> bool {
    match i16::try_from(number) {
        Ok(points) => RulingPoints::new(points).is_some(),
        Err(_) => false,
    }
}

/// Whether the kind of number takes this one.
pub(crate) fn number_limit(alloc: Global, row: &str) -> Result<&'static str, Fault> {
    let words = words_of(alloc, row)?;
    let [kind, number] = words.as_slice() else {
        return Err(Fault::Row);
    };
    let number = signed_of(number)?;
    if *kind == "ruling" {
        return Ok(taken(is_ruling(number)));
    }
    let kind = named(&NUMBERS, kind)?;
    match u64::try_from(number) {
        Ok(number) => Ok(taken(is_number(kind, number))),
        Err(_) => Err(Fault::Row),
    }
}

/// Whether bob's puzzles of these labels make a list.
pub(crate) fn entries_limit(alloc: Global, row: &str) -> Result<&'static str, Fault> {
    let labels = words_of(alloc, row)?;
    let entries = entries(alloc, labels.as_slice())?;
    Ok(taken(entries.is_some()))
}

const ENTRANT: Roles = Roles {
    director: false,
    author: false,
    referee: false,
    entrant: true,
};

fn push_person(alloc: Global, list: &mut Vec<Person>, name: &str, key: &str) -> Result<(), Fault> {
    match list.push(person(alloc, name, key, ENTRANT)?) {
        Ok(()) => Ok(()),
        Err(_) => Err(Fault::Memory),
    }
}

fn push_people(alloc: Global, list: &mut Vec<Person>, words: &[&str]) -> Result<(), Fault> {
    let [name, key, other, other_key] = words else {
        return Err(Fault::Row);
    };
    push_person(alloc, list, name, key)?;
    push_person(alloc, list, other, other_key)
}

/// Whether two people of these names and keys make a list.
pub(crate) fn people_limit(alloc: Global, row: &str) -> Result<&'static str, Fault> {
    let words = words_of(alloc, row)?;
    let mut list = Vec::new(alloc);
    match push_people(alloc, &mut list, words.as_slice()) {
        Ok(()) => Ok(taken(People::new(alloc, list)?.is_some())),
        Err(fault) => Err(fault),
    }
}

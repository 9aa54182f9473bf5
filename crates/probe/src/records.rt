//! The records that rows are about.
use crate::words::{Fault, checked, within};
use hall_grid::{Broken, Rule, parse_puzzle};
use hall_policy::{
    AnswerKey, AnswerRow, Entries, Entry, Mode, Person, ProtestKey, ProtestRow, PuzzleKey,
    PuzzleRow, PuzzleState, Roles, Round, RoundRow, Ruling, RulingPoints, SomeRoles, Testers,
};
use std::alloc::Global;

/// The start of each round: nine o'clock on 2 May 2026.
pub(crate) const START: u64 = 1_777_712_400;

pub(crate) fn person(alloc: Global, name: &str, key: &str, roles: Roles) -> Result<Person, Fault> {
    Ok(Person {
        name: checked(alloc, name)?,
        key: checked(alloc, key)?,
        roles: SomeRoles::new(roles).ok_or(Fault::Row)?,
    })
}

/// The key of bob's puzzle.
pub(crate) fn puzzle_key(alloc: Global, label: &str) -> Result<PuzzleKey, Fault> {
    Ok(PuzzleKey {
        author: checked(alloc, "bob")?,
        label: checked(alloc, label)?,
    })
}

/// Bob's puzzle p1, which was never searched.
pub(crate) fn puzzle_row(alloc: Global) -> Result<PuzzleRow, Fault> {
    Ok(PuzzleRow {
        key: puzzle_key(alloc, "p1")?,
        puzzle: parse_puzzle(alloc, b"sudoku/4/4/123434122143432g")?,
        state: PuzzleState::New,
    })
}

/// Bob's puzzles of these labels, each for 40 points, where they can stand in a round.
pub(crate) fn entries(alloc: Global, labels: &[&str]) -> Result<Option<Entries>, Fault> {
    let mut list = Vec::new(alloc);
    match push_entries(alloc, &mut list, labels) {
        Ok(()) => Ok(Entries::new(list)?),
        Err(fault) => Err(fault),
    }
}

fn push_entries(alloc: Global, list: &mut Vec<Entry>, labels: &[&str]) -> Result<(), Fault> {
    for label in labels {
        push_entry(alloc, list, label)?;
    }
    Ok(())
}

fn push_entry(alloc: Global, list: &mut Vec<Entry>, label: &str) -> Result<(), Fault> {
    let entry = Entry {
        puzzle: puzzle_key(alloc, label)?,
        points: within(40)?,
    };
    match list.push(entry) {
        Ok(()) => Ok(()),
        Err(_) => Err(Fault::Memory),
    }
}

/// Bob's puzzle p1 alone.
pub(crate) fn one_entry(alloc: Global) -> Result<Entries, Fault> {
    entries(alloc, &["p1"])?.ok_or(Fault::Row)
}

/// How far a round is.
#[derive(Clone, Copy)]
pub(crate) struct Progress {
    pub(crate) released: bool,
    pub(crate) published: bool,
}

fn round(alloc: Global, mode: Mode, progress: Progress) -> Result<Round, Fault> {
    Ok(Round {
        start: within(START)?,
        minutes: within(60)?,
        protest_minutes: within(30)?,
        mode,
        penalty: within(5)?,
        bonus: within(2)?,
        released: progress.released,
        published: progress.published,
        id: checked(alloc, "r1")?,
        title: checked(alloc, "Morning")?,
    })
}

/// The round r1 of bob's puzzle p1 for 40 points: an hour, and half an hour for protests. A wrong answer costs 5, and a
/// minute that is left gives 2.
pub(crate) fn round_row(alloc: Global, mode: Mode, progress: Progress) -> Result<RoundRow, Fault> {
    Ok(RoundRow {
        round: round(alloc, mode, progress)?,
        puzzles: one_entry(alloc)?,
        testers: Testers::none(alloc),
    })
}

fn answer_key(alloc: Global, entrant: &str) -> Result<AnswerKey, Fault> {
    Ok(AnswerKey {
        number: within(1)?,
        entrant: checked(alloc, entrant)?,
        round: checked(alloc, "r1")?,
        token: checked(alloc, "k1")?,
    })
}

/// The entrant's answer of this number to the puzzle of the round r1.
pub(crate) fn answer_row(
    alloc: Global,
    entrant: &str,
    n: u64,
    moment: u64,
    said: &str,
    is_right: bool,
) -> Result<AnswerRow, Fault> {
    let mut verdict = Broken::new();
    if !is_right {
        verdict.insert(Rule::A0);
    }
    Ok(AnswerRow {
        n: within(n)?,
        moment: within(moment)?,
        verdict,
        key: answer_key(alloc, entrant)?,
        answer: checked(alloc, said)?,
    })
}

pub(crate) fn upheld(points: i64) -> Result<Ruling, Fault> {
    let Ok(points) = i16::try_from(points) else {
        return Err(Fault::Row);
    };
    match RulingPoints::new(points) {
        Some(points) => Ok(Ruling::Upheld(points)),
        None => Err(Fault::Row),
    }
}

fn protest_key(alloc: Global) -> Result<ProtestKey, Fault> {
    Ok(ProtestKey {
        entrant: checked(alloc, "eve")?,
        round: checked(alloc, "r1")?,
        token: checked(alloc, "w1")?,
    })
}

/// Eve's protest about the puzzle of the round r1.
pub(crate) fn protest_row(alloc: Global, ruling: Option<Ruling>) -> Result<ProtestRow, Fault> {
    Ok(ProtestRow {
        number: within(1)?,
        ruling,
        key: protest_key(alloc)?,
        text: checked(alloc, "unclear")?,
    })
}

//! Rows of single calls of a store over ordered maps.
use crate::words::{Fault, checked, named, number_of, push_word, within, words_of};
use hall_grid::write_puzzle;
use hall_policy::{
    AnswerKey, AnswerRow, Name, Person, PuzzleKey, PuzzleRow, PuzzleState, Roles, Round, RoundId,
    RoundRow,
};
use hall_score::Tally;
use hall_store::{MapStore, ReadStore, RoundFlag, Store, StoreFault};
use std::alloc::{AllocError, Global};

/// Which call is made.
#[derive(Clone, Copy)]
pub(crate) enum Call {
    Person,
    People,
    Count,
    Labels,
    Puzzle,
    Puzzles,
    Using,
    Round,
    Rounds,
    Flag,
    Answer,
    Given,
    Answers,
    AnswersOf,
    Feed,
}

const FLAGS: [(&str, RoundFlag); 2] = [
    ("released", RoundFlag::Released),
    ("published", RoundFlag::Published),
];

fn push_roles(text: &mut String, roles: Roles) -> Result<(), AllocError> {
    for (is_held, word) in [
        (roles.director, "director"),
        (roles.author, "author"),
        (roles.referee, "referee"),
        (roles.entrant, "entrant"),
    ] {
        if is_held {
            push_word(text, word)?;
        }
    }
    Ok(())
}

fn push_person(text: &mut String, found: &Option<Person>) -> Result<(), AllocError> {
    match found {
        Some(person) => {
            push_word(text, person.name.as_str())?;
            push_word(text, person.key.as_str())?;
            push_roles(text, person.roles.get())
        }
        None => push_word(text, "nobody"),
    }
}

/// The person of the name, and the one with the key.
fn people(
    alloc: Global,
    store: &mut MapStore,
    name: &str,
    key: &str,
    text: &mut String,
) -> Result<(), Fault> {
    let by_name = store.person(alloc, &checked(alloc, name)?)?;
    push_person(text, &by_name)?;
    let by_key = store.person_by_key(alloc, &checked(alloc, key)?)?;
    text.push_str(";")?;
    Ok(push_person(text, &by_key)?)
}

fn state_word(state: &PuzzleState) -> &'static str {
    match state {
        PuzzleState::New => "new",
        PuzzleState::One(_) => "one",
        PuzzleState::NoSolution => "none",
        PuzzleState::More => "more",
        PuzzleState::GaveUp => "gave up",
    }
}

fn puzzle_key(alloc: Global, author: &str, label: &str) -> Result<PuzzleKey, Fault> {
    Ok(PuzzleKey {
        author: checked(alloc, author)?,
        label: checked(alloc, label)?,
    })
}

fn push_puzzle(alloc: Global, text: &mut String, row: &PuzzleRow) -> Result<(), AllocError> {
    let puzzle = write_puzzle(alloc, &row.puzzle)?;
    push_word(text, row.key.author.as_str())?;
    push_word(text, row.key.label.as_str())?;
    push_word(text, state_word(&row.state))?;
    push_word(text, puzzle.as_str())
}

/// The puzzle with its state and text.
fn puzzle(
    alloc: Global,
    store: &mut MapStore,
    key: &PuzzleKey,
    text: &mut String,
) -> Result<(), Fault> {
    match &store.puzzle(alloc, key)? {
        Some(row) => Ok(push_puzzle(alloc, text, row)?),
        None => Ok(push_word(text, "no puzzle")?),
    }
}

fn push_labels(text: &mut String, rows: &[PuzzleRow]) -> Result<(), AllocError> {
    for row in rows {
        push_word(text, row.key.label.as_str())?;
    }
    Ok(())
}

fn push_keys(text: &mut String, rows: &[PuzzleRow]) -> Result<(), AllocError> {
    for row in rows {
        push_word(text, row.key.author.as_str())?;
        push_word(text, row.key.label.as_str())?;
    }
    Ok(())
}

/// Which of the rounds r0 to r3 are listed; a store lists them in any order.
fn push_using(text: &mut String, using: &[RoundId]) -> Result<(), AllocError> {
    for id in ["r0", "r1", "r2", "r3"] {
        if using.iter().any(|used| used.as_str() == id) {
            push_word(text, id)?;
        }
    }
    Ok(())
}

fn progress_word(round: &Round) -> &'static str {
    match (round.released, round.published) {
        (false, false) => "draft",
        (true, false) => "released",
        (true, true) => "published",
        (false, true) => "published only",
    }
}

fn push_round(text: &mut String, row: &RoundRow) -> Result<(), AllocError> {
    push_word(text, row.round.id.as_str())?;
    push_word(text, progress_word(&row.round))?;
    for entry in row.puzzles.as_slice() {
        push_word(text, entry.puzzle.label.as_str())?;
    }
    Ok(())
}

/// How far the round is, and the labels of its puzzles in their order.
fn round(
    alloc: Global,
    store: &mut MapStore,
    id: &RoundId,
    text: &mut String,
) -> Result<(), Fault> {
    match &store.round(alloc, id)? {
        Some(row) => Ok(push_round(text, row)?),
        None => Ok(push_word(text, "no round")?),
    }
}

fn rounds(alloc: Global, store: &mut MapStore, text: &mut String) -> Result<(), Fault> {
    let rounds = store.rounds(alloc)?;
    for found in &rounds {
        round(alloc, store, &found.id, text)?;
    }
    Ok(())
}

/// Sets the flag of the round, which is there.
fn set_flag(
    alloc: Global,
    store: &mut MapStore,
    id: &RoundId,
    flag: RoundFlag,
) -> Result<(), Fault> {
    if store.round(alloc, id)?.is_none() {
        return Err(Fault::Row);
    }
    Ok(store.set_round_flag(alloc, id, flag)?)
}

fn answer_key(
    alloc: Global,
    entrant: &str,
    round: &str,
    number: &str,
    token: &str,
) -> Result<AnswerKey, Fault> {
    Ok(AnswerKey {
        number: within(number_of(number)?)?,
        entrant: checked(alloc, entrant)?,
        round: checked(alloc, round)?,
        token: checked(alloc, token)?,
    })
}

fn push_answer(text: &mut String, row: &AnswerRow) -> Result<(), AllocError> {
    let (entrant, round) = (row.key.entrant.as_str(), row.key.round.as_str());
    let (number, token) = (row.key.number.get(), row.key.token.as_str());
    let n = row.n.get();
    write!(text, "{entrant} {round} {number} {token} {n}")
}

/// The answer under the key.
fn answer(
    alloc: Global,
    store: &mut MapStore,
    key: &AnswerKey,
    text: &mut String,
) -> Result<(), Fault> {
    match &store.answer(alloc, key)? {
        Some(row) => Ok(push_answer(text, row)?),
        None => Ok(push_word(text, "no answer")?),
    }
}

/// How many answers the entrant gave to the puzzle, and which of the numbers 1 to 3 are taken.
fn given(
    alloc: Global,
    store: &mut MapStore,
    words: (&str, &str, &str),
    text: &mut String,
) -> Result<(), Fault> {
    let (entrant, round, number) = words;
    let (entrant, round) = (checked(alloc, entrant)?, checked(alloc, round)?);
    let number = within(number_of(number)?)?;
    let count = store.answers_given(alloc, &entrant, &round, number)?;
    write!(text, "{count}:")?;
    for n in 1..4 {
        if store.is_number_taken(alloc, &entrant, &round, number, within(n)?)? {
            write!(text, " {n}")?;
        }
    }
    Ok(())
}

fn push_tokens(text: &mut String, rows: &[AnswerRow]) -> Result<(), AllocError> {
    for row in rows {
        push_word(text, row.key.token.as_str())?;
    }
    Ok(())
}

fn push_names(text: &mut String, totals: &[(Name, i64)]) -> Result<(), AllocError> {
    for (name, _) in totals {
        push_word(text, name.as_str())?;
    }
    Ok(())
}

/// Feeds the answers of the round to the tally.
fn feed(
    alloc: Global,
    store: &mut MapStore,
    id: &RoundId,
    tally: &mut Tally,
) -> Result<&'static str, Fault> {
    match store.feed_answers(alloc, id, &None, &None, tally) {
        Ok(()) => Ok("fed"),
        Err(StoreFault::Failed) => Ok("failed"),
        Err(StoreFault::Memory) => Err(Fault::Memory),
    }
}

/// What becomes of a tally to which the answers of the round are fed twice, and whom it has.
fn feed_twice(
    alloc: Global,
    store: &mut MapStore,
    id: &RoundId,
    text: &mut String,
) -> Result<(), Fault> {
    let Some(row) = store.round(alloc, id)? else {
        return Err(Fault::Row);
    };
    let mut tally = Tally::new(alloc, row);
    push_word(text, feed(alloc, store, id, &mut tally)?)?;
    push_word(text, feed(alloc, store, id, &mut tally)?)?;
    let totals = tally.totals()?;
    Ok(push_names(text, totals.as_slice())?)
}

/// The calls about people and puzzles.
fn push_of_puzzles(
    alloc: Global,
    store: &mut MapStore,
    call: Call,
    words: &[&str],
    text: &mut String,
) -> Result<(), Fault> {
    match (call, words) {
        (Call::Person, [name, key]) => people(alloc, store, name, key, text),
        (Call::People, []) => {
            for person in &store.people(alloc)? {
                push_word(text, person.name.as_str())?;
            }
            Ok(())
        }
        (Call::Count, [author]) => {
            let count = store.puzzles_put(alloc, &checked(alloc, author)?)?;
            Ok(write!(text, "{count}")?)
        }
        (Call::Labels, [author]) => {
            let rows = store.puzzles_of(alloc, &checked(alloc, author)?)?;
            Ok(push_labels(text, rows.as_slice())?)
        }
        (Call::Puzzle, [author, label]) => {
            puzzle(alloc, store, &puzzle_key(alloc, author, label)?, text)
        }
        (Call::Puzzles, []) => {
            let rows = store.all_puzzles(alloc)?;
            Ok(push_keys(text, rows.as_slice())?)
        }
        (Call::Using, [author, label]) => {
            let ids = store.rounds_using(alloc, &puzzle_key(alloc, author, label)?)?;
            Ok(push_using(text, ids.as_slice())?)
        }
        _ => Err(Fault::Row),
    }
}

/// The calls about rounds and answers.
fn push_of_rounds(
    alloc: Global,
    store: &mut MapStore,
    call: Call,
    words: &[&str],
    text: &mut String,
) -> Result<(), Fault> {
    match (call, words) {
        (Call::Round, [id]) => round(alloc, store, &checked(alloc, id)?, text),
        (Call::Rounds, []) => rounds(alloc, store, text),
        (Call::Flag, [id, flag]) => {
            set_flag(alloc, store, &checked(alloc, id)?, named(&FLAGS, flag)?)
        }
        (Call::Answer, [entrant, round, number, token]) => {
            let key = answer_key(alloc, entrant, round, number, token)?;
            answer(alloc, store, &key, text)
        }
        (Call::Given, [entrant, round, number]) => {
            given(alloc, store, (entrant, round, number), text)
        }
        (Call::Answers, [round]) => {
            let rows = store.answers_in(alloc, &checked(alloc, round)?)?;
            Ok(push_tokens(text, rows.as_slice())?)
        }
        (Call::AnswersOf, [entrant, round]) => {
            let (entrant, round) = (checked(alloc, entrant)?, checked(alloc, round)?);
            let rows = store.answers_of(alloc, &entrant, &round)?;
            Ok(push_tokens(text, rows.as_slice())?)
        }
        (Call::Feed, [round]) => feed_twice(alloc, store, &checked(alloc, round)?, text),
        _ => Err(Fault::Row),
    }
}

fn push_call(
    alloc: Global,
    store: &mut MapStore,
    call: Call,
    words: &[&str],
    text: &mut String,
) -> Result<(), Fault> {
    match call {
        Call::Person
        | Call::People
        | Call::Count
        | Call::Labels
        | Call::Puzzle
        | Call::Puzzles
        | Call::Using => push_of_puzzles(alloc, store, call, words, text),
        _ => push_of_rounds(alloc, store, call, words, text),
    }
}

/// What the call answers.
pub(crate) fn called(
    alloc: Global,
    store: &mut MapStore,
    call: Call,
    row: &str,
) -> Result<String, Fault> {
    let words = words_of(alloc, row)?;
    let mut text = String::new(alloc);
    push_call(alloc, store, call, words.as_slice(), &mut text)?;
    if text.is_empty() {
        text.push_str("-")?;
    }
    Ok(text)
}

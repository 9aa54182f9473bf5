//! The world that a store tells, as a text.
use hall_grid::write_puzzle;
use hall_policy::{
    AnswerRow, Entry, Mode, Person, ProtestRow, PuzzleRow, PuzzleState, Round, RoundId, Ruling,
    ruling_points,
};
use hall_store::ReadStore;
use std::alloc::AllocGlobal;
use std::process::Abort;

/// The testers of these names are told.
const NAMES: [&str; 9] = [
    "ada", "bob", "dora", "eve", "fay", "gil", "hal", "ivy", "rex",
];

fn add(rt: &impl Abort, words: &mut String, word: &str) {
    words.push_str(" ").expect(rt, "memory");
    words.push_str(word).expect(rt, "memory");
}

fn add_number(rt: &(impl AllocGlobal + Abort), words: &mut String, n: u64) {
    let number = format!(in rt.alloc(); "{n}").expect(rt, "memory");
    add(rt, words, number.as_str());
}

fn add_flag(rt: &impl Abort, words: &mut String, word: &str, is_set: bool) {
    if is_set {
        add(rt, words, word);
    }
}

/// Begins the line of a row.
fn add_line(rt: &impl Abort, words: &mut String, kind: &str) {
    words.push_str("\n").expect(rt, "memory");
    words.push_str(kind).expect(rt, "memory");
}

fn add_person(rt: &impl Abort, words: &mut String, person: &Person) {
    add_line(rt, words, "person");
    add(rt, words, person.name.as_str());
    add(rt, words, person.key.as_str());
    add_flag(rt, words, "director", person.roles.get().director);
    add_flag(rt, words, "author", person.roles.get().author);
    add_flag(rt, words, "referee", person.roles.get().referee);
    add_flag(rt, words, "entrant", person.roles.get().entrant);
}

fn add_people<S: ReadStore>(rt: &(impl AllocGlobal + Abort), words: &mut String, store: &mut S) {
    let people = store.people(rt.alloc()).expect(rt, "people");
    for person in people.as_slice() {
        if let Some(found) = store.person(rt.alloc(), &person.name).expect(rt, "person") {
            add_person(rt, words, &found);
        }
    }
}

fn state_word(state: &PuzzleState) -> &str {
    match state {
        PuzzleState::New => "new",
        PuzzleState::One(solution) => solution.as_str(),
        PuzzleState::NoSolution => "none",
        PuzzleState::More => "more",
        PuzzleState::GaveUp => "gave-up",
    }
}

fn add_puzzle(rt: &(impl AllocGlobal + Abort), words: &mut String, row: &PuzzleRow) {
    add_line(rt, words, "puzzle");
    add(rt, words, row.key.author.as_str());
    add(rt, words, row.key.label.as_str());
    let puzzle = write_puzzle(rt.alloc(), &row.puzzle).expect(rt, "memory");
    add(rt, words, puzzle.as_str());
    add(rt, words, state_word(&row.state));
}

fn add_puzzles<S: ReadStore>(rt: &(impl AllocGlobal + Abort), words: &mut String, store: &mut S) {
    let rows = store.all_puzzles(rt.alloc()).expect(rt, "puzzles");
    for row in rows.as_slice() {
        add_puzzle(rt, words, row);
    }
}

fn mode_word(mode: Mode) -> &'static str {
    match mode {
        Mode::Instant => "instant",
        Mode::Sealed => "sealed",
    }
}

fn add_times(rt: &(impl AllocGlobal + Abort), words: &mut String, round: &Round) {
    add_number(rt, words, round.start.get());
    add_number(rt, words, round.minutes.get());
    add_number(rt, words, round.protest_minutes.get());
}

fn add_round(rt: &(impl AllocGlobal + Abort), words: &mut String, round: &Round) {
    add_line(rt, words, "round");
    add(rt, words, round.id.as_str());
    add(rt, words, round.title.as_str());
    add_times(rt, words, round);
    add(rt, words, mode_word(round.mode));
    add_number(rt, words, round.penalty.get());
    add_number(rt, words, round.bonus.get());
    add_flag(rt, words, "released", round.released);
    add_flag(rt, words, "published", round.published);
}

fn add_entry(rt: &(impl AllocGlobal + Abort), words: &mut String, entry: &Entry) {
    add_line(rt, words, "place");
    add(rt, words, entry.puzzle.author.as_str());
    add(rt, words, entry.puzzle.label.as_str());
    add_number(rt, words, entry.points.get());
}

fn add_places<S: ReadStore>(
    rt: &(impl AllocGlobal + Abort),
    words: &mut String,
    store: &mut S,
    id: &RoundId,
) {
    let row = store.round(rt.alloc(), id).expect(rt, "round");
    for entry in row.expect(rt, "row").puzzles.as_slice() {
        add_entry(rt, words, entry);
    }
}

/// The testers' line, in the order of the names, where the round has any.
fn add_testers<S: ReadStore>(
    rt: &(impl AllocGlobal + Abort),
    words: &mut String,
    store: &mut S,
    id: &RoundId,
) {
    let names = store.testers_of(rt.alloc(), id).expect(rt, "testers");
    if names.is_empty() {
        return;
    }
    add_line(rt, words, "testers");
    for name in NAMES {
        let is_tester = names.iter().any(|it| it.as_str() == name);
        add_flag(rt, words, name, is_tester);
    }
}

fn add_answer(rt: &(impl AllocGlobal + Abort), words: &mut String, row: &AnswerRow) {
    add_line(rt, words, "answer");
    add(rt, words, row.key.entrant.as_str());
    add_number(rt, words, row.key.number.get());
    add(rt, words, row.key.token.as_str());
    add_number(rt, words, row.n.get());
    add_number(rt, words, row.moment.get());
    add(rt, words, row.answer.as_str());
    add_number(rt, words, u64::from(row.verdict.bits()));
}

fn add_answers<S: ReadStore>(
    rt: &(impl AllocGlobal + Abort),
    words: &mut String,
    store: &mut S,
    id: &RoundId,
) {
    let rows = store.answers_in(rt.alloc(), id).expect(rt, "answers");
    for row in rows.as_slice() {
        add_answer(rt, words, row);
    }
}

fn ruling_word(ruling: &Option<Ruling>) -> &'static str {
    match ruling {
        None => "open",
        Some(Ruling::Upheld(_)) => "upheld",
        Some(Ruling::Rejected) => "rejected",
    }
}

fn add_protest(rt: &(impl AllocGlobal + Abort), words: &mut String, row: &ProtestRow) {
    add_line(rt, words, "protest");
    add(rt, words, row.key.entrant.as_str());
    add(rt, words, row.key.token.as_str());
    add_number(rt, words, row.number.get());
    add(rt, words, row.text.as_str());
    add(rt, words, ruling_word(&row.ruling));
    let points = ruling_points(&row.ruling);
    let points = format!(in rt.alloc(); "{points}").expect(rt, "memory");
    add(rt, words, points.as_str());
}

fn add_protests<S: ReadStore>(
    rt: &(impl AllocGlobal + Abort),
    words: &mut String,
    store: &mut S,
    id: &RoundId,
) {
    let rows = store.protests_in(rt.alloc(), id).expect(rt, "protests");
    for row in rows.as_slice() {
        add_protest(rt, words, row);
    }
}

fn add_rounds<S: ReadStore>(rt: &(impl AllocGlobal + Abort), words: &mut String, store: &mut S) {
    let rounds = store.rounds(rt.alloc()).expect(rt, "rounds");
    for round in rounds.as_slice() {
        add_round(rt, words, round);
        add_places(rt, words, store, &round.id);
        add_testers(rt, words, store, &round.id);
        add_answers(rt, words, store, &round.id);
        add_protests(rt, words, store, &round.id);
    }
}

/// The people of a few names, and all puzzles, rounds, answers and protests.
pub(crate) fn world_text<S: ReadStore>(rt: &(impl AllocGlobal + Abort), store: &mut S) -> String {
    let mut words = String::new(rt.alloc());
    add_people(rt, &mut words, store);
    add_puzzles(rt, &mut words, store);
    add_rounds(rt, &mut words, store);
    words
}

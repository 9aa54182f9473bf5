//! Rows of decisions: a request of one of the kinds, the facts that are found, and the moment.
use crate::records::{
    Progress, START, answer_row, one_entry, person, protest_row, puzzle_key, puzzle_row, round_row,
    upheld,
};
use crate::words::{Fault, checked, named, number_of, push_word, signed_of, within, words_of};
use hall_grid::parse_puzzle;
use hall_policy::{
    Action, Decision, Facts, Mode, Moment, People, Person, ProtestRow, Roles, Rule, Ruling, Sheet,
    Testers, decide, decide_up_to,
};
use std::alloc::{AllocError, Global};

/// What is asked, always by its round r1, puzzle bob/p1 or token, and for a protest by its number, for a ruling by its
/// points.
#[derive(Clone, Copy)]
enum Ask {
    Import,
    PutPuzzle,
    ReadPuzzle,
    ListPuzzles,
    PutRound,
    Release,
    ListRounds,
    Submit,
    Solutions,
    Protest,
    Protests,
    Rule,
    Publish,
    Table,
}

const ASKS: [(&str, Ask); 14] = [
    ("import", Ask::Import),
    ("put_puzzle", Ask::PutPuzzle),
    ("read_puzzle", Ask::ReadPuzzle),
    ("list_puzzles", Ask::ListPuzzles),
    ("put_round", Ask::PutRound),
    ("release", Ask::Release),
    ("list_rounds", Ask::ListRounds),
    ("submit", Ask::Submit),
    ("solutions", Ask::Solutions),
    ("protest", Ask::Protest),
    ("protests", Ask::Protests),
    ("rule", Ask::Rule),
    ("publish", Ask::Publish),
    ("table", Ask::Table),
];

/// What stands in the round r1; `none` for no round.
const HELD: [(&str, Option<Progress>); 4] = [
    ("none", None),
    (
        "draft",
        Some(Progress {
            released: false,
            published: false,
        }),
    ),
    (
        "released",
        Some(Progress {
            released: true,
            published: false,
        }),
    ),
    (
        "published",
        Some(Progress {
            released: true,
            published: true,
        }),
    ),
];

/// What stands under the key or token.
#[derive(Clone, Copy)]
enum Under {
    Nothing,
    /// The puzzle.
    Stored,
    /// An answer.
    Given,
    /// An open protest.
    Open,
    /// A protest upheld with three points.
    Upheld,
}

const UNDER: [(&str, Under); 5] = [
    ("nothing", Under::Nothing),
    ("stored", Under::Stored),
    ("given", Under::Given),
    ("open", Under::Open),
    ("upheld", Under::Upheld),
];

#[derive(Clone, Copy)]
enum Caller {
    Nobody,
    Dora,
    Ada,
    Bob,
    /// Bob as an entrant.
    Player,
    Rex,
    Eve,
}

const CALLERS: [(&str, Caller); 7] = [
    ("-", Caller::Nobody),
    ("dora", Caller::Dora),
    ("ada", Caller::Ada),
    ("bob", Caller::Bob),
    ("player", Caller::Player),
    ("rex", Caller::Rex),
    ("eve", Caller::Eve),
];

/// A row in its types: among them the rule whose test was found true (0 for none), how much there is
/// of what is limited.
#[derive(Clone, Copy)]
struct Case {
    ask: Ask,
    caller: Caller,
    held: Option<Progress>,
    under: Under,
    test: u64,
    count: u64,
    moment: Moment,
    argument: Option<i64>,
}

fn case_of(words: &[&str]) -> Result<Case, Fault> {
    let [ask, caller, held, under, test, count, moment, rest @ ..] = words else {
        return Err(Fault::Row);
    };
    let argument = match rest {
        [] => None,
        [word, ..] => Some(signed_of(word)?),
    };
    Ok(Case {
        ask: named(&ASKS, ask)?,
        caller: named(&CALLERS, caller)?,
        held: named(&HELD, held)?,
        under: named(&UNDER, under)?,
        test: number_of(test)?,
        count: number_of(count)?,
        moment: within(number_of(moment)?)?,
        argument,
    })
}

fn name_of(caller: Caller) -> &'static str {
    match caller {
        Caller::Nobody => "",
        Caller::Dora => "dora",
        Caller::Ada => "ada",
        Caller::Bob | Caller::Player => "bob",
        Caller::Rex => "rex",
        Caller::Eve => "eve",
    }
}

fn roles_of(caller: Caller) -> Roles {
    Roles {
        director: matches!(caller, Caller::Dora),
        author: matches!(caller, Caller::Ada | Caller::Bob),
        referee: matches!(caller, Caller::Rex),
        entrant: matches!(caller, Caller::Eve | Caller::Player),
    }
}

fn person_of(alloc: Global, caller: Caller) -> Result<Person, Fault> {
    person(alloc, name_of(caller), "some-key-1", roles_of(caller))
}

fn caller_of(alloc: Global, caller: Caller) -> Result<Option<Person>, Fault> {
    match caller {
        Caller::Nobody => Ok(None),
        _ => Ok(Some(person_of(alloc, caller)?)),
    }
}

fn protest(alloc: Global, under: Under) -> Result<Option<ProtestRow>, Fault> {
    match under {
        Under::Open => Ok(Some(protest_row(alloc, None)?)),
        Under::Upheld => Ok(Some(protest_row(alloc, Some(upheld(3)?))?)),
        _ => Ok(None),
    }
}

/// The facts of the case that are numbers and tests.
fn plain_facts(case: &Case) -> Facts {
    Facts {
        caller: None,
        author_is_there: case.test != 4,
        puzzle: None,
        sheet_lacks: case.test == 4,
        round: None,
        answer: None,
        protest: None,
        in_released: case.test == 11,
        uncertified: case.test == 12,
        open_protest: case.test == 16,
        involved: case.test == 17,
        count: case.count,
        conflict: case.test == 20,
    }
}

/// Adds the person and the records that were found.
fn add_records(alloc: Global, case: &Case, facts: &mut Facts) -> Result<(), Fault> {
    facts.caller = caller_of(alloc, case.caller)?;
    facts.protest = protest(alloc, case.under)?;
    if let Some(progress) = case.held {
        facts.round = Some(round_row(alloc, Mode::Instant, progress)?);
    }
    match case.under {
        Under::Stored => facts.puzzle = Some(puzzle_row(alloc)?),
        Under::Given => {
            let said = if case.test == 6 { "4321" } else { "1234" };
            facts.answer = Some(answer_row(alloc, "eve", 1, START, said, true)?);
        }
        _ => {}
    }
    Ok(())
}

fn people(alloc: Global) -> Result<People, Fault> {
    let mut list = Vec::new(alloc);
    match list.push(person_of(alloc, Caller::Eve)?) {
        Ok(()) => {}
        Err(_) => return Err(Fault::Memory),
    }
    People::new(alloc, list)?.ok_or(Fault::Row)
}

fn sheet(alloc: Global) -> Result<Sheet, Fault> {
    Ok(Sheet {
        start: within(START)?,
        minutes: within(60)?,
        protest_minutes: within(30)?,
        mode: Mode::Sealed,
        penalty: within(0)?,
        bonus: within(0)?,
        title: checked(alloc, "Morning")?,
        puzzles: one_entry(alloc)?,
        testers: Testers::none(alloc),
    })
}

fn submitted(alloc: Global) -> Result<Action, Fault> {
    Ok(Action::Submit {
        number: within(1)?,
        round: checked(alloc, "r1")?,
        token: checked(alloc, "k1")?,
        answer: checked(alloc, "1234")?,
    })
}

fn protested(alloc: Global, argument: Option<i64>) -> Result<Action, Fault> {
    let number = u64::try_from(argument.ok_or(Fault::Row)?);
    Ok(Action::Protest {
        number: within(number.ok().ok_or(Fault::Row)?)?,
        round: checked(alloc, "r1")?,
        token: checked(alloc, "w1")?,
        text: checked(alloc, "unclear")?,
    })
}

fn ruled(alloc: Global, argument: Option<i64>) -> Result<Action, Fault> {
    let ruling = match argument {
        Some(points) => upheld(points)?,
        None => Ruling::Rejected,
    };
    Ok(Action::RuleProtest {
        ruling,
        round: checked(alloc, "r1")?,
        entrant: checked(alloc, "eve")?,
        token: checked(alloc, "w1")?,
    })
}

fn put_puzzle(alloc: Global) -> Result<Action, Fault> {
    Ok(Action::PutPuzzle {
        key: puzzle_key(alloc, "p1")?,
        puzzle: parse_puzzle(alloc, b"sudoku/4/4/123434122143432g")?,
    })
}

fn put_round(alloc: Global) -> Result<Action, Fault> {
    Ok(Action::PutRound {
        round: checked(alloc, "r1")?,
        sheet: sheet(alloc)?,
    })
}

/// The action of an ask that names the round alone, or nothing.
fn round_action(alloc: Global, ask: Ask) -> Result<Action, Fault> {
    let round = checked(alloc, "r1")?;
    match ask {
        Ask::Release => Ok(Action::Release { round }),
        Ask::Solutions => Ok(Action::Solutions { round }),
        Ask::Protests => Ok(Action::Protests { round }),
        Ask::Publish => Ok(Action::Publish { round }),
        Ask::Table => Ok(Action::Table { round }),
        Ask::ListRounds => Ok(Action::ListRounds),
        _ => Ok(Action::ListPuzzles),
    }
}

fn action(alloc: Global, case: &Case) -> Result<Action, Fault> {
    match case.ask {
        Ask::Import => Ok(Action::Import {
            people: people(alloc)?,
        }),
        Ask::PutPuzzle => put_puzzle(alloc),
        Ask::ReadPuzzle => Ok(Action::ReadPuzzle {
            key: puzzle_key(alloc, "p1")?,
        }),
        Ask::PutRound => put_round(alloc),
        Ask::Submit => submitted(alloc),
        Ask::Protest => protested(alloc, case.argument),
        Ask::Rule => ruled(alloc, case.argument),
        _ => round_action(alloc, case.ask),
    }
}

/// Rules up to which is decided.
const EARLY: [Rule; 6] = [
    Rule::UnknownKey,
    Rule::OtherAuthor,
    Rule::TokenTaken,
    Rule::Published,
    Rule::RuledOtherwise,
    Rule::ListConflict,
];

fn push_decision(text: &mut String, decision: Option<Decision>) -> Result<(), AllocError> {
    match decision {
        None => push_word(text, "-"),
        Some(Decision::Allow) => push_word(text, "allow"),
        Some(Decision::Repeat) => push_word(text, "repeat"),
        Some(Decision::Deny(rule)) => {
            push_word(text, "deny")?;
            write!(text, " {rule}")
        }
    }
}

fn push_decisions(
    text: &mut String,
    facts: &Facts,
    action: &Action,
    t: Moment,
) -> Result<(), AllocError> {
    push_decision(text, Some(decide(facts, action, t)))?;
    for most in &EARLY {
        push_decision(text, decide_up_to(facts, action, t, *most))?;
    }
    Ok(())
}

fn decisions(
    alloc: Global,
    case: &Case,
    facts: &mut Facts,
    action: &Action,
) -> Result<String, Fault> {
    add_records(alloc, case, facts)?;
    let mut text = String::new(alloc);
    push_decisions(&mut text, facts, action, case.moment)?;
    Ok(text)
}

/// How the case is decided, and what is decided up to each rule of `EARLY`.
pub(crate) fn decided(alloc: Global, row: &str) -> Result<String, Fault> {
    let words = words_of(alloc, row)?;
    let case = case_of(words.as_slice())?;
    let action = action(alloc, &case)?;
    let mut facts = plain_facts(&case);
    decisions(alloc, &case, &mut facts, &action)
}

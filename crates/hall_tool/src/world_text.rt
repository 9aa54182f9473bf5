//! What a check found of a world, as it is told.
ghost use Rattle.std.specs.Prelude.{◌≡◌, ◌++◌, IfOk, OnOk, false, string_bytes};
ghost use Rattle.std.specs.List.{flat_map, list_any};
ghost use Rattle.hall_tool.specs.WorldText.{breach_line, breaches_text, checked_status, checked_text, counts_line};
ghost use Rattle.hall_tool.specs.WorldText.{is_broken, is_found, is_state_broken, last_line, more_line};
ghost use Rattle.hall_tool.specs.WorldText.{more_undecided, puzzle_text, sane_line, sentence_text, spot_text};
ghost use Rattle.hall_tool.specs.WorldText.{states_text, undecided_line, undecided_text};

use crate::bad_text::MOST_TOLD;
use crate::ending::Ending;
use hall_check::{Breaches, Checked, Sentence, Spot, States};
use hall_policy::PuzzleKey;
use std::alloc::{AllocError, Global};

/// The status where a row is no record, or a sentence of a sane hall is false.
pub(crate) const BROKEN: u8 = 1;

/// What is wrong where the sentence is false, in the words of the field.
fn sentence_text(sentence: Sentence) -> &'static str
    ensures { result.now ≡ sentence_text sentence }
{
    match sentence {
        Sentence::OwnKey => "two people have one key",
        Sentence::RolesApart => "a person is director and entrant",
        Sentence::AuthorThere => "a puzzle's author isn't there",
        Sentence::FewPuzzles => "an author has more than 500 puzzles",
        Sentence::SolutionRight => "a puzzle's stored solution isn't one",
        Sentence::ListWhole => "a round's puzzles aren't 1 to 40, none twice, numbered from 1",
        Sentence::FewTesters => "a round has more than 20 testers",
        Sentence::ReleasedFirst => "a published round isn't released",
        Sentence::EntryHome => "the round of an entry isn't there",
        Sentence::PuzzleThere => "the puzzle of an entry isn't there",
        Sentence::CertifiedFirst => "a puzzle of a released round isn't in state one",
        Sentence::InNoOther => "a puzzle of a released round is in another released round",
        Sentence::TesterHome => "the round of a tester isn't there",
        Sentence::TesterThere => "a tester isn't there",
        Sentence::AnswererThere => "an answer's entrant isn't there",
        Sentence::AnsweredThere => "an answer's round has no puzzle of its number",
        Sentence::AnswerReleased => "an answer's round isn't released",
        Sentence::MayAnswer => "an answer's entrant may not take part in its round",
        Sentence::VerdictTrue => "an answer's verdict isn't that of its text and puzzle",
        Sentence::Numbered => "an answer's n is above how many there are",
        Sentence::NumberedOnce => "two answers of an entrant to a puzzle have one n",
        Sentence::FewAnswers => "an entrant has more than 50 answers to a puzzle",
        Sentence::ProtesterThere => "a protest's entrant isn't there",
        Sentence::ProtestedThere => "a protest's round has no puzzle of its number",
        Sentence::ProtestReleased => "a protest's round isn't released",
        Sentence::MayProtest => "a protest's entrant may not take part in its round",
        Sentence::RuledFirst => "a protest in a published round is open",
        Sentence::FewProtests => "an entrant has more than 5 protests in a round",
        Sentence::StateTrue => "a puzzle's state isn't what a search finds",
    }
}

/// Where a row stands: its table, and its key there.
fn push_spot(text: &mut String, spot: &Spot) -> Result<(), AllocError>
    ensures { OnOk result (string_bytes text.new ≡ string_bytes text.old ++ spot_text spot.now) }
{
    match spot {
        Spot::Person(name) => write!(text, "people name={}", name.as_str()),
        Spot::Puzzle(key) => push_puzzle(text, key),
        Spot::Round(id) => write!(text, "rounds id={}", id.as_str()),
        Spot::Entry(key) => {
            let (round, number) = (key.round.as_str(), key.number.get());
            write!(text, "round_puzzles round={round} number={number}")
        }
        Spot::Tester(key) => {
            let (round, name) = (key.round.as_str(), key.name.as_str());
            write!(text, "testers round={round} name={name}")
        }
        Spot::Answer(key) => {
            let (entrant, round) = (key.entrant.as_str(), key.round.as_str());
            let (number, token) = (key.number.get(), key.token.as_str());
            write!(
                text,
                "answers entrant={entrant} round={round} number={number} token={token}"
            )
        }
        Spot::Protest(key) => {
            let (entrant, round) = (key.entrant.as_str(), key.round.as_str());
            let token = key.token.as_str();
            write!(
                text,
                "protests entrant={entrant} round={round} token={token}"
            )
        }
    }
}

/// The puzzle's table and key.
fn push_puzzle(text: &mut String, key: &PuzzleKey) -> Result<(), AllocError>
    ensures { OnOk result (string_bytes text.new ≡ string_bytes text.old ++ puzzle_text key.now) }
{
    let (author, label) = (key.author.as_str(), key.label.as_str());
    write!(text, "puzzles author={author} label={label}")
}

/// One place where a sentence is false, on a line.
fn push_breach(text: &mut String, sentence: &str, spot: &Spot) -> Result<(), AllocError>
    ensures { OnOk result (string_bytes text.new ≡ string_bytes text.old ++ breach_line sentence.now spot.now) }
{
    write!(text, "broken: {sentence}: ")?;
    push_spot(text, spot)?;
    text.push_str("\n")
}

/// How many more places there are, on a line, if any.
fn push_more(text: &mut String, sentence: &str, more: u64) -> Result<(), AllocError>
    ensures { OnOk result (string_bytes text.new ≡ string_bytes text.old ++ more_line sentence.now more) }
{
    if more == 0 {
        return Ok(());
    }
    write!(text, "broken: {sentence}: and {more} more\n")
}

/// Places where a sentence is false, a line for each.
fn push_places(text: &mut String, sentence: &str, spots: &[Spot]) -> Result<(), AllocError>
    ensures { OnOk result
        (string_bytes text.new ≡ string_bytes text.old ++ flat_map (breach_line sentence.now) spots.now) }
{
    for spot in spots {
        push_breach(text, sentence, spot)?;
    }
    Ok(())
}

/// Where a sentence is false: the first places, and how many more.
fn push_breaches(text: &mut String, found: &Breaches) -> Result<(), AllocError>
    ensures { OnOk result (string_bytes text.new ≡ string_bytes text.old ++ breaches_text found.now) }
{
    let sentence = sentence_text(found.sentence);
    push_places(text, sentence, found.first.as_slice())?;
    push_more(
        text,
        sentence,
        found.count.saturating_sub(found.first.len() as u64),
    )
}

/// A puzzle whose search gave up, on a line.
fn push_undecided(text: &mut String, key: &PuzzleKey) -> Result<(), AllocError>
    ensures { OnOk result (string_bytes text.new ≡ string_bytes text.old ++ undecided_line key.now) }
{
    write!(text, "not decided: ")?;
    push_puzzle(text, key)?;
    text.push_str("\n")
}

/// Puzzles whose search gave up, a line for each.
fn push_puzzles(text: &mut String, keys: &[PuzzleKey]) -> Result<(), AllocError>
    ensures { OnOk result (string_bytes text.new ≡ string_bytes text.old ++ flat_map undecided_line keys.now) }
{
    for key in keys {
        push_undecided(text, key)?;
    }
    Ok(())
}

/// How many more puzzles' searches gave up, on a line, if any.
fn push_more_undecided(text: &mut String, more: usize) -> Result<(), AllocError>
    ensures { OnOk result (string_bytes text.new ≡ string_bytes text.old ++ more_undecided more) }
{
    if more == 0 {
        return Ok(());
    }
    write!(text, "not decided: and {more} more\n")
}

/// The puzzles whose search gave up: the first, and how many more.
fn push_all_undecided(text: &mut String, keys: &[PuzzleKey]) -> Result<(), AllocError>
    ensures { OnOk result (string_bytes text.new ≡ string_bytes text.old ++ undecided_text keys.now) }
{
    let told = MOST_TOLD.min(keys.len());
    push_puzzles(text, &keys[..told])?;
    push_more_undecided(text, keys.len() - told)
}

/// What new searches told of puzzles' states, if any were made.
fn push_states(text: &mut String, states: &Option<States>) -> Result<(), AllocError>
    ensures { OnOk result (string_bytes text.new ≡ string_bytes text.old ++ states_text states.now) }
{
    match states {
        Some(states) => {
            push_breaches(text, &states.found)?;
            push_all_undecided(text, states.undecided.as_slice())
        }
        None => Ok(()),
    }
}

/// Whether the sentence was found false.
fn is_found(found: &Breaches) -> bool
    ensures { result ≡ is_found found.now }
{
    !found.first.is_empty()
}

/// Whether one of the sentences was found false.
fn is_any_found(told: &[Breaches]) -> bool
    ensures { result ≡ list_any is_found told.now }
{
    for found in told {
        if is_found(found) {
            return true;
        }
    }
    false
}

/// Whether a state was found false.
fn is_state_broken(states: &Option<States>) -> bool
    ensures { result ≡ is_state_broken states.now }
{
    match states {
        Some(states) => is_found(&states.found),
        None => false,
    }
}

/// Whether a sentence was found false.
fn is_broken(checked: &Checked) -> bool
    ensures { result ≡ is_broken checked.now }
{
    is_state_broken(&checked.states) || is_any_found(checked.told.as_slice())
}

/// How sane a world is that isn't broken, on a line.
fn push_sane(text: &mut String, budget: Option<u64>, checked: &Checked) -> Result<(), AllocError>
    requires { is_broken checked.now ≡ false }
    ensures { OnOk result (string_bytes text.new ≡ string_bytes text.old ++ sane_line budget checked.now) }
{
    match budget {
        None => text.push_str(
            "sane as far as is stored: whether a solution is the only one wasn't searched anew\n",
        ),
        Some(_) if checked.is_sane() => text.push_str("sane\n"),
        Some(visits) => write!(text, "sane as far as {visits} visits tell\n"),
    }
}

/// How sane the world is, on a line; nothing where it is broken.
fn push_last(text: &mut String, budget: Option<u64>, checked: &Checked) -> Result<(), AllocError>
    ensures { OnOk result (string_bytes text.new ≡ string_bytes text.old ++ last_line budget checked.now) }
{
    if is_broken(checked) {
        return Ok(());
    }
    push_sane(text, budget, checked)
}

/// What was found of each sentence.
fn push_told(text: &mut String, told: &[Breaches]) -> Result<(), AllocError>
    ensures { OnOk result (string_bytes text.new ≡ string_bytes text.old ++ flat_map breaches_text told.now) }
{
    for found in told {
        push_breaches(text, found)?;
    }
    Ok(())
}

/// The exit status.
fn checked_status(checked: &Checked) -> u8
    ensures { result ≡ checked_status checked.now }
{
    if is_broken(checked) { BROKEN } else { 0 }
}

/// What a check found, as it is written, and the exit status: 0, or 1 where a sentence is false.
pub(crate) fn world_text(
    alloc: Global,
    budget: Option<u64>,
    checked: &Checked,
) -> Result<Ending, AllocError>
    ensures line { IfOk result (λ ending. string_bytes ending.line ≡ checked_text budget checked.now) }
    ensures status { IfOk result (λ ending. ending.status ≡ checked_status checked.now) }
{
    let mut line = counts_text(alloc, checked)?;
    push_told(&mut line, checked.told.as_slice())?;
    push_states(&mut line, &checked.states)?;
    push_last(&mut line, budget, checked)?;
    let status = checked_status(checked);
    Ok(Ending { line, status })
}

/// How much there is, on a line.
fn counts_text(alloc: Global, checked: &Checked) -> Result<String, AllocError>
    ensures { IfOk result (λ text. string_bytes text ≡ counts_line checked.now) }
{
    let (people, puzzles, rounds) = (checked.people, checked.puzzles, checked.rounds);
    let (answers, protests) = (checked.answers, checked.protests);
    format!(in alloc;
        "people {people}, puzzles {puzzles}, rounds {rounds}, answers {answers}, protests {protests}\n"
    )
}

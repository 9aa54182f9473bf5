//! Rows of points: the total of one entrant, what a tally takes and its table, a table of totals.
use crate::records::{Progress, answer_row, protest_row, round_row, upheld};
use crate::words::{Fault, checked, fields_of, named, number_of, push_word, signed_of, words_of};
use hall_policy::{AnswerRow, Mode, Name, ProtestRow, RoundRow, Sink, SinkFault};
use hall_score::{Line, Tally, standings, table_text, total};
use std::alloc::{AllocError, Global};

const MODES: [(&str, Mode); 2] = [("instant", Mode::Instant), ("sealed", Mode::Sealed)];

const VERDICTS: [(&str, bool); 2] = [("right", true), ("wrong", false)];

/// What counts for a total.
#[derive(Drop)]
enum Item {
    Answer(AnswerRow),
    Protest(ProtestRow),
}

/// Four words are an answer: the entrant, its number, the moment and the verdict. One is the points of eve's protest.
fn item_of(alloc: Global, words: &[&str]) -> Result<Item, Fault> {
    match words {
        [entrant, n, moment, verdict] => {
            let (n, moment) = (number_of(n)?, number_of(moment)?);
            let verdict = named(&VERDICTS, verdict)?;
            let row = answer_row(alloc, entrant, n, moment, "1234", verdict)?;
            Ok(Item::Answer(row))
        }
        [points] => {
            let ruling = upheld(signed_of(points)?)?;
            Ok(Item::Protest(protest_row(alloc, Some(ruling))?))
        }
        _ => Err(Fault::Row),
    }
}

fn field_item(alloc: Global, field: &str) -> Result<Item, Fault> {
    let words = words_of(alloc, field)?;
    item_of(alloc, words.as_slice())
}

/// A round of the mode.
fn round(alloc: Global, word: &str) -> Result<RoundRow, Fault> {
    let progress = Progress {
        released: true,
        published: false,
    };
    round_row(alloc, named(&MODES, word)?, progress)
}

/// The rows of one entrant.
#[derive(Drop)]
struct Rows {
    answers: Vec<AnswerRow>,
    protests: Vec<ProtestRow>,
}

fn push_item(rows: &mut Rows, item: Item) -> Result<(), Fault> {
    let is_pushed = match item {
        Item::Answer(row) => rows.answers.push(row).is_ok(),
        Item::Protest(row) => rows.protests.push(row).is_ok(),
    };
    if is_pushed {
        Ok(())
    } else {
        Err(Fault::Memory)
    }
}

fn total_text(
    alloc: Global,
    round: &RoundRow,
    rows: &mut Rows,
    fields: &[&str],
) -> Result<String, Fault> {
    for field in fields {
        push_item(rows, field_item(alloc, field)?)?;
    }
    let (answers, protests) = (rows.answers.as_slice(), rows.protests.as_slice());
    if answers.len() > 1000 || protests.len() > 1000 {
        return Err(Fault::Row);
    }
    let total = total(round, answers, protests);
    Ok(format!(in alloc; "{total}")?)
}

/// The total of an entrant: the round's mode, and what counts.
pub(crate) fn total_row(alloc: Global, row: &str) -> Result<String, Fault> {
    let fields = fields_of(alloc, row)?;
    let [mode, items @ ..] = fields.as_slice() else {
        return Err(Fault::Row);
    };
    let round = round(alloc, mode)?;
    let mut rows = Rows {
        answers: Vec::new(alloc),
        protests: Vec::new(alloc),
    };
    total_text(alloc, &round, &mut rows, items)
}

/// Gives the sink the answer.
fn take_answer<K: Sink<AnswerRow>>(sink: &mut K, row: &AnswerRow) -> Result<(), SinkFault> {
    sink.take(row)
}

/// Gives the sink the protest.
fn take_protest<K: Sink<ProtestRow>>(sink: &mut K, row: &ProtestRow) -> Result<(), SinkFault> {
    sink.take(row)
}

fn take_item(tally: &mut Tally, item: &Item) -> Result<&'static str, Fault> {
    let given = match item {
        Item::Answer(row) => take_answer(tally, row),
        Item::Protest(row) => take_protest(tally, row),
    };
    match given {
        Ok(()) => Ok("taken"),
        Err(SinkFault::Refused) => Ok("refused"),
        Err(SinkFault::Memory) => Err(Fault::Memory),
    }
}

fn take_items(
    alloc: Global,
    tally: &mut Tally,
    fields: &[&str],
    text: &mut String,
) -> Result<(), Fault> {
    for field in fields {
        let item = field_item(alloc, field)?;
        push_word(text, take_item(tally, &item)?)?;
    }
    Ok(())
}

/// Adds the table of the tally, on lines of its own.
fn push_table(alloc: Global, tally: Tally, text: &mut String) -> Result<(), AllocError> {
    let totals = tally.totals()?;
    push_lines(alloc, totals.as_slice(), text)
}

fn push_lines(alloc: Global, totals: &[(Name, i64)], text: &mut String) -> Result<(), AllocError> {
    let table = table_text(alloc, totals)?;
    for line in table.as_str().lines() {
        text.push_str("\n")?;
        text.push_str(line)?;
    }
    Ok(())
}

fn tally_text(alloc: Global, tally: Tally, fields: &[&str]) -> Result<String, Fault> {
    let mut tally = tally;
    let mut text = String::new(alloc);
    match take_items(alloc, &mut tally, fields, &mut text) {
        Ok(()) => push_table(alloc, tally, &mut text)?,
        Err(fault) => return Err(fault),
    }
    Ok(text)
}

/// What a tally takes and refuses, and its table: the round's mode, and what it is given in turn.
pub(crate) fn tally_row(alloc: Global, row: &str) -> Result<String, Fault> {
    let fields = fields_of(alloc, row)?;
    let [mode, items @ ..] = fields.as_slice() else {
        return Err(Fault::Row);
    };
    let tally = Tally::new(alloc, round(alloc, mode)?);
    tally_text(alloc, tally, items)
}

fn total_of(alloc: Global, field: &str) -> Result<(Name, i64), Fault> {
    let (name, points) = field.split_once(' ').ok_or(Fault::Row)?;
    let points = signed_of(points)?;
    Ok((checked(alloc, name)?, points))
}

fn push_totals(alloc: Global, totals: &mut Vec<(Name, i64)>, fields: &[&str]) -> Result<(), Fault> {
    for field in fields {
        match totals.push(total_of(alloc, field)?) {
            Ok(()) => {}
            Err(_) => return Err(Fault::Memory),
        }
    }
    Ok(())
}

fn push_standings(text: &mut String, lines: &[Line]) -> Result<(), AllocError> {
    for line in lines {
        let (rank, name, total) = (line.rank, line.name.as_str(), line.total);
        push_word(text, "")?;
        write!(text, "{rank} {name} {total};")?;
    }
    Ok(())
}

fn table_of(alloc: Global, totals: &[(Name, i64)]) -> Result<String, AllocError> {
    let mut text = String::new(alloc);
    let lines = standings(alloc, totals)?;
    push_standings(&mut text, lines.as_slice())?;
    push_lines(alloc, totals, &mut text)?;
    Ok(text)
}

/// The standings of entrants with these totals, and their table.
pub(crate) fn table_row(alloc: Global, row: &str) -> Result<String, Fault> {
    let fields = fields_of(alloc, row)?;
    let mut totals = Vec::new(alloc);
    match push_totals(alloc, &mut totals, fields.as_slice()) {
        Ok(()) => Ok(table_of(alloc, totals.as_slice())?),
        Err(fault) => Err(fault),
    }
}

//! The lines of a listing of answers, told as their rows come.
ghost use Rattle.std.specs.Prelude.{◌≡◌, ◌∷◌, [], if◌then◌else◌, IfOk, OnOk, OnErr, Bool, List, Some, None, codes, map};
ghost use Rattle.json.specs.Token.{begin_object, begin_array, key};
ghost use Rattle.hall_policy.specs.Sink.{HasTaken};
ghost use Rattle.hall_policy.specs.declared.record.AnswerRow.{AnswerRow};
ghost use Rattle.hall_desk.specs.ListedAnswers.{listed_answer_data};
ghost use Rattle.hall_desk.specs.Lines.{BeginsLines, IsLineAdded};
ghost use Rattle.hall_desk.specs.Shown.{answer_line};
ghost use Rattle.hall_desk.specs.Telling.{AddsTokens, tokens_of};
ghost use Rattle.hall_desk.specs.declared.lines.Lines.{Lines};

use crate::reply::AnswersText;
use crate::telling::Telling;
use hall_grid::Broken;
use hall_policy::{AnswerRow, Sink, SinkFault};
use http_server::Log;
use std::alloc::{AllocError, Global};
use std::marker::Model;

/// Room for the lines of a short listing.
pub(crate) const ROOM: usize = 256;

/// Lines of answers, to which a store gives the rows one at a time. Each is told at once; only the text is kept.
#[derive(Drop)]
pub(crate) struct Lines {
    alloc: Global,
    /// None once memory has run out within a row: part of it was told.
    told: Option<Telling>,
    /// The rows told, each with whether its verdict was.
    rows: Log<AnswerRow, bool>,
    /// Whether verdicts are told.
    shows: bool,
}

impl Model for Lines {
    ghost use Rattle.std.specs.Prelude.{◌≡◌, IfSome};
    ghost use Rattle.hall_desk.specs.Lines.{LinesSoFar, lines_of, open_tokens};

    ghost Value = { LinesSoFar };

    ghost view = { λ l. record { lines = lines_of l.rows.items; shows = l.shows } };

    ghost invariant = { λ l. IfSome l.told (λ told. told ≡ open_tokens (lines_of l.rows.items)) };
}

impl Lines {
    /// No lines yet, with room for so many bytes.
    pub(crate) fn begin(alloc: Global, shows: bool, room: usize) -> Result<Lines, AllocError>
        ensures { IfOk result (BeginsLines shows) }
    {
        let told = open_answers(alloc, room)?;
        Ok(Lines {
            alloc,
            told: Some(told),
            rows: Log::new(),
            shows,
        })
    }

    /// Tells the row's line. Where memory runs out, the lines are those before, and no text is made of them any more.
    pub(crate) fn add(&mut self, row: &AnswerRow) -> Result<(), AllocError>
        ensures added { OnOk result (IsLineAdded self.old row.now self.new) }
        ensures same { OnErr result (self.new ≡ self.old) }
    {
        let Some(mut told) = self.told.take() else {
            return Err(AllocError);
        };
        tell_answer(self.alloc, &mut told, row, self.shows)?;
        self.rows = self.rows.and(row, &self.shows);
        self.told = Some(told);
        Ok(())
    }

    /// The text of the lines.
    pub(crate) fn end(self) -> Result<AnswersText, AllocError>
        ensures { (shows : Bool) (fresh : Lines) (rows : List AnswerRow) → BeginsLines shows fresh →
            HasTaken IsLineAdded fresh rows self → IfOk result (λ text. text ≡ map (answer_line shows) rows) }
    {
        let Lines { told, rows, .. } = self;
        let Some(told) = told else {
            return Err(AllocError);
        };
        AnswersText::new(told, rows)
    }
}

impl Sink<AnswerRow> for Lines {
    ghost use Rattle.hall_desk.specs.Lines.{IsLineAdded};

    ghost takes = { IsLineAdded };

    ghost refuses = { λ _ _. ⊥ };

    fn take(&mut self, row: &AnswerRow) -> Result<(), SinkFault> {
        self.add(row)?;
        Ok(())
    }
}

/// Tells what stands before the lines.
fn open_answers(alloc: Global, room: usize) -> Result<Telling, AllocError>
    ensures { IfOk result (λ told. told ≡ begin_object ∷ key (codes "answers") ∷ begin_array ∷ []) }
{
    let mut told = Telling::new(alloc, room)?;
    told.open()?;
    told.name("answers")?;
    told.open_list()?;
    Ok(told)
}

/// Tells an answer as it is listed.
fn tell_answer(
    alloc: Global,
    told: &mut Telling,
    row: &AnswerRow,
    shows: bool,
) -> Result<(), AllocError>
    ensures { OnOk result (AddsTokens told.old told.new (tokens_of (listed_answer_data (answer_line shows row.now)))) }
{
    told.open()?;
    told.checked_at("answer", &row.answer)?;
    told.checked_at("entrant", &row.key.entrant)?;
    told.within_at("moment", row.moment)?;
    told.within_at("n", row.n)?;
    told.within_at("number", row.key.number)?;
    told.checked_at("token", &row.key.token)?;
    told.end_with_verdict(alloc, shown_verdict(row.verdict, shows))
}

/// The verdict, where verdicts are told.
fn shown_verdict(verdict: Broken, shows: bool) -> Option<Broken>
    ensures { result ≡ (if shows then Some verdict else None) }
{
    if shows { Some(verdict) } else { None }
}

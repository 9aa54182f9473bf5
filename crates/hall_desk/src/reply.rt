//! What the hall answers.
ghost use Rattle.std.specs.Prelude.{◌≡◌, IfOk, length, string_bytes};
ghost use Rattle.serde_json.specs.Written.{compact_text};
ghost use Rattle.hall_desk.specs.ListedAnswers.{answers_data};
ghost use Rattle.hall_desk.specs.Lines.{lines_of, open_tokens};

use crate::rows::Rows;
use crate::telling::Telling;
use hall_grid::Broken;
use hall_policy::{
    AnswerNumber, AnswerRow, AnswerText, Bonus, Minutes, Mode, Moment, Name, Penalty, Points,
    ProtestMinutes, ProtestText, PuzzleKey, PuzzleNumber, PuzzleText, RoundId, Ruling, Title,
    Token,
};
use http_server::Log;
use std::alloc::AllocError;
use std::marker::Model;

/// What is told of a puzzle's state.
#[derive(Clone, Copy, Debug, PartialEq, Eq)]
pub enum StateName {
    New,
    One,
    NoSolution,
    More,
    GaveUp,
}

/// A puzzle, as it is listed.
#[derive(Drop)]
pub struct PuzzleLine {
    pub key: PuzzleKey,
    pub state: StateName,
}

/// A round, as it is listed.
#[derive(Drop)]
pub struct RoundLine {
    pub id: RoundId,
    pub minutes: Minutes,
    pub mode: Mode,
    pub published: bool,
    pub released: bool,
    pub start: Moment,
    pub title: Title,
}

/// A puzzle of a round, as it is read.
#[derive(Drop)]
pub struct ShownPuzzle {
    pub number: PuzzleNumber,
    pub points: Points,
    pub text: PuzzleText,
}

/// A round with its puzzles, as it is read.
#[derive(Drop)]
pub struct ShownRound {
    pub bonus: Bonus,
    pub id: RoundId,
    pub minutes: Minutes,
    pub mode: Mode,
    pub penalty: Penalty,
    pub protest_minutes: ProtestMinutes,
    /// By number.
    pub puzzles: Rows<ShownPuzzle>,
    pub start: Moment,
    pub title: Title,
}

/// An answer, as it is listed: what a line of an `AnswersText` tells.
#[derive(Drop)]
pub struct AnswerLine {
    pub answer: AnswerText,
    pub entrant: Name,
    pub moment: Moment,
    pub n: AnswerNumber,
    pub number: PuzzleNumber,
    pub token: Token,
    /// None where the caller may not know it yet.
    pub verdict: Option<Broken>,
}

/// A protest, as it is listed.
#[derive(Drop)]
pub struct ProtestLine {
    pub entrant: Name,
    pub number: PuzzleNumber,
    /// None while the protest is open.
    pub ruling: Option<Ruling>,
    pub text: ProtestText,
    pub token: Token,
}

/// The text of a table; a contract sees its bytes.
#[derive(Drop)]
pub struct TableText {
    text: String,
}

impl Model for TableText {
    ghost use Rattle.std.specs.Prelude.{ℕ, List, string_bytes};

    ghost Value = { List ℕ };

    ghost view = { λ t. string_bytes t.text };
}

impl TableText {
    /// This text.
    pub fn new(text: String) -> TableText
        ensures { result ≡ string_bytes text }
    {
        TableText { text }
    }

    /// The text.
    pub fn as_str(&self) -> &str
        ensures { result.now ≡ self.now }
    {
        self.text.as_str()
    }
}

/// The text of a listing of answers, as bytes; a contract sees its lines.
#[derive(Drop)]
pub struct AnswersText {
    bytes: Vec<u8>,
    /// The rows told, each with whether its verdict was.
    rows: Log<AnswerRow, bool>,
}

impl Model for AnswersText {
    ghost use Rattle.std.specs.Prelude.{◌≡◌, List};
    ghost use Rattle.std.specs.Str.{IsUtf8};
    ghost use Rattle.serde_json.specs.Written.{compact_text};
    ghost use Rattle.hall_desk.specs.ListedAnswers.{answers_data};
    ghost use Rattle.hall_desk.specs.Lines.{lines_of};
    ghost use Rattle.hall_desk.specs.declared.reply.AnswerLine.{AnswerLine};

    ghost Value = { List AnswerLine };

    ghost view = { λ t. lines_of t.rows.items };

    ghost invariant = { λ t. (t.bytes.items ≡ compact_text (answers_data (lines_of t.rows.items)))
        × IsUtf8 t.bytes.items };
}

impl AnswersText {
    /// The text of the rows, whose lines are told.
    pub(crate) fn new(told: Telling, rows: Log<AnswerRow, bool>) -> Result<AnswersText, AllocError>
        requires { told ≡ open_tokens (lines_of rows.items) }
        ensures { IfOk result (λ text. text ≡ lines_of rows.items) }
    {
        let mut told = told;
        told.close_list()?;
        told.close()?;
        Ok(AnswersText {
            bytes: told.into_bytes(),
            rows,
        })
    }

    /// How many bytes it has.
    pub fn len(&self) -> usize
        ensures { result ≡ length (compact_text (answers_data self.now)) }
    {
        self.bytes.len()
    }

    /// The text. All of it is looked at.
    pub fn as_str(&self) -> &str
        ensures { result.now ≡ compact_text (answers_data self.now) }
    {
        match str::from_utf8(&self.bytes) {
            Ok(text) => text,
            Err(_) => unreachable!(),
        }
    }

    /// The bytes themselves.
    pub fn into_bytes(self) -> Vec<u8>
        ensures { result.items ≡ compact_text (answers_data self) }
    {
        self.bytes
    }
}

/// The reply to a request.
#[derive(Drop)]
pub enum Reply {
    /// The number of the first rule that forbids the request.
    Denied(u8),
    /// No memory was left, or the store refused; nothing is changed.
    Unavailable,
    /// How many people were added.
    Import(u64),
    /// The puzzle's state and text, after it was put.
    PutPuzzle {
        state: StateName,
        text: PuzzleText,
    },
    /// The puzzle that was read, with its state and text.
    ReadPuzzle {
        key: PuzzleKey,
        state: StateName,
        text: PuzzleText,
    },
    /// The puzzles that the caller sees, by author, then label.
    ListPuzzles(Rows<PuzzleLine>),
    /// The puzzle's state, after it was certified.
    Certify(StateName),
    /// The id of the draft that was stored or replaced.
    PutRound(RoundId),
    /// The id of the round that was released.
    Release(RoundId),
    /// The rounds that the caller sees, by id.
    ListRounds(Rows<RoundLine>),
    /// The round that was read.
    ReadRound(ShownRound),
    /// An accepted answer's number and, in an instant round, its verdict.
    Submit {
        n: AnswerNumber,
        verdict: Option<Broken>,
    },
    /// The answers that the caller sees, by entrant, number, then n.
    Answers(AnswersText),
    /// The solutions of the round's puzzles, by number.
    Solutions(Rows<AnswerText>),
    /// The token of the protest that was stored.
    Protest(Token),
    /// The protests that the caller sees, by entrant, then token.
    Protests(Rows<ProtestLine>),
    /// How the protest was ruled.
    RuleProtest(Ruling),
    /// The id of the round that was published.
    Publish(RoundId),
    /// The table of a round.
    Table(TableText),
}

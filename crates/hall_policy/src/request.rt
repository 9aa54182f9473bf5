//! What a caller may ask.
use crate::list::{Entries, People, Testers};
use crate::number::{Bonus, Budget, Minutes, Moment, Penalty, ProtestMinutes, PuzzleNumber};
use crate::record::{Mode, PuzzleKey, Ruling};
use crate::text::{AnswerText, Key, Name, ProtestText, RoundId, Title, Token};
use hall_grid::Puzzle;

/// What a director says of a round.
#[derive(Drop)]
pub struct Sheet {
    pub title: Title,
    pub start: Moment,
    pub minutes: Minutes,
    pub protest_minutes: ProtestMinutes,
    pub mode: Mode,
    pub penalty: Penalty,
    pub bonus: Bonus,
    pub puzzles: Entries,
    pub testers: Testers,
}

/// One of the seventeen things that may be asked of the hall.
#[derive(Drop)]
pub enum Action {
    /// Adds the people who are unknown.
    Import {
        people: People,
    },
    /// Stores a puzzle under its author and label.
    PutPuzzle {
        key: PuzzleKey,
        puzzle: Puzzle,
    },
    ReadPuzzle {
        key: PuzzleKey,
    },
    ListPuzzles,
    /// Searches the puzzle's solutions.
    Certify {
        key: PuzzleKey,
        budget: Budget,
    },
    /// Stores or replaces a draft.
    PutRound {
        round: RoundId,
        sheet: Sheet,
    },
    Release {
        round: RoundId,
    },
    ListRounds,
    ReadRound {
        round: RoundId,
    },
    /// Hands in an answer to the round's puzzle of that number.
    Submit {
        round: RoundId,
        number: PuzzleNumber,
        token: Token,
        answer: AnswerText,
    },
    /// Lists the answers that the caller may see.
    Answers {
        round: RoundId,
    },
    /// Lists the solutions of the round's puzzles.
    Solutions {
        round: RoundId,
    },
    /// Protests about the round's puzzle of that number.
    Protest {
        round: RoundId,
        token: Token,
        number: PuzzleNumber,
        text: ProtestText,
    },
    /// Lists the protests that the caller may see.
    Protests {
        round: RoundId,
    },
    /// Rules a protest.
    RuleProtest {
        round: RoundId,
        entrant: Name,
        token: Token,
        ruling: Ruling,
    },
    Publish {
        round: RoundId,
    },
    /// Reads the round's table.
    Table {
        round: RoundId,
    },
}

/// What is asked, and by whom.
#[derive(Drop)]
pub struct Request {
    /// The caller's secret; none where the request has none.
    pub key: Option<Key>,
    pub action: Action,
}

//! The hall's records, its policy, and which of its rules decides a request.
#![tactic(auto)]

mod asked;
mod facts;
mod laws;
mod list;
mod number;
mod ranges;
mod record;
mod request;
mod roles;
mod rule;
mod rule_checks;
mod sink;
mod text;

pub use facts::Facts;
pub use laws::law_decisions;
pub use list::{Entries, MOST_ENTRIES, MOST_PEOPLE, MOST_TESTERS, People, Testers, is_new};
pub use number::{
    AnswerNumber, Bonus, Budget, MOST_ANSWERS, MOST_PROTESTS, MOST_PUZZLES, Minutes, Moment,
    Penalty, Points, ProtestMinutes, PuzzleNumber, RulingPoints, Within,
};
pub use record::{
    AnswerKey, AnswerRow, Entry, Mode, Person, PlaceKey, ProtestKey, ProtestRow, PuzzleKey,
    PuzzleRow, PuzzleState, Roles, Round, RoundRow, Ruling, TesterKey, ruling_points,
};
pub use request::{Action, Request, Sheet};
pub use roles::SomeRoles;
pub use rule::{Decision, Rule};
pub use rule_checks::{decide, decide_up_to};
pub use sink::{Sink, SinkFault};
pub use text::{
    AnswerText, Checked, Key, Label, Name, ProtestText, PuzzleText, RoundId, TextKind, Title, Token,
};

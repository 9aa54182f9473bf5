//! What is asked of an action: which rules, of which roles, and what it names.
ghost use Rattle.std.specs.Prelude.{◌≡◌, option_copied};
ghost use Rattle.hall_policy.specs.Actions.{rules_asked, may, finds_drafts, puzzle_named};

use crate::record::{PuzzleKey, Roles};
use crate::request::Action;
use crate::rule::Rule;

const IMPORT: &[Rule] = &[Rule::UnknownKey, Rule::NoRole, Rule::ListConflict];

const PUT_PUZZLE: &[Rule] = &[
    Rule::UnknownKey,
    Rule::NoRole,
    Rule::OtherAuthor,
    Rule::Missing,
    Rule::InReleasedRound,
    Rule::LimitReached,
];

const READ_PUZZLE: &[Rule] = &[
    Rule::UnknownKey,
    Rule::NoRole,
    Rule::OtherAuthor,
    Rule::Missing,
];

const LIST_PUZZLES: &[Rule] = &[Rule::UnknownKey, Rule::NoRole];

const CERTIFY: &[Rule] = &[
    Rule::UnknownKey,
    Rule::NoRole,
    Rule::OtherAuthor,
    Rule::Missing,
];

const PUT_ROUND: &[Rule] = &[Rule::UnknownKey, Rule::NoRole, Rule::Missing, Rule::NoDraft];

const RELEASE: &[Rule] = &[
    Rule::UnknownKey,
    Rule::NoRole,
    Rule::Missing,
    Rule::InReleasedRound,
    Rule::NotCertified,
    Rule::NoDraft,
    Rule::Started,
];

const LIST_ROUNDS: &[Rule] = &[Rule::UnknownKey];

const READ_ROUND: &[Rule] = &[
    Rule::UnknownKey,
    Rule::NoRole,
    Rule::Missing,
    Rule::OwnPuzzle,
    Rule::NotStarted,
];

const SUBMIT: &[Rule] = &[
    Rule::UnknownKey,
    Rule::NoRole,
    Rule::Missing,
    Rule::OwnPuzzle,
    Rule::TokenTaken,
    Rule::NotStarted,
    Rule::Ended,
    Rule::Published,
    Rule::LimitReached,
];

const ANSWERS: &[Rule] = &[Rule::UnknownKey, Rule::NoRole, Rule::Missing];

const SOLUTIONS: &[Rule] = &[
    Rule::UnknownKey,
    Rule::NoRole,
    Rule::Missing,
    Rule::NotEnded,
];

const PROTEST: &[Rule] = &[
    Rule::UnknownKey,
    Rule::NoRole,
    Rule::Missing,
    Rule::OwnPuzzle,
    Rule::TokenTaken,
    Rule::NotEnded,
    Rule::Closed,
    Rule::Published,
    Rule::LimitReached,
];

const PROTESTS: &[Rule] = &[Rule::UnknownKey, Rule::NoRole, Rule::Missing];

const RULE_PROTEST: &[Rule] = &[
    Rule::UnknownKey,
    Rule::NoRole,
    Rule::Missing,
    Rule::Involved,
    Rule::RuledOtherwise,
];

const PUBLISH: &[Rule] = &[
    Rule::UnknownKey,
    Rule::NoRole,
    Rule::Missing,
    Rule::NotEnded,
    Rule::Published,
    Rule::OpenProtest,
];

const TABLE: &[Rule] = &[Rule::Missing, Rule::Published];

/// The rules asked of an action, by number.
pub(crate) fn rules_asked(action: &Action) -> &'static [Rule]
    ensures { result.now ≡ rules_asked action.now }
{
    match action {
        Action::Import { .. } => IMPORT,
        Action::PutPuzzle { .. } => PUT_PUZZLE,
        Action::ReadPuzzle { .. } => READ_PUZZLE,
        Action::ListPuzzles => LIST_PUZZLES,
        Action::Certify { .. } => CERTIFY,
        Action::PutRound { .. } => PUT_ROUND,
        Action::Release { .. } => RELEASE,
        Action::ListRounds => LIST_ROUNDS,
        Action::ReadRound { .. } => READ_ROUND,
        Action::Submit { .. } => SUBMIT,
        Action::Answers { .. } => ANSWERS,
        Action::Solutions { .. } => SOLUTIONS,
        Action::Protest { .. } => PROTEST,
        Action::Protests { .. } => PROTESTS,
        Action::RuleProtest { .. } => RULE_PROTEST,
        Action::Publish { .. } => PUBLISH,
        Action::Table { .. } => TABLE,
    }
}

/// Whether a role of these allows the action.
pub(crate) fn may(roles: Roles, action: &Action) -> bool
    ensures { result ≡ may roles action.now }
{
    match action {
        Action::Import { .. }
        | Action::PutRound { .. }
        | Action::Release { .. }
        | Action::Publish { .. } => roles.director,
        Action::PutPuzzle { .. }
        | Action::ReadPuzzle { .. }
        | Action::ListPuzzles
        | Action::Certify { .. } => roles.author || roles.director,
        Action::ReadRound { .. }
        | Action::Answers { .. }
        | Action::Solutions { .. }
        | Action::Protests { .. } => roles.entrant || roles.referee || roles.director,
        Action::Submit { .. } | Action::Protest { .. } => roles.entrant,
        Action::RuleProtest { .. } => roles.referee,
        Action::ListRounds | Action::Table { .. } => true,
    }
}

/// Whether a director finds drafts by the action.
pub(crate) fn finds_drafts(action: &Action) -> bool
    ensures { result ≡ finds_drafts action.now }
{
    match action {
        Action::PutRound { .. }
        | Action::Release { .. }
        | Action::ListRounds
        | Action::ReadRound { .. } => true,
        _ => false,
    }
}

/// The puzzle that the action names.
pub(crate) fn puzzle_named(action: &Action) -> Option<&PuzzleKey>
    ensures { option_copied result ≡ puzzle_named action.now }
{
    match action {
        Action::PutPuzzle { key, .. } | Action::ReadPuzzle { key } | Action::Certify { key, .. } =>
            Some(key),
        _ => None,
    }
}

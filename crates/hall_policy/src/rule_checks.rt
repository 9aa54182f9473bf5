//! The check of each rule, and which rule decides a request.
ghost use Rattle.std.specs.Prelude.{◌≤◌, ◌≡◌, ◌↔◌, ◌<◌, ℕ, IsTrue, IsSome, IfSome, IfNone, option_copied, false};
ghost use Rattle.hall_policy.specs.World.{entry_at};
ghost use Rattle.hall_policy.specs.Actions.{number_of, last_rule};
ghost use Rattle.hall_policy.specs.Rules.{LacksRole, NamesOtherAuthor, is_director};
ghost use Rattle.hall_policy.specs.Facts.{HidesRound, LacksNumber, HasEntryBy, RoundHasTester, ReadsFoundAsTester};
ghost use Rattle.hall_policy.specs.Facts.{TellsAuthor, TellsTester, TellsReading, TellsHand, deciding};
ghost use Rattle.hall_policy.specs.Finding.{IsTestOf, IsFindingOf, FindingImplies, finding_of, standing};
ghost use Rattle.hall_policy.specs.Implies.{Implies, ObjectIsThere, RoundIsThere, EntryIsThere, RoundIsDraft};
ghost use Rattle.hall_policy.specs.Implies.{NamesOwnPuzzle, RoundHasNoneBy, HasNoHandIn, RoundIsByOthers};
ghost use Rattle.hall_policy.specs.Implies.{PublishedPasses, IsBelowLimit};
ghost use Rattle.hall_policy.specs.Decided.{IsDecidedUpTo, PassesUpTo};
ghost use Rattle.hall_policy.specs.declared.record.RoundRow.{RoundRow};

use crate::asked::{finds_drafts, may, puzzle_named, rules_asked};
use crate::facts::Facts;
use crate::list::is_named;
use crate::number::{MOST_ANSWERS, MOST_PROTESTS, MOST_PUZZLES, Moment, PuzzleNumber};
use crate::record::Entry;
use crate::request::Action;
use crate::rule::{Decision, Rule};
use crate::text::Name;

fn is_director(facts: &Facts) -> bool
    ensures { result ≡ is_director facts.now.caller }
{
    match &facts.caller {
        Some(person) => person.roles.get().director,
        None => false,
    }
}

fn lacks_role(facts: &Facts, action: &Action) -> bool
    ensures { IsTrue result ↔ LacksRole facts.now.caller action.now }
{
    match &facts.caller {
        Some(person) => !may(person.roles.get(), action),
        None => false,
    }
}

fn names_other_author(facts: &Facts, action: &Action) -> bool
    ensures tells { IsTrue result ↔ NamesOtherAuthor facts.now.caller action.now }
    ensures own { result ≡ false → NamesOwnPuzzle facts.now action.now }
{
    match (&facts.caller, puzzle_named(action)) {
        (Some(person), Some(key)) => {
            !person.roles.get().director && !key.author.is_same(&person.name)
        }
        _ => false,
    }
}

fn is_before_start(facts: &Facts, action: &Action, t: Moment) -> bool
    ensures { IsTestOf Rule.NotStarted facts.now action.now t result }
{
    match &facts.round {
        Some(row) => {
            !is_director(facts)
                && !reads_as_tester(facts, action)
                && t.get() < row.round.start.get()
        }
        None => false,
    }
}

fn is_after_end(facts: &Facts, action: &Action, t: Moment) -> bool
    ensures { IsTestOf Rule.Ended facts.now action.now t result }
{
    match &facts.round {
        Some(row) => row.round.end() <= t.get(),
        None => false,
    }
}

fn is_before_end(facts: &Facts, action: &Action, t: Moment) -> bool
    ensures { IsTestOf Rule.NotEnded facts.now action.now t result }
{
    match (&facts.round, action) {
        (Some(row), Action::Publish { .. }) => t.get() < row.round.close(),
        (Some(row), _) => t.get() < row.round.end(),
        (None, _) => false,
    }
}

fn is_after_close(facts: &Facts, action: &Action, t: Moment) -> bool
    ensures { IsTestOf Rule.Closed facts.now action.now t result }
{
    match &facts.round {
        Some(row) => row.round.close() <= t.get(),
        None => false,
    }
}

fn is_after_start(facts: &Facts, action: &Action, t: Moment) -> bool
    ensures { IsTestOf Rule.Started facts.now action.now t result }
{
    match &facts.round {
        Some(row) => row.round.start.get() <= t.get(),
        None => false,
    }
}

fn is_no_draft(facts: &Facts, action: &Action) -> bool
    ensures tells { IsTestOf Rule.NoDraft facts.now action.now 0 result }
    ensures draft { result ≡ false → RoundIsDraft facts.now }
{
    match &facts.round {
        Some(row) => row.round.released,
        None => false,
    }
}

fn is_published(facts: &Facts, action: &Action) -> bool
    ensures tells { IsTestOf Rule.Published facts.now action.now 0 result }
    ensures passes { result ≡ false → PublishedPasses facts.now action.now }
{
    match (&facts.round, action) {
        (Some(row), Action::Table { .. }) => !row.round.published,
        (Some(row), _) => row.round.published,
        (None, _) => false,
    }
}

/// Whether the round that was found can't be seen.
fn hides_round(facts: &Facts, action: &Action) -> bool
    ensures tells { IsTrue result ↔ HidesRound facts.now action.now }
    ensures there { result ≡ false → RoundIsThere facts.now action.now }
{
    match &facts.round {
        Some(row) => !row.round.released && !(is_director(facts) && finds_drafts(action)),
        None => true,
    }
}

/// Whether the round that was found has no puzzle of this number.
fn lacks_number(facts: &Facts, number: PuzzleNumber) -> bool
    ensures tells { IsTrue result ↔ LacksNumber facts.now number }
    ensures there { (row : RoundRow) → facts.now.round ≡ Some row → result ≡ false → EntryIsThere row number }
{
    match &facts.round {
        Some(row) => is_beyond(row.puzzles.as_slice(), number),
        None => true,
    }
}

fn is_beyond(entries: &[Entry], number: PuzzleNumber) -> bool
    ensures { IsTrue result ↔ (entry_at entries.now number ≡ None) }
{
    entries.len() < number.get() as usize
}

fn is_missing(facts: &Facts, action: &Action) -> bool
    ensures tells { IsTestOf Rule.Missing facts.now action.now 0 result }
    ensures there { result ≡ false → ObjectIsThere facts.now action.now }
{
    match action {
        Action::Import { .. } | Action::ListPuzzles | Action::ListRounds => false,
        Action::PutPuzzle { .. } => !facts.author_is_there,
        Action::ReadPuzzle { .. } | Action::Certify { .. } => facts.puzzle.is_none(),
        Action::PutRound { .. } => facts.sheet_lacks,
        Action::Submit { number, .. } | Action::Protest { number, .. } => hides_round(facts, action)
            || lacks_number(facts, *number),
        Action::RuleProtest { .. } => hides_round(facts, action) || facts.protest.is_none(),
        _ => hides_round(facts, action),
    }
}

fn is_own_puzzle(facts: &Facts, action: &Action) -> bool
    ensures tells { IsTestOf Rule.OwnPuzzle facts.now action.now 0 result }
    ensures others { result ≡ false → RoundIsByOthers facts.now action.now }
{
    match &facts.caller {
        Some(person) => {
            !reads_as_tester(facts, action)
                && person.roles.get().entrant
                && has_hand_in(facts, &person.name)
        }
        None => false,
    }
}

/// Whether the caller is a tester of the round that was found, and reads it.
fn reads_as_tester(facts: &Facts, action: &Action) -> bool
    ensures tells { TellsReading facts.now action.now result }
    ensures found { IsTrue result ↔ ReadsFoundAsTester facts.now action.now }
{
    match (&facts.caller, action) {
        (Some(person), Action::ReadRound { .. }) => lists_tester_of(facts, &person.name),
        _ => false,
    }
}

/// Whether the person has a hand in the round that was found: as author of a puzzle, or as tester.
fn has_hand_in(facts: &Facts, name: &Name) -> bool
    ensures tells { TellsHand facts.now name.now result }
    ensures none { result ≡ false → HasNoHandIn facts.now name.now }
{
    lists_author_of(facts, name) || lists_tester_of(facts, name)
}

/// Whether the round that was found has the tester.
fn lists_tester_of(facts: &Facts, name: &Name) -> bool
    ensures tells { TellsTester facts.now name.now result }
    ensures found { IsTrue result ↔ RoundHasTester facts.now name.now }
{
    match &facts.round {
        Some(row) => is_named(row.testers.as_slice(), name),
        None => false,
    }
}

/// Whether the round that was found has a puzzle by the author.
fn lists_author_of(facts: &Facts, author: &Name) -> bool
    ensures tells { TellsAuthor facts.now author.now result }
    ensures others { result ≡ false → RoundHasNoneBy facts.now author.now }
{
    match &facts.round {
        Some(row) => lists_author(row.puzzles.as_slice(), author),
        None => false,
    }
}

/// Whether one of the puzzles is by the author.
fn lists_author(entries: &[Entry], author: &Name) -> bool
    ensures { IsTrue result ↔ HasEntryBy entries.now author.now }
{
    entries
        .iter()
        .any(|entry| entry.puzzle.author.is_same(author))
}

/// What the facts say of one rule.
#[derive(Clone, Copy, PartialEq, Eq)]
enum Finding {
    Passes,
    Forbids,
    Repeats,
}

fn finding_of(forbids: bool) -> Finding
    ensures { result ≡ finding_of forbids }
{
    if forbids {
        Finding::Forbids
    } else {
        Finding::Passes
    }
}

fn standing(same: bool) -> Finding
    ensures { result ≡ standing same }
{
    if same {
        Finding::Repeats
    } else {
        Finding::Forbids
    }
}

/// What stands under the token.
fn token_finding(facts: &Facts, action: &Action) -> Finding
    ensures tells { IsFindingOf Rule.TokenTaken facts.now action.now 0 result }
    ensures implies { FindingImplies result Rule.TokenTaken facts.now action.now }
{
    match &facts.caller {
        Some(_) => token_finding_of_caller(facts, action),
        None => Finding::Passes,
    }
}

fn token_finding_of_caller(facts: &Facts, action: &Action) -> Finding
    requires { IsSome facts.now.caller }
    ensures tells { IsFindingOf Rule.TokenTaken facts.now action.now 0 result }
    ensures implies { FindingImplies result Rule.TokenTaken facts.now action.now }
{
    match action {
        Action::Submit { answer, .. } => match &facts.answer {
            Some(row) => standing(row.answer.is_same(answer)),
            None => Finding::Passes,
        },
        Action::Protest { number, text, .. } => match &facts.protest {
            Some(row) => standing(row.number == *number && row.text.is_same(text)),
            None => Finding::Passes,
        },
        _ => Finding::Passes,
    }
}

/// How the protest was ruled before.
fn ruling_finding(facts: &Facts, action: &Action) -> Finding
    ensures tells { IsFindingOf Rule.RuledOtherwise facts.now action.now 0 result }
    ensures implies { FindingImplies result Rule.RuledOtherwise facts.now action.now }
{
    match action {
        Action::RuleProtest { ruling, .. } => match &facts.protest {
            Some(row) => match &row.ruling {
                Some(given) => standing(*given == *ruling),
                None => Finding::Passes,
            },
            None => Finding::Passes,
        },
        _ => Finding::Passes,
    }
}

fn is_at_limit(facts: &Facts, action: &Action) -> bool
    ensures tells { IsTestOf Rule.LimitReached facts.now action.now 0 result }
    ensures below { result ≡ false → IsSome facts.now.caller → IsBelowLimit facts.now action.now }
{
    match action {
        Action::Submit { .. } => facts.caller.is_some() && facts.count >= MOST_ANSWERS,
        Action::Protest { .. } => facts.caller.is_some() && facts.count >= MOST_PROTESTS,
        Action::PutPuzzle { .. } => facts.puzzle.is_none() && facts.count >= MOST_PUZZLES,
        _ => false,
    }
}

fn check_rule(rule: Rule, facts: &Facts, action: &Action, t: Moment) -> Finding
    ensures tells { IsFindingOf rule facts.now action.now t result }
    ensures implies { FindingImplies result rule facts.now action.now }
{
    match rule {
        Rule::UnknownKey => finding_of(facts.caller.is_none()),
        Rule::NoRole => finding_of(lacks_role(facts, action)),
        Rule::OtherAuthor => finding_of(names_other_author(facts, action)),
        Rule::Missing => finding_of(is_missing(facts, action)),
        Rule::OwnPuzzle => finding_of(is_own_puzzle(facts, action)),
        Rule::TokenTaken => token_finding(facts, action),
        Rule::NotStarted => finding_of(is_before_start(facts, action, t)),
        Rule::Ended => finding_of(is_after_end(facts, action, t)),
        Rule::NotEnded => finding_of(is_before_end(facts, action, t)),
        Rule::Closed => finding_of(is_after_close(facts, action, t)),
        Rule::InReleasedRound => finding_of(facts.in_released),
        Rule::NotCertified => finding_of(facts.uncertified),
        Rule::NoDraft => finding_of(is_no_draft(facts, action)),
        Rule::Started => finding_of(is_after_start(facts, action, t)),
        Rule::Published => finding_of(is_published(facts, action)),
        Rule::OpenProtest => finding_of(facts.open_protest),
        Rule::Involved => finding_of(facts.involved),
        Rule::RuledOtherwise => ruling_finding(facts, action),
        Rule::LimitReached => finding_of(is_at_limit(facts, action)),
        Rule::ListConflict => finding_of(facts.conflict),
    }
}

/// The first rule that forbids or repeats, of those asked of the action.
pub fn decide(facts: &Facts, action: &Action, t: Moment) -> Decision
    ensures first { IsDecidedUpTo (deciding action.now result) facts.now action.now t result }
    ensures decided { IsDecidedUpTo last_rule facts.now action.now t result }
    ensures passes { (n : ℕ) → n < deciding action.now result → PassesUpTo n facts.now action.now t }
    ensures implies { Implies result facts.now action.now }
{
    for rule in rules_asked(action) {
        match check_rule(*rule, facts, action, t) {
            Finding::Forbids => return Decision::Deny(rule.number()),
            Finding::Repeats => return Decision::Repeat,
            Finding::Passes => {}
        }
    }
    Decision::Allow
}

/// The decision where a rule up to `most` makes it; facts that later rules read may be anything.
pub fn decide_up_to(facts: &Facts, action: &Action, t: Moment, most: Rule) -> Option<Decision>
    ensures some { IfSome result (λ decision. IsDecidedUpTo (number_of most) facts.now action.now t decision) }
    ensures implies { IfSome result (λ decision. Implies decision facts.now action.now) }
    ensures none { IfNone result (PassesUpTo (number_of most) facts.now action.now t) }
    ensures within { IfSome result (λ decision. deciding action.now decision ≤ number_of most) }
    ensures whole { IfNone result (number_of most < last_rule) }
{
    let decision = decide(facts, action, t);
    if deciding(action, decision) <= most.number() {
        Some(decision)
    } else {
        None
    }
}

/// The number of the rule that makes the decision; the last, where all let it pass.
fn deciding(action: &Action, decision: Decision) -> u8
    ensures { result ≡ deciding action.now decision }
{
    match (decision, action) {
        (Decision::Deny(rule), _) => rule,
        (Decision::Repeat, Action::RuleProtest { .. }) => 18,
        (Decision::Repeat, _) => 6,
        (Decision::Allow, _) => Rule::LAST.number(),
    }
}

//! That a request, a person or a round lies in the ranges of its types: what is read tells what its type keeps.
ghost use Rattle.std.specs.Prelude.{All};
ghost use Rattle.hall_policy.specs.Lists.{ArePeople};
ghost use Rattle.hall_policy.specs.Ranges.{IsName, IsPerson, IsPuzzleKey, IsEntry, IsEntryList, IsTesterList};
ghost use Rattle.hall_policy.specs.Ranges.{IsRound, IsRoundRow};
ghost use Rattle.hall_policy.specs.Ranges.{IsSheet, IsRuling, IsAction, IsRequest};
ghost use Rattle.hall_policy.specs.declared.request.Action.TheVariants.{PutPuzzle, Certify, PutRound, Submit};
ghost use Rattle.hall_policy.specs.declared.request.Action.TheVariants.{Protest, RuleProtest};

use crate::list::{Entries, People, Testers};
use crate::number::{Budget, PuzzleNumber};
use crate::record::{Entry, Person, PuzzleKey, Round, RoundRow, Ruling};
use crate::request::{Action, Request, Sheet};
use crate::text::{AnswerText, Name, ProtestText, RoundId, Token};
use hall_grid::Puzzle;

impl Person {
    /// Tells a proof that the person lies in the ranges of its types.
    pub fn in_range(&self)
        ensures { IsPerson self.now }
    {
        let _name = self.name.as_str();
        let _key = self.key.as_str();
        let _roles = self.roles.get();
    }
}

fn read_people(people: &[Person])
    ensures { All IsPerson people.now }
{
    for person in people {
        person.in_range();
    }
}

impl People {
    /// Tells a proof that the list and its people lie in the ranges of their types.
    pub fn in_range(&self)
        ensures list { ArePeople self.now }
        ensures each { All IsPerson self.now }
    {
        read_people(self.as_slice());
    }
}

fn read_puzzle_key(key: &PuzzleKey)
    ensures { IsPuzzleKey key.now }
{
    let _author = key.author.as_str();
    let _label = key.label.as_str();
}

fn read_entry(entry: &Entry)
    ensures { IsEntry entry.now }
{
    read_puzzle_key(&entry.puzzle);
    let _points = entry.points.get();
}

fn read_all_entries(entries: &[Entry])
    ensures { All IsEntry entries.now }
{
    for entry in entries {
        read_entry(entry);
    }
}

fn read_entries(entries: &Entries)
    ensures { IsEntryList entries.now }
{
    read_all_entries(entries.as_slice());
}

fn read_names(names: &[Name])
    ensures { All IsName names.now }
{
    for name in names {
        let _name = name.as_str();
    }
}

fn read_testers(testers: &Testers)
    ensures { IsTesterList testers.now }
{
    read_names(testers.as_slice());
}

fn read_round(round: &Round)
    ensures { IsRound round.now }
{
    let _id = round.id.as_str();
    let _title = round.title.as_str();
    let _start = round.start.get();
    let _minutes = round.minutes.get();
    let _protest_minutes = round.protest_minutes.get();
    let _penalty = round.penalty.get();
    let _bonus = round.bonus.get();
}

impl RoundRow {
    /// Tells a proof that the round and its lists lie in the ranges of their types.
    pub fn in_range(&self)
        ensures { IsRoundRow self.now }
    {
        read_round(&self.round);
        read_entries(&self.puzzles);
        read_testers(&self.testers);
    }
}

fn read_sheet(sheet: &Sheet)
    ensures { IsSheet sheet.now }
{
    let _title = sheet.title.as_str();
    let _start = sheet.start.get();
    let _minutes = sheet.minutes.get();
    let _protest_minutes = sheet.protest_minutes.get();
    let _penalty = sheet.penalty.get();
    let _bonus = sheet.bonus.get();
    read_entries(&sheet.puzzles);
    read_testers(&sheet.testers);
}

fn read_ruling(ruling: Ruling)
    ensures { IsRuling ruling }
{
    if let Ruling::Upheld(points) = ruling {
        let _points = points.get();
    }
}

fn read_put_puzzle(key: &PuzzleKey, puzzle: &Puzzle)
    ensures { IsAction (PutPuzzle key.now puzzle.now) }
{
    read_puzzle_key(key);
    let _kind = puzzle.kind();
}

fn read_certify(key: &PuzzleKey, budget: Budget)
    ensures { IsAction (Certify key.now budget) }
{
    read_puzzle_key(key);
    let _budget = budget.get();
}

fn read_put_round(round: &RoundId, sheet: &Sheet)
    ensures { IsAction (PutRound round.now sheet.now) }
{
    let _round = round.as_str();
    read_sheet(sheet);
}

fn read_submit(round: &RoundId, number: PuzzleNumber, token: &Token, answer: &AnswerText)
    ensures { IsAction (Submit round.now number token.now answer.now) }
{
    let _round = round.as_str();
    let _number = number.get();
    let _token = token.as_str();
    let _answer = answer.as_str();
}

fn read_protest(round: &RoundId, token: &Token, number: PuzzleNumber, text: &ProtestText)
    ensures { IsAction (Protest round.now token.now number text.now) }
{
    let _round = round.as_str();
    let _token = token.as_str();
    let _number = number.get();
    let _text = text.as_str();
}

fn read_rule_protest(round: &RoundId, entrant: &Name, token: &Token, ruling: Ruling)
    ensures { IsAction (RuleProtest round.now entrant.now token.now ruling) }
{
    let _round = round.as_str();
    let _entrant = entrant.as_str();
    let _token = token.as_str();
    read_ruling(ruling);
}

fn read_action(action: &Action)
    ensures { IsAction action.now }
{
    match action {
        Action::Import { people } => people.in_range(),
        Action::PutPuzzle { key, puzzle } => read_put_puzzle(key, puzzle),
        Action::ReadPuzzle { key } => read_puzzle_key(key),
        Action::Certify { key, budget } => read_certify(key, *budget),
        Action::PutRound { round, sheet } => read_put_round(round, sheet),
        Action::Submit {
            round,
            number,
            token,
            answer,
        } => read_submit(round, *number, token, answer),
        Action::Protest {
            round,
            token,
            number,
            text,
        } => read_protest(round, token, *number, text),
        Action::RuleProtest {
            round,
            entrant,
            token,
            ruling,
        } => read_rule_protest(round, entrant, token, *ruling),
        Action::Release { round }
        | Action::ReadRound { round }
        | Action::Answers { round }
        | Action::Solutions { round }
        | Action::Protests { round }
        | Action::Publish { round }
        | Action::Table { round } => {
            let _round = round.as_str();
        }
        Action::ListPuzzles | Action::ListRounds => {}
    }
}

impl Request {
    /// Tells a proof that the request lies in the ranges of its types.
    pub fn in_range(&self)
        ensures { IsRequest self.now }
    {
        if let Some(key) = &self.key {
            let _key = key.as_str();
        }
        read_action(&self.action);
    }
}

//! That the rows lie in the ranges of their types: what is read tells what its type keeps.
ghost use Rattle.hall_policy.specs.Ranges.{AreRowsInRange, IsPerson, IsPuzzleKey, IsState, IsPuzzleRow, IsRound};
ghost use Rattle.hall_policy.specs.Ranges.{IsEntry};
ghost use Rattle.hall_policy.specs.Ranges.{IsName, IsAnswerRow, IsProtestRow, IsRuling};
ghost use Rattle.std.specs.Prelude.{IfSome};
ghost use Rattle.hall_check.specs.Finds.{EveryRow};
ghost use Rattle.hall_check.specs.Whole.{world_of_whole};

use crate::whole::Whole;
use hall_policy::{
    AnswerRow, Entry, Person, ProtestRow, PuzzleKey, PuzzleRow, PuzzleState, Round, Ruling,
};
use hall_store::{Place, Tester};

/// Tells a proof that all rows lie in the ranges of their types.
pub(crate) fn in_range(whole: &Whole)
    ensures { AreRowsInRange (world_of_whole whole.now) }
{
    read_people(whole.people.as_slice());
    read_puzzles(whole.puzzles.as_slice());
    read_rounds(whole.rounds.as_slice());
    read_places(whole.places.as_slice());
    read_testers(whole.testers.as_slice());
    read_answers(whole.answers.as_slice());
    read_protests(whole.protests.as_slice());
}

fn read_people(people: &[Person])
    ensures { EveryRow IsPerson people.now }
{
    for person in people {
        person.in_range();
    }
}

fn read_key(key: &PuzzleKey)
    ensures { IsPuzzleKey key.now }
{
    let _author = key.author.as_str();
    let _label = key.label.as_str();
}

fn read_state(state: &PuzzleState)
    ensures { IsState state.now }
{
    if let PuzzleState::One(text) = state {
        let _text = text.as_str();
    }
}

fn read_puzzle(row: &PuzzleRow)
    ensures { IsPuzzleRow row.now }
{
    read_key(&row.key);
    let _kind = row.puzzle.kind();
    read_state(&row.state);
}

fn read_puzzles(rows: &[PuzzleRow])
    ensures { EveryRow IsPuzzleRow rows.now }
{
    for row in rows {
        read_puzzle(row);
    }
}

fn read_round(round: &Round)
    ensures { IsRound round.now }
{
    let _id = round.id.as_str();
    let _title = round.title.as_str();
    let _start = round.start.get();
    let _minutes = round.minutes.get();
    let _protest_minutes = round.protest_minutes.get();
    let _penalty = round.penalty.get();
    let _bonus = round.bonus.get();
}

fn read_rounds(rounds: &[Round])
    ensures { EveryRow IsRound rounds.now }
{
    for round in rounds {
        read_round(round);
    }
}

fn read_entry(entry: &Entry)
    ensures { IsEntry entry.now }
{
    read_key(&entry.puzzle);
    let _points = entry.points.get();
}

fn read_places(places: &[Place])
    ensures { EveryRow (λ place. IsEntry place.1) places.now }
{
    for place in places {
        read_entry(&place.1);
    }
}

fn read_testers(testers: &[Tester])
    ensures { EveryRow (λ tester. IsName tester.0.name) testers.now }
{
    for tester in testers {
        let _name = tester.0.name.as_str();
    }
}

fn read_answer(row: &AnswerRow)
    ensures { IsAnswerRow row.now }
{
    let _entrant = row.key.entrant.as_str();
    let _round = row.key.round.as_str();
    let _number = row.key.number.get();
    let _token = row.key.token.as_str();
    let _n = row.n.get();
    let _moment = row.moment.get();
    let _answer = row.answer.as_str();
    let _verdict = row.verdict.bits();
}

fn read_answers(rows: &[AnswerRow])
    ensures { EveryRow IsAnswerRow rows.now }
{
    for row in rows {
        read_answer(row);
    }
}

fn read_ruling(ruling: &Option<Ruling>)
    ensures { IfSome ruling.now IsRuling }
{
    if let Some(Ruling::Upheld(points)) = ruling {
        let _points = points.get();
    }
}

fn read_protest(row: &ProtestRow)
    ensures { IsProtestRow row.now }
{
    let _entrant = row.key.entrant.as_str();
    let _round = row.key.round.as_str();
    let _token = row.key.token.as_str();
    let _number = row.number.get();
    let _text = row.text.as_str();
    read_ruling(&row.ruling);
}

fn read_protests(rows: &[ProtestRow])
    ensures { EveryRow IsProtestRow rows.now }
{
    for row in rows {
        read_protest(row);
    }
}

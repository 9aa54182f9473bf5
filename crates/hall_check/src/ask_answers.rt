//! What is asked of answers.
ghost use Rattle.std.specs.Prelude.{◌≡◌, ◌↔◌, ◌&&◌, ◌||◌, not, IsTrue, IfOk};
ghost use Rattle.hall_desk.specs.Sane.{IsPlaceThere, MayTakePart, IsVerdictAt};
ghost use Rattle.hall_check.specs.Sentences.{IsAuthorIn, IsBy};
ghost use Rattle.hall_check.specs.Whole.{IsInOrder, world_of_whole};

use crate::ask_rows::Asked;
use crate::counts::Asking;
use crate::sentence::Sentence;
use crate::whole::Whole;
use hall_desk::judge;
use hall_policy::{AnswerRow, MOST_ANSWERS, Name, Person, PuzzleNumber, RoundId};
use hall_store::Place;
use std::alloc::{AllocError, Global};

impl Asked for AnswerRow {
    ghost use Rattle.hall_check.specs.Checks.{SaysOfAnswer};

    ghost says = { SaysOfAnswer };

    fn is_true(&self, asking: &Asking, sentence: Sentence) -> Result<bool, AllocError> {
        let whole = asking.whole;
        let key = &self.key;
        match sentence {
            Sentence::AnswererThere => Ok(whole.person(&key.entrant).is_some()),
            Sentence::AnsweredThere => Ok(has_place(whole, &key.round, key.number)),
            Sentence::AnswerReleased => Ok(whole.is_released(&key.round)),
            Sentence::MayAnswer => Ok(may_take_part(whole, &key.entrant, &key.round)),
            Sentence::VerdictTrue => is_verdict(asking.alloc, whole, self),
            Sentence::Numbered => Ok(self.n.get() <= asking.answers_given(self)),
            Sentence::NumberedOnce => Ok(asking.numbered_alike(self) <= 1),
            Sentence::FewAnswers => Ok(asking.answers_given(self) <= MOST_ANSWERS),
            _ => Ok(false),
        }
    }
}

/// Whether the round has a puzzle of that number.
pub(crate) fn has_place(whole: &Whole, round: &RoundId, number: PuzzleNumber) -> bool
    ensures { IsTrue result ↔ IsPlaceThere (world_of_whole whole.now) round.now number }
{
    whole.entry(round, number).is_some()
}

/// Whether the person of the name may take part in the round.
pub(crate) fn may_take_part(whole: &Whole, name: &Name, round: &RoundId) -> bool
    ensures { IsInOrder whole.now → IsTrue result ↔ MayTakePart (world_of_whole whole.now) name.now round.now }
{
    match whole.person(name) {
        Some(person) => is_free(
            person,
            is_author_in(whole, name, round),
            whole.is_tester(round, name),
        ),
        None => false,
    }
}

/// Whether the person is an entrant and neither author nor tester.
fn is_free(person: &Person, is_author: bool, is_tester: bool) -> bool
    ensures { result ≡ (person.now.roles.entrant && not (is_author || is_tester)) }
{
    person.roles.get().entrant && !(is_author || is_tester)
}

/// Whether a puzzle of the round is by the author.
fn is_author_in(whole: &Whole, author: &Name, round: &RoundId) -> bool
    ensures { IsTrue result ↔ IsAuthorIn whole.now.places.items author.now round.now }
{
    for place in &whole.places {
        if is_by(place, author, round) {
            return true;
        }
    }
    false
}

/// Whether the place is of a puzzle by the author, in the round.
fn is_by(place: &Place, author: &Name, round: &RoundId) -> bool
    ensures { IsTrue result ↔ IsBy author.now round.now place.now }
{
    place.1.puzzle.author.is_same(author) && place.0.round.is_same(round)
}

/// Whether the verdict of the answer is that of its text.
fn is_verdict(alloc: Global, whole: &Whole, row: &AnswerRow) -> Result<bool, AllocError>
    ensures { IfOk result (λ told. IsTrue told
        ↔ IsVerdictAt (world_of_whole whole.now) row.now.key.round row.now.key.number row.now) }
{
    let Some(entry) = whole.entry(&row.key.round, row.key.number) else {
        return Ok(false);
    };
    let Some(puzzle) = whole.puzzle(&entry.puzzle) else {
        return Ok(false);
    };
    let verdict = judge(alloc, &puzzle.puzzle, row.answer.as_str().as_bytes())?;
    Ok(verdict == row.verdict)
}

//! What is found of each sentence of a sane world.
ghost use Rattle.std.specs.Prelude.{◌≡◌, IfOk};
ghost use Rattle.hall_check.specs.Asking.{CanAsk, asked_world};
ghost use Rattle.hall_check.specs.Checked.{AreAllTold};
ghost use Rattle.hall_check.specs.Checks.{AreTold, TellsSentence};
ghost use Rattle.hall_check.specs.Whole.{IsInOrder, world_of_whole};

use crate::ask_rows::{ask_each, push};
use crate::counts::{Asking, Counts};
use crate::sentence::{Breaches, Sentence};
use crate::whole::Whole;
use std::alloc::{AllocError, Global};

/// All sentences but that of puzzles' states, in the order in which they are told.
const ALL: [Sentence; 28] = [
    Sentence::OwnKey,
    Sentence::RolesApart,
    Sentence::AuthorThere,
    Sentence::FewPuzzles,
    Sentence::SolutionRight,
    Sentence::ListWhole,
    Sentence::FewTesters,
    Sentence::ReleasedFirst,
    Sentence::EntryHome,
    Sentence::PuzzleThere,
    Sentence::CertifiedFirst,
    Sentence::InNoOther,
    Sentence::TesterHome,
    Sentence::TesterThere,
    Sentence::AnswererThere,
    Sentence::AnsweredThere,
    Sentence::AnswerReleased,
    Sentence::MayAnswer,
    Sentence::VerdictTrue,
    Sentence::Numbered,
    Sentence::NumberedOnce,
    Sentence::FewAnswers,
    Sentence::ProtesterThere,
    Sentence::ProtestedThere,
    Sentence::ProtestReleased,
    Sentence::MayProtest,
    Sentence::RuledFirst,
    Sentence::FewProtests,
];

/// What is found of each sentence but that of puzzles' states.
pub(crate) fn tell_all(alloc: Global, whole: &Whole) -> Result<Vec<Breaches>, AllocError>
    ensures { IfOk result (λ told. IsInOrder whole.now → AreAllTold (world_of_whole whole.now) told.items) }
{
    let counts = Counts::of(alloc, whole)?;
    let asking = Asking {
        alloc,
        whole,
        counts,
    };
    tell_each(&asking, &ALL)
}

/// What is found of each of the sentences.
fn tell_each(asking: &Asking, sentences: &[Sentence]) -> Result<Vec<Breaches>, AllocError>
    ensures { IfOk result (λ told. CanAsk asking.now → AreTold (asked_world asking.now) sentences.now told.items) }
{
    let mut told = Vec::new(asking.alloc);
    for sentence in sentences {
        push(&mut told, tell(asking, *sentence)?)?;
    }
    Ok(told)
}

/// What is found of the sentence, which is asked of the rows that it speaks of.
fn tell(asking: &Asking, sentence: Sentence) -> Result<Breaches, AllocError>
    ensures sentence { IfOk result (λ found. found.sentence ≡ sentence) }
    ensures tells { IfOk result (λ found. CanAsk asking.now → TellsSentence (asked_world asking.now) sentence found) }
{
    let whole = asking.whole;
    match sentence {
        Sentence::OwnKey | Sentence::RolesApart => ask_each(asking, sentence, &whole.people),
        Sentence::AuthorThere
        | Sentence::FewPuzzles
        | Sentence::SolutionRight
        | Sentence::StateTrue => ask_each(asking, sentence, &whole.puzzles),
        Sentence::ListWhole | Sentence::FewTesters | Sentence::ReleasedFirst => ask_each(
            asking,
            sentence,
            &whole.rounds,
        ),
        Sentence::EntryHome
        | Sentence::PuzzleThere
        | Sentence::CertifiedFirst
        | Sentence::InNoOther => ask_each(asking, sentence, &whole.places),
        Sentence::TesterHome | Sentence::TesterThere => ask_each(asking, sentence, &whole.testers),
        Sentence::AnswererThere
        | Sentence::AnsweredThere
        | Sentence::AnswerReleased
        | Sentence::MayAnswer
        | Sentence::VerdictTrue
        | Sentence::Numbered
        | Sentence::NumberedOnce
        | Sentence::FewAnswers => ask_each(asking, sentence, &whole.answers),
        Sentence::ProtesterThere
        | Sentence::ProtestedThere
        | Sentence::ProtestReleased
        | Sentence::MayProtest
        | Sentence::RuledFirst
        | Sentence::FewProtests => ask_each(asking, sentence, &whole.protests),
    }
}

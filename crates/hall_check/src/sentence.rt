//! The sentences of a sane world, and where one is false.
ghost use Rattle.std.specs.Prelude.{◌≡◌, IfOk};
ghost use Rattle.hall_check.specs.Spots.{person_spot, puzzle_spot, round_spot, place_spot, tester_spot, answer_spot};
ghost use Rattle.hall_check.specs.Spots.{protest_spot};
ghost use Rattle.hall_check.specs.declared.sentence.Spot.{Spot as Place};

use hall_policy::{
    AnswerKey, AnswerRow, Name, Person, PlaceKey, ProtestKey, ProtestRow, PuzzleKey, PuzzleRow,
    Round, RoundId, TesterKey,
};
use hall_store::{Place, Tester};
use std::alloc::AllocError;

/// A sentence that is true of each row of a sane world.
#[derive(Clone, Copy, Debug, PartialEq, Eq)]
pub enum Sentence {
    /// No other person has the person's key.
    OwnKey,
    /// The person isn't director and entrant.
    RolesApart,
    /// The puzzle's author is there.
    AuthorThere,
    /// The puzzle's author has at most `MOST_PUZZLES` puzzles.
    FewPuzzles,
    /// A puzzle in state one has its stored solution as a solution.
    SolutionRight,
    /// The round has 1 to `MOST_ENTRIES` puzzles, none twice, numbered from 1.
    ListWhole,
    /// The round has at most `MOST_TESTERS` testers.
    FewTesters,
    /// A published round is released.
    ReleasedFirst,
    /// The round of the entry is there.
    EntryHome,
    /// The puzzle of the entry is there.
    PuzzleThere,
    /// In a released round the puzzle of the entry is in state one.
    CertifiedFirst,
    /// In a released round the puzzle of the entry is in no other released round.
    InNoOther,
    /// The round of the tester is there.
    TesterHome,
    /// The tester is a person who is there.
    TesterThere,
    /// The entrant of the answer is there.
    AnswererThere,
    /// The round has a puzzle of the answer's number.
    AnsweredThere,
    /// The round of the answer is released.
    AnswerReleased,
    /// The entrant of the answer may take part in the round.
    MayAnswer,
    /// The verdict of the answer is that of its text.
    VerdictTrue,
    /// The answer's number isn't above the count of its entrant's answers to the puzzle.
    Numbered,
    /// No other answer of its entrant to the puzzle has the answer's number.
    NumberedOnce,
    /// The entrant of the answer has at most `MOST_ANSWERS` to the puzzle.
    FewAnswers,
    /// The entrant of the protest is there.
    ProtesterThere,
    /// The round has a puzzle of the protest's number.
    ProtestedThere,
    /// The round of the protest is released.
    ProtestReleased,
    /// The entrant of the protest may take part in the round.
    MayProtest,
    /// A protest in a published round is ruled.
    RuledFirst,
    /// The entrant of the protest has at most `MOST_PROTESTS` in the round.
    FewProtests,
    /// The puzzle's state is what a search of it finds.
    StateTrue,
}

/// Where a row stands: its table, and its key there.
#[derive(Drop)]
pub enum Spot {
    Person(Name),
    Puzzle(PuzzleKey),
    Round(RoundId),
    /// An entry of a round's list.
    Entry(PlaceKey),
    Tester(TesterKey),
    Answer(AnswerKey),
    Protest(ProtestKey),
}

/// What was found of one sentence.
#[derive(Drop)]
pub struct Breaches {
    pub sentence: Sentence,
    /// Where it is false: the first rows, at most 20.
    pub first: Vec<Spot>,
    /// Of how many rows it is false.
    pub count: u64,
}

/// A row of a table.
pub(crate) trait Spotted {
    // Where the row stands.
    ghost spot_of: { Self → Place };

    /// Where the row stands.
    fn spot(&self) -> Result<Spot, AllocError>
        ensures { IfOk result (λ spot. spot ≡ spot_of self.now) };
}

impl Spotted for Person {
    ghost spot_of = { person_spot };

    fn spot(&self) -> Result<Spot, AllocError> {
        Ok(Spot::Person(self.name.clone()?))
    }
}

impl Spotted for PuzzleRow {
    ghost spot_of = { puzzle_spot };

    fn spot(&self) -> Result<Spot, AllocError> {
        Ok(Spot::Puzzle(self.key.clone()?))
    }
}

impl Spotted for Round {
    ghost spot_of = { round_spot };

    fn spot(&self) -> Result<Spot, AllocError> {
        Ok(Spot::Round(self.id.clone()?))
    }
}

impl Spotted for Place {
    ghost spot_of = { place_spot };

    fn spot(&self) -> Result<Spot, AllocError> {
        let round = self.0.round.clone()?;
        Ok(Spot::Entry(PlaceKey {
            round,
            number: self.0.number,
        }))
    }
}

impl Spotted for Tester {
    ghost spot_of = { tester_spot };

    fn spot(&self) -> Result<Spot, AllocError> {
        let round = self.0.round.clone()?;
        let name = self.0.name.clone()?;
        Ok(Spot::Tester(TesterKey { round, name }))
    }
}

impl Spotted for AnswerRow {
    ghost spot_of = { answer_spot };

    fn spot(&self) -> Result<Spot, AllocError> {
        Ok(Spot::Answer(self.key.clone()?))
    }
}

impl Spotted for ProtestRow {
    ghost spot_of = { protest_spot };

    fn spot(&self) -> Result<Spot, AllocError> {
        Ok(Spot::Protest(self.key.clone()?))
    }
}

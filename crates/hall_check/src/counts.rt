//! What sentences are asked with: all rows, and how many there are of each key.
ghost use Rattle.std.specs.Prelude.{◌≡◌, IfOk, count_by};
ghost use Rattle.std.specs.FinMap.{entries, values};
ghost use Rattle.hall_policy.specs.Rules.{answers_given, protests_made, puzzles_put};
ghost use Rattle.hall_policy.specs.World.{same_text};
ghost use Rattle.hall_check.specs.Asking.{AreCounted, CanAsk, asked_world};
ghost use Rattle.hall_check.specs.Sentences.{is_numbered_alike};

use crate::counting_keys::InRound;
use crate::ranked_answers::{number_order, puzzle_order, ranked};
use crate::row_counts::{KeyOf, count_at, tally};
use crate::whole::Whole;
use hall_policy::{AnswerRow, Key, Name, ProtestRow, RoundId};
use std::alloc::{AllocError, Global};
use std::collections::BTreeMap;

/// How many rows there are of each key. Of answers there is an order instead, in which those of a key are counted by
/// halves: maps would hold two copies of each one's texts.
#[derive(Drop)]
pub(crate) struct Counts<'a> {
    people: BTreeMap<Key, u64>,
    puzzles: BTreeMap<Name, u64>,
    testers: BTreeMap<RoundId, u64>,
    answers: Vec<&'a AnswerRow>,
    protests: BTreeMap<InRound, u64>,
}

impl<'a> Counts<'a> {
    /// How many of the rows there are of each key.
    pub(crate) fn of(alloc: Global, whole: &'a Whole) -> Result<Counts<'a>, AllocError>
        ensures { IfOk result (AreCounted whole.now) }
    {
        let people = tally(alloc, whole.people.as_slice())?;
        let puzzles = tally(alloc, whole.puzzles.as_slice())?;
        let testers = tally(alloc, whole.testers.as_slice())?;
        let answers = ranked(alloc, whole.answers.as_slice())?;
        let protests = tally(alloc, whole.protests.as_slice())?;
        Ok(Counts {
            people,
            puzzles,
            testers,
            answers,
            protests,
        })
    }
}

/// All rows, and their counts.
#[derive(Drop)]
pub(crate) struct Asking<'a> {
    pub(crate) alloc: Global,
    pub(crate) whole: &'a Whole,
    pub(crate) counts: Counts<'a>,
}

impl Asking<'_> {
    /// How many people have the key.
    pub(crate) fn people_with(&self, key: &Key) -> u64
        ensures { CanAsk self.now
            → result ≡ count_by (λ person. same_text person.key key.now) (values (asked_world self.now).people) }
    {
        count_at(&self.counts.people, key)
    }

    /// How many puzzles are by the author.
    pub(crate) fn puzzles_by(&self, author: &Name) -> u64
        ensures { CanAsk self.now → result ≡ puzzles_put (asked_world self.now) author.now }
    {
        count_at(&self.counts.puzzles, author)
    }

    /// How many testers the round has.
    pub(crate) fn testers_of(&self, id: &RoundId) -> u64
        ensures { CanAsk self.now
            → result ≡ count_by (λ tester. same_text tester.0.round id.now) (entries (asked_world self.now).testers) }
    {
        count_at(&self.counts.testers, id)
    }

    /// How many answers the entrant gave to the puzzle.
    pub(crate) fn answers_given(&self, row: &AnswerRow) -> u64
        ensures { CanAsk self.now → result
            ≡ answers_given (asked_world self.now) row.now.key.entrant row.now.key.round row.now.key.number }
    {
        let ranked = self.counts.answers.as_slice();
        let before = ranked.partition_point(|other| puzzle_order(*other, row).is_lt());
        let until = ranked.partition_point(|other| !puzzle_order(*other, row).is_gt());
        until.saturating_sub(before) as u64
    }

    /// How many answers of the entrant to the puzzle have the answer's number.
    pub(crate) fn numbered_alike(&self, row: &AnswerRow) -> u64
        ensures { CanAsk self.now
            → result ≡ count_by (is_numbered_alike row.now) (values (asked_world self.now).answers) }
    {
        let ranked = self.counts.answers.as_slice();
        let before = ranked.partition_point(|other| number_order(*other, row).is_lt());
        let until = ranked.partition_point(|other| !number_order(*other, row).is_gt());
        until.saturating_sub(before) as u64
    }

    /// How many protests the entrant made in the round.
    pub(crate) fn protests_made(&self, row: &ProtestRow) -> Result<u64, AllocError>
        ensures { IfOk result (λ count. CanAsk self.now
            → count ≡ protests_made (asked_world self.now) row.now.key.entrant row.now.key.round) }
    {
        let key = InRound::of(row)?;
        Ok(count_at(&self.counts.protests, &key))
    }
}

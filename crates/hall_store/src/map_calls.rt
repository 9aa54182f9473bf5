//! The calls of a store over ordered maps.
ghost use Rattle.std.specs.Prelude.{◌≡◌};
ghost use Rattle.hall_store.specs.Change.{flagged};

use crate::answer_reads::{
    answer_rows, answer_with, count_answers, feed_answers, first_from, first_in, first_of,
    first_to, has_answer, is_taken,
};
use crate::change::RoundFlag;
use crate::fault::StoreFault;
use crate::joint::JointAnswers;
use crate::map_adds::{
    index_people, index_round, put_answer, put_round, with_answers, with_people,
};
use crate::map_reads::{
    all_people, all_puzzle_rows, count_puzzles, first_label, first_use, heads, holder, ids_using,
    next_people, own_key, person_at, puzzle_at, puzzle_rows, round_at, testers_at,
};
use crate::map_store::MapStore;
use crate::protest_reads::{
    count_protests, feed_protests, first_protest, has_open, own_protest_key, protest_at,
    protest_rows, protest_rows_in,
};
use crate::slot::{Part, slot_at};
use crate::store::{ReadStore, Store};
use crate::writes::put;
use hall_policy::{
    AnswerKey, AnswerNumber, AnswerRow, Key, Name, People, Person, ProtestKey, ProtestRow,
    PuzzleKey, PuzzleNumber, PuzzleRow, PuzzleState, Round, RoundId, RoundRow, Ruling, Sink,
};
use std::alloc::Global;

impl ReadStore for MapStore {
    ghost use Rattle.hall_store.specs.Maps.{content_of_maps};

    ghost content = { content_of_maps };

    fn at_rest(&self) {}

    fn person_by_key(&mut self, _alloc: Global, key: &Key) -> Result<Option<Person>, StoreFault> {
        Ok(holder(&self.people, &self.keys, key)?)
    }

    fn person(&mut self, _alloc: Global, name: &Name) -> Result<Option<Person>, StoreFault> {
        Ok(person_at(&self.people, name)?)
    }

    fn people(&mut self, alloc: Global) -> Result<Vec<Person>, StoreFault> {
        Ok(all_people(alloc, &self.people)?)
    }

    fn people_after(
        &mut self,
        alloc: Global,
        after: &Option<Name>,
    ) -> Result<Vec<Person>, StoreFault> {
        Ok(next_people(alloc, &self.people, after)?)
    }

    fn puzzle(&mut self, _alloc: Global, key: &PuzzleKey) -> Result<Option<PuzzleRow>, StoreFault> {
        Ok(puzzle_at(&self.puzzles, key)?)
    }

    fn puzzles_of(&mut self, alloc: Global, author: &Name) -> Result<Vec<PuzzleRow>, StoreFault> {
        let first = first_label(alloc, author)?;
        Ok(puzzle_rows(alloc, &self.puzzles, &first)?)
    }

    fn all_puzzles(&mut self, alloc: Global) -> Result<Vec<PuzzleRow>, StoreFault> {
        Ok(all_puzzle_rows(alloc, &self.puzzles)?)
    }

    fn puzzles_put(&mut self, alloc: Global, author: &Name) -> Result<u64, StoreFault> {
        let first = first_label(alloc, author)?;
        Ok(count_puzzles(&self.puzzles, &first))
    }

    fn round(&mut self, _alloc: Global, id: &RoundId) -> Result<Option<RoundRow>, StoreFault> {
        Ok(round_at(&self.rounds, id)?)
    }

    fn testers_of(&mut self, alloc: Global, round: &RoundId) -> Result<Vec<Name>, StoreFault> {
        Ok(testers_at(alloc, &self.rounds, round)?)
    }

    fn rounds(&mut self, alloc: Global) -> Result<Vec<Round>, StoreFault> {
        Ok(heads(alloc, &self.rounds)?)
    }

    fn rounds_using(&mut self, alloc: Global, key: &PuzzleKey) -> Result<Vec<RoundId>, StoreFault> {
        let first = first_use(alloc, key)?;
        Ok(ids_using(alloc, &self.rounds, &self.uses, &first, key)?)
    }

    fn answer(&mut self, _alloc: Global, key: &AnswerKey) -> Result<Option<AnswerRow>, StoreFault> {
        let first = first_to(&key.entrant, &key.round, key.number)?;
        Ok(answer_with(&self.answers, &first, &key.token)?)
    }

    fn answers_given(
        &mut self,
        _alloc: Global,
        entrant: &Name,
        round: &RoundId,
        number: PuzzleNumber,
    ) -> Result<u64, StoreFault> {
        let first = first_to(entrant, round, number)?;
        Ok(count_answers(&self.answers, &first))
    }

    fn is_number_taken(
        &mut self,
        _alloc: Global,
        entrant: &Name,
        round: &RoundId,
        number: PuzzleNumber,
        n: AnswerNumber,
    ) -> Result<bool, StoreFault> {
        let slot = slot_at(entrant, round, number, n)?;
        Ok(is_taken(&self.answers, &slot))
    }

    fn answers_of(
        &mut self,
        alloc: Global,
        entrant: &Name,
        round: &RoundId,
    ) -> Result<Vec<AnswerRow>, StoreFault> {
        let first = first_of(entrant, round)?;
        Ok(answer_rows(alloc, &self.answers, Part::Entrant, &first)?)
    }

    fn answers_in(&mut self, alloc: Global, round: &RoundId) -> Result<Vec<AnswerRow>, StoreFault> {
        let first = first_in(alloc, round)?;
        Ok(answer_rows(alloc, &self.answers, Part::Round, &first)?)
    }

    fn feed_answers<K: Sink<AnswerRow>>(
        &mut self,
        alloc: Global,
        round: &RoundId,
        after: &Option<Name>,
        last: &Option<Name>,
        sink: &mut K,
    ) -> Result<(), StoreFault> {
        let first = first_from(alloc, round, after)?;
        Ok(feed_answers(&self.answers, &first, after, last, sink)?)
    }

    fn has_answered(
        &mut self,
        _alloc: Global,
        entrant: &Name,
        round: &RoundId,
    ) -> Result<bool, StoreFault> {
        let first = first_of(entrant, round)?;
        Ok(has_answer(&self.answers, &first))
    }

    fn protest(
        &mut self,
        _alloc: Global,
        key: &ProtestKey,
    ) -> Result<Option<ProtestRow>, StoreFault> {
        Ok(protest_at(&self.protests, key)?)
    }

    fn protests_made(
        &mut self,
        alloc: Global,
        entrant: &Name,
        round: &RoundId,
    ) -> Result<u64, StoreFault> {
        let first = first_protest(alloc, entrant, round)?;
        Ok(count_protests(&self.protests, &first))
    }

    fn has_open_protest(&mut self, _alloc: Global, round: &RoundId) -> Result<bool, StoreFault> {
        Ok(has_open(&self.protests, round))
    }

    fn protests_of(
        &mut self,
        alloc: Global,
        entrant: &Name,
        round: &RoundId,
    ) -> Result<Vec<ProtestRow>, StoreFault> {
        let first = first_protest(alloc, entrant, round)?;
        Ok(protest_rows(alloc, &self.protests, &first)?)
    }

    fn protests_in(
        &mut self,
        alloc: Global,
        round: &RoundId,
    ) -> Result<Vec<ProtestRow>, StoreFault> {
        Ok(protest_rows_in(alloc, &self.protests, round)?)
    }

    fn feed_protests<K: Sink<ProtestRow>>(
        &mut self,
        _alloc: Global,
        round: &RoundId,
        sink: &mut K,
    ) -> Result<(), StoreFault> {
        Ok(feed_protests(&self.protests, round, sink)?)
    }
}

impl Store for MapStore {
    fn import(&mut self, _alloc: Global, people: &People) -> Result<(), StoreFault> {
        // A copy takes the place of the people at the end, so that a refusal leaves them.
        let list = people.as_slice();
        let people = with_people(&self.people, list)?;
        index_people(&mut self.keys, list)?;
        self.people = people;
        Ok(())
    }

    fn put_puzzle(&mut self, _alloc: Global, row: PuzzleRow) -> Result<(), StoreFault> {
        let key = own_key(&row)?;
        put(&mut self.puzzles, key, row)?;
        Ok(())
    }

    fn set_state(
        &mut self,
        _alloc: Global,
        key: &PuzzleKey,
        state: PuzzleState,
    ) -> Result<(), StoreFault> {
        match self.puzzles.get_mut(key) {
            Some(row) => {
                row.state = state;
                Ok(())
            }
            None => unreachable!(),
        }
    }

    fn put_round(&mut self, _alloc: Global, row: RoundRow) -> Result<(), StoreFault> {
        index_round(&mut self.uses, &row)?;
        put_round(&mut self.rounds, row)?;
        Ok(())
    }

    fn set_round_flag(
        &mut self,
        _alloc: Global,
        id: &RoundId,
        flag: RoundFlag,
    ) -> Result<(), StoreFault> {
        match self.rounds.get_mut(id) {
            Some(row) => {
                set_flag(&mut row.round, flag);
                Ok(())
            }
            None => unreachable!(),
        }
    }

    fn add_answer(&mut self, _alloc: Global, row: AnswerRow) -> Result<(), StoreFault> {
        put_answer(&mut self.answers, row)?;
        Ok(())
    }

    fn add_answers(&mut self, _alloc: Global, rows: &JointAnswers) -> Result<(), StoreFault> {
        // A copy takes the place of the answers at the end, so that a refusal leaves them.
        let answers = with_answers(self, rows.as_slice())?;
        self.answers = answers;
        Ok(())
    }

    fn add_protest(&mut self, _alloc: Global, row: ProtestRow) -> Result<(), StoreFault> {
        let key = own_protest_key(&row)?;
        put(&mut self.protests, key, row)?;
        Ok(())
    }

    fn rule_protest(
        &mut self,
        _alloc: Global,
        key: &ProtestKey,
        ruling: Ruling,
    ) -> Result<(), StoreFault> {
        match self.protests.get_mut(key) {
            Some(row) => {
                row.ruling = Some(ruling);
                Ok(())
            }
            None => unreachable!(),
        }
    }
}

/// Sets the flag of the round.
fn set_flag(round: &mut Round, flag: RoundFlag)
    ensures { round.new ≡ flagged flag round.old }
{
    match flag {
        RoundFlag::Released => round.released = true,
        RoundFlag::Published => round.published = true,
    }
}

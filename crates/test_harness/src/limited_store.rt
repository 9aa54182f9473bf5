//! A store that fails after so many calls.
ghost use Rattle.std.specs.Prelude.{⊤};

use hall_policy::{
    AnswerKey, AnswerNumber, AnswerRow, Key, Name, People, Person, ProtestKey, ProtestRow,
    PuzzleKey, PuzzleNumber, PuzzleRow, PuzzleState, Round, RoundId, RoundRow, Ruling, Sink,
};
use hall_store::{JointAnswers, MapStore, ReadStore, RoundFlag, Store, StoreFault};
use std::alloc::Global;

/// A store that answers so many calls, and fails at each further one. It hands on to the store that it was lent.
#[derive(Drop)]
pub struct LimitedStore<'a> {
    /// What answers the calls.
    pub store: &'a mut MapStore,
    /// How many calls are left.
    pub left: u64,
}

/// Takes one of the calls that are left.
fn spend(left: &mut u64) -> Result<(), StoreFault> {
    if *left == 0 {
        return Err(StoreFault::Failed);
    }
    *left -= 1;
    Ok(())
}

impl ReadStore for LimitedStore<'_> {
    ghost use Rattle.hall_store.specs.Maps.{content_of_maps};

    ghost content = { λ limited.
        record (content_of_maps limited.store.now) { can_fail = ⊤; can_refuse = λ _. ⊤ } };

    fn at_rest(&self) {
        self.store.at_rest();
    }

    fn person_by_key(&mut self, alloc: Global, key: &Key) -> Result<Option<Person>, StoreFault> {
        spend(&mut self.left)?;
        self.store.person_by_key(alloc, key)
    }

    fn person(&mut self, alloc: Global, name: &Name) -> Result<Option<Person>, StoreFault> {
        spend(&mut self.left)?;
        self.store.person(alloc, name)
    }

    fn people(&mut self, alloc: Global) -> Result<Vec<Person>, StoreFault> {
        spend(&mut self.left)?;
        self.store.people(alloc)
    }

    fn people_after(
        &mut self,
        alloc: Global,
        after: &Option<Name>,
    ) -> Result<Vec<Person>, StoreFault> {
        spend(&mut self.left)?;
        self.store.people_after(alloc, after)
    }

    fn puzzle(&mut self, alloc: Global, key: &PuzzleKey) -> Result<Option<PuzzleRow>, StoreFault> {
        spend(&mut self.left)?;
        self.store.puzzle(alloc, key)
    }

    fn puzzles_of(&mut self, alloc: Global, author: &Name) -> Result<Vec<PuzzleRow>, StoreFault> {
        spend(&mut self.left)?;
        self.store.puzzles_of(alloc, author)
    }

    fn all_puzzles(&mut self, alloc: Global) -> Result<Vec<PuzzleRow>, StoreFault> {
        spend(&mut self.left)?;
        self.store.all_puzzles(alloc)
    }

    fn puzzles_put(&mut self, alloc: Global, author: &Name) -> Result<u64, StoreFault> {
        spend(&mut self.left)?;
        self.store.puzzles_put(alloc, author)
    }

    fn round(&mut self, alloc: Global, id: &RoundId) -> Result<Option<RoundRow>, StoreFault> {
        spend(&mut self.left)?;
        self.store.round(alloc, id)
    }

    fn testers_of(&mut self, alloc: Global, round: &RoundId) -> Result<Vec<Name>, StoreFault> {
        spend(&mut self.left)?;
        self.store.testers_of(alloc, round)
    }

    fn rounds(&mut self, alloc: Global) -> Result<Vec<Round>, StoreFault> {
        spend(&mut self.left)?;
        self.store.rounds(alloc)
    }

    fn rounds_using(&mut self, alloc: Global, key: &PuzzleKey) -> Result<Vec<RoundId>, StoreFault> {
        spend(&mut self.left)?;
        self.store.rounds_using(alloc, key)
    }

    fn answer(&mut self, alloc: Global, key: &AnswerKey) -> Result<Option<AnswerRow>, StoreFault> {
        spend(&mut self.left)?;
        self.store.answer(alloc, key)
    }

    fn answers_given(
        &mut self,
        alloc: Global,
        entrant: &Name,
        round: &RoundId,
        number: PuzzleNumber,
    ) -> Result<u64, StoreFault> {
        spend(&mut self.left)?;
        self.store.answers_given(alloc, entrant, round, number)
    }

    fn is_number_taken(
        &mut self,
        alloc: Global,
        entrant: &Name,
        round: &RoundId,
        number: PuzzleNumber,
        n: AnswerNumber,
    ) -> Result<bool, StoreFault> {
        spend(&mut self.left)?;
        self.store.is_number_taken(alloc, entrant, round, number, n)
    }

    fn answers_of(
        &mut self,
        alloc: Global,
        entrant: &Name,
        round: &RoundId,
    ) -> Result<Vec<AnswerRow>, StoreFault> {
        spend(&mut self.left)?;
        self.store.answers_of(alloc, entrant, round)
    }

    fn answers_in(&mut self, alloc: Global, round: &RoundId) -> Result<Vec<AnswerRow>, StoreFault> {
        spend(&mut self.left)?;
        self.store.answers_in(alloc, round)
    }

    fn feed_answers<K: Sink<AnswerRow>>(
        &mut self,
        alloc: Global,
        round: &RoundId,
        after: &Option<Name>,
        last: &Option<Name>,
        sink: &mut K,
    ) -> Result<(), StoreFault> {
        spend(&mut self.left)?;
        self.store.feed_answers(alloc, round, after, last, sink)
    }

    fn has_answered(
        &mut self,
        alloc: Global,
        entrant: &Name,
        round: &RoundId,
    ) -> Result<bool, StoreFault> {
        spend(&mut self.left)?;
        self.store.has_answered(alloc, entrant, round)
    }

    fn protest(
        &mut self,
        alloc: Global,
        key: &ProtestKey,
    ) -> Result<Option<ProtestRow>, StoreFault> {
        spend(&mut self.left)?;
        self.store.protest(alloc, key)
    }

    fn protests_made(
        &mut self,
        alloc: Global,
        entrant: &Name,
        round: &RoundId,
    ) -> Result<u64, StoreFault> {
        spend(&mut self.left)?;
        self.store.protests_made(alloc, entrant, round)
    }

    fn has_open_protest(&mut self, alloc: Global, round: &RoundId) -> Result<bool, StoreFault> {
        spend(&mut self.left)?;
        self.store.has_open_protest(alloc, round)
    }

    fn protests_of(
        &mut self,
        alloc: Global,
        entrant: &Name,
        round: &RoundId,
    ) -> Result<Vec<ProtestRow>, StoreFault> {
        spend(&mut self.left)?;
        self.store.protests_of(alloc, entrant, round)
    }

    fn protests_in(
        &mut self,
        alloc: Global,
        round: &RoundId,
    ) -> Result<Vec<ProtestRow>, StoreFault> {
        spend(&mut self.left)?;
        self.store.protests_in(alloc, round)
    }

    fn feed_protests<K: Sink<ProtestRow>>(
        &mut self,
        alloc: Global,
        round: &RoundId,
        sink: &mut K,
    ) -> Result<(), StoreFault> {
        spend(&mut self.left)?;
        self.store.feed_protests(alloc, round, sink)
    }
}

impl Store for LimitedStore<'_> {
    fn import(&mut self, alloc: Global, people: &People) -> Result<(), StoreFault> {
        spend(&mut self.left)?;
        self.store.import(alloc, people)
    }

    fn put_puzzle(&mut self, alloc: Global, row: PuzzleRow) -> Result<(), StoreFault> {
        spend(&mut self.left)?;
        self.store.put_puzzle(alloc, row)
    }

    fn set_state(
        &mut self,
        alloc: Global,
        key: &PuzzleKey,
        state: PuzzleState,
    ) -> Result<(), StoreFault> {
        spend(&mut self.left)?;
        self.store.set_state(alloc, key, state)
    }

    fn put_round(&mut self, alloc: Global, row: RoundRow) -> Result<(), StoreFault> {
        spend(&mut self.left)?;
        self.store.put_round(alloc, row)
    }

    fn set_round_flag(
        &mut self,
        alloc: Global,
        id: &RoundId,
        flag: RoundFlag,
    ) -> Result<(), StoreFault> {
        spend(&mut self.left)?;
        self.store.set_round_flag(alloc, id, flag)
    }

    fn add_answer(&mut self, alloc: Global, row: AnswerRow) -> Result<(), StoreFault> {
        spend(&mut self.left)?;
        self.store.add_answer(alloc, row)
    }

    fn add_answers(&mut self, alloc: Global, rows: &JointAnswers) -> Result<(), StoreFault> {
        spend(&mut self.left)?;
        self.store.add_answers(alloc, rows)
    }

    fn add_protest(&mut self, alloc: Global, row: ProtestRow) -> Result<(), StoreFault> {
        spend(&mut self.left)?;
        self.store.add_protest(alloc, row)
    }

    fn rule_protest(
        &mut self,
        alloc: Global,
        key: &ProtestKey,
        ruling: Ruling,
    ) -> Result<(), StoreFault> {
        spend(&mut self.left)?;
        self.store.rule_protest(alloc, key, ruling)
    }
}

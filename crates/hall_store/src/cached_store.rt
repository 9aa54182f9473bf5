//! A store with a cache before it.
use crate::cache::Cache;
use crate::change::RoundFlag;
use crate::fault::StoreFault;
use crate::joint::JointAnswers;
use crate::store::{ReadStore, Store};
use hall_policy::{
    AnswerKey, AnswerNumber, AnswerRow, Key, Name, People, Person, ProtestKey, ProtestRow,
    PuzzleKey, PuzzleNumber, PuzzleRow, PuzzleState, Round, RoundId, RoundRow, Ruling, Sink,
};
use std::alloc::Global;
use std::marker::Model;

/// A store, and copies of what it told: of people by key, of rounds by id, and of puzzles. A read that finds a copy
/// asks the store nothing.
///
/// There are at most 5,000 copies of people, and 1,000 of either other kind. All are forgotten before a write that may
/// change one, and where the store refuses a call, which may have shut it.
#[derive(Drop)]
pub struct CachedStore<S: ReadStore> {
    store: S,
    cache: Cache,
}

impl<S: ReadStore> Model for CachedStore<S> {
    ghost use Rattle.hall_store.specs.Cache.{CacheAgrees};

    ghost Value = { S };

    ghost view = { λ s. s.store };

    ghost invariant = { λ s. CacheAgrees (S.content s.store) s.cache };
}

impl<S: ReadStore> CachedStore<S> {
    ghost use Rattle.std.specs.Prelude.{◌≡◌};

    /// The store with an empty cache.
    pub fn new(alloc: Global, store: S) -> CachedStore<S>
        ensures { result ≡ store }
    {
        CachedStore {
            store,
            cache: Cache::new(alloc),
        }
    }

    /// The store, without the cache.
    pub fn into_store(self) -> S
        ensures { result ≡ self }
    {
        self.store
    }
}

impl<S: ReadStore> ReadStore for CachedStore<S> {
    ghost content = { S.content };

    fn at_rest(&self) {
        self.store.at_rest();
    }

    fn person_by_key(&mut self, alloc: Global, key: &Key) -> Result<Option<Person>, StoreFault> {
        if let Some(person) = self.cache.person(key) {
            return Ok(Some(person));
        }
        let told = self.store.person_by_key(alloc, key);
        self.cache.forget_if_refused(&told);
        let found = told?;
        if let Some(person) = &found {
            // Without memory for it, there is no copy.
            let _ = self.cache.keep_person(key, person);
        }
        Ok(found)
    }

    fn person(&mut self, alloc: Global, name: &Name) -> Result<Option<Person>, StoreFault> {
        let told = self.store.person(alloc, name);
        self.cache.forget_if_refused(&told);
        told
    }

    fn people(&mut self, alloc: Global) -> Result<Vec<Person>, StoreFault> {
        let told = self.store.people(alloc);
        self.cache.forget_if_refused(&told);
        told
    }

    fn people_after(
        &mut self,
        alloc: Global,
        after: &Option<Name>,
    ) -> Result<Vec<Person>, StoreFault> {
        let told = self.store.people_after(alloc, after);
        self.cache.forget_if_refused(&told);
        told
    }

    fn puzzle(&mut self, alloc: Global, key: &PuzzleKey) -> Result<Option<PuzzleRow>, StoreFault> {
        if let Some(row) = self.cache.puzzle(key) {
            return Ok(Some(row));
        }
        let told = self.store.puzzle(alloc, key);
        self.cache.forget_if_refused(&told);
        let found = told?;
        if let Some(row) = &found {
            // Without memory for it, there is no copy.
            let _ = self.cache.keep_puzzle(key, row);
        }
        Ok(found)
    }

    fn puzzles_of(&mut self, alloc: Global, author: &Name) -> Result<Vec<PuzzleRow>, StoreFault> {
        let told = self.store.puzzles_of(alloc, author);
        self.cache.forget_if_refused(&told);
        told
    }

    fn all_puzzles(&mut self, alloc: Global) -> Result<Vec<PuzzleRow>, StoreFault> {
        let told = self.store.all_puzzles(alloc);
        self.cache.forget_if_refused(&told);
        told
    }

    fn puzzles_put(&mut self, alloc: Global, author: &Name) -> Result<u64, StoreFault> {
        let told = self.store.puzzles_put(alloc, author);
        self.cache.forget_if_refused(&told);
        told
    }

    fn round(&mut self, alloc: Global, id: &RoundId) -> Result<Option<RoundRow>, StoreFault> {
        if let Some(row) = self.cache.round(id) {
            return Ok(Some(row));
        }
        let told = self.store.round(alloc, id);
        self.cache.forget_if_refused(&told);
        let found = told?;
        if let Some(row) = &found {
            // Without memory for it, there is no copy.
            let _ = self.cache.keep_round(id, row);
        }
        Ok(found)
    }

    fn testers_of(&mut self, alloc: Global, round: &RoundId) -> Result<Vec<Name>, StoreFault> {
        let told = self.store.testers_of(alloc, round);
        self.cache.forget_if_refused(&told);
        told
    }

    fn rounds(&mut self, alloc: Global) -> Result<Vec<Round>, StoreFault> {
        let told = self.store.rounds(alloc);
        self.cache.forget_if_refused(&told);
        told
    }

    fn rounds_using(&mut self, alloc: Global, key: &PuzzleKey) -> Result<Vec<RoundId>, StoreFault> {
        let told = self.store.rounds_using(alloc, key);
        self.cache.forget_if_refused(&told);
        told
    }

    fn answer(&mut self, alloc: Global, key: &AnswerKey) -> Result<Option<AnswerRow>, StoreFault> {
        let told = self.store.answer(alloc, key);
        self.cache.forget_if_refused(&told);
        told
    }

    fn answers_given(
        &mut self,
        alloc: Global,
        entrant: &Name,
        round: &RoundId,
        number: PuzzleNumber,
    ) -> Result<u64, StoreFault> {
        let told = self.store.answers_given(alloc, entrant, round, number);
        self.cache.forget_if_refused(&told);
        told
    }

    fn is_number_taken(
        &mut self,
        alloc: Global,
        entrant: &Name,
        round: &RoundId,
        number: PuzzleNumber,
        n: AnswerNumber,
    ) -> Result<bool, StoreFault> {
        let told = self.store.is_number_taken(alloc, entrant, round, number, n);
        self.cache.forget_if_refused(&told);
        told
    }

    fn answers_of(
        &mut self,
        alloc: Global,
        entrant: &Name,
        round: &RoundId,
    ) -> Result<Vec<AnswerRow>, StoreFault> {
        let told = self.store.answers_of(alloc, entrant, round);
        self.cache.forget_if_refused(&told);
        told
    }

    fn answers_in(&mut self, alloc: Global, round: &RoundId) -> Result<Vec<AnswerRow>, StoreFault> {
        let told = self.store.answers_in(alloc, round);
        self.cache.forget_if_refused(&told);
        told
    }

    fn feed_answers<K: Sink<AnswerRow>>(
        &mut self,
        alloc: Global,
        round: &RoundId,
        after: &Option<Name>,
        last: &Option<Name>,
        sink: &mut K,
    ) -> Result<(), StoreFault> {
        let told = self.store.feed_answers(alloc, round, after, last, sink);
        self.cache.forget_if_refused(&told);
        told
    }

    fn has_answered(
        &mut self,
        alloc: Global,
        entrant: &Name,
        round: &RoundId,
    ) -> Result<bool, StoreFault> {
        let told = self.store.has_answered(alloc, entrant, round);
        self.cache.forget_if_refused(&told);
        told
    }

    fn protest(
        &mut self,
        alloc: Global,
        key: &ProtestKey,
    ) -> Result<Option<ProtestRow>, StoreFault> {
        let told = self.store.protest(alloc, key);
        self.cache.forget_if_refused(&told);
        told
    }

    fn protests_made(
        &mut self,
        alloc: Global,
        entrant: &Name,
        round: &RoundId,
    ) -> Result<u64, StoreFault> {
        let told = self.store.protests_made(alloc, entrant, round);
        self.cache.forget_if_refused(&told);
        told
    }

    fn has_open_protest(&mut self, alloc: Global, round: &RoundId) -> Result<bool, StoreFault> {
        let told = self.store.has_open_protest(alloc, round);
        self.cache.forget_if_refused(&told);
        told
    }

    fn protests_of(
        &mut self,
        alloc: Global,
        entrant: &Name,
        round: &RoundId,
    ) -> Result<Vec<ProtestRow>, StoreFault> {
        let told = self.store.protests_of(alloc, entrant, round);
        self.cache.forget_if_refused(&told);
        told
    }

    fn protests_in(
        &mut self,
        alloc: Global,
        round: &RoundId,
    ) -> Result<Vec<ProtestRow>, StoreFault> {
        let told = self.store.protests_in(alloc, round);
        self.cache.forget_if_refused(&told);
        told
    }

    fn feed_protests<K: Sink<ProtestRow>>(
        &mut self,
        alloc: Global,
        round: &RoundId,
        sink: &mut K,
    ) -> Result<(), StoreFault> {
        let told = self.store.feed_protests(alloc, round, sink);
        self.cache.forget_if_refused(&told);
        told
    }
}

impl<S: Store> Store for CachedStore<S> {
    fn import(&mut self, alloc: Global, people: &People) -> Result<(), StoreFault> {
        self.cache.clear();
        self.store.import(alloc, people)
    }

    fn put_puzzle(&mut self, alloc: Global, row: PuzzleRow) -> Result<(), StoreFault> {
        self.cache.clear();
        self.store.put_puzzle(alloc, row)
    }

    fn set_state(
        &mut self,
        alloc: Global,
        key: &PuzzleKey,
        state: PuzzleState,
    ) -> Result<(), StoreFault> {
        self.cache.clear();
        self.store.set_state(alloc, key, state)
    }

    fn put_round(&mut self, alloc: Global, row: RoundRow) -> Result<(), StoreFault> {
        self.cache.clear();
        self.store.put_round(alloc, row)
    }

    fn set_round_flag(
        &mut self,
        alloc: Global,
        id: &RoundId,
        flag: RoundFlag,
    ) -> Result<(), StoreFault> {
        self.cache.clear();
        self.store.set_round_flag(alloc, id, flag)
    }

    fn add_answer(&mut self, alloc: Global, row: AnswerRow) -> Result<(), StoreFault> {
        let told = self.store.add_answer(alloc, row);
        self.cache.forget_if_refused(&told);
        told
    }

    fn add_answers(&mut self, alloc: Global, rows: &JointAnswers) -> Result<(), StoreFault> {
        let told = self.store.add_answers(alloc, rows);
        self.cache.forget_if_refused(&told);
        told
    }

    fn add_protest(&mut self, alloc: Global, row: ProtestRow) -> Result<(), StoreFault> {
        let told = self.store.add_protest(alloc, row);
        self.cache.forget_if_refused(&told);
        told
    }

    fn rule_protest(
        &mut self,
        alloc: Global,
        key: &ProtestKey,
        ruling: Ruling,
    ) -> Result<(), StoreFault> {
        let told = self.store.rule_protest(alloc, key, ruling);
        self.cache.forget_if_refused(&told);
        told
    }
}

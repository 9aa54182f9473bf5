//! The store over SQL tables.
ghost use Rattle.std.specs.Prelude.{◌≡◌, IfOk, IfErr};
ghost use Rattle.std.specs.FinMap.{empty};
ghost use Rattle.sqlite.specs.Held.{state};
ghost use Rattle.sqlite.specs.State.{HasCleanDisk};
ghost use Rattle.hall_policy.specs.World.{World};
ghost use Rattle.hall_store.specs.Store.{Fails};
ghost use Rattle.hall_store.specs.declared.fault.StoreFault.TheVariants.{Failed};
ghost use Rattle.hall_sql.specs.AdoptCause.{AdoptFails};
ghost use Rattle.hall_sql.specs.AllRead.{AreAllRead};
ghost use Rattle.hall_sql.specs.BadRows.{AreNone, AreToldBad, HaveRoom};
ghost use Rattle.hall_sql.specs.CanFail.{StoreCanFail};
ghost use Rattle.hall_sql.specs.Cause.{IsStoreCause};
ghost use Rattle.hall_sql.specs.FillCause.{TakeFails};
ghost use Rattle.hall_sql.specs.Made.{all_tables};
ghost use Rattle.hall_sql.specs.Migrate.{Leaves, StopsAtWorld, TargetTakes};
ghost use Rattle.hall_sql.specs.Standing.{HasAdopted, HasDeclined, IsHall, MakesAtMost, KeptTables};
ghost use Rattle.hall_sql.specs.Tables.{hall_schema};
ghost use Rattle.hall_sql.specs.WholeRows.{AreRowsOf};

use crate::adoption::adopt;
use crate::answers::{
    ANSWER, ANSWERS_BETWEEN, ANSWERS_GIVEN, ANSWERS_IN, ANSWERS_OF, NUMBER_TAKEN, add_answer,
    add_answers, all_answers,
};
use crate::bad_rows::{BadRows, bad_rows};
use crate::bounds::{text_before, text_up_to};
use crate::calls::live;
use crate::counts::count;
use crate::declined::Declined;
use crate::feed::feed;
use crate::migration::{Migrated, take_rows};
use crate::people::{PEOPLE_AFTER, PERSON, PERSON_BY_KEY, all_people, import};
use crate::protests::{
    PROTESTS_IN, PROTESTS_OF, add_protest, all_protests, has_open_protest, protest, protests_in,
    rule_protest,
};
use crate::puzzles::{all_puzzles, put_puzzle, puzzle, puzzles_of, set_state};
use crate::reads::{find, read};
use crate::record::{Place, Tester};
use crate::round_writes::{put_round, set_round_flag};
use crate::rounds::{all_places, round, rounds, rounds_using};
use crate::tables::ALL;
use crate::testers::{all_testers, testers_of};
use crate::whole::Whole;
use hall_policy::{
    AnswerKey, AnswerNumber, AnswerRow, Key, Name, People, Person, ProtestKey, ProtestRow,
    PuzzleKey, PuzzleNumber, PuzzleRow, PuzzleState, Round, RoundId, RoundRow, Ruling, Sink,
};
use hall_store::{JointAnswers, ReadStore, RoundFlag, Store, StoreFault, WholeStore};
use sqlite::{Alter, Connection, params};
use std::alloc::Global;
use std::marker::Model;

/// The hall's world in the seven tables of a connection, on which no transaction is open between calls.
#[derive(Drop)]
pub struct SqlStore<S: Alter> {
    conn: Connection<S>,
}

impl<S: Alter> Model for SqlStore<S> {
    ghost use Rattle.sqlite.specs.Held.{Held, held_code, state};
    ghost use Rattle.hall_sql.specs.Standing.{IsHall};

    ghost Value = { Held S };

    ghost coded = { held_code S.code };

    ghost view = { λ s. s.conn };

    ghost invariant = { λ s. IsHall (state S.Store s.conn) };
}

impl<S: Alter + Drop> SqlStore<S> {
    /// Takes over a connection with the hall's tables, or with none, where it makes them. Refused, it hands the
    /// connection back as it was.
    pub fn over(mut conn: Connection<S>) -> Result<SqlStore<S>, Declined<S>>
        ensures adopted { IfOk result (λ store. HasAdopted (state S.Store conn) (state S.Store store)) }
        ensures declined { IfErr result (λ declined. HasDeclined (state S.Store conn) (state S.Store declined.conn)) }
        ensures stops { IfErr result (λ declined. MakesAtMost (state S.Store conn) (state S.Store declined.conn)) }
        ensures cause { IfErr result (λ declined. HasCleanDisk (state S.Store declined.conn) → declined.fault ≡ Failed
            → AdoptFails (state S.Store conn) (state S.Store declined.conn)) }
    {
        match adopt(&mut conn) {
            Ok(()) => Ok(SqlStore { conn }),
            Err(fault) => Err(Declined { conn, fault }),
        }
    }

    /// The connection, as the last call left it: no transaction is open, and while it is open, all is committed.
    pub fn into_connection(self) -> Connection<S>
        ensures same { result ≡ self }
        ensures hall { IsHall (state S.Store result) }
    {
        self.conn
    }

    /// Tells a proof that the tables are the hall's.
    pub fn in_hall(&self)
        ensures { IsHall (state S.Store self.now) }
    {
        let _conn = &self.conn;
    }

    /// The rows of the tables that are no record, table by table, and whether one can be added to each.
    pub fn bad_rows(&mut self, alloc: Global) -> Result<Vec<BadRows>, StoreFault>
        ensures rested { KeptTables (state S.Store self.old) (state S.Store self.new) }
        ensures bad { HasCleanDisk (state S.Store self.new) → IfOk result (λ bad.
            AreToldBad all_tables (state S.Store self.old) (state S.Store self.new) bad.items) }
        ensures whole { HasCleanDisk (state S.Store self.new) → IfOk result (λ bad.
            AreNone bad.items → AreAllRead hall_schema (state S.Store self.old).now.trees) }
        ensures room { HasCleanDisk (state S.Store self.new) → IfOk result (λ bad.
            AreNone bad.items → HaveRoom all_tables (state S.Store self.old).now.trees) }
        ensures fault { Fails (StoreCanFail (state S.Store self.old) (state S.Store self.new)) result }
        ensures cause { HasCleanDisk (state S.Store self.new)
            → Fails (IsStoreCause (state S.Store self.old) (state S.Store self.new)) result }
    {
        bad_rows(&mut self.conn, alloc, &ALL)
    }

    /// Puts the rows in tables that hold nothing, and tells of tables that hold these or others.
    pub(crate) fn take_rows(&mut self, alloc: Global, rows: &Whole) -> Result<Migrated, StoreFault>
        ensures leaves { Leaves (state S.Store self.old) (state S.Store self.new) result }
        ensures stops { (world : World) → AreRowsOf world rows.now → world.testers ≡ empty
            → StopsAtWorld world (state S.Store self.old) (state S.Store self.new) }
        ensures takes { (world : World) → AreRowsOf world rows.now → world.testers ≡ empty
            → TargetTakes world (state S.Store self.old) (state S.Store self.new) result }
        ensures cause { HasCleanDisk (state S.Store self.new)
            → Fails (TakeFails rows.now (state S.Store self.old) (state S.Store self.new)) result }
    {
        take_rows(&mut self.conn, alloc, rows)
    }
}

impl<S: Alter + Drop> ReadStore for SqlStore<S> {
    ghost use Rattle.std.specs.Prelude.{◌≡◌, ◌↔◌, ◌⊎◌, IsTrue, IfOk, IfErr, [], ◌∷◌, pos};
    ghost use Rattle.std.specs.FinMap.{get, values};
    ghost use Rattle.sqlite.specs.declared.types.Value.TheVariants.{Text, Int};
    ghost use Rattle.sqlite.specs.Held.{state};
    ghost use Rattle.sqlite.specs.State.{HasCleanDisk};
    ghost use Rattle.hall_policy.specs.Rules.{answers_given, protests_made, puzzles_put};
    ghost use Rattle.hall_store.specs.Caller.{IsKeyHolder};
    ghost use Rattle.hall_store.specs.Store.{CanFailIn, Kept, Fails, puzzles_of, IsRoundKept, RoundCanFail, AreUsing};
    ghost use Rattle.hall_store.specs.Store.{IsNumberTaken};
    ghost use Rattle.hall_store.specs.Store.{AreTestersOf, IsListing, is_of, is_in, is_between, people_after};
    ghost use Rattle.hall_store.specs.Store.{HasSubmitted, IsProtestOpen, protests_of, protests_in};
    ghost use Rattle.hall_store.specs.Store.{Fed, IsRefusedNext};
    ghost use Rattle.hall_store.specs.declared.fault.StoreFault.TheVariants.{Failed};
    ghost use Rattle.hall_sql.specs.Rows.{person_in, puzzle_row_in, round_in, place_in, tester_in, answer_in};
    ghost use Rattle.hall_sql.specs.Rows.{protest_in};
    ghost use Rattle.hall_sql.specs.declared.people.TheConstants.{PERSON, PERSON_BY_KEY, ALL_PEOPLE, PEOPLE_AFTER};
    ghost use Rattle.hall_sql.specs.declared.puzzles.TheConstants.{PUZZLE, ALL_PUZZLES, PUZZLES_OF};
    ghost use Rattle.hall_sql.specs.declared.rounds.TheConstants.{ALL_ROUNDS, PLACES_WITH};
    ghost use Rattle.hall_sql.specs.declared.answers.TheConstants.{ANSWER, ANSWERS_GIVEN, NUMBER_TAKEN};
    ghost use Rattle.hall_sql.specs.declared.answers.TheConstants.{ANSWERS_OF, ANSWERS_IN, ANSWERS_BETWEEN};
    ghost use Rattle.hall_sql.specs.declared.protests.TheConstants.{PROTEST, PROTESTS_OF, PROTESTS_IN};
    ghost use Rattle.hall_sql.specs.declared.testers.TheConstants.{TESTERS_OF};
    ghost use Rattle.hall_sql.specs.Bounds.{text_before, between_params};
    ghost use Rattle.hall_sql.specs.Reads.{Reads, ReadsRows};
    ghost use Rattle.hall_sql.specs.Whole.{AreRecords, IsRoundRead};
    ghost use Rattle.hall_sql.specs.Cause.{FeedFails, RoundFails};
    ghost use Rattle.hall_sql.specs.Content.{content_of};
    ghost use Rattle.hall_sql.specs.Standing.{KeptTables};

    ghost content = { λ s. content_of (state S.Store s) };

    fn at_rest(&self) {
        self.in_hall();
        live(&self.conn);
    }

    fn person_by_key(&mut self, alloc: Global, key: &Key) -> Result<Option<Person>, StoreFault>
        ensures { ReadsRows person_in PERSON_BY_KEY.now (Text key.now ∷ []) (state S.Store self.old)
            (state S.Store self.new) result (λ world found. IsKeyHolder world key.now found) }
    {
        let _schema = self.conn.schema();
        find(&mut self.conn, alloc, PERSON_BY_KEY, params![key.as_str()])
    }

    fn person(&mut self, alloc: Global, name: &Name) -> Result<Option<Person>, StoreFault>
        ensures { ReadsRows person_in PERSON.now (Text name.now ∷ []) (state S.Store self.old) (state S.Store self.new)
            result (λ world found. found ≡ get world.people name.now) }
    {
        find(&mut self.conn, alloc, PERSON, params![name.as_str()])
    }

    fn people(&mut self, alloc: Global) -> Result<Vec<Person>, StoreFault>
        ensures { ReadsRows person_in ALL_PEOPLE.now [] (state S.Store self.old) (state S.Store self.new) result
            (λ world people. people.items ≡ values world.people) }
    {
        all_people(&mut self.conn, alloc)
    }

    fn people_after(
        &mut self,
        alloc: Global,
        after: &Option<Name>,
    ) -> Result<Vec<Person>, StoreFault>
        ensures { ReadsRows person_in PEOPLE_AFTER.now (Text (text_before after.now) ∷ []) (state S.Store self.old)
            (state S.Store self.new) result (λ world people. people.items ≡ people_after world after.now) }
    {
        let _schema = self.conn.schema();
        read(
            &mut self.conn,
            alloc,
            PEOPLE_AFTER,
            params![text_before(after)],
        )
    }

    fn puzzle(&mut self, alloc: Global, key: &PuzzleKey) -> Result<Option<PuzzleRow>, StoreFault>
        ensures { ReadsRows puzzle_row_in PUZZLE.now (Text key.now.author ∷ Text key.now.label ∷ [])
            (state S.Store self.old) (state S.Store self.new) result
            (λ world found. found ≡ get world.puzzles key.now) }
    {
        puzzle(&mut self.conn, alloc, key)
    }

    fn puzzles_of(&mut self, alloc: Global, author: &Name) -> Result<Vec<PuzzleRow>, StoreFault>
        ensures { ReadsRows puzzle_row_in PUZZLES_OF.now (Text author.now ∷ []) (state S.Store self.old)
            (state S.Store self.new) result (λ world rows. rows.items ≡ puzzles_of world author.now) }
    {
        puzzles_of(&mut self.conn, alloc, author)
    }

    fn all_puzzles(&mut self, alloc: Global) -> Result<Vec<PuzzleRow>, StoreFault>
        ensures { ReadsRows puzzle_row_in ALL_PUZZLES.now [] (state S.Store self.old) (state S.Store self.new)
            result (λ world rows. rows.items ≡ values world.puzzles) }
    {
        all_puzzles(&mut self.conn, alloc)
    }

    fn puzzles_put(&mut self, alloc: Global, author: &Name) -> Result<u64, StoreFault>
        ensures { ReadsRows puzzle_row_in PUZZLES_OF.now (Text author.now ∷ []) (state S.Store self.old)
            (state S.Store self.new) result (λ world count. count ≡ puzzles_put world author.now) }
    {
        Ok(puzzles_of(&mut self.conn, alloc, author)?.len() as u64)
    }

    fn round(&mut self, alloc: Global, id: &RoundId) -> Result<Option<RoundRow>, StoreFault>
        ensures { Reads (state S.Store self.old) (state S.Store self.new) result
            (λ world found. IsRoundKept world id.now found)
            (IsRoundRead S.Store id.now (state S.Store self.old) (state S.Store self.new))
            (RoundCanFail id.now (content_of (state S.Store self.old)) (content_of (state S.Store self.new)))
            (RoundFails id.now (state S.Store self.old) (state S.Store self.new)) }
    {
        round(&mut self.conn, alloc, id)
    }

    fn testers_of(&mut self, alloc: Global, id: &RoundId) -> Result<Vec<Name>, StoreFault>
        ensures { ReadsRows tester_in TESTERS_OF.now (Text id.now ∷ []) (state S.Store self.old)
            (state S.Store self.new) result (λ world names. AreTestersOf world id.now names.items) }
    {
        testers_of(&mut self.conn, alloc, id)
    }

    fn rounds(&mut self, alloc: Global) -> Result<Vec<Round>, StoreFault>
        ensures { ReadsRows round_in ALL_ROUNDS.now [] (state S.Store self.old) (state S.Store self.new) result
            (λ world rounds. rounds.items ≡ values world.rounds) }
    {
        rounds(&mut self.conn, alloc)
    }

    fn rounds_using(&mut self, alloc: Global, key: &PuzzleKey) -> Result<Vec<RoundId>, StoreFault>
        ensures { ReadsRows place_in PLACES_WITH.now (Text key.now.author ∷ Text key.now.label ∷ [])
            (state S.Store self.old) (state S.Store self.new) result (λ world ids. AreUsing world key.now ids.items) }
    {
        rounds_using(&mut self.conn, alloc, key)
    }

    fn answer(&mut self, alloc: Global, key: &AnswerKey) -> Result<Option<AnswerRow>, StoreFault>
        ensures { ReadsRows answer_in ANSWER.now
            (Text key.now.entrant ∷ Text key.now.round ∷ Int (pos key.now.number) ∷ Text key.now.token ∷ [])
            (state S.Store self.old) (state S.Store self.new) result
            (λ world found. found ≡ get world.answers key.now) }
    {
        find(
            &mut self.conn,
            alloc,
            ANSWER,
            params![
                key.entrant.as_str(),
                key.round.as_str(),
                key.number.get() as u32,
                key.token.as_str()
            ],
        )
    }

    fn answers_given(
        &mut self,
        _alloc: Global,
        entrant: &Name,
        round: &RoundId,
        number: PuzzleNumber,
    ) -> Result<u64, StoreFault>
        ensures { ReadsRows answer_in ANSWERS_GIVEN.now (Text entrant.now ∷ Text round.now ∷ Int (pos number) ∷ [])
            (state S.Store self.old) (state S.Store self.new) result
            (λ world count. count ≡ answers_given world entrant.now round.now number) }
    {
        let _schema = self.conn.schema();
        count::<S, AnswerRow>(
            &mut self.conn,
            ANSWERS_GIVEN,
            params![entrant.as_str(), round.as_str(), number.get() as u32],
        )
    }

    fn is_number_taken(
        &mut self,
        _alloc: Global,
        entrant: &Name,
        round: &RoundId,
        number: PuzzleNumber,
        n: AnswerNumber,
    ) -> Result<bool, StoreFault>
        ensures { ReadsRows answer_in NUMBER_TAKEN.now
            (Text entrant.now ∷ Text round.now ∷ Int (pos number) ∷ Int (pos n) ∷ []) (state S.Store self.old)
            (state S.Store self.new) result
            (λ world taken. IsTrue taken ↔ IsNumberTaken world entrant.now round.now number n) }
    {
        let _schema = self.conn.schema();
        let count = count::<S, AnswerRow>(
            &mut self.conn,
            NUMBER_TAKEN,
            params![
                entrant.as_str(),
                round.as_str(),
                number.get() as u32,
                n.get() as u32
            ],
        )?;
        Ok(count != 0)
    }

    fn answers_of(
        &mut self,
        alloc: Global,
        entrant: &Name,
        round: &RoundId,
    ) -> Result<Vec<AnswerRow>, StoreFault>
        ensures { ReadsRows answer_in ANSWERS_OF.now (Text entrant.now ∷ Text round.now ∷ []) (state S.Store self.old)
            (state S.Store self.new) result (λ world rows. IsListing world (is_of entrant.now round.now) rows.items) }
    {
        let _schema = self.conn.schema();
        read(
            &mut self.conn,
            alloc,
            ANSWERS_OF,
            params![entrant.as_str(), round.as_str()],
        )
    }

    fn answers_in(&mut self, alloc: Global, round: &RoundId) -> Result<Vec<AnswerRow>, StoreFault>
        ensures { ReadsRows answer_in ANSWERS_IN.now (Text round.now ∷ []) (state S.Store self.old)
            (state S.Store self.new) result (λ world rows. IsListing world (is_in round.now) rows.items) }
    {
        let _schema = self.conn.schema();
        read(&mut self.conn, alloc, ANSWERS_IN, params![round.as_str()])
    }

    fn feed_answers<K: Sink<AnswerRow>>(
        &mut self,
        alloc: Global,
        round: &RoundId,
        after: &Option<Name>,
        last: &Option<Name>,
        sink: &mut K,
    ) -> Result<(), StoreFault>
        ensures kept { Kept (content_of (state S.Store self.old)) (content_of (state S.Store self.new)) }
        ensures rested { KeptTables (state S.Store self.old) (state S.Store self.new) }
        ensures fed { Fed K.takes (λ world rows. IsListing world (is_between round.now after.now last.now) rows)
            (content_of (state S.Store self.old)) (content_of (state S.Store self.new)) sink.old result sink.new }
        ensures fault { IfErr result (λ fault. fault ≡ Failed → CanFailIn
            (content_of (state S.Store self.old)) (content_of (state S.Store self.new)) ⊎ IsRefusedNext
            K.takes K.refuses (λ world rows. IsListing world (is_between round.now after.now last.now) rows)
            (content_of (state S.Store self.old)) (content_of (state S.Store self.new)) sink.old sink.new) }
        ensures whole { HasCleanDisk (state S.Store self.new) → IfOk result (λ _.
            AreRecords answer_in ANSWERS_BETWEEN.now (between_params round.now after.now last.now)
            (state S.Store self.old) (state S.Store self.new)) }
        ensures cause { HasCleanDisk (state S.Store self.new) → Fails
            (FeedFails answer_in K.takes K.refuses ANSWERS_BETWEEN.now (between_params round.now after.now last.now)
            (state S.Store self.old) (state S.Store self.new) sink.old sink.new) result }
    {
        let _schema = self.conn.schema();
        feed::<S, K, AnswerRow>(
            &mut self.conn,
            alloc,
            ANSWERS_BETWEEN,
            params![round.as_str(), text_before(after), text_up_to(last)],
            sink,
        )
    }

    fn has_answered(
        &mut self,
        _alloc: Global,
        entrant: &Name,
        round: &RoundId,
    ) -> Result<bool, StoreFault>
        ensures { ReadsRows answer_in ANSWERS_OF.now (Text entrant.now ∷ Text round.now ∷ []) (state S.Store self.old)
            (state S.Store self.new) result (λ world found. IsTrue found ↔ HasSubmitted world entrant.now round.now) }
    {
        let _schema = self.conn.schema();
        let given = count::<S, AnswerRow>(
            &mut self.conn,
            ANSWERS_OF,
            params![entrant.as_str(), round.as_str()],
        )?;
        Ok(given != 0)
    }

    fn protest(&mut self, alloc: Global, key: &ProtestKey) -> Result<Option<ProtestRow>, StoreFault>
        ensures { ReadsRows protest_in PROTEST.now (Text key.now.entrant ∷ Text key.now.round ∷ Text key.now.token ∷ [])
            (state S.Store self.old) (state S.Store self.new) result
            (λ world found. found ≡ get world.protests key.now) }
    {
        protest(&mut self.conn, alloc, key)
    }

    fn protests_made(
        &mut self,
        _alloc: Global,
        entrant: &Name,
        round: &RoundId,
    ) -> Result<u64, StoreFault>
        ensures { ReadsRows protest_in PROTESTS_OF.now (Text entrant.now ∷ Text round.now ∷ []) (state S.Store self.old)
            (state S.Store self.new) result (λ world count. count ≡ protests_made world entrant.now round.now) }
    {
        let _schema = self.conn.schema();
        count::<S, ProtestRow>(
            &mut self.conn,
            PROTESTS_OF,
            params![entrant.as_str(), round.as_str()],
        )
    }

    fn has_open_protest(&mut self, alloc: Global, round: &RoundId) -> Result<bool, StoreFault>
        ensures { ReadsRows protest_in PROTESTS_IN.now (Text round.now ∷ []) (state S.Store self.old)
            (state S.Store self.new) result (λ world found. IsTrue found ↔ IsProtestOpen world round.now) }
    {
        has_open_protest(&mut self.conn, alloc, round)
    }

    fn protests_of(
        &mut self,
        alloc: Global,
        entrant: &Name,
        round: &RoundId,
    ) -> Result<Vec<ProtestRow>, StoreFault>
        ensures { ReadsRows protest_in PROTESTS_OF.now (Text entrant.now ∷ Text round.now ∷ []) (state S.Store self.old)
            (state S.Store self.new) result (λ world rows. rows.items ≡ protests_of world entrant.now round.now) }
    {
        let _schema = self.conn.schema();
        read(
            &mut self.conn,
            alloc,
            PROTESTS_OF,
            params![entrant.as_str(), round.as_str()],
        )
    }

    fn protests_in(&mut self, alloc: Global, round: &RoundId) -> Result<Vec<ProtestRow>, StoreFault>
        ensures { ReadsRows protest_in PROTESTS_IN.now (Text round.now ∷ []) (state S.Store self.old)
            (state S.Store self.new) result (λ world rows. rows.items ≡ protests_in world round.now) }
    {
        protests_in(&mut self.conn, alloc, round)
    }

    fn feed_protests<K: Sink<ProtestRow>>(
        &mut self,
        alloc: Global,
        round: &RoundId,
        sink: &mut K,
    ) -> Result<(), StoreFault>
        ensures kept { Kept (content_of (state S.Store self.old)) (content_of (state S.Store self.new)) }
        ensures rested { KeptTables (state S.Store self.old) (state S.Store self.new) }
        ensures fed { Fed K.takes (λ world rows. rows ≡ protests_in world round.now)
            (content_of (state S.Store self.old)) (content_of (state S.Store self.new)) sink.old result sink.new }
        ensures fault { IfErr result (λ fault. fault ≡ Failed → CanFailIn
            (content_of (state S.Store self.old)) (content_of (state S.Store self.new))
            ⊎ IsRefusedNext K.takes K.refuses (λ world rows. rows ≡ protests_in world round.now)
            (content_of (state S.Store self.old)) (content_of (state S.Store self.new)) sink.old sink.new) }
        ensures whole { HasCleanDisk (state S.Store self.new) → IfOk result (λ _.
            AreRecords protest_in PROTESTS_IN.now (Text round.now ∷ []) (state S.Store self.old)
            (state S.Store self.new)) }
        ensures cause { HasCleanDisk (state S.Store self.new) → Fails
            (FeedFails protest_in K.takes K.refuses PROTESTS_IN.now (Text round.now ∷ []) (state S.Store self.old)
            (state S.Store self.new) sink.old sink.new) result }
    {
        let _schema = self.conn.schema();
        feed::<S, K, ProtestRow>(
            &mut self.conn,
            alloc,
            PROTESTS_IN,
            params![round.as_str()],
            sink,
        )
    }
}

impl<S: Alter + Drop> WholeStore for SqlStore<S> {
    ghost use Rattle.std.specs.Prelude.{◌≡◌, []};
    ghost use Rattle.std.specs.FinMap.{entries, values};
    ghost use Rattle.sqlite.specs.Held.{state};
    ghost use Rattle.hall_sql.specs.Reads.{ReadsRows};
    ghost use Rattle.hall_sql.specs.Rows.{answer_in, place_in, protest_in, tester_in};
    ghost use Rattle.hall_sql.specs.declared.answers.TheConstants.{ALL_ANSWERS};
    ghost use Rattle.hall_sql.specs.declared.protests.TheConstants.{ALL_PROTESTS};
    ghost use Rattle.hall_sql.specs.declared.rounds.TheConstants.{ALL_PLACES};
    ghost use Rattle.hall_sql.specs.declared.testers.TheConstants.{ALL_TESTERS};

    fn under_own_keys(&self) {}

    fn all_places(&mut self, alloc: Global) -> Result<Vec<Place>, StoreFault>
        ensures { ReadsRows place_in ALL_PLACES.now [] (state S.Store self.old) (state S.Store self.new) result
            (λ world places. places.items ≡ entries world.places) }
    {
        all_places(&mut self.conn, alloc)
    }

    fn all_testers(&mut self, alloc: Global) -> Result<Vec<Tester>, StoreFault>
        ensures { ReadsRows tester_in ALL_TESTERS.now [] (state S.Store self.old) (state S.Store self.new) result
            (λ world testers. testers.items ≡ entries world.testers) }
    {
        all_testers(&mut self.conn, alloc)
    }

    fn all_answers(&mut self, alloc: Global) -> Result<Vec<AnswerRow>, StoreFault>
        ensures { ReadsRows answer_in ALL_ANSWERS.now [] (state S.Store self.old) (state S.Store self.new) result
            (λ world rows. rows.items ≡ values world.answers) }
    {
        all_answers(&mut self.conn, alloc)
    }

    fn all_protests(&mut self, alloc: Global) -> Result<Vec<ProtestRow>, StoreFault>
        ensures { ReadsRows protest_in ALL_PROTESTS.now [] (state S.Store self.old) (state S.Store self.new)
            result (λ world rows. rows.items ≡ values world.protests) }
    {
        all_protests(&mut self.conn, alloc)
    }
}

impl<S: Alter + Drop> Store for SqlStore<S> {
    ghost use Rattle.std.specs.Prelude.{OnOk};
    ghost use Rattle.sqlite.specs.Held.{state};
    ghost use Rattle.sqlite.specs.State.{HasCleanDisk};
    ghost use Rattle.hall_store.specs.Store.{CanRefuseIn, Fails, Asks};
    ghost use Rattle.hall_store.specs.Change.{CanAddAnswer, CanAddAnswers, CanAddProtest};
    ghost use Rattle.hall_store.specs.declared.change.Change.TheVariants.{Import, PutPuzzle, SetState, PutRound};
    ghost use Rattle.hall_store.specs.declared.change.Change.TheVariants.{SetRoundFlag, AddAnswer, AddAnswers};
    ghost use Rattle.hall_store.specs.declared.change.Change.TheVariants.{AddProtest, RuleProtest};
    ghost use Rattle.hall_sql.specs.FillCause.{AddAnswersFails};
    ghost use Rattle.hall_sql.specs.declared.answers.TheConstants.{ADD_ANSWER};
    ghost use Rattle.hall_sql.specs.declared.protests.TheConstants.{ADD_PROTEST};
    ghost use Rattle.hall_sql.specs.Columns.{answer_params, protest_params};
    ghost use Rattle.hall_sql.specs.PuzzleText.{HasPuzzleRow, HasPuzzleState};
    ghost use Rattle.hall_sql.specs.WriteCause.{ImportFails, PutPuzzleFails, PutRoundFails, RuleFails, RunFails};
    ghost use Rattle.hall_sql.specs.WriteCause.{SetFlagFails, SetStateFails};
    ghost use Rattle.hall_sql.specs.RoundPuts.{PutsRows};
    ghost use Rattle.hall_sql.specs.Content.{MakesInTables, content_of};

    fn import(&mut self, alloc: Global, people: &People) -> Result<(), StoreFault>
        ensures wrote { MakesInTables (Import people.now) (state S.Store self.old) (state S.Store self.new) result }
        ensures fault { Fails (CanRefuseIn (Import people.now)
            (content_of (state S.Store self.old)) (content_of (state S.Store self.new))) result }
        ensures cause { HasCleanDisk (state S.Store self.new) → Fails
            (ImportFails S.Store people.now (state S.Store self.old) (state S.Store self.new)) result }
    {
        import(&mut self.conn, alloc, people)
    }

    fn put_puzzle(&mut self, alloc: Global, row: PuzzleRow) -> Result<(), StoreFault>
        ensures wrote { MakesInTables (PutPuzzle row) (state S.Store self.old) (state S.Store self.new) result }
        ensures text { HasCleanDisk (state S.Store self.new)
            → OnOk result (HasPuzzleRow row (state S.Store self.new).now) }
        ensures fault { Fails (CanRefuseIn (PutPuzzle row)
            (content_of (state S.Store self.old)) (content_of (state S.Store self.new))) result }
        ensures cause { HasCleanDisk (state S.Store self.new) → Fails
            (PutPuzzleFails row (state S.Store self.old) (state S.Store self.new)) result }
    {
        put_puzzle(&mut self.conn, alloc, &row)
    }

    fn set_state(
        &mut self,
        alloc: Global,
        key: &PuzzleKey,
        known: PuzzleState,
    ) -> Result<(), StoreFault>
        ensures wrote { MakesInTables (SetState key.now known) (state S.Store self.old) (state S.Store self.new)
            result }
        ensures text { HasCleanDisk (state S.Store self.new) → OnOk result
            (HasPuzzleState key.now known (state S.Store self.old).now (state S.Store self.new).now) }
        ensures fault { Fails (CanRefuseIn (SetState key.now known)
            (content_of (state S.Store self.old)) (content_of (state S.Store self.new))) result }
        ensures cause { HasCleanDisk (state S.Store self.new) → Fails
            (SetStateFails key.now known (state S.Store self.old) (state S.Store self.new)) result }
    {
        set_state(&mut self.conn, alloc, key, known)
    }

    fn put_round(&mut self, _alloc: Global, row: RoundRow) -> Result<(), StoreFault>
        ensures wrote { MakesInTables (PutRound row) (state S.Store self.old) (state S.Store self.new) result }
        ensures rows { HasCleanDisk (state S.Store self.new) → OnOk result
            (PutsRows row (state S.Store self.old).now (state S.Store self.new).now) }
        ensures fault { Fails (CanRefuseIn (PutRound row)
            (content_of (state S.Store self.old)) (content_of (state S.Store self.new))) result }
        ensures cause { HasCleanDisk (state S.Store self.new) → Fails
            (PutRoundFails row (state S.Store self.old) (state S.Store self.new)) result }
    {
        put_round(&mut self.conn, &row)
    }

    fn set_round_flag(
        &mut self,
        alloc: Global,
        id: &RoundId,
        flag: RoundFlag,
    ) -> Result<(), StoreFault>
        ensures wrote { MakesInTables (SetRoundFlag id.now flag) (state S.Store self.old) (state S.Store self.new)
            result }
        ensures fault { Fails (CanRefuseIn (SetRoundFlag id.now flag)
            (content_of (state S.Store self.old)) (content_of (state S.Store self.new))) result }
        ensures cause { HasCleanDisk (state S.Store self.new) → Fails
            (SetFlagFails id.now flag (state S.Store self.old) (state S.Store self.new)) result }
    {
        set_round_flag(&mut self.conn, alloc, id, flag)
    }

    fn add_answer(&mut self, _alloc: Global, row: AnswerRow) -> Result<(), StoreFault>
        requires { Asks (content_of (state S.Store self.old)) (λ world. CanAddAnswer world row) }
        ensures wrote { MakesInTables (AddAnswer row) (state S.Store self.old) (state S.Store self.new) result }
        ensures fault { Fails (CanRefuseIn (AddAnswer row)
            (content_of (state S.Store self.old)) (content_of (state S.Store self.new))) result }
        ensures cause { HasCleanDisk (state S.Store self.new) → Fails
            (RunFails ADD_ANSWER.now (answer_params row) (state S.Store self.old) (state S.Store self.new)) result }
    {
        add_answer(&mut self.conn, &row)
    }

    fn add_answers(&mut self, alloc: Global, rows: &JointAnswers) -> Result<(), StoreFault>
        requires { Asks (content_of (state S.Store self.old)) (λ world. CanAddAnswers world rows.now) }
        ensures wrote { MakesInTables (AddAnswers rows.now) (state S.Store self.old) (state S.Store self.new) result }
        ensures fault { Fails (CanRefuseIn (AddAnswers rows.now)
            (content_of (state S.Store self.old)) (content_of (state S.Store self.new))) result }
        ensures cause { HasCleanDisk (state S.Store self.new) → Fails
            (AddAnswersFails rows.now (state S.Store self.old) (state S.Store self.new)) result }
    {
        add_answers(&mut self.conn, alloc, rows)
    }

    fn add_protest(&mut self, _alloc: Global, row: ProtestRow) -> Result<(), StoreFault>
        requires { Asks (content_of (state S.Store self.old)) (λ world. CanAddProtest world row) }
        ensures wrote { MakesInTables (AddProtest row) (state S.Store self.old) (state S.Store self.new) result }
        ensures fault { Fails (CanRefuseIn (AddProtest row)
            (content_of (state S.Store self.old)) (content_of (state S.Store self.new))) result }
        ensures cause { HasCleanDisk (state S.Store self.new) → Fails
            (RunFails ADD_PROTEST.now (protest_params row) (state S.Store self.old) (state S.Store self.new)) result }
    {
        add_protest(&mut self.conn, &row)
    }

    fn rule_protest(
        &mut self,
        alloc: Global,
        key: &ProtestKey,
        ruling: Ruling,
    ) -> Result<(), StoreFault>
        ensures wrote { MakesInTables (RuleProtest key.now ruling) (state S.Store self.old) (state S.Store self.new)
            result }
        ensures fault { Fails (CanRefuseIn (RuleProtest key.now ruling)
            (content_of (state S.Store self.old)) (content_of (state S.Store self.new))) result }
        ensures cause { HasCleanDisk (state S.Store self.new) → Fails
            (RuleFails key.now ruling (state S.Store self.old) (state S.Store self.new)) result }
    {
        rule_protest(&mut self.conn, alloc, key, ruling)
    }
}

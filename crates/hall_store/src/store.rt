//! What keeps the world.
use crate::change::RoundFlag;
use crate::fault::StoreFault;
use crate::joint::JointAnswers;
use hall_policy::{
    AnswerKey, AnswerNumber, AnswerRow, Key, Name, People, Person, ProtestKey, ProtestRow,
    PuzzleKey, PuzzleNumber, PuzzleRow, PuzzleState, Round, RoundId, RoundRow, Ruling, Sink,
};
use std::alloc::Global;

/// The most people that are read at once: where fewer come, there are no more.
pub const PEOPLE_AT_ONCE: usize = 200;

/// The hall's world, however it is kept, as those see it who only read: who plans what a request does gets no more.
///
/// A read may change what keeps the world, as a connection is, and leaves the world. What a call says of its answer and
/// of what it leaves holds where the device was honest, and, where the call is refused, while the store still serves: a
/// store that a fault of its device has shut answers nothing more.
/// A call is refused as out of memory, or as failed: where its device failed in it, or by a store whose content then
/// says that it can fail; where a round is read, as neither nothing nor a round with its lists is kept under the id;
/// or, where rows are fed, by the sink.
pub trait ReadStore: Drop {
    ghost use Rattle.std.specs.Prelude.{◌≡◌, ◌↔◌, ◌⊎◌, IsTrue, IfErr};
    ghost use Rattle.std.specs.FinMap.{get, values};
    ghost use Rattle.hall_policy.specs.Rules.{answers_given, protests_made, puzzles_put};
    ghost use Rattle.hall_store.specs.Store.{Content, Kept, IsSettled, Served, Fails, puzzles_of, IsRoundKept};
    ghost use Rattle.hall_store.specs.Store.{AreTestersOf, CanFailIn, RoundCanFail};
    ghost use Rattle.hall_store.specs.Store.{AreUsing, IsNumberTaken, IsListing, is_of, is_in, is_between};
    ghost use Rattle.hall_store.specs.Store.{people_after};
    ghost use Rattle.hall_store.specs.Store.{HasSubmitted, IsProtestOpen, protests_of, protests_in, Fed, IsRefusedNext};
    ghost use Rattle.hall_store.specs.Caller.{IsKeyHolder};
    ghost use Rattle.hall_store.specs.declared.fault.StoreFault.TheVariants.{Failed};

    // The world, and while it can be told.
    ghost content: { Self → Content };

    /// Tells a proof that a stop between two calls leaves the world.
    fn at_rest(&self)
        ensures { IsSettled (content self.now) };

    /// The person with the key, who stands under the name; nobody else has the key.
    fn person_by_key(&mut self, alloc: Global, key: &Key) -> Result<Option<Person>, StoreFault>
        ensures kept { Kept (content self.old) (content self.new) }
        ensures served { Served (content self.new) result (λ world found. IsKeyHolder world key.now found) }
        ensures fault { Fails (CanFailIn (content self.old) (content self.new)) result };

    /// The person of the name.
    fn person(&mut self, alloc: Global, name: &Name) -> Result<Option<Person>, StoreFault>
        ensures kept { Kept (content self.old) (content self.new) }
        ensures served { Served (content self.new) result (λ world found. found ≡ get world.people name.now) }
        ensures fault { Fails (CanFailIn (content self.old) (content self.new)) result };

    /// All people, in the order of their names.
    fn people(&mut self, alloc: Global) -> Result<Vec<Person>, StoreFault>
        ensures kept { Kept (content self.old) (content self.new) }
        ensures served { Served (content self.new) result (λ world people. people.items ≡ values world.people) }
        ensures fault { Fails (CanFailIn (content self.old) (content self.new)) result };

    /// The next people after the name, or the first, `PEOPLE_AT_ONCE` at most, in the order of their names.
    fn people_after(
        &mut self,
        alloc: Global,
        after: &Option<Name>,
    ) -> Result<Vec<Person>, StoreFault>
        ensures kept { Kept (content self.old) (content self.new) }
        ensures served { Served (content self.new) result
            (λ world people. people.items ≡ people_after world after.now) }
        ensures fault { Fails (CanFailIn (content self.old) (content self.new)) result };

    /// The puzzle under the key.
    fn puzzle(&mut self, alloc: Global, key: &PuzzleKey) -> Result<Option<PuzzleRow>, StoreFault>
        ensures kept { Kept (content self.old) (content self.new) }
        ensures served { Served (content self.new) result (λ world found. found ≡ get world.puzzles key.now) }
        ensures fault { Fails (CanFailIn (content self.old) (content self.new)) result };

    /// The author's puzzles, in the order of their labels.
    fn puzzles_of(&mut self, alloc: Global, author: &Name) -> Result<Vec<PuzzleRow>, StoreFault>
        ensures kept { Kept (content self.old) (content self.new) }
        ensures served { Served (content self.new) result (λ world rows. rows.items ≡ puzzles_of world author.now) }
        ensures fault { Fails (CanFailIn (content self.old) (content self.new)) result };

    /// All puzzles, in the order of their keys.
    fn all_puzzles(&mut self, alloc: Global) -> Result<Vec<PuzzleRow>, StoreFault>
        ensures kept { Kept (content self.old) (content self.new) }
        ensures served { Served (content self.new) result (λ world rows. rows.items ≡ values world.puzzles) }
        ensures fault { Fails (CanFailIn (content self.old) (content self.new)) result };

    /// How many puzzles of the author are kept.
    fn puzzles_put(&mut self, alloc: Global, author: &Name) -> Result<u64, StoreFault>
        ensures kept { Kept (content self.old) (content self.new) }
        ensures served { Served (content self.new) result (λ world count. count ≡ puzzles_put world author.now) }
        ensures fault { Fails (CanFailIn (content self.old) (content self.new)) result };

    /// The round with its list of puzzles and its testers; none where neither head nor list is kept.
    fn round(&mut self, alloc: Global, id: &RoundId) -> Result<Option<RoundRow>, StoreFault>
        ensures kept { Kept (content self.old) (content self.new) }
        ensures served { Served (content self.new) result (λ world found. IsRoundKept world id.now found) }
        ensures fault { Fails (RoundCanFail id.now (content self.old) (content self.new)) result };

    /// The names of those who test the round, none twice, in any order.
    fn testers_of(&mut self, alloc: Global, round: &RoundId) -> Result<Vec<Name>, StoreFault>
        ensures kept { Kept (content self.old) (content self.new) }
        ensures served { Served (content self.new) result (λ world names. AreTestersOf world round.now names.items) }
        ensures fault { Fails (CanFailIn (content self.old) (content self.new)) result };

    /// All rounds without their puzzles and testers, in the order of their ids.
    fn rounds(&mut self, alloc: Global) -> Result<Vec<Round>, StoreFault>
        ensures kept { Kept (content self.old) (content self.new) }
        ensures served { Served (content self.new) result (λ world rounds. rounds.items ≡ values world.rounds) }
        ensures fault { Fails (CanFailIn (content self.old) (content self.new)) result };

    /// The ids of the rounds that have the puzzle, each once, in their order.
    fn rounds_using(&mut self, alloc: Global, key: &PuzzleKey) -> Result<Vec<RoundId>, StoreFault>
        ensures kept { Kept (content self.old) (content self.new) }
        ensures served { Served (content self.new) result (λ world ids. AreUsing world key.now ids.items) }
        ensures fault { Fails (CanFailIn (content self.old) (content self.new)) result };

    /// The answer under the key.
    fn answer(&mut self, alloc: Global, key: &AnswerKey) -> Result<Option<AnswerRow>, StoreFault>
        ensures kept { Kept (content self.old) (content self.new) }
        ensures served { Served (content self.new) result (λ world found. found ≡ get world.answers key.now) }
        ensures fault { Fails (CanFailIn (content self.old) (content self.new)) result };

    /// How many answers the entrant gave to the round's puzzle of that number.
    fn answers_given(
        &mut self,
        alloc: Global,
        entrant: &Name,
        round: &RoundId,
        number: PuzzleNumber,
    ) -> Result<u64, StoreFault>
        ensures kept { Kept (content self.old) (content self.new) }
        ensures served { Served (content self.new) result
            (λ world count. count ≡ answers_given world entrant.now round.now number) }
        ensures fault { Fails (CanFailIn (content self.old) (content self.new)) result };

    /// Whether an answer of the entrant to the round's puzzle of that number is the n-th.
    fn is_number_taken(
        &mut self,
        alloc: Global,
        entrant: &Name,
        round: &RoundId,
        number: PuzzleNumber,
        n: AnswerNumber,
    ) -> Result<bool, StoreFault>
        ensures kept { Kept (content self.old) (content self.new) }
        ensures served { Served (content self.new) result
            (λ world taken. IsTrue taken ↔ IsNumberTaken world entrant.now round.now number n) }
        ensures fault { Fails (CanFailIn (content self.old) (content self.new)) result };

    /// The entrant's answers in the round, by number, then n.
    fn answers_of(
        &mut self,
        alloc: Global,
        entrant: &Name,
        round: &RoundId,
    ) -> Result<Vec<AnswerRow>, StoreFault>
        ensures kept { Kept (content self.old) (content self.new) }
        ensures served { Served (content self.new) result
            (λ world rows. IsListing world (is_of entrant.now round.now) rows.items) }
        ensures fault { Fails (CanFailIn (content self.old) (content self.new)) result };

    /// The answers of the round, by entrant, number, then n.
    fn answers_in(&mut self, alloc: Global, round: &RoundId) -> Result<Vec<AnswerRow>, StoreFault>
        ensures kept { Kept (content self.old) (content self.new) }
        ensures served { Served (content self.new) result
            (λ world rows. IsListing world (is_in round.now) rows.items) }
        ensures fault { Fails (CanFailIn (content self.old) (content self.new)) result };

    /// Gives the sink the answers of the round by entrants after the one name and up to the other, where these are
    /// given, one after another, by entrant, number, then n. It fails where the sink refuses one, and has then taken
    /// those before.
    fn feed_answers<K: Sink<AnswerRow>>(
        &mut self,
        alloc: Global,
        round: &RoundId,
        after: &Option<Name>,
        last: &Option<Name>,
        sink: &mut K,
    ) -> Result<(), StoreFault>
        ensures kept { Kept (content self.old) (content self.new) }
        ensures fed { Fed K.takes (λ world rows. IsListing world (is_between round.now after.now last.now) rows)
            (content self.old) (content self.new) sink.old result sink.new }
        ensures fault { IfErr result (λ fault. fault ≡ Failed →
            CanFailIn (content self.old) (content self.new) ⊎ IsRefusedNext K.takes
            K.refuses (λ world rows. IsListing world (is_between round.now after.now last.now) rows)
            (content self.old) (content self.new) sink.old sink.new) };

    /// Whether the entrant has an answer in the round.
    fn has_answered(
        &mut self,
        alloc: Global,
        entrant: &Name,
        round: &RoundId,
    ) -> Result<bool, StoreFault>
        ensures kept { Kept (content self.old) (content self.new) }
        ensures served { Served (content self.new) result
            (λ world found. IsTrue found ↔ HasSubmitted world entrant.now round.now) }
        ensures fault { Fails (CanFailIn (content self.old) (content self.new)) result };

    /// The protest under the key.
    fn protest(&mut self, alloc: Global, key: &ProtestKey) -> Result<Option<ProtestRow>, StoreFault>
        ensures kept { Kept (content self.old) (content self.new) }
        ensures served { Served (content self.new) result (λ world found. found ≡ get world.protests key.now) }
        ensures fault { Fails (CanFailIn (content self.old) (content self.new)) result };

    /// How many protests of the entrant in the round are kept.
    fn protests_made(
        &mut self,
        alloc: Global,
        entrant: &Name,
        round: &RoundId,
    ) -> Result<u64, StoreFault>
        ensures kept { Kept (content self.old) (content self.new) }
        ensures served { Served (content self.new) result
            (λ world count. count ≡ protests_made world entrant.now round.now) }
        ensures fault { Fails (CanFailIn (content self.old) (content self.new)) result };

    /// Whether a protest of the round is open.
    fn has_open_protest(&mut self, alloc: Global, round: &RoundId) -> Result<bool, StoreFault>
        ensures kept { Kept (content self.old) (content self.new) }
        ensures served { Served (content self.new) result
            (λ world found. IsTrue found ↔ IsProtestOpen world round.now) }
        ensures fault { Fails (CanFailIn (content self.old) (content self.new)) result };

    /// The entrant's protests in the round, by token.
    fn protests_of(
        &mut self,
        alloc: Global,
        entrant: &Name,
        round: &RoundId,
    ) -> Result<Vec<ProtestRow>, StoreFault>
        ensures kept { Kept (content self.old) (content self.new) }
        ensures served { Served (content self.new) result
            (λ world rows. rows.items ≡ protests_of world entrant.now round.now) }
        ensures fault { Fails (CanFailIn (content self.old) (content self.new)) result };

    /// The protests of the round, by entrant, then token.
    fn protests_in(&mut self, alloc: Global, round: &RoundId) -> Result<Vec<ProtestRow>, StoreFault>
        ensures kept { Kept (content self.old) (content self.new) }
        ensures served { Served (content self.new) result (λ world rows. rows.items ≡ protests_in world round.now) }
        ensures fault { Fails (CanFailIn (content self.old) (content self.new)) result };

    /// Gives the sink the protests of the round, one after another, by entrant, then token. It fails where the sink
    /// refuses one, and has then taken those before.
    fn feed_protests<K: Sink<ProtestRow>>(
        &mut self,
        alloc: Global,
        round: &RoundId,
        sink: &mut K,
    ) -> Result<(), StoreFault>
        ensures kept { Kept (content self.old) (content self.new) }
        ensures fed { Fed K.takes (λ world rows. rows ≡ protests_in world round.now)
            (content self.old) (content self.new) sink.old result sink.new }
        ensures fault { IfErr result (λ fault. fault ≡ Failed → CanFailIn (content self.old) (content self.new)
            ⊎ IsRefusedNext K.takes K.refuses (λ world rows. rows ≡ protests_in world round.now)
            (content self.old) (content self.new) sink.old sink.new) };
}

/// The hall's world, however it is kept, as those see it who also write: who makes a planned change gets this.
///
/// A write makes its change, or is refused, and has then left the world. When that holds is as of a `ReadStore`; why a
/// call is refused, other than out of memory, is that its device failed in it, or as the content tells of its change
/// (`can_refuse`).
pub trait Store: ReadStore {
    ghost use Rattle.hall_store.specs.Store.{CanRefuseIn, Fails, Asks, Makes};
    ghost use Rattle.hall_store.specs.Change.{CanImport, CanPutPuzzle, CanSetState, CanPutRound, CanSetFlag};
    ghost use Rattle.hall_store.specs.Change.{CanAddAnswer, CanAddAnswers};
    ghost use Rattle.hall_store.specs.Change.{CanAddProtest, CanRuleProtest};
    ghost use Rattle.hall_store.specs.declared.change.Change.TheVariants.{Import, PutPuzzle, SetState, PutRound};
    ghost use Rattle.hall_store.specs.declared.change.Change.TheVariants.{SetRoundFlag, AddAnswer, AddAnswers};
    ghost use Rattle.hall_store.specs.declared.change.Change.TheVariants.{AddProtest};
    ghost use Rattle.hall_store.specs.declared.change.Change.TheVariants.{RuleProtest};

    /// Adds the people of the list whose names are unknown.
    fn import(&mut self, alloc: Global, people: &People) -> Result<(), StoreFault>
        requires { Asks (Self.content self.old) (λ world. CanImport world people.now) }
        ensures makes { Makes (Import people.now) (Self.content self.old) (Self.content self.new) result }
        ensures fault { Fails (CanRefuseIn (Import people.now)
            (Self.content self.old) (Self.content self.new)) result };

    /// Stores the puzzle, in the place of the one under its key.
    fn put_puzzle(&mut self, alloc: Global, row: PuzzleRow) -> Result<(), StoreFault>
        requires { Asks (Self.content self.old) (λ world. CanPutPuzzle world row) }
        ensures makes { Makes (PutPuzzle row) (Self.content self.old) (Self.content self.new) result }
        ensures fault { Fails (CanRefuseIn (PutPuzzle row) (Self.content self.old) (Self.content self.new)) result };

    /// Sets the state of the puzzle under the key.
    fn set_state(
        &mut self,
        alloc: Global,
        key: &PuzzleKey,
        state: PuzzleState,
    ) -> Result<(), StoreFault>
        requires { Asks (Self.content self.old) (λ world. CanSetState world key.now) }
        ensures makes { Makes (SetState key.now state) (Self.content self.old) (Self.content self.new) result }
        ensures fault { Fails (CanRefuseIn (SetState key.now state)
            (Self.content self.old) (Self.content self.new)) result };

    /// Stores the round with its list and its testers, in the place of the one under its id.
    fn put_round(&mut self, alloc: Global, row: RoundRow) -> Result<(), StoreFault>
        requires { Asks (Self.content self.old) (λ world. CanPutRound world row) }
        ensures makes { Makes (PutRound row) (Self.content self.old) (Self.content self.new) result }
        ensures fault { Fails (CanRefuseIn (PutRound row) (Self.content self.old) (Self.content self.new)) result };

    /// Sets a flag of the round.
    fn set_round_flag(
        &mut self,
        alloc: Global,
        id: &RoundId,
        flag: RoundFlag,
    ) -> Result<(), StoreFault>
        requires { Asks (Self.content self.old) (λ world. CanSetFlag world id.now) }
        ensures makes { Makes (SetRoundFlag id.now flag) (Self.content self.old) (Self.content self.new) result }
        ensures fault { Fails (CanRefuseIn (SetRoundFlag id.now flag)
            (Self.content self.old) (Self.content self.new)) result };

    /// Stores one more answer.
    fn add_answer(&mut self, alloc: Global, row: AnswerRow) -> Result<(), StoreFault>
        requires { Asks (Self.content self.old) (λ world. CanAddAnswer world row) }
        ensures makes { Makes (AddAnswer row) (Self.content self.old) (Self.content self.new) result }
        ensures fault { Fails (CanRefuseIn (AddAnswer row) (Self.content self.old) (Self.content self.new)) result };

    /// Stores some more answers, one after another: all of them or none.
    fn add_answers(&mut self, alloc: Global, rows: &JointAnswers) -> Result<(), StoreFault>
        requires { Asks (Self.content self.old) (λ world. CanAddAnswers world rows.now) }
        ensures makes { Makes (AddAnswers rows.now) (Self.content self.old) (Self.content self.new) result }
        ensures fault { Fails (CanRefuseIn (AddAnswers rows.now)
            (Self.content self.old) (Self.content self.new)) result };

    /// Stores one more protest.
    fn add_protest(&mut self, alloc: Global, row: ProtestRow) -> Result<(), StoreFault>
        requires { Asks (Self.content self.old) (λ world. CanAddProtest world row) }
        ensures makes { Makes (AddProtest row) (Self.content self.old) (Self.content self.new) result }
        ensures fault { Fails (CanRefuseIn (AddProtest row) (Self.content self.old) (Self.content self.new)) result };

    /// Rules the protest under the key.
    fn rule_protest(
        &mut self,
        alloc: Global,
        key: &ProtestKey,
        ruling: Ruling,
    ) -> Result<(), StoreFault>
        requires { Asks (Self.content self.old) (λ world. CanRuleProtest world key.now) }
        ensures makes { Makes (RuleProtest key.now ruling) (Self.content self.old) (Self.content self.new) result }
        ensures fault { Fails (CanRefuseIn (RuleProtest key.now ruling)
            (Self.content self.old) (Self.content self.new)) result };
}

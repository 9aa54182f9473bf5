//! Submit: an answer to a puzzle of a round is judged and stored.
ghost use Rattle.std.specs.Prelude.{◌≡◌, ◌+◌, ◌<◌, IfOk, Some};
ghost use Rattle.hall_policy.specs.Limits.{most_answers};
ghost use Rattle.hall_policy.specs.World.{entry_at};
ghost use Rattle.hall_policy.specs.Implies.{EntryIsThere};
ghost use Rattle.hall_policy.specs.declared.record.Entry.{Entry};
ghost use Rattle.hall_policy.specs.declared.request.Action.{Action};
ghost use Rattle.hall_store.specs.Store.{CanFailIn, Asks, Kept, Served, Told, Fails};
ghost use Rattle.hall_store.specs.declared.change.Change.{Change};
ghost use Rattle.hall_desk.specs.Judged.{is_solution, IsVerdictOn};
ghost use Rattle.hall_desk.specs.Sane.{Sane};
ghost use Rattle.hall_desk.specs.Shown.{told_verdict};
ghost use Rattle.hall_desk.specs.Handler.{submit_action, submitted_key, submitted_row, IsAnswerOf, IsCountOf};
ghost use Rattle.hall_desk.specs.Plans.{IsJudgedAt, FailsIn, AreKept};

use crate::find_round::find_round;
use crate::handler::Handler;
use crate::plan::Plan;
use crate::reply::Reply;
use crate::verdict::judge;
use hall_grid::Broken;
use hall_policy::{
    Action, AnswerKey, AnswerNumber, AnswerRow, AnswerText, Decision, Entry, Facts, Mode, Moment,
    Person, PuzzleNumber, PuzzleRow, PuzzleState, Round, RoundId, RoundRow, Rule, Token, decide,
    decide_up_to,
};
use hall_store::{Change, ReadStore, StoreFault};
use std::alloc::{AllocError, Global};

/// What is handed in: an answer to the round's puzzle of that number, under a token.
#[derive(Clone, Copy)]
pub(crate) struct Submit<'a> {
    pub(crate) round: &'a RoundId,
    pub(crate) number: PuzzleNumber,
    pub(crate) token: &'a Token,
    pub(crate) answer: &'a AnswerText,
}

impl<'a> Submit<'a> {
    /// An answer to the round's puzzle of that number, under a token.
    pub(crate) fn of(
        round: &'a RoundId,
        number: PuzzleNumber,
        token: &'a Token,
        answer: &'a AnswerText,
    ) -> Submit<'a>
        ensures { submit_action result ≡ Action.Submit round.now number token.now answer.now }
    {
        Submit {
            round,
            number,
            token,
            answer,
        }
    }
}

impl<'a> Handler for Submit<'a> {
    ghost use Rattle.hall_desk.specs.Handler.{submit_action};

    ghost action_of = { submit_action };

    /// The token is looked up where the round lets the request pass, and answers are counted where nothing else
    /// forbids it.
    fn decision<S: ReadStore>(
        &self,
        alloc: Global,
        store: &mut S,
        t: Moment,
        action: &Action,
        facts: &mut Facts,
    ) -> Result<Decision, StoreFault> {
        facts.round = find_round(alloc, store, self.round)?;
        if let Some(decision) = decide_up_to(facts, action, t, Rule::OwnPuzzle) {
            return Ok(decision);
        }
        facts.answer = find_answer(alloc, store, facts, self)?;
        if let Some(decision) = decide_up_to(facts, action, t, Rule::Published) {
            return Ok(decision);
        }
        facts.count = count_answers(alloc, store, facts, self)?;
        Ok(decide(facts, action, t))
    }

    fn first_reply(&self, facts: &Facts) -> Result<Option<Reply>, AllocError> {
        match (&facts.round, &facts.answer) {
            (Some(row), Some(answer)) => Ok(Some(reply_of(&row.round, answer.n, answer.verdict))),
            _ => Ok(None),
        }
    }

    /// The answer is judged, and its row is to be stored. The world isn't sane where its number is taken.
    fn plan<S: ReadStore>(
        &self,
        alloc: Global,
        store: &mut S,
        t: Moment,
        facts: &Facts,
    ) -> Result<Plan, StoreFault> {
        let (Some(person), Some(row)) = (&facts.caller, &facts.round) else {
            unreachable!()
        };
        let verdict = judge_at(alloc, store, row, self.number, self.answer)?;
        let n = number_after(facts.count);
        if store.is_number_taken(alloc, &person.name, self.round, self.number, n)? {
            return Err(StoreFault::Failed);
        }
        Ok(submitted(t, person, row, self, n, verdict)?)
    }
}

/// The caller's answer under the token.
fn find_answer<S: ReadStore>(
    alloc: Global,
    store: &mut S,
    facts: &Facts,
    asked: &Submit,
) -> Result<Option<AnswerRow>, StoreFault>
    ensures kept { Kept (S.content store.old) (S.content store.new) }
    ensures fault { Fails (CanFailIn (S.content store.old) (S.content store.new)) result }
    ensures told { Told (S.content store.old) (S.content store.new) result
        (λ world found. IsAnswerOf world facts.now.caller asked.now found) }
{
    match &facts.caller {
        Some(person) => {
            let key = key_of(person, asked)?;
            store.answer(alloc, &key)
        }
        None => Ok(None),
    }
}

/// How many answers to the puzzle the caller gave.
fn count_answers<S: ReadStore>(
    alloc: Global,
    store: &mut S,
    facts: &Facts,
    asked: &Submit,
) -> Result<u64, StoreFault>
    ensures kept { Kept (S.content store.old) (S.content store.new) }
    ensures fault { Fails (CanFailIn (S.content store.old) (S.content store.new)) result }
    ensures told { Told (S.content store.old) (S.content store.new) result
        (λ world count. IsCountOf world facts.now.caller asked.now count) }
{
    match &facts.caller {
        Some(person) => store.answers_given(alloc, &person.name, asked.round, asked.number),
        None => Ok(0),
    }
}

/// The number of the answer after so many.
fn number_after(count: u64) -> AnswerNumber
    requires { count < most_answers }
    ensures { result ≡ count + 1 }
{
    let Some(n) = AnswerNumber::new(count + 1) else {
        unreachable!()
    };
    n
}

/// The plan for an answer with its number and verdict.
fn submitted(
    t: Moment,
    person: &Person,
    row: &RoundRow,
    asked: &Submit,
    n: AnswerNumber,
    verdict: Broken,
) -> Result<Plan, AllocError>
    ensures reply { IfOk result (λ plan. plan.reply ≡ Reply.Submit n (told_verdict row.now.round verdict)) }
    ensures change { IfOk result
        (λ plan. plan.change ≡ Change.AddAnswer (submitted_row person.now asked.now n t verdict)) }
{
    let stored = AnswerRow {
        answer: asked.answer.clone()?,
        key: key_of(person, asked)?,
        n,
        moment: t,
        verdict,
    };
    Ok(Plan {
        reply: reply_of(&row.round, n, verdict),
        change: Change::AddAnswer(stored),
        visits: None,
    })
}

/// Where the answer is kept.
fn key_of(person: &Person, asked: &Submit) -> Result<AnswerKey, AllocError>
    ensures { IfOk result (λ key. key ≡ submitted_key person.now asked.now) }
{
    Ok(AnswerKey {
        entrant: person.name.clone()?,
        round: asked.round.clone()?,
        number: asked.number,
        token: asked.token.clone()?,
    })
}

/// What is told of an accepted answer.
fn reply_of(round: &Round, n: AnswerNumber, verdict: Broken) -> Reply
    ensures { result ≡ Reply.Submit n (told_verdict round.now verdict) }
{
    match round.mode {
        Mode::Instant => Reply::Submit {
            n,
            verdict: Some(verdict),
        },
        Mode::Sealed => Reply::Submit { n, verdict: None },
    }
}

/// The verdict on an answer to the round's puzzle of that number. The world isn't sane where the puzzle isn't kept.
fn judge_at<S: ReadStore>(
    alloc: Global,
    store: &mut S,
    row: &RoundRow,
    number: PuzzleNumber,
    answer: &AnswerText,
) -> Result<Broken, StoreFault>
    requires there { EntryIsThere row.now number }
    requires listed { Asks (S.content store.old) (λ world. Sane world → AreKept world row.now.puzzles) }
    ensures kept { Kept (S.content store.old) (S.content store.new) }
    ensures fault { FailsIn (S.content store.old) (S.content store.new) result }
    ensures served { Served (S.content store.new) result
        (λ world verdict. IsJudgedAt world row.now number answer.now verdict) }
{
    let entry = entry_of(row.puzzles.as_slice(), number);
    let Some(found) = store.puzzle(alloc, &entry.puzzle)? else {
        return Err(StoreFault::Failed);
    };
    Ok(judge_row(alloc, &found, answer)?)
}

/// The verdict on an answer to a puzzle: the text of the stored solution is right, and any other is judged.
fn judge_row(alloc: Global, row: &PuzzleRow, answer: &AnswerText) -> Result<Broken, AllocError>
    ensures { IfOk result (IsVerdictOn row.now answer.now) }
{
    if is_stored(&row.state, answer) {
        return Ok(Broken::new());
    }
    judge(alloc, &row.puzzle, answer.as_str().as_bytes())
}

/// Whether the text is that of the stored solution.
fn is_stored(state: &PuzzleState, answer: &AnswerText) -> bool
    ensures { result ≡ is_solution state.now answer.now }
{
    match state {
        PuzzleState::One(solution) => solution == answer,
        PuzzleState::New | PuzzleState::NoSolution | PuzzleState::More | PuzzleState::GaveUp => {
            false
        }
    }
}

/// The round's puzzle of that number, which is there.
fn entry_of(entries: &[Entry], number: PuzzleNumber) -> &Entry
    requires { (entry : Entry) × (entry_at entries.now number ≡ Some entry) }
    ensures { entry_at entries.now number ≡ Some result.now }
{
    match entries.get(number.get() as usize - 1) {
        Some(entry) => entry,
        None => unreachable!(),
    }
}

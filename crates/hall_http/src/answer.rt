//! Bytes to bytes: a request is read, a step of the hall made, and its reply written.
ghost use Rattle.std.specs.Prelude.{◌≡◌, ◌≢◌, ◌⊎◌, ◌++◌, ℕ, List, Ok, IfOk, OnErr, length};
ghost use Rattle.std.specs.Prelude.{string_bytes, true, false};
ghost use Rattle.hall_store.specs.Store.{Fails, Kept, Leads, LeavesOneOf, WritesOnce};
ghost use Rattle.hall_desk.specs.Desk.{kept_by, SaneThen};
ghost use Rattle.hall_desk.specs.Plans.{IsNobodys, StepCanFail, WritesIfAny};
ghost use Rattle.hall_desk.specs.Promises.{HasUniqueSolutions, RightAnswersAreSolutions};
ghost use Rattle.hall_desk.specs.Run.{IsTimed};
ghost use Rattle.hall_desk.specs.Sane.{Sane};
ghost use Rattle.hall_desk.specs.declared.prepared.Prepared.TheVariants as Prepared;
ghost use Rattle.hall_http.specs.Answered.{answer_text, AnswersFault, AnswersOver, AnswersRequestOver, IsStepReply};
ghost use Rattle.hall_http.specs.Answered.{IsStepReplyOver};
ghost use Rattle.hall_http.specs.Answered.{IsUnavailable};
ghost use Rattle.hall_http.specs.Answered.{StopsAt, StopsAtBytes};
ghost use Rattle.hall_http.specs.Head.{IsLentBy};
ghost use Rattle.hall_http.specs.Reply.{IsCounted, text_behind};
ghost use Rattle.hall_http.specs.Request.{AsksNothing, RequestOf};
ghost use Rattle.hall_http.specs.Serving.{GoesOn, WaitsForWork};
ghost use Rattle.hall_http.specs.declared.answer.Answer.TheVariants as Answer;
ghost use Rattle.hall_policy.specs.declared.request.Request.{Request as Asked};

use crate::form::{FormFault, RequestFault};
use crate::head::{RawRequest, read_raw_request};
use crate::reply::{UNAVAILABLE, fault_bytes, front_bytes};
use crate::request::request_of;
use crate::routes::Routes;
use crate::two_parts::TwoParts;
use hall_desk::{Desk, Prepared, Reply};
use hall_policy::{Action, Moment, Request};
use hall_store::{Store, StoreFault};
use std::alloc::Global;

/// The bytes that answer a request.
#[derive(Drop)]
pub enum Answer {
    Text(String),
    Parts(TwoParts),
    /// 503, which takes no memory.
    Unavailable,
    /// 503 too, by a store that serves no more.
    Shut,
}

impl Answer {
    /// Its bytes, in two parts.
    pub fn parts(&self) -> (&[u8], &[u8])
        ensures { result.0.now ++ result.1.now ≡ answer_text self.now }
    {
        match self {
            Answer::Text(text) => (text.as_str().as_bytes(), &[]),
            Answer::Parts(parts) => parts.both(),
            Answer::Unavailable | Answer::Shut => (unavailable_bytes(), &[]),
        }
    }

    /// How many bytes it has.
    pub(crate) fn len(&self) -> usize
        ensures { result ≡ length (answer_text self.now) }
    {
        match self {
            Answer::Text(text) => text.len(),
            Answer::Parts(parts) => parts.len(),
            Answer::Unavailable | Answer::Shut => UNAVAILABLE.len(),
        }
    }

    /// Whether the store serves on, as far as the answer tells.
    pub(crate) fn goes_on(&self) -> bool
        ensures opened { result ≡ true → self.now ≢ Answer.Shut }
        ensures shut { result ≡ false → self.now ≡ Answer.Shut }
    {
        match self {
            Answer::Shut => false,
            _ => true,
        }
    }
}

/// The bytes of the reply 503.
fn unavailable_bytes() -> &'static [u8]
    ensures { result.now ≡ answer_text Answer.Unavailable }
{
    UNAVAILABLE.as_bytes()
}

/// Answers the bytes of one request at the moment, and makes its change.
///
/// The reply is there before the change: where either is refused, nothing is changed while the store serves, and the
/// answer is 503. It makes at most one write, and none for a request that is denied, repeated or has nothing to write.
/// Bytes that aren't one whole request are answered by the first fault of their form; no rule is asked, and the desk
/// stays as it was. A sane world stays sane.
pub fn answer_bytes<S: Store>(
    alloc: Global,
    routes: &Routes,
    desk: &mut Desk<S>,
    moment: Moment,
    bytes: &[u8],
) -> Answer
    ensures leads { Leads (S.content (kept_by desk.old)) (S.content (kept_by desk.new)) }
    ensures once { WritesOnce (S.content (kept_by desk.old)) (S.content (kept_by desk.new)) }
    ensures quiet { (asked : Asked) → RequestOf bytes.now (Ok asked) →
        WritesIfAny (S.content (kept_by desk.old)) moment asked (S.content (kept_by desk.new)) }
    ensures answers { (S.content (kept_by desk.new)).honest → AnswersOver (S.content (kept_by desk.old))
        moment bytes.now (answer_text result) (S.content (kept_by desk.new)) }
    ensures stops { StopsAtBytes (S.content (kept_by desk.old)) moment bytes.now (answer_text result)
        (S.content (kept_by desk.new)) }
    ensures untouched { AsksNothing bytes.now → desk.new ≡ desk.old }
    ensures sane { SaneThen Sane (S.content (kept_by desk.old)) (S.content (kept_by desk.new)) }
    ensures unique { SaneThen HasUniqueSolutions (S.content (kept_by desk.old)) (S.content (kept_by desk.new)) }
    ensures right { SaneThen RightAnswersAreSolutions (S.content (kept_by desk.old)) (S.content (kept_by desk.new)) }
{
    match read_raw_request(bytes) {
        Some(raw) => answer_raw_request(alloc, routes, desk, Prepared::Ready, moment, &raw),
        None => answer_fault(alloc, FormFault::NotWhole),
    }
}

/// Answers a raw request at the moment as `answer_bytes` answers its bytes, and makes its change.
pub(crate) fn answer_raw_request<S: Store>(
    alloc: Global,
    routes: &Routes,
    desk: &mut Desk<S>,
    prepared: Prepared,
    moment: Moment,
    raw: &RawRequest<'_>,
) -> Answer
    ensures leads { Leads (S.content (kept_by desk.old)) (S.content (kept_by desk.new)) }
    ensures once { WritesOnce (S.content (kept_by desk.old)) (S.content (kept_by desk.new)) }
    ensures quiet { (bytes : List ℕ) → IsLentBy bytes raw.now → (asked : Asked) → RequestOf bytes (Ok asked) →
        WritesIfAny (S.content (kept_by desk.old)) moment asked (S.content (kept_by desk.new)) }
    ensures answers { (bytes : List ℕ) → IsLentBy bytes raw.now → (S.content (kept_by desk.new)).honest →
        AnswersOver (S.content (kept_by desk.old)) moment bytes (answer_text result) (S.content (kept_by desk.new)) }
    ensures stops { (bytes : List ℕ) → IsLentBy bytes raw.now → StopsAtBytes (S.content (kept_by desk.old)) moment bytes
        (answer_text result) (S.content (kept_by desk.new)) }
    ensures untouched { (bytes : List ℕ) → IsLentBy bytes raw.now → AsksNothing bytes → desk.new ≡ desk.old }
    ensures goes_on { result ≢ Answer.Shut →
        GoesOn (λ desk. S.content (kept_by desk)) desk.old (answer_text result) desk.new }
    ensures shut { (bytes : List ℕ) → IsLentBy bytes raw.now → result ≡ Answer.Shut → ¬ (AsksNothing bytes) }
    ensures sane { SaneThen Sane (S.content (kept_by desk.old)) (S.content (kept_by desk.new)) }
{
    match request_of(alloc, routes, raw) {
        Ok(request) => answer_request(alloc, desk, prepared, moment, &request),
        Err(RequestFault::Form(fault)) => answer_fault(alloc, fault),
        Err(RequestFault::Memory) => Answer::Unavailable,
    }
}

/// Works for a while on what the request needs: it is to be answered now, or asked so again, or refused. Reads only.
pub(crate) fn prepare_raw_request<S: Store>(
    alloc: Global,
    routes: &Routes,
    desk: &mut Desk<S>,
    raw: &RawRequest<'_>,
) -> Prepared
    ensures kept { Kept (S.content (kept_by desk.old)) (S.content (kept_by desk.new)) }
    ensures waits { result ≡ Prepared.Waits → (bytes : List ℕ) → IsLentBy bytes raw.now →
        WaitsForWork (λ desk. S.content (kept_by desk)) desk.new bytes }
{
    match request_of(alloc, routes, raw) {
        Ok(request) => desk.prepare(alloc, &request),
        Err(RequestFault::Form(_)) => Prepared::Ready,
        Err(RequestFault::Memory) => Prepared::Refused,
    }
}

/// The answer to bytes that are no request.
fn answer_fault(alloc: Global, fault: FormFault) -> Answer
    ensures told { AnswersFault fault (answer_text result) }
    ensures opened { result ≢ Answer.Shut }
{
    match fault_bytes(alloc, fault) {
        Ok(text) => Answer::Text(text),
        Err(_) => Answer::Unavailable,
    }
}

/// The answer to a request, once its change is made. One whose preparation was refused is refused too: without what was
/// to be prepared its plan might work for hours.
fn answer_request<S: Store>(
    alloc: Global,
    desk: &mut Desk<S>,
    prepared: Prepared,
    moment: Moment,
    request: &Request,
) -> Answer
    ensures leads { Leads (S.content (kept_by desk.old)) (S.content (kept_by desk.new)) }
    ensures once { WritesOnce (S.content (kept_by desk.old)) (S.content (kept_by desk.new)) }
    ensures quiet { WritesIfAny (S.content (kept_by desk.old)) moment request.now (S.content (kept_by desk.new)) }
    ensures timed { IsTimed (moment, request.now) }
    ensures answers { (S.content (kept_by desk.new)).honest → AnswersRequestOver (S.content (kept_by desk.old))
        moment request.now (answer_text result) (S.content (kept_by desk.new)) }
    ensures stops { StopsAt (S.content (kept_by desk.old)) moment request.now (answer_text result)
        (S.content (kept_by desk.new)) }
    ensures untouched { IsNobodys request.now → desk.new ≡ desk.old }
    ensures goes_on { result ≢ Answer.Shut →
        GoesOn (λ desk. S.content (kept_by desk)) desk.old (answer_text result) desk.new }
    ensures shut { result ≡ Answer.Shut → ¬ (IsNobodys request.now) }
{
    // They are read for the ranges that their types keep.
    let _moment = moment.get();
    request.in_range();
    if let Prepared::Refused = prepared {
        return unavailable(alloc, desk, request);
    }
    match step_answer(alloc, desk, moment, request) {
        Ok(answer) => answer_of(answer, request),
        Err(_) => unavailable(alloc, desk, request),
    }
}

/// The answer to a request that was refused. Where it asks anything of the store, that is asked whether it serves on.
fn unavailable<S: Store>(alloc: Global, desk: &mut Desk<S>, request: &Request) -> Answer
    ensures kept { Kept (S.content (kept_by desk.old)) (S.content (kept_by desk.new)) }
    ensures text { answer_text result ≡ answer_text Answer.Unavailable }
    ensures untouched { IsNobodys request.now → desk.new ≡ desk.old }
    ensures goes_on { result ≢ Answer.Shut → IsNobodys request.now
        ⊎ ((S.content (kept_by desk.new)).honest → (S.content (kept_by desk.new)).serves) }
    ensures shut { result ≡ Answer.Shut → ¬ (IsNobodys request.now) }
{
    if is_nobodys(request) {
        return Answer::Unavailable;
    }
    if serves_on(alloc, desk) {
        return Answer::Unavailable;
    }
    Answer::Shut
}

/// Whether the store serves on. Out of memory to ask it, it is taken for shut.
pub(crate) fn serves_on<S: Store>(alloc: Global, desk: &mut Desk<S>) -> bool
    ensures kept { Kept (S.content (kept_by desk.old)) (S.content (kept_by desk.new)) }
    ensures serves { result ≡ true → (S.content (kept_by desk.new)).honest → (S.content (kept_by desk.new)).serves }
{
    match desk.still_serves(alloc) {
        Ok(serves) => serves,
        Err(_) => false,
    }
}

/// Whether nobody may make the request: it has no key, and asks for no table.
pub(crate) fn is_nobodys(request: &Request) -> bool
    ensures nobodys { result ≡ true → IsNobodys request.now }
    ensures others { result ≡ false → IsNobodys request.now → ⊥ }
{
    match &request.action {
        Action::Table { .. } => false,
        _ => request.key.is_none(),
    }
}

/// A request's reply, once its change is made. Unless out of memory, it fails only where its step can.
fn step_answer<S: Store>(
    alloc: Global,
    desk: &mut Desk<S>,
    moment: Moment,
    request: &Request,
) -> Result<Answer, StoreFault>
    ensures leads { Leads (S.content (kept_by desk.old)) (S.content (kept_by desk.new)) }
    ensures once { WritesOnce (S.content (kept_by desk.old)) (S.content (kept_by desk.new)) }
    ensures quiet { WritesIfAny (S.content (kept_by desk.old)) moment request.now (S.content (kept_by desk.new)) }
    ensures ok { IfOk result (λ answer. (answer ≢ Answer.Shut) × ((S.content (kept_by desk.new)).honest →
        IsStepReplyOver (S.content (kept_by desk.old)) moment request.now (answer_text answer)
        (S.content (kept_by desk.new)))) }
    ensures err { OnErr result ((S.content (kept_by desk.new)).honest → (S.content (kept_by desk.new)).serves →
        (S.content (kept_by desk.new)).world ≡ (S.content (kept_by desk.old)).world) }
    ensures stops { LeavesOneOf (λ before left. (made : List ℕ) × IfOk result (λ answer. made ≡ answer_text answer)
        × IsStepReply before moment request.now made left)
        (S.content (kept_by desk.old)) (S.content (kept_by desk.new)) }
    ensures untouched { IsNobodys request.now → desk.new ≡ desk.old }
    ensures fault { Fails (StepCanFail (S.content (kept_by desk.old)) moment request.now
        (S.content (kept_by desk.new))) result }
{
    let plan = desk.plan(alloc, moment, request)?;
    let front = front_bytes(alloc, plan.reply())?;
    let reply = desk.commit(alloc, plan)?;
    Ok(reply_answer(front, reply))
}

/// The answer that begins so, with the text that the reply brings along behind it.
fn reply_answer(front: String, reply: Reply) -> Answer
    requires { IsCounted reply (string_bytes front) }
    ensures text { answer_text result ≡ string_bytes front ++ text_behind reply }
    ensures opened { result ≢ Answer.Shut }
{
    match reply {
        Reply::Answers(text) => Answer::Parts(TwoParts::new(front, text.into_bytes())),
        _ => Answer::Text(front),
    }
}

/// This answer to the request. One of 503, which no step of the hall is answered, is taken for a shut store's where the
/// request asks anything of the store.
fn answer_of(answer: Answer, request: &Request) -> Answer
    requires { answer ≢ Answer.Shut }
    ensures text { answer_text result ≡ answer_text answer }
    ensures goes_on { result ≢ Answer.Shut → IsNobodys request.now ⊎ (¬ (IsUnavailable (answer_text result))) }
    ensures shut { result ≡ Answer.Shut → ¬ (IsNobodys request.now) }
{
    if is_nobodys(request) {
        return answer;
    }
    if is_unavailable(&answer) {
        return Answer::Shut;
    }
    answer
}

/// Whether the answer is the reply 503.
pub(crate) fn is_unavailable(answer: &Answer) -> bool
    ensures yes { result ≡ true → IsUnavailable (answer_text answer.now) }
    ensures no { result ≡ false → ¬ (IsUnavailable (answer_text answer.now)) }
{
    let (front, rest) = answer.parts();
    match unavailable_bytes().strip_prefix(front) {
        Some(left) => left == rest,
        None => false,
    }
}

//! One connection as steps over bytes, with no read and no write of its own: what is heard is handed in, and what is to
//! be told is handed out.
ghost use Rattle.std.specs.Prelude.{◌≡◌, ◌≤◌, ◌<◌, ◌+◌, ◌++◌, ℕ, List, Option, length, true, false};
ghost use Rattle.hall_desk.specs.declared.prepared.Prepared.TheVariants as Prepared;
ghost use Rattle.hall_http.specs.Connection.{Exchange};
ghost use Rattle.hall_http.specs.Head.{IsUnfinishedBelow};
ghost use Rattle.hall_http.specs.Limits.{most_reads, most_requests, most_waiting};
ghost use Rattle.hall_http.specs.Outgoing.{outgoing_text};
ghost use Rattle.hall_http.specs.Resting.{HasRested};
ghost use Rattle.hall_http.specs.Steps.{pending, fresh, IsAfterHearing, IsAfterSending, IsAfterEnd, Looks, gated};
ghost use Rattle.hall_http.specs.Steps.{Accepts, AnswersAt, Finds, JoinsFront, KeepsWaiting, StandsInFront, then_of};
ghost use Rattle.hall_http.specs.Steps.{joined_told, wish_of};

use crate::answer::Answer;
use crate::group_end::GroupEnd;
use crate::head::{Cut, cut_from, cut_request};
use crate::inbox::Inbox;
use crate::outgoing::Outgoing;
use crate::responder::Responder;
use crate::routes::Routes;
use hall_desk::Prepared;
use hall_policy::Moment;
use hall_store::JointAnswers;
use std::alloc::Global;

/// What a connection waits for.
#[derive(Clone, Copy, Debug, PartialEq, Eq)]
pub enum Wish {
    /// For a request.
    Idle,
    /// For the rest of a request.
    Asking,
    /// To have its reply taken.
    Taking,
    /// For the end of what is no longer answered.
    Leaving,
    /// For the work that its request needs.
    Searching,
}

/// The most requests of a connection.
const REQUEST_LIMIT: usize = 1000;

/// The most reads of a connection.
const READ_LIMIT: usize = 100_000;

/// The clock of a connection.
pub trait Clock {
    ghost now_gives: { Self → Option ℕ → Self → Type 0 };

    /// The moment, where the clock can tell it.
    fn now(&mut self) -> Option<Moment>
        ensures { now_gives self.old result self.new };
}

/// How a connection ended.
#[derive(Clone, Copy, Debug, PartialEq, Eq)]
pub enum ServeEnd {
    /// At the end of the input, or after a request that closes it.
    Closed,
    /// After a thousand requests, or a hundred thousand reads.
    Limit,
    /// At bytes that are no request.
    BadHead,
    /// At the one read or write that failed.
    Device,
}

/// What a connection is at.
#[derive(Clone, Copy, Debug, PartialEq, Eq)]
pub(crate) enum State {
    /// A whole request may wait.
    Looking,
    /// No whole request waits, and more bytes can make one.
    Reading,
    /// A reply waits to be sent; after it the connection ends so, or goes on.
    Writing(Option<ServeEnd>),
    /// It has ended, and nothing waits to be sent.
    Ended(ServeEnd),
}

/// One connection.
#[derive(Drop)]
pub(crate) struct Connection {
    pub(crate) inbox: Inbox,
    /// With fewer bytes what waits is unfinished.
    pub(crate) least: usize,
    pub(crate) reply: Outgoing,
    /// How many bytes of the reply were sent.
    pub(crate) sent: usize,
    pub(crate) requests: usize,
    pub(crate) reads: usize,
    pub(crate) state: State,
}

/// The whole request that stands at the front of what waits: how many bytes it has, whether the connection closes after
/// it, and what answers it.
#[derive(Drop)]
pub(crate) struct Joined {
    pub(crate) size: usize,
    pub(crate) closes: bool,
    pub(crate) answer: Answer,
}

impl Joined {
    /// The same, with what it is told once the one write for it and others has ended so.
    pub(crate) fn told(self, end: GroupEnd) -> Joined
        ensures { result ≡ joined_told end self }
    {
        match end {
            GroupEnd::Stored => self,
            GroupEnd::Refused => Joined {
                size: self.size,
                closes: self.closes,
                answer: Answer::Unavailable,
            },
            GroupEnd::Shut => Joined {
                size: self.size,
                closes: self.closes,
                answer: Answer::Shut,
            },
        }
    }
}

/// What comes after a request: whether it closes the connection, and how many there were.
fn then_of(closes: bool, requests: usize) -> Option<ServeEnd>
    ensures { result ≡ then_of closes requests }
{
    if closes {
        Some(ServeEnd::Closed)
    } else if requests == REQUEST_LIMIT {
        Some(ServeEnd::Limit)
    } else {
        None
    }
}

impl Connection {
    /// One of which nothing was heard, with the room of this inbox.
    pub(crate) fn new(inbox: Inbox) -> Connection
        ensures { result ≡ fresh }
    {
        let mut inbox = inbox;
        inbox.clear();
        Connection {
            inbox,
            least: 0,
            reply: Outgoing::Nothing,
            sent: 0,
            requests: 0,
            reads: 0,
            state: State::Looking,
        }
    }

    /// What it is at.
    pub(crate) fn state(&self) -> State
        ensures { result ≡ self.now.state }
    {
        self.state
    }

    /// What it waits for while it reads.
    pub(crate) fn wish(&self) -> Wish
        ensures { result ≡ wish_of self.now.inbox }
    {
        if self.inbox.unread().is_empty() {
            Wish::Idle
        } else {
            Wish::Asking
        }
    }

    /// Hears some more bytes, which one read gave.
    pub(crate) fn hear(&mut self, piece: &[u8])
        requires room { length self.old.inbox + length piece.now ≤ most_waiting }
        requires few { self.old.reads ≤ most_reads }
        ensures { IsAfterHearing self.old piece.now self.new }
    {
        match self.inbox.add(piece) {
            Ok(()) => {}
            Err(_) => unreachable!(),
        }
        self.reads += 1;
        self.state = State::Looking;
    }

    /// Hears that the input is at its end, as one read told.
    pub(crate) fn end_input(&mut self)
        requires { self.old.reads ≤ most_reads }
        ensures { IsAfterEnd self.old self.new }
    {
        self.reads += 1;
        if self.inbox.unread().is_empty() {
            self.state = State::Ended(ServeEnd::Closed);
            return;
        }
        self.reply = Outgoing::Refusal;
        self.sent = 0;
        self.state = State::Writing(Some(ServeEnd::BadHead));
    }

    /// Works for a while on what the request that waits needs, if one does: it is to be looked at now, or asked so
    /// again, or refused.
    pub(crate) fn prepare<H: Responder>(
        &self,
        alloc: Global,
        routes: &Routes,
        responder: &mut H,
    ) -> Prepared
        ensures rests { HasRested H.rests responder.old responder.new }
        ensures waits { result ≡ Prepared.Waits → KeepsWaiting H.may_wait self.now responder.new }
    {
        let unread = self.inbox.unread();
        if unread.len() < self.least || needs_nothing(unread) {
            return Prepared::Ready;
        }
        match cut_request(unread) {
            Cut::Whole { request, .. } => responder.prepare(alloc, routes, &request),
            Cut::More(_) | Cut::Never => Prepared::Ready,
        }
    }

    /// Whether a whole request waits. Where none does, bytes that are none are refused, and else more has to be read.
    pub(crate) fn finds_request(&mut self) -> bool
        requires { IsUnfinishedBelow self.old.least self.old.inbox }
        ensures { Finds self.old result self.new }
    {
        match cut_from(self.inbox.unread(), self.least) {
            Cut::Whole { .. } => true,
            Cut::More(least) => {
                self.least = least;
                self.state = if self.reads == READ_LIMIT {
                    State::Ended(ServeEnd::Limit)
                } else {
                    State::Reading
                };
                false
            }
            Cut::Never => {
                self.reply = Outgoing::Refusal;
                self.sent = 0;
                self.state = State::Writing(Some(ServeEnd::BadHead));
                false
            }
        }
    }

    /// The request that waits, if a whole one does, is answered as one that was heard at the moment. The result is
    /// whether the responder goes on.
    pub(crate) fn answer<H: Responder>(
        &mut self,
        alloc: Global,
        routes: &Routes,
        responder: &mut H,
        prepared: Prepared,
        moment: Option<Moment>,
    ) -> bool
        requires { self.old.requests ≤ most_requests }
        ensures { AnswersAt (gated H.answers H.goes_on) moment (responder.old, true) self.old
            (responder.new, result) self.new }
    {
        match cut_request(self.inbox.unread()) {
            Cut::Whole { size, request } => {
                let answer = responder.answer(alloc, routes, prepared, moment, &request);
                let goes_on = answer.goes_on();
                let closes = request.closes;
                self.accept(Joined {
                    size,
                    closes,
                    answer,
                });
                goes_on
            }
            Cut::More(_) => true,
            Cut::Never => true,
        }
    }

    /// The request that waits, if a whole one does, joins those that are to be answered together, if it can. Only reads
    /// the connection.
    pub(crate) fn join<H: Responder>(
        &self,
        alloc: Global,
        routes: &Routes,
        responder: &mut H,
        joint: &mut JointAnswers,
        moment: Option<Moment>,
    ) -> Option<Joined>
        ensures rests { HasRested H.rests responder.old responder.new }
        ensures joined { (xs : List Exchange) → H.have_joined xs joint.old responder.old →
            JoinsFront H.have_joined xs moment self.now result joint.new responder.new }
    {
        let unread = self.inbox.unread();
        if !unread.starts_with(b"PUT ") {
            return None;
        }
        match cut_request(unread) {
            Cut::Whole { size, request } => {
                let closes = request.closes;
                match responder.join(alloc, routes, joint, moment, &request) {
                    Some(answer) => Some(Joined {
                        size,
                        closes,
                        answer,
                    }),
                    None => None,
                }
            }
            Cut::More(_) => None,
            Cut::Never => None,
        }
    }

    /// The request at the front of what waits is answered so.
    pub(crate) fn accept(&mut self, joined: Joined)
        requires few { self.old.requests ≤ most_requests }
        requires front { StandsInFront self.old joined }
        ensures { Accepts self.old joined self.new }
    {
        let Joined {
            size,
            closes,
            answer,
        } = joined;
        self.reply = Outgoing::Reply(answer);
        self.requests += 1;
        self.state = State::Writing(then_of(closes, self.requests));
        self.inbox.pass(size);
        self.sent = 0;
        self.least = 0;
    }

    /// Looks at what waits: a whole request is answered, bytes that are none are refused, and else more has to be
    /// read. The result is whether the responder goes on.
    pub(crate) fn look<H: Responder, C: Clock>(
        &mut self,
        alloc: Global,
        routes: &Routes,
        responder: &mut H,
        clock: &mut C,
    ) -> bool
        requires below { IsUnfinishedBelow self.old.least self.old.inbox }
        requires few { self.old.requests ≤ most_requests }
        ensures { Looks (gated H.answers H.goes_on) C.now_gives ((responder.old, true), clock.old) self.old
            ((responder.new, result), clock.new) self.new }
    {
        if !self.finds_request() {
            return true;
        }
        let moment = clock.now();
        self.answer(alloc, routes, responder, Prepared::Ready, moment)
    }

    /// The bytes that wait to be sent, in two parts.
    pub(crate) fn pending(&self) -> (&[u8], &[u8])
        requires { self.now.sent ≤ length (outgoing_text self.now.reply) }
        ensures { result.0.now ++ result.1.now ≡ pending self.now }
    {
        self.reply.parts_from(self.sent)
    }

    /// Whether none wait.
    pub(crate) fn has_sent_all(&self) -> bool
        requires { self.now.sent ≤ length (outgoing_text self.now.reply) }
        ensures yes { result ≡ true → length (pending self.now) ≡ 0 }
        ensures no { result ≡ false → 0 < length (pending self.now) }
    {
        self.sent == self.reply.len()
    }

    /// So many of them were sent.
    pub(crate) fn sent(&mut self, count: usize)
        requires { count ≤ length (pending self.old) }
        ensures { IsAfterSending self.old count self.new }
    {
        let size = self.reply.len();
        self.sent += count;
        if self.sent < size {
            return;
        }
        self.sent = 0;
        self.reply = Outgoing::Nothing;
        if let State::Writing(then) = self.state {
            self.state = match then {
                Some(end) => State::Ended(end),
                None => State::Looking,
            };
        }
    }

    /// All of them were sent.
    pub(crate) fn sent_all(&mut self)
        requires { self.old.sent ≤ length (outgoing_text self.old.reply) }
        ensures { IsAfterSending self.old (length (pending self.old)) self.new }
    {
        let count = self.reply.len() - self.sent;
        self.sent(count);
    }
}

/// Whether the bytes begin with a method by which nothing is asked that needs work before it is answered, or ask for
/// anything but what is long. It spares most requests a look at their heads.
fn needs_nothing(bytes: &[u8]) -> bool {
    match bytes.strip_prefix(b"GET ") {
        Some(target) => !asks_long(target),
        None => bytes.starts_with(b"PUT "),
    }
}

/// Whether the target that the bytes begin with is a table's, or that of a listing of answers.
fn asks_long(bytes: &[u8]) -> bool {
    match bytes.iter().position(|byte| *byte == b' ') {
        Some(end) => bytes[..end].ends_with(b"/table") || bytes[..end].ends_with(b"/answers"),
        None => false,
    }
}

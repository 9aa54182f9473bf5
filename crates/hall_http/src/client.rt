//! One connection and the other side of it.
ghost use Rattle.std.specs.Prelude.{◌≡◌, ◌++◌, ◌∷◌, ℕ, List, Some};
ghost use Rattle.hall_http.specs.Group.{Awaits, JoinsAt, answered_at, recording};
ghost use Rattle.hall_http.specs.Steps.{StandsRightly};
ghost use Rattle.hall_http.specs.Peer.{IsUntouched};
ghost use Rattle.hall_http.specs.Progress.{AnswersFirst, Goes, TakesTurn};
ghost use Rattle.hall_http.specs.Resting.{HasRested};
ghost use Rattle.hall_http.specs.Turns.{IsClient, IsClientAnswered, IsClientKept, IsMoved, IsOverRightly, service_of};
ghost use Rattle.hall_http.specs.Connection.{Exchange};
ghost use Rattle.std.specs.Prelude.{[], Option, true, false};
ghost use Rattle.hall_http.specs.declared.client.Step.TheVariants as Step;
ghost use Rattle.hall_http.specs.declared.connection.State.TheVariants as State;
ghost use Rattle.hall_http.specs.declared.connection.ServeEnd.{ServeEnd};

use crate::connection::{Connection, Joined, ServeEnd, State, Wish};
use crate::inbox::Inbox;
use crate::peer::{Moved, Peer};
use crate::responder::Responder;
use crate::routes::Routes;
use hall_desk::Prepared;
use hall_policy::Moment;
use hall_store::JointAnswers;
use std::alloc::Global;

/// The most steps of a turn: enough for a reply to be sent and a request to be read.
const STEPS: usize = 5;

/// How a connection stands after its turn.
#[derive(Clone, Copy, Debug, PartialEq, Eq)]
pub enum Step {
    /// It can go on at once.
    Again,
    /// It has ended, and reads off more of what still comes.
    Leaves,
    /// It waits for the other side, after so many requests.
    Waits { wish: Wish, requests: usize },
    /// Its request, after so many, needs more work before it is answered, at further turns.
    Searches { requests: usize },
    /// A whole request of it waits to be answered.
    Holds,
    /// It is over.
    Over,
}

/// One connection and the other side of it.
#[derive(Drop)]
pub(crate) struct Client<P> {
    pub(crate) connection: Connection,
    pub(crate) peer: P,
    /// A read told that no more comes.
    pub(crate) is_over: bool,
    /// It was told that no more is sent.
    pub(crate) is_leaving: bool,
}

impl<P: Peer> Client<P> {
    /// A newcomer.
    pub(crate) fn new(inbox: Inbox, peer: P) -> Client<P>
        requires { IsUntouched (P.traffic peer) }
        ensures peer { result.peer ≡ peer }
        ensures kept { IsClient P.traffic [] result }
    {
        Client {
            connection: Connection::new(inbox),
            peer,
            is_over: false,
            is_leaving: false,
        }
    }

    /// Has its turn: goes some steps, until it would have to wait, or a whole request of it is to be answered.
    pub(crate) fn turn<H: Responder>(
        &mut self,
        alloc: Global,
        routes: &Routes,
        responder: &mut H,
    ) -> Step
        requires { (xs : List Exchange) × IsClient P.traffic xs self.old }
        ensures kept { IsClientKept P.traffic self.old self.new }
        ensures rests { HasRested H.rests responder.old responder.new }
        ensures over { IsOverRightly result (P.traffic self.new.peer) }
        ensures stands { StandsRightly H.may_wait self.new.connection responder.new result }
        ensures takes { TakesTurn P.traffic self.old result self.new }
    {
        for _step in 0..STEPS {
            match self.step(alloc, routes, responder) {
                Step::Again => {}
                step => return step,
            }
        }
        Step::Again
    }

    /// Goes one step: looks at what waits, reads once, or sends once, none of which has to wait for the other side.
    fn step<H: Responder>(&mut self, alloc: Global, routes: &Routes, responder: &mut H) -> Step
        requires { (xs : List Exchange) × IsClient P.traffic xs self.old }
        ensures kept { IsClientKept P.traffic self.old self.new }
        ensures rests { HasRested H.rests responder.old responder.new }
        ensures over { IsOverRightly result (P.traffic self.new.peer) }
        ensures stands { StandsRightly H.may_wait self.new.connection responder.new result }
        ensures goes { Goes P.traffic 1 self.old result self.new }
    {
        match self.connection.state() {
            State::Looking => self.look(alloc, routes, responder),
            State::Reading => self.read(),
            State::Writing(_) => self.write(),
            State::Ended(_) => self.leave(),
        }
    }

    /// Looks at what waits. A whole request is to be answered; but one that needs more work is kept waiting.
    fn look<H: Responder>(&mut self, alloc: Global, routes: &Routes, responder: &mut H) -> Step
        requires kept { (xs : List Exchange) × IsClient P.traffic xs self.old }
        requires at { self.old.connection.state ≡ State.Looking }
        ensures kept { IsClientKept P.traffic self.old self.new }
        ensures rests { HasRested H.rests responder.old responder.new }
        ensures over { IsOverRightly result (P.traffic self.new.peer) }
        ensures stands { StandsRightly H.may_wait self.new.connection responder.new result }
        ensures goes { Goes P.traffic 1 self.old result self.new }
    {
        if let Prepared::Waits = self.connection.prepare(alloc, routes, responder) {
            return Step::Searches {
                requests: self.connection.requests,
            };
        }
        if self.connection.finds_request() {
            Step::Holds
        } else {
            Step::Again
        }
    }

    /// The request that waits, if one does, is answered as one that was heard at the moment, and its reply is sent
    /// once; but one that needs more work isn't answered, and one whose work was refused is told 503. The result is
    /// whether the responder goes on.
    pub(crate) fn answer<H: Responder>(
        &mut self,
        alloc: Global,
        routes: &Routes,
        responder: &mut H,
        moment: Option<Moment>,
    ) -> bool
        requires { (xs : List Exchange) × IsClient P.traffic xs self.old }
        ensures answered { IsClientAnswered (service_of H.answers H.joins H.goes_on H.rests H.may_wait) P.traffic moment
            (responder.old, true) self.old (responder.new, result) self.new }
        ensures first { AnswersFirst H.may_wait self.old responder.new self.new }
    {
        let State::Looking = self.connection.state() else {
            return true;
        };
        let prepared = self.connection.prepare(alloc, routes, responder);
        if let Prepared::Waits = prepared {
            return true;
        }
        let goes_on = self
            .connection
            .answer(alloc, routes, responder, prepared, moment);
        self.finish();
        goes_on
    }

    /// The request that waits, if one does, joins those that are to be answered together, if it can. Only reads the
    /// connection.
    pub(crate) fn join<H: Responder>(
        &self,
        alloc: Global,
        routes: &Routes,
        responder: &mut H,
        joint: &mut JointAnswers,
        moment: Option<Moment>,
    ) -> Option<Joined>
        ensures rests { HasRested H.rests responder.old responder.new }
        ensures joined { (xs : List Exchange) → H.have_joined xs joint.old responder.old →
            JoinsAt H.have_joined xs (Some self.now) moment result joint.new responder.new }
    {
        let State::Looking = self.connection.state() else {
            return None;
        };
        self.connection
            .join(alloc, routes, responder, joint, moment)
    }

    /// The request that waits is answered so, and its reply is sent once.
    pub(crate) fn accept(&mut self, joined: Joined)
        requires kept { (xs : List Exchange) × IsClient P.traffic xs self.old }
        requires awaits { Awaits (Some self.old) joined }
        ensures { (told : List Exchange) (moment : Option ℕ) → IsClientAnswered recording P.traffic moment told self.old
            (told ++ answered_at (Some self.old) moment joined ∷ []) self.new }
    {
        self.connection.accept(joined);
        self.finish();
    }

    /// It waits for this.
    fn waits(&self, wish: Wish) -> Step
        ensures { result ≡ Step.Waits wish self.now.connection.requests }
    {
        Step::Waits {
            wish,
            requests: self.connection.requests,
        }
    }

    /// Reads once.
    fn read(&mut self) -> Step
        requires kept { (xs : List Exchange) × IsClient P.traffic xs self.old }
        requires at { self.old.connection.state ≡ State.Reading }
        ensures moved { IsMoved P.traffic self.old result self.new }
        ensures goes { Goes P.traffic 1 self.old result self.new }
    {
        let mut chunk = [0u8; 4096];
        match self.peer.receive(&mut chunk) {
            Moved::Some(count) if count > 0 => self.connection.hear(&chunk[..count]),
            Moved::Wait => return self.waits(self.connection.wish()),
            _ => {
                self.is_over = true;
                self.connection.end_input();
            }
        }
        Step::Again
    }

    /// Sends once, where some of the reply is left.
    fn write(&mut self) -> Step
        requires kept { (xs : List Exchange) × IsClient P.traffic xs self.old }
        requires at { (ending : Option ServeEnd) × (self.old.connection.state ≡ State.Writing ending) }
        ensures moved { IsMoved P.traffic self.old result self.new }
        ensures goes { Goes P.traffic 1 self.old result self.new }
    {
        if self.connection.has_sent_all() {
            self.connection.sent(0);
            return Step::Again;
        }
        match self.peer.send(&self.connection.reply, self.connection.sent) {
            Moved::Some(count) => self.connection.sent(count),
            Moved::Wait => return self.waits(Wish::Taking),
            Moved::None => return Step::Over,
        }
        Step::Again
    }

    /// Tells the peer that no more is sent, and reads off what still comes: a socket that is closed over unread bytes
    /// may lose its last reply.
    fn leave(&mut self) -> Step
        requires kept { (xs : List Exchange) × IsClient P.traffic xs self.old }
        requires at { (end : ServeEnd) × (self.old.connection.state ≡ State.Ended end) }
        ensures moved { IsMoved P.traffic self.old result self.new }
        ensures goes { Goes P.traffic 1 self.old result self.new }
    {
        self.hang_up();
        if self.is_over {
            return Step::Over;
        }
        self.read_off()
    }

    /// Sends once more, where a reply waits.
    pub(crate) fn finish(&mut self)
        requires { (xs : List Exchange) × IsClient P.traffic xs self.old }
        ensures kept { IsClientKept P.traffic self.old self.new }
        ensures requests { self.new.connection.requests ≡ self.old.connection.requests }
    {
        if let State::Writing(_) = self.connection.state() {
            let _step = self.write();
        }
    }

    /// Tells the peer, once, that no more is sent.
    fn hang_up(&mut self)
        requires kept { (xs : List Exchange) × IsClient P.traffic xs self.old }
        requires at { (end : ServeEnd) × (self.old.connection.state ≡ State.Ended end) }
        ensures connection { self.new.connection ≡ self.old.connection }
        ensures over { self.new.is_over ≡ self.old.is_over }
        ensures hung_up { (P.traffic self.new.peer).hung_up ≡ true }
        ensures kept { IsClientKept P.traffic self.old self.new }
        ensures calls { (P.traffic self.new.peer).calls ≡ (P.traffic self.old.peer).calls }
    {
        if self.is_leaving {
            return;
        }
        self.is_leaving = true;
        self.peer.end_sending();
    }

    /// Reads off once what is no longer answered.
    fn read_off(&mut self) -> Step
        requires at { (end : ServeEnd) × (self.old.connection.state ≡ State.Ended end) }
        requires unended { self.old.is_over ≡ false }
        requires hung_up { (P.traffic self.old.peer).hung_up ≡ true }
        ensures moved { IsMoved P.traffic self.old result self.new }
        ensures goes { Goes P.traffic 1 self.old result self.new }
    {
        let mut chunk = [0u8; 4096];
        match self.peer.receive(&mut chunk) {
            Moved::Some(_) => Step::Leaves,
            Moved::Wait => self.waits(Wish::Leaving),
            Moved::None => {
                self.is_over = true;
                Step::Over
            }
        }
    }
}

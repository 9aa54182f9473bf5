//! What answers the requests of a connection.
ghost use Rattle.std.specs.Prelude.{◌≡◌, ◌≢◌, ℕ, List, [], Option, Bool, true, false, map};
ghost use Rattle.hall_desk.specs.Desk.{kept_by};
ghost use Rattle.hall_store.specs.Store.{Kept};
ghost use Rattle.hall_http.specs.Answered.{answer_text};
ghost use Rattle.hall_http.specs.Connection.{Exchange};
ghost use Rattle.hall_http.specs.Groups.{AreAnsweredTogether};
ghost use Rattle.hall_http.specs.Head.{IsLentBy};
ghost use Rattle.hall_http.specs.Joining.{HaveJoined, JoinsOne, told_at_end};
ghost use Rattle.hall_http.specs.Request.{ReachesStore};
ghost use Rattle.hall_http.specs.Serving.{GoesOn, IsAnsweredOver, WaitsForWork};
ghost use Rattle.hall_http.specs.Steps.{gated_group};
ghost use Rattle.hall_http.specs.declared.answer.Answer.TheVariants as Answer;
ghost use Rattle.hall_http.specs.declared.group_end.GroupEnd.TheVariants as GroupEnd;
ghost use Rattle.hall_desk.specs.declared.prepared.Prepared.TheVariants as Prepared;
ghost use Rattle.hall_policy.specs.declared.record.AnswerRow.{AnswerRow};

use crate::answer::{Answer, answer_raw_request, prepare_raw_request};
use crate::group_end::GroupEnd;
use crate::head::RawRequest;
use crate::joining::{join_raw_request, store_joint};
use crate::routes::Routes;
use hall_desk::{Desk, Prepared};
use hall_policy::Moment;
use hall_store::{JointAnswers, Store};
use std::alloc::Global;

/// What answers requests, one after another, or some of them together.
pub(crate) trait Responder {
    ghost answers: { Self → Option ℕ → List ℕ → List ℕ → Self → Type 0 };

    /// Some requests are answered together.
    ghost joins: { Self → List Exchange → Self → Type 0 };

    /// These requests are to be answered together, with these answers to puzzles, of which none is stored yet.
    ghost have_joined: { List Exchange → List AnswerRow → Self → Type 0 };

    /// Once it has given this reply, it can answer further requests.
    ghost goes_on: { Self → List ℕ → Self → Type 0 };

    /// It has worked on what a request needs, and answered nothing.
    ghost rests: { Self → Self → Type 0 };

    /// A request that is these bytes may be kept waiting for what it needs.
    ghost may_wait: { Self → List ℕ → Type 0 };

    /// Works for a while on what the request needs: it is to be answered now, or asked so again, or refused.
    fn prepare(&mut self, alloc: Global, routes: &Routes, request: &RawRequest<'_>) -> Prepared
        ensures rests { rests self.old self.new }
        ensures waits { result ≡ Prepared.Waits → (bytes : List ℕ) → IsLentBy bytes request.now →
            may_wait self.new bytes };

    /// Whether the device refused the last write that was to be made. No clause speaks of it.
    fn refuses_writes(&self) -> bool;

    /// The answer to a request at a moment, once its change is made. One whose preparation was refused is told 503.
    fn answer(
        &mut self,
        alloc: Global,
        routes: &Routes,
        prepared: Prepared,
        moment: Option<Moment>,
        request: &RawRequest<'_>,
    ) -> Answer
        ensures answers { (bytes : List ℕ) → IsLentBy bytes request.now →
            answers self.old moment bytes (answer_text result) self.new }
        ensures goes_on { result ≢ Answer.Shut → goes_on self.old (answer_text result) self.new }
        ensures shut { (bytes : List ℕ) → IsLentBy bytes request.now → result ≡ Answer.Shut →
            ReachesStore moment bytes };

    /// None yet that are to be answered together.
    fn gather(&self, alloc: Global) -> JointAnswers
        ensures { have_joined [] result self.now };

    /// The request joins those that are to be answered together, if it can: it changes nothing but that one more answer
    /// to a puzzle is stored, of another person than theirs, or it changes nothing at all. The result is what it will
    /// be told once that is stored. Reads only.
    fn join(
        &mut self,
        alloc: Global,
        routes: &Routes,
        joint: &mut JointAnswers,
        moment: Option<Moment>,
        request: &RawRequest<'_>,
    ) -> Option<Answer>
        ensures rests { rests self.old self.new }
        ensures joined { (xs : List Exchange) (bytes : List ℕ) → IsLentBy bytes request.now →
            have_joined xs joint.old self.old → JoinsOne have_joined xs moment bytes result joint.new self.new };

    /// Stores by one write what those change that have joined, all of it or nothing. Nothing that they are told may be
    /// told before.
    fn store_joined(&mut self, alloc: Global, joint: JointAnswers) -> GroupEnd
        requires { (xs : List Exchange) × have_joined xs joint self.old }
        ensures { (xs : List Exchange) (goes : Bool) → xs ≢ [] → have_joined xs joint self.old →
            (result ≡ GroupEnd.Shut → goes ≡ false) → (result ≢ GroupEnd.Shut → goes ≡ true) →
            gated_group joins goes_on (self.old, true) (map (told_at_end result) xs) (self.new, goes) };
}

impl<S: Store> Responder for Desk<S> {
    ghost answers = { IsAnsweredOver (λ desk. S.content (kept_by desk)) };

    ghost joins = { AreAnsweredTogether (λ desk. S.content (kept_by desk)) };

    ghost have_joined = { HaveJoined (λ desk. S.content (kept_by desk)) };

    ghost goes_on = { GoesOn (λ desk. S.content (kept_by desk)) };

    ghost rests = { λ old new. Kept (S.content (kept_by old)) (S.content (kept_by new)) };

    ghost may_wait = { WaitsForWork (λ desk. S.content (kept_by desk)) };

    fn prepare(&mut self, alloc: Global, routes: &Routes, request: &RawRequest<'_>) -> Prepared {
        prepare_raw_request(alloc, routes, self, request)
    }

    fn refuses_writes(&self) -> bool {
        Desk::refuses_writes(self)
    }

    fn answer(
        &mut self,
        alloc: Global,
        routes: &Routes,
        prepared: Prepared,
        moment: Option<Moment>,
        request: &RawRequest<'_>,
    ) -> Answer {
        match moment {
            Some(moment) => {
                let answer = answer_raw_request(alloc, routes, self, prepared, moment, request);
                self.at_rest();
                answer
            }
            None => {
                self.at_rest();
                Answer::Unavailable
            }
        }
    }

    fn gather(&self, alloc: Global) -> JointAnswers {
        JointAnswers::new(alloc)
    }

    fn join(
        &mut self,
        alloc: Global,
        routes: &Routes,
        joint: &mut JointAnswers,
        moment: Option<Moment>,
        request: &RawRequest<'_>,
    ) -> Option<Answer> {
        match moment {
            Some(moment) => join_raw_request(alloc, routes, self, joint, moment, request),
            None => None,
        }
    }

    fn store_joined(&mut self, alloc: Global, joint: JointAnswers) -> GroupEnd {
        let end = store_joint(alloc, self, joint);
        self.at_rest();
        end
    }
}

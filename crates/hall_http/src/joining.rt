//! Requests that are answered together: how one joins them, and how what they change is stored.
ghost use Rattle.std.specs.Prelude.{◌≡◌, ◌≢◌, ℕ, List, Some};
ghost use Rattle.hall_store.specs.Change.{CanAddAnswers};
ghost use Rattle.hall_store.specs.Store.{Asks, Kept};
ghost use Rattle.hall_desk.specs.Desk.{kept_by};
ghost use Rattle.hall_http.specs.Connection.{Exchange};
ghost use Rattle.hall_http.specs.Head.{IsLentBy};
ghost use Rattle.hall_http.specs.Joining.{HaveJoined, JoinsOne, JoinsRequest, StoresJoint, TakesReply};
ghost use Rattle.hall_http.specs.declared.group_end.GroupEnd.TheVariants as GroupEnd;

use crate::answer::{Answer, is_nobodys, is_unavailable, serves_on};
use crate::group_end::GroupEnd;
use crate::head::RawRequest;
use crate::reply::reply_bytes;
use crate::request::request_of;
use crate::routes::Routes;
use hall_desk::{Desk, Plan, take};
use hall_policy::{Moment, Request};
use hall_store::{JointAnswers, Store};
use std::alloc::Global;

/// What a raw request will be told that joins those whose answers these are, if it can. It joins none over a desk whose
/// device refused the last write, so that one that is refused costs no others. Reads only.
pub(crate) fn join_raw_request<S: Store>(
    alloc: Global,
    routes: &Routes,
    desk: &mut Desk<S>,
    joint: &mut JointAnswers,
    moment: Moment,
    raw: &RawRequest<'_>,
) -> Option<Answer>
    ensures kept { Kept (S.content (kept_by desk.old)) (S.content (kept_by desk.new)) }
    ensures joined { (xs : List Exchange) (bytes : List ℕ) → IsLentBy bytes raw.now →
        HaveJoined (λ desk. S.content (kept_by desk)) xs joint.old desk.old →
        JoinsOne (HaveJoined (λ desk. S.content (kept_by desk))) xs (Some moment) bytes result joint.new desk.new }
{
    if desk.refuses_writes() {
        return None;
    }
    match request_of(alloc, routes, raw) {
        Ok(request) => join_request(alloc, desk, joint, moment, &request),
        Err(_) => None,
    }
}

/// What a request will be told that joins these answers, if it can. Reads only.
fn join_request<S: Store>(
    alloc: Global,
    desk: &mut Desk<S>,
    joint: &mut JointAnswers,
    moment: Moment,
    request: &Request,
) -> Option<Answer>
    ensures kept { Kept (S.content (kept_by desk.old)) (S.content (kept_by desk.new)) }
    ensures joined { JoinsRequest (S.content (kept_by desk.new)) moment request.now joint.old result joint.new }
{
    // They are read for the ranges that their types keep.
    let _moment = moment.get();
    request.in_range();
    if is_nobodys(request) {
        return None;
    }
    match desk.plan_beside(alloc, joint, moment, request) {
        Ok(Some(plan)) => take_reply(alloc, joint, plan),
        Ok(None) | Err(_) => None,
    }
}

/// The plan's reply, where its text is made and isn't 503; only then do the answers take the plan.
fn take_reply(alloc: Global, joint: &mut JointAnswers, plan: Plan) -> Option<Answer>
    ensures { TakesReply plan joint.old result joint.new }
{
    let Ok(text) = reply_bytes(alloc, plan.reply()) else {
        return None;
    };
    let answer = Answer::Text(text);
    if is_unavailable(&answer) {
        return None;
    }
    match take(joint, plan) {
        Ok(()) => Some(answer),
        Err(_) => None,
    }
}

/// Stores these answers by one write, all of them or none. A request that didn't join them may have met a fault, so the
/// store is asked first whether it serves.
pub(crate) fn store_joint<S: Store>(
    alloc: Global,
    desk: &mut Desk<S>,
    joint: JointAnswers,
) -> GroupEnd
    requires { Asks (S.content (kept_by desk.old)) (λ world. CanAddAnswers world joint) }
    ensures { StoresJoint (S.content (kept_by desk.old)) joint result (S.content (kept_by desk.new)) }
{
    if !serves_on(alloc, desk) {
        return GroupEnd::Shut;
    }
    match desk.commit_all(alloc, joint) {
        Ok(()) => GroupEnd::Stored,
        Err(_) => refused_end(alloc, desk),
    }
}

/// How a write for a group ended that was refused.
fn refused_end<S: Store>(alloc: Global, desk: &mut Desk<S>) -> GroupEnd
    ensures kept { Kept (S.content (kept_by desk.old)) (S.content (kept_by desk.new)) }
    ensures left { result ≢ GroupEnd.Stored }
    ensures opened { result ≡ GroupEnd.Refused → (S.content (kept_by desk.new)).honest →
        (S.content (kept_by desk.new)).serves }
{
    if serves_on(alloc, desk) {
        return GroupEnd::Refused;
    }
    GroupEnd::Shut
}

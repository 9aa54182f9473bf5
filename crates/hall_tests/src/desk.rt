//! Calls of the desk: a plan and its commit, a list of requests.
use crate::fixtures::{number, puzzle_key, text};
use crate::opening::opening_desk;
use hall_desk::{Desk, Prepared, Reply, StateName};
use hall_policy::{Action, Moment, Request};
use hall_store::MapStore;
use std::alloc::AllocGlobal;
use std::process::Abort;

/// A certificate of bob's puzzle, for whoever has the key.
fn certificate(rt: &(impl AllocGlobal + Abort), key: &str, budget: u64) -> Request {
    Request {
        key: Some(text(rt, key)),
        action: Action::Certify {
            key: puzzle_key(rt, "bob", "p1"),
            budget: number(rt, budget),
        },
    }
}

/// Dora's release of the round r1.
fn release(rt: &(impl AllocGlobal + Abort)) -> Request {
    Request {
        key: Some(text(rt, "dora-key")),
        action: Action::Release {
            round: text(rt, "r1"),
        },
    }
}

/// Eve's answer to the puzzle of the round r1.
fn answer(rt: &(impl AllocGlobal + Abort), token: &str) -> Request {
    Request {
        key: Some(text(rt, "eve-key-1")),
        action: Action::Submit {
            round: text(rt, "r1"),
            number: number(rt, 1),
            token: text(rt, token),
            answer: text(rt, "1234341221434321"),
        },
    }
}

/// What an answer is answered: its number, where it is right.
fn right_number(reply: &Reply) -> Option<u64> {
    match reply {
        Reply::Submit {
            n,
            verdict: Some(names),
        } if names.is_empty() => Some(n.get()),
        _ => None,
    }
}

/// A request too early, two answers, and the first one again.
fn requests(rt: &(impl AllocGlobal + Abort)) -> Vec<(Moment, Request)> {
    let early = number(rt, 1_777_712_399);
    let late = number(rt, 1_777_712_400);
    let requests = [
        (early, answer(rt, "k1")),
        (late, answer(rt, "k1")),
        (late, answer(rt, "k2")),
        (early, answer(rt, "k1")),
    ];
    Vec::from_array(rt.alloc(), requests).expect(rt, "memory")
}

/// Certifies the puzzle by a plan and its commit, and says whether both are answered so.
fn certified(rt: &(impl AllocGlobal + Abort), desk: &mut Desk<MapStore>, t: Moment) -> bool {
    let request = certificate(rt, "dora-key", 200_000);
    let plan = desk.plan(rt.alloc(), t, &request).expect(rt, "plan");
    drop(request);
    let is_planned = matches!(plan.reply(), Reply::Certify(StateName::One));
    let reply = desk.commit(rt.alloc(), plan).expect(rt, "commit");
    let is_done = matches!(&reply, Reply::Certify(StateName::One));
    drop(reply);
    is_planned && is_done
}

/// Releases the round by a step, and says whether it is answered so.
fn released(rt: &(impl AllocGlobal + Abort), desk: &mut Desk<MapStore>, t: Moment) -> bool {
    let request = release(rt);
    let reply = desk.step(rt.alloc(), t, &request);
    drop(request);
    let is_released = matches!(&reply, Reply::Release(_));
    drop(reply);
    is_released
}

/// Dora's publication of the round r1.
fn publication(rt: &(impl AllocGlobal + Abort)) -> Request {
    Request {
        key: Some(text(rt, "dora-key")),
        action: Action::Publish {
            round: text(rt, "r1"),
        },
    }
}

/// The world before the round r1, which is released.
pub(crate) fn released_desk(rt: &(impl AllocGlobal + Abort)) -> Desk<MapStore> {
    let t = number(rt, 1_777_712_399);
    let mut desk = opening_desk(rt);
    assert!(rt; certified(rt, &mut desk, t) && released(rt, &mut desk, t));
    desk
}

/// The world after the round r1, in which eve alone answered, as the round began.
pub(crate) fn published_desk(rt: &(impl AllocGlobal + Abort)) -> Desk<MapStore> {
    let mut desk = released_desk(rt);
    let replies = desk.run(rt.alloc(), &requests(rt)).expect(rt, "run");
    assert!(rt; replies.len() == 4);
    drop(replies);
    let request = publication(rt);
    let reply = desk.step(rt.alloc(), number(rt, 1_777_717_800), &request);
    drop(request);
    assert!(rt; matches!(&reply, Reply::Publish(_)));
    drop(reply);
    desk
}

#[test]
fn plans_are_committed_and_lists_run(rt: HostRuntime) {
    let mut desk = released_desk(&rt);
    let replies = desk.run(rt.alloc(), &requests(&rt)).expect(&rt, "run");
    assert!(rt; replies.len() == 4);
    desk.into_store();
    for (reply, number) in replies.iter().zip([None, Some(1), Some(2), Some(1)]) {
        assert!(rt; right_number(reply) == number);
    }
}

/// Prepares the request until it is to be answered.
fn prepared(rt: &(impl AllocGlobal + Abort), desk: &mut Desk<MapStore>, request: &Request) -> bool {
    for _turn in 0..1_000 {
        if desk.prepare(rt.alloc(), request) == Prepared::Ready {
            return true;
        }
    }
    false
}

#[test]
fn what_a_search_found_outlasts_the_end_of_anothers(rt: HostRuntime) {
    let mut desk = opening_desk(&rt);
    let own = certificate(&rt, "dora-key", 200_000);
    let others = certificate(&rt, "bob-key-1", 1);
    assert!(rt; prepared(&rt, &mut desk, &own) && prepared(&rt, &mut desk, &others));
    assert!(rt; desk.prepare(rt.alloc(), &own) == Prepared::Ready);
    desk.into_store();
    drop(own);
    drop(others);
}

//! Requests that are held and are to be answered together.
ghost use Rattle.std.specs.Prelude.{◌≡◌, ◌≢◌, ◌≤◌, ◌<◌, ◌+◌, ◌++◌, ◌∷◌, [], All, IfOk};
ghost use Rattle.std.specs.Prelude.{MatchOption, false, length, true};
ghost use Rattle.std.specs.Prelude.{vec_capacity};
ghost use Rattle.hall_http.specs.Group.{IsGathered, Takes, requests_of};
ghost use Rattle.hall_http.specs.Limits.{most_joined};
ghost use Rattle.hall_http.specs.Resting.{HasRested};

use crate::clients::{Clients, HeldRequest};
use crate::connection::Joined;
use crate::held::Held;
use crate::peer::Peer;
use crate::responder::Responder;
use crate::routes::Routes;
use hall_store::{JointAnswers, MOST_TOGETHER};
use std::alloc::{AllocError, Global};

/// A request that is to be answered with others, and what is planned for it.
#[derive(Drop)]
pub(crate) struct Member {
    pub(crate) request: HeldRequest,
    pub(crate) joined: Joined,
}

/// Requests that are to be answered together, in the order in which they were held, of places of their own, and the
/// answers to puzzles that are to be stored for them.
#[derive(Drop)]
pub(crate) struct Group {
    pub(crate) members: Vec<Member>,
    pub(crate) joint: JointAnswers,
}

/// Whether one of them is of the place.
fn have(members: &[Member], place: usize) -> bool
    ensures { result ≡ false → All (λ member. member.request.place ≢ place) members.now }
{
    for member in members {
        if member.request.place == place {
            return true;
        }
    }
    false
}

impl Group {
    /// None yet.
    fn new<H: Responder>(alloc: Global, responder: &H) -> Result<Group, AllocError>
        ensures none { IfOk result (λ group. group.members.items ≡ []) }
        ensures room { IfOk result (λ group. most_joined ≤ vec_capacity group.members) }
        ensures joined { IfOk result (λ group. H.have_joined [] group.joint responder.now) }
    {
        let members = Vec::with_capacity(alloc, MOST_TOGETHER)?;
        let joint = responder.gather(alloc);
        Ok(Group { members, joint })
    }

    /// The first of the requests that are held joins these, if it can. The result is whether it did.
    fn take<P: Peer + Drop, H: Responder>(
        &mut self,
        alloc: Global,
        routes: &Routes,
        clients: &Clients<P>,
        held: &mut Held,
        responder: &mut H,
    ) -> bool
        requires room { length self.old.members.items < vec_capacity self.old.members }
        requires gathered { IsGathered H.have_joined clients.now self.old responder.old }
        ensures gathered { IsGathered H.have_joined clients.now self.new responder.new }
        ensures rests { HasRested H.rests responder.old responder.new }
        ensures capacity { vec_capacity self.new.members ≡ vec_capacity self.old.members }
        ensures takes { Takes result self.old.members.items held.old self.new.members.items held.new }
    {
        let Some(one) = held.first() else {
            return false;
        };
        if have(self.members.as_slice(), one.place) {
            return false;
        }
        match clients.join(alloc, routes, &one, responder, &mut self.joint) {
            Some(joined) => {
                self.members.push_reserved(Member {
                    request: one,
                    joined,
                });
                let _first = held.pop();
                true
            }
            None => false,
        }
    }

    /// The first of the requests that are held join these, as long as they can, at most 64.
    fn fill<P: Peer + Drop, H: Responder>(
        &mut self,
        alloc: Global,
        routes: &Routes,
        clients: &Clients<P>,
        held: &mut Held,
        responder: &mut H,
    )
        requires none { self.old.members.items ≡ [] }
        requires room { most_joined ≤ vec_capacity self.old.members }
        requires joined { H.have_joined [] self.old.joint responder.old }
        ensures gathered { IsGathered H.have_joined clients.now self.new responder.new }
        ensures rests { HasRested H.rests responder.old responder.new }
        ensures order { held.old ≡ requests_of self.new.members.items ++ held.new }
        ensures few { length self.new.members.items ≤ most_joined }
    {
        for _member in 0..MOST_TOGETHER {
            if !self.take(alloc, routes, clients, held, responder) {
                return;
            }
        }
    }
}

/// The first of the requests that are held and can be answered together are held no more: the longest first part of
/// them that can be, at most 64, each of another connection and of another person. None where the first one can't be,
/// or there is no memory for them.
pub(crate) fn gather<P: Peer + Drop, H: Responder>(
    alloc: Global,
    routes: &Routes,
    clients: &Clients<P>,
    held: &mut Held,
    responder: &mut H,
) -> Option<Group>
    ensures rests { HasRested H.rests responder.old responder.new }
    ensures gathered { MatchOption result (held.new ≡ held.old)
        (λ group. IsGathered H.have_joined clients.now group responder.new × (group.members.items ≢ [])
        × (held.old ≡ requests_of group.members.items ++ held.new) × (length group.members.items ≤ most_joined)) }
{
    let Ok(mut group) = Group::new(alloc, responder) else {
        return None;
    };
    group.fill(alloc, routes, clients, held, responder);
    if group.members.is_empty() {
        return None;
    }
    Some(group)
}

/// Takes the first of them.
pub(crate) fn take_first(members: &mut Vec<Member>) -> Member
    requires { 0 < length members.old.items }
    ensures { members.old.items ≡ result ∷ members.new.items }
{
    members.remove(0)
}

//! The requests that are held: they stand whole, and wait to be answered, in the order in which they were heard.
ghost use Rattle.std.specs.Prelude.{◌≡◌, ◌<◌, ◌++◌, List, [], ◌∷◌, IfOk, MatchOption, false, length, true};
ghost use Rattle.hall_http.specs.Limits.{most_connections};
ghost use Rattle.hall_http.specs.declared.client.Step.TheVariants as Step;
ghost use Rattle.hall_http.specs.declared.clients.HeldRequest.{HeldRequest};
ghost use Rattle.hall_http.specs.Held.{HoldsNoMore, HoldsOne, is_held, without};

use crate::client::Step;
use crate::clients::{HeldRequest, MOST_CLIENTS};
use crate::connection::Clock;
use hall_policy::Moment;
use std::alloc::{AllocError, Global};
use std::marker::Model;

/// Those that are held. None comes in of a place of which one is held.
#[derive(Drop)]
pub(crate) struct Held {
    requests: Vec<HeldRequest>,
}

impl Model for Held {
    ghost use Rattle.std.specs.Prelude.{◌≤◌, List, vec_capacity};
    ghost use Rattle.hall_http.specs.Limits.{most_connections};
    ghost use Rattle.hall_http.specs.declared.clients.HeldRequest.{HeldRequest};

    ghost Value = { List HeldRequest };

    ghost view = { λ held. held.requests.items };

    ghost invariant = { λ held. most_connections ≤ vec_capacity held.requests };
}

impl Held {
    /// None, with room for one at each place.
    pub(crate) fn new(alloc: Global) -> Result<Held, AllocError>
        ensures { IfOk result (λ held. held ≡ []) }
    {
        Ok(Held {
            requests: Vec::with_capacity(alloc, MOST_CLIENTS)?,
        })
    }

    /// Whether a request of the place is held.
    fn has(&self, place: usize) -> bool
        ensures { result ≡ is_held place self.now }
    {
        self.requests.iter().any(|one| one.place == place)
    }

    /// Whether the connection at the place stands so after its turn that its request is to be held, and isn't yet.
    /// Since none comes in twice, there is room for it.
    fn may_hold(&self, place: usize, step: Step) -> bool
        ensures may { result ≡ true →
            (step ≡ Step.Holds) × (is_held place self.now ≡ false) × (length self.now < most_connections) }
        ensures not { result ≡ false → HoldsNoMore place step self.now }
    {
        match step {
            Step::Holds => !self.has(place) && self.requests.len() < MOST_CLIENTS,
            _ => false,
        }
    }

    /// Where the connection at the place stands so after its turn that its request is to be answered, that is held from
    /// now on, unless it was before. Then the clock is asked for its moment, which comes of it, and else it isn't.
    /// Where the connection is over, nothing is held at the place any more.
    pub(crate) fn hold<C: Clock>(
        &mut self,
        place: usize,
        step: Step,
        clock: &mut C,
    ) -> Option<Option<Moment>>
        ensures { HoldsOne C.now_gives ((place, step), result) clock.old self.old clock.new self.new }
    {
        if let Step::Over = step {
            self.forget(place);
            return None;
        }
        if !self.may_hold(place, step) {
            return None;
        }
        let moment = clock.now();
        self.add(place, &moment);
        Some(moment)
    }

    /// A request of the place is held for the moment, behind the others.
    fn add(&mut self, place: usize, moment: &Option<Moment>)
        requires { length self.old < most_connections }
        ensures { self.new ≡ self.old ++ record { place = place; moment = moment.now } ∷ [] }
    {
        self.requests.push_reserved(HeldRequest {
            place,
            moment: *moment,
        });
    }

    /// Nothing is held at the place any more.
    pub(crate) fn forget(&mut self, place: usize)
        ensures { self.new ≡ without place self.old }
    {
        self.requests.retain(|one| one.place != place);
    }

    /// The first of them.
    pub(crate) fn first(&self) -> Option<HeldRequest>
        ensures { MatchOption result (self.now ≡ []) (λ one. (rest : List HeldRequest) × (self.now ≡ one ∷ rest)) }
    {
        if self.requests.is_empty() {
            return None;
        }
        Some(self.requests[0])
    }

    /// The first of them, which isn't held any more.
    pub(crate) fn pop(&mut self) -> Option<HeldRequest>
        ensures { MatchOption result ((self.old ≡ []) × (self.new ≡ [])) (λ one. self.old ≡ one ∷ self.new) }
    {
        if self.requests.is_empty() {
            return None;
        }
        Some(self.requests.remove(0))
    }
}

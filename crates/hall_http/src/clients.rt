//! The open connections, each at a place of its own.
ghost use Rattle.std.specs.Prelude.{◌≡◌, ◌<◌, ◌∷◌, ℕ, List, [], IfOk, None, Some, get_or, length, slice_set};
ghost use Rattle.std.specs.Prelude.{◌≢◌, ◌++◌, Option, false, true};
ghost use Rattle.hall_http.specs.Group.{Awaits, JoinsAt, answered_at, recording};
ghost use Rattle.hall_http.specs.Progress.{AnswersFirstAt, TakesTurnAt};
ghost use Rattle.hall_http.specs.Connection.{Exchange};
ghost use Rattle.hall_http.specs.Crowd.{Admits, AllLeave, AnswersNoMore, AreGone, AreKept, AreSomeKept, IsAt, IsFree};
ghost use Rattle.hall_http.specs.Crowd.{AreAllThere, AreOthersSame, MayGo, MayLose, MayTurnAway, Receives, Serves};
ghost use Rattle.hall_http.specs.Crowd.{StandsWhole};
ghost use Rattle.hall_http.specs.Peer.{IsUntouched};
ghost use Rattle.hall_http.specs.Resting.{HasRested};
ghost use Rattle.hall_http.specs.Steps.{StandsRightly};
ghost use Rattle.hall_http.specs.Turns.{IsClient, IsOverRightly, IsPlaceAnswered, IsPlaceKept, service_of};
ghost use Rattle.hall_http.specs.declared.client.Client.{Client};
ghost use Rattle.hall_http.specs.declared.client.Step.TheVariants as Step;
ghost use Rattle.hall_http.specs.declared.clients.Away.TheVariants as Away;

use crate::client::{Client, Step};
use crate::connection::Joined;
use crate::inbox::{Inbox, NoInbox};
use crate::peer::{Closed, Peer};
use crate::responder::Responder;
use crate::routes::Routes;
use hall_policy::Moment;
use hall_store::JointAnswers;
use http_server::Log;
use std::alloc::{AllocError, Global};

/// The most open connections. A process may usually have 1,024 files open.
pub(crate) const MOST_CLIENTS: usize = 500;

/// A connection's place, and the moment at which its request was heard.
#[derive(Clone, Copy, Drop)]
pub(crate) struct HeldRequest {
    pub(crate) place: usize,
    pub(crate) moment: Option<Moment>,
}

/// Why a newcomer was turned away.
#[derive(Drop)]
pub enum Away {
    /// Another connection had its place, or that isn't one of those that there are.
    NoPlace,
    /// There was no memory for its bytes.
    NoMemory(NoInbox),
}

/// How a connection went that came.
#[derive(Drop)]
pub enum Departure {
    /// It was turned away.
    TurnedAway(Away),
    /// It was over after its turn.
    Over,
    /// The sockets let it go.
    LetGo,
    /// It was here until serving ended.
    AtEnd,
}

/// The connections that came and have gone, each as it was when it was closed, how it went, and the place that it was
/// handed out for. Only proofs read them.
pub type Gone<P> = Log<Closed<P>, (Departure, usize)>;

/// Those that came, where none did.
pub fn none_came<P>() -> Gone<P>
    ensures { result.items ≡ [] }
{
    Log::new()
}

/// The open connections, and those that have gone.
#[derive(Drop)]
pub(crate) struct Clients<P> {
    pub(crate) places: Vec<Option<Client<P>>>,
    pub(crate) gone: Gone<P>,
}

/// The connection there, if there is one, has its turn.
fn turn_at<P: Peer, H: Responder>(
    place: &mut Option<Client<P>>,
    alloc: Global,
    routes: &Routes,
    responder: &mut H,
) -> Step
    requires { (k : Client P) → place.old ≡ Some k → (xs : List Exchange) × IsClient P.traffic xs k }
    ensures kept { IsPlaceKept P.traffic place.old place.new }
    ensures rests { HasRested H.rests responder.old responder.new }
    ensures over { (k : Client P) → place.new ≡ Some k → IsOverRightly result (P.traffic k.peer) }
    ensures stands { (k : Client P) → place.new ≡ Some k →
        StandsRightly H.may_wait k.connection responder.new result }
    ensures none { place.new ≡ None → result ≡ Step.Over }
    ensures takes { TakesTurnAt P.traffic place.old result place.new }
{
    match place {
        Some(client) => client.turn(alloc, routes, responder),
        None => Step::Over,
    }
}

/// The request of the connection there, if there is one, is answered as one that was heard at the moment.
fn answer_at<P: Peer, H: Responder>(
    place: &mut Option<Client<P>>,
    alloc: Global,
    routes: &Routes,
    responder: &mut H,
    moment: Option<Moment>,
) -> bool
    requires { (k : Client P) → place.old ≡ Some k → (xs : List Exchange) × IsClient P.traffic xs k }
    ensures answered { IsPlaceAnswered (service_of H.answers H.joins H.goes_on H.rests H.may_wait) P.traffic moment
        (responder.old, true) place.old (responder.new, result) place.new }
    ensures first { AnswersFirstAt H.may_wait place.old responder.new place.new }
{
    match place {
        Some(client) => client.answer(alloc, routes, responder, moment),
        None => true,
    }
}

/// The request of the connection there, if there is one, joins those that are to be answered together, if it can.
fn join_at<P: Peer, H: Responder>(
    place: &Option<Client<P>>,
    alloc: Global,
    routes: &Routes,
    responder: &mut H,
    joint: &mut JointAnswers,
    moment: Option<Moment>,
) -> Option<Joined>
    ensures rests { HasRested H.rests responder.old responder.new }
    ensures joined { (xs : List Exchange) → H.have_joined xs joint.old responder.old →
        JoinsAt H.have_joined xs place.now moment result joint.new responder.new }
{
    match place {
        Some(client) => client.join(alloc, routes, responder, joint, moment),
        None => None,
    }
}

/// The request of the connection there is answered so.
fn accept_at<P: Peer>(place: &mut Option<Client<P>>, joined: Joined)
    requires kept { (k : Client P) → place.old ≡ Some k → (xs : List Exchange) × IsClient P.traffic xs k }
    requires awaits { Awaits place.old joined }
    ensures { (told : List Exchange) (moment : Option ℕ) → IsPlaceAnswered recording P.traffic moment told place.old
        (told ++ answered_at place.old moment joined ∷ []) place.new }
{
    match place {
        Some(client) => client.accept(joined),
        None => unreachable!(),
    }
}

/// Sends once more to the connection there, if there is one and its reply waits.
fn finish_at<P: Peer>(place: &mut Option<Client<P>>)
    requires { (k : Client P) → place.old ≡ Some k → (xs : List Exchange) × IsClient P.traffic xs k }
    ensures { IsPlaceKept P.traffic place.old place.new }
{
    match place {
        Some(client) => client.finish(),
        None => {}
    }
}

/// The connection there, if there is one, which leaves the place free.
fn take_at<P>(place: &mut Option<Client<P>>) -> Option<Client<P>>
    ensures taken { result ≡ place.old }
    ensures free { place.new ≡ None }
{
    place.take()
}

impl<P: Peer + Drop> Clients<P> {
    /// None yet, with so many places.
    pub(crate) fn new(alloc: Global, most: usize) -> Result<Clients<P>, AllocError>
        ensures kept { IfOk result (λ clients. (n : ℕ) → AreKept P.traffic n n [] clients) }
        ensures long { IfOk result (λ clients. length clients.places.items ≡ most) }
    {
        let mut places = Vec::with_capacity(alloc, most)?;
        for _place in 0..most {
            places.push(None)?;
        }
        Ok(Clients {
            places,
            gone: Log::new(),
        })
    }

    /// Whether the place is one of those that there are, and none is at it.
    fn is_free(&self, place: usize) -> bool
        ensures free { result ≡ true → (place < length self.now.places.items) × IsFree self.now place }
        ensures taken { result ≡ false → MayTurnAway self.now place Away.NoPlace }
    {
        if place >= self.places.len() {
            return false;
        }
        self.places[place].is_none()
    }

    /// Lets a newcomer have the place, if it is free, or else turns it away.
    pub(crate) fn seat(&mut self, place: usize, inbox: Inbox, peer: P)
        requires { IsUntouched (P.traffic peer) }
        ensures admits { Admits P.traffic place peer self.old self.new }
        ensures receives { Receives place peer self.old self.new }
        ensures there { AreAllThere self.old self.new }
        ensures long { length self.new.places.items ≡ length self.old.places.items }
    {
        if !self.is_free(place) {
            self.turn_away(place, peer, Away::NoPlace);
            return;
        }
        self.places[place] = Some(Client::new(inbox, peer));
    }

    /// Turns a newcomer away that was to have the place. It is sent nothing.
    pub(crate) fn turn_away(&mut self, place: usize, peer: P, why: Away)
        requires untouched { IsUntouched (P.traffic peer) }
        requires may { MayTurnAway self.old place why }
        ensures admits { Admits P.traffic place peer self.old self.new }
        ensures receives { Receives place peer self.old self.new }
        ensures there { AreAllThere self.old self.new }
        ensures long { length self.new.places.items ≡ length self.old.places.items }
    {
        let closed = Closed::new(peer);
        self.gone = self.gone.and(&closed, &(Departure::TurnedAway(why), place));
    }

    /// The connection at the place has its turn.
    pub(crate) fn turn<H: Responder>(
        &mut self,
        alloc: Global,
        routes: &Routes,
        place: usize,
        responder: &mut H,
    ) -> Step
        requires { AreSomeKept P.traffic self.old }
        ensures kept { AnswersNoMore P.traffic self.old self.new }
        ensures rests { HasRested H.rests responder.old responder.new }
        ensures over { (k : Client P) → IsAt self.new place k → IsOverRightly result (P.traffic k.peer) }
        ensures stands { (k : Client P) → IsAt self.new place k →
            StandsRightly H.may_wait k.connection responder.new result }
        ensures none { IsFree self.new place → result ≡ Step.Over }
        ensures takes { TakesTurnAt P.traffic (get_or self.old.places.items place None) result
            (get_or self.new.places.items place None) }
        ensures others { AreOthersSame self.old place self.new }
        ensures gone { self.new.gone ≡ self.old.gone }
        ensures long { length self.new.places.items ≡ length self.old.places.items }
    {
        if place >= self.places.len() {
            return Step::Over;
        }
        turn_at(&mut self.places[place], alloc, routes, responder)
    }

    /// The request that is held is answered, or is passed over where it may wait. The result is whether the responder
    /// goes on.
    pub(crate) fn answer<H: Responder>(
        &mut self,
        alloc: Global,
        routes: &Routes,
        held: &HeldRequest,
        responder: &mut H,
    ) -> bool
        requires kept { AreSomeKept P.traffic self.old }
        requires ready { StandsWhole self.old held.now.place }
        ensures serves { Serves (service_of H.answers H.joins H.goes_on H.rests H.may_wait) P.traffic (held.now ∷ [])
            (responder.old, true) self.old (responder.new, result) self.new }
        ensures first { AnswersFirstAt H.may_wait (get_or self.old.places.items held.now.place None) responder.new
            (get_or self.new.places.items held.now.place None) }
        ensures others { AreOthersSame self.old held.now.place self.new }
        ensures gone { self.new.gone ≡ self.old.gone }
        ensures long { length self.new.places.items ≡ length self.old.places.items }
    {
        if held.place >= self.places.len() {
            return true;
        }
        let place = &mut self.places[held.place];
        answer_at(place, alloc, routes, responder, held.moment)
    }

    /// The request that is held joins those that are to be answered together, if it can. Only reads the connections.
    pub(crate) fn join<H: Responder>(
        &self,
        alloc: Global,
        routes: &Routes,
        held: &HeldRequest,
        responder: &mut H,
        joint: &mut JointAnswers,
    ) -> Option<Joined>
        ensures rests { HasRested H.rests responder.old responder.new }
        ensures joined { (xs : List Exchange) → H.have_joined xs joint.old responder.old →
            JoinsAt H.have_joined xs (get_or self.now.places.items held.now.place None) held.now.moment result
            joint.new responder.new }
    {
        if held.place >= self.places.len() {
            return None;
        }
        let place = &self.places[held.place];
        join_at(place, alloc, routes, responder, joint, held.moment)
    }

    /// The request that is held is answered so.
    pub(crate) fn accept(&mut self, held: &HeldRequest, joined: Joined)
        requires kept { AreSomeKept P.traffic self.old }
        requires awaits { Awaits (get_or self.old.places.items held.now.place None) joined }
        ensures serves { (told : List Exchange) → Serves recording P.traffic (held.now ∷ []) told self.old
            (told ++ answered_at (get_or self.old.places.items held.now.place None) held.now.moment joined ∷ [])
            self.new }
        ensures others { AreOthersSame self.old held.now.place self.new }
        ensures gone { self.new.gone ≡ self.old.gone }
        ensures long { length self.new.places.items ≡ length self.old.places.items }
    {
        if held.place >= self.places.len() {
            unreachable!();
        }
        let place = &mut self.places[held.place];
        accept_at(place, joined);
    }

    /// Sends once more to each whose reply waits.
    pub(crate) fn finish(&mut self)
        requires { AreSomeKept P.traffic self.old }
        ensures kept { AnswersNoMore P.traffic self.old self.new }
        ensures gone { self.new.gone ≡ self.old.gone }
        ensures long { length self.new.places.items ≡ length self.old.places.items }
    {
        for place in 0..self.places.len() {
            self.finish_one(place);
        }
    }

    /// Sends once more to the connection at the place, where its reply waits.
    fn finish_one(&mut self, place: usize)
        requires { AreSomeKept P.traffic self.old }
        ensures kept { AnswersNoMore P.traffic self.old self.new }
        ensures gone { self.new.gone ≡ self.old.gone }
        ensures long { length self.new.places.items ≡ length self.old.places.items }
    {
        if place >= self.places.len() {
            return;
        }
        finish_at(&mut self.places[place]);
    }

    /// Closes the connection at the place, if there is one, which goes so.
    pub(crate) fn forget(&mut self, place: usize, departure: Departure)
        requires { (k : Client P) → IsAt self.old place k → MayGo departure (P.traffic k.peer) }
        ensures none { IsFree self.new place }
        ensures free { place < length self.old.places.items →
            self.new.places.items ≡ slice_set self.old.places.items place None }
        ensures kept { AnswersNoMore P.traffic self.old self.new }
        ensures lost { MayLose P.traffic departure place self.old self.new }
        ensures others { AreOthersSame self.old place self.new }
        ensures long { length self.new.places.items ≡ length self.old.places.items }
    {
        if place >= self.places.len() {
            return;
        }
        let Some(client) = take_at(&mut self.places[place]) else {
            return;
        };
        let closed = Closed::new(client.peer);
        self.gone = self.gone.and(&closed, &(departure, place));
    }

    /// Closes each that is still here.
    pub(crate) fn close(&mut self)
        ensures none { AreGone self.new }
        ensures kept { AnswersNoMore P.traffic self.old self.new }
        ensures left { AllLeave P.traffic self.old self.new }
    {
        for place in 0..self.places.len() {
            self.forget(place, Departure::AtEnd);
        }
    }
}

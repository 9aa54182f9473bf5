//! Many connections at once: which of them goes a step is the sockets' choice, and what a step is isn't.
ghost use Rattle.std.specs.Prelude.{◌≡◌, ◌≢◌, ◌+◌, List, [], ◌∷◌, ◌++◌, true, IfOk, None, OnErr, get_or, length};
ghost use Rattle.std.specs.Prelude.{All, ℕ, map};
ghost use Rattle.hall_http.specs.Group.{AreWaiting, IsGathered, exchanges_at, recording, requests_of};
ghost use Rattle.hall_http.specs.Joining.{told_at_end};
ghost use Rattle.hall_http.specs.Progress.{TakesTurnAt};
ghost use Rattle.hall_http.specs.Held.{IsShare};
ghost use Rattle.hall_http.specs.Limits.{most_connections};
ghost use Rattle.hall_http.specs.declared.client.Step.TheVariants as Step;
ghost use Rattle.hall_http.specs.declared.clients.HeldRequest.{HeldRequest};
ghost use Rattle.hall_http.specs.declared.server.ServeAllEnd.TheVariants as ServeAllEnd;
ghost use Rattle.hall_http.specs.declared.server.Next.TheVariants as Next;
ghost use Rattle.hall_desk.specs.Desk.{kept_by, SaneThen};
ghost use Rattle.hall_desk.specs.Sane.{Sane};
ghost use Rattle.hall_desk.specs.Promises.{HasUniqueSolutions, RightAnswersAreSolutions};
ghost use Rattle.hall_http.specs.Crowd.{Admits, AnswersNoMore, AreAsSaid, AreAtMoments, AreHandled, AreKept};
ghost use Rattle.hall_http.specs.Crowd.{AreAllThere, AreKeptAtTurns, AreOthersSame, AreReady, AreServedAtTurns};
ghost use Rattle.hall_http.specs.Crowd.{AreSomeKept, EndsServing, IsAt, IsFor, IsFree, IsHereOrGone, IsSameAt};
ghost use Rattle.hall_http.specs.Crowd.{MayLose, MayWaitAfter, NextMayWait, Receives, Serves};
ghost use Rattle.hall_http.specs.Peer.{IsUntouched};
ghost use Rattle.hall_http.specs.declared.clients.Departure.TheVariants as Departure;
ghost use Rattle.hall_http.specs.Coming.{AreAllHeard, AreDone, Hears, IsFreshPeer, Said, newcomer, since, stays_open};
ghost use Rattle.hall_http.specs.Steps.{StandsRightly};
ghost use Rattle.hall_http.specs.Resting.{HasRested};
ghost use Rattle.hall_http.specs.Turns.{service_of};
ghost use Rattle.hall_http.specs.declared.client.Client.{Client};

use crate::client::Step;
use crate::clients::{Away, Clients, Departure, Gone, MOST_CLIENTS};
use crate::connection::Clock;
use crate::group::{Group, Member, gather, take_first};
use crate::group_end::GroupEnd;
use crate::held::Held;
use crate::inbox::Inbox;
use crate::peer::Peer;
use crate::responder::Responder;
use crate::routes::Routes;
use hall_desk::Desk;
use hall_policy::Moment;
use hall_store::Store;
use std::alloc::{AllocError, Global};

/// The most requests that are answered before more is heard: few, since each may wait for the disk, and what comes
/// meanwhile is heard so much later.
const MOST_AT_ONCE: usize = 4;

/// What is to be done next.
#[derive(Drop)]
pub enum Next<P> {
    /// A newcomer gets the place.
    Newcomer { place: usize, peer: P },
    /// The connection at the place goes some steps.
    Turn(usize),
    /// Requests that are held are answered.
    Answer,
    /// The connection at the place is let go.
    Gone(usize),
    /// Nothing more: all have gone.
    End,
    /// Nothing more: none can come in.
    Refused,
}

/// Where connections come from, and what tells whose turn it is.
pub trait Sockets {
    type Peer: Peer + Drop;

    /// All connections that may come have come and gone.
    ghost is_over: { Self → Type 0 };

    /// What it keeps of whose turns these were, and of whom it let go.
    ghost is_fair: { Self → Type 0 };

    /// All that it said was to be done next, in order, how many newcomers it has handed out, and how many connections
    /// it was asked for; and all that it heard of turns, in order.
    ghost said: { Self → Said Self.Peer };

    /// Waits until something is to be done. A newcomer's number is how many there were before it. Of each turn before
    /// it has heard by then.
    fn next(&mut self) -> Next<Self::Peer>
        requires { AreAllHeard (said self.old) }
        ensures fresh { IsFreshPeer Self.Peer.traffic (said self.old).count result }
        ensures count { (said self.new).count ≡ (said self.old).count + newcomer result }
        ensures nexts { (said self.new).nexts ≡ (said self.old).nexts ++ result ∷ [] }
        ensures most { (said self.new).most ≡ (said self.old).most }
        ensures heard { (said self.new).heard ≡ (said self.old).heard }
        ensures over { result ≡ Next.End → is_over self.new }
        ensures fair { is_fair self.new };

    /// Hears how the connection at the place stands after its turn, and where its request is held from now on, the
    /// moment that was read for it.
    fn stands(&mut self, place: usize, step: Step, held: Option<Option<Moment>>)
        ensures heard { Hears ((place, step), held) (said self.old) (said self.new) }
        ensures fair { is_fair self.new };

    /// The connection at the place, whose request was held, isn't held any more: it can go on.
    fn answered(&mut self, place: usize)
        ensures said { said self.new ≡ said self.old }
        ensures fair { is_fair self.new };

    /// Hears whether the store's device refused the last write.
    fn hear_of_writes(&mut self, refuses_writes: bool)
        ensures said { said self.new ≡ said self.old }
        ensures fair { is_fair self.new };
}

/// How serving connections ended.
#[derive(Clone, Copy, PartialEq, Eq)]
pub enum ServeAllEnd {
    /// After the last connection.
    Served,
    /// No more could come in, or 2^64 - 1 things were done.
    Refused,
    /// The store serves no more: it was asked after a request that it refused.
    Shut,
}

/// Serves connections until no more comes, or the store serves no more. Refused for memory, it has asked nothing of the
/// sockets. What comes of it is how it ended, and the connections that came, all of which have gone by then.
pub fn serve_all<S: Store, N: Sockets, C: Clock>(
    alloc: Global,
    desk: &mut Desk<S>,
    sockets: &mut N,
    clock: &mut C,
) -> Result<(ServeAllEnd, Gone<N::Peer>), AllocError>
    requires { AreAllHeard (N.said sockets.old) }
    ensures served { IfOk result (λ served. AreServedAtTurns S.content C.now_gives N.Peer.traffic served.0
        ((kept_by desk.old, clock.old), N.said sockets.old) ((kept_by desk.new, clock.new), N.said sockets.new)
        served.1.items) }
    ensures ended { IfOk result (λ served. EndsServing N.is_over N.said N.Peer.traffic served.0
        sockets.old sockets.new served.1.items) }
    ensures fair { IfOk result (λ _. N.is_fair sockets.new) }
    ensures memory { OnErr result ((desk.new ≡ desk.old) × (sockets.new ≡ sockets.old) × (clock.new ≡ clock.old)) }
    ensures sane { SaneThen Sane (S.content (kept_by desk.old)) (S.content (kept_by desk.new)) }
    ensures unique { SaneThen HasUniqueSolutions (S.content (kept_by desk.old)) (S.content (kept_by desk.new)) }
    ensures right { SaneThen RightAnswersAreSolutions (S.content (kept_by desk.old)) (S.content (kept_by desk.new)) }
{
    let routes = Routes::new(alloc)?;
    let mut clients = Clients::new(alloc, MOST_CLIENTS)?;
    let mut held = Held::new(alloc)?;
    let end = serve_clients(
        alloc,
        &routes,
        desk,
        &mut clients,
        &mut held,
        sockets,
        clock,
    );
    Ok((end, clients.gone))
}

/// Serves connections with these routes, where none has come before, and lets all of them go.
fn serve_clients<S: Store, N: Sockets, C: Clock>(
    alloc: Global,
    routes: &Routes,
    desk: &mut Desk<S>,
    clients: &mut Clients<N::Peer>,
    held: &mut Held,
    sockets: &mut N,
    clock: &mut C,
) -> ServeAllEnd
    requires heard { AreAllHeard (N.said sockets.old) }
    requires unheld { held.old ≡ [] }
    requires none { AreKept N.Peer.traffic (N.said sockets.old).count (N.said sockets.old).count [] clients.old }
    requires long { length clients.old.places.items ≡ most_connections }
    ensures served { AreServedAtTurns S.content C.now_gives N.Peer.traffic result
        ((kept_by desk.old, clock.old), N.said sockets.old) ((kept_by desk.new, clock.new), N.said sockets.new)
        clients.new.gone.items }
    ensures ended { EndsServing N.is_over N.said N.Peer.traffic result
        sockets.old sockets.new clients.new.gone.items }
    ensures fair { N.is_fair sockets.new }
    ensures sane { SaneThen Sane (S.content (kept_by desk.old)) (S.content (kept_by desk.new)) }
{
    desk.at_rest();
    let end = handle_all(alloc, routes, clients, held, sockets, desk, clock);
    clients.close();
    end
}

/// Serves connections by any responder, where none has come before.
fn handle_all<H: Responder, S: Sockets, C: Clock>(
    alloc: Global,
    routes: &Routes,
    clients: &mut Clients<S::Peer>,
    held: &mut Held,
    sockets: &mut S,
    responder: &mut H,
    clock: &mut C,
) -> ServeAllEnd
    requires heard { AreAllHeard (S.said sockets.old) }
    requires unheld { held.old ≡ [] }
    requires none { AreKept S.Peer.traffic (S.said sockets.old).count (S.said sockets.old).count [] clients.old }
    requires long { length clients.old.places.items ≡ most_connections }
    ensures done { AreDone S.Peer.traffic result (S.said sockets.old) (S.said sockets.new) }
    ensures over { result ≡ ServeAllEnd.Served → S.is_over sockets.new }
    ensures fair { S.is_fair sockets.new }
    ensures said { AreAsSaid S.Peer.traffic (since (S.said sockets.old) (S.said sockets.new)) clients.new }
    ensures handled { AreHandled (service_of H.answers H.joins H.goes_on H.rests H.may_wait)
        (λ turns. AreKeptAtTurns (MayWaitAfter (service_of H.answers H.joins H.goes_on H.rests H.may_wait)
        (responder.old, true) (responder.new, stays_open result) turns) S.Peer.traffic
        (S.said sockets.old) (S.said sockets.new) turns clients.new
        × AreAtMoments (IsFor S.Peer.traffic clients.new.gone.items)
        (NextMayWait (MayWaitAfter (service_of H.answers H.joins H.goes_on H.rests H.may_wait) (responder.old, true)
        (responder.new, stays_open result) turns) (IsHereOrGone S.Peer.traffic clients.new)) C.now_gives clock.old
        (S.said sockets.old, S.said sockets.new) turns clock.new)
        (responder.old, true) (responder.new, stays_open result) }
{
    for _step in 0..u64::MAX {
        match sockets.next() {
            Next::Newcomer { place, peer } => let_in(alloc, clients, place, peer),
            Next::Turn(place) => {
                let step = visit(alloc, routes, place, clients, responder);
                let moment = held.hold(place, step, clock);
                sockets.stands(place, step, moment);
            }
            Next::Answer => {
                if !answer_held(alloc, routes, clients, held, sockets, responder) {
                    return ServeAllEnd::Shut;
                }
                sockets.hear_of_writes(responder.refuses_writes());
            }
            Next::Gone(place) => {
                clients.forget(place, Departure::LetGo);
                held.forget(place);
            }
            Next::End => return ServeAllEnd::Served,
            Next::Refused => return ServeAllEnd::Refused,
        }
    }
    ServeAllEnd::Refused
}

/// The first of the requests that are held are answered, each at its moment: those in front that can be are answered
/// together, and then no more; and what can't be is answered alone, or is passed over where it may wait. It is one at
/// least where any are held, and at most 67, and at the places of those that are held still nothing changes. The result
/// is whether the responder goes on; where it doesn't, each whose reply waits is sent once more.
fn answer_held<H: Responder, S: Sockets>(
    alloc: Global,
    routes: &Routes,
    clients: &mut Clients<S::Peer>,
    held: &mut Held,
    sockets: &mut S,
    responder: &mut H,
) -> bool
    requires kept { AreSomeKept S.Peer.traffic clients.old }
    requires ready { AreReady clients.old held.old }
    ensures serves { (front : List HeldRequest) × (held.old ≡ front ++ held.new) × IsShare front held.new
        × Serves (service_of H.answers H.joins H.goes_on H.rests H.may_wait) S.Peer.traffic front
        (responder.old, true) clients.old (responder.new, result) clients.new }
    ensures same { result ≡ true → All (λ one. IsSameAt clients.old clients.new one.place) held.new }
    ensures said { S.said sockets.new ≡ S.said sockets.old }
    ensures fair { S.is_fair sockets.old → S.is_fair sockets.new }
    ensures gone { clients.new.gone ≡ clients.old.gone }
    ensures long { length clients.new.places.items ≡ length clients.old.places.items }
{
    for _one in 0..MOST_AT_ONCE {
        if let Some(group) = gather(alloc, routes, clients, held, responder) {
            return answer_together(alloc, group, clients, sockets, responder);
        }
        let Some(one) = held.pop() else {
            return true;
        };
        if !clients.answer(alloc, routes, &one, responder) {
            clients.finish();
            return false;
        }
        sockets.answered(one.place);
    }
    true
}

/// What these requests change is stored by one write, and then each is told what was planned for it; or each is told
/// 503. The result is whether the responder goes on; where it doesn't, each whose reply waits is sent once more.
fn answer_together<H: Responder, S: Sockets>(
    alloc: Global,
    group: Group,
    clients: &mut Clients<S::Peer>,
    sockets: &mut S,
    responder: &mut H,
) -> bool
    requires kept { AreSomeKept S.Peer.traffic clients.old }
    requires gathered { IsGathered H.have_joined clients.old group responder.old }
    requires some { group.members.items ≢ [] }
    ensures serves { Serves (service_of H.answers H.joins H.goes_on H.rests H.may_wait) S.Peer.traffic
        (requests_of group.members.items) (responder.old, true) clients.old (responder.new, result) clients.new }
    ensures others { result ≡ true → (place : ℕ) →
        All (λ member. member.request.place ≢ place) group.members.items → IsSameAt clients.old clients.new place }
    ensures said { S.said sockets.new ≡ S.said sockets.old }
    ensures fair { S.is_fair sockets.old → S.is_fair sockets.new }
    ensures gone { clients.new.gone ≡ clients.old.gone }
    ensures long { length clients.new.places.items ≡ length clients.old.places.items }
{
    let Group { members, joint } = group;
    let end = responder.store_joined(alloc, joint);
    tell_all(members, end, clients, sockets);
    if end.goes_on() {
        return true;
    }
    clients.finish();
    false
}

/// Each of these requests is told what it is to be told once their write has ended so.
fn tell_all<S: Sockets>(
    members: Vec<Member>,
    end: GroupEnd,
    clients: &mut Clients<S::Peer>,
    sockets: &mut S,
)
    requires kept { AreSomeKept S.Peer.traffic clients.old }
    requires waiting { AreWaiting clients.old members.items }
    ensures serves { Serves recording S.Peer.traffic (requests_of members.items) [] clients.old
        (map (told_at_end end) (exchanges_at clients.old members.items)) clients.new }
    ensures others { (place : ℕ) → All (λ member. member.request.place ≢ place) members.items →
        IsSameAt clients.old clients.new place }
    ensures said { S.said sockets.new ≡ S.said sockets.old }
    ensures fair { S.is_fair sockets.old → S.is_fair sockets.new }
    ensures gone { clients.new.gone ≡ clients.old.gone }
    ensures long { length clients.new.places.items ≡ length clients.old.places.items }
{
    let mut left = members;
    for _member in 0..left.len() {
        let Member { request, joined } = take_first(&mut left);
        clients.accept(&request, joined.told(end));
        sockets.answered(request.place);
    }
}

/// Gives a newcomer the place, or turns it away.
fn let_in<P: Peer + Drop>(alloc: Global, clients: &mut Clients<P>, place: usize, peer: P)
    requires { IsUntouched (P.traffic peer) }
    ensures admits { Admits P.traffic place peer clients.old clients.new }
    ensures receives { Receives place peer clients.old clients.new }
    ensures there { AreAllThere clients.old clients.new }
    ensures long { length clients.new.places.items ≡ length clients.old.places.items }
{
    match Inbox::of_newcomer(alloc) {
        Ok(inbox) => clients.seat(place, inbox, peer),
        Err(refusal) => clients.turn_away(place, peer, Away::NoMemory(refusal)),
    }
}

/// The connection at the place has its turn, and goes where it is over.
fn visit<P: Peer + Drop, H: Responder>(
    alloc: Global,
    routes: &Routes,
    place: usize,
    clients: &mut Clients<P>,
    responder: &mut H,
) -> Step
    requires { AreSomeKept P.traffic clients.old }
    ensures kept { AnswersNoMore P.traffic clients.old clients.new }
    ensures rests { HasRested H.rests responder.old responder.new }
    ensures lost { MayLose P.traffic Departure.Over place clients.old clients.new }
    ensures stands { (k : Client P) → IsAt clients.new place k →
        (result ≢ Step.Over) × StandsRightly H.may_wait k.connection responder.new result }
    ensures over { IsFree clients.new place → result ≡ Step.Over }
    ensures takes { TakesTurnAt P.traffic (get_or clients.old.places.items place None) result
        (get_or clients.new.places.items place None) }
    ensures others { AreOthersSame clients.old place clients.new }
    ensures long { length clients.new.places.items ≡ length clients.old.places.items }
{
    let step = clients.turn(alloc, routes, place, responder);
    match step {
        Step::Over => clients.forget(place, Departure::Over),
        _ => {}
    }
    step
}

//! The system's sockets: who comes, whose turn it is, and who has waited too long.
ghost use Rattle.std.specs.Prelude.{◌≡◌, ◌<◌, ◌++◌, ◌⊎◌, ℕ, [], ◌∷◌, IfNone, IfOk, IfSome, Option, None, Some, false};
ghost use Rattle.std.specs.Prelude.{get_or};
ghost use Rattle.std.specs.Prelude.{All, length, true};
ghost use Rattle.hall_http.specs.Looks.{AreMore, IsHeardOut, counted, passed_since, read_after};
ghost use Rattle.hall_http.specs.Looks.{time_by};
ghost use Rattle.hall_http.specs.declared.client.Step.TheVariants as Step;
ghost use Rattle.hall_http.specs.declared.event_loop.Look.TheVariants as Look;
ghost use Rattle.hall_http.specs.declared.server.Next.TheVariants as Next;
ghost use Rattle.hall_http.specs.Coming.{logged};
ghost use Rattle.hall_http.specs.Queue.{ComeBehind, called, waits_in};
ghost use Rattle.hall_http.specs.Seats.{AreCalled, CallsOne, GoesFirst, IsInLine, IsReadyInLine, MayCall, MayGoBy};
ghost use Rattle.hall_http.specs.declared.places.Visit.TheVariants.{Waiting};
ghost use Rattle.hall_http.specs.declared.places.Wait.{Wait};
ghost use Rattle.hall_http.specs.Places.{HasExpired, HasLeft};
ghost use Rattle.hall_http.specs.Seats.{AreFresh, AreLetGo, AreStill, HasHeard, HaveAllGone, IsOpen, MayLetGo};
ghost use Rattle.hall_http.specs.Seats.{IsUnheard, StandsAt, are_full, heard_in};
ghost use Rattle.hall_http.specs.Fair.{Owes};
ghost use Rattle.hall_http.specs.Limits.{most_connections};
ghost use Rattle.hall_http.specs.Waited.{AreSaidRightly, AreSeatedBy, ComeAsSeated, GoesRightly, MayGoRightly};

use crate::client::Step;
use crate::clients::MOST_CLIENTS;
use crate::connection::Wish;
use crate::device::write_all;
use crate::looks::{MOST_EVENTS, passed_since, place_of, read_after, tells_all};
use crate::places::{LONGEST_ROUND, Places, Visit};
use crate::queue::{Motion, Queue};
use crate::server::{Next, Sockets};
use crate::socket::Socket;
use hall_grid::Counted;
use hall_policy::Moment;
use http_server::Log;
use mio::net::{TcpListener, TcpStream};
use mio::{Events, Interest, Poll, Token};
use std::io::{ErrorKind, Write};
use std::net::{Net, SocketAddr};
use std::time::Duration;
use std::{io, mem, time};

/// What the listener's events are called. No connection has this place.
const LISTENER: usize = usize::MAX;

/// For how many milliseconds at most none is let in once there was no place, or the system refused one.
const RETRY: u64 = 1000;

/// For fewer milliseconds than these an idle connection has only just come, or was only just answered.
const FRESH: u64 = 1_000;

/// By how many milliseconds those whose requests need more work stand behind all others who may go.
const LAST: u64 = 1 << 62;

/// How often at most the sockets are asked again for what else befell them.
const MOST_ASKED: usize = 4;

/// How often requests are answered while some always are held, until one who searches has a turn: else a crowd would
/// keep a search waiting as long as it lasts.
const MOST_ANSWERS: usize = 16;

/// What is asked, and what the clock told.
#[derive(Clone, Copy)]
enum Look {
    /// The clock: its millisecond, where it could be read; and whether nobody's patience had ended by then, and nobody
    /// might have to make room.
    Clock { read: Option<u64>, is_quiet: bool },
    /// The sockets, for so many milliseconds at most.
    Sockets { patience: Option<u64> },
}

/// Whether newcomers wait.
#[derive(Clone, Copy, PartialEq, Eq)]
enum Backlog {
    /// None.
    Empty,
    /// Perhaps.
    Waiting,
    /// Perhaps, and none is let in now.
    Later,
}

/// What is told once writes begin to be refused, and once they are taken again.
const REFUSED: &str =
    "hall: the disk refuses writes: requests that write are answered 503 until it takes them again\n";

const TAKEN: &str = "hall: the disk takes writes again\n";

/// Connections to one address.
#[derive(Drop)]
pub struct EventLoop<'r, N, E> {
    schedule: Schedule<'r, N>,
    /// The address that it was to listen on, and for how many connections.
    asked: Log<SocketAddr, u64>,
    /// All that was to be done next, and what had been asked by then.
    nexts: Log<Next<Socket>, Log<Look, usize>>,
    /// Where it tells that writes are refused, and that they are taken again.
    journal: Option<Counted<E>>,
    refuses_writes: bool,
    ghost lets_go: { AreLetGo (logged nexts) schedule.places },
    ghost in_line: { AreCalled (logged nexts) schedule.ready },
    ghost owes: { ∥ Owes (logged nexts) (heard_in schedule.places) schedule.ready.waiting.items ∥₁ },
    ghost come: { ComeAsSeated nexts.items schedule.places.seated.items },
    ghost said: { ∥ AreSaidRightly nexts.items schedule.places.heard.items schedule.looks.items ∥₁ },
}

/// Who is here and who waits, and whose turn it is.
#[derive(Drop)]
struct Schedule<'r, N> {
    time: &'r N,
    poll: Poll,
    events: Events,
    listener: TcpListener,
    backlog: Backlog,
    places: Places,
    /// The places of those who are ready, in the order in which they became so.
    ready: Queue,
    /// The places of those whose requests need more work. One of them has its turn in a round, after all who are
    /// ready, where nothing is held; and where something always is, after so many answers.
    searching: Queue,
    /// How many of those who are ready have their turn before the sockets are asked again.
    round: usize,
    /// How many requests are held.
    holding: usize,
    /// The sockets were asked since requests were answered last.
    has_asked: bool,
    /// How often requests were answered since one who searches had a turn.
    answers: usize,
    /// All that befell the sockets was heard, and nobody had a turn since.
    has_heard: bool,
    /// The clock's millisecond when it was last read.
    read: u64,
    /// No patience ends before so many.
    quiet_until: u64,
    /// All that was asked of the clock and of the sockets, and how many things these told.
    looks: Log<Look, usize>,
    ghost heard_out: { has_heard ≡ true → ∥ IsHeardOut looks.items ∥₁ },
    ghost counts: { time_by looks.items ≡ (places.elapsed, read) },
}

impl<'r, N: Net + AllocGlobal + time::Clock, E: Drop> EventLoop<'r, N, E> {
    ghost use Rattle.hall_http.specs.EventLoop.{IsFreshLoop};

    /// Listens on the address, for so many connections; and tells there, if there is a place for it, once the disk
    /// refuses writes, and once it takes them again.
    pub fn new(
        rt: &'r N,
        address: SocketAddr,
        connections: u64,
        journal: Option<Counted<E>>,
    ) -> io::Result<EventLoop<'r, N, E>>
        ensures { IfOk result (IsFreshLoop address connections) }
    {
        Ok(EventLoop {
            schedule: Schedule::new(rt, address, connections)?,
            asked: Log::new().and(&address, &connections),
            nexts: Log::new(),
            journal,
            refuses_writes: false,
        })
    }
}

impl<'r, N, E> EventLoop<'r, N, E> {
    /// The address that it listens on.
    pub fn local_addr(&self) -> io::Result<SocketAddr> {
        self.schedule.listener.local_addr()
    }
}

impl<'r, N: time::Clock, E: Write> Sockets for EventLoop<'r, N, E> {
    ghost use Rattle.hall_http.specs.Coming.{Hears};
    ghost use Rattle.hall_http.specs.EventLoop.{IsFair, said_by};

    type Peer = Socket;

    ghost is_over = { λ sockets. HaveAllGone sockets.schedule.places };

    ghost is_fair = { IsFair };

    ghost said = { said_by };

    fn next(&mut self) -> Next<Socket> {
        let next = self.schedule.next();
        let before = mem::replace(&mut self.nexts, Log::new());
        self.nexts = self.schedule.note(&before, &next);
        next
    }

    fn stands(&mut self, place: usize, step: Step, held: Option<Option<Moment>>)
        ensures heard { Hears ((place, step), held) (said_by self.old) (said_by self.new) }
        ensures elapsed { self.new.schedule.places.elapsed ≡ self.old.schedule.places.elapsed }
        ensures ready { IsInLine self.new.schedule.places place step self.new.schedule.ready }
        ensures fair { IsFair self.new }
    {
        self.schedule.stands(place, step, held);
    }

    fn answered(&mut self, place: usize)
        ensures said { said_by self.new ≡ said_by self.old }
        ensures places { self.new.schedule.places ≡ self.old.schedule.places }
        ensures ready { IsReadyInLine self.new.schedule.places place self.new.schedule.ready }
        ensures fair { IsFair self.new }
    {
        self.schedule.answered(place);
    }

    fn hear_of_writes(&mut self, refuses_writes: bool)
        ensures said { said_by self.new ≡ said_by self.old }
        ensures places { self.new.schedule.places ≡ self.old.schedule.places }
        ensures fair { IsFair self.new }
    {
        if refuses_writes == self.refuses_writes {
            return;
        }
        self.refuses_writes = refuses_writes;
        let line = if refuses_writes { REFUSED } else { TAKEN };
        if let Some(journal) = &mut self.journal {
            let _written = write_all(journal, line.as_bytes());
        }
    }
}

impl<'r, N: Net + AllocGlobal + time::Clock> Schedule<'r, N> {
    /// Listens on the address, for so many connections.
    fn new(rt: &'r N, address: SocketAddr, connections: u64) -> io::Result<Schedule<'r, N>>
        ensures places { IfOk result (λ schedule. AreFresh connections schedule.places) }
        ensures line { IfOk result (λ schedule. called schedule.ready ≡ []) }
    {
        let alloc = rt.alloc();
        let poll = Poll::new(rt)?;
        let events = Events::with_capacity(alloc, MOST_EVENTS)?;
        let places = Places::new(alloc, connections)?;
        let ready = Queue::new(alloc)?;
        let searching = Queue::new(alloc)?;
        let mut listener = TcpListener::bind(rt, address)?;
        poll.registry()
            .register(&mut listener, Token(LISTENER), Interest::READABLE)?;
        Ok(Schedule {
            time: rt,
            poll,
            events,
            listener,
            backlog: Backlog::Waiting,
            places,
            ready,
            searching,
            round: 0,
            holding: 0,
            has_asked: false,
            answers: 0,
            has_heard: false,
            read: 0,
            quiet_until: u64::MAX,
            looks: Log::new(),
        })
    }
}

impl<'r, N> Schedule<'r, N> {
    ghost use Rattle.hall_http.specs.EventLoop.{MayHandOut};

    /// The connection at the place is ready.
    fn wake(&mut self, place: usize)
        ensures asked { (self.new.looks ≡ self.old.looks) × (self.new.has_heard ≡ self.old.has_heard) }
        ensures places { IsUnheard self.old.places self.new.places }
        ensures line { ComeBehind self.old.ready self.new.ready }
        ensures woken { (wait : Wait) → get_or self.old.places.visits.items place None ≡ Some (Waiting wait) →
            waits_in self.new.ready place ≡ true }
    {
        if let Some(Visit::Waiting(_)) = self.places.at(place) {
            self.places.wakes(place);
            self.ready.push(place);
        }
    }

    /// Whether the connection at the place has ended, and its patience too.
    fn has_left(&self, place: usize) -> bool
        ensures left { result ≡ true →
            StandsAt self.entry.now.places place (λ visit. HasLeft visit self.entry.now.places.elapsed) }
        ensures expired { result ≡ true →
            StandsAt self.entry.now.places place (λ visit. HasExpired visit self.entry.now.places.elapsed) }
    {
        match self.places.at(place) {
            Some(Visit::Ready(Some(wait))) => {
                wait.wish == Wish::Leaving && wait.has_ended(self.places.elapsed())
            }
            _ => false,
        }
    }

    /// The connection at the place is let go, once all was heard, or where it has left.
    fn let_go(&mut self, place: usize) -> Option<Next<Socket>>
        requires may { MayLetGo self.old.places place }
        requires heard { (self.old.has_heard ≡ true)
            ⊎ StandsAt self.old.places place (λ visit. HasLeft visit self.old.places.elapsed) }
        ensures gone { result ≡ Some (Next.Gone place) }
        ensures handed_out { MayHandOut self.old.places result self.new.places }
        ensures ready { self.new.ready ≡ self.old.ready }
        ensures round { self.new.round ≡ self.old.round }
        ensures asked { self.new.looks ≡ self.old.looks }
        ensures goes { MayGoRightly (AreSeatedBy self.new.places.seated.items) result self.new.places.heard.items
            self.new.looks.items }
    {
        self.places.let_go(place);
        self.try_again();
        Some(Next::Gone(place))
    }

    /// Newcomers for whom there was no place may get one.
    fn try_again(&mut self)
        ensures places { self.new.places ≡ self.old.places }
        ensures ready { self.new.ready ≡ self.old.ready }
        ensures round { self.new.round ≡ self.old.round }
        ensures asked { (self.new.looks ≡ self.old.looks) × (self.new.has_heard ≡ self.old.has_heard) }
    {
        if self.backlog == Backlog::Later {
            self.backlog = Backlog::Waiting;
        }
    }

    /// The first of those whose requests need more work is ready. Whoever has gone meanwhile is skipped; a newcomer at
    /// the place of one has its turn in line, if its request needs more work by then.
    fn call_searching(&mut self)
        ensures places { IsUnheard self.old.places self.new.places }
        ensures line { ComeBehind self.old.ready self.new.ready }
        ensures asked { self.new.looks ≡ self.old.looks }
    {
        for _gone in 0..self.searching.len() {
            let Some(place) = self.searching.first() else {
                return;
            };
            if let Some(Visit::Searching(_)) = self.places.at(place) {
                self.searching.pop(place, Motion::Called);
                self.places.wakes(place);
                self.ready.push(place);
                return;
            }
            self.searching.pop(place, Motion::Skipped);
        }
    }

    /// All who are ready have a turn, and then the sockets are asked again. Where nothing is held, or something always
    /// is, one who searches is ready too.
    fn begin_round(&mut self)
        ensures places { IsUnheard self.old.places self.new.places }
        ensures round { self.new.round ≡ length self.new.ready.waiting.items }
        ensures unheard { self.new.has_heard ≡ false }
        ensures line { ComeBehind self.old.ready self.new.ready }
        ensures asked { self.new.looks ≡ self.old.looks }
    {
        if self.holding == 0 || self.answers >= MOST_ANSWERS {
            self.answers = 0;
            self.call_searching();
        }
        self.round = self.ready.len();
        self.has_heard = false;
    }

    /// A free place, where one more may be here.
    fn free_place(&self) -> Option<usize>
        ensures { IfSome result (IsOpen self.entry.now.places) }
    {
        if !self.places.has_room() {
            return None;
        }
        for place in 0..self.places.len() {
            if self.places.at(place).is_none() {
                return Some(place);
            }
        }
        None
    }

    /// Of those that may make room for a newcomer, the one that times out first. Those whose requests need more work go
    /// last.
    fn first_to_go(&self) -> Option<usize>
        ensures { IfSome result (GoesFirst self.entry.now.places) }
    {
        let mut first = u64::MAX;
        let mut leaves = None;
        for place in 0..self.places.len() {
            if let Some(until) = self.may_go(place)
                && until < first
            {
                first = until;
                leaves = Some(place);
            }
        }
        leaves
    }

    /// When the patience of one ends that may make room for a newcomer: nothing that it asked is unanswered, and
    /// nothing unsent; and it had a second to ask. One whose request needs more work may go too, after all others,
    /// since its search is kept for whoever sends the request again.
    fn may_go(&self, place: usize) -> Option<u64>
        ensures some { IfSome result (MayGoBy self.entry.now.places place) }
        ensures none { IfNone result ((until : ℕ) → ¬ (MayGoBy self.entry.now.places place until)) }
    {
        match self.places.at(place)? {
            Visit::Waiting(wait) => match wait.wish {
                Wish::Idle if wait.has_lasted(FRESH, self.places.elapsed()) => Some(wait.until()),
                Wish::Leaving => Some(wait.until()),
                Wish::Idle | Wish::Asking | Wish::Taking | Wish::Searching => None,
            },
            Visit::Searching(wait) if wait.has_lasted(FRESH, self.places.elapsed()) => {
                Some(wait.until().saturating_add(LAST))
            }
            Visit::Ready(_) | Visit::Searching(_) => None,
        }
    }

    /// One whose patience has ended.
    fn expired(&mut self) -> Option<usize>
        ensures still { self.new.places ≡ self.old.places }
        ensures ready { self.new.ready ≡ self.old.ready }
        ensures heard { self.new.has_heard ≡ self.old.has_heard }
        ensures expired { IfSome result (λ place.
            StandsAt self.new.places place (λ visit. HasExpired visit self.new.places.elapsed)) }
        ensures asked { self.new.looks ≡ self.old.looks }
    {
        if self.places.elapsed() < self.quiet_until {
            return None;
        }
        self.quiet_until = u64::MAX;
        for place in 0..self.places.len() {
            if let Some(Visit::Waiting(wait)) = self.places.at(place) {
                if wait.has_ended(self.places.elapsed()) {
                    self.quiet_until = 0;
                    return Some(place);
                }
                self.quiet_until = self.quiet_until.min(wait.until());
            }
        }
        None
    }

    /// How many milliseconds to wait, a second at most, since one that stands still waits longer than it is to; none,
    /// until something comes.
    fn patience(&self) -> Option<u64> {
        let is_busy = self.holding > 0 || self.ready.len() > 0 || self.searching.len() > 0;
        if is_busy || self.backlog == Backlog::Waiting {
            return Some(0);
        }
        let mut until = self.quiet_until;
        if self.backlog == Backlog::Later {
            until = until.min(self.places.elapsed().saturating_add(RETRY));
        }
        if until == u64::MAX {
            return None;
        }
        Some(
            until
                .saturating_sub(self.places.elapsed())
                .min(LONGEST_ROUND),
        )
    }

    /// Whose turn it is: of those who are ready, whoever became so first. One that has ended, and whose patience has
    /// too, is let go in its place.
    fn first(&mut self) -> Option<Next<Socket>>
        requires { self.old.has_heard ≡ false }
        ensures round { IfSome result (λ _. self.new.round < self.old.round) }
        ensures handed_out { MayHandOut self.old.places result self.new.places }
        ensures line { MayCall self.old.ready result self.new.ready }
        ensures asked { self.new.looks ≡ self.old.looks }
        ensures goes { MayGoRightly (AreSeatedBy self.new.places.seated.items) result self.new.places.heard.items
            self.new.looks.items }
    {
        if self.round == 0 {
            return None;
        }
        let place = self.ready.first()?;
        self.round -= 1;
        if self.has_left(place) {
            self.ready.pop(place, Motion::Skipped);
            return self.let_go(place);
        }
        self.ready.pop(place, Motion::Called);
        Some(Next::Turn(place))
    }

    /// Who is let in, or has to go, now that all was heard.
    fn judge(&mut self) -> Option<Next<Socket>>
        requires { self.old.has_heard ≡ true }
        ensures handed_out { MayHandOut self.old.places result self.new.places }
        ensures line { MayCall self.old.ready result self.new.ready }
        ensures asked { self.new.looks ≡ self.old.looks }
        ensures goes { MayGoRightly (AreSeatedBy self.new.places.seated.items) result self.new.places.heard.items
            self.new.looks.items }
    {
        if self.backlog == Backlog::Waiting
            && let Some(next) = self.admit()
        {
            return Some(next);
        }
        let place = self.expired()?;
        self.let_go(place)
    }

    /// Who is let in, or has to go, where all was heard; and else a round begins.
    #[tactic(auto, using(crate::proofs::Fair::behind_then))]
    fn judge_heard(&mut self) -> Option<Next<Socket>>
        ensures unheard { IfNone result (self.new.has_heard ≡ false) }
        ensures handed_out { MayHandOut self.old.places result self.new.places }
        ensures line { MayCall self.old.ready result self.new.ready }
        ensures asked { self.new.looks ≡ self.old.looks }
        ensures goes { MayGoRightly (AreSeatedBy self.new.places.seated.items) result self.new.places.heard.items
            self.new.looks.items }
    {
        if !self.has_heard {
            return None;
        }
        if let Some(next) = self.judge() {
            return Some(next);
        }
        self.begin_round();
        None
    }

    /// Lets a newcomer in, where there is one and a place for it.
    fn admit(&mut self) -> Option<Next<Socket>>
        requires { self.old.has_heard ≡ true }
        ensures heard { IfNone result (self.new.has_heard ≡ true) }
        ensures handed_out { MayHandOut self.old.places result self.new.places }
        ensures line { MayCall self.old.ready result self.new.ready }
        ensures asked { self.new.looks ≡ self.old.looks }
        ensures goes { MayGoRightly (AreSeatedBy self.new.places.seated.items) result self.new.places.heard.items
            self.new.looks.items }
    {
        let Some(place) = self.free_place() else {
            return self.make_room();
        };
        match self.listener.accept() {
            Ok((stream, _)) => self.seat(place, stream),
            Err(error) => {
                self.backlog = match error.kind() {
                    ErrorKind::WouldBlock => Backlog::Empty,
                    ErrorKind::ConnectionAborted => Backlog::Waiting,
                    _ => Backlog::Later,
                };
                None
            }
        }
    }

    /// Lets one go, where all places are taken and a newcomer may come.
    fn make_room(&mut self) -> Option<Next<Socket>>
        requires { self.old.has_heard ≡ true }
        ensures heard { IfNone result (self.new.has_heard ≡ true) }
        ensures handed_out { MayHandOut self.old.places result self.new.places }
        ensures line { MayCall self.old.ready result self.new.ready }
        ensures first { (place : ℕ) → result ≡ Some (Next.Gone place) → GoesFirst self.old.places place }
        ensures asked { self.new.looks ≡ self.old.looks }
        ensures goes { MayGoRightly (AreSeatedBy self.new.places.seated.items) result self.new.places.heard.items
            self.new.looks.items }
    {
        if self.places.has_room()
            && self.places.are_full()
            && let Some(place) = self.first_to_go()
        {
            return self.let_go(place);
        }
        self.backlog = Backlog::Later;
        None
    }

    /// Gives the newcomer the place, or lets it go where it can't be set up. As a socket it has the number after the
    /// one before it.
    fn seat(&mut self, place: usize, mut stream: TcpStream) -> Option<Next<Socket>>
        requires open { IsOpen self.old.places place }
        requires heard { self.old.has_heard ≡ true }
        ensures heard { IfNone result (self.new.has_heard ≡ true) }
        ensures handed_out { MayHandOut self.old.places result self.new.places }
        ensures line { MayCall self.old.ready result self.new.ready }
        ensures asked { self.new.looks ≡ self.old.looks }
        ensures goes { MayGoRightly (AreSeatedBy self.new.places.seated.items) result self.new.places.heard.items
            self.new.looks.items }
    {
        let interests = Interest::READABLE | Interest::WRITABLE;
        let set = stream.set_nodelay(true).and_then(|_| {
            self.poll
                .registry()
                .register(&mut stream, Token(place), interests)
        });
        if set.is_err() {
            self.places.lose(stream);
            return None;
        }
        let before = self.places.seat(place);
        self.ready.push(place);
        Some(Next::Newcomer {
            place,
            peer: Socket::new(stream, before),
        })
    }
}

impl<'r, N: time::Clock> Schedule<'r, N> {
    /// The clock's millisecond, where it can be read.
    fn read_clock(&self) -> Option<u64> {
        let since = self.time.monotonic().ok()?;
        let millis = since.as_secs().saturating_mul(1000);
        Some(millis.saturating_add(since.subsec_millis() as u64))
    }

    /// Reads the clock. Of the milliseconds since it was last read, no more than 1,000 count; and so many do where it
    /// can't be read. What comes of it is whether nobody's patience has ended by then, and nobody may have to make
    /// room.
    fn count_time(&mut self) -> bool
        requires { self.old.has_heard ≡ false }
        ensures still { AreStill self.old.places self.new.places }
        ensures ready { self.new.ready ≡ self.old.ready }
        ensures unheard { self.new.has_heard ≡ false }
        ensures counts { (read : Option ℕ)
            × (self.new.looks.items ≡ self.old.looks.items ++ (Look.Clock read result, 0) ∷ [])
            × (self.new.places.elapsed ≡ counted self.old.places.elapsed (passed_since self.old.read read))
            × (self.new.read ≡ read_after self.old.read read) }
        ensures quiet { result ≡ true → self.new.places.elapsed < self.new.quiet_until }
        ensures room { result ≡ true → are_full self.new.places ≡ false }
    {
        let read = self.read_clock();
        self.places.count(passed_since(self.read, read));
        self.read = read_after(self.read, read);
        let is_quiet = self.places.elapsed() < self.quiet_until && !self.places.are_full();
        self.looks = self.looks.and(&Look::Clock { read, is_quiet }, &0);
        is_quiet
    }

    /// Waits until something befalls a socket or a patience ends. Whoever has asked by then is heard before anybody's
    /// patience is judged.
    fn poll_once(&mut self) -> io::Result<()>
        ensures still { AreStill self.old.places self.new.places }
        ensures line { ComeBehind self.old.ready self.new.ready }
        ensures more { AreMore self.old.looks.items self.new.looks.items }
    {
        self.has_heard = false;
        self.count_time();
        let patience = self.patience();
        let told = self.hear(patience)?;
        let is_quiet = self.count_time();
        if !tells_all(patience, told) || !is_quiet {
            self.hear_all()?;
        }
        self.has_heard = true;
        self.try_again();
        Ok(())
    }

    /// Hears all that has befallen the sockets so far, without waiting.
    fn hear_all(&mut self) -> io::Result<()>
        requires { self.old.has_heard ≡ false }
        ensures places { IsUnheard self.old.places self.new.places }
        ensures line { ComeBehind self.old.ready self.new.ready }
        ensures unheard { self.new.has_heard ≡ false }
        ensures all { IfOk result (λ _. ∥ IsHeardOut self.new.looks.items ∥₁) }
        ensures more { AreMore self.old.looks.items self.new.looks.items }
    {
        for _asked in 0..MOST_ASKED {
            let told = self.hear(Some(0))?;
            if tells_all(Some(0), told) {
                return Ok(());
            }
        }
        Ok(())
    }

    /// Waits at most so many milliseconds until something befalls a socket, and hears how many things did.
    fn hear(&mut self, patience: Option<u64>) -> io::Result<usize>
        requires { self.old.has_heard ≡ false }
        ensures places { IsUnheard self.old.places self.new.places }
        ensures line { ComeBehind self.old.ready self.new.ready }
        ensures unheard { self.new.has_heard ≡ false }
        ensures told { IfOk result (λ told.
            self.new.looks.items ≡ self.old.looks.items ++ (Look.Sockets patience, told) ∷ []) }
        ensures more { AreMore self.old.looks.items self.new.looks.items }
    {
        self.poll
            .poll(&mut self.events, patience.map(Duration::from_millis))?;
        let mut woken = [0usize; MOST_EVENTS];
        let mut count = 0;
        for event in &self.events {
            if count < MOST_EVENTS {
                woken[count] = place_of(event);
                count += 1;
            }
        }
        self.looks = self.looks.and(&Look::Sockets { patience }, &count);
        for place in &woken[..count.min(MOST_EVENTS)] {
            if *place == LISTENER {
                self.backlog = Backlog::Waiting;
            } else {
                self.wake(*place);
            }
        }
        Ok(count)
    }
}

impl<'r, N: time::Clock> Schedule<'r, N> {
    ghost use Rattle.hall_http.specs.EventLoop.{HandsOut};

    /// Waits until something is to be done.
    fn next(&mut self) -> Next<Socket>
        ensures handed_out { HandsOut self.old.places result self.new.places }
        ensures line { CallsOne self.old.ready result self.new.ready }
        ensures over { result ≡ Next.End → HaveAllGone self.new.places }
        ensures goes { GoesRightly (AreSeatedBy self.new.places.seated.items) result self.new.places.heard.items
            self.new.looks.items }
        ensures more { AreMore self.old.looks.items self.new.looks.items }
    {
        for _round in 0..u64::MAX {
            if self.places.are_over() {
                return Next::End;
            }
            if let Some(next) = self.judge_heard() {
                return next;
            }
            if let Some(next) = self.first() {
                return next;
            }
            if self.holding > 0 && self.has_asked {
                self.has_asked = false;
                self.answers = self.answers.saturating_add(1);
                return Next::Answer;
            }
            self.has_asked = true;
            if self.poll_once().is_err() {
                return Next::Refused;
            }
        }
        Next::Refused
    }

    /// What was next before and this, with all that was asked until now.
    fn note(
        &self,
        before: &Log<Next<Socket>, Log<Look, usize>>,
        next: &Next<Socket>,
    ) -> Log<Next<Socket>, Log<Look, usize>>
        ensures { result.items ≡ before.now.items ++ (next.now, self.now.looks) ∷ [] }
    {
        before.and(next, &self.looks)
    }

    /// The connection at the place isn't held any more, and is ready.
    fn answered(&mut self, place: usize)
        ensures places { self.new.places ≡ self.old.places }
        ensures line { ComeBehind self.old.ready self.new.ready }
        ensures ready { IsReadyInLine self.new.places place self.new.ready }
        ensures asked { self.new.looks ≡ self.old.looks }
    {
        self.holding = self.holding.saturating_sub(1);
        if let Some(Visit::Ready(_)) = self.places.at(place) {
            self.ready.push(place);
        }
    }

    /// Notes how the connection at the place stands after its turn, and for which moment its request is held.
    fn hears(&mut self, place: usize, step: Step, held: Option<Option<Moment>>)
        ensures heard { HasHeard self.old.places ((place, step), held) self.new.places }
        ensures ready { self.new.ready ≡ self.old.ready }
        ensures asked { self.new.looks ≡ self.old.looks }
    {
        self.places.hears(place, step, held);
    }

    /// Hears how the connection at the place stands after its turn, and for which moment its request is held.
    fn stands(&mut self, place: usize, step: Step, held: Option<Option<Moment>>)
        ensures heard { HasHeard self.old.places ((place, step), held) self.new.places }
        ensures line { ComeBehind self.old.ready self.new.ready }
        ensures ready { IsInLine self.new.places place step self.new.ready }
        ensures goes_on { step ≡ Step.Again → place < most_connections → waits_in self.new.ready place ≡ true }
        ensures asked { self.new.looks ≡ self.old.looks }
    {
        self.hears(place, step, held);
        // By what was heard it can go on, whether or not anybody is known there.
        if step == Step::Again && place < MOST_CLIENTS {
            self.ready.push(place);
            return;
        }
        match self.places.at(place) {
            Some(Visit::Ready(_)) if step == Step::Holds => {
                self.holding = self.holding.saturating_add(1);
            }
            Some(Visit::Ready(_)) => self.ready.push(place),
            Some(Visit::Searching(_)) => self.searching.push(place),
            Some(Visit::Waiting(wait)) => {
                self.quiet_until = self.quiet_until.min(wait.until());
            }
            None => self.try_again(),
        }
    }
}

//! The places of the connections, and how many of these may still come.
ghost use Rattle.std.specs.Prelude.{◌≡◌, ◌≤◌, ◌<◌, ◌+◌, ◌⊎◌, [], ◌∷◌, ◌++◌, All, IfOk, IfSome, None, Some, get_or};
ghost use Rattle.std.specs.Prelude.{length};
ghost use Rattle.std.specs.Prelude.{false, is_some, true};
ghost use Rattle.hall_http.specs.Limits.{most_connections};
ghost use Rattle.hall_http.specs.Places.{IsLetGo, counted_for, patience_of, taken, until_of, wait_in};
ghost use Rattle.hall_http.specs.Waited.{WaitAsHeard};
ghost use Rattle.hall_http.specs.declared.client.Step.TheVariants as Step;
ghost use Rattle.hall_http.specs.declared.places.Visit.TheVariants.{Ready};

use crate::client::Step;
use crate::clients::MOST_CLIENTS;
use crate::connection::Wish;
use hall_policy::Moment;
use http_server::Log;
use mio::net::TcpStream;
use std::alloc::{AllocError, Global};
use std::mem;

/// How many milliseconds a connection has for a request from its first byte on, for taking a reply, and for the first
/// byte of the next request.
const PATIENCE: u64 = 10_000;

/// How many milliseconds bytes are read off that are no longer answered.
const LAST_PATIENCE: u64 = 2_000;

/// The most milliseconds of a wait, or between two waits, that count against anybody's patience. The rest of a longer
/// time is the hall's own: a request took it, or the machine stood still.
pub(crate) const LONGEST_ROUND: u64 = 1_000;

/// What a connection waited for last, after so many requests, and since which millisecond.
#[derive(Clone, Copy, PartialEq, Eq)]
pub(crate) struct Wait {
    pub(crate) wish: Wish,
    pub(crate) requests: usize,
    pub(crate) since: u64,
}

impl Wait {
    /// For how many milliseconds it may wait.
    fn patience(self) -> u64
        ensures { result ≡ patience_of self.wish }
    {
        match self.wish {
            Wish::Leaving => LAST_PATIENCE,
            Wish::Idle | Wish::Asking | Wish::Taking | Wish::Searching => PATIENCE,
        }
    }

    /// The millisecond at which its patience ends.
    pub(crate) fn until(self) -> u64
        ensures { result ≡ until_of self }
    {
        self.since.saturating_add(self.patience())
    }

    /// Whether it has waited so many milliseconds.
    pub(crate) fn has_lasted(self, span: u64, now: u64) -> bool
        ensures has { result ≡ true → self.since + span ≤ now }
        ensures not { result ≡ false → now < self.since + span }
    {
        now >= self.since && now - self.since >= span
    }

    /// Whether its patience has ended.
    pub(crate) fn has_ended(self, now: u64) -> bool
        ensures { result ≡ true → self.since + patience_of self.wish ≤ now }
    {
        self.has_lasted(self.patience(), now)
    }
}

/// After how many requests it waits for this. Where it has ended they don't count any more.
fn counted_for(wish: Wish, requests: usize) -> usize
    ensures { result ≡ counted_for wish requests }
{
    match wish {
        Wish::Leaving => 0,
        Wish::Idle | Wish::Asking | Wish::Taking | Wish::Searching => requests,
    }
}

/// What is known of a connection.
#[derive(Clone, Copy, PartialEq, Eq)]
pub(crate) enum Visit {
    /// It is ready, or has its turn; and what it waited for last.
    Ready(Option<Wait>),
    /// It waits.
    Waiting(Wait),
    /// Its request needs more work.
    Searching(Wait),
}

impl Visit {
    /// It is ready, and what it waited for is what it waited for last.
    fn woken(self) -> Visit
        ensures { result ≡ Ready (wait_in self) }
    {
        match self {
            Visit::Waiting(wait) | Visit::Searching(wait) => Visit::Ready(Some(wait)),
            Visit::Ready(last) => Visit::Ready(last),
        }
    }
}

/// A connection that is let go: its place, what was known of it, and whether all places were taken.
#[derive(Clone, Copy)]
pub(crate) struct LetGo {
    place: usize,
    visit: Visit,
    is_full: bool,
}

/// All that was heard of turns, and the millisecond.
pub(crate) type HeardLog = Log<((usize, Step), Option<Option<Moment>>), u64>;

/// Who is here, at which place. A connection that may come has a place, until that is free again; or it can't be set
/// up, and is lost.
#[derive(Drop)]
pub(crate) struct Places {
    visits: Vec<Option<Visit>>,
    /// How many connections may come in all.
    most: u64,
    /// How many of them may still come or are here.
    left: u64,
    /// How many are here.
    here: u64,
    /// How many milliseconds have counted so far.
    elapsed: u64,
    /// The places that were given to newcomers, and all that had been heard by then.
    seated: Log<usize, HeardLog>,
    /// The places that were free again, and the millisecond.
    freed: Log<usize, u64>,
    /// The newcomers that were lost, and the millisecond.
    lost: Log<TcpStream, u64>,
    /// Those that were let go, and the millisecond.
    let_go: Log<LetGo, u64>,
    /// All that was heard of turns, and the millisecond.
    heard: HeardLog,
    ghost long: { length visits.items ≡ most_connections },
    ghost counted: { here ≡ taken visits.items },
    ghost in_all: { left + (length freed.items + length lost.items) ≡ most },
    ghost stays: { length seated.items ≡ length freed.items + here },
    ghost fits: { here ≤ left },
    ghost rightly: { All (λ one. ∥ IsLetGo one ∥₁) let_go.items },
    ghost came: { All (λ one. length one.1.items ≤ length heard.items) seated.items },
    ghost waits: { WaitAsHeard seated.items heard.items visits.items },
}

impl Places {
    ghost use Rattle.hall_http.specs.Seats.{AreFresh, AreStill, Frees, FreesOne, HasHeard};
    ghost use Rattle.hall_http.specs.Seats.{HaveAllGone, IsHeard, IsOpen, IsUnheard, LetsGo, LosesOne, MayLetGo};
    ghost use Rattle.hall_http.specs.Seats.{TouchesOnly, WaitsFrom, Wakes};
    ghost use Rattle.hall_http.specs.Seats.{are_full};
    ghost use Rattle.hall_http.specs.Looks.{counted};

    /// All places, free, for so many connections.
    pub(crate) fn new(alloc: Global, most: u64) -> Result<Places, AllocError>
        ensures { IfOk result (AreFresh most) }
    {
        let mut visits = Vec::with_capacity(alloc, MOST_CLIENTS)?;
        for _place in 0..MOST_CLIENTS {
            visits.push(None)?;
        }
        Ok(Places {
            visits,
            most,
            left: most,
            here: 0,
            elapsed: 0,
            seated: Log::new(),
            freed: Log::new(),
            lost: Log::new(),
            let_go: Log::new(),
            heard: Log::new(),
        })
    }

    /// How many places there are.
    pub(crate) fn len(&self) -> usize
        ensures { result ≡ length self.now.visits.items }
    {
        self.visits.len()
    }

    /// What is known of the connection at the place, if one is there.
    pub(crate) fn at(&self, place: usize) -> Option<Visit>
        ensures known { result ≡ get_or self.now.visits.items place None }
        ensures within { IfSome result (λ _. place < most_connections) }
    {
        match self.visits.get(place) {
            Some(visit) => *visit,
            None => None,
        }
    }

    /// Whether one more may be here.
    pub(crate) fn has_room(&self) -> bool
        ensures { result ≡ true → self.now.here < self.now.left }
    {
        self.here < self.left
    }

    /// Whether none is here, and none may come.
    pub(crate) fn are_over(&self) -> bool
        ensures { result ≡ true → HaveAllGone self.now }
    {
        self.left == 0
    }

    /// Whether all places are taken.
    pub(crate) fn are_full(&self) -> bool
        ensures { result ≡ are_full self.now }
    {
        self.here == self.visits.len() as u64
    }

    /// How many milliseconds have counted so far.
    pub(crate) fn elapsed(&self) -> u64
        ensures { result ≡ self.now.elapsed }
    {
        self.elapsed
    }

    /// So many milliseconds more have passed. Of a long time, only the first count.
    pub(crate) fn count(&mut self, passed: u64)
        ensures still { AreStill self.old self.new }
        ensures visits { self.new.visits.items ≡ self.old.visits.items }
        ensures exact { self.new.elapsed ≡ counted self.old.elapsed passed }
    {
        self.elapsed = self.elapsed.saturating_add(passed.min(LONGEST_ROUND));
    }

    /// Whoever waits at the place, or has asked for more work, is ready.
    pub(crate) fn wakes(&mut self, place: usize)
        ensures still { AreStill self.old self.new }
        ensures elapsed { self.new.elapsed ≡ self.old.elapsed }
        ensures there { TouchesOnly self.old place self.new }
        ensures woken { Wakes (get_or self.old.visits.items place None) (get_or self.new.visits.items place None) }
    {
        if let Some(visit) = self.at(place) {
            self.visits[place] = Some(visit.woken());
        }
    }

    /// What the connection waits for: where it waited for the same before, its patience goes on.
    fn wait(&self, place: usize, wish: Wish, requests: usize) -> Wait
        ensures { WaitsFrom (get_or self.now.visits.items place None) wish requests self.now.elapsed result }
    {
        if let Some(Visit::Ready(Some(last))) = self.at(place)
            && last.wish == wish
            && last.requests == requests
        {
            return last;
        }
        Wait {
            wish,
            requests,
            since: self.elapsed,
        }
    }

    /// What is known of the connection at the place, if one is there, once it stands so after its turn; and nothing
    /// where it is over.
    fn after(&self, place: usize, step: Step) -> Option<Visit>
        ensures known { IfSome result (λ visit.
            IsHeard (get_or self.now.visits.items place None) step self.now.elapsed visit) }
        ensures there { IfSome result (λ _.
            (place < most_connections) × (is_some (get_or self.now.visits.items place None) ≡ true)) }
        ensures none { result ≡ None → (get_or self.now.visits.items place None ≡ None) ⊎ (step ≡ Step.Over) }
    {
        let visit = self.at(place)?;
        match step {
            Step::Again | Step::Holds => Some(visit.woken()),
            Step::Searches { requests } => Some(Visit::Searching(self.wait(
                place,
                Wish::Searching,
                requests,
            ))),
            Step::Leaves => Some(Visit::Ready(Some(self.wait(place, Wish::Leaving, 0)))),
            Step::Waits { wish, requests } => {
                Some(Visit::Waiting(self.wait(place, wish, counted_for(wish, requests))))
            }
            Step::Over => None,
        }
    }

    /// Hears how the connection at the place, if one is there, stands after its turn, and for which moment its request
    /// is held, where it is from now on.
    pub(crate) fn hears(&mut self, place: usize, step: Step, held: Option<Option<Moment>>)
        ensures heard { HasHeard self.old ((place, step), held) self.new }
        ensures there { TouchesOnly self.old place self.new }
        ensures known { (visit : Visit) → get_or self.new.visits.items place None ≡ Some visit →
            IsHeard (get_or self.old.visits.items place None) step self.old.elapsed visit }
    {
        let told = ((place, step), held);
        let Some(visit) = self.after(place, step) else {
            self.free(place);
            self.heard = self.heard.and(&told, &self.elapsed);
            return;
        };
        self.visits[place] = Some(visit);
        self.heard = self.heard.and(&told, &self.elapsed);
    }

    /// Gives a newcomer the place, which is ready and has waited for nothing. What comes of it is which places were
    /// given before.
    pub(crate) fn seat(&mut self, place: usize) -> Log<usize, HeardLog>
        requires { IsOpen self.old place }
        ensures before { result.items ≡ self.old.seated.items }
        ensures freed { self.new.freed.items ≡ self.old.freed.items }
        ensures there { TouchesOnly self.old place self.new }
        ensures known { get_or self.new.visits.items place None ≡ Some (Ready None) }
        ensures seated { self.new.seated.items ≡ self.old.seated.items ++ (place, self.old.heard) ∷ [] }
        ensures most { self.new.most ≡ self.old.most }
        ensures let_go { self.new.let_go.items ≡ self.old.let_go.items }
        ensures heard { self.new.heard.items ≡ self.old.heard.items }
        ensures elapsed { self.new.elapsed ≡ self.old.elapsed }
    {
        self.visits[place] = Some(Visit::Ready(None));
        self.here += 1;
        let seated = self.seated.and(&place, &self.heard);
        mem::replace(&mut self.seated, seated)
    }

    /// A newcomer can't be set up, and is let go of here, so that it gets no place any more.
    pub(crate) fn lose(&mut self, stream: TcpStream)
        requires { self.old.here < self.old.left }
        ensures still { AreStill self.old self.new }
        ensures lost { LosesOne self.old stream self.new }
        ensures elapsed { self.new.elapsed ≡ self.old.elapsed }
    {
        self.left -= 1;
        self.lost = self.lost.and(&stream, &self.elapsed);
    }

    /// The connection at the place is let go.
    pub(crate) fn let_go(&mut self, place: usize)
        requires { MayLetGo self.old place }
        ensures gone { LetsGo self.old place self.new }
        ensures freed { FreesOne self.old place self.new }
        ensures there { TouchesOnly self.old place self.new }
        ensures seated { self.new.seated.items ≡ self.old.seated.items }
        ensures most { self.new.most ≡ self.old.most }
        ensures heard { self.new.heard.items ≡ self.old.heard.items }
        ensures elapsed { self.new.elapsed ≡ self.old.elapsed }
    {
        let Some(visit) = self.at(place) else {
            return;
        };
        let one = LetGo {
            place,
            visit,
            is_full: self.are_full(),
        };
        self.let_go = self.let_go.and(&one, &self.elapsed);
        self.free(place);
    }

    /// The place is free again.
    fn free(&mut self, place: usize)
        ensures freed { Frees self.old place self.new }
        ensures there { TouchesOnly self.old place self.new }
        ensures free { get_or self.new.visits.items place None ≡ None }
    {
        if self.at(place).is_some() {
            self.visits[place] = None;
            self.here -= 1;
            self.left -= 1;
            self.freed = self.freed.and(&place, &self.elapsed);
        }
    }
}

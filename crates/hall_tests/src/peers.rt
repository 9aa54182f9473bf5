//! Clients in memory, what they saw, and what lets them in and gives them turns.
ghost use Rattle.std.specs.Prelude.{◌≡◌, ◌≤◌, [], ◌∷◌, ◌++◌, flat_map, length, map, take, drop};
ghost use Rattle.hall_http.specs.Coming.{logged};
ghost use Rattle.hall_http.specs.Outgoing.{outgoing_text};

use hall_http::{Call, Moved, Next, Outgoing, Peer, Sockets, Step};
use hall_policy::Moment;
use http_server::Log;
use std::alloc::Global;
use std::cell::{Cell, RefCell};
use std::collections::VecDeque;
use std::io::Read;
use std::mem;

/// What comes of a client once all its bytes were read.
#[derive(Clone, Copy, PartialEq, Eq)]
pub(crate) enum After {
    /// The end.
    End,
    /// Nothing.
    Silence,
    /// All its bytes once more, and so on without an end.
    Again,
}

/// How a client sends its bytes and takes its replies.
#[derive(Clone, Copy)]
pub(crate) struct Manner {
    /// The most bytes that a call moves.
    pub(crate) most: usize,
    /// Whether it has to be waited for before each call that moves some.
    pub(crate) stalls: bool,
    pub(crate) after: After,
    /// How many bytes of its replies it takes before it breaks off.
    pub(crate) takes: usize,
}

/// One that sends and takes all at once, and then ends.
pub(crate) const PLAIN: Manner = Manner {
    most: 4096,
    stalls: false,
    after: After::End,
    takes: usize::MAX,
};

/// What a client saw.
#[derive(Drop)]
pub(crate) struct Seen {
    /// What it was sent.
    written: RefCell<Vec<u8>>,
    /// How many of its bytes were read since they last began.
    at: Cell<usize>,
    /// Whether the last call had to wait.
    has_waited: Cell<bool>,
    /// How many reads were made.
    pub(crate) reads: Cell<usize>,
    /// How many of them before it was told that no more is sent.
    pub(crate) reads_before_end: Cell<usize>,
    /// How often it was told so.
    pub(crate) ends: Cell<usize>,
}

impl Seen {
    pub(crate) fn new(alloc: Global) -> Seen {
        Seen {
            written: RefCell::new(Vec::new(alloc)),
            at: Cell::new(0),
            has_waited: Cell::new(false),
            reads: Cell::new(0),
            reads_before_end: Cell::new(0),
            ends: Cell::new(0),
        }
    }

    /// How many bytes it was sent.
    pub(crate) fn count(&self) -> usize {
        match self.written.try_borrow() {
            Ok(written) => written.len(),
            Err(_) => 0,
        }
    }

    /// Whether it was sent these bytes.
    pub(crate) fn is_sent(&self, bytes: &[u8]) -> bool {
        match self.written.try_borrow() {
            Ok(written) => written.as_slice() == bytes,
            Err(_) => false,
        }
    }

    fn write(&self, bytes: &[u8]) {
        if let Ok(mut written) = self.written.try_borrow_mut() {
            let _ = written.extend_from_slice(bytes);
        }
    }

    /// Whether the call has to wait, where the one before it hadn't.
    fn waits(&self, manner: Manner) -> bool {
        let waits = manner.stalls && !self.has_waited.get();
        self.has_waited.set(waits);
        waits
    }

    /// How many of so many bytes were read; none, where they begin again.
    fn place(&self, count: usize, after: After) -> usize
        ensures { result ≤ count }
    {
        let at = self.at.get();
        if at < count || after != After::Again {
            return at.min(count);
        }
        self.at.set(0);
        0
    }
}

/// A client that sends these bytes.
#[derive(Clone, Copy)]
pub(crate) struct Coming<'a> {
    pub(crate) sent: &'a [u8],
    pub(crate) manner: Manner,
    pub(crate) seen: &'a Seen,
}

/// The other side of a connection to such a client, after these places were given to others.
#[derive(Drop)]
pub(crate) struct Scripted<'a> {
    coming: Coming<'a>,
    before: Log<usize, u64>,
    reads: Log<[u8; 4096], usize>,
    writes: Log<Outgoing, (usize, usize)>,
    calls: Log<Call, Moved>,
    /// A read told that no more comes.
    is_over: bool,
    /// A send told that no more goes.
    is_broken: bool,
    /// It was told that no more is sent.
    is_hung_up: bool,
}

impl Scripted<'_> {
    /// Notes what a call told.
    fn noted(&mut self, call: Call, told: Moved) -> Moved
        ensures same { result ≡ told }
        ensures others { self.new ≡ record self.old { calls = self.new.calls } }
        ensures noted { self.new.calls.items ≡ self.old.calls.items ++ (call, told) ∷ [] }
    {
        self.calls = self.calls.and(&call, &told);
        told
    }
}

impl Peer for Scripted<'_> {
    ghost traffic = { λ peer. record {
      number = length peer.before.items;
      came = flat_map (λ read. take read.1 read.0) peer.reads.items;
      reads = length peer.reads.items;
      went = flat_map (λ write. take write.1.1 (drop write.1.0 (outgoing_text write.0))) peer.writes.items;
      over = peer.is_over;
      broke = peer.is_broken;
      hung_up = peer.is_hung_up;
      calls = peer.calls.items;
    } };

    fn receive(&mut self, chunk: &mut [u8; 4096]) -> Moved {
        let Coming { sent, manner, seen } = self.coming;
        if seen.waits(manner) {
            return self.noted(Call::Receive, Moved::Wait);
        }
        seen.reads.set(seen.reads.get().saturating_add(1));
        let at = seen.place(sent.len(), manner.after);
        let mut rest = &sent[at..];
        if rest.len() > manner.most {
            rest = &rest[..manner.most];
        }
        match rest.read(chunk.as_mut_slice()) {
            Ok(count) if count > 0 => {
                seen.at.set(at.saturating_add(count));
                self.reads = self.reads.and(chunk, &count);
                self.noted(Call::Receive, Moved::Some(count))
            }
            _ => match manner.after {
                After::End => {
                    self.is_over = true;
                    self.noted(Call::Receive, Moved::None)
                }
                After::Silence | After::Again => self.noted(Call::Receive, Moved::Wait),
            },
        }
    }

    fn send(&mut self, outgoing: &Outgoing, from: usize) -> Moved {
        let Coming { manner, seen, .. } = self.coming;
        if seen.waits(manner) {
            return self.noted(Call::Send, Moved::Wait);
        }
        let bytes = outgoing.from(from);
        let left = manner.takes.saturating_sub(seen.count());
        let mut count = bytes.len();
        if count > manner.most {
            count = manner.most;
        }
        if count > left {
            count = left;
        }
        if count == 0 {
            self.is_broken = true;
            return self.noted(Call::Send, Moved::None);
        }
        seen.write(&bytes[..count]);
        self.writes = self.writes.and(outgoing, &(from, count));
        self.noted(Call::Send, Moved::Some(count))
    }

    fn end_sending(&mut self) {
        let seen = self.coming.seen;
        if seen.ends.get() == 0 {
            seen.reads_before_end.set(seen.reads.get());
        }
        seen.ends.set(seen.ends.get().saturating_add(1));
        self.is_hung_up = true;
    }
}

/// Lets in the clients of its list, from the last to the first, each at a place of its own, and gives those that are
/// here their turns. Requests that are held are answered once all have had theirs, or at once by a stubborn one. Once
/// so many turns were had, each is let go.
#[derive(Drop)]
pub(crate) struct Listed<'a> {
    coming: Vec<Coming<'a>>,
    count: usize,
    here: VecDeque<usize>,
    /// How many requests are held.
    holding: usize,
    turns: u64,
    /// Whether who had its turn has the next one too, as long as it can go on.
    is_stubborn: bool,
    nexts: Log<Next<Scripted<'a>>, usize>,
    heard: Log<((usize, Step), Option<Option<Moment>>), u64>,
    seated: Log<usize, u64>,
}

impl<'a> Listed<'a> {
    pub(crate) fn new(
        alloc: Global,
        coming: Vec<Coming<'a>>,
        turns: u64,
        is_stubborn: bool,
    ) -> Listed<'a>
        ensures nexts { result.nexts.items ≡ [] }
        ensures heard { result.heard.items ≡ [] }
    {
        Listed {
            coming,
            count: 0,
            here: VecDeque::new(alloc),
            holding: 0,
            turns,
            is_stubborn,
            nexts: Log::new(),
            heard: Log::new(),
            seated: Log::new(),
        }
    }

    /// Notes what is to be done next.
    fn noted(&mut self, next: Next<Scripted<'a>>) -> Next<Scripted<'a>>
        ensures same { result ≡ next.entry }
        ensures noted { logged self.new.nexts ≡ logged self.old.nexts ++ next.entry ∷ [] }
        ensures heard { self.new.heard ≡ self.old.heard }
        ensures seated { self.new.seated ≡ self.old.seated }
    {
        self.nexts = self.nexts.and(&next, &self.count);
        next
    }
}

impl<'a> Sockets for Listed<'a> {
    type Peer = Scripted<'a>;

    ghost is_over = { λ _. Unit {0} };

    ghost is_fair = { λ _. Unit {0} };

    ghost said = { λ sockets. record {
      nexts = logged sockets.nexts;
      count = length sockets.seated.items;
      most = 0;
      heard = map (λ one. one.0) sockets.heard.items;
    } };

    fn next(&mut self) -> Next<Scripted<'a>> {
        if let Some(coming) = self.coming.pop() {
            let place = self.count;
            let _ = self.here.push_back(place);
            self.count = place.saturating_add(1);
            let seated = self.seated.and(&place, &self.turns);
            let peer = Scripted {
                coming,
                before: mem::replace(&mut self.seated, seated),
                reads: Log::new(),
                writes: Log::new(),
                calls: Log::new(),
                is_over: false,
                is_broken: false,
                is_hung_up: false,
            };
            return self.noted(Next::Newcomer { place, peer });
        }
        if self.holding > 0 && (self.is_stubborn || self.here.is_empty()) {
            return self.noted(Next::Answer);
        }
        let Some(place) = self.here.pop_front() else {
            return self.noted(Next::End);
        };
        if self.turns == 0 {
            return self.noted(Next::Gone(place));
        }
        self.turns -= 1;
        self.noted(Next::Turn(place))
    }

    fn stands(&mut self, place: usize, step: Step, held: Option<Option<Moment>>) {
        self.heard = self.heard.and(&((place, step), held), &self.turns);
        let _ = match step {
            Step::Over => Ok(()),
            Step::Holds => {
                self.holding = self.holding.saturating_add(1);
                Ok(())
            }
            Step::Again if self.is_stubborn => self.here.push_front(place),
            _ => self.here.push_back(place),
        };
    }

    fn answered(&mut self, place: usize) {
        self.holding = self.holding.saturating_sub(1);
        let _ = if self.is_stubborn {
            self.here.push_front(place)
        } else {
            self.here.push_back(place)
        };
    }

    fn hear_of_writes(&mut self, _refuses_writes: bool) {}
}

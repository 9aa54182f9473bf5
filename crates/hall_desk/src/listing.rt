//! The listings of all answers of a round, made in slices.
ghost use Rattle.std.specs.Prelude.{◌≡◌, ◌⊎◌, ◌||◌, true, false, IfOk, IfSome, IsTrue, Ok, Some, None};
ghost use Rattle.hall_policy.specs.Rules.{TheCaller};
ghost use Rattle.hall_policy.specs.World.{World};
ghost use Rattle.hall_policy.specs.declared.request.Action.TheVariants.{Answers};
ghost use Rattle.hall_store.specs.Caller.{caller_of};
ghost use Rattle.hall_store.specs.Store.{Asks, Kept, Served};
ghost use Rattle.hall_desk.specs.Lines.{BeginsLines, IsLineAdded};
ghost use Rattle.hall_desk.specs.Listings.{AreLinesUpTo, AreListedIn, AreListings, ListsOn, WaitsForListing};
ghost use Rattle.hall_desk.specs.Listings.{leaves_listing};
ghost use Rattle.hall_desk.specs.Plans.{IsNobodys};
ghost use Rattle.hall_desk.specs.Slices.{AreAllTaken, AreUnderWay, kept_where};
ghost use Rattle.hall_desk.specs.Wanted.{AsksListing};
ghost use Rattle.hall_desk.specs.declared.listing.Listed.{Listed};
ghost use Rattle.hall_desk.specs.declared.prepared.Prepared.TheVariants as Prepared;

use crate::find_round::find_round;
use crate::lines::{Lines, ROOM};
use crate::prepared::Prepared;
use crate::reply::AnswersText;
use crate::request_at::no_facts;
use crate::slices::{Sliced, Slices};
use crate::table_copy::leaves_listing;
use hall_policy::{Decision, Facts, Key, Moment, Person, Request, RoundId, decide};
use hall_store::{Change, ReadStore, StoreFault};
use std::alloc::{AllocError, Global};

/// Room for the lines of a long listing. What isn't written there takes no memory, and lines that come aren't copied.
const LONG_ROOM: usize = 1 << 28;

/// The lines of the round's answers by entrants up to the name, with their verdicts: whoever sees all answers sees
/// them.
pub(crate) type Listing = Slices<Lines>;

/// A round, and the listing of all its answers.
#[derive(Drop)]
pub(crate) struct Listed {
    pub(crate) round: RoundId,
    pub(crate) text: AnswersText,
}

/// The listing that is under way, and the one that was finished last, until an answer to its round is added or it is
/// told.
#[derive(Drop)]
pub(crate) struct Listings {
    pub(crate) listing: Option<Listing>,
    pub(crate) listed: Option<Listed>,
    /// Whether one was dropped since an answer was added, until one is told.
    pub(crate) spoilt: bool,
}

impl Listings {
    /// Of nothing.
    pub(crate) fn none() -> Listings
        ensures { result ≡ record { listing = None; listed = None; spoilt = false } }
    {
        Listings {
            listing: None,
            listed: None,
            spoilt: false,
        }
    }

    /// Drops what the change spoils.
    pub(crate) fn leave(&mut self, change: &Change)
        ensures listing { self.new.listing ≡
            kept_where (λ listing. leaves_listing change.now listing.round) self.old.listing }
        ensures listed { self.new.listed ≡
            kept_where (λ listed. leaves_listing change.now listed.round) self.old.listed }
    {
        self.listing = listing_left(change, self.listing.take(), &mut self.spoilt);
        self.listed = listed_left(change, self.listed.take(), &mut self.spoilt);
    }

    /// The finished listing, where it is of the round; of another it is let go.
    pub(crate) fn take_listed(&mut self, round: &RoundId) -> Option<AnswersText>
        ensures taken { IfSome result (λ text. (one : Listed) × (self.old.listed ≡ Some one)
            × (one.round ≡ round.now) × (one.text ≡ text)) }
        ensures listed { (self.new.listed ≡ self.old.listed) ⊎ (self.new.listed ≡ None) }
        ensures listing { self.new.listing ≡ self.old.listing }
    {
        self.spoilt = false;
        match self.listed.take() {
            Some(listed) if listed.round == *round => Some(listed.text),
            _ => None,
        }
    }

    /// Whether nobody needs to wait: a listing is finished, of whichever round, or the last one was spoilt. Whoever
    /// asks next is told that one, or one that is made at once. So each question brings a listing on or is answered,
    /// and no two of them undo each other's for ever.
    fn is_ready(&self) -> bool {
        self.listed.is_some() || self.spoilt
    }
}

/// The listing under way, where the change leaves it; otherwise it is spoilt.
fn listing_left(change: &Change, listing: Option<Listing>, spoilt: &mut bool) -> Option<Listing>
    ensures { result ≡ kept_where (λ listing. leaves_listing change.now listing.round) listing }
{
    match listing {
        Some(listing) if leaves_listing(change, &listing.round) => Some(listing),
        Some(_) => {
            *spoilt = true;
            None
        }
        None => None,
    }
}

/// The finished listing, where the change leaves it; otherwise it is spoilt.
fn listed_left(change: &Change, listed: Option<Listed>, spoilt: &mut bool) -> Option<Listed>
    ensures { result ≡ kept_where (λ listed. leaves_listing change.now listed.round) listed }
{
    match listed {
        Some(listed) if leaves_listing(change, &listed.round) => Some(listed),
        Some(_) => {
            *spoilt = true;
            None
        }
        None => None,
    }
}

/// Works for a while on the listing of all answers of the round, where the sender may see them and none is finished: by
/// a slice of the listing that is under way, of whichever round. Where an answer spoilt the last one, nothing is to be
/// waited for: answers may come faster than slices.
pub(crate) fn prepare_listing<S: ReadStore>(
    alloc: Global,
    store: &mut S,
    request: &Request,
    round: &RoundId,
    listings: &mut Listings,
) -> Result<Prepared, StoreFault>
    requires action { request.now.action ≡ Answers round.now }
    requires listed { AreListings (S.content store.old) listings.old }
    ensures kept { Kept (S.content store.old) (S.content store.new) }
    ensures untouched { IsNobodys request.now → store.new ≡ store.old }
    ensures listed { AreListings (S.content store.new) listings.new }
    ensures waits { result ≡ Ok Prepared.Waits →
        WaitsForListing (S.content store.new) request.now listings.old listings.new }
{
    let Some(key) = &request.key else {
        return Ok(Prepared::Ready);
    };
    if listings.is_ready() || !may_list(alloc, store, request, key, round)? {
        return Ok(Prepared::Ready);
    }
    go_on(alloc, store, round, listings)
}

/// Whether whoever has the key is a director or a referee, and may list the round's answers.
fn may_list<S: ReadStore>(
    alloc: Global,
    store: &mut S,
    request: &Request,
    key: &Key,
    round: &RoundId,
) -> Result<bool, StoreFault>
    requires action { request.now.action ≡ Answers round.now }
    requires key { request.now.key ≡ Some key.now }
    ensures kept { Kept (S.content store.old) (S.content store.new) }
    ensures asks { Served (S.content store.new) result (λ world may. IsTrue may → AsksListing world request.now) }
{
    let caller = store.person_by_key(alloc, key)?;
    let mut facts = no_facts();
    facts.caller = caller;
    let may = may_by_facts(alloc, store, request, round, &mut facts);
    drop(facts);
    may
}

/// Whether the caller is a director or a referee, and may list the round's answers.
fn may_by_facts<S: ReadStore>(
    alloc: Global,
    store: &mut S,
    request: &Request,
    round: &RoundId,
    facts: &mut Facts,
) -> Result<bool, StoreFault>
    requires action { request.now.action ≡ Answers round.now }
    requires caller { Asks (S.content store.old) (λ world. facts.old.caller ≡ caller_of world request.now.key) }
    requires serves { (S.content store.old).honest → (S.content store.old).serves }
    ensures kept { Kept (S.content store.old) (S.content store.new) }
    ensures asks { Served (S.content store.new) result (λ world may. IsTrue may → AsksListing world request.now) }
{
    // No rule that Answers is asked speaks of the moment.
    let Some(t) = Moment::new(0) else {
        unreachable!()
    };
    if !is_official(&facts.caller) {
        return Ok(false);
    }
    facts.round = find_round(alloc, store, round)?;
    match decide(facts, &request.action, t) {
        Decision::Allow => Ok(true),
        Decision::Deny(_) | Decision::Repeat => Ok(false),
    }
}

/// Whether the caller is a director or a referee.
fn is_official(caller: &Option<Person>) -> bool
    ensures { IsTrue result → TheCaller caller.now (λ person. IsTrue (person.roles.director || person.roles.referee)) }
{
    match caller {
        Some(person) => {
            let roles = person.roles.get();
            roles.director || roles.referee
        }
        None => false,
    }
}

/// Gives a slice to the listing under way, or else begins that of the round.
fn go_on<S: ReadStore>(
    alloc: Global,
    store: &mut S,
    round: &RoundId,
    listings: &mut Listings,
) -> Result<Prepared, StoreFault>
    requires { AreListings (S.content store.old) listings.old }
    ensures kept { Kept (S.content store.old) (S.content store.new) }
    ensures listed { AreListings (S.content store.new) listings.new }
    ensures waits { result ≡ Ok Prepared.Waits → (S.content store.new).honest → (S.content store.new).serves
        × ListsOn listings.old.listing round.now listings.new.listing listings.new.listed }
{
    let listing = under_way(alloc, round, listings.listing.take())?;
    match listing.go_on(alloc, store)? {
        Sliced::On(listing) => {
            listings.listing = Some(listing);
            Ok(Prepared::Waits)
        }
        Sliced::Whole { round: made, taken } => {
            let is_own = made == *round;
            let listed = listed_of(made, taken)?;
            listings.listed = Some(listed);
            Ok(if is_own {
                Prepared::Ready
            } else {
                Prepared::Waits
            })
        }
    }
}

/// The listing under way, or else a new one of the round.
fn under_way(
    alloc: Global,
    round: &RoundId,
    listing: Option<Listing>,
) -> Result<Listing, AllocError>
    ensures lines { (world : World) → IfSome listing (AreLinesUpTo world) → IfOk result (AreLinesUpTo world) }
    ensures is { IfOk result (AreUnderWay listing round.now) }
{
    match listing {
        Some(listing) => Ok(listing),
        None => {
            let taken = long_lines(alloc)?;
            Ok(Slices {
                round: round.clone()?,
                taken,
                after: None,
            })
        }
    }
}

/// No lines yet, with room for many where there is so much.
fn long_lines(alloc: Global) -> Result<Lines, AllocError>
    ensures { IfOk result (BeginsLines true) }
{
    match Lines::begin(alloc, true, LONG_ROOM) {
        Ok(lines) => Ok(lines),
        Err(_) => Lines::begin(alloc, true, ROOM),
    }
}

/// The listing of the round, all of whose answers were taken.
fn listed_of(round: RoundId, taken: Lines) -> Result<Listed, AllocError>
    ensures same { IfOk result (λ listed. listed.round ≡ round) }
    ensures lines { (world : World) → AreAllTaken IsLineAdded (λ _ _. BeginsLines true) world round taken →
        IfOk result (AreListedIn world) }
{
    let text = taken.end()?;
    Ok(Listed { round, text })
}

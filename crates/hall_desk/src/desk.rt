//! The desk: requests, answered over the world of a store.
ghost use Rattle.std.specs.Prelude.{◌≡◌, ◌⊎◌, ◌≤◌, ◌+◌, [], length, IfOk, IfSome, IsOk, IsTrue, OnErr, false};
ghost use Rattle.hall_store.specs.Store.{Kept, Served, KeptWorld, Leads, LeavesOneOf, IsSettled, MakesInWorld};
ghost use Rattle.hall_store.specs.Store.{WritesOnce, Asks};
ghost use Rattle.hall_store.specs.Store.{CanFailIn, CanRefuseIn, Told, Fails};
ghost use Rattle.hall_store.specs.Change.{changed, CanMake};
ghost use Rattle.hall_store.specs.declared.change.Change.{Change};
ghost use Rattle.hall_desk.specs.Census.{census_of};
ghost use Rattle.hall_desk.specs.Desk.{kept_by, SaneThen};
ghost use Rattle.hall_desk.specs.Sane.{Sane};
ghost use Rattle.hall_desk.specs.Promises.{HasUniqueSolutions, RightAnswersAreSolutions};
ghost use Rattle.hall_desk.specs.Plan.{planned_reply, planned_change};
ghost use Rattle.hall_desk.specs.Plans.{Planned, IsStepOver, Seeds, Runs, FailsIn, IsNobodys, AreNobodys, IsAvailable};
ghost use Rattle.hall_desk.specs.Wanted.{MayWait};
ghost use Rattle.hall_desk.specs.declared.prepared.Prepared.TheVariants as Prepared;
ghost use Rattle.hall_desk.specs.Plans.{IsQuietPlan, IsSeedReply, AreStepped, NobodysAreAnswered, WritesIfAny};
ghost use Rattle.hall_desk.specs.Plans.{StopsWithin, StopsInSeed, LeavesRun, SeedCanFail};
ghost use Rattle.hall_desk.specs.Together.{IsPlanBeside};

use crate::census::Census;
use crate::copies::Copies;
use crate::memos::{self, Memos};
use crate::plan::Plan;
use crate::planning::make_plan;
use crate::prepared::Prepared;
use crate::preparing::prepare;
use crate::reply::Reply;
use crate::seed::seed;
use crate::serving::still_serves;
use crate::step::{make, run, step};
use crate::together::plan_beside;
use crate::under_way::Searches;
use crate::{round_copy, table_copy, tabling};
use hall_policy::{Moment, People, Request};
use hall_store::{Change, JointAnswers, ReadStore, Store, StoreFault};
use std::alloc::{AllocError, Global};
use std::marker::Model;

/// What answers requests to the hall, one after another, over the world of its store; a contract sees the store.
///
/// It keeps copies of the tables that it made last and of the round that was read last, until what they tell of is
/// changed, the table, the listing and the searches that requests wait for, and what these found last.
#[derive(Drop)]
pub struct Desk<S: ReadStore> {
    store: S,
    copies: Copies,
    memos: Option<Memos>,
    searches: Option<Searches>,
    /// The last write that was to be made failed, and not for memory.
    refuses_writes: bool,
}

impl<S: ReadStore> Model for Desk<S> {
    ghost use Rattle.hall_desk.specs.Copies.{AreCopied};

    ghost Value = { S };

    ghost view = { λ d. d.store };

    ghost invariant = { λ d. AreCopied (S.content d.store) d.copies };
}

impl<S: ReadStore> Desk<S> {
    /// A desk over the store.
    pub fn new(store: S) -> Desk<S>
        ensures { kept_by result ≡ store }
    {
        Desk {
            store,
            copies: Copies::none(),
            memos: None,
            searches: None,
            refuses_writes: false,
        }
    }

    /// The store that it keeps.
    pub fn into_store(self) -> S
        ensures { result ≡ kept_by self }
    {
        self.store
    }

    /// What the request will be answered, and what it will change. Reads only, and for a request without a key, other
    /// than for a table, not even that. Unless out of memory, it fails only over a store that can, or where the world
    /// isn't sane. What is certified is searched here, unless what was kept last is of the same puzzle and budget.
    pub fn plan(&mut self, alloc: Global, t: Moment, request: &Request) -> Result<Plan, StoreFault>
        ensures kept { Kept (S.content (kept_by self.old)) (S.content (kept_by self.new)) }
        ensures untouched { IsNobodys request.now → kept_by self.new ≡ kept_by self.old }
        ensures keyless { IsNobodys request.now → IsQuietPlan result }
        ensures fault { FailsIn (S.content (kept_by self.old)) (S.content (kept_by self.new)) result }
        ensures planned { Planned (S.content (kept_by self.new)) t request.now result }
        ensures sane { IfOk result (λ plan. Asks (S.content (kept_by self.new))
            (λ world. Sane world → Sane (changed (planned_change plan) world))) }
    {
        // They are read for the ranges that their types keep.
        let _moment = t.get();
        request.in_range();
        let memo = memos::take(&mut self.memos, request);
        let plan = make_plan(alloc, &mut self.store, t, request, &mut self.copies, &memo);
        let _kept = memos::put(alloc, &mut self.memos, request, memo);
        plan
    }

    /// The plan for an answer after these answers, which aren't stored yet, if it may join them: none of them is of the
    /// same person. Reads only.
    pub fn plan_beside(
        &mut self,
        alloc: Global,
        joint: &JointAnswers,
        t: Moment,
        request: &Request,
    ) -> Result<Option<Plan>, StoreFault>
        ensures kept { Kept (S.content (kept_by self.old)) (S.content (kept_by self.new)) }
        ensures untouched { IsNobodys request.now → kept_by self.new ≡ kept_by self.old }
        ensures planned { IfOk result (λ found. IfSome found
            (IsPlanBeside (S.content (kept_by self.new)) t request.now joint.now)) }
    {
        plan_beside(alloc, &mut self.store, joint, t, request)
    }

    /// Works for a while on what a plan of the request needs: it is to be answered now, or asked so again, or refused.
    /// An allowed Certify waits until its puzzle has been searched, some visits a time; one that wants the puzzle and
    /// budget of a search under way joins it. At most eight are, one for each key; others wait until one may begin. An
    /// allowed Table waits until the table is made, the answers of some people a time; of tables one is made at once,
    /// which a question about any other goes on with. So does an allowed Answers of a director or a referee, for the
    /// listing of all answers. No other request waits. Reads only, and of a stranger's request the caller alone.
    pub fn prepare(&mut self, alloc: Global, request: &Request) -> Prepared
        ensures kept { Kept (S.content (kept_by self.old)) (S.content (kept_by self.new)) }
        ensures untouched { IsNobodys request.now → kept_by self.new ≡ kept_by self.old }
        ensures waits { result ≡ Prepared.Waits → MayWait (S.content (kept_by self.new)) request.now }
    {
        let mut memo = memos::take(&mut self.memos, request);
        let prepared = prepare(
            alloc,
            &mut self.store,
            request,
            &mut self.copies,
            &mut self.searches,
            &mut memo,
        );
        match memos::put(alloc, &mut self.memos, request, memo) {
            Ok(()) => prepared,
            Err(_) => Prepared::Refused,
        }
    }

    /// Whether the last write that was to be made failed, and not for memory, as on a full device. No clause speaks of
    /// it.
    pub fn refuses_writes(&self) -> bool {
        self.refuses_writes
    }

    /// How many people and rounds the hall knows. Unless out of memory, it fails only over a store that can.
    pub fn census(&mut self, alloc: Global) -> Result<Census, StoreFault>
        ensures kept { Kept (S.content (kept_by self.old)) (S.content (kept_by self.new)) }
        ensures served { Served (S.content (kept_by self.new)) result (λ world census. census ≡ census_of world) }
        ensures fault { Fails (CanFailIn (S.content (kept_by self.old)) (S.content (kept_by self.new))) result }
    {
        Census::of(alloc, &mut self.store)
    }

    /// Tells a proof that a stop between two calls leaves the world of the store.
    pub fn at_rest(&self)
        ensures { IsSettled (S.content (kept_by self.now)) }
    {
        self.store.at_rest();
    }

    /// Whether the store still serves, as a look-up of one person tells: it says no only over a store that can fail.
    pub fn still_serves(&mut self, alloc: Global) -> Result<bool, AllocError>
        ensures kept { Kept (S.content (kept_by self.old)) (S.content (kept_by self.new)) }
        ensures serves { IfOk result (λ yes. (S.content (kept_by self.new)).honest → IsTrue yes
            → (S.content (kept_by self.new)).serves) }
        ensures shut { IfOk result (λ yes. yes ≡ false → CanFailIn
            (S.content (kept_by self.old)) (S.content (kept_by self.new))) }
    {
        still_serves(alloc, &mut self.store)
    }
}

impl<S: Store> Desk<S> {
    /// Stores the answers by one write, all of them or none; and makes no write where there are none. Refused, it has
    /// left the world while the store serves. Unless out of memory, it is refused only by a store that can refuse this
    /// change.
    pub fn commit_all(&mut self, alloc: Global, joint: JointAnswers) -> Result<(), StoreFault>
        requires { Asks (S.content (kept_by self.old)) (CanMake (Change.AddAnswers joint)) }
        ensures leads { Leads (S.content (kept_by self.old)) (S.content (kept_by self.new)) }
        ensures once { WritesOnce (S.content (kept_by self.old)) (S.content (kept_by self.new)) }
        ensures stops { (S.content (kept_by self.old)).serves
            → LeavesOneOf (λ before left. left ≡ changed (Change.AddAnswers joint) before)
            (S.content (kept_by self.old)) (S.content (kept_by self.new)) }
        ensures made { (joint ≡ []) ⊎ MakesInWorld (Change.AddAnswers joint)
            (S.content (kept_by self.old)) (S.content (kept_by self.new)) result }
        ensures fault { Fails (CanRefuseIn (Change.AddAnswers joint)
            (S.content (kept_by self.old)) (S.content (kept_by self.new))) result }
        ensures nothing { joint ≡ [] → IsOk result × (kept_by self.new ≡ kept_by self.old) }
    {
        if joint.as_slice().is_empty() {
            return Ok(());
        }
        self.make(alloc, Change::AddAnswers(joint))
    }

    /// Makes the plan's change by one write at most, and answers its reply. Refused, it has consumed the plan and,
    /// while the store serves, left the world; a plan without a change is never refused, and makes no write. Unless
    /// out of memory, it is refused only by a store that can refuse this change.
    pub fn commit(&mut self, alloc: Global, plan: Plan) -> Result<Reply, StoreFault>
        requires { Asks (S.content (kept_by self.old)) (CanMake (planned_change plan)) }
        ensures leads { Leads (S.content (kept_by self.old)) (S.content (kept_by self.new)) }
        ensures once { WritesOnce (S.content (kept_by self.old)) (S.content (kept_by self.new)) }
        ensures stops { (S.content (kept_by self.old)).serves
            → LeavesOneOf (λ before left. left ≡ changed (planned_change plan) before)
            (S.content (kept_by self.old)) (S.content (kept_by self.new)) }
        ensures made { (planned_change plan ≡ Change.Nothing) ⊎ MakesInWorld (planned_change plan)
            (S.content (kept_by self.old)) (S.content (kept_by self.new)) result }
        ensures fault { Fails (CanRefuseIn (planned_change plan)
            (S.content (kept_by self.old)) (S.content (kept_by self.new))) result }
        ensures nothing { planned_change plan ≡ Change.Nothing → IsOk result × (kept_by self.new ≡ kept_by self.old) }
        ensures reply { IfOk result (λ reply. reply ≡ planned_reply plan) }
    {
        let Plan { reply, change, .. } = plan;
        self.make(alloc, change)?;
        Ok(reply)
    }

    /// Makes the change by one write, of nothing by none. It lets go the copies that the change may spoil, and notes
    /// whether writes are refused.
    fn make(&mut self, alloc: Global, change: Change) -> Result<(), StoreFault>
        requires { Asks (S.content (kept_by self.old)) (CanMake change) }
        ensures leads { Leads (S.content (kept_by self.old)) (S.content (kept_by self.new)) }
        ensures once { WritesOnce (S.content (kept_by self.old)) (S.content (kept_by self.new)) }
        ensures stops { (S.content (kept_by self.old)).serves
            → LeavesOneOf (λ before left. left ≡ changed change before)
            (S.content (kept_by self.old)) (S.content (kept_by self.new)) }
        ensures made { (change ≡ Change.Nothing)
            ⊎ MakesInWorld change (S.content (kept_by self.old)) (S.content (kept_by self.new)) result }
        ensures fault { Fails (CanRefuseIn change
            (S.content (kept_by self.old)) (S.content (kept_by self.new))) result }
        ensures nothing { change ≡ Change.Nothing → IsOk result × (kept_by self.new ≡ kept_by self.old) }
    {
        self.copies.tables = table_copy::left_by(&change, self.copies.tables.take());
        self.copies.round = round_copy::left_by(&change, self.copies.round.take());
        self.copies.tabling = tabling::left_by(&change, self.copies.tabling.take());
        self.copies.listings.leave(&change);
        let writes = is_change(&change);
        let made = make(alloc, &mut self.store, change);
        if writes {
            self.refuses_writes = match &made {
                Ok(()) => false,
                Err(StoreFault::Failed) => true,
                Err(StoreFault::Memory) => self.refuses_writes,
            };
        }
        made
    }

    /// Answers one request: a step of the hall. It makes at most one write, and none for a request that is denied,
    /// repeated or has nothing to write. A fault is `Reply::Unavailable`, which a request without a key, other than
    /// for a table, is never answered.
    pub fn step(&mut self, alloc: Global, t: Moment, request: &Request) -> Reply
        ensures leads { Leads (S.content (kept_by self.old)) (S.content (kept_by self.new)) }
        ensures once { WritesOnce (S.content (kept_by self.old)) (S.content (kept_by self.new)) }
        ensures steps { (S.content (kept_by self.new)).honest →
            IsStepOver (S.content (kept_by self.old)) t request.now result (S.content (kept_by self.new)) }
        ensures quiet { WritesIfAny (S.content (kept_by self.old)) t request.now (S.content (kept_by self.new)) }
        ensures stops { StopsWithin (S.content (kept_by self.old)) t request.now result
            (S.content (kept_by self.new)) }
        ensures settled { IsSettled (S.content (kept_by self.new)) }
        ensures answered { IsNobodys request.now → IsAvailable result }
        ensures untouched { IsNobodys request.now → kept_by self.new ≡ kept_by self.old }
        ensures sane { SaneThen Sane (S.content (kept_by self.old)) (S.content (kept_by self.new)) }
        ensures unique { SaneThen HasUniqueSolutions (S.content (kept_by self.old)) (S.content (kept_by self.new)) }
        ensures right { SaneThen RightAnswersAreSolutions (S.content (kept_by self.old))
            (S.content (kept_by self.new)) }
    {
        self.copies = Copies::none();
        step(alloc, &mut self.store, t, request)
    }

    /// Imports the people before any request: the rule on lists alone is asked. It answers `Reply::Import`, or
    /// `Reply::Denied` by that rule. It makes at most one write, and none where it denies. Refused, it has left the
    /// world while the store serves; unless out of memory, it fails only over a store that can fail a read of it or
    /// refuse the import.
    pub fn try_seed(&mut self, alloc: Global, people: &People) -> Result<Reply, StoreFault>
        ensures leads { Leads (S.content (kept_by self.old)) (S.content (kept_by self.new)) }
        ensures once { WritesOnce (S.content (kept_by self.old)) (S.content (kept_by self.new)) }
        ensures seeds { IfOk result (λ reply. (S.content (kept_by self.new)).honest →
            Seeds (S.content (kept_by self.old)) people.now reply (S.content (kept_by self.new))) }
        ensures answered { IfOk result IsSeedReply }
        ensures quiet { IfOk result (λ reply. reply ≡ Reply.Denied 20 →
            (S.content (kept_by self.new)).writes ≤ (S.content (kept_by self.old)).writes) }
        ensures left { OnErr result (KeptWorld (S.content (kept_by self.old)) (S.content (kept_by self.new))) }
        ensures stops { StopsInSeed (S.content (kept_by self.old)) people.now (S.content (kept_by self.new)) }
        ensures settled { IsSettled (S.content (kept_by self.new)) }
        ensures fault { Fails (SeedCanFail people.now
            (S.content (kept_by self.old)) (S.content (kept_by self.new))) result }
        ensures sane { SaneThen Sane (S.content (kept_by self.old)) (S.content (kept_by self.new)) }
    {
        self.copies = Copies::none();
        seed(alloc, &mut self.store, people)
    }

    /// Imports the people before any request, as `try_seed` does. A fault is `Reply::Unavailable`.
    pub fn seed(&mut self, alloc: Global, people: &People) -> Reply
        ensures leads { Leads (S.content (kept_by self.old)) (S.content (kept_by self.new)) }
        ensures once { WritesOnce (S.content (kept_by self.old)) (S.content (kept_by self.new)) }
        ensures seeds { (S.content (kept_by self.new)).honest →
            Seeds (S.content (kept_by self.old)) people.now result (S.content (kept_by self.new)) }
        ensures quiet { result ≡ Reply.Denied 20 →
            (S.content (kept_by self.new)).writes ≤ (S.content (kept_by self.old)).writes }
        ensures stops { StopsInSeed (S.content (kept_by self.old)) people.now (S.content (kept_by self.new)) }
        ensures settled { IsSettled (S.content (kept_by self.new)) }
        ensures sane { SaneThen Sane (S.content (kept_by self.old)) (S.content (kept_by self.new)) }
    {
        match self.try_seed(alloc, people) {
            Ok(reply) => reply,
            Err(_) => Reply::Unavailable,
        }
    }

    /// Answers the requests one after another: a run of the hall, by no more writes than there are requests. Each is
    /// a step over the store that the one before left, also where a fault has shut it. Room for all replies is made
    /// before the first request; refused there, nothing is done.
    pub fn run(
        &mut self,
        alloc: Global,
        requests: &[(Moment, Request)],
    ) -> Result<Vec<Reply>, AllocError>
        ensures leads { Leads (S.content (kept_by self.old)) (S.content (kept_by self.new)) }
        ensures few { (S.content (kept_by self.new)).writes
            ≤ (S.content (kept_by self.old)).writes + length requests.now }
        ensures runs { IfOk result (λ replies. (S.content (kept_by self.new)).honest →
            Runs (S.content (kept_by self.old)) requests.now replies.items (S.content (kept_by self.new))) }
        ensures left { IfOk result (λ replies. LeavesRun (S.content (kept_by self.old)) requests.now replies.items
            (S.content (kept_by self.new))) }
        ensures stepped { IfOk result (λ replies. AreStepped S.content (kept_by self.old) requests.now replies.items
            (kept_by self.new)) }
        ensures answered { IfOk result (λ replies. NobodysAreAnswered requests.now replies.items) }
        ensures untouched { AreNobodys requests.now → kept_by self.new ≡ kept_by self.old }
        ensures sane { SaneThen Sane (S.content (kept_by self.old)) (S.content (kept_by self.new)) }
        ensures unique { SaneThen HasUniqueSolutions (S.content (kept_by self.old)) (S.content (kept_by self.new)) }
        ensures right { SaneThen RightAnswersAreSolutions (S.content (kept_by self.old))
            (S.content (kept_by self.new)) }
        ensures refused { OnErr result (kept_by self.new ≡ kept_by self.old) }
    {
        self.copies = Copies::none();
        run(alloc, &mut self.store, requests)
    }
}

/// Whether there is something to write.
fn is_change(change: &Change) -> bool {
    match change {
        Change::Nothing => false,
        _ => true,
    }
}

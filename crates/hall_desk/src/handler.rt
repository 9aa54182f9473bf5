//! What the desk does for one action.
use crate::plan::Plan;
use crate::reply::Reply;
use hall_policy::{Action, Decision, Facts, Moment};
use hall_store::{ReadStore, StoreFault};
use std::alloc::{AllocError, Global};

/// An action with what it names: what its rules read, and what it answers and changes where it is allowed.
pub(crate) trait Handler {
    ghost use Rattle.std.specs.Prelude.{◌≡◌, IfOk, IfSome, IfNone};
    ghost use Rattle.hall_policy.specs.World.{World};
    ghost use Rattle.hall_policy.specs.Facts.{TrueUpTo, deciding, AreTrue};
    ghost use Rattle.hall_policy.specs.Implies.{Implies, IsAllowable, IsRepetition};
    ghost use Rattle.hall_policy.specs.Decided.{IsDecided, PassesUpTo};
    ghost use Rattle.hall_policy.specs.declared.request.Action.{Action};
    ghost use Rattle.hall_policy.specs.declared.rule.Decision.TheVariants.{Repeat};
    ghost use Rattle.hall_store.specs.Store.{Asks, Kept, Told};
    ghost use Rattle.hall_desk.specs.Plans.{IsMadePlan, FailsIn};
    ghost use Rattle.hall_desk.specs.Lookups.{IsThere};
    ghost use Rattle.hall_desk.specs.Step.{FirstReply};

    // The action.
    ghost action_of: { Self → Action };

    /// What is decided of the action, which the rules on the caller let pass. Facts are looked up one after another,
    /// and none behind a rule that decides.
    fn decision<S: ReadStore>(
        &self,
        alloc: Global,
        store: &mut S,
        t: Moment,
        action: &Action,
        facts: &mut Facts,
    ) -> Result<Decision, StoreFault>
        requires same { action.now ≡ action_of self.now }
        requires passed { PassesUpTo 3 facts.old action.now t }
        ensures kept { Kept (S.content store.old) (S.content store.new) }
        ensures fault { FailsIn (S.content store.old) (S.content store.new) result }
        ensures caller { facts.new.caller ≡ facts.old.caller }
        ensures implied { IfOk result (λ decision. Implies decision facts.new action.now) }
        ensures told { Told (S.content store.old) (S.content store.new) result
            (λ world decision. IsDecided world facts.new action.now t decision) };

    /// The reply that the same request got when it was first made; none where it repeats no other.
    fn first_reply(&self, facts: &Facts) -> Result<Option<Reply>, AllocError>
        ensures some { IfOk result (λ found. IfSome found (λ reply. (world : World) →
            IsRepetition facts.now (action_of self.now) →
            TrueUpTo (deciding (action_of self.now) Repeat) facts.now world (action_of self.now) →
            FirstReply world facts.now.caller (action_of self.now) reply)) }
        ensures none { IfOk result (λ found. IfNone found (¬ (IsRepetition facts.now (action_of self.now)))) };

    /// The plan of the action, which is allowed.
    fn plan<S: ReadStore>(
        &self,
        alloc: Global,
        store: &mut S,
        t: Moment,
        facts: &Facts,
    ) -> Result<Plan, StoreFault>
        requires allowed { IsAllowable facts.now (action_of self.now) }
        requires told { Asks (S.content store.old) (λ world. AreTrue facts.now world (action_of self.now)) }
        requires there { Asks (S.content store.old) (λ world. IsThere world facts.now.caller) }
        ensures kept { Kept (S.content store.old) (S.content store.new) }
        ensures fault { FailsIn (S.content store.old) (S.content store.new) result }
        ensures told { Told (S.content store.old) (S.content store.new) result
            (λ world plan. IsMadePlan world facts.now.caller (action_of self.now) t plan) };
}

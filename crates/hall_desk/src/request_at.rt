//! A request that is being answered, and what is known before anything is read.
ghost use Rattle.std.specs.Prelude.{◌≡◌, IfSome, IfNone, None};
ghost use Rattle.hall_policy.specs.Decided.{IsDecidedUpTo, PassesUpTo};
ghost use Rattle.hall_policy.specs.declared.rule.Decision.TheVariants.{Deny};

use crate::memo::Memo;
use hall_policy::{Action, Decision, Facts, Moment, Request, Rule, decide_up_to};
use std::alloc::Global;

/// A request that is being answered: at which moment, by which allocator, and with what a search found before.
#[derive(Clone, Copy)]
pub(crate) struct RequestAt<'a> {
    pub(crate) alloc: Global,
    pub(crate) t: Moment,
    pub(crate) request: &'a Request,
    pub(crate) memo: &'a Option<Memo>,
}

/// Facts that tell of nothing.
pub(crate) fn no_facts() -> Facts
    ensures { result.caller ≡ None }
{
    Facts {
        caller: None,
        author_is_there: false,
        puzzle: None,
        sheet_lacks: false,
        round: None,
        answer: None,
        protest: None,
        in_released: false,
        uncertified: false,
        open_protest: false,
        involved: false,
        count: 0,
        conflict: false,
    }
}

/// The number of the rule on the caller that forbids the action, if one does.
pub(crate) fn caller_rule(facts: &Facts, action: &Action, t: Moment) -> Option<u8>
    ensures some { IfSome result (λ rule. IsDecidedUpTo 3 facts.now action.now t (Deny rule)) }
    ensures none { IfNone result (PassesUpTo 3 facts.now action.now t) }
{
    match decide_up_to(facts, action, t, Rule::OtherAuthor) {
        Some(Decision::Deny(rule)) => Some(rule),
        Some(Decision::Repeat) | Some(Decision::Allow) => unreachable!(),
        None => None,
    }
}

//! Laws of the definitions, each the contract of a function that does nothing.
ghost use Rattle.hall_policy.specs.Laws.{DecisionsAgree, EntrantsDecidedAlike};

/// A request has one decision; for a caller who is an entrant alone it depends on the caller's answers and protests,
/// the people, the rounds and their sheets, and on no puzzle's text or state and nothing of others.
pub fn law_decisions()
    ensures one { DecisionsAgree }
    ensures entrants { EntrantsDecidedAlike }
{}

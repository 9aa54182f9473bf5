//! Laws of the definitions, each the contract of a function that does nothing.
ghost use Rattle.hall_score.specs.Laws.{TotalsAreRight, TotalsAreOne, TotalsKeepNoOrder};

/// Where a round has a puzzle and no two answers to one puzzle have one n, an entrant's total is the one number that
/// the rules give: what each puzzle gives by the answer that counts, the bonus, and the upheld protests; and the order
/// of the rows doesn't matter.
pub fn law_totals()
    ensures right { TotalsAreRight }
    ensures one { TotalsAreOne }
    ensures order { TotalsKeepNoOrder }
{}

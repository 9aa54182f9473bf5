//! Laws of the definitions, each the contract of a function that does nothing.
ghost use Rattle.hall_sheet.specs.Laws.{ClocksShowStarts, SeasonsAreRegular};

/// A start in a zone is the first moment at which the zone's clocks show it. Where they pass over it, it is told by the
/// clocks as they stood before the change. This is said of zones whose daylight saving time, if any, begins and ends in
/// each year, in the same order, within the year and well apart; as it does where it begins and ends on weekdays of two
/// months from February to November with a month or more between them.
pub fn law_zone()
    ensures shown { ClocksShowStarts }
    ensures regular { SeasonsAreRegular }
{}

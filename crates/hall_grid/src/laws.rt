//! Laws of the definitions, each the contract of a function that does nothing.
ghost use Rattle.hall_grid.specs.Laws.{SpellsOrHasFault, SpellsOnePuzzle, SpellsBoardsAlone, SpelledHasNoFault};
ghost use Rattle.hall_grid.specs.Laws.{HasOneFault, HasCanonicalText, CanonicalSpells, HasOneCanonicalText};

/// Each text spells one puzzle or has one fault, and each puzzle has one canonical text, which spells it.
pub fn law_texts()
    ensures spells_or_fault { SpellsOrHasFault }
    ensures one_puzzle { SpellsOnePuzzle }
    ensures boards { SpellsBoardsAlone }
    ensures no_fault { SpelledHasNoFault }
    ensures one_fault { HasOneFault }
    ensures has_canonical_text { HasCanonicalText }
    ensures canonical_spells { CanonicalSpells }
    ensures one_canonical_text { HasOneCanonicalText }
{}

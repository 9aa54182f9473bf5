//! A sentence is asked of each row of a table.
ghost use Rattle.std.specs.Prelude.{◌≡◌, ◌++◌, ◌∷◌, ◌↔◌, ◌<◌, ◌≤◌, ◌+◌, [], length, IsTrue, IfOk, OnOk, List};
ghost use Rattle.hall_policy.specs.World.{World};
ghost use Rattle.hall_check.specs.Asking.{CanAsk, asked_world};
ghost use Rattle.hall_check.specs.Finds.{Finds, IsNotedIn, IsBreachTold};
ghost use Rattle.hall_check.specs.declared.sentence.Sentence.{Sentence as Saying};

use crate::counts::Asking;
use crate::sentence::{Breaches, Sentence, Spot, Spotted};
use std::alloc::AllocError;

/// The most places that are named of one sentence.
const MOST_NAMED: usize = 20;

/// A row of which sentences are asked.
pub(crate) trait Asked {
    // What a sentence says of the row, in a world.
    ghost says: { World → Saying → Self → Type 0 };

    /// Whether the sentence is true of the row.
    fn is_true(&self, asking: &Asking, sentence: Sentence) -> Result<bool, AllocError>
        ensures { IfOk result (λ told. CanAsk asking.now
            → IsTrue told ↔ says (asked_world asking.now) sentence self.now) };
}

/// The sentence is asked of each row.
pub(crate) fn ask_each<T: Spotted + Asked>(
    asking: &Asking,
    sentence: Sentence,
    rows: &[T],
) -> Result<Breaches, AllocError>
    ensures sentence { IfOk result (λ found. found.sentence ≡ sentence) }
    ensures finds { IfOk result (λ found. CanAsk asking.now
        → Finds (T.says (asked_world asking.now) sentence) T.spot_of rows.now found) }
{
    let mut found = Breaches {
        sentence,
        first: Vec::new(asking.alloc),
        count: 0,
    };
    for row in rows {
        tell(asking, row, &mut found)?;
    }
    Ok(found)
}

/// Counts and names the row, where the sentence is false of it.
fn tell<T: Spotted + Asked>(
    asking: &Asking,
    row: &T,
    found: &mut Breaches,
) -> Result<(), AllocError>
    requires { found.old.count < usize.MAX }
    ensures sentence { OnOk result (found.new.sentence ≡ found.old.sentence) }
    ensures few { OnOk result (found.new.count ≤ found.old.count + 1) }
    ensures told { OnOk result (CanAsk asking.now
        → IsBreachTold (T.says (asked_world asking.now) found.old.sentence row.now) (T.spot_of row.now)
        found.old found.new) }
{
    if row.is_true(asking, found.sentence)? {
        return Ok(());
    }
    found.count += 1;
    note(&mut found.first, row)
}

/// Names the row's place, where few are named yet.
pub(crate) fn note<T: Spotted>(first: &mut Vec<Spot>, row: &T) -> Result<(), AllocError>
    ensures { OnOk result (IsNotedIn first.old.items first.new.items (T.spot_of row.now)) }
{
    if first.len() < MOST_NAMED {
        first.push(row.spot()?)?;
    }
    Ok(())
}

/// Puts the item at the end, in a function of its own, so that its callers let go of no value but their own.
pub(crate) fn push<T: Drop>(items: &mut Vec<T>, item: T) -> Result<(), AllocError>
    ensures { OnOk result (items.new.items ≡ items.old.items ++ item ∷ []) }
{
    items.push(item)?;
    Ok(())
}

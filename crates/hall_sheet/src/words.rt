//! Texts of a kind.
ghost use Rattle.std.specs.Prelude.{◌≡◌, Ok};
ghost use Rattle.hall_policy.specs.Reading.{of_kind};
ghost use Rattle.hall_sheet.specs.Given.{Gives};

use crate::fault::{Refusal, SheetFault};
use hall_policy::{Checked, TextKind};
use std::alloc::Global;

/// The text, or the refusal where it isn't of the kind.
pub(crate) fn checked<K: TextKind>(
    alloc: Global,
    text: &str,
    refusal: Refusal,
) -> Result<Checked<K>, SheetFault>
    ensures { Gives (λ t. t) result (of_kind refusal K.LEAST K.MOST K.allows text.now) }
{
    let owned = String::from_str(alloc, text)?;
    match Checked::new(owned) {
        Some(checked) => Ok(checked),
        None => Err(SheetFault::Refused(refusal)),
    }
}

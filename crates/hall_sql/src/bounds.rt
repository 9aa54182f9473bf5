//! The texts between which SQL looks for names.
ghost use Rattle.std.specs.Prelude.{◌≡◌};
ghost use Rattle.hall_sql.specs.Bounds.{text_before, text_up_to};

use hall_policy::Name;

/// The name, or, where none is given, the empty text, which comes before all names.
pub(crate) fn text_before(after: &Option<Name>) -> &str
    ensures { result.now ≡ text_before after.now }
{
    match after {
        Some(name) => name.as_str(),
        None => "",
    }
}

/// The name, or, where none is given, the shortest text that comes after all names: the byte behind `z`.
pub(crate) fn text_up_to(last: &Option<Name>) -> &str
    ensures { result.now ≡ text_up_to last.now }
{
    match last {
        Some(name) => name.as_str(),
        None => "{",
    }
}

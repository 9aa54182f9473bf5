//! A row among others, found by halves where these stand in order.
ghost use Rattle.std.specs.Prelude.{◌≡◌, IsTrue, option_copied, find};
ghost use Rattle.std.specs.Fn.{ComputesKey};
ghost use Rattle.std.specs.Ordering.{is_eq};
ghost use Rattle.std.specs.declared.cmp.Ordering.{Ordering as Order};
ghost use Rattle.hall_check.specs.Halves.{IsDivided};

use std::cmp::Ordering;

/// The first row that ties, looked for by halves where the rows are said to stand in order.
pub(crate) fn find_by<'a, T, F: Fn(&T) -> Ordering>(
    rows: &'a [T],
    in_order: bool,
    compare: F,
) -> Option<&'a T>
    requires { F.IsAlwaysCallable compare }
    ensures { (order : T → Order) → ComputesKey F.FnMut order compare → (IsTrue in_order → IsDivided order rows.now)
        → option_copied result ≡ find (λ row. is_eq (order row)) rows.now }
{
    if !in_order {
        return find_first(rows, compare);
    }
    match rows.binary_search_by(compare) {
        Ok(at) => Some(&rows[at]),
        Err(_) => None,
    }
}

/// The first row that ties, looked for from the front.
fn find_first<'a, T, F: Fn(&T) -> Ordering>(rows: &'a [T], compare: F) -> Option<&'a T>
    requires { F.IsAlwaysCallable compare }
    ensures { (order : T → Order) → ComputesKey F.FnMut order compare
        → option_copied result ≡ find (λ row. is_eq (order row)) rows.now }
{
    for row in rows {
        if compare(row).is_eq() {
            return Some(row);
        }
    }
    None
}

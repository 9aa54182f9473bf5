//! The text of a table.
ghost use Rattle.std.specs.Prelude.{◌≡◌, IfOk};
ghost use Rattle.std.specs.String.{string_bytes};
ghost use Rattle.hall_score.specs.Table.{line_bytes, IsTable};

use crate::ranking::{Line, standings};
use hall_policy::Name;
use std::alloc::{AllocError, Global};

fn line_text(alloc: Global, line: &Line) -> Result<String, AllocError>
    ensures { IfOk result (λ text. string_bytes text ≡ line_bytes line.now) }
{
    format!(in alloc;
        "{:>4} {:<24} {:>8}\n",
        line.rank,
        line.name.as_str(),
        line.total
    )
}

/// The table of these totals, a line for each entrant, as `standings` has them: the rank right in 4 places, a space,
/// the name left in 24, a space, the total right in 8, a line feed. A longer number stands whole. The error is want of
/// memory.
pub fn table_text(alloc: Global, totals: &[(Name, i64)]) -> Result<String, AllocError>
    ensures { IfOk result (λ text. IsTable totals.now (string_bytes text)) }
{
    let mut text = String::new(alloc);
    for line in &standings(alloc, totals)? {
        text.push_str(line_text(alloc, line)?.as_str())?;
    }
    Ok(text)
}

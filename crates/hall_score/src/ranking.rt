//! The lines of a table, ranked.
ghost use Rattle.std.specs.Prelude.{◌≡◌, ◌+◌, ℕ, ℤ, List, map, IfOk, count_by, int_lt};
ghost use Rattle.std.specs.List.Sorted.{IsSorted, IsPermutation};
ghost use Rattle.std.specs.Ordering.{int_cmp};
ghost use Rattle.hall_score.specs.Standings.{line_of, IsStandings};

use hall_policy::Name;
use std::alloc::{AllocError, Global};

/// A line of a table.
#[derive(Clone, PartialEq, Eq, PartialOrd, Ord, Drop)]
pub struct Line {
    /// 1 and the number of the greater totals.
    pub rank: u64,
    pub name: Name,
    pub total: i64,
}

/// The totals without their entrants, in rising order.
fn rising(alloc: Global, totals: &[(Name, i64)]) -> Result<Vec<i64>, AllocError>
    ensures moved { IfOk result (λ rising. IsPermutation (map (λ entrant. entrant.1) totals.now) rising.items) }
    ensures sorted { IfOk result (λ rising. IsSorted int_cmp rising.items) }
{
    let mut rising = Vec::with_capacity(alloc, totals.len())?;
    for entrant in totals {
        rising.push(entrant.1)?;
    }
    rising.sort()?;
    Ok(rising)
}

/// 1 and the number of the greater ones among these, which rise.
fn rank_of(rising: &[i64], total: i64) -> u64
    requires { IsSorted int_cmp rising.now }
    ensures { result ≡ 1 + count_by (λ other. int_lt total other) rising.now }
{
    let greater = rising.len() - rising.partition_point(|other| !(*other > total));
    1 + greater as u64
}

/// The line of an entrant.
fn line_of(rising: &[i64], entrant: &(Name, i64)) -> Result<Line, AllocError>
    requires { IsSorted int_cmp rising.now }
    ensures { IfOk result (λ line. (totals : List (List ℕ × ℤ)) →
        IsPermutation (map (λ other. other.1) totals) rising.now → line ≡ line_of totals entrant.now) }
{
    Ok(Line {
        rank: rank_of(rising, entrant.1),
        name: entrant.0.clone()?,
        total: entrant.1,
    })
}

/// The lines in the order of the totals.
fn lines_of(alloc: Global, totals: &[(Name, i64)], rising: &[i64]) -> Result<Vec<Line>, AllocError>
    requires sorted { IsSorted int_cmp rising.now }
    requires moved { IsPermutation (map (λ entrant. entrant.1) totals.now) rising.now }
    ensures { IfOk result (λ lines. lines.items ≡ map (line_of totals.now) totals.now) }
{
    let mut lines = Vec::with_capacity(alloc, totals.len())?;
    for entrant in totals {
        lines.push(line_of(rising, entrant)?)?;
    }
    Ok(lines)
}

/// The lines of the table of these totals, one for each entrant: by rank, and entrants of one rank by name, byte by
/// byte. The error means out of memory.
pub fn standings(alloc: Global, totals: &[(Name, i64)]) -> Result<Vec<Line>, AllocError>
    ensures { IfOk result (λ lines. IsStandings totals.now lines.items) }
{
    let rising = rising(alloc, totals)?;
    let mut lines = lines_of(alloc, totals, rising.as_slice())?;
    lines.sort()?;
    Ok(lines)
}

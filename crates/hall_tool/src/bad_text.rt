//! The rows of a database that are no record, and its tables that take no more rows, as they are told.
ghost use Rattle.std.specs.Prelude.{◌≡◌, ◌++◌, IfOk, OnOk, string_bytes};
ghost use Rattle.std.specs.List.{flat_map};
ghost use Rattle.hall_tool.specs.BadText.{bad_lines, bad_table, bad_text, full_line, rest_line, row_line};
ghost use Rattle.hall_tool.specs.BadText.{table_name};

use hall_sql::{BadRows, HallTable};
use std::alloc::{AllocError, Global};

/// The most places that are told of one kind.
pub(crate) const MOST_TOLD: usize = 20;

/// The table's name in the database.
fn table_name(table: HallTable) -> &'static str
    ensures { result.now ≡ table_name table }
{
    match table {
        HallTable::People => "people",
        HallTable::Puzzles => "puzzles",
        HallTable::Rounds => "rounds",
        HallTable::Places => "round_puzzles",
        HallTable::Answers => "answers",
        HallTable::Protests => "protests",
        HallTable::Testers => "testers",
    }
}

/// One row that is no record, on a line.
fn push_row(text: &mut String, table: HallTable, rowid: i64) -> Result<(), AllocError>
    ensures { OnOk result (string_bytes text.new ≡ string_bytes text.old ++ row_line table rowid) }
{
    let name = table_name(table);
    write!(text, "broken: a row is no record: {name} rowid={rowid}\n")
}

/// How many more rows of the table are none, on a line, if any.
fn push_rest(text: &mut String, table: HallTable, rest: usize) -> Result<(), AllocError>
    ensures { OnOk result (string_bytes text.new ≡ string_bytes text.old ++ rest_line table rest) }
{
    if rest == 0 {
        return Ok(());
    }
    let name = table_name(table);
    write!(text, "broken: and {rest} more rows are no record: {name}\n")
}

/// The row after which none can be added, on a line, if there is one.
fn push_full(text: &mut String, table: HallTable, is_full: bool) -> Result<(), AllocError>
    ensures { OnOk result (string_bytes text.new ≡ string_bytes text.old ++ full_line table is_full) }
{
    if !is_full {
        return Ok(());
    }
    let name = table_name(table);
    write!(
        text,
        "broken: no row can be added after this one: {name} rowid=9223372036854775807\n"
    )
}

/// Rows of the table that are no record, a line for each.
fn push_rows(text: &mut String, table: HallTable, rowids: &[i64]) -> Result<(), AllocError>
    ensures { OnOk result (string_bytes text.new ≡ string_bytes text.old ++ flat_map (row_line table) rowids.now) }
{
    for rowid in rowids {
        push_row(text, table, *rowid)?;
    }
    Ok(())
}

/// The rows of a table that are no record, a line for each: the first, and how many more.
fn push_bad(text: &mut String, bad: &BadRows) -> Result<(), AllocError>
    ensures { OnOk result (string_bytes text.new ≡ string_bytes text.old ++ bad_lines bad.now) }
{
    let told = MOST_TOLD.min(bad.rowids.len());
    push_rows(text, bad.table, &bad.rowids[..told])?;
    push_rest(text, bad.table, bad.rowids.len() - told)
}

/// What is told of a table: these rows, and the one after which none can be added.
fn push_table(text: &mut String, bad: &BadRows) -> Result<(), AllocError>
    ensures { OnOk result (string_bytes text.new ≡ string_bytes text.old ++ bad_table bad.now) }
{
    push_bad(text, bad)?;
    push_full(text, bad.table, bad.is_full)
}

/// What is told of the tables, one by one.
pub(crate) fn bad_text(alloc: Global, bad: &[BadRows]) -> Result<String, AllocError>
    ensures { IfOk result (λ text. string_bytes text ≡ bad_text bad.now) }
{
    let mut text = String::new(alloc);
    for rows in bad {
        push_table(&mut text, rows)?;
    }
    Ok(text)
}

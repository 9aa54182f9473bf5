//! The fields of a table of TOML.
ghost use Rattle.std.specs.Prelude.{◌≡◌, option_map, option_and_then, map, OnOk, [], ◌∷◌, ◌++◌};
ghost use Rattle.std.specs.List.{list_any};
ghost use Rattle.std.specs.Str.{bytes_eq};
ghost use Rattle.toml.specs.Data.{as_str, as_table};
ghost use Rattle.toml.specs.View.{view, items_view, table_view};
ghost use Rattle.hall_policy.specs.Reading.{or_fault};
ghost use Rattle.hall_sheet.specs.Fault.{field_name};
ghost use Rattle.hall_sheet.specs.Given.{Gives};
ghost use Rattle.hall_sheet.specs.declared.fault.Refusal.TheVariants.{Missing};
ghost use Rattle.hall_sheet.specs.Table.{has_only, value_at, text_at, integer_at, in_range, number_field};
ghost use Rattle.hall_sheet.specs.Table.{text_field, items_at, each_as, tables_field, texts_field};

use crate::fault::{Field, Refusal, SheetFault};
use crate::words::checked;
use hall_policy::{Checked, TextKind, Within};
use std::alloc::{AllocError, Global};
use toml::{Table, Value};

/// Whether the key is the name of one of these fields.
fn is_listed(fields: &[Field], key: &str) -> bool
    ensures { result ≡ list_any (λ f. bytes_eq (field_name f) key.now) fields.now }
{
    fields.iter().any(|field| field.name() == key)
}

/// Whether each key of the table is the name of one of these fields.
pub(crate) fn has_only(table: &Table, fields: &[Field]) -> bool
    ensures { result ≡ has_only fields.now (table_view table.now) }
{
    table.keys().all(|key| is_listed(fields, key.as_str()))
}

/// What stands at a field.
fn value_at(table: &Table, field: Field) -> Option<&Value>
    ensures { option_map (λ v. view v.now) result ≡ value_at field (table_view table.now) }
{
    table.get(field.name())
}

/// The text that a field is.
pub(crate) fn text_at(table: &Table, field: Field) -> Result<&str, SheetFault>
    ensures { Gives (λ t. t.now) result (text_at field (table_view table.now)) }
{
    let missing = SheetFault::Refused(Refusal::Missing(field));
    match value_at(table, field) {
        Some(value) => value.as_str().ok_or(missing),
        None => Err(missing),
    }
}

/// The integer that a field is.
fn integer_at(table: &Table, field: Field) -> Result<i64, SheetFault>
    ensures { Gives (λ n. n) result (integer_at field (table_view table.now)) }
{
    let missing = SheetFault::Refused(Refusal::Missing(field));
    match value_at(table, field) {
        Some(value) => value.as_integer().ok_or(missing),
        None => Err(missing),
    }
}

/// The number in its range, or the field's refusal.
pub(crate) fn in_range<const LEAST: u64, const MOST: u64>(
    integer: i64,
    field: Field,
) -> Result<Within<LEAST, MOST>, SheetFault>
    ensures { Gives (λ n. n) result (in_range field LEAST MOST integer) }
{
    let outside = SheetFault::Refused(Refusal::Range(field));
    let Ok(value) = u64::try_from(integer) else {
        return Err(outside);
    };
    Within::new(value).ok_or(outside)
}

/// A field that is an integer in a range.
pub(crate) fn read_number<const LEAST: u64, const MOST: u64>(
    table: &Table,
    field: Field,
) -> Result<Within<LEAST, MOST>, SheetFault>
    ensures { Gives (λ n. n) result (number_field field LEAST MOST (table_view table.now)) }
{
    in_range(integer_at(table, field)?, field)
}

/// A field that is a text of a kind.
pub(crate) fn read_text<K: TextKind>(
    alloc: Global,
    table: &Table,
    field: Field,
) -> Result<Checked<K>, SheetFault>
    ensures { Gives (λ t. t) result (text_field field K.LEAST K.MOST K.allows (table_view table.now)) }
{
    checked(alloc, text_at(table, field)?, Refusal::Range(field))
}

/// Puts the item at the end.
pub(crate) fn push<T: Drop>(items: &mut Vec<T>, item: T) -> Result<(), AllocError>
    ensures { OnOk result (items.new.items ≡ items.old.items ++ item ∷ []) }
{
    items.push(item)?;
    Ok(())
}

/// The values of the array that a field is.
fn values_at(table: &Table, field: Field) -> Result<&[Value], SheetFault>
    ensures { Gives (λ values. items_view values.now) result (items_at field (table_view table.now)) }
{
    let missing = SheetFault::Refused(Refusal::Missing(field));
    match value_at(table, field) {
        Some(value) => match value.as_array() {
            Some(values) => Ok(values.as_slice()),
            None => Err(missing),
        },
        None => Err(missing),
    }
}

/// The tables that the values of a field are, where each of them is one.
fn tables_of(alloc: Global, values: &[Value], field: Field) -> Result<Vec<&Table>, SheetFault>
    ensures { Gives (λ tables. map (λ t. table_view t.now) tables.items) result
        (or_fault (Missing field) (each_as as_table (items_view values.now))) }
{
    let mut tables = Vec::with_capacity(alloc, values.len())?;
    for value in values {
        let Some(table) = value.as_table() else {
            return Err(SheetFault::Refused(Refusal::Missing(field)));
        };
        push(&mut tables, table)?;
    }
    Ok(tables)
}

/// The tables that a field is, where it is an array of tables.
pub(crate) fn read_tables(
    alloc: Global,
    table: &Table,
    field: Field,
) -> Result<Vec<&Table>, SheetFault>
    ensures { Gives (λ tables. map (λ t. table_view t.now) tables.items) result
        (tables_field field (table_view table.now)) }
{
    tables_of(alloc, values_at(table, field)?, field)
}

/// The texts that the values of a field are, where each of them is one.
fn texts_of(alloc: Global, values: &[Value], field: Field) -> Result<Vec<&str>, SheetFault>
    ensures { Gives (λ texts. map (λ t. t.now) texts.items) result
        (or_fault (Missing field) (each_as as_str (items_view values.now))) }
{
    let mut texts = Vec::with_capacity(alloc, values.len())?;
    for value in values {
        let Some(text) = value.as_str() else {
            return Err(SheetFault::Refused(Refusal::Missing(field)));
        };
        push(&mut texts, text)?;
    }
    Ok(texts)
}

/// The texts that a field is, where it is an array of texts.
pub(crate) fn read_texts(
    alloc: Global,
    table: &Table,
    field: Field,
) -> Result<Vec<&str>, SheetFault>
    ensures { Gives (λ texts. map (λ t. t.now) texts.items) result
        (texts_field field (table_view table.now)) }
{
    texts_of(alloc, values_at(table, field)?, field)
}

//! Whether a database has a hall's schema: its tables and indexes are compared with what the hall says of each.
ghost use Rattle.std.specs.Prelude.{◌≡◌, true, false, map, take, IsTrue, [], ◌∷◌, None};
ghost use Rattle.std.specs.List.{AllByRecursion, AllZip};
ghost use Rattle.sqlite_value.specs.Keys.{plain};
ghost use Rattle.hall_sql.specs.Tables.{column_of, lent_reference, lent_table, lent_index, table_at};
ghost use Rattle.hall_sql.specs.Tables.{AreLikeReferences, IsFoundIn, IsHallSchema, IsLikeReference, IsLikeTable};
ghost use Rattle.hall_sql.specs.Tables.{IsAnalyzed, IsNamedAmong, IsOldSchema, IsWanted};

use crate::tables::{ALL, HallTable, INDEXES, IndexForm, OLD, ReferenceForm, TableForm, form_of};
use sqlite_items::Items;
use sqlite_schema::schema::{Action, Column, Index, Kind, Reference, Schema, Table};
use sqlite_value::keys::{Collation, Order};
use sqlite_value::value::{Bytes, Value};

fn is_name(found: &Bytes, wanted: &str) -> bool
    ensures is { IsTrue result → found.now ≡ wanted.now }
    ensures only { found.now ≡ wanted.now → IsTrue result }
{
    found.as_slice() == wanted.as_bytes()
}

fn are_names(found: &[Bytes], wanted: &[&str]) -> bool
    ensures is { IsTrue result → found.now ≡ map (λ name. name.now) wanted.now }
    ensures only { found.now ≡ map (λ name. name.now) wanted.now → IsTrue result }
{
    let [name, rest @ ..] = found else {
        return wanted.is_empty();
    };
    let [form, others @ ..] = wanted else {
        return false;
    };
    is_name(name, form) && are_names(rest, others)
}

fn are_places(found: &Items<usize>, wanted: &[usize]) -> bool
    ensures is { IsTrue result → found.now ≡ wanted.now }
    ensures only { found.now ≡ wanted.now → IsTrue result }
{
    found.as_slice() == wanted
}

/// The keys refer to this table, with this action ON DELETE, at once.
fn refers_to(reference: &Reference, parent: &str, on_delete: Action) -> bool
    ensures parent { IsTrue result → reference.now.parent ≡ parent.now }
    ensures on_delete { IsTrue result → reference.now.on_delete ≡ on_delete }
    ensures at_once { IsTrue result → reference.now.is_deferred ≡ false }
    ensures only { reference.now.parent ≡ parent.now → reference.now.on_delete ≡ on_delete
        → reference.now.is_deferred ≡ false → IsTrue result }
{
    is_name(&reference.parent, parent) && reference.on_delete == on_delete && !reference.is_deferred
}

fn is_reference(reference: &Reference, form: &ReferenceForm) -> bool
    ensures is { IsTrue result → IsLikeReference (lent_reference form.now) reference.now }
    ensures only { IsLikeReference (lent_reference form.now) reference.now → IsTrue result }
{
    let (places, parent, parent_columns, on_delete) = *form;
    are_places(&reference.columns, places)
        && are_names(reference.parent_columns.as_slice(), parent_columns)
        && refers_to(reference, parent, on_delete)
}

/// The reference is one of these.
fn is_wanted(forms: &[ReferenceForm], reference: &Reference) -> bool
    ensures is { IsTrue result → IsWanted (map lent_reference forms.now) reference.now }
    ensures only { IsWanted (map lent_reference forms.now) reference.now → IsTrue result }
{
    let [form, others @ ..] = forms else {
        return false;
    };
    is_reference(reference, form) || is_wanted(others, reference)
}

fn are_wanted(forms: &[ReferenceForm], references: &[Reference]) -> bool
    ensures is { IsTrue result → AllByRecursion (IsWanted (map lent_reference forms.now)) references.now }
    ensures only { AllByRecursion (IsWanted (map lent_reference forms.now)) references.now → IsTrue result }
{
    let [reference, rest @ ..] = references else {
        return true;
    };
    is_wanted(forms, reference) && are_wanted(forms, rest)
}

/// One of the references is this.
fn is_found(references: &[Reference], form: &ReferenceForm) -> bool
    ensures is { IsTrue result → IsFoundIn references.now (lent_reference form.now) }
    ensures only { IsFoundIn references.now (lent_reference form.now) → IsTrue result }
{
    let [reference, rest @ ..] = references else {
        return false;
    };
    is_reference(reference, form) || is_found(rest, form)
}

fn are_found(references: &[Reference], forms: &[ReferenceForm]) -> bool
    ensures is { IsTrue result → AllByRecursion (IsFoundIn references.now) (map lent_reference forms.now) }
    ensures only { AllByRecursion (IsFoundIn references.now) (map lent_reference forms.now) → IsTrue result }
{
    let [form, others @ ..] = forms else {
        return true;
    };
    is_found(references, form) && are_found(references, others)
}

/// The references are these, in any order.
fn are_references(references: &[Reference], forms: &[ReferenceForm]) -> bool
    ensures is { IsTrue result → AreLikeReferences (map lent_reference forms.now) references.now }
    ensures only { AreLikeReferences (map lent_reference forms.now) references.now → IsTrue result }
{
    references.len() == forms.len() && are_wanted(forms, references) && are_found(references, forms)
}

/// The column has this name and kind, is NOT NULL in a STRICT table, and has nothing else.
fn is_column(column: &Column, name: &str, kind: Kind) -> bool
    ensures is { IsTrue result → column.now ≡ column_of name.now kind }
    ensures only { column.now ≡ column_of name.now kind → IsTrue result }
{
    let is_binary = matches!(column.collation, Collation::Binary);
    let has_no_default = matches!(column.default, Value::Null);
    column.name.as_slice() == name.as_bytes()
        && column.kind == kind
        && column.is_strict
        && column.not_null
        && has_no_default
        && is_binary
}

fn are_columns(columns: &[Column], forms: &[(&str, Kind)]) -> bool
    ensures is { IsTrue result → columns.now ≡ map (λ form. column_of form.0.now form.1) forms.now }
    ensures only { columns.now ≡ map (λ form. column_of form.0.now form.1) forms.now → IsTrue result }
{
    let [column, rest @ ..] = columns else {
        return forms.is_empty();
    };
    let [form, others @ ..] = forms else {
        return false;
    };
    is_column(column, form.0, form.1) && are_columns(rest, others)
}

fn are_keys(uniques: &[Items<usize>], keys: &[&[usize]]) -> bool
    ensures is { IsTrue result → uniques.now ≡ map (λ key. key.now) keys.now }
    ensures only { uniques.now ≡ map (λ key. key.now) keys.now → IsTrue result }
{
    let [unique, rest @ ..] = uniques else {
        return keys.is_empty();
    };
    let [key, others @ ..] = keys else {
        return false;
    };
    are_places(unique, key) && are_keys(rest, others)
}

/// Each key is ordered by its columns as they ascend.
fn are_plain(orders: &[Order], uniques: &[Items<usize>]) -> bool
    ensures is { IsTrue result → orders.now ≡ map (λ _. plain) uniques.now }
    ensures only { orders.now ≡ map (λ _. plain) uniques.now → IsTrue result }
{
    let [order, rest @ ..] = orders else {
        return uniques.is_empty();
    };
    let [_, others @ ..] = uniques else {
        return false;
    };
    order.digits == 0 && are_plain(rest, others)
}

/// The primary key comes first among the keys.
fn has_keys(table: &Table, primary: &[usize], further: &[&[usize]]) -> bool
    ensures primary { IsTrue result → table.now.primary ≡ primary.now }
    ensures uniques { IsTrue result → table.now.uniques ≡ primary.now ∷ map (λ key. key.now) further.now }
    ensures orders { IsTrue result → table.now.orders ≡ map (λ _. plain) table.now.uniques }
    ensures only { table.now.primary ≡ primary.now
        → table.now.uniques ≡ primary.now ∷ map (λ key. key.now) further.now
        → table.now.orders ≡ map (λ _. plain) table.now.uniques → IsTrue result }
{
    let [first, rest @ ..] = table.uniques.as_slice() else {
        return false;
    };
    are_places(&table.primary, primary)
        && are_places(first, primary)
        && are_keys(rest, further)
        && are_plain(table.orders.as_slice(), table.uniques.as_slice())
}

/// The table has no INTEGER PRIMARY KEY, CHECK, computed default or AUTOINCREMENT.
fn is_plain(table: &Table) -> bool
    ensures key { IsTrue result → table.now.key ≡ None }
    ensures checks { IsTrue result → table.now.checks ≡ [] }
    ensures computed { IsTrue result → table.now.computed ≡ [] }
    ensures stamps { IsTrue result → table.now.stamps ≡ record { places = []; terms = []; formats = [] } }
    ensures counted { IsTrue result → table.now.is_counted ≡ false }
    ensures only { table.now.key ≡ None → table.now.checks ≡ [] → table.now.computed ≡ []
        → table.now.stamps ≡ record { places = []; terms = []; formats = [] } → table.now.is_counted ≡ false
        → IsTrue result }
{
    table.key.is_none()
        && table.checks.roots.is_empty()
        && table.computed.is_empty()
        && table.stamps.places.is_empty()
        && table.stamps.terms.roots.is_empty()
        && table.stamps.formats.is_empty()
        && !table.is_counted
}

fn is_table(table: &Table, form: &TableForm) -> bool
    ensures is { IsTrue result → IsLikeTable (lent_table form.now) table.now }
    ensures only { IsLikeTable (lent_table form.now) table.now → IsTrue result }
{
    let (name, tree, columns, primary, further, references) = *form;
    is_name(&table.name, name)
        && table.tree == tree
        && are_columns(table.columns.as_slice(), columns)
        && has_keys(table, primary, further)
        && are_references(table.references.as_slice(), references)
        && is_plain(table)
}

fn are_tables(tables: &[Table], wanted: &[HallTable]) -> bool
    ensures is { IsTrue result → AllZip IsLikeTable (map table_at wanted.now) tables.now }
    ensures only { AllZip IsLikeTable (map table_at wanted.now) tables.now → IsTrue result }
{
    let [table, rest @ ..] = tables else {
        return wanted.is_empty();
    };
    let [one, others @ ..] = wanted else {
        return false;
    };
    is_table(table, &form_of(*one)) && are_tables(rest, others)
}

fn is_index(index: &Index, form: &IndexForm) -> bool
    ensures is { IsTrue result → index.now ≡ lent_index form.now }
    ensures only { index.now ≡ lent_index form.now → IsTrue result }
{
    let (name, tree, table, places) = *form;
    is_name(&index.name, name)
        && index.tree == tree
        && index.table == table
        && are_places(&index.columns, places)
        && index.order.digits == 0
        && index.is_unique
}

fn are_indexes(indexes: &[Index], forms: &[IndexForm]) -> bool
    ensures is { IsTrue result → indexes.now ≡ map lent_index forms.now }
    ensures only { indexes.now ≡ map lent_index forms.now → IsTrue result }
{
    let [index, rest @ ..] = indexes else {
        return forms.is_empty();
    };
    let [form, others @ ..] = forms else {
        return false;
    };
    is_index(index, form) && are_indexes(rest, others)
}

/// One of the tables has this name.
fn is_named_among(tables: &[Table], name: &str) -> bool
    ensures is { IsTrue result → IsNamedAmong tables.now name.now }
    ensures only { IsNamedAmong tables.now name.now → IsTrue result }
{
    let [table, rest @ ..] = tables else {
        return false;
    };
    is_name(&table.name, name) || is_named_among(rest, name)
}

/// The database has the table in which SQLite's `ANALYZE` keeps what it counted.
pub(crate) fn is_analyzed(schema: &Schema) -> bool
    ensures is { IsTrue result → IsAnalyzed schema.now }
    ensures only { IsAnalyzed schema.now → IsTrue result }
{
    is_named_among(schema.tables.as_slice(), "sqlite_stat1")
}

/// The database has tables like the hall's six of the version before, without testers, and their indexes, and nothing
/// else.
pub(crate) fn is_old_schema(schema: &Schema) -> bool
    ensures is { IsTrue result → IsOldSchema schema.now }
    ensures only { IsOldSchema schema.now → IsTrue result }
{
    are_tables(schema.tables.as_slice(), &OLD)
        && are_indexes(schema.indexes.as_slice(), &INDEXES[..8])
        && schema.views.is_empty()
}

/// The database has tables like the hall's seven and their indexes, and nothing else.
pub(crate) fn is_hall_schema(schema: &Schema) -> bool
    ensures is { IsTrue result → IsHallSchema schema.now }
    ensures only { IsHallSchema schema.now → IsTrue result }
{
    are_tables(schema.tables.as_slice(), &ALL)
        && are_indexes(schema.indexes.as_slice(), &INDEXES)
        && schema.views.is_empty()
}

//! Whether a database is the office's: one that has nothing yet, or the table `office` alone.
ghost use Rattle.std.specs.Prelude.{◌≡◌, ◌↔◌, IsTrue, List, [], ◌∷◌, ℕ, None, false};
ghost use Rattle.sqlite_value.specs.declared.value.Value.TheVariants.{Null};
ghost use Rattle.off_sqlcells.specs.Office.{no_schema, office_schema, IsOurs};
ghost use Rattle.off_sqlcells.specs.Office.{blob_column, office, key_index, by_bytes};

use sqlite_items::Items;
use sqlite_schema::code::Terms;
use sqlite_schema::schema::{Column, Index, Kind, Schema, Stamps, Table};
use sqlite_value::keys::{Collation, Order};
use sqlite_value::value::Value;

pub(crate) fn is_ours(schema: &Schema) -> bool
    ensures { IsTrue result ↔ IsOurs schema.now }
{
    is_empty(schema) || is_office_alone(schema)
}

fn is_empty(schema: &Schema) -> bool
    ensures { IsTrue result ↔ (schema.now ≡ no_schema) }
{
    schema.tables.is_empty() && schema.indexes.is_empty() && schema.views.is_empty()
}

fn is_office_alone(schema: &Schema) -> bool
    ensures { IsTrue result ↔ (schema.now ≡ office_schema) }
{
    is_one_table(&schema.tables) && is_one_index(&schema.indexes) && schema.views.is_empty()
}

fn is_one_table(tables: &Items<Table>) -> bool
    ensures { IsTrue result ↔ (tables.now ≡ office ∷ []) }
{
    match tables.as_slice() {
        [table] => is_office(table),
        _ => false,
    }
}

fn is_one_index(indexes: &Items<Index>) -> bool
    ensures { IsTrue result ↔ (indexes.now ≡ key_index ∷ []) }
{
    match indexes.as_slice() {
        [index] => is_key_index(index),
        _ => false,
    }
}

fn is_office(table: &Table) -> bool
    ensures { IsTrue result ↔ (table.now ≡ office) }
{
    is_named(table) && are_blobs(&table.columns) && has_key(table) && has_no_more(table)
}

fn is_named(table: &Table) -> bool
    ensures { IsTrue result ↔ ((table.now.name ≡ office.name) × (table.now.tree ≡ 0)) }
{
    table.name.as_slice() == b"office".as_slice() && table.tree == 0
}

fn are_blobs(columns: &Items<Column>) -> bool
    ensures { IsTrue result ↔ (columns.now ≡ office.columns) }
{
    match columns.as_slice() {
        [ident, val] => is_blob(ident, b"ident") && is_blob(val, b"val"),
        _ => false,
    }
}

fn is_blob(column: &Column, name: &[u8]) -> bool
    ensures { IsTrue result ↔ (column.now ≡ blob_column name.now) }
{
    column.name.as_slice() == name
        && column.kind == Kind::Blob
        && column.is_strict
        && column.not_null
        && is_null(&column.default)
        && column.collation == Collation::Binary
}

fn is_null(value: &Value) -> bool
    ensures { IsTrue result ↔ (value.now ≡ Null) }
{
    matches!(value, Value::Null)
}

// Whether the column `ident` is the key, and no INTEGER PRIMARY KEY.
fn has_key(table: &Table) -> bool
    ensures { IsTrue result ↔ ((table.now.key ≡ None) × (table.now.primary ≡ 1 ∷ [])
        × (table.now.uniques ≡ (1 ∷ []) ∷ []) × (table.now.orders ≡ by_bytes ∷ [])) }
{
    table.key.is_none()
        && is_ident(&table.primary)
        && is_ident_alone(&table.uniques)
        && is_by_bytes(&table.orders)
}

fn is_ident(places: &Items<usize>) -> bool
    ensures { IsTrue result ↔ (places.now ≡ 1 ∷ []) }
{
    match places.as_slice() {
        [place] => *place == 1,
        _ => false,
    }
}

fn is_ident_alone(keys: &Items<Items<usize>>) -> bool
    ensures { IsTrue result ↔ (keys.now ≡ (1 ∷ []) ∷ []) }
{
    match keys.as_slice() {
        [key] => is_ident(key),
        _ => false,
    }
}

fn is_by_bytes(orders: &Items<Order>) -> bool
    ensures { IsTrue result ↔ (orders.now ≡ by_bytes ∷ []) }
{
    match orders.as_slice() {
        [order] => order.digits == 0,
        _ => false,
    }
}

// Whether there are no checks, references and defaults, and no AUTOINCREMENT.
fn has_no_more(table: &Table) -> bool
    ensures { IsTrue result ↔ ((table.now.checks ≡ []) × (table.now.references ≡ [])
        × (table.now.computed ≡ []) × (table.now.stamps ≡ office.stamps)
        × (table.now.is_counted ≡ false)) }
{
    are_no_terms(&table.checks)
        && table.references.is_empty()
        && table.computed.is_empty()
        && are_no_stamps(&table.stamps)
        && !table.is_counted
}

fn are_no_stamps(stamps: &Stamps) -> bool
    ensures { IsTrue result ↔ (stamps.now ≡ office.stamps) }
{
    stamps.places.is_empty() && are_no_terms(&stamps.terms) && stamps.formats.is_empty()
}

fn are_no_terms(terms: &Terms) -> bool
    ensures { IsTrue result ↔ (terms.now ≡ []) }
{
    terms.roots.is_empty()
}

fn is_key_index(index: &Index) -> bool
    ensures { IsTrue result ↔ (index.now ≡ key_index) }
{
    index.name.as_slice() == b"sqlite_autoindex_office_1".as_slice()
        && index.tree == 1
        && index.table == 0
        && is_ident(&index.columns)
        && index.order.digits == 0
        && index.is_unique
}

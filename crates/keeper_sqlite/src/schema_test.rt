//! Whether a schema is empty, or has the one table and nothing else.
ghost use Rattle.std.specs.Prelude.{◌≡◌, ◌↔◌, ◌∷◌, [], IsTrue};
ghost use Rattle.keeper_sqlite.specs.Table.{HasKey, HasNoRules, column_of, no_schema, rows_index, rows_schema, rows_table};

use sqlite_schema::schema::{Column, Index, Kind, Schema, Table};
use sqlite_value::keys::Collation;
use sqlite_value::value::{Bytes, Value};

pub(crate) fn is_no_schema(schema: &Schema) -> bool
    ensures { IsTrue result ↔ schema.now ≡ no_schema }
{
    schema.tables.is_empty() && schema.indexes.is_empty() && schema.views.is_empty()
}

fn is_word(bytes: &Bytes, word: &str) -> bool
    ensures { IsTrue result ↔ bytes.now ≡ word.now }
{
    bytes.as_slice() == word.as_bytes()
}

/// Whether a key is that of the kind and the id.
fn is_key(places: &[usize]) -> bool
    ensures { IsTrue result ↔ places.now ≡ 1 ∷ 2 ∷ [] }
{
    let [kind, id] = places else {
        return false;
    };
    *kind == 1 && *id == 2
}

fn is_column(column: &Column, name: &str, kind: Kind) -> bool
    ensures { IsTrue result ↔ column.now ≡ column_of name.now kind }
{
    is_word(&column.name, name)
        && column.kind == kind
        && column.is_strict
        && column.not_null
        && matches!(column.default, Value::Null)
        && column.collation == Collation::Binary
}

fn are_columns(columns: &[Column]) -> bool
    ensures { IsTrue result ↔ columns.now ≡ rows_table.columns }
{
    let [kind, id, bytes] = columns else {
        return false;
    };
    is_column(kind, "kind", Kind::Integer)
        && is_column(id, "id", Kind::Integer)
        && is_column(bytes, "bytes", Kind::Blob)
}

fn has_key(table: &Table) -> bool
    ensures { IsTrue result ↔ HasKey table.now }
{
    let [unique] = table.uniques.as_slice() else {
        return false;
    };
    let [order] = table.orders.as_slice() else {
        return false;
    };
    table.key.is_none()
        && is_key(table.primary.as_slice())
        && is_key(unique.as_slice())
        && order.digits == 0
}

fn has_no_rules(table: &Table) -> bool
    ensures { IsTrue result ↔ HasNoRules table.now }
{
    table.checks.roots.is_empty()
        && table.references.is_empty()
        && table.computed.is_empty()
        && table.stamps.places.is_empty()
        && table.stamps.terms.roots.is_empty()
        && table.stamps.formats.is_empty()
        && !table.is_counted
}

fn is_rows_table(table: &Table) -> bool
    ensures { IsTrue result ↔ table.now ≡ rows_table }
{
    is_word(&table.name, "rows")
        && table.tree == 0
        && are_columns(table.columns.as_slice())
        && has_key(table)
        && has_no_rules(table)
}

fn is_rows_index(index: &Index) -> bool
    ensures { IsTrue result ↔ index.now ≡ rows_index }
{
    is_word(&index.name, "sqlite_autoindex_rows_1")
        && index.tree == 1
        && index.table == 0
        && is_key(index.columns.as_slice())
        && index.order.digits == 0
        && index.is_unique
}

/// Whether it has the one table, with the index of its key, and nothing else.
pub(crate) fn is_rows_schema(schema: &Schema) -> bool
    ensures { IsTrue result ↔ schema.now ≡ rows_schema }
{
    let [table] = schema.tables.as_slice() else {
        return false;
    };
    let [index] = schema.indexes.as_slice() else {
        return false;
    };
    schema.views.is_empty() && is_rows_table(table) && is_rows_index(index)
}

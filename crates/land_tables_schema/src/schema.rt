//! Recognizes the schema of a register.
ghost use Rattle.std.specs.Prelude.{◌≡◌, ◌↔◌, IsTrue, map};
ghost use Rattle.land_tables_schema.specs.Schemas.{IsSchemaV2, no_schema};
ghost use Rattle.land_tables_schema.specs.Shapes.{table_of};

use crate::columns::are_columns;
use crate::indexes::add_no_constraints;
use crate::keys::{are_rows, is_plain};
use crate::shape::TableShape;
use crate::tables::shapes;
use sqlite_schema::schema::{Schema, Table};

/// Returns whether a table has a shape.
fn is_table(table: &Table, shape: &TableShape<'_>) -> bool
    ensures { IsTrue result ↔ (table.now ≡ table_of shape.now) }
{
    table.name.as_slice() == shape.name.as_bytes()
        && table.tree == shape.tree
        && are_columns(table.columns.as_slice(), shape.columns)
        && are_rows(table, shape.rows)
        && is_plain(table)
}

/// Returns whether tables have these shapes, in this order, and no others exist.
pub(crate) fn are_tables(tables: &[Table], shapes: &[TableShape<'_>]) -> bool
    ensures { IsTrue result ↔ (tables.now ≡ map table_of shapes.now) }
{
    if tables.len() != shapes.len() {
        return false;
    }
    for at in 0..tables.len() {
        if !is_table(&tables[at], &shapes[at]) {
            return false;
        }
    }
    true
}

/// Returns whether a schema has exactly the register's tables, and no views. It may have any plain indexes,
/// and unique indexes only on the columns of a primary key.
pub fn is_schema_v2(schema: &Schema) -> bool
    ensures { IsTrue result ↔ IsSchemaV2 schema.now }
{
    are_tables(schema.tables.as_slice(), shapes())
        && add_no_constraints(schema.tables.as_slice(), schema.indexes.as_slice())
        && schema.views.is_empty()
}

/// Returns whether a schema is empty: no table, no index and no view.
pub fn is_empty(schema: &Schema) -> bool
    ensures { IsTrue result ↔ (schema.now ≡ no_schema) }
{
    schema.tables.is_empty() && schema.indexes.is_empty() && schema.views.is_empty()
}

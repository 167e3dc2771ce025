//! Checks columns against shapes.
ghost use Rattle.std.specs.Prelude.{◌≡◌, ◌↔◌, IsTrue, map};
ghost use Rattle.land_tables_schema.specs.Columns.{a_column};
ghost use Rattle.land_tables_schema.specs.Shapes.{column_of};

use crate::shape::ColumnShape;
use sqlite_schema::schema::{Column, Kind};
use sqlite_value::keys::Collation;
use sqlite_value::value::Value;

/// Returns whether a column has this name and type, no default, and is NOT NULL if `is_needed`.
fn is_field(column: &Column, name: &str, kind: Kind, is_needed: bool) -> bool
    ensures { IsTrue result ↔ (column.now ≡ a_column name.now kind is_needed) }
{
    column.name.as_slice() == name.as_bytes()
        && column.kind == kind
        && column.is_strict
        && column.not_null == is_needed
        && matches!(column.default, Value::Null)
        && column.collation == Collation::Binary
}

/// Returns whether a column has a shape.
fn is_column(column: &Column, shape: ColumnShape<'_>) -> bool
    ensures { IsTrue result ↔ (column.now ≡ column_of shape.entry) }
{
    match shape {
        ColumnShape::Number(name) => is_field(column, name, Kind::Integer, true),
        ColumnShape::Words(name) => is_field(column, name, Kind::Text, true),
        ColumnShape::OptionalNumber(name) => is_field(column, name, Kind::Integer, false),
        ColumnShape::OptionalWords(name) => is_field(column, name, Kind::Text, false),
    }
}

/// Returns whether columns have these shapes, in this order, and no others exist.
pub fn are_columns(columns: &[Column], shapes: &[ColumnShape<'_>]) -> bool
    ensures { IsTrue result ↔ (columns.now ≡ map column_of shapes.now) }
{
    if columns.len() != shapes.len() {
        return false;
    }
    for at in 0..columns.len() {
        if !is_column(&columns[at], shapes[at]) {
            return false;
        }
    }
    true
}

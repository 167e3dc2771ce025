//! Recognizes schema version 1, which has no table `mandate`.
ghost use Rattle.std.specs.Prelude.{◌↔◌, IsTrue};
ghost use Rattle.land_tables_schema.specs.Schemas.{IsSchemaV1, IsMigratable, MayBeRegisterSchema};

use crate::indexes::{
    add_no_constraints, are_apart, constrain_no_rows_of, has_last_key_index, precede_mandates,
};
use crate::schema::are_tables;
use crate::tables::v1_shapes;
use sqlite_schema::schema::Schema;

/// Returns whether a schema has exactly the tables of version 1, and no views. It may have any plain indexes,
/// and unique indexes only on the columns of a primary key.
pub fn is_schema_v1(schema: &Schema) -> bool
    ensures { IsTrue result ↔ IsSchemaV1 schema.now }
{
    are_tables(schema.tables.as_slice(), v1_shapes())
        && add_no_constraints(schema.tables.as_slice(), schema.indexes.as_slice())
        && schema.views.is_empty()
}

/// Returns whether a schema has the tables of version 1, at most one table after them, and no views. No index
/// on the tables of version 1 may reject more rows than their primary keys do.
pub fn may_be_register_schema(schema: &Schema) -> bool
    ensures { IsTrue result ↔ MayBeRegisterSchema schema.now }
{
    let tables = schema.tables.as_slice();
    if tables.len() != 11 && tables.len() != 12 {
        return false;
    }
    let first = &tables[..11];
    are_tables(first, v1_shapes())
        && constrain_no_rows_of(first, schema.indexes.as_slice())
        && schema.views.is_empty()
}

/// Returns whether a schema of version 1 can be migrated: once its plain indexes are dropped, the next table
/// gets the tree of `mandate`. So all its other indexes must lie before that tree.
pub fn can_migrate(schema: &Schema) -> bool
    ensures { IsTrue result ↔ IsMigratable schema.now }
{
    is_schema_v1(schema)
        && are_apart(schema.indexes.as_slice())
        && precede_mandates(schema.indexes.as_slice())
        && has_last_key_index(schema.indexes.as_slice())
}

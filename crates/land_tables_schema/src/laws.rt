//! Laws, each on definitions only.
ghost use Rattle.land_tables_schema.specs.Laws.{IndexLaw, SchemasLaw, TableTextsLaw, TextsLaw, VersionsLaw};

/// The CREATE TABLE statement of each table defines that table.
pub fn statements_define_tables()
    ensures { TableTextsLaw }
{}

/// Each statement is one CREATE. Run in order on an empty schema, they create the tables and the plain
/// indexes.
pub fn statements_create_schema()
    ensures { TextsLaw }
{}

/// A register's schema is determined except for its indexes. These may be any plain ones, and unique ones
/// only on the columns of a primary key.
pub fn plain_indexes_are_ignored()
    ensures { IndexLaw }
{}

/// The statements of version 1 create its schema, and its migration is the schema of a new register. If a
/// schema can be migrated, the DROP statements drop its plain indexes, and then the next tree is that of
/// `mandate`.
pub fn versions_differ_by_mandates()
    ensures { VersionsLaw }
{}

/// Each schema of a register, in version 1 or 2, passes the first check, and each that passes has the tables
/// of version 1.
pub fn schemas_are_recognized()
    ensures { SchemasLaw }
{}

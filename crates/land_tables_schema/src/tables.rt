//! The tables of the register, and the SQL statements that create them.

ghost use Rattle.std.specs.Prelude.{◌≡◌, map};
ghost use Rattle.land_tables_schema.specs.Laws.{drop_statements, index_statements, create_statements};
ghost use Rattle.land_tables_schema.specs.Schemas.{lookup_index_names};
ghost use Rattle.land_tables_schema.specs.Shapes.{table_of};
ghost use Rattle.land_tables_schema.specs.Tables.{v1_tables, land_tables};

use crate::shape::TableShape;

pub mod edition;
pub mod mandate;
pub mod member;
pub mod moments;
pub mod mutation;
pub mod names;
pub mod parcel;
pub mod party;
pub mod role;
pub mod rrr;
pub mod source;
pub mod unit;

/// The tables of the register, in the order of their creation: those of schema version 1, then `mandate`.
/// SQLite numbers trees in this order, so a table of a later version is created after them, and before the
/// plain indexes. VACUUM and .dump use the same order.
const TABLES: &[TableShape<'static>] = &[
    edition::SHAPE,
    moments::SHAPE,
    party::SHAPE,
    role::SHAPE,
    member::SHAPE,
    unit::SHAPE,
    parcel::SHAPE,
    rrr::SHAPE,
    source::SHAPE,
    mutation::SHAPE,
    names::SHAPE,
    mandate::SHAPE,
];

/// The SQL statements that create the tables, those of schema version 1 first, and then the plain indexes for
/// joins and lookups, that of `mandate` last. Run in order on an empty store, they create the whole schema.
pub const ALL_CREATES: [&str; 20] = [
    edition::CREATE,
    moments::CREATE,
    party::CREATE,
    role::CREATE,
    member::CREATE,
    unit::CREATE,
    parcel::CREATE,
    rrr::CREATE,
    source::CREATE,
    mutation::CREATE,
    names::CREATE,
    mandate::CREATE,
    rrr::INDEX_PARTY,
    rrr::INDEX_UNIT,
    parcel::INDEX_UNIT,
    member::INDEX_PARTY,
    names::INDEX_UNIT,
    mutation::INDEX_LODGER,
    role::INDEX_ROLE,
    mandate::INDEX_AGENT,
];

/// The SQL statements that drop the plain indexes of schema version 1, if they exist.
pub const ALL_DROPS: [&str; 7] = [
    "DROP INDEX IF EXISTS rrr_party",
    "DROP INDEX IF EXISTS rrr_unit",
    "DROP INDEX IF EXISTS parcel_unit",
    "DROP INDEX IF EXISTS member_party",
    "DROP INDEX IF EXISTS names_unit",
    "DROP INDEX IF EXISTS mutation_lodger",
    "DROP INDEX IF EXISTS role_role",
];

/// The names of the plain indexes of schema version 1.
pub const INDEX_NAMES: [&str; 7] = [
    "rrr_party",
    "rrr_unit",
    "parcel_unit",
    "member_party",
    "names_unit",
    "mutation_lodger",
    "role_role",
];

/// Returns the shapes of the tables, in the order of their creation.
pub fn shapes() -> &'static [TableShape<'static>]
    ensures { map table_of result.now ≡ land_tables }
{
    TABLES
}

/// Returns the shapes of the tables of schema version 1, in the order of their creation.
pub fn v1_shapes() -> &'static [TableShape<'static>]
    ensures { map table_of result.now ≡ v1_tables }
{
    &TABLES[..11]
}

/// Returns the SQL statements that create the tables and the indexes, in the order in which they run.
pub fn texts() -> &'static [&'static str]
    ensures { map (λ t. t.now) result.now ≡ create_statements }
{
    &ALL_CREATES
}

/// Returns the SQL statements that create the plain indexes, in the order in which they run.
pub fn index_statements() -> &'static [&'static str]
    ensures { map (λ t. t.now) result.now ≡ index_statements }
{
    &ALL_CREATES[12..]
}

/// Returns the SQL statements that drop the plain indexes of schema version 1.
pub fn drop_statements() -> &'static [&'static str]
    ensures { map (λ t. t.now) result.now ≡ drop_statements }
{
    &ALL_DROPS
}

/// The names of the plain indexes of schema version 1.
pub fn lookup_index_names() -> &'static [&'static str]
    ensures { map (λ t. t.now) result.now ≡ lookup_index_names }
{
    &INDEX_NAMES
}

//! Checks that the indexes of a schema reject no row that the primary keys of its tables allow.
ghost use Rattle.std.specs.List.{list_all, list_any};
ghost use Rattle.std.specs.Prelude.{◌≡◌};
ghost use Rattle.land_tables_schema.specs.Schemas.{are_indexes_apart, precedes_mandates, is_apart};
ghost use Rattle.land_tables_schema.specs.Schemas.{is_lookup_index};
ghost use Rattle.land_tables_schema.specs.Schemas.{is_key_of};
ghost use Rattle.land_tables_schema.specs.Schemas.{is_last_key_index, is_on, adds_no_constraint};
ghost use Rattle.land_tables_schema.specs.Schemas.{constrains_no_row_of};
ghost use Rattle.sqlite_schema.specs.Names.{same_name};

use crate::tables::{lookup_index_names, mandate};
use sqlite_schema::names::same_name;
use sqlite_schema::schema::{Index, Table};

/// Returns whether an index has the columns of a table's primary key.
fn is_key_of(index: &Index, table: &Table) -> bool
    ensures { result ≡ is_key_of index.now table.now }
{
    index.table == table.tree && index.columns.as_slice() == table.primary.as_slice()
}

/// Returns whether an index has the columns of the primary key of one of these tables.
fn is_key_index(tables: &[Table], index: &Index) -> bool
    ensures { result ≡ list_any (is_key_of index.now) tables.now }
{
    tables.iter().any(|table| is_key_of(index, table))
}

/// Returns whether an index rejects no row that the primary keys of these tables allow.
fn adds_no_constraint(tables: &[Table], index: &Index) -> bool
    ensures { result ≡ adds_no_constraint tables.now index.now }
{
    !index.is_unique || is_key_index(tables, index)
}

/// Returns whether no index rejects a row that the primary keys of these tables allow.
pub fn add_no_constraints(tables: &[Table], indexes: &[Index]) -> bool
    ensures { result ≡ list_all (adds_no_constraint tables.now) indexes.now }
{
    indexes
        .iter()
        .all(|index| adds_no_constraint(tables, index))
}

/// Returns whether an index is on one of these tables.
fn is_on(tables: &[Table], index: &Index) -> bool
    ensures { result ≡ is_on tables.now index.now }
{
    tables.iter().any(|table| index.table == table.tree)
}

/// Returns whether an index rejects no row of these tables that their primary keys allow.
fn constrains_no_row_of(tables: &[Table], index: &Index) -> bool
    ensures { result ≡ constrains_no_row_of tables.now index.now }
{
    !is_on(tables, index) || adds_no_constraint(tables, index)
}

/// Returns whether no index rejects a row of these tables that their primary keys allow.
pub fn constrain_no_rows_of(tables: &[Table], indexes: &[Index]) -> bool
    ensures { result ≡ list_all (constrains_no_row_of tables.now) indexes.now }
{
    indexes
        .iter()
        .all(|index| constrains_no_row_of(tables, index))
}

/// Returns whether an index has one of these names. SQLite compares names case-insensitively.
fn is_named(names: &[&str], index: &Index) -> bool
    ensures { result ≡ list_any (λ name. same_name index.now.name name.now) names.now }
{
    names
        .iter()
        .any(|name| same_name(index.name.as_slice(), name.as_bytes()))
}

/// Returns whether an index has the name of a plain index of schema version 1.
fn is_lookup_index(index: &Index) -> bool
    ensures { result ≡ is_lookup_index index.now }
{
    is_named(lookup_index_names(), index)
}

/// Returns whether two indexes have the same tree if and only if they have the same name.
fn is_apart(one: &Index, other: &Index) -> bool
    ensures { result ≡ is_apart one.now other.now }
{
    if same_name(other.name.as_slice(), one.name.as_slice()) {
        other.tree == one.tree
    } else {
        other.tree != one.tree
    }
}

/// Returns whether an index and each of these have the same tree if and only if they have the same name.
fn is_apart_from(one: &Index, indexes: &[Index]) -> bool
    ensures { result ≡ list_all (is_apart one.now) indexes.now }
{
    indexes.iter().all(|index| is_apart(one, index))
}

/// Returns whether the indexes differ by tree if and only if they differ by name.
pub fn are_apart(indexes: &[Index]) -> bool
    ensures { result ≡ are_indexes_apart indexes.now }
{
    indexes.iter().all(|index| is_apart_from(index, indexes))
}

/// Returns whether an index is a plain index of schema version 1, or its tree comes before that of `mandate`.
fn precedes_mandates(index: &Index) -> bool
    ensures { result ≡ precedes_mandates index.now }
{
    is_lookup_index(index) || index.tree < mandate::SHAPE.tree
}

/// Returns whether each index is a plain index of schema version 1, or its tree comes before that of
/// `mandate`.
pub fn precede_mandates(indexes: &[Index]) -> bool
    ensures { result ≡ list_all precedes_mandates indexes.now }
{
    indexes.iter().all(|index| precedes_mandates(index))
}

/// Returns whether an index is not a plain index of schema version 1, and its tree comes directly before that
/// of `mandate`.
fn is_last_key_index(index: &Index) -> bool
    ensures { result ≡ is_last_key_index index.now }
{
    !is_lookup_index(index) && index.tree == mandate::SHAPE.tree - 1
}

/// Returns whether one of these indexes is not a plain index of schema version 1, and its tree comes directly
/// before that of `mandate`.
pub fn has_last_key_index(indexes: &[Index]) -> bool
    ensures { result ≡ list_any is_last_key_index indexes.now }
{
    indexes.iter().any(|index| is_last_key_index(index))
}

//! Checks that rowids are unique.
ghost use Rattle.std.specs.Prelude.{◌≡◌, ◌≢◌, ◌↔◌, true, false, IfErr, IfOk, OnOk};
ghost use Rattle.std.specs.List.{IsDistinct};
ghost use Rattle.std.specs.List.Sorted.{IsStrictlySortedBy};
ghost use Rattle.std.specs.Ordering.{int_cmp, int_eq};
ghost use Rattle.land_tables_schema.specs.Rows.Forms.{AreNumbered};
ghost use Rattle.sqlite.specs.declared.error.Error.TheVariants.{SqliteFailure};
ghost use Rattle.sqlite.specs.declared.error.ErrorCode.TheVariants.{OutOfMemory};
ghost use Rattle.sqlite_rules.specs.Calls.{ids_of};
ghost use Rattle.sqlite_rules.specs.Edit.{have_rowids};

use sqlite::{Error, ErrorCode, Row};
use std::alloc::{AllocError, Global};

/// Checks that all rows have a rowid and no two have the same. Errors: out of memory; any other error only if
/// they do not, since the file is then corrupted. Each row begins with its rowid.
pub(crate) fn are_numbered(alloc: Global, rows: &[Row]) -> Result<(), Error>
    ensures numbered { OnOk result (AreNumbered rows.now) }
    ensures damaged { IfErr result (λ e. e ≢ SqliteFailure OutOfMemory → ¬ AreNumbered rows.now) }
{
    let ids = rowids(alloc, rows)?;
    if are_apart(alloc, ids.as_slice())? {
        Ok(())
    } else {
        Err(Error::SqliteFailure(ErrorCode::DatabaseCorrupt))
    }
}

/// Returns the rowids of rows. Errors: out of memory; any other error only if a row has no rowid.
fn rowids(alloc: Global, rows: &[Row]) -> Result<Vec<i64>, Error>
    ensures ids { IfOk result (λ ids. ids.items ≡ ids_of rows.now) }
    ensures whole { OnOk result (have_rowids rows.now ≡ true) }
    ensures unreadable { IfErr result (λ e. e ≢ SqliteFailure OutOfMemory → have_rowids rows.now ≡ false) }
{
    let mut ids = Vec::new(alloc);
    for row in rows {
        ids.push(row.get::<i64>(0)?)?;
    }
    Ok(ids)
}

/// Checks if no two numbers are the same. Strictly increasing numbers, the usual order of a table's rowids,
/// are neither copied nor sorted.
fn are_apart(alloc: Global, ids: &[i64]) -> Result<bool, AllocError>
    ensures { IfOk result (λ it. (it ≡ true) ↔ IsDistinct int_eq ids.now) }
{
    if is_rising(ids) {
        return Ok(true);
    }
    let mut sorted = ids.to_vec(alloc)?;
    sorted.sort_unstable();
    Ok(is_rising(sorted.as_slice()))
}

/// Checks if each number is less than its successor.
fn is_rising(ids: &[i64]) -> bool
    ensures { (result ≡ true) ↔ IsStrictlySortedBy int_cmp ids.now }
{
    ids.is_sorted_by(|id, next| *id < *next)
}

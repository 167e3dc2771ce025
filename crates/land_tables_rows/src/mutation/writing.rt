//! Mutations.
ghost use Rattle.std.specs.Prelude.{◌≡◌, ◌<◌, ◌^◌, IsTrue, nat_eq};
ghost use Rattle.land_core.specs.Numbers.{IsMoment};
ghost use Rattle.land_tables_rows.specs.Effects.{Performs};
ghost use Rattle.land_tables_rows.specs.Mutation.Cells.{fits_mutation};
ghost use Rattle.land_tables_rows.specs.Mutation.Writing.{mutation_reading};
ghost use Rattle.land_tables_rows.specs.Writing.Holding.{Begins, ClosesVersions};
ghost use Rattle.land_tables_schema.specs.Connections.{HasRegisterTables, SameReference};

use crate::cells::laws::mutations_read_back;
use crate::mutation::cells::{fits_mutation, mutation_cells};
use land_core::mutation::MutationRecord;
use land_tables_schema::rows::tables as rows;
use land_wire_json::bodies::stored::content_is_exact;
use land_wire_json::texts::mutation::content_text;
use sqlite::{Alter, Error, Transaction};
use std::alloc::Global;

/// Checks if a mutation can be written: its numbers, its reference and its content are within their limits,
/// and it was lodged at a moment.
pub fn fits(number: u64, mutation: &MutationRecord) -> bool
    ensures { result ≡ fits_mutation (number, mutation.now) }
{
    fits_mutation(number, mutation)
}

/// Begins a version of a mutation.
pub fn begin<S: Alter>(
    alloc: Global,
    tx: &mut Transaction<'_, S>,
    number: u64,
    mutation: &MutationRecord,
    since: i64,
) -> Result<usize, Error>
    requires fits { IsTrue (fits_mutation (number, mutation.now)) }
    requires moment { IsMoment since }
    requires has_tables { HasRegisterTables S.Store tx.old.conn.now }
    ensures same_reference { SameReference tx.old tx.new }
    ensures step { Performs S.Store result
        (Begins mutation_reading (number, mutation.now) since) tx.old tx.new }
{
    mutations_read_back();
    content_is_exact(&mutation.content);
    let content = content_text(alloc, &mutation.content)?;
    rows::mutation::begin(
        tx,
        mutation_cells(number, mutation, content.as_str()),
        since,
    )
}

/// Closes the current version of a mutation.
pub fn close<S: Alter>(tx: &mut Transaction<'_, S>, number: u64, stamp: i64) -> Result<usize, Error>
    requires number_fits { number < 2 ^ 63 }
    requires moment { IsMoment stamp }
    requires has_tables { HasRegisterTables S.Store tx.old.conn.now }
    ensures same_reference { SameReference tx.old tx.new }
    ensures step { Performs S.Store result
        (ClosesVersions mutation_reading (λ e. nat_eq e.0 number) stamp) tx.old tx.new }
{
    rows::mutation::close(tx, number, stamp)
}

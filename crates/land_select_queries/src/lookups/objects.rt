//! Objects by kind and number, as replies show them.
ghost use Rattle.std.specs.FinMap as map;
ghost use Rattle.land_core.specs.Register.{object_at};
ghost use Rattle.land_core.specs.declared.kind.Kind.TheVariants as kinds;
ghost use Rattle.land_select_queries.specs.Lookups.Parts.{ReadsPart};
ghost use Rattle.land_select_queries.specs.TableReads.{FailsOnlyWithoutHistory, ReadsTables};
ghost use Rattle.land_tables_schema.specs.Connections.{HasRegisterTables, LeavesAutocommit};

use crate::lookups::object_record::{ObjectRecord, party_object};
use crate::lookups::{by_number, of_group, of_party};
use land_core::kind::Kind;
use land_core::mutation::MutationRecord;
use land_core::object::Object;
use land_core::parcel::ParcelRecord;
use land_core::party::PartyRecord;
use land_core::rrr::RrrRecord;
use land_core::source::SourceRecord;
use land_core::unit::UnitRecord;
use land_tables_history::version::Version;
use land_tables_rows::listing::fault::ReadFault;
use land_tables_rows::reading::from_row::FromRow;
use sqlite::{Alter, Connection};
use std::alloc::Global;

/// Builds the object of a party, with its roles and its members.
fn party_with<S: Alter>(
    alloc: Global,
    conn: &mut Connection<S>,
    found: PartyRecord,
    number: u64,
    at: i64,
) -> Result<Option<Object>, ReadFault>
    requires has_tables { HasRegisterTables S.Store conn.old }
    ensures reads_only { ReadsTables S.Store result
        (ReadsPart (λ r. object_at (record r { parties = map.insert map.empty number found }) kinds.Party
        number)
        at) conn.old conn.new }
    ensures unreadable { FailsOnlyWithoutHistory S.Store result conn.old conn.new }
    ensures autocommit { LeavesAutocommit conn.old conn.new }
{
    let roles = of_party::roles(alloc, conn, number, at)?;
    let members = of_group::members(alloc, conn, number, at)?;
    Ok(party_object(alloc, number, found, roles, members)?)
}

/// Reads the party of a number, with its roles and its members.
fn party<S: Alter>(
    alloc: Global,
    conn: &mut Connection<S>,
    number: u64,
    at: i64,
) -> Result<Option<Object>, ReadFault>
    requires has_tables { HasRegisterTables S.Store conn.old }
    ensures reads_only { ReadsTables S.Store result (ReadsPart (λ r. object_at r kinds.Party number) at)
        conn.old
        conn.new }
    ensures unreadable { FailsOnlyWithoutHistory S.Store result conn.old conn.new }
    ensures autocommit { LeavesAutocommit conn.old conn.new }
{
    let known = by_number::record(alloc, conn, number, at)?;
    match known {
        Some(found) => party_with(alloc, conn, found, number, at),
        None => Ok(None),
    }
}

/// Reads the object of a kind that has a table of its own.
fn object_from_table<V: ObjectRecord, S: Alter>(
    alloc: Global,
    conn: &mut Connection<S>,
    number: u64,
    at: i64,
) -> Result<Option<Object>, ReadFault>
where
    Version<(u64, V)>: FromRow,
    requires has_tables { HasRegisterTables S.Store conn.old }
    ensures reads_only { ReadsTables S.Store result (ReadsPart (λ r. object_at r V.kind number) at) conn.old
        conn.new }
    ensures unreadable { FailsOnlyWithoutHistory S.Store result conn.old conn.new }
    ensures autocommit { LeavesAutocommit conn.old conn.new }
{
    let found = by_number::record::<V, S>(alloc, conn, number, at)?;
    Ok(V::build_object(number, found))
}

/// Reads the object of a kind and a number at a time, in Unix milliseconds; `None` if it does not exist.
/// Returns error 520 only if the tables hold no history, and 501 if out of memory.
pub fn object<S: Alter>(
    alloc: Global,
    conn: &mut Connection<S>,
    kind: Kind,
    number: u64,
    at: i64,
) -> Result<Option<Object>, ReadFault>
    requires has_tables { HasRegisterTables S.Store conn.old }
    ensures reads_only { ReadsTables S.Store result (ReadsPart (λ r. object_at r kind number) at) conn.old
        conn.new }
    ensures unreadable { FailsOnlyWithoutHistory S.Store result conn.old conn.new }
    ensures autocommit { LeavesAutocommit conn.old conn.new }
{
    match kind {
        Kind::Party => party(alloc, conn, number, at),
        Kind::Unit => object_from_table::<UnitRecord, S>(alloc, conn, number, at),
        Kind::Parcel => object_from_table::<ParcelRecord, S>(alloc, conn, number, at),
        Kind::Rrr => object_from_table::<RrrRecord, S>(alloc, conn, number, at),
        Kind::Source => object_from_table::<SourceRecord, S>(alloc, conn, number, at),
        Kind::Mutation => object_from_table::<MutationRecord, S>(alloc, conn, number, at),
    }
}

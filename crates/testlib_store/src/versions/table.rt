//! The tables, and how their rows are decoded.
use land_core::mandates::Mandate;
use land_core::mutation::MutationRecord;
use land_core::parcel::ParcelRecord;
use land_core::party::PartyRecord;
use land_core::roles::Grant;
use land_core::rrr::RrrRecord;
use land_core::source::SourceRecord;
use land_core::unit::UnitRecord;
use land_tables_history::group_member::GroupMember;
use land_tables_history::moment::Moment;
use land_tables_history::naming::Naming;
use land_tables_history::version::Version;
use land_tables_rows::edition::reading::Edition;
use land_tables_rows::reading::from_row::FromRow;
use land_wire_json::bodies::wire_fault::WireFault;
use sqlite::Row;
use std::alloc::{AllocError, Global};

/// A table of the register; `rrr` once per class of entries.
#[derive(Clone, Copy)]
pub enum Table {
    Edition,
    Moments,
    Party,
    Role,
    Member,
    Unit,
    Parcel,
    Right,
    Burden,
    Mortgage,
    Source,
    Mutation,
    Names,
    Mandate,
}

/// Returns the number of the fault of a row as `X`, or 0 if it is valid.
fn fault_as<X: FromRow>(alloc: Global, row: &Row) -> Result<u16, AllocError> {
    match X::from_row(alloc, row) {
        Ok(_) => Ok(0),
        Err(WireFault::NoMemory) => Err(AllocError),
        Err(fault) => Ok(fault.number()),
    }
}

/// Returns the number of the fault of a row of a table, or 0 if it is valid.
pub fn fault_of(alloc: Global, table: Table, row: &Row) -> Result<u16, AllocError> {
    match table {
        Table::Edition => fault_as::<Edition>(alloc, row),
        Table::Moments => fault_as::<Moment>(alloc, row),
        Table::Party => fault_as::<Version<(u64, PartyRecord)>>(alloc, row),
        Table::Role => fault_as::<Version<Grant>>(alloc, row),
        Table::Member => fault_as::<Version<GroupMember>>(alloc, row),
        Table::Unit => fault_as::<Version<(u64, UnitRecord)>>(alloc, row),
        Table::Parcel => fault_as::<Version<(u64, ParcelRecord)>>(alloc, row),
        Table::Right | Table::Burden | Table::Mortgage => {
            fault_as::<Version<(u64, RrrRecord)>>(alloc, row)
        }
        Table::Source => fault_as::<Version<(u64, SourceRecord)>>(alloc, row),
        Table::Mutation => fault_as::<Version<(u64, MutationRecord)>>(alloc, row),
        Table::Names => fault_as::<Version<Naming>>(alloc, row),
        Table::Mandate => fault_as::<Version<Mandate>>(alloc, row),
    }
}

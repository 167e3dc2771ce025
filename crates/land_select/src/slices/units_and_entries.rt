//! Units, with their parcels and entries.
use crate::slices::gathers::Gathers;
use crate::slices::parties_and_roles::{put_all, put_one};
use land_core::parcel::ParcelRecord;
use land_core::records::Records;
use land_core::rrr::RrrRecord;
use land_core::unit::UnitRecord;
use land_select_queries::lookups::{by_number, of_unit};
use land_tables_rows::listing::fault::ReadFault;
use sqlite::{Alter, Connection};
use std::alloc::Global;

/// Units by number, with their parcels and entries.
#[derive(Debug, Drop)]
pub(crate) struct UnitsAndEntries {
    /// The units.
    pub(crate) units: Records<UnitRecord>,
    /// The parcels of the units.
    pub(crate) parcels: Records<ParcelRecord>,
    /// The entries of the units.
    pub(crate) rrrs: Records<RrrRecord>,
}

/// Units, by number.
impl Gathers for Records<UnitRecord> {
    ghost use Rattle.std.specs.Prelude.{◌≡◌};
    ghost use Rattle.land_core.specs.Entries.{entries_where};

    ghost knows = { λ r asked it. it ≡ entries_where (λ n u. asked n) r.units };

    fn gather<S: Alter>(
        self,
        alloc: Global,
        conn: &mut Connection<S>,
        number: u64,
        at: i64,
    ) -> Result<Records<UnitRecord>, ReadFault> {
        let unit = by_number::record(alloc, conn, number, at)?;
        Ok(put_one(self, number, unit)?)
    }
}

/// Parcels, by the number of the unit.
impl Gathers for Records<ParcelRecord> {
    ghost use Rattle.std.specs.Prelude.{◌≡◌};
    ghost use Rattle.land_core.specs.Entries.{entries_where};

    ghost knows = { λ r asked it. it ≡ entries_where (λ n p. asked p.unit) r.parcels };

    fn gather<S: Alter>(
        self,
        alloc: Global,
        conn: &mut Connection<S>,
        number: u64,
        at: i64,
    ) -> Result<Records<ParcelRecord>, ReadFault> {
        let parcels = of_unit::parcels(alloc, conn, number, at)?;
        Ok(put_all(alloc, self, &parcels)?)
    }
}

/// Entries, by the number of the unit.
impl Gathers for Records<RrrRecord> {
    ghost use Rattle.std.specs.Prelude.{◌≡◌};
    ghost use Rattle.land_core.specs.Entries.{entries_where};

    ghost knows = { λ r asked it. it ≡ entries_where (λ n e. asked e.unit) r.rrrs };

    fn gather<S: Alter>(
        self,
        alloc: Global,
        conn: &mut Connection<S>,
        number: u64,
        at: i64,
    ) -> Result<Records<RrrRecord>, ReadFault> {
        let entries = of_unit::entries(alloc, conn, number, at)?;
        Ok(put_all(alloc, self, &entries)?)
    }
}

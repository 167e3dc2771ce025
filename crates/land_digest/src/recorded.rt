//! The rows of the register's records.
ghost use Rattle.std.specs.Prelude.{◌≡◌};
ghost use Rattle.land_digest.specs.Entries.{values_of};
ghost use Rattle.land_digest.specs.Rows.{mandate_row, member_row, mutation_row, naming_row, parcel_row};
ghost use Rattle.land_digest.specs.Rows.{party_row, role_row, rrr_row, source_row, unit_row};
ghost use Rattle.land_digest.specs.Versions.{Row};

use crate::entry::Values;
use land_core::mandates::Mandate;
use land_core::mutation::MutationRecord;
use land_core::parcel::ParcelRecord;
use land_core::party::PartyRecord;
use land_core::roles::Grant;
use land_core::rrr::RrrRecord;
use land_core::source::SourceRecord;
use land_core::unit::UnitRecord;
use land_tables_history::group_member::GroupMember;
use land_tables_history::naming::Naming;

/// A value that is a row of a table.
pub trait Recorded {
    /// The row.
    ghost row: { Self → Row };

    /// Returns the number of the table and the two numbers of the key.
    fn key(&self) -> (u8, u64, u64)
        ensures { result ≡ ((row self.now).table, (row self.now).first, (row self.now).second) };

    /// Returns the other columns, by reference.
    fn values(&self) -> Values<'_>
        ensures { values_of result ≡ (row self.now).values };
}

impl Recorded for (u64, PartyRecord) {
    ghost row = { party_row };

    fn key(&self) -> (u8, u64, u64) {
        (1, self.0, 0)
    }

    fn values(&self) -> Values<'_> {
        Values::Party(&self.1)
    }
}

impl Recorded for Grant {
    ghost row = { role_row };

    fn key(&self) -> (u8, u64, u64) {
        (2, self.party, self.role as u64)
    }

    fn values(&self) -> Values<'_> {
        Values::Nothing
    }
}

impl Recorded for GroupMember {
    ghost row = { member_row };

    fn key(&self) -> (u8, u64, u64) {
        (3, self.group, self.member.party)
    }

    fn values(&self) -> Values<'_> {
        Values::Share(&self.member.share)
    }
}

impl Recorded for (u64, UnitRecord) {
    ghost row = { unit_row };

    fn key(&self) -> (u8, u64, u64) {
        (4, self.0, 0)
    }

    fn values(&self) -> Values<'_> {
        Values::Unit(&self.1)
    }
}

impl Recorded for (u64, ParcelRecord) {
    ghost row = { parcel_row };

    fn key(&self) -> (u8, u64, u64) {
        (5, self.0, 0)
    }

    fn values(&self) -> Values<'_> {
        Values::Parcel(&self.1)
    }
}

impl Recorded for (u64, RrrRecord) {
    ghost row = { rrr_row };

    fn key(&self) -> (u8, u64, u64) {
        (6, self.0, 0)
    }

    fn values(&self) -> Values<'_> {
        Values::Rrr(&self.1)
    }
}

impl Recorded for (u64, SourceRecord) {
    ghost row = { source_row };

    fn key(&self) -> (u8, u64, u64) {
        (7, self.0, 0)
    }

    fn values(&self) -> Values<'_> {
        Values::Source(&self.1)
    }
}

impl Recorded for (u64, MutationRecord) {
    ghost row = { mutation_row };

    fn key(&self) -> (u8, u64, u64) {
        (8, self.0, 0)
    }

    fn values(&self) -> Values<'_> {
        Values::Mutation(&self.1)
    }
}

impl Recorded for Naming {
    ghost row = { naming_row };

    fn key(&self) -> (u8, u64, u64) {
        (9, self.mutation, self.unit)
    }

    fn values(&self) -> Values<'_> {
        Values::Nothing
    }
}

impl Recorded for Mandate {
    ghost row = { mandate_row };

    fn key(&self) -> (u8, u64, u64) {
        (10, self.principal, self.agent)
    }

    fn values(&self) -> Values<'_> {
        Values::Nothing
    }
}

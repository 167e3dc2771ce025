//! The table of each kind of record.
ghost use Rattle.std.specs.Prelude.{refl};
ghost use Rattle.land_tables_rows.specs.Listing.Reading as listing;
ghost use Rattle.land_tables_schema.specs.Schemas.{ContainsSchemaV1, IsSchemaV2};

use crate::edition::reading::Edition;
use crate::listing::listed::Listed;
use land_core::mandates::Mandate;
use land_core::mutation::MutationRecord;
use land_core::parcel::ParcelRecord;
use land_core::party::PartyRecord;
use land_core::roles::Grant;
use land_core::rrr::RrrRecord;
use land_core::source::SourceRecord;
use land_core::unit::UnitRecord;
use land_tables_history::group_member::GroupMember;
use land_tables_history::moment::Moment;
use land_tables_history::naming::Naming;
use land_tables_history::version::Version;
use land_tables_schema::rows::tables::{
    edition, mandate, member, moments, mutation, names, parcel, party, role, rrr, source, unit,
};

impl Listed for Version<(u64, PartyRecord)> {
    ghost listing = { listing.parties };

    ghost has = { ContainsSchemaV1 };

    fn text() -> &'static str {
        party::ALL
    }

    ghost says = { refl };
}

impl Listed for Version<Grant> {
    ghost listing = { listing.roles };

    ghost has = { ContainsSchemaV1 };

    fn text() -> &'static str {
        role::ALL
    }

    ghost says = { refl };
}

impl Listed for Version<GroupMember> {
    ghost listing = { listing.members };

    ghost has = { ContainsSchemaV1 };

    fn text() -> &'static str {
        member::ALL
    }

    ghost says = { refl };
}

impl Listed for Version<(u64, UnitRecord)> {
    ghost listing = { listing.units };

    ghost has = { ContainsSchemaV1 };

    fn text() -> &'static str {
        unit::ALL
    }

    ghost says = { refl };
}

impl Listed for Version<(u64, ParcelRecord)> {
    ghost listing = { listing.parcels };

    ghost has = { ContainsSchemaV1 };

    fn text() -> &'static str {
        parcel::ALL
    }

    ghost says = { refl };
}

impl Listed for Version<(u64, RrrRecord)> {
    ghost listing = { listing.rrrs };

    ghost has = { ContainsSchemaV1 };

    fn text() -> &'static str {
        rrr::ALL
    }

    ghost says = { refl };
}

impl Listed for Version<(u64, SourceRecord)> {
    ghost listing = { listing.sources };

    ghost has = { ContainsSchemaV1 };

    fn text() -> &'static str {
        source::ALL
    }

    ghost says = { refl };
}

impl Listed for Version<(u64, MutationRecord)> {
    ghost listing = { listing.mutations };

    ghost has = { ContainsSchemaV1 };

    fn text() -> &'static str {
        mutation::ALL
    }

    ghost says = { refl };
}

impl Listed for Version<Naming> {
    ghost listing = { listing.namings };

    ghost has = { ContainsSchemaV1 };

    fn text() -> &'static str {
        names::ALL
    }

    ghost says = { refl };
}

impl Listed for Version<Mandate> {
    ghost listing = { listing.mandates };

    ghost has = { IsSchemaV2 };

    fn text() -> &'static str {
        mandate::ALL
    }

    ghost says = { refl };
}

impl Listed for Moment {
    ghost listing = { listing.moments };

    ghost has = { ContainsSchemaV1 };

    fn text() -> &'static str {
        moments::ALL
    }

    ghost says = { refl };
}

impl Listed for Edition {
    ghost listing = { listing.editions };

    ghost has = { ContainsSchemaV1 };

    fn text() -> &'static str {
        edition::ALL
    }

    ghost says = { refl };
}

//! Reads the rowids of each table of versions.

use crate::rowids::keyed::Keyed;
use land_core::mandates::Mandate;
use land_core::mutation::MutationRecord;
use land_core::parcel::ParcelRecord;
use land_core::party::PartyRecord;
use land_core::roles::Grant;
use land_core::rrr::RrrRecord;
use land_core::source::SourceRecord;
use land_core::unit::UnitRecord;
use land_tables_history::group_member::GroupMember;
use land_tables_history::naming::Naming;
use land_tables_history::version::Version;
use sqlite::{Alter, Connection, Error, Row};

/// The query for the rowids of `party`.
const PARTY: &str = "SELECT rowid FROM party";

impl Keyed for Version<(u64, PartyRecord)> {
    fn rowids<S: Alter>(conn: &mut Connection<S>) -> Result<Vec<Row>, Error> {
        conn.query_all(PARTY, &[])
    }
}

/// The query for the rowids of `role`.
const ROLE: &str = "SELECT rowid FROM role";

impl Keyed for Version<Grant> {
    fn rowids<S: Alter>(conn: &mut Connection<S>) -> Result<Vec<Row>, Error> {
        conn.query_all(ROLE, &[])
    }
}

/// The query for the rowids of `member`.
const MEMBER: &str = "SELECT rowid FROM member";

impl Keyed for Version<GroupMember> {
    fn rowids<S: Alter>(conn: &mut Connection<S>) -> Result<Vec<Row>, Error> {
        conn.query_all(MEMBER, &[])
    }
}

/// The query for the rowids of `unit`.
const UNIT: &str = "SELECT rowid FROM unit";

impl Keyed for Version<(u64, UnitRecord)> {
    fn rowids<S: Alter>(conn: &mut Connection<S>) -> Result<Vec<Row>, Error> {
        conn.query_all(UNIT, &[])
    }
}

/// The query for the rowids of `parcel`.
const PARCEL: &str = "SELECT rowid FROM parcel";

impl Keyed for Version<(u64, ParcelRecord)> {
    fn rowids<S: Alter>(conn: &mut Connection<S>) -> Result<Vec<Row>, Error> {
        conn.query_all(PARCEL, &[])
    }
}

/// The query for the rowids of `rrr`.
const RRR: &str = "SELECT rowid FROM rrr";

impl Keyed for Version<(u64, RrrRecord)> {
    fn rowids<S: Alter>(conn: &mut Connection<S>) -> Result<Vec<Row>, Error> {
        conn.query_all(RRR, &[])
    }
}

/// The query for the rowids of `source`.
const SOURCE: &str = "SELECT rowid FROM source";

impl Keyed for Version<(u64, SourceRecord)> {
    fn rowids<S: Alter>(conn: &mut Connection<S>) -> Result<Vec<Row>, Error> {
        conn.query_all(SOURCE, &[])
    }
}

/// The query for the rowids of `mutation`.
const MUTATION: &str = "SELECT rowid FROM mutation";

impl Keyed for Version<(u64, MutationRecord)> {
    fn rowids<S: Alter>(conn: &mut Connection<S>) -> Result<Vec<Row>, Error> {
        conn.query_all(MUTATION, &[])
    }
}

/// The query for the rowids of `names`.
const NAMES: &str = "SELECT rowid FROM names";

impl Keyed for Version<Naming> {
    fn rowids<S: Alter>(conn: &mut Connection<S>) -> Result<Vec<Row>, Error> {
        conn.query_all(NAMES, &[])
    }
}

/// The query for the rowids of `mandate`.
const MANDATE: &str = "SELECT rowid FROM mandate";

impl Keyed for Version<Mandate> {
    fn rowids<S: Alter>(conn: &mut Connection<S>) -> Result<Vec<Row>, Error> {
        conn.query_all(MANDATE, &[])
    }
}

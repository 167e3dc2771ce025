//! Parties, with their roles and members.
ghost use Rattle.std.specs.Prelude.{◌≡◌, IfOk};
ghost use Rattle.land_select.specs.Slices.Gathered.{put_all, put_one};

use crate::slices::gathers::Gathers;
use land_core::duplicate::Duplicate;
use land_core::member::Members;
use land_core::party::PartyRecord;
use land_core::records::Records;
use land_core::roles::Roles;
use land_select_queries::lookups::{by_number, of_group, of_party};
use land_tables_rows::listing::fault::ReadFault;
use sqlite::{Alter, Connection};
use std::alloc::{AllocError, Global};

/// Parties by number, the roles that they hold, and the members of groups.
#[derive(Debug, Drop)]
pub(crate) struct PartiesAndRoles {
    /// The parties.
    pub(crate) parties: Records<PartyRecord>,
    /// The roles of the parties.
    pub(crate) roles: Roles,
    /// The members of the groups.
    pub(crate) members: Records<Members>,
}

/// Inserts at most one record.
pub(crate) fn put_one<V: Drop>(
    records: Records<V>,
    number: u64,
    found: Option<V>,
) -> Result<Records<V>, AllocError>
    ensures { IfOk result (λ it. it ≡ put_one records number found) }
{
    let mut records = records;
    if let Some(value) = found {
        records.insert(number, value)?;
    }
    Ok(records)
}

/// Inserts all records of another map.
pub(crate) fn put_all<V: Duplicate>(
    alloc: Global,
    records: Records<V>,
    more: &Records<V>,
) -> Result<Records<V>, AllocError>
    ensures { IfOk result (λ it. it ≡ put_all records more.now) }
{
    let mut records = records;
    for (number, value) in more.iter() {
        records.insert(*number, value.copy(alloc)?)?;
    }
    Ok(records)
}

/// Inserts all roles of another list.
fn put_roles(roles: Roles, more: &Roles) -> Result<Roles, AllocError>
    ensures { IfOk result (λ it. it ≡ put_all roles more.now) }
{
    let mut roles = roles;
    for grant in more.iter() {
        roles.insert(*grant)?;
    }
    Ok(roles)
}

/// Parties, by number.
impl Gathers for Records<PartyRecord> {
    ghost use Rattle.std.specs.Prelude.{◌≡◌};
    ghost use Rattle.land_core.specs.Entries.{entries_where};

    ghost knows = { λ r asked it. it ≡ entries_where (λ n p. asked n) r.parties };

    fn gather<S: Alter>(
        self,
        alloc: Global,
        conn: &mut Connection<S>,
        number: u64,
        at: i64,
    ) -> Result<Records<PartyRecord>, ReadFault> {
        let party = by_number::record(alloc, conn, number, at)?;
        Ok(put_one(self, number, party)?)
    }
}

/// Roles, by the number of the party.
impl Gathers for Roles {
    ghost use Rattle.std.specs.Prelude.{◌≡◌};
    ghost use Rattle.land_core.specs.Entries.{entries_where};

    ghost knows = { λ r asked it. it ≡ entries_where (λ grant u. asked grant.party) r.roles };

    fn gather<S: Alter>(
        self,
        alloc: Global,
        conn: &mut Connection<S>,
        number: u64,
        at: i64,
    ) -> Result<Roles, ReadFault> {
        let roles = of_party::roles(alloc, conn, number, at)?;
        Ok(put_roles(self, &roles)?)
    }
}

/// Members, by the number of the group.
impl Gathers for Records<Members> {
    ghost use Rattle.std.specs.Prelude.{◌≡◌};
    ghost use Rattle.land_core.specs.Entries.{entries_where};

    ghost knows = { λ r asked it. it ≡ entries_where (λ n members. asked n) r.members };

    fn gather<S: Alter>(
        self,
        alloc: Global,
        conn: &mut Connection<S>,
        number: u64,
        at: i64,
    ) -> Result<Records<Members>, ReadFault> {
        let members = of_group::members(alloc, conn, number, at)?;
        Ok(put_all(alloc, self, &members)?)
    }
}

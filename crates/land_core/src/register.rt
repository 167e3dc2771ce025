//! The register: all current records.
ghost use Rattle.std.specs.Prelude.{◌≡◌, IfOk, OnOk, OnErr};
ghost use Rattle.land_core.specs.Changes.{after};
ghost use Rattle.land_core.specs.Register.{new_register, empty_register, stands};
ghost use Rattle.land_core.specs.Register.{object_at, party_at, unit_at};
ghost use Rattle.land_core.specs.Register.{parcel_at, rrr_at, source_at, mutation_at, holds};
ghost use Rattle.land_core.specs.Register.{has_single_party, has_group, is_member, members_of, roles_of};
ghost use Rattle.land_core.specs.Soundness.{IsSound};

use crate::change::Change;
use crate::duplicate::Duplicate;
use crate::kind::{Kind, PartyKind};
use crate::mandates::Mandates;
use crate::member::{Member, Members, members_in};
use crate::mutation::{Mutation, MutationRecord};
use crate::object::Object;
use crate::parcel::{Parcel, ParcelRecord};
use crate::party::{Party, PartyRecord};
use crate::records::Records;
use crate::role::Role;
use crate::roles::{Grant, Roles};
use crate::rrr::{Rrr, RrrRecord};
use crate::sequence::Sequence;
use crate::source::{Source, SourceRecord};
use crate::text::Text;
use crate::unit::{Unit, UnitRecord};
use land_shape::Ring;
use std::alloc::{AllocError, Global};

/// All current records, and the number of the next object.
#[derive(Debug, Drop)]
pub struct Register {
    /// Parties by number (LA_Party).
    pub parties: Records<PartyRecord>,
    /// The roles of parties (LA_PartyRoleType).
    pub roles: Roles,
    /// The members of groups, by the group's number (LA_PartyMember).
    pub members: Records<Members>,
    /// Units by number (LA_BAUnit).
    pub units: Records<UnitRecord>,
    /// Parcels by number (LA_SpatialUnit).
    pub parcels: Records<ParcelRecord>,
    /// The entries of units by number (LA_RRR).
    pub rrrs: Records<RrrRecord>,
    /// Sources by number (LA_Source).
    pub sources: Records<SourceRecord>,
    /// Mutations by number.
    pub mutations: Records<MutationRecord>,
    /// The mandates.
    pub mandates: Mandates,
    /// The number of the next new object: 2 to 1_000_000_001 in a sound register.
    pub next: u64,
}

impl Register {
    /// Returns a new register. Its only party is 1, `Land Office`, a state administrator.
    pub fn new(alloc: Global) -> Result<Register, AllocError>
        ensures new { IfOk result (λ it. it ≡ new_register) }
        ensures sound { IfOk result (λ it. IsSound it) }
    {
        let mut register = Register::empty(alloc);
        let office = PartyRecord {
            kind: PartyKind::NonNaturalPerson,
            name: Text::new(String::from_str(alloc, "Land Office")?),
        };
        register.parties.insert(1, office)?;
        let grant = Grant {
            party: 1,
            role: Role::StateAdministrator,
        };
        register.roles.insert(grant)?;
        Ok(register)
    }

    /// Returns the empty register, the state before the first commit. Allocates nothing.
    pub fn empty(alloc: Global) -> Register
        ensures { result ≡ empty_register }
    {
        Register {
            parties: Records::new(alloc),
            roles: Roles::new(alloc),
            members: Records::new(alloc),
            units: Records::new(alloc),
            parcels: Records::new(alloc),
            rrrs: Records::new(alloc),
            sources: Records::new(alloc),
            mutations: Records::new(alloc),
            mandates: Mandates::new(alloc),
            next: 2,
        }
    }

    /// Returns a copy of the register with a change made.
    pub fn with_change(&self, alloc: Global, change: &Change) -> Result<Register, AllocError>
        ensures { IfOk result (λ it. it ≡ after change.now self.now) }
    {
        let put = &change.put;
        let ended = &change.ended;
        Ok(Register {
            parties: self
                .parties
                .with_changes(alloc, &put.parties, &ended.parties)?,
            roles: self.roles.with_changes(alloc, &put.roles, &ended.roles)?,
            members: self
                .members
                .with_changes(alloc, &put.members, &ended.members)?,
            units: self.units.with_changes(alloc, &put.units, &ended.units)?,
            parcels: self
                .parcels
                .with_changes(alloc, &put.parcels, &ended.parcels)?,
            rrrs: self.rrrs.with_changes(alloc, &put.rrrs, &ended.rrrs)?,
            sources: self
                .sources
                .with_changes(alloc, &put.sources, &ended.sources)?,
            mutations: self
                .mutations
                .with_changes(alloc, &put.mutations, &ended.mutations)?,
            mandates: self
                .mandates
                .with_changes(alloc, &put.mandates, &ended.mandates)?,
            next: change.next,
        })
    }

    /// Checks if a party has a role.
    pub fn holds(&self, party: u64, role: Role) -> bool
        ensures { result ≡ holds self.now party role }
    {
        self.roles.contains(Grant { party, role })
    }

    /// Checks if an object of this kind and number exists.
    pub fn stands(&self, kind: Kind, number: u64) -> bool
        ensures { result ≡ stands self.now kind number }
    {
        match kind {
            Kind::Party => self.parties.get(number).is_some(),
            Kind::Unit => self.units.get(number).is_some(),
            Kind::Parcel => self.parcels.get(number).is_some(),
            Kind::Rrr => self.rrrs.get(number).is_some(),
            Kind::Source => self.sources.get(number).is_some(),
            Kind::Mutation => self.mutations.get(number).is_some(),
        }
    }

    /// Checks if a party of this number exists and is not a group.
    pub fn has_single_party(&self, number: u64) -> bool
        ensures { result ≡ has_single_party self.now number }
    {
        match self.parties.get(number) {
            Some(party) => party.kind != PartyKind::Group,
            None => false,
        }
    }

    /// Checks if a group of this number exists.
    pub fn has_group(&self, number: u64) -> bool
        ensures { result ≡ has_group self.now number }
    {
        match self.parties.get(number) {
            Some(party) => party.kind == PartyKind::Group,
            None => false,
        }
    }

    /// Checks if a party is a member of a group.
    pub fn is_member(&self, group: u64, party: u64) -> bool
        ensures { result ≡ is_member self.now group party }
    {
        match self.members.get(group) {
            Some(members) => members.get(party).is_some(),
            None => false,
        }
    }

    /// Returns a copy of the object of this kind and number, or `None` if it does not exist.
    pub fn object(
        &self,
        alloc: Global,
        kind: Kind,
        number: u64,
    ) -> Result<Option<Object>, AllocError>
        ensures { IfOk result (λ it. it ≡ object_at self.now kind number) }
    {
        let object = match kind {
            Kind::Party => self.party(alloc, number)?.map(Object::Party),
            Kind::Unit => self.unit(alloc, number)?.map(Object::Unit),
            Kind::Parcel => self.parcel(alloc, number)?.map(Object::Parcel),
            Kind::Rrr => self.rrr(alloc, number)?.map(Object::Rrr),
            Kind::Source => self.source(alloc, number)?.map(Object::Source),
            Kind::Mutation => self.mutation(alloc, number)?.map(Object::Mutation),
        };
        Ok(object)
    }

    fn party(&self, alloc: Global, number: u64) -> Result<Option<Party>, AllocError>
        ensures { IfOk result (λ it. it ≡ party_at self.now number) }
    {
        match self.parties.get(number) {
            Some(record) => Ok(Some(Party {
                number,
                kind: record.kind,
                name: record.name.copy(alloc)?,
                members: self.members_of(alloc, number)?,
                roles: self.roles_of(alloc, number)?,
            })),
            None => Ok(None),
        }
    }

    fn unit(&self, alloc: Global, number: u64) -> Result<Option<Unit>, AllocError>
        ensures { IfOk result (λ it. it ≡ unit_at self.now number) }
    {
        match self.units.get(number) {
            Some(record) => Ok(Some(Unit {
                number,
                name: record.name.copy(alloc)?,
                checked: record.checked,
            })),
            None => Ok(None),
        }
    }

    fn parcel(&self, alloc: Global, number: u64) -> Result<Option<Parcel>, AllocError>
        ensures { IfOk result (λ it. it ≡ parcel_at self.now number) }
    {
        match self.parcels.get(number) {
            Some(record) => Ok(Some(Parcel {
                number,
                unit: record.unit,
                label: record.label.copy(alloc)?,
                outline: Ring::copy(&record.outline)?,
                source: record.source,
            })),
            None => Ok(None),
        }
    }

    fn rrr(&self, alloc: Global, number: u64) -> Result<Option<Rrr>, AllocError>
        ensures { IfOk result (λ it. it ≡ rrr_at self.now number) }
    {
        match self.rrrs.get(number) {
            Some(record) => Ok(Some(Rrr {
                number,
                unit: record.unit,
                party: record.party,
                class: record.class.copy(alloc)?,
                source: record.source,
            })),
            None => Ok(None),
        }
    }

    fn source(&self, alloc: Global, number: u64) -> Result<Option<Source>, AllocError>
        ensures { IfOk result (λ it. it ≡ source_at self.now number) }
    {
        match self.sources.get(number) {
            Some(record) => Ok(Some(Source {
                number,
                kind: record.kind,
                title: record.title.copy(alloc)?,
            })),
            None => Ok(None),
        }
    }

    fn mutation(&self, alloc: Global, number: u64) -> Result<Option<Mutation>, AllocError>
        ensures { IfOk result (λ it. it ≡ mutation_at self.now number) }
    {
        match self.mutations.get(number) {
            Some(record) => Ok(Some(Mutation {
                number,
                lodger: record.lodger,
                reference: record.reference.copy(alloc)?,
                source: record.source,
                lodged: record.lodged,
                state: record.state,
                content: record.content.copy(alloc)?,
            })),
            None => Ok(None),
        }
    }

    /// Returns the members of a group, ordered by number.
    fn members_of(&self, alloc: Global, group: u64) -> Result<Sequence<Member>, AllocError>
        ensures { IfOk result (λ it. it ≡ members_of self.now group) }
    {
        match self.members.get(group) {
            Some(members) => members_in(alloc, members),
            None => Ok(Sequence::new(alloc)),
        }
    }

    /// Returns the roles of a party, in the order of `Role`.
    fn roles_of(&self, alloc: Global, party: u64) -> Result<Sequence<Role>, AllocError>
        ensures { IfOk result (λ it. it ≡ roles_of self.now party) }
    {
        let mut roles = Sequence::new(alloc);
        for role in ALL_ROLES {
            if self.holds(party, role) {
                roles.push(role)?;
            }
        }
        Ok(roles)
    }
}

const ALL_ROLES: [Role; 6] = [
    Role::Citizen,
    Role::Conveyancer,
    Role::Notary,
    Role::Bank,
    Role::CertifiedSurveyor,
    Role::StateAdministrator,
];

impl Duplicate for Register {
    fn copy(&self, alloc: Global) -> Result<Register, AllocError> {
        Ok(Register {
            parties: self.parties.copy(alloc)?,
            roles: self.roles.copy(alloc)?,
            members: self.members.copy(alloc)?,
            units: self.units.copy(alloc)?,
            parcels: self.parcels.copy(alloc)?,
            rrrs: self.rrrs.copy(alloc)?,
            sources: self.sources.copy(alloc)?,
            mutations: self.mutations.copy(alloc)?,
            mandates: self.mandates.copy(alloc)?,
            next: self.next,
        })
    }
}

/// Applies a change. If out of memory, the register is unchanged.
pub fn apply(alloc: Global, register: &mut Register, change: &Change) -> Result<(), AllocError>
    ensures ok { OnOk result (register.new ≡ after change.now register.old) }
    ensures err { OnErr result (register.new ≡ register.old) }
{
    *register = register.with_change(alloc, change)?;
    Ok(())
}

//! Records as objects of replies.
ghost use Rattle.std.specs.FinMap as map;
ghost use Rattle.std.specs.Prelude.{◌≡◌, IfOk};
ghost use Rattle.land_core.specs.Register.{empty_register, object_at};
ghost use Rattle.land_core.specs.declared.kind.Kind.{Kind as Which};
ghost use Rattle.land_core.specs.declared.kind.Kind.TheVariants as kinds;
ghost use Rattle.land_core.specs.declared.register.Register.{Register as Whole};

use crate::lookups::numbered::Numbered;
use land_core::kind::Kind;
use land_core::member::Members;
use land_core::mutation::{Mutation, MutationRecord};
use land_core::object::Object;
use land_core::parcel::{Parcel, ParcelRecord};
use land_core::party::PartyRecord;
use land_core::records::Records;
use land_core::register::Register;
use land_core::roles::Roles;
use land_core::rrr::{Rrr, RrrRecord};
use land_core::source::{Source, SourceRecord};
use land_core::unit::{Unit, UnitRecord};
use land_tables_history::version::Version;
use land_tables_rows::reading::from_row::FromRow;
use std::alloc::{AllocError, Global};

/// A record type whose table has all fields of the object.
pub trait ObjectRecord: Numbered
where
    Version<(u64, Self)>: FromRow,
{
    /// The kind of the object.
    ghost kind: { Which };

    /// Builds the object of a number from its record, if it exists.
    fn build_object(number: u64, found: Option<Self>) -> Option<Object>
        ensures { (r : Whole) → found ≡ map.get (Self.part r) number → result ≡ object_at r kind number };
}

/// Builds the object of a party from its record, roles and members.
pub(crate) fn party_object(
    alloc: Global,
    number: u64,
    shown: PartyRecord,
    roles: Roles,
    members: Records<Members>,
) -> Result<Option<Object>, AllocError>
    ensures { IfOk result (λ it. it ≡ object_at
        (record empty_register {
          parties = map.insert map.empty number shown;
          roles = roles;
          members = members;
        })
        kinds.Party number) }
{
    let mut parties = Records::new(alloc);
    parties.insert(number, shown)?;
    let mut register = Register::empty(alloc);
    register.parties = parties;
    register.roles = roles;
    register.members = members;
    register.object(alloc, Kind::Party, number)
}

impl ObjectRecord for UnitRecord {
    ghost kind = { kinds.Unit };

    fn build_object(number: u64, found: Option<UnitRecord>) -> Option<Object>
        ensures { (r : Whole) → found ≡ map.get r.units number → result ≡ object_at r kinds.Unit number }
    {
        match found {
            Some(UnitRecord { name, checked }) => Some(Object::Unit(Unit {
                number,
                name,
                checked,
            })),
            None => None,
        }
    }
}

impl ObjectRecord for ParcelRecord {
    ghost kind = { kinds.Parcel };

    fn build_object(number: u64, found: Option<ParcelRecord>) -> Option<Object>
        ensures { (r : Whole) → found ≡ map.get r.parcels number → result ≡ object_at r kinds.Parcel number }
    {
        match found {
            Some(
                ParcelRecord {
                    unit,
                    label,
                    outline,
                    source,
                },
            ) => Some(Object::Parcel(Parcel {
                number,
                unit,
                label,
                outline,
                source,
            })),
            None => None,
        }
    }
}

impl ObjectRecord for RrrRecord {
    ghost kind = { kinds.Rrr };

    fn build_object(number: u64, found: Option<RrrRecord>) -> Option<Object>
        ensures { (r : Whole) → found ≡ map.get r.rrrs number → result ≡ object_at r kinds.Rrr number }
    {
        match found {
            Some(
                RrrRecord {
                    unit,
                    party,
                    class,
                    source,
                },
            ) => Some(Object::Rrr(Rrr {
                number,
                unit,
                party,
                class,
                source,
            })),
            None => None,
        }
    }
}

impl ObjectRecord for SourceRecord {
    ghost kind = { kinds.Source };

    fn build_object(number: u64, found: Option<SourceRecord>) -> Option<Object>
        ensures { (r : Whole) → found ≡ map.get r.sources number → result ≡ object_at r kinds.Source number }
    {
        match found {
            Some(SourceRecord { kind, title }) => Some(Object::Source(Source {
                number,
                kind,
                title,
            })),
            None => None,
        }
    }
}

impl ObjectRecord for MutationRecord {
    ghost kind = { kinds.Mutation };

    fn build_object(number: u64, found: Option<MutationRecord>) -> Option<Object>
        ensures { (r : Whole) → found ≡ map.get r.mutations number
            → result ≡ object_at r kinds.Mutation number }
    {
        match found {
            Some(
                MutationRecord {
                    lodger,
                    reference,
                    source,
                    lodged,
                    state,
                    content,
                },
            ) => Some(Object::Mutation(Mutation {
                number,
                lodger,
                reference,
                source,
                lodged,
                state,
                content,
            })),
            None => None,
        }
    }
}

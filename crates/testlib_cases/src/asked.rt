//! Requests as rows of tests write them, and the acts and requests that they denote.
use crate::lodged::{RowContent, lodging};
use crate::stop::Stop;
use land_core::act::{
    Act, Burden, BurdenClass, Decision, Enrol, Lift, NewGroup, NewMandate, NewParcel, NewRight,
    NewUnit, Regroup,
};
use land_core::ask::Ask;
use land_core::caller::Caller;
use land_core::kind::{Kind, PartyKind};
use land_core::mandates::Mandate;
use land_core::member::Member;
use land_core::role::Role;
use land_core::roles::Grant;
use land_core::rrr::RightType;
use land_core::sequence::Sequence;
use land_core::text::Text;
use land_fraction::Fraction;
use land_shape::read_wkt;
use std::alloc::{AllocError, Global};

/// A party's number, and the numerator and denominator of its share.
pub type Share = (u64, u64, u64);

/// A party's number, the type of its right, and the numerator and denominator of its share.
pub type Right = (u64, RightType, u64, u64);

/// An act of a row.
pub enum RowAct {
    Enrol(PartyKind, &'static str),
    Group(&'static str, &'static [Share]),
    Regroup(u64, &'static [Share]),
    Grant(u64, Role),
    Revoke(u64, Role),
    /// The agent of a mandate of the caller.
    Mandate(u64),
    /// The principal and the agent of a mandate to withdraw.
    Withdraw(u64, u64),
    /// A unit: whether its shares are checked, its number of parcels, and its rights.
    Register(bool, usize, &'static [Right]),
    /// A unit with this name instead of the garden's, with checked shares, one parcel and these rights.
    RegisterAs(&'static str, &'static [Right]),
    /// The class of a burden, its unit and its party.
    Burden(BurdenClass, u64, u64),
    Lift(u64),
    /// A reference, the title of a document, and the content.
    Lodge(&'static str, &'static str, RowContent),
    Approve(u64),
    Refuse(u64),
}

/// A request of a row.
pub enum RowAsk {
    Do(RowAct),
    View(Kind, u64, Option<i64>),
    List(Kind, Option<i64>),
    Sheet(u64, Option<i64>),
}

pub const OFFICE: Caller = Caller {
    party: 1,
    role: Role::StateAdministrator,
};

/// The texts of a registration: the unit's name, its document's title, and its parcels' label.
#[derive(Drop)]
pub struct Words<'a> {
    pub name: &'a str,
    pub document: &'a str,
    pub label: &'a str,
}

pub const GARDEN: Words<'static> = Words {
    name: "Garden",
    document: "Deed 1",
    label: "12",
};

pub fn text(alloc: Global, text: &str) -> Result<Text, AllocError> {
    Ok(Text::new(String::from_str(alloc, text)?))
}

fn members(alloc: Global, shares: &[Share]) -> Result<Sequence<Member>, Stop> {
    let mut members = Sequence::new(alloc);
    for (party, n, d) in shares {
        members.push(Member {
            party: *party,
            share: Fraction::new(*n, *d)?,
        })?;
    }
    Ok(members)
}

fn square(alloc: Global, label: &str) -> Result<NewParcel, Stop> {
    Ok(NewParcel {
        label: text(alloc, label)?,
        outline: read_wkt(alloc, "POLYGON ((0 0, 10000 0, 10000 10000, 0 10000, 0 0))")?,
    })
}

/// Returns this number of squares of ten metres.
fn squares(alloc: Global, count: usize, label: &str) -> Result<Sequence<NewParcel>, Stop> {
    let mut parcels = Sequence::new(alloc);
    for _ in 0..count {
        parcels.push(square(alloc, label)?)?;
    }
    Ok(parcels)
}

fn rights(alloc: Global, rows: &[Right]) -> Result<Sequence<NewRight>, Stop> {
    let mut rights = Sequence::new(alloc);
    for (party, right_type, n, d) in rows {
        rights.push(NewRight {
            party: *party,
            right_type: *right_type,
            share: Fraction::new(*n, *d)?,
        })?;
    }
    Ok(rights)
}

pub fn new_unit(
    alloc: Global,
    words: &Words<'_>,
    checked: bool,
    count: usize,
    rows: &[Right],
) -> Result<NewUnit, Stop> {
    Ok(NewUnit {
        name: text(alloc, words.name)?,
        checked,
        document: text(alloc, words.document)?,
        parcels: squares(alloc, count, words.label)?,
        rights: rights(alloc, rows)?,
    })
}

fn new_burden(
    alloc: Global,
    class: BurdenClass,
    unit: u64,
    party: u64,
) -> Result<Burden, AllocError> {
    Ok(Burden {
        unit,
        party,
        class,
        words: text(alloc, "No well")?,
        document: text(alloc, "Order")?,
    })
}

fn new_party(alloc: Global, kind: PartyKind, name: &str) -> Result<Enrol, AllocError> {
    Ok(Enrol {
        kind,
        name: text(alloc, name)?,
    })
}

fn new_group(alloc: Global, name: &str, shares: &[Share]) -> Result<NewGroup, Stop> {
    Ok(NewGroup {
        name: text(alloc, name)?,
        members: members(alloc, shares)?,
    })
}

/// Returns the act of a row.
pub fn act(alloc: Global, it: &RowAct) -> Result<Act, Stop> {
    Ok(match it {
        RowAct::Enrol(kind, name) => Act::Enrol(new_party(alloc, *kind, name)?),
        RowAct::Group(name, shares) => Act::Group(new_group(alloc, name, shares)?),
        RowAct::Regroup(group, shares) => Act::Regroup(Regroup {
            group: *group,
            members: members(alloc, shares)?,
        }),
        RowAct::Grant(party, role) => Act::Grant(Grant {
            party: *party,
            role: *role,
        }),
        RowAct::Revoke(party, role) => Act::Revoke(Grant {
            party: *party,
            role: *role,
        }),
        RowAct::Mandate(agent) => Act::Mandate(NewMandate { agent: *agent }),
        RowAct::Withdraw(principal, agent) => Act::Withdraw(Mandate {
            principal: *principal,
            agent: *agent,
        }),
        RowAct::Register(checked, count, rights) => {
            Act::Register(new_unit(alloc, &GARDEN, *checked, *count, rights)?)
        }
        RowAct::RegisterAs(name, rights) => {
            Act::Register(new_unit(alloc, &Words { name, ..GARDEN }, true, 1, rights)?)
        }
        RowAct::Burden(class, unit, party) => {
            Act::Burden(new_burden(alloc, *class, *unit, *party)?)
        }
        RowAct::Lift(rrr) => Act::Lift(Lift { rrr: *rrr }),
        RowAct::Lodge(reference, document, content) => {
            Act::Lodge(lodging(alloc, reference, document, content)?)
        }
        RowAct::Approve(mutation) => Act::Approve(Decision {
            mutation: *mutation,
        }),
        RowAct::Refuse(mutation) => Act::Refuse(Decision {
            mutation: *mutation,
        }),
    })
}

/// Returns the request of a row.
pub fn ask(alloc: Global, it: &RowAsk) -> Result<Ask, Stop> {
    Ok(match it {
        RowAsk::Do(it) => Ask::Do(act(alloc, it)?),
        RowAsk::View(kind, number, at) => Ask::View {
            kind: *kind,
            number: *number,
            at: *at,
        },
        RowAsk::List(kind, at) => Ask::List {
            kind: *kind,
            at: *at,
        },
        RowAsk::Sheet(unit, at) => Ask::Sheet {
            unit: *unit,
            at: *at,
        },
    })
}

//! Noninterference: two registers that differ in one registration or in one mandate, and the callers whose
//! replies differ.
use crate::asked::OFFICE;
use crate::rows::keeper_after;
use crate::steps::{ANNA, BANK, BEN, NORA, SAM, WITH_FIELD, WITH_GARDEN, WITH_MANDATE};
use crate::stop::{Stop, expect};
use crate::told::full_line_of;
use land_core::ask::{Ask, Request};
use land_core::caller::Caller;
use land_core::kind::Kind;
use land_core::role::Role;
use land_keep::keeper::Keeper;
use land_keep::machine::answer;
use std::alloc::Global;

/// A read of a register.
#[derive(Clone, Copy, PartialEq, Eq)]
enum Look {
    View(Kind, u64),
    List(Kind),
    Sheet(u64),
}

/// The reading of the clock at each read, later than all stamps of both registers.
const NOW: i64 = 2000;

const KINDS: &[Kind] = &[
    Kind::Party,
    Kind::Unit,
    Kind::Parcel,
    Kind::Rrr,
    Kind::Source,
    Kind::Mutation,
];

const ROLES: &[Role] = &[
    Role::Citizen,
    Role::Conveyancer,
    Role::Notary,
    Role::Bank,
    Role::CertifiedSurveyor,
    Role::StateAdministrator,
];

/// No moment, now, a moment before the first stamp, and each stamp of the registers.
const MOMENTS: &[Option<i64>] = &[
    None,
    Some(NOW),
    Some(999),
    Some(1000),
    Some(1001),
    Some(1002),
    Some(1003),
    Some(1004),
    Some(1005),
    Some(1006),
    Some(1007),
    Some(1008),
    Some(1009),
    Some(1010),
    Some(1011),
    Some(1012),
];

/// A caller whose replies differ, the moment from which they do, and the first read with different replies.
struct Seer(Caller, i64, Look);

const UNIT: Look = Look::View(Kind::Unit, 9);

/// The callers who see the unit in which the registers differ: the registrar, its owners, its lessee and the
/// notary from its registration on; and the bank, which does not see the past, now.
const SEERS_OF_THE_UNIT: &[Seer] = &[
    Seer(OFFICE, 1009, UNIT),
    Seer(ANNA, 1009, UNIT),
    Seer(BEN, 1009, UNIT),
    Seer(SAM, 1009, UNIT),
    Seer(NORA, 1009, UNIT),
    Seer(BANK, NOW, UNIT),
];

/// The callers who see more by Ben's mandate: Sam as a citizen. The first difference is Ben himself; Sam sees
/// the unit already as its lessee.
const SEERS_BY_THE_MANDATE: &[Seer] = &[Seer(SAM, 1012, Look::View(Kind::Party, 3))];

fn ask_of(look: Look, at: Option<i64>) -> Ask {
    match look {
        Look::View(kind, number) => Ask::View { kind, number, at },
        Look::List(kind) => Ask::List { kind, at },
        Look::Sheet(unit) => Ask::Sheet { unit, at },
    }
}

/// Returns the full reply of a keeper to a read, in one line.
fn told_by<K: Keeper>(
    alloc: Global,
    keeper: &mut K,
    caller: Caller,
    look: Look,
    at: Option<i64>,
) -> Result<String, Stop> {
    let request = Request {
        caller,
        ask: ask_of(look, at),
    };
    if !request.is_well_formed() {
        return Err(Stop::Unmade("a request that is well formed"));
    }
    let reply = answer(alloc, keeper, NOW, &request);
    Ok(full_line_of(alloc, &reply)?)
}

/// Two registers through time, and the callers whose replies differ.
#[derive(Drop)]
struct Worlds<'a, K> {
    one: &'a mut K,
    other: &'a mut K,
    seers: &'static [Seer],
}

impl<K: Keeper> Worlds<'_, K> {
    fn differ(
        &mut self,
        alloc: Global,
        caller: Caller,
        look: Look,
        at: Option<i64>,
    ) -> Result<bool, Stop> {
        let one = told_by(alloc, self.one, caller, look, at)?;
        let other = told_by(alloc, self.other, caller, look, at)?;
        Ok(one.as_str() != other.as_str())
    }

    /// Returns the first view of a kind, by numbers from 1 to 20, whose replies differ.
    fn first_view(
        &mut self,
        alloc: Global,
        caller: Caller,
        kind: Kind,
        at: Option<i64>,
    ) -> Result<Option<Look>, Stop> {
        for number in 1..21 {
            let look = Look::View(kind, number);
            if self.differ(alloc, caller, look, at)? {
                return Ok(Some(look));
            }
        }
        Ok(None)
    }

    /// Returns the first sheet, by numbers from 1 to 20, whose replies differ.
    fn first_sheet(
        &mut self,
        alloc: Global,
        caller: Caller,
        at: Option<i64>,
    ) -> Result<Option<Look>, Stop> {
        for unit in 1..21 {
            let look = Look::Sheet(unit);
            if self.differ(alloc, caller, look, at)? {
                return Ok(Some(look));
            }
        }
        Ok(None)
    }

    /// Returns the first list whose replies differ.
    fn first_list(
        &mut self,
        alloc: Global,
        caller: Caller,
        at: Option<i64>,
    ) -> Result<Option<Look>, Stop> {
        for kind in KINDS {
            let look = Look::List(*kind);
            if self.differ(alloc, caller, look, at)? {
                return Ok(Some(look));
            }
        }
        Ok(None)
    }

    /// Returns the first read whose replies differ: views kind by kind, then lists, then sheets.
    fn first_difference(
        &mut self,
        alloc: Global,
        caller: Caller,
        at: Option<i64>,
    ) -> Result<Option<Look>, Stop> {
        for kind in KINDS {
            let found = self.first_view(alloc, caller, *kind, at)?;
            if found.is_some() {
                return Ok(found);
            }
        }
        let found = self.first_list(alloc, caller, at)?;
        if found.is_some() {
            return Ok(found);
        }
        self.first_sheet(alloc, caller, at)
    }

    /// Checks that at each moment the first difference is the caller's expected one, if any, else that no
    /// reply differs.
    fn are_told_alike(&mut self, alloc: Global, caller: Caller) -> Result<(), Stop> {
        for (place, at) in MOMENTS.iter().enumerate() {
            let found = self.first_difference(alloc, caller, *at)?;
            let wanted = difference_for(self.seers, caller, *at);
            expect(found == wanted, "moment", place)?;
        }
        Ok(())
    }
}

/// Checks every party, and one that does not exist, in every role, at every moment: all views, lists and
/// sheets have the same reply in both registers, except for the listed callers, each with its own first
/// difference.
fn are_told_alike_to_all<K: Keeper>(
    alloc: Global,
    one: &mut K,
    other: &mut K,
    seers: &'static [Seer],
) -> Result<(), Stop> {
    let mut worlds = Worlds { one, other, seers };
    for party in 1..9 {
        for role in ROLES {
            let caller = Caller { party, role: *role };
            worlds.are_told_alike(alloc, caller)?;
        }
    }
    Ok(())
}

/// Returns the first difference that is expected for a caller, if any.
fn difference_for(seers: &[Seer], caller: Caller, at: Option<i64>) -> Option<Look> {
    let moment = at.unwrap_or(NOW);
    for seer in seers {
        let is_it = seer.0.party == caller.party && seer.0.role == caller.role;
        if is_it && seer.1 <= moment {
            return Some(seer.2);
        }
    }
    None
}

/// Checks two registers that differ in a unit: callers who do not see it get the same replies, and for all
/// others it is the first difference.
pub fn are_alike_to_whom_they_look_alike(alloc: Global) -> Result<(), Stop> {
    let mut one = keeper_after(alloc, WITH_GARDEN)?;
    let mut other = keeper_after(alloc, WITH_FIELD)?;
    are_told_alike_to_all(alloc, &mut one, &mut other, SEERS_OF_THE_UNIT)
}

/// Checks two registers of which one has an additional mandate: only the agent's replies differ, as a
/// citizen, from the mandate on.
pub fn a_mandate_is_told_to_its_agent_alone(alloc: Global) -> Result<(), Stop> {
    let mut one = keeper_after(alloc, WITH_GARDEN)?;
    let mut other = keeper_after(alloc, WITH_MANDATE)?;
    are_told_alike_to_all(alloc, &mut one, &mut other, SEERS_BY_THE_MANDATE)
}

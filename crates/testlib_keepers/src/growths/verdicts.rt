//! Verdicts on callers without and with rights.
use crate::growths::marks::mark;
use land_core::act::{Act, Decision, Lift};
use land_core::ask::Ask;
use land_core::caller::Caller;
use land_core::kind::Kind;
use land_core::role::Role;
use land_core::roles::Grant;
use land_keep::keeper::Keeper;
use land_keep::moments::explicit_moment;
use land_rules::verdict::Verdict;
use std::alloc::Global;
use testlib_scenario::stop::{Stop, expect};

/// The request of a test case.
#[derive(Clone, Copy)]
enum Asked {
    /// An object of a kind, by its number.
    View(Kind, u64),
    /// The title sheet of a unit.
    Sheet(u64),
    /// Grant a role to a party.
    Grant(u64, Role),
    /// Approve a mutation.
    Approve(u64),
    /// Lift a burden.
    Lift(u64),
}

/// A verdict: its name, the caller, its role, the request, and the number of the rule that denies it, or 0.
struct VerdictCase(&'static str, u64, Role, Asked, u8);

/// The garden, the ownership in it, its subdivision, which Sam lodged, and its owner.
const GARDEN: Asked = Asked::View(Kind::Unit, 9);

const OWNERSHIP: Asked = Asked::View(Kind::Rrr, 21);

const SUBDIVISION: Asked = Asked::View(Kind::Mutation, 23);

const BEN: Asked = Asked::View(Kind::Party, 3);

/// Nora has no rights, Ben owns the garden, Sam has a lease in it and the bank a mortgage on it.
const JUDGED: &[VerdictCase] = &[
    VerdictCase("a unit, denied", 5, Role::Citizen, GARDEN, 11),
    VerdictCase("a unit, allowed", 3, Role::Citizen, GARDEN, 0),
    VerdictCase("an entry, denied", 5, Role::Citizen, OWNERSHIP, 12),
    VerdictCase("an entry, allowed", 3, Role::Citizen, OWNERSHIP, 0),
    VerdictCase("a sheet, denied", 5, Role::Citizen, Asked::Sheet(9), 11),
    VerdictCase("a sheet, allowed", 6, Role::Citizen, Asked::Sheet(9), 0),
    VerdictCase("a unit, to a bank", 4, Role::Bank, GARDEN, 0),
    VerdictCase("a party, denied", 5, Role::Citizen, BEN, 13),
    VerdictCase("a party, allowed", 6, Role::Citizen, BEN, 0),
    VerdictCase("a party, to a bank", 4, Role::Bank, BEN, 0),
    VerdictCase(
        "a party, to a surveyor",
        6,
        Role::CertifiedSurveyor,
        BEN,
        24,
    ),
    VerdictCase("a unit, to a notary", 5, Role::Notary, GARDEN, 0),
    VerdictCase("a mutation, denied", 5, Role::Citizen, SUBDIVISION, 14),
    VerdictCase("a mutation, allowed", 3, Role::Citizen, SUBDIVISION, 0),
    VerdictCase(
        "a mutation, to its lodger",
        6,
        Role::CertifiedSurveyor,
        SUBDIVISION,
        0,
    ),
    VerdictCase("a mutation, to another", 4, Role::Bank, SUBDIVISION, 18),
    VerdictCase(
        "a grant, allowed",
        1,
        Role::StateAdministrator,
        Asked::Grant(2, Role::Bank),
        0,
    ),
    VerdictCase(
        "an approval, denied",
        5,
        Role::Notary,
        Asked::Approve(18),
        4,
    ),
    VerdictCase(
        "a lift, allowed",
        1,
        Role::StateAdministrator,
        Asked::Lift(13),
        0,
    ),
];

/// Returns the request.
fn ask_of(asked: &Asked) -> Ask {
    match asked {
        Asked::View(kind, number) => Ask::View {
            kind: *kind,
            number: *number,
            at: None,
        },
        Asked::Sheet(unit) => Ask::Sheet {
            unit: *unit,
            at: None,
        },
        Asked::Grant(party, role) => Ask::Do(Act::Grant(Grant {
            party: *party,
            role: *role,
        })),
        Asked::Approve(mutation) => Ask::Do(Act::Approve(Decision {
            mutation: *mutation,
        })),
        Asked::Lift(rrr) => Ask::Do(Act::Lift(Lift { rrr: *rrr })),
    }
}

/// Returns the number of a verdict, 0 if it allows.
fn rule_of(verdict: Verdict) -> u8 {
    match verdict {
        Verdict::Allowed => 0,
        Verdict::Denied(rule) => rule,
    }
}

/// Checks if a keeper denies a request now by this rule, or allows it for 0.
fn is_denied_by<K: Keeper>(
    alloc: Global,
    keeper: &mut K,
    caller: Caller,
    ask: &Ask,
    rule: u8,
) -> Result<bool, Stop> {
    let now = keeper.last();
    let at = explicit_moment(ask).unwrap_or(now);
    if now < at {
        return Ok(false);
    }
    let verdict = keeper.first_denial(alloc, caller, ask, now)?;
    Ok(rule_of(verdict) == rule)
}

/// Checks if a keeper returns the expected verdict.
fn has_expected_verdict<K: Keeper>(
    alloc: Global,
    keeper: &mut K,
    verdict_case: &VerdictCase,
) -> Result<bool, Stop> {
    let caller = Caller {
        party: verdict_case.1,
        role: verdict_case.2,
    };
    let ask = ask_of(&verdict_case.3);
    is_denied_by(alloc, keeper, caller, &ask, verdict_case.4)
}

/// Checks that each verdict is the expected one.
pub fn expect_verdicts<K: Keeper>(
    rt: &impl Print,
    alloc: Global,
    keeper: &mut K,
) -> Result<(), Stop> {
    for (place, verdict_case) in JUDGED.iter().enumerate() {
        mark(rt, verdict_case.0)?;
        expect(
            has_expected_verdict(alloc, keeper, verdict_case)?,
            verdict_case.0,
            place,
        )?;
    }
    Ok(())
}

//! The slices of acts.
use crate::growths::marks::mark;
use land_acts::slice::Slice;
use land_core::act::{Act, Decision, Enrol, Lift, Lodging};
use land_core::caller::Caller;
use land_core::content::{Content, Discharge};
use land_core::kind::PartyKind;
use land_core::role::Role;
use land_core::roles::Grant;
use land_core::text::Text;
use land_keep::keeper::Keeper;
use std::alloc::{AllocError, Global};
use testlib_scenario::stop::{Stop, expect};

/// The act of a test case.
#[derive(Clone, Copy)]
enum Asked {
    /// Enrol a party.
    Enrol,
    /// Make Anna a bank.
    Grant,
    /// Approve the mortgage on the garden once more.
    Approve,
    /// Discharge the mortgage on the garden.
    Discharge,
    /// Lift the lease.
    Lift,
}

/// The size of a slice: the numbers of its parties, units and entries.
#[derive(Clone, Copy)]
struct Sizes(usize, usize, usize);

/// An act: its name, the caller, its role, the act, the size of its slice, and that of the part on which the
/// outcome of the act depends.
struct SliceCase(&'static str, u64, Role, Asked, Sizes, Sizes);

/// Each slice has the office. An act on the garden has its three entries; an act on a party or with a
/// creditor has that party. No outcome depends on the office, and that of a lodging on no party or unit.
const SLICED: &[SliceCase] = &[
    SliceCase(
        "for an enrolment",
        1,
        Role::StateAdministrator,
        Asked::Enrol,
        Sizes(1, 0, 0),
        Sizes(0, 0, 0),
    ),
    SliceCase(
        "for a grant",
        1,
        Role::StateAdministrator,
        Asked::Grant,
        Sizes(2, 0, 0),
        Sizes(1, 0, 0),
    ),
    SliceCase(
        "for an approval",
        1,
        Role::StateAdministrator,
        Asked::Approve,
        Sizes(2, 1, 3),
        Sizes(1, 1, 3),
    ),
    SliceCase(
        "for a lodging",
        4,
        Role::Bank,
        Asked::Discharge,
        Sizes(1, 1, 3),
        Sizes(0, 0, 0),
    ),
    SliceCase(
        "for a lift",
        1,
        Role::StateAdministrator,
        Asked::Lift,
        Sizes(1, 0, 1),
        Sizes(0, 0, 1),
    ),
];

fn enrol(alloc: Global) -> Result<Act, AllocError> {
    let name = Text::new(String::from_str(alloc, "Carl")?);
    let kind = PartyKind::NaturalPerson;
    Ok(Act::Enrol(Enrol { kind, name }))
}

fn discharge(alloc: Global) -> Result<Act, AllocError> {
    let reference = Text::new(String::from_str(alloc, "D1")?);
    let document = Text::new(String::from_str(alloc, "Letter")?);
    let content = Content::Discharge(Discharge {
        unit: 9,
        mortgage: 16,
    });
    Ok(Act::Lodge(Lodging {
        reference,
        document,
        content,
    }))
}

/// Returns the act.
fn act_of(alloc: Global, asked: &Asked) -> Result<Act, AllocError> {
    match asked {
        Asked::Enrol => enrol(alloc),
        Asked::Grant => Ok(Act::Grant(Grant {
            party: 2,
            role: Role::Bank,
        })),
        Asked::Approve => Ok(Act::Approve(Decision { mutation: 15 })),
        Asked::Discharge => discharge(alloc),
        Asked::Lift => Ok(Act::Lift(Lift { rrr: 13 })),
    }
}

/// Checks if a slice has a size.
fn has_sizes(slice: &Slice, sizes: Sizes) -> bool {
    slice.parties.iter().count() == sizes.0
        && slice.units.iter().count() == sizes.1
        && slice.rrrs.iter().count() == sizes.2
}

/// Checks if a keeper returns a slice of this size for an act.
fn gives<K: Keeper>(
    alloc: Global,
    keeper: &mut K,
    caller: Caller,
    act: &Act,
    sizes: Sizes,
) -> Result<bool, Stop> {
    let slice = keeper.slice(alloc, caller, act)?;
    Ok(has_sizes(&slice, sizes))
}

/// Checks if a keeper returns a needed slice of this size for an act.
fn needs<K: Keeper>(
    alloc: Global,
    keeper: &mut K,
    caller: Caller,
    act: &Act,
    sizes: Sizes,
) -> Result<bool, Stop> {
    let slice = keeper.needed_slice(alloc, caller, act)?;
    Ok(has_sizes(&slice, sizes))
}

/// Checks if the slice of an act has its expected size, and the part that its outcome depends on.
fn has_expected_slice<K: Keeper>(
    alloc: Global,
    keeper: &mut K,
    slice_case: &SliceCase,
) -> Result<bool, Stop> {
    let caller = Caller {
        party: slice_case.1,
        role: slice_case.2,
    };
    let act = act_of(alloc, &slice_case.3)?;
    if !gives(alloc, keeper, caller, &act, slice_case.4)? {
        return Ok(false);
    }
    needs(alloc, keeper, caller, &act, slice_case.5)
}

/// Checks that the slice of each act has its expected size.
pub fn expect_slices<K: Keeper>(
    rt: &impl Print,
    alloc: Global,
    keeper: &mut K,
) -> Result<(), Stop> {
    for (place, slice_case) in SLICED.iter().enumerate() {
        mark(rt, slice_case.0)?;
        expect(
            has_expected_slice(alloc, keeper, slice_case)?,
            slice_case.0,
            place,
        )?;
    }
    Ok(())
}

//! Enrolments and reads: allowed callers, stamps and the last one, and reads of the past.
use crate::conclusion::conclude;
use crate::end_of_time::END;
use land_core::caller::Caller;
use land_core::kind::Kind::Party;
use land_core::kind::PartyKind::NaturalPerson;
use land_core::limits::LAST_MOMENT;
use land_core::role::Role::{Citizen, StateAdministrator};
use std::test::Fail;
use testlib_cases::asked::RowAct::Enrol;
use testlib_cases::asked::RowAsk::{Do, List, View};
use testlib_cases::asked::{OFFICE, RowAsk};
use testlib_cases::rows::Row;
use testlib_cases::steps::{ANNA, BEN, play_on_new_register};

const ENROL: RowAsk = Do(Enrol(NaturalPerson, "Anna"));

const ANNA_AS_OFFICE: Caller = Caller {
    party: 2,
    role: StateAdministrator,
};

const STRANGER_AS_OFFICE: Caller = Caller {
    party: 9,
    role: StateAdministrator,
};

const STRANGER: Caller = Caller {
    party: 9,
    role: Citizen,
};

const DENIED: &[Row] = &[
    Row(1000, STRANGER_AS_OFFICE, ENROL, "denied 1"),
    Row(1000, OFFICE, ENROL, "done 2 made [2] at 1000"),
    Row(1000, ANNA_AS_OFFICE, ENROL, "denied 2"),
    Row(1000, ANNA, ENROL, "denied 4"),
];

#[test]
fn a_stranger_and_a_missing_role_are_denied(rt: HostRuntime) -> Result<(), Fail> {
    conclude(&rt, play_on_new_register(rt.alloc(), DENIED))
}

const RISING: &[Row] = &[
    Row(5000, OFFICE, ENROL, "done 2 made [2] at 5000"),
    Row(4000, OFFICE, ENROL, "done 3 made [3] at 5001"),
    Row(4000, OFFICE, List(Party, Some(5002)), "fault 135"),
    Row(END, OFFICE, ENROL, "refused 217"),
    Row(
        LAST_MOMENT,
        OFFICE,
        ENROL,
        "done 4 made [4] at 4102444799999",
    ),
    Row(1000, OFFICE, ENROL, "refused 217"),
];

#[test]
fn stamps_increase_for_any_reading_of_the_clock(rt: HostRuntime) -> Result<(), Fail> {
    conclude(&rt, play_on_new_register(rt.alloc(), RISING))
}

const ITSELF: &[Row] = &[
    Row(1000, OFFICE, ENROL, "done 2 made [2] at 1000"),
    Row(1000, OFFICE, View(Party, 9, None), "denied 27"),
    Row(1000, ANNA, View(Party, 1, None), "denied 13"),
    Row(1000, ANNA, List(Party, None), "numbers [2]"),
    Row(
        1000,
        ANNA,
        View(Party, 2, None),
        "party 2 NaturalPerson Anna [] [Citizen]",
    ),
];

#[test]
fn a_citizen_sees_itself(rt: HostRuntime) -> Result<(), Fail> {
    conclude(&rt, play_on_new_register(rt.alloc(), ITSELF))
}

const PAST: &[Row] = &[
    Row(1000, OFFICE, ENROL, "done 2 made [2] at 1000"),
    Row(1000, OFFICE, List(Party, Some(999)), "numbers [1]"),
    Row(1000, OFFICE, List(Party, Some(1000)), "numbers [1, 2]"),
    Row(1000, ANNA, View(Party, 2, Some(999)), "denied 27"),
    Row(1000, ANNA, List(Party, Some(999)), "numbers []"),
    Row(-5, OFFICE, List(Party, Some(1001)), "fault 135"),
    Row(1000, STRANGER, List(Party, Some(1001)), "fault 135"),
];

#[test]
fn the_past_is_read_at_its_moment(rt: HostRuntime) -> Result<(), Fail> {
    conclude(&rt, play_on_new_register(rt.alloc(), PAST))
}

const ENDING_IN_A_DENIAL: &[Row] = &[
    Row(1000, OFFICE, ENROL, "done 2 made [2] at 1000"),
    Row(1000, BEN, View(Party, 3, None), "denied 1"),
];

#[test]
fn a_run_may_be_empty_or_end_in_a_denial(rt: HostRuntime) -> Result<(), Fail> {
    conclude(&rt, play_on_new_register(rt.alloc(), &[]))?;
    conclude(&rt, play_on_new_register(rt.alloc(), ENDING_IN_A_DENIAL))
}

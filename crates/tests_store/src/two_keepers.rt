//! The worked rows as bytes, for each keeper.
use crate::conclusion::conclude;
use std::test::Fail;
use testlib_keepers::keepers::two_keepers;

#[test]
fn requests_get_their_first_fault(rt: HostRuntime) -> Result<(), Fail> {
    conclude(&rt, two_keepers::requests_get_their_first_fault(rt.alloc()))
}

#[test]
fn bodies_get_their_first_fault(rt: HostRuntime) -> Result<(), Fail> {
    conclude(&rt, two_keepers::bodies_get_their_first_fault(rt.alloc()))
}

#[test]
fn the_register_takes_early_turns(rt: HostRuntime) -> Result<(), Fail> {
    conclude(&rt, two_keepers::the_register_takes_early_turns(rt.alloc()))
}

#[test]
fn holders_and_members_are_shown_what_they_hold(rt: HostRuntime) -> Result<(), Fail> {
    conclude(
        &rt,
        two_keepers::holders_and_members_are_shown_what_they_hold(rt.alloc()),
    )
}

#[test]
fn rights_are_transferred(rt: HostRuntime) -> Result<(), Fail> {
    conclude(&rt, two_keepers::rights_are_transferred(rt.alloc()))
}

#[test]
fn roles_and_banks_come_and_go(rt: HostRuntime) -> Result<(), Fail> {
    conclude(&rt, two_keepers::roles_and_banks_come_and_go(rt.alloc()))
}

#[test]
fn mandates_are_given_and_withdrawn(rt: HostRuntime) -> Result<(), Fail> {
    conclude(
        &rt,
        two_keepers::mandates_are_given_and_withdrawn(rt.alloc()),
    )
}

#[test]
fn parcels_are_cut_and_merged(rt: HostRuntime) -> Result<(), Fail> {
    conclude(&rt, two_keepers::parcels_are_cut_and_merged(rt.alloc()))
}

#[test]
fn the_scenario_with_other_requests_after_its_first_steps(rt: HostRuntime) -> Result<(), Fail> {
    conclude(
        &rt,
        two_keepers::the_scenario_with_other_requests_after_its_first_steps(rt.alloc()),
    )
}

#[test]
fn the_scenario_with_other_requests_after_its_last_steps(rt: HostRuntime) -> Result<(), Fail> {
    conclude(
        &rt,
        two_keepers::the_scenario_with_other_requests_after_its_last_steps(rt.alloc()),
    )
}

#[test]
fn streams_end_where_they_are_cut(rt: HostRuntime) -> Result<(), Fail> {
    conclude(&rt, two_keepers::streams_end_where_they_are_cut(rt.alloc()))
}

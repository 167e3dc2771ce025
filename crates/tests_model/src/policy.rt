//! The policy: each test calls the cases of one rule or of one group of rules.
use crate::conclusion::conclude;
use std::test::Fail;
use testlib_register::policy;
use testlib_register::policy::{
    banks, lists, mandates, mutations, parcels, standing, usufructs, views,
};

#[test]
fn the_farm_and_the_house_are_soundly_registered(rt: HostRuntime) -> Result<(), Fail> {
    conclude(
        &rt,
        policy::the_farm_and_the_house_are_soundly_registered(rt.alloc()),
    )
}

#[test]
fn holders_see_the_contents_of_their_units(rt: HostRuntime) -> Result<(), Fail> {
    conclude(
        &rt,
        lists::holders_see_the_contents_of_their_units(rt.alloc()),
    )
}

#[test]
fn creditors_see_the_units_of_their_mortgages(rt: HostRuntime) -> Result<(), Fail> {
    conclude(
        &rt,
        lists::creditors_see_the_units_of_their_mortgages(rt.alloc()),
    )
}

#[test]
fn parcels_are_seen_by_all(rt: HostRuntime) -> Result<(), Fail> {
    conclude(&rt, lists::parcels_are_seen_by_all(rt.alloc()))
}

#[test]
fn notaries_and_the_office_see_everything(rt: HostRuntime) -> Result<(), Fail> {
    conclude(
        &rt,
        lists::notaries_and_the_office_see_everything(rt.alloc()),
    )
}

#[test]
fn before_the_office_began_there_is_nothing(rt: HostRuntime) -> Result<(), Fail> {
    conclude(
        &rt,
        lists::before_the_office_began_there_is_nothing(rt.alloc()),
    )
}

#[test]
fn a_usufruct_is_no_ownership(rt: HostRuntime) -> Result<(), Fail> {
    conclude(&rt, usufructs::a_usufruct_is_no_ownership(rt.alloc()))
}

#[test]
fn groups_are_shown_to_their_members_as_citizens(rt: HostRuntime) -> Result<(), Fail> {
    conclude(
        &rt,
        banks::groups_are_shown_to_their_members_as_citizens(rt.alloc()),
    )
}

#[test]
fn the_mandates_are_soundly_registered(rt: HostRuntime) -> Result<(), Fail> {
    conclude(
        &rt,
        mandates::the_mandates_are_soundly_registered(rt.alloc()),
    )
}

#[test]
fn agents_see_as_their_principals_do(rt: HostRuntime) -> Result<(), Fail> {
    conclude(&rt, mandates::agents_see_as_their_principals_do(rt.alloc()))
}

#[test]
fn agents_see_only_what_their_circle_sees(rt: HostRuntime) -> Result<(), Fail> {
    conclude(
        &rt,
        mandates::agents_see_only_what_their_circle_sees(rt.alloc()),
    )
}

#[test]
fn citizens_give_mandates_and_withdraw_their_own(rt: HostRuntime) -> Result<(), Fail> {
    conclude(
        &rt,
        mandates::citizens_give_mandates_and_withdraw_their_own(rt.alloc()),
    )
}

#[test]
fn the_mutations_are_soundly_registered(rt: HostRuntime) -> Result<(), Fail> {
    conclude(
        &rt,
        mutations::the_mutations_are_soundly_registered(rt.alloc()),
    )
}

#[test]
fn lodgers_and_holders_see_mutations(rt: HostRuntime) -> Result<(), Fail> {
    conclude(
        &rt,
        mutations::lodgers_and_holders_see_mutations(rt.alloc()),
    )
}

#[test]
fn roles_lodge_their_contents(rt: HostRuntime) -> Result<(), Fail> {
    conclude(&rt, mutations::roles_lodge_their_contents(rt.alloc()))
}

#[test]
fn no_party_decides_on_its_own_lodging(rt: HostRuntime) -> Result<(), Fail> {
    conclude(
        &rt,
        mutations::no_party_decides_on_its_own_lodging(rt.alloc()),
    )
}

#[test]
fn surveyors_lodge_subdivisions_and_mergers(rt: HostRuntime) -> Result<(), Fail> {
    conclude(
        &rt,
        parcels::surveyors_lodge_subdivisions_and_mergers(rt.alloc()),
    )
}

#[test]
fn surveyed_parcels_are_soundly_registered(rt: HostRuntime) -> Result<(), Fail> {
    conclude(
        &rt,
        parcels::surveyed_parcels_are_soundly_registered(rt.alloc()),
    )
}

#[test]
fn holders_in_other_units_see_mergers(rt: HostRuntime) -> Result<(), Fail> {
    conclude(&rt, parcels::holders_in_other_units_see_mergers(rt.alloc()))
}

#[test]
fn a_merger_is_shown_by_each_unit_that_it_names(rt: HostRuntime) -> Result<(), Fail> {
    conclude(
        &rt,
        parcels::a_merger_is_shown_by_each_unit_that_it_names(rt.alloc()),
    )
}

#[test]
fn strangers_and_missing_roles_are_denied(rt: HostRuntime) -> Result<(), Fail> {
    conclude(
        &rt,
        standing::strangers_and_missing_roles_are_denied(rt.alloc()),
    )
}

#[test]
fn some_roles_see_only_the_present(rt: HostRuntime) -> Result<(), Fail> {
    conclude(&rt, standing::some_roles_see_only_the_present(rt.alloc()))
}

#[test]
fn only_the_office_burdens_units_and_lifts_burdens(rt: HostRuntime) -> Result<(), Fail> {
    conclude(
        &rt,
        standing::only_the_office_burdens_units_and_lifts_burdens(rt.alloc()),
    )
}

#[test]
fn roles_are_read_now_and_sight_at_the_moment(rt: HostRuntime) -> Result<(), Fail> {
    conclude(
        &rt,
        standing::roles_are_read_now_and_sight_at_the_moment(rt.alloc()),
    )
}

#[test]
fn a_citizen_is_denied_by_rules_11_to_13(rt: HostRuntime) -> Result<(), Fail> {
    conclude(
        &rt,
        views::a_citizen_is_denied_by_rules_11_to_13(rt.alloc()),
    )
}

#[test]
fn a_bank_is_denied_by_rules_15_to_17(rt: HostRuntime) -> Result<(), Fail> {
    conclude(&rt, views::a_bank_is_denied_by_rules_15_to_17(rt.alloc()))
}

#[test]
fn a_conveyancer_is_denied_by_rules_19_to_21(rt: HostRuntime) -> Result<(), Fail> {
    conclude(
        &rt,
        views::a_conveyancer_is_denied_by_rules_19_to_21(rt.alloc()),
    )
}

#[test]
fn a_surveyor_is_denied_by_rules_23_and_24(rt: HostRuntime) -> Result<(), Fail> {
    conclude(
        &rt,
        views::a_surveyor_is_denied_by_rules_23_and_24(rt.alloc()),
    )
}

#[test]
fn missing_objects_are_denied_by_rule_27(rt: HostRuntime) -> Result<(), Fail> {
    conclude(
        &rt,
        views::missing_objects_are_denied_by_rule_27(rt.alloc()),
    )
}

#[test]
fn a_sheet_is_judged_as_its_unit(rt: HostRuntime) -> Result<(), Fail> {
    conclude(&rt, views::a_sheet_is_judged_as_its_unit(rt.alloc()))
}

//! Registers with each fault of soundness, their objects, and changes of them.
use crate::conclusion::conclude;
use std::test::Fail;
use testlib_register::records::{
    changing, copies, crowds, faults, mandates, mutation_faults, objects, right_faults, unit_faults,
};

#[test]
fn out_of_memory_leaves_the_changed_register(rt: HostRuntime) -> Result<(), Fail> {
    conclude(
        &rt,
        changing::out_of_memory_leaves_the_changed_register(rt.alloc()),
    )
}

#[test]
fn a_group_gets_other_members(rt: HostRuntime) -> Result<(), Fail> {
    conclude(&rt, changing::a_group_gets_other_members(rt.alloc()))
}

#[test]
fn members_are_those_of_the_change(rt: HostRuntime) -> Result<(), Fail> {
    conclude(&rt, changing::members_are_those_of_the_change(rt.alloc()))
}

#[test]
fn an_ended_group_has_no_members(rt: HostRuntime) -> Result<(), Fail> {
    conclude(&rt, changing::an_ended_group_has_no_members(rt.alloc()))
}

#[test]
fn a_unit_is_entered(rt: HostRuntime) -> Result<(), Fail> {
    conclude(&rt, changing::a_unit_is_entered(rt.alloc()))
}

#[test]
fn a_unit_is_ended(rt: HostRuntime) -> Result<(), Fail> {
    conclude(&rt, changing::a_unit_is_ended(rt.alloc()))
}

#[test]
fn records_are_replaced(rt: HostRuntime) -> Result<(), Fail> {
    conclude(&rt, changing::records_are_replaced(rt.alloc()))
}

#[test]
fn mutations_are_entered_replaced_and_ended(rt: HostRuntime) -> Result<(), Fail> {
    conclude(
        &rt,
        changing::mutations_are_entered_replaced_and_ended(rt.alloc()),
    )
}

#[test]
fn a_new_register_is_sound(rt: HostRuntime) -> Result<(), Fail> {
    conclude(&rt, copies::a_new_register_is_sound(rt.alloc()))
}

#[test]
fn out_of_memory_leaves_the_copied_register(rt: HostRuntime) -> Result<(), Fail> {
    conclude(
        &rt,
        copies::out_of_memory_leaves_the_copied_register(rt.alloc()),
    )
}

#[test]
fn a_register_and_its_copy_are_alike_and_sound(rt: HostRuntime) -> Result<(), Fail> {
    conclude(
        &rt,
        copies::a_register_and_its_copy_are_alike_and_sound(rt.alloc()),
    )
}

#[test]
fn a_copied_object_has_all_fields(rt: HostRuntime) -> Result<(), Fail> {
    conclude(&rt, copies::a_copied_object_has_all_fields(rt.alloc()))
}

#[test]
fn a_group_has_at_most_64_members(rt: HostRuntime) -> Result<(), Fail> {
    conclude(&rt, crowds::a_group_has_at_most_64_members(rt.alloc()))
}

#[test]
fn a_unit_has_at_most_256_parcels(rt: HostRuntime) -> Result<(), Fail> {
    conclude(&rt, crowds::a_unit_has_at_most_256_parcels(rt.alloc()))
}

#[test]
fn a_unit_has_at_most_256_entries(rt: HostRuntime) -> Result<(), Fail> {
    conclude(&rt, crowds::a_unit_has_at_most_256_entries(rt.alloc()))
}

#[test]
fn numbers_in_use_lie_below_the_next_one(rt: HostRuntime) -> Result<(), Fail> {
    conclude(
        &rt,
        faults::numbers_in_use_lie_below_the_next_one(rt.alloc()),
    )
}

#[test]
fn a_role_is_that_of_a_single_party(rt: HostRuntime) -> Result<(), Fail> {
    conclude(&rt, faults::a_role_is_that_of_a_single_party(rt.alloc()))
}

#[test]
fn a_mandate_is_between_two_single_parties(rt: HostRuntime) -> Result<(), Fail> {
    conclude(
        &rt,
        mandates::a_mandate_is_between_two_single_parties(rt.alloc()),
    )
}

#[test]
fn mandates_are_those_of_the_change(rt: HostRuntime) -> Result<(), Fail> {
    conclude(&rt, mandates::mandates_are_those_of_the_change(rt.alloc()))
}

#[test]
fn there_is_a_state_administrator(rt: HostRuntime) -> Result<(), Fail> {
    conclude(&rt, faults::there_is_a_state_administrator(rt.alloc()))
}

#[test]
fn members_are_single_parties_with_all_shares(rt: HostRuntime) -> Result<(), Fail> {
    conclude(
        &rt,
        faults::members_are_single_parties_with_all_shares(rt.alloc()),
    )
}

#[test]
fn only_groups_have_members(rt: HostRuntime) -> Result<(), Fail> {
    conclude(&rt, faults::only_groups_have_members(rt.alloc()))
}

#[test]
fn the_lodger_of_a_mutation_exists(rt: HostRuntime) -> Result<(), Fail> {
    conclude(
        &rt,
        mutation_faults::the_lodger_of_a_mutation_exists(rt.alloc()),
    )
}

#[test]
fn the_source_of_a_mutation_exists(rt: HostRuntime) -> Result<(), Fail> {
    conclude(
        &rt,
        mutation_faults::the_source_of_a_mutation_exists(rt.alloc()),
    )
}

#[test]
fn numbers_of_mutations_lie_below_the_next_one(rt: HostRuntime) -> Result<(), Fail> {
    conclude(
        &rt,
        mutation_faults::numbers_of_mutations_lie_below_the_next_one(rt.alloc()),
    )
}

#[test]
fn contents_of_mutations_keep_their_limits(rt: HostRuntime) -> Result<(), Fail> {
    conclude(
        &rt,
        mutation_faults::contents_of_mutations_keep_their_limits(rt.alloc()),
    )
}

#[test]
fn a_lodger_has_a_reference_once(rt: HostRuntime) -> Result<(), Fail> {
    conclude(
        &rt,
        mutation_faults::a_lodger_has_a_reference_once(rt.alloc()),
    )
}

#[test]
fn objects_are_shown(rt: HostRuntime) -> Result<(), Fail> {
    conclude(&rt, objects::objects_are_shown(rt.alloc()))
}

#[test]
fn missing_objects_are_not_shown(rt: HostRuntime) -> Result<(), Fail> {
    conclude(&rt, objects::missing_objects_are_not_shown(rt.alloc()))
}

#[test]
fn shares_make_a_whole_in_a_checked_unit(rt: HostRuntime) -> Result<(), Fail> {
    conclude(
        &rt,
        right_faults::shares_make_a_whole_in_a_checked_unit(rt.alloc()),
    )
}

#[test]
fn a_party_has_one_right_of_a_type(rt: HostRuntime) -> Result<(), Fail> {
    conclude(
        &rt,
        right_faults::a_party_has_one_right_of_a_type(rt.alloc()),
    )
}

#[test]
fn a_party_has_rights_of_one_type_in_two_units(rt: HostRuntime) -> Result<(), Fail> {
    conclude(
        &rt,
        right_faults::a_party_has_rights_of_one_type_in_two_units(rt.alloc()),
    )
}

#[test]
fn mortgages_of_a_unit_have_ranks_of_their_own(rt: HostRuntime) -> Result<(), Fail> {
    conclude(
        &rt,
        right_faults::mortgages_of_a_unit_have_ranks_of_their_own(rt.alloc()),
    )
}

#[test]
fn parcels_refer_to_existing_objects(rt: HostRuntime) -> Result<(), Fail> {
    conclude(
        &rt,
        unit_faults::parcels_refer_to_existing_objects(rt.alloc()),
    )
}

#[test]
fn entries_refer_to_existing_objects(rt: HostRuntime) -> Result<(), Fail> {
    conclude(
        &rt,
        unit_faults::entries_refer_to_existing_objects(rt.alloc()),
    )
}

#[test]
fn numbers_of_each_kind_lie_below_the_next_one(rt: HostRuntime) -> Result<(), Fail> {
    conclude(
        &rt,
        unit_faults::numbers_of_each_kind_lie_below_the_next_one(rt.alloc()),
    )
}

#[test]
fn numbers_of_units_lie_below_the_next_one(rt: HostRuntime) -> Result<(), Fail> {
    conclude(
        &rt,
        unit_faults::numbers_of_units_lie_below_the_next_one(rt.alloc()),
    )
}

#[test]
fn a_unit_has_a_parcel_and_an_owner(rt: HostRuntime) -> Result<(), Fail> {
    conclude(
        &rt,
        unit_faults::a_unit_has_a_parcel_and_an_owner(rt.alloc()),
    )
}

#[test]
fn parcels_of_another_unit_do_not_count(rt: HostRuntime) -> Result<(), Fail> {
    conclude(
        &rt,
        unit_faults::parcels_of_another_unit_do_not_count(rt.alloc()),
    )
}

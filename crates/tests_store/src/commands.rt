//! Commands on files.
use crate::conclusion::conclude;
use std::test::Fail;
use testlib_store::commands;

#[test]
fn a_new_register_is_sound(rt: HostRuntime) -> Result<(), Fail> {
    conclude(&rt, commands::a_new_register_is_sound(&rt))
}

#[test]
fn the_scenario_leaves_a_sound_register(rt: HostRuntime) -> Result<(), Fail> {
    conclude(&rt, commands::the_scenario_leaves_a_sound_register(&rt))
}

#[test]
fn a_v1_register_is_migrated_once(rt: HostRuntime) -> Result<(), Fail> {
    conclude(&rt, commands::a_v1_register_is_migrated_once(&rt))
}

#[test]
fn missing_files_are_not_created(rt: HostRuntime) -> Result<(), Fail> {
    conclude(&rt, commands::missing_files_are_not_created(&rt))
}

#[test]
fn non_files_cannot_be_opened(rt: HostRuntime) -> Result<(), Fail> {
    conclude(&rt, commands::non_files_cannot_be_opened(&rt))
}

#[test]
fn an_empty_file_stays_empty(rt: HostRuntime) -> Result<(), Fail> {
    conclude(&rt, commands::an_empty_file_stays_empty(&rt))
}

#[test]
fn other_files_stay_unchanged(rt: HostRuntime) -> Result<(), Fail> {
    conclude(&rt, commands::other_files_stay_unchanged(&rt))
}

#[test]
fn a_store_of_another_application_is_refused(rt: HostRuntime) -> Result<(), Fail> {
    conclude(
        &rt,
        commands::a_store_of_another_application_is_refused(&rt),
    )
}

#[test]
fn an_open_file_cannot_be_opened_again(rt: HostRuntime) -> Result<(), Fail> {
    conclude(&rt, commands::an_open_file_cannot_be_opened_again(&rt))
}

#[test]
fn a_used_port_cannot_be_listened_on(rt: HostRuntime) -> Result<(), Fail> {
    conclude(&rt, commands::a_used_port_cannot_be_listened_on(&rt))
}

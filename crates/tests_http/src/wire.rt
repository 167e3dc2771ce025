//! Routes, bodies, contents, title sheets, rows of extracts.
use crate::conclusion::conclude;
use std::test::Fail;
use testlib_desk::wire::{bodies, contents, extracts, faults, routes};

#[test]
fn the_bodies_of_the_scenario_are_read(rt: HostRuntime) -> Result<(), Fail> {
    conclude(&rt, bodies::the_bodies_of_the_scenario_are_read(rt.alloc()))
}

#[test]
fn other_bodies_are_read(rt: HostRuntime) -> Result<(), Fail> {
    conclude(&rt, bodies::other_bodies_are_read(rt.alloc()))
}

#[test]
fn a_name_is_counted_in_characters(rt: HostRuntime) -> Result<(), Fail> {
    conclude(&rt, bodies::a_name_is_counted_in_characters(rt.alloc()))
}

#[test]
fn contents_are_read_and_written(rt: HostRuntime) -> Result<(), Fail> {
    conclude(&rt, contents::contents_are_read_and_written(rt.alloc()))
}

#[test]
fn headers_name_the_columns(rt: HostRuntime) -> Result<(), Fail> {
    conclude(&rt, extracts::headers_name_the_columns(rt.alloc()))
}

#[test]
fn rows_have_the_fields_of_their_objects(rt: HostRuntime) -> Result<(), Fail> {
    conclude(
        &rt,
        extracts::rows_have_the_fields_of_their_objects(rt.alloc()),
    )
}

#[test]
fn invalid_json_is_130(rt: HostRuntime) -> Result<(), Fail> {
    conclude(&rt, faults::invalid_json_is_130(rt.alloc()))
}

#[test]
fn wrong_fields_are_131(rt: HostRuntime) -> Result<(), Fail> {
    conclude(&rt, faults::wrong_fields_are_131(rt.alloc()))
}

#[test]
fn wrong_numbers_are_132(rt: HostRuntime) -> Result<(), Fail> {
    conclude(&rt, faults::wrong_numbers_are_132(rt.alloc()))
}

#[test]
fn wrong_shares_are_132_and_101_to_103(rt: HostRuntime) -> Result<(), Fail> {
    conclude(&rt, faults::wrong_shares_are_132_and_101_to_103(rt.alloc()))
}

#[test]
fn wrong_texts_and_words_are_133_and_134(rt: HostRuntime) -> Result<(), Fail> {
    conclude(
        &rt,
        faults::wrong_texts_and_words_are_133_and_134(rt.alloc()),
    )
}

#[test]
fn wrong_lists_are_reported_after_their_elements(rt: HostRuntime) -> Result<(), Fail> {
    conclude(
        &rt,
        faults::wrong_lists_are_reported_after_their_elements(rt.alloc()),
    )
}

#[test]
fn levels_are_read_up_to_127(rt: HostRuntime) -> Result<(), Fail> {
    conclude(&rt, faults::levels_are_read_up_to_127(rt.alloc()))
}

#[test]
fn invalid_utf8_is_130(rt: HostRuntime) -> Result<(), Fail> {
    conclude(&rt, faults::invalid_utf8_is_130(rt.alloc()))
}

#[test]
fn kinds_sheets_and_acts_are_named(rt: HostRuntime) -> Result<(), Fail> {
    conclude(&rt, routes::kinds_sheets_and_acts_are_named(rt.alloc()))
}

#[test]
fn other_paths_name_nothing(rt: HostRuntime) -> Result<(), Fail> {
    conclude(&rt, routes::other_paths_name_nothing(rt.alloc()))
}

#[test]
fn targets_are_cut_at_their_first_question_mark(rt: HostRuntime) -> Result<(), Fail> {
    conclude(&rt, routes::targets_are_cut_at_their_first_question_mark())
}

#[test]
fn reads_are_got_and_acts_are_posted(rt: HostRuntime) -> Result<(), Fail> {
    conclude(&rt, routes::reads_are_got_and_acts_are_posted())
}

#[test]
fn sheets(rt: HostRuntime) -> Result<(), Fail> {
    conclude(&rt, testlib_desk::wire::sheets::sheets(rt.alloc()))
}

#[test]
fn moments_are_told_as_dates_and_times(rt: HostRuntime) -> Result<(), Fail> {
    conclude(
        &rt,
        testlib_desk::wire::sheets::moments_are_told_as_dates_and_times(rt.alloc()),
    )
}

#[test]
fn areas_do_not_wrap(rt: HostRuntime) -> Result<(), Fail> {
    conclude(
        &rt,
        testlib_desk::wire::sheets::areas_do_not_wrap(rt.alloc()),
    )
}

//! Decoded rows of the tables, and which histories are valid.
use crate::conclusion::conclude;
use std::test::Fail;
use testlib_store::versions::{
    contents, lifespans, representations, valid_history, words, wrong_values,
};

#[test]
fn contents_are_read_by_their_act(rt: HostRuntime) -> Result<(), Fail> {
    conclude(&rt, contents::contents_are_read_by_their_act(rt.alloc()))
}

#[test]
fn each_value_of_each_column_has_its_fault(rt: HostRuntime) -> Result<(), Fail> {
    conclude(
        &rt,
        wrong_values::each_value_of_each_column_has_its_fault(rt.alloc()),
    )
}

#[test]
fn histories_are_valid_or_not(rt: HostRuntime) -> Result<(), Fail> {
    conclude(&rt, valid_history::histories_are_valid_or_not(rt.alloc()))
}

#[test]
fn the_latest_moment_is_found(rt: HostRuntime) -> Result<(), Fail> {
    conclude(&rt, valid_history::the_latest_moment_is_found())
}

#[test]
fn a_lifespan_has_its_beginning_and_not_its_end(rt: HostRuntime) -> Result<(), Fail> {
    conclude(
        &rt,
        lifespans::a_lifespan_has_its_beginning_and_not_its_end(rt.alloc()),
    )
}

#[test]
fn lifespans_of_one_key_do_not_overlap(rt: HostRuntime) -> Result<(), Fail> {
    conclude(
        &rt,
        lifespans::lifespans_of_one_key_do_not_overlap(rt.alloc()),
    )
}

#[test]
fn other_keys_have_their_own_lifespans(rt: HostRuntime) -> Result<(), Fail> {
    conclude(
        &rt,
        lifespans::other_keys_have_their_own_lifespans(rt.alloc()),
    )
}

#[test]
fn representations_decode_alike(rt: HostRuntime) -> Result<(), Fail> {
    conclude(
        &rt,
        representations::representations_decode_alike(rt.alloc()),
    )
}

#[test]
fn each_word_has_one_meaning(rt: HostRuntime) -> Result<(), Fail> {
    conclude(&rt, words::each_word_has_one_meaning(rt.alloc()))
}

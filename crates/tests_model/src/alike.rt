//! Worlds that look alike to a caller give it the same replies.
use crate::conclusion::conclude;
use land_core::kind::Kind::{Mutation, Parcel, Party, Rrr, Source, Unit};
use std::test::Fail;
use testlib_cases::asked::RowAsk::{List, View};
use testlib_cases::rows::{Row, play_rows};
use testlib_cases::steps::{ANNA, NORA_HERSELF, WITH_FIELD, WITH_GARDEN, WITH_MANDATE};
use testlib_cases::worlds::{
    a_mandate_is_told_to_its_agent_alone, are_alike_to_whom_they_look_alike,
};

/// The replies to Nora, who has no rights, in the role citizen.
const OF_NEITHER: &[Row] = &[
    Row(2000, NORA_HERSELF, List(Party, None), "numbers [5]"),
    Row(2000, NORA_HERSELF, List(Unit, None), "numbers []"),
    Row(2000, NORA_HERSELF, List(Parcel, None), "numbers [10]"),
    Row(2000, NORA_HERSELF, List(Rrr, None), "numbers []"),
    Row(2000, NORA_HERSELF, List(Source, None), "numbers []"),
    Row(2000, NORA_HERSELF, List(Mutation, None), "numbers []"),
    Row(2000, NORA_HERSELF, View(Unit, 9, None), "denied 11"),
    Row(2000, NORA_HERSELF, View(Unit, 77, None), "denied 11"),
    Row(2000, NORA_HERSELF, View(Rrr, 11, None), "denied 12"),
    Row(2000, NORA_HERSELF, View(Rrr, 16, None), "denied 12"),
    Row(2000, NORA_HERSELF, View(Party, 2, None), "denied 13"),
    Row(2000, NORA_HERSELF, View(Mutation, 15, None), "denied 14"),
    Row(2000, NORA_HERSELF, View(Source, 8, None), "denied 26"),
];

const OF_GARDEN: &[Row] = &[Row(2000, ANNA, View(Unit, 9, None), "unit 9 Garden true")];

const OF_FIELD: &[Row] = &[Row(2000, ANNA, View(Unit, 9, None), "unit 9 Field true")];

#[test]
fn alike_pairs(rt: HostRuntime) -> Result<(), Fail> {
    conclude(&rt, are_alike_to_whom_they_look_alike(rt.alloc()))?;
    conclude(&rt, a_mandate_is_told_to_its_agent_alone(rt.alloc()))
}

#[test]
fn a_party_without_rights_sees_nothing_of_the_garden(rt: HostRuntime) -> Result<(), Fail> {
    conclude(&rt, play_rows(rt.alloc(), WITH_GARDEN, OF_NEITHER))
}

#[test]
fn a_party_without_rights_sees_nothing_of_the_field(rt: HostRuntime) -> Result<(), Fail> {
    conclude(&rt, play_rows(rt.alloc(), WITH_FIELD, OF_NEITHER))
}

#[test]
fn a_party_without_rights_sees_nothing_of_a_mandate(rt: HostRuntime) -> Result<(), Fail> {
    conclude(&rt, play_rows(rt.alloc(), WITH_MANDATE, OF_NEITHER))
}

#[test]
fn an_owner_sees_the_difference_of_the_worlds(rt: HostRuntime) -> Result<(), Fail> {
    conclude(&rt, play_rows(rt.alloc(), WITH_GARDEN, OF_GARDEN))?;
    conclude(&rt, play_rows(rt.alloc(), WITH_FIELD, OF_FIELD))
}

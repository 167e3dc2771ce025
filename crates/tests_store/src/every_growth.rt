//! Requests of which each allocation fails in turn, by `.ci/oom-requests`.
use crate::conclusion::conclude;
use std::test::Fail;
use testlib_keepers::every_growth::requests;

#[test]
fn an_enrolment_in_memory(rt: HostRuntime) -> Result<(), Fail> {
    conclude(&rt, requests::an_enrolment_in_memory(&rt, rt.alloc()))
}

#[test]
fn an_enrolment_over_tables(rt: HostRuntime) -> Result<(), Fail> {
    conclude(&rt, requests::an_enrolment_over_tables(&rt, rt.alloc()))
}

#[test]
fn an_enrolment_over_joins(rt: HostRuntime) -> Result<(), Fail> {
    conclude(&rt, requests::an_enrolment_over_joins(&rt, rt.alloc()))
}

#[test]
fn a_registration_in_memory(rt: HostRuntime) -> Result<(), Fail> {
    conclude(&rt, requests::a_registration_in_memory(&rt, rt.alloc()))
}

#[test]
fn a_registration_over_tables(rt: HostRuntime) -> Result<(), Fail> {
    conclude(&rt, requests::a_registration_over_tables(&rt, rt.alloc()))
}

#[test]
fn a_registration_over_joins(rt: HostRuntime) -> Result<(), Fail> {
    conclude(&rt, requests::a_registration_over_joins(&rt, rt.alloc()))
}

#[test]
fn a_transfer_in_memory(rt: HostRuntime) -> Result<(), Fail> {
    conclude(&rt, requests::a_transfer_in_memory(&rt, rt.alloc()))
}

#[test]
fn a_transfer_over_tables(rt: HostRuntime) -> Result<(), Fail> {
    conclude(&rt, requests::a_transfer_over_tables(&rt, rt.alloc()))
}

#[test]
fn a_transfer_over_joins(rt: HostRuntime) -> Result<(), Fail> {
    conclude(&rt, requests::a_transfer_over_joins(&rt, rt.alloc()))
}

#[test]
fn a_subdivision_in_memory(rt: HostRuntime) -> Result<(), Fail> {
    conclude(&rt, requests::a_subdivision_in_memory(&rt, rt.alloc()))
}

#[test]
fn a_subdivision_over_tables(rt: HostRuntime) -> Result<(), Fail> {
    conclude(&rt, requests::a_subdivision_over_tables(&rt, rt.alloc()))
}

#[test]
fn a_subdivision_over_joins(rt: HostRuntime) -> Result<(), Fail> {
    conclude(&rt, requests::a_subdivision_over_joins(&rt, rt.alloc()))
}

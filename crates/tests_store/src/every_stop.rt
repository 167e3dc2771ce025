//! Changes and migrations on files whose disks stop, after each of their calls.
use crate::conclusion::conclude;
use std::test::Fail;
use testlib_stops::every_stop::{changes, migrations};

#[test]
fn a_registration_over_tables(rt: HostRuntime) -> Result<(), Fail> {
    conclude(&rt, changes::a_registration_over_tables(rt.alloc()))
}

#[test]
fn a_registration_over_joins(rt: HostRuntime) -> Result<(), Fail> {
    conclude(&rt, changes::a_registration_over_joins(rt.alloc()))
}

#[test]
fn a_transfer_over_tables(rt: HostRuntime) -> Result<(), Fail> {
    conclude(&rt, changes::a_transfer_over_tables(rt.alloc()))
}

#[test]
fn a_transfer_over_joins(rt: HostRuntime) -> Result<(), Fail> {
    conclude(&rt, changes::a_transfer_over_joins(rt.alloc()))
}

#[test]
fn a_subdivision_over_tables(rt: HostRuntime) -> Result<(), Fail> {
    conclude(&rt, changes::a_subdivision_over_tables(rt.alloc()))
}

#[test]
fn a_subdivision_over_joins(rt: HostRuntime) -> Result<(), Fail> {
    conclude(&rt, changes::a_subdivision_over_joins(rt.alloc()))
}

#[test]
fn a_merger_over_tables(rt: HostRuntime) -> Result<(), Fail> {
    conclude(&rt, changes::a_merger_over_tables(rt.alloc()))
}

#[test]
fn a_merger_over_joins(rt: HostRuntime) -> Result<(), Fail> {
    conclude(&rt, changes::a_merger_over_joins(rt.alloc()))
}

#[test]
fn migrate_every_stop(rt: HostRuntime) -> Result<(), Fail> {
    conclude(&rt, migrations::a_migration(rt.alloc()))
}

#[test]
fn migrate_every_stop_in_little_room(rt: HostRuntime) -> Result<(), Fail> {
    conclude(&rt, migrations::a_migration_in_little_room(rt.alloc()))
}

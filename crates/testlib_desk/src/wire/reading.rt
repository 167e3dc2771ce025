//! Reads bodies with the reader of their act.
use land_wire_json::bodies::content_kind::ContentKind;
use land_wire_json::bodies::fields::read_value;
use land_wire_json::bodies::lodging::{decision_of, lodging_of};
use land_wire_json::bodies::party::{
    enrol_of, grant_of, group_of, mandate_of, regroup_of, withdrawal_of,
};
use land_wire_json::bodies::unit::{burden_of, lift_of, unit_of};
use land_wire_json::bodies::wire_fault::WireFault;
use serde_json::Value;
use std::alloc::{AllocError, Global};

/// The reader of a body.
#[derive(Clone, Copy)]
pub(super) enum Reader {
    /// Enrols a party.
    Enrol,
    /// Creates a group.
    Group,
    /// Changes the members of a group.
    Regroup,
    /// Grants or revokes a role.
    Grant,
    /// Creates a mandate.
    Mandate,
    /// Withdraws a mandate.
    Withdraw,
    /// Registers a unit.
    Register,
    /// Burdens a unit.
    Burden,
    /// Lifts a burden.
    Lift,
    /// Lodges a mutation.
    Lodge(ContentKind),
    /// Decides a mutation.
    Decide,
}

/// Returns the number of the fault of a body, or 0 if it was read.
pub(super) fn fault_in(alloc: Global, reader: Reader, body: &[u8]) -> Result<u16, AllocError> {
    match read(alloc, reader, body) {
        Ok(()) => Ok(0),
        Err(WireFault::NoMemory) => Err(AllocError),
        Err(fault) => Ok(fault.number()),
    }
}

fn read(alloc: Global, reader: Reader, body: &[u8]) -> Result<(), WireFault> {
    let value = read_value(alloc, body)?;
    match reader {
        Reader::Enrol | Reader::Group | Reader::Regroup | Reader::Grant => {
            read_of_parties(alloc, reader, &value)
        }
        Reader::Mandate => drop_mandate(&value),
        Reader::Withdraw => drop_withdrawal(&value),
        Reader::Register | Reader::Burden | Reader::Lift => read_of_units(alloc, reader, &value),
        Reader::Lodge(kind) => drop_lodging(alloc, kind, &value),
        Reader::Decide => drop_decision(&value),
    }
}

fn read_of_parties(alloc: Global, reader: Reader, value: &Value) -> Result<(), WireFault> {
    match reader {
        Reader::Enrol => drop_enrolment(alloc, value),
        Reader::Group => drop_group(alloc, value),
        Reader::Regroup => drop_regroup(alloc, value),
        _ => drop_grant(value),
    }
}

fn read_of_units(alloc: Global, reader: Reader, value: &Value) -> Result<(), WireFault> {
    match reader {
        Reader::Register => drop_unit(alloc, value),
        Reader::Burden => drop_burden(alloc, value),
        _ => drop_lift(value),
    }
}

fn drop_enrolment(alloc: Global, value: &Value) -> Result<(), WireFault> {
    let _read = enrol_of(alloc, value)?;
    Ok(())
}

fn drop_group(alloc: Global, value: &Value) -> Result<(), WireFault> {
    let _read = group_of(alloc, value)?;
    Ok(())
}

fn drop_regroup(alloc: Global, value: &Value) -> Result<(), WireFault> {
    let _read = regroup_of(alloc, value)?;
    Ok(())
}

fn drop_grant(value: &Value) -> Result<(), WireFault> {
    let _read = grant_of(value)?;
    Ok(())
}

fn drop_mandate(value: &Value) -> Result<(), WireFault> {
    let _read = mandate_of(value)?;
    Ok(())
}

fn drop_withdrawal(value: &Value) -> Result<(), WireFault> {
    let _read = withdrawal_of(value)?;
    Ok(())
}

fn drop_unit(alloc: Global, value: &Value) -> Result<(), WireFault> {
    let _read = unit_of(alloc, value)?;
    Ok(())
}

fn drop_burden(alloc: Global, value: &Value) -> Result<(), WireFault> {
    let _read = burden_of(alloc, value)?;
    Ok(())
}

fn drop_lift(value: &Value) -> Result<(), WireFault> {
    let _read = lift_of(value)?;
    Ok(())
}

fn drop_lodging(alloc: Global, kind: ContentKind, value: &Value) -> Result<(), WireFault> {
    let _read = lodging_of(alloc, kind, value)?;
    Ok(())
}

fn drop_decision(value: &Value) -> Result<(), WireFault> {
    let _read = decision_of(value)?;
    Ok(())
}

//! Requests as they are read, if the reply does not show it.
use http_header::HeaderMap;
use land_core::act::Act;
use land_core::ask::{Ask, Request};
use land_core::kind::{Kind, PartyKind};
use land_core::role::Role;
use land_wire::fields::{FieldFault, append_field};
use land_wire::reading::read_request;
use land_wire_json::bodies::wire_fault::WireFault;
use std::alloc::Global;
use testlib_scenario::stop::{Stop, expect};
use testlib_scenario::talk::ENROL;

/// Returns an error if a field was not appended.
fn require_appended(outcome: Result<(), FieldFault>) -> Result<(), Stop> {
    match outcome {
        Ok(()) => Ok(()),
        Err(FieldFault::NoMemory) => Err(Stop::Memory),
        Err(_) => Err(Stop::Call),
    }
}

/// Returns the fields with the operator as the caller.
fn office_fields(alloc: Global) -> Result<HeaderMap, Stop> {
    let mut fields = HeaderMap::new(alloc);
    require_appended(append_field(alloc, &mut fields, b"Register-Party", b"1"))?;
    let role = b"stateAdministrator";
    require_appended(append_field(alloc, &mut fields, b"Register-Role", role))?;
    Ok(fields)
}

/// Reads the request with these fields.
fn read_with(
    alloc: Global,
    fields: &HeaderMap,
    method: &[u8],
    target: &str,
    body: &[u8],
) -> Result<Request, Stop> {
    match read_request(alloc, method, target, fields, body) {
        Ok(request) => Ok(request),
        Err(WireFault::NoMemory) => Err(Stop::Memory),
        Err(_) => Err(Stop::Call),
    }
}

/// Reads the operator's request with this method, target and body.
fn read(alloc: Global, method: &[u8], target: &str, body: &[u8]) -> Result<Request, Stop> {
    let fields = office_fields(alloc)?;
    read_with(alloc, &fields, method, target, body)
}

fn is_by_the_office(request: &Request) -> bool {
    request.caller.party == 1 && request.caller.role == Role::StateAdministrator
}

fn is_list(request: &Request) -> bool {
    matches!(
        &request.ask,
        Ask::List {
            kind: Kind::Party,
            at: None
        }
    )
}

fn is_view_of_9(request: &Request) -> bool {
    matches!(
        &request.ask,
        Ask::View {
            kind: Kind::Party,
            number: 9,
            at: None
        }
    )
}

fn is_enrolment_of_anna(request: &Request) -> bool {
    match &request.ask {
        Ask::Do(Act::Enrol(enrol)) => {
            enrol.kind == PartyKind::NaturalPerson && enrol.name.as_str() == "Anna"
        }
        _ => false,
    }
}

/// The requests of the operator.
#[derive(Clone, Copy)]
enum Asked {
    List,
    View,
    Enrolment,
}

fn is_asked(request: &Request, asked: Asked) -> bool {
    match asked {
        Asked::List => is_list(request),
        Asked::View => is_view_of_9(request),
        Asked::Enrolment => is_enrolment_of_anna(request),
    }
}

/// Checks that the operator's request with this method, target and body is the expected one.
fn is_read(
    alloc: Global,
    method: &[u8],
    target: &str,
    body: &[u8],
    asked: Asked,
) -> Result<bool, Stop> {
    let request = read(alloc, method, target, body)?;
    Ok(is_by_the_office(&request) && is_asked(&request, asked))
}

/// Checks that a list is read with any body.
pub fn a_list_is_read(alloc: Global) -> Result<(), Stop> {
    let is_read = is_read(alloc, b"GET", "/parties?", b"\xff{", Asked::List)?;
    expect(is_read, "a list", 0)
}

/// Checks that a view is read.
pub fn a_view_is_read(alloc: Global) -> Result<(), Stop> {
    let target = "/parties/0000000000009";
    expect(
        is_read(alloc, b"GET", target, b"", Asked::View)?,
        "a view",
        0,
    )
}

/// Checks that an enrolment is read.
pub fn an_enrolment_is_read(alloc: Global) -> Result<(), Stop> {
    let is_read = is_read(alloc, b"POST", "/acts/enrol", ENROL, Asked::Enrolment)?;
    expect(is_read, "an enrolment", 0)
}

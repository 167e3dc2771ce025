//! The first step of the scenario, as a request and as bytes.
use land_core::act::{Act, Enrol};
use land_core::ask::{Ask, Request};
use land_core::caller::Caller;
use land_core::change::Done;
use land_core::kind::PartyKind;
use land_core::role::Role;
use land_core::text::Text;
use land_keep::keeper::Keeper;
use land_keep::machine::answer;
use land_keep::reply::Reply;
use std::alloc::{AllocError, Global};

/// The land office, as a caller.
const OFFICE: Caller = Caller {
    party: 1,
    role: Role::StateAdministrator,
};

/// The bytes of the request.
pub const ENROL_ANNA_REQUEST: &[u8] =
    b"POST /acts/enrol HTTP/1.1\r\nRegister-Party: 1\r\nRegister-Role: stateAdministrator\r\nContent-Length: 38\r\n\r\n{\"kind\":\"naturalPerson\",\"name\":\"Anna\"}";

/// The bytes of the response.
pub const ANNA_ENROLLED_RESPONSE: &[u8] =
    b"HTTP/1.1 200 OK\r\nContent-Type: application/json\r\nContent-Length: 36\r\n\r\n{\"made\":[2],\"number\":2,\"stamp\":1000}";

/// Builds the request: the office enrols Anna.
pub fn first_request(alloc: Global) -> Result<Request, AllocError> {
    let name = Text::new(String::from_str(alloc, "Anna")?);
    let kind = PartyKind::NaturalPerson;
    Ok(Request {
        caller: OFFICE,
        ask: Ask::Do(Act::Enrol(Enrol { kind, name })),
    })
}

/// Checks that the receipt is of party 2 at 1000.
fn is_first(done: &Done) -> bool {
    done.number == 2 && done.stamp == 1000 && done.made.as_slice() == [2u64].as_slice()
}

/// Runs the first step and returns the number of the store fault, 0 if Anna is enrolled as expected, or 1
/// otherwise.
pub fn first_fault<K: Keeper>(alloc: Global, keeper: &mut K, request: &Request) -> u16 {
    if !request.is_well_formed() {
        return 1;
    }
    match answer(alloc, keeper, 1000, request) {
        Reply::Done(done) => { if is_first(&done) { 0 } else { 1 } }
        Reply::Store(number) => number,
        _ => 1,
    }
}

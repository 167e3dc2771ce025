//! Reads requests from the parts of their messages.
ghost use Rattle.std.specs.Prelude.{◌≡◌, [], IfOk, true};
ghost use Rattle.land_core.specs.Acts.{is_well_formed_request};
ghost use Rattle.land_keep.specs.Machine.{at_of};
ghost use Rattle.land_wire.specs.Laws.{IsExplicitMoment};
ghost use Rattle.land_wire.specs.Reading.{require_method, ask_of, parts_reading, request_reading, reading_by};
ghost use Rattle.land_wire.specs.Reading.{require_resource};
ghost use Rattle.land_wire.specs.Routes.{act, list, resource, sheet, view};
ghost use Rattle.land_wire.specs.Routes.Table.{RoutesCorrectly};
ghost use Rattle.land_wire_json.specs.Bodies.WireFaults.{Returns, map_ok};

use crate::act::read_act;
use crate::fields::read_caller;
use crate::laws;
use crate::numbers::read_number;
use crate::query::{check_no_query, read_at};
use crate::routes::act_word::ActWord;
use crate::routes::route::{Route, allows, find_route};
use crate::routes::table::{Endpoint, routes};
use crate::routes::target::split_target;
use http_header::HeaderMap;
use land_core::ask::{Ask, Request};
use land_core::caller::Caller;
use land_core::kind::Kind;
use land_wire_json::bodies::wire_fault::WireFault;
use matchit::Router;
use std::alloc::Global;

/// Reads a request as `read_routed` does, with its own router and with the same errors.
pub fn read_request(
    alloc: Global,
    method: &[u8],
    target: &str,
    fields: &HeaderMap,
    body: &[u8],
) -> Result<Request, WireFault>
    ensures reads { Returns (λ it. it) result (request_reading method.now target.now fields.now body.now) }
    ensures well_formed { IfOk result (λ request. is_well_formed_request request ≡ true) }
    ensures moment { IfOk result (λ request. IsExplicitMoment (at_of request.ask)) }
{
    let router = routes(alloc)?;
    let caller = read_caller(fields);
    read_routed(alloc, &router, method, target, caller, body)
}

/// Reads a request from its method, target and body, and from the caller in the fields `Register-Party` and
/// `Register-Role`, or the fault of these fields. `router` comes from `routes`. The body of a GET is ignored.
///
/// Errors: the first fault in this order: 136 if the path has no route, 137 for another method, the fault of
/// the fields (131, 132, 134), 132 for the number in the path, the query (131, 132), the body of an act (130
/// if it is not JSON, then the faults of its fields); 501 if out of memory.
pub fn read_routed(
    alloc: Global,
    router: &Router<Endpoint>,
    method: &[u8],
    target: &str,
    caller: Result<Caller, WireFault>,
    body: &[u8],
) -> Result<Request, WireFault>
    requires { RoutesCorrectly router.now }
    ensures reads { Returns (λ it. it) result (reading_by method.now target.now caller body.now) }
    ensures well_formed { IfOk result (λ request. is_well_formed_request request ≡ true) }
    ensures moment { IfOk result (λ request. IsExplicitMoment (at_of request.ask)) }
{
    laws::readings_are_well_formed();
    laws::stated_moments_are_valid();
    let (path, query) = split_target(target);
    read_parts(alloc, router, method, path, query.as_bytes(), caller, body)
}

#[tactic(auto, unfolding(crate::specs::Reading::parts_reading))]
fn read_parts(
    alloc: Global,
    router: &Router<Endpoint>,
    method: &[u8],
    path: &str,
    query: &[u8],
    caller: Result<Caller, WireFault>,
    body: &[u8],
) -> Result<Request, WireFault>
    requires { RoutesCorrectly router.now }
    ensures { Returns (λ it. it) result (parts_reading method.now path.now query.now caller body.now) }
{
    let route = require_route(router, path)?;
    check_method(&route, method)?;
    let caller = caller?;
    let ask = read_ask(alloc, &route, query, body)?;
    Ok(Request { caller, ask })
}

fn require_route<'a>(router: &Router<Endpoint>, path: &'a str) -> Result<Route<'a>, WireFault>
    requires { RoutesCorrectly router.now }
    ensures { map_ok resource result ≡ require_resource path.now }
{
    match find_route(router, path) {
        Some(route) => Ok(route),
        None => Err(WireFault::NoRoute),
    }
}

fn check_method(route: &Route<'_>, method: &[u8]) -> Result<(), WireFault>
    ensures { result ≡ require_method (resource route.now) method.now }
{
    if allows(route, method) {
        Ok(())
    } else {
        Err(WireFault::Method)
    }
}

fn read_ask(alloc: Global, route: &Route<'_>, query: &[u8], body: &[u8]) -> Result<Ask, WireFault>
    ensures { Returns (λ it. it) result (ask_of (resource route.now) query.now body.now) }
{
    match route {
        Route::List(kind) => read_list(*kind, query),
        Route::View(kind, part) => read_view(*kind, part, query),
        Route::Sheet(part) => read_sheet(part, query),
        Route::Act(word) => read_act_request(alloc, *word, query, body),
    }
}

fn read_list(kind: Kind, query: &[u8]) -> Result<Ask, WireFault>
    ensures { result ≡ ask_of (list kind) query.now [] }
{
    let at = read_at(query)?;
    Ok(Ask::List { kind, at })
}

fn read_view(kind: Kind, part: &[u8], query: &[u8]) -> Result<Ask, WireFault>
    ensures { result ≡ ask_of (view kind part.now) query.now [] }
{
    let number = read_number(part)?;
    let at = read_at(query)?;
    Ok(Ask::View { kind, number, at })
}

fn read_sheet(part: &[u8], query: &[u8]) -> Result<Ask, WireFault>
    ensures { result ≡ ask_of (sheet part.now) query.now [] }
{
    let unit = read_number(part)?;
    let at = read_at(query)?;
    Ok(Ask::Sheet { unit, at })
}

fn read_act_request(
    alloc: Global,
    word: ActWord,
    query: &[u8],
    body: &[u8],
) -> Result<Ask, WireFault>
    ensures { Returns (λ it. it) result (ask_of (act word) query.now body.now) }
{
    check_no_query(query)?;
    Ok(Ask::Do(read_act(alloc, word, body)?))
}

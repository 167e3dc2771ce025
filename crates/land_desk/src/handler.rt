//! Handles one request. The response is built before the change is committed, so that running out of memory
//! for it changes nothing.
ghost use Rattle.std.specs.Prelude.{◌≡◌, ◌||◌, ◌⊎◌, true, false, MatchOption, IfOk};
ghost use Rattle.land_core.specs.Acts.{is_well_formed_request};
ghost use Rattle.land_desk.specs.Keepers.{RespondsTo, RespondsToRequest};
ghost use Rattle.land_desk.specs.Responses.{HasValidMoment};
ghost use Rattle.land_desk.specs.Serving.{closes};
ghost use Rattle.land_desk.specs.Turns.{IsResponseTo, wire_bytes};
ghost use Rattle.land_keep.specs.Faults.{store_fault_number};
ghost use Rattle.land_keep.specs.Keepers.{WasHonest};
ghost use Rattle.land_keep.specs.Machine.{at_of};
ghost use Rattle.land_keep.specs.declared.reply.Reply.TheVariants as reply;
ghost use Rattle.land_wire.specs.Framing.FrameFaults.{frame_fault_number};
ghost use Rattle.land_wire.specs.Laws.{IsExplicitMoment};

use crate::response::{Medium, Status, body_text, response_bytes, store_response};
use land_core::ask::Request;
use land_keep::clock::Clock;
use land_keep::keeper::Keeper;
use land_keep::machine::{finish, prepare};
use land_keep::reply::Reply;
use land_keep::store_fault::StoreFault;
use land_wire::framing::frame_fault::FrameFault;
use land_wire_json::bodies::wire_fault::WireFault;
use std::alloc::Global;

/// The bytes of a response.
#[derive(Debug, Drop)]
pub enum ResponseBytes {
    /// Built for this reply.
    Owned(Vec<u8>),
    /// A constant, for a store fault. Not allocated.
    Static(&'static [u8]),
}

impl ResponseBytes {
    /// Returns the bytes.
    pub fn as_slice(&self) -> &[u8]
        ensures { result.now ≡ wire_bytes self.now }
    {
        match self {
            ResponseBytes::Owned(bytes) => bytes.as_slice(),
            ResponseBytes::Static(bytes) => bytes,
        }
    }
}

/// A response, and whether to close the connection after it.
#[derive(Debug, Drop)]
pub struct Response {
    /// The bytes to send.
    pub bytes: ResponseBytes,
    /// Whether to close the connection after sending them.
    pub close_after: bool,
}

/// Handles a parsed request, or replies with the fault that parsing found.
///
/// If out of memory for the response, replies 501 and changes nothing. `wants_close`: the client or the item
/// closes the connection. `head`: the method is HEAD, so the response has no body.
pub fn handle<K: Keeper, C: Clock>(
    alloc: Global,
    keeper: &mut K,
    clock: &mut C,
    request: Result<Request, WireFault>,
    wants_close: bool,
    head: bool,
) -> Response
    requires well_formed { IfOk request (λ asked. is_well_formed_request asked ≡ true) }
    requires moment { IfOk request (λ asked. IsExplicitMoment (at_of asked.ask)) }
    ensures reply { RespondsTo K.Keeper C.reads keeper.old clock.old keeper.new clock.new
        request result wants_close head }
    ensures was { WasHonest K.Keeper keeper.old keeper.new }
{
    match request {
        Err(WireFault::NoMemory) => store_failure(StoreFault::NoMemory, wants_close, head),
        Err(fault) => respond_or_501(alloc, &Reply::Fault(fault.number()), wants_close, head),
        Ok(request) => handle_request(alloc, keeper, clock, &request, wants_close, head),
    }
}

/// Handles a parsed request: plans it, builds the response, commits.
fn handle_request<K: Keeper, C: Clock>(
    alloc: Global,
    keeper: &mut K,
    clock: &mut C,
    request: &Request,
    wants_close: bool,
    head: bool,
) -> Response
    requires well_formed { is_well_formed_request request.now ≡ true }
    requires moment { IsExplicitMoment (at_of request.now.ask) }
    ensures reply { RespondsToRequest K.Keeper C.reads keeper.old clock.old keeper.new clock.new
        request.now result wants_close head }
    ensures was { WasHonest K.Keeper keeper.old keeper.new }
{
    let reading = clock.read();
    let prepared = match prepare(alloc, keeper, reading, request) {
        Err(fault) => return store_failure(fault, wants_close, head),
        Ok(prepared) => prepared,
    };
    let Some(answer) = try_respond(alloc, prepared.reply(), wants_close, head) else {
        return store_failure(StoreFault::NoMemory, wants_close, head);
    };
    match finish(alloc, keeper, prepared) {
        Err(fault) => store_failure(fault, wants_close, head),
        Ok(_) => answer,
    }
}

/// Builds the response to bytes that are not a well-framed request. It closes the connection.
pub fn reject(alloc: Global, fault: FrameFault) -> Response
    ensures { (r : Reply) × ((r ≡ reply.Fault (frame_fault_number fault)) ⊎ (r ≡ reply.Store 501))
        × IsResponseTo result r true false }
{
    respond_or_501(alloc, &Reply::Fault(fault.number()), true, false)
}

/// Builds the response for a reply, or the one for 501 if out of memory.
fn respond_or_501(alloc: Global, wanted: &Reply, wants_close: bool, head: bool) -> Response
    requires { HasValidMoment wanted.now }
    ensures { (r : Reply) × ((r ≡ wanted.now) ⊎ (r ≡ reply.Store 501))
        × IsResponseTo result r wants_close head }
{
    match try_respond(alloc, wanted, wants_close, head) {
        Some(answer) => answer,
        None => store_failure(StoreFault::NoMemory, wants_close, head),
    }
}

/// Builds the response for a reply, or returns `None` if out of memory.
fn try_respond(alloc: Global, reply: &Reply, wants_close: bool, head: bool) -> Option<Response>
    requires { HasValidMoment reply.now }
    ensures { MatchOption result (Unit {0}) (λ a. IsResponseTo a reply.now wants_close head) }
{
    let close_after = wants_close || closes(reply);
    let text = body_text(alloc, reply).ok()?;
    let bytes = response_bytes(
        alloc,
        Status::of(reply),
        Medium::of(reply),
        text.as_str(),
        close_after,
        head,
    )
    .ok()?;
    Some(Response {
        bytes: ResponseBytes::Owned(bytes),
        close_after,
    })
}

/// Returns the response to a store fault. Allocates nothing.
fn store_failure(fault: StoreFault, wants_close: bool, head: bool) -> Response
    ensures { IsResponseTo result (reply.Store (store_fault_number fault)) wants_close head }
{
    let close_after = wants_close || fault != StoreFault::NoMemory;
    Response {
        bytes: ResponseBytes::Static(store_response(fault.number(), close_after, head)),
        close_after,
    }
}

/// Checks whether a reply closes the connection: 502 and 503 do.
fn closes(reply: &Reply) -> bool
    ensures { result ≡ closes reply.now }
{
    match reply {
        Reply::Store(number) => *number == 502 || *number == 503,
        _ => false,
    }
}

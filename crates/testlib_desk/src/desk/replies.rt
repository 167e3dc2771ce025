//! The bytes of store faults, which need no allocation.
use land_desk::response::{Medium, Status, response_bytes, store_response};
use land_keep::reply::Reply;
use land_wire::text::{is_sheet, reply_text, store_text};
use std::alloc::{AllocError, Global};
use testlib_scenario::stop::{Stop, expect};

/// Checks the text of a reply.
fn has_text(alloc: Global, reply: &Reply, text: &str) -> Result<bool, AllocError> {
    if is_sheet(reply) {
        return Ok(false);
    }
    Ok(reply_text(alloc, reply)?.as_str() == text)
}

/// Checks the bytes of a reply with this text.
fn has_bytes(
    alloc: Global,
    reply: &Reply,
    text: &str,
    closing: bool,
    head: bool,
    bytes: &[u8],
) -> Result<bool, AllocError> {
    let status = Status::of(reply);
    let made = response_bytes(alloc, status, Medium::of(reply), text, closing, head)?;
    Ok(made.as_slice() == bytes)
}

fn has_both(
    alloc: Global,
    reply: &Reply,
    text: &str,
    closing: bool,
    head: bool,
    bytes: &[u8],
) -> Result<bool, AllocError> {
    if !has_text(alloc, reply, text)? {
        return Ok(false);
    }
    has_bytes(alloc, reply, text, closing, head, bytes)
}

/// Checks that the constant text and bytes of a store fault equal those built for its reply.
fn is_at_hand(alloc: Global, number: u16, closing: bool, head: bool) -> Result<bool, AllocError> {
    if number < 501 || 503 < number {
        return Ok(false);
    }
    has_both(
        alloc,
        &Reply::Store(number),
        store_text(number),
        closing,
        head,
        store_response(number, closing, head),
    )
}

/// The reply when a failed read or write has closed the store; the connection closes.
const FAILED: &[u8] =
    b"HTTP/1.1 503 Service Unavailable\r\nContent-Type: application/json\r\nContent-Length: 13\r\nConnection: close\r\n\r\n{\"store\":502}";

/// Checks that the bytes of store faults are available without memory, and equal those built for their
/// replies.
pub fn store_faults_have_their_bytes_without_memory(alloc: Global) -> Result<(), Stop> {
    for number in 501..504 {
        for closing in [false, true] {
            for head in [false, true] {
                let is_at_hand = is_at_hand(alloc, number, closing, head)?;
                expect(is_at_hand, "fault", usize::from(number))?;
            }
        }
    }
    expect(store_text(503) == "{\"store\":503}", "text", 503)?;
    expect(store_response(502, true, false) == FAILED, "response", 502)
}

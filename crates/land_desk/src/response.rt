//! Builds HTTP responses.
ghost use Rattle.std.specs.Prelude.{◌≡◌, ℕ, IfOk, true, false, string_bytes};
ghost use Rattle.land_desk.specs.Responses.{HasValidMoment, IsReplyBody, IsResponse, medium_of, medium_text};
ghost use Rattle.land_desk.specs.Responses.{response};
ghost use Rattle.land_desk.specs.Responses.{reply_status, status_text};
ghost use Rattle.land_keep.specs.declared.reply.Reply.TheVariants as reply;
ghost use Rattle.land_wire.specs.Replies.{IsStoreFault};

use land_keep::reply::Reply;
use land_sheet::sheet::title_sheet;
use land_wire::text::reply_text;
use std::alloc::{AllocError, Global};

/// The status of a response (RFC 9110, section 15).
#[derive(Clone, Copy, Debug, PartialEq, Eq)]
pub enum Status {
    /// 200: an object, numbers, a title sheet, or the receipt of an act.
    Ok,
    /// 400: the request is malformed.
    BadRequest,
    /// 403: a rule of the policy denies the request.
    Forbidden,
    /// 409: a business rule refuses the act.
    Conflict,
    /// 503: the store failed, or out of memory.
    Unavailable,
}

impl Status {
    /// Returns the status for a reply.
    pub fn of(reply: &Reply) -> Status
        ensures { result ≡ reply_status reply.now }
    {
        match reply {
            Reply::Object(_) | Reply::Numbers(_) | Reply::Sheet(_) | Reply::Done(_) => Status::Ok,
            Reply::Denied(_) => Status::Forbidden,
            Reply::Fault(_) => Status::BadRequest,
            Reply::Refused(_) => Status::Conflict,
            Reply::Store(_) => Status::Unavailable,
        }
    }

    /// Returns its code and phrase.
    pub fn text(self) -> &'static str
        ensures { result.now ≡ status_text self }
    {
        match self {
            Status::Ok => "200 OK",
            Status::BadRequest => "400 Bad Request",
            Status::Forbidden => "403 Forbidden",
            Status::Conflict => "409 Conflict",
            Status::Unavailable => "503 Service Unavailable",
        }
    }
}

/// The media type of a body (RFC 9110, section 8.3).
#[derive(Clone, Copy, Debug, PartialEq, Eq)]
pub enum Medium {
    /// JSON.
    Json,
    /// Plain text in UTF-8: a title sheet.
    Sheet,
}

impl Medium {
    /// Returns the media type for a reply.
    pub fn of(reply: &Reply) -> Medium
        ensures { result ≡ medium_of reply.now }
    {
        match reply {
            Reply::Sheet(_) => Medium::Sheet,
            _ => Medium::Json,
        }
    }

    /// Returns its name.
    pub fn text(self) -> &'static str
        ensures { result.now ≡ medium_text self }
    {
        match self {
            Medium::Json => "application/json",
            Medium::Sheet => "text/plain; charset=utf-8",
        }
    }
}

/// Builds the body of a reply: JSON, or a title sheet. The error is out of memory.
pub fn body_text(alloc: Global, reply: &Reply) -> Result<String, AllocError>
    requires { HasValidMoment reply.now }
    ensures { IfOk result (λ text. IsReplyBody reply.now (string_bytes text)) }
{
    match reply {
        Reply::Sheet(view) => title_sheet(alloc, view),
        _ => reply_text(alloc, reply),
    }
}

/// Builds the response with this body (RFC 9112, sections 4 and 5). The error is out of memory.
///
/// `closing`: the connection closes after it. `head`: the request is a HEAD, so only the length of the body
/// is sent.
#[tactic(auto, unfolding(crate::specs::Responses::response))]
pub fn response_bytes(
    alloc: Global,
    status: Status,
    medium: Medium,
    body: &str,
    closing: bool,
    head: bool,
) -> Result<Vec<u8>, AllocError>
    ensures { IfOk result (λ bytes. bytes.items ≡ response status medium body.now closing head) }
{
    let status = status.text();
    let medium = medium.text();
    let length = body.len();
    let connection = if closing { "Connection: close\r\n" } else { "" };
    let shown = if head { "" } else { body };
    let text = format!(in alloc;
        "HTTP/1.1 {status}\r\nContent-Type: {medium}\r\nContent-Length: {length}\r\n{connection}\r\n{shown}"
    )?;
    Ok(text.into_bytes())
}

/// Returns the response for the store fault 501, 502 or 503. Allocates nothing, because it is sent if out of
/// memory.
///
/// `closing` and `head` are those of `response_bytes`.
pub fn store_response(number: u16, closing: bool, head: bool) -> &'static [u8]
    requires { IsStoreFault number }
    ensures { IsResponse (reply.Store number) closing head result.now }
{
    if head {
        store_head(closing).as_bytes()
    } else if closing {
        closing_store_response(number).as_bytes()
    } else {
        keep_alive_store_response(number).as_bytes()
    }
}

/// Returns the response to a HEAD request, which is the same for the three faults.
fn store_head(closing: bool) -> &'static str
    ensures { (fault : ℕ) → IsStoreFault fault
        → IsResponse (reply.Store fault) closing true result.now }
{
    if closing {
        "HTTP/1.1 503 Service Unavailable\r\nContent-Type: application/json\r\nContent-Length: 13\r\n\
        Connection: close\r\n\r\n"
    } else {
        "HTTP/1.1 503 Service Unavailable\r\nContent-Type: application/json\r\nContent-Length: 13\r\n\r\n"
    }
}

/// Returns the response for a store fault that closes the connection.
fn closing_store_response(number: u16) -> &'static str
    requires { IsStoreFault number }
    ensures { IsResponse (reply.Store number) true false result.now }
{
    match number {
        501 =>
            "HTTP/1.1 503 Service Unavailable\r\nContent-Type: application/json\r\nContent-Length: 13\r\n\
            Connection: close\r\n\r\n{\"store\":501}",
        502 =>
            "HTTP/1.1 503 Service Unavailable\r\nContent-Type: application/json\r\nContent-Length: 13\r\n\
            Connection: close\r\n\r\n{\"store\":502}",
        _ =>
            "HTTP/1.1 503 Service Unavailable\r\nContent-Type: application/json\r\nContent-Length: 13\r\n\
            Connection: close\r\n\r\n{\"store\":503}",
    }
}

/// Returns the response for a store fault that keeps the connection open.
fn keep_alive_store_response(number: u16) -> &'static str
    requires { IsStoreFault number }
    ensures { IsResponse (reply.Store number) false false result.now }
{
    match number {
        501 =>
            "HTTP/1.1 503 Service Unavailable\r\nContent-Type: application/json\r\nContent-Length: 13\r\n\
            \r\n{\"store\":501}",
        502 =>
            "HTTP/1.1 503 Service Unavailable\r\nContent-Type: application/json\r\nContent-Length: 13\r\n\
            \r\n{\"store\":502}",
        _ =>
            "HTTP/1.1 503 Service Unavailable\r\nContent-Type: application/json\r\nContent-Length: 13\r\n\
            \r\n{\"store\":503}",
    }
}

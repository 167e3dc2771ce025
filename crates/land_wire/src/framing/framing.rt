//! Reads the length of the body after a head.
ghost use Rattle.std.specs.Prelude.{◌≡◌, ◌≤◌, IfOk};
ghost use Rattle.httparse.specs.Grammar.{RequestHead};
ghost use Rattle.httparse.specs.Spans.{IsRequestAt, IsRequestWithin};
ghost use Rattle.land_wire.specs.Framing.Frame.{body_limit, body_length_of, length_of};

use crate::framing::frame_fault::FrameFault;
use crate::framing::named::{Occurrence, find_field};
use httparse::spans::{HeaderSpan, RequestSpans};
use land_wire_json::bodies::decimals::read_digits;

/// The maximum number of fields in a head.
pub const MAX_FIELDS: usize = 64;

/// The maximum length of a body, in bytes.
pub const BODY_LIMIT: u64 = 1_048_576;

/// The maximum number of digits of a length.
const MAX_LENGTH_DIGITS: usize = 18;

/// Returns the length of the body after a head, from its `Content-Length` (RFC 9110, section 8.6).
///
/// Errors, the first one of: 140 `Head` if the head has more than 64 fields; 143 `Encoding` if it has a
/// `Transfer-Encoding`; 140 `Head` if `Content-Length` is repeated or is not 1 to 18 digits; 142 `BodyLong`
/// if it is more than 1_048_576.
pub fn body_length_of(
    spans: &RequestSpans,
    head: &[u8],
    headers: &[HeaderSpan],
) -> Result<usize, FrameFault>
    requires { IsRequestWithin head.now headers.now spans.now }
    ensures value { (h : RequestHead) → IsRequestAt head.now headers.now spans.now h
        → result ≡ body_length_of h }
    ensures bound { IfOk result (λ n. n ≤ body_limit) }
{
    if spans.headers > MAX_FIELDS {
        return Err(FrameFault::Head);
    }
    let fields = &headers[..spans.headers];
    match find_field(head, fields, "transfer-encoding") {
        Occurrence::Absent => {}
        _ => return Err(FrameFault::Encoding),
    }
    match find_field(head, fields, "content-length") {
        Occurrence::Absent => Ok(0),
        Occurrence::Once(value) => read_length(value.of(head)),
        Occurrence::Repeated => Err(FrameFault::Head),
    }
}

/// Reads the length in a value.
fn read_length(value: &[u8]) -> Result<usize, FrameFault>
    ensures value { result ≡ length_of value.now }
    ensures bound { IfOk result (λ n. n ≤ body_limit) }
{
    match read_digits(value, MAX_LENGTH_DIGITS) {
        None => Err(FrameFault::Head),
        Some(length) if length > BODY_LIMIT => Err(FrameFault::BodyLong),
        Some(length) => Ok(length as usize),
    }
}

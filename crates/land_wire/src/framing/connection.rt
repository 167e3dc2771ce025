//! Reads from a head whether the connection closes and whether the response has a body.
ghost use Rattle.std.specs.Prelude.{◌≡◌};
ghost use Rattle.httparse.specs.Grammar.{RequestHead, trim_ows};
ghost use Rattle.httparse.specs.Spans.{IsRequestAt, IsRequestWithin};
ghost use Rattle.land_wire.specs.Framing.Frame.{wants_close, is_head, has_close_option, is_close_option};

use crate::words::matches_ignoring_case;
use httparse::is_space_or_tab;
use httparse::spans::{HeaderSpan, RequestSpans};

/// Checks whether the connection closes after the request (RFC 9112, section 9.3): the version is HTTP/1.0,
/// or a `Connection` field has the option `close`, compared without case.
#[tactic(auto, unfolding(crate::specs::Framing::Frame::wants_close))]
pub fn wants_close(spans: &RequestSpans, head: &[u8], headers: &[HeaderSpan]) -> bool
    requires { IsRequestWithin head.now headers.now spans.now }
    ensures { (h : RequestHead) → IsRequestAt head.now headers.now spans.now h → result ≡ wants_close h }
{
    if spans.version == 0 {
        return true;
    }
    for field in &headers[..spans.headers] {
        if matches_ignoring_case(field.name.of(head), "connection")
            && has_close_option(field.value.of(head))
        {
            return true;
        }
    }
    false
}

/// Checks whether the method is `HEAD`, whose response has no body (RFC 9110, section 9.3.2).
#[tactic(auto, unfolding(crate::specs::Framing::Frame::is_head))]
pub fn is_head(spans: &RequestSpans, head: &[u8], headers: &[HeaderSpan]) -> bool
    requires { IsRequestWithin head.now headers.now spans.now }
    ensures { (h : RequestHead) → IsRequestAt head.now headers.now spans.now h → result ≡ is_head h }
{
    spans.method.of(head) == b"HEAD".as_slice()
}

/// Checks whether `close` is one of the words between commas.
fn has_close_option(value: &[u8]) -> bool
    ensures { result ≡ has_close_option value.now }
{
    value.split(|byte| *byte == b',').any(is_close_option)
}

fn is_close_option(word: &[u8]) -> bool
    ensures { result ≡ is_close_option word.now }
{
    matches_ignoring_case(trim_whitespace(word), "close")
}

/// Returns the bytes without the spaces and tabs around them.
fn trim_whitespace(bytes: &[u8]) -> &[u8]
    ensures { result.now ≡ trim_ows bytes.now }
{
    let mut start = 0;
    let mut end = bytes.len();
    while start < end && is_space_or_tab(bytes[start]) {
        start += 1;
    }
    while start < end && is_space_or_tab(bytes[end - 1]) {
        end -= 1;
    }
    &bytes[start..end]
}

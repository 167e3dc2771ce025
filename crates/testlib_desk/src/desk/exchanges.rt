//! Requests and replies as bytes, with a new register.
use crate::desk::office::is_answered;
use std::alloc::Global;
use testlib_scenario::first::{ANNA_ENROLLED_RESPONSE, ENROL_ANNA_REQUEST};
use testlib_scenario::stop::{Stop, expect};

/// The number of items that get a reply, the input, and the output.
struct Exchange(u64, &'static [u8], &'static [u8]);

/// The reply to the operator that lists the parties of a new register.
const LISTED: &[u8] =
    b"HTTP/1.1 200 OK\r\nContent-Type: application/json\r\nContent-Length: 15\r\n\r\n{\"numbers\":[1]}";

/// The same, after which the connection closes.
const LISTED_LAST: &[u8] =
    b"HTTP/1.1 200 OK\r\nContent-Type: application/json\r\nContent-Length: 15\r\nConnection: close\r\n\r\n{\"numbers\":[1]}";

const EXCHANGES: &[Exchange] = &[
    // An empty input.
    Exchange(0, b"", b""),
    // The same enrolment twice: the second creates another party.
    Exchange(
        2,
        b"POST /acts/enrol HTTP/1.1\r\nRegister-Party: 1\r\nRegister-Role: stateAdministrator\r\nContent-Length: 38\r\n\r\n{\"kind\":\"naturalPerson\",\"name\":\"Anna\"}POST /acts/enrol HTTP/1.1\r\nRegister-Party: 1\r\nRegister-Role: stateAdministrator\r\nContent-Length: 38\r\n\r\n{\"kind\":\"naturalPerson\",\"name\":\"Anna\"}",
        b"HTTP/1.1 200 OK\r\nContent-Type: application/json\r\nContent-Length: 36\r\n\r\n{\"made\":[2],\"number\":2,\"stamp\":1000}HTTP/1.1 200 OK\r\nContent-Type: application/json\r\nContent-Length: 36\r\n\r\n{\"made\":[3],\"number\":3,\"stamp\":1001}",
    ),
    // The last byte is missing.
    Exchange(
        2,
        b"POST /acts/enrol HTTP/1.1\r\nRegister-Party: 1\r\nRegister-Role: stateAdministrator\r\nContent-Length: 38\r\n\r\n{\"kind\":\"naturalPerson\",\"name\":\"Anna\"}POST /acts/enrol HTTP/1.1\r\nRegister-Party: 1\r\nRegister-Role: stateAdministrator\r\nContent-Length: 38\r\n\r\n{\"kind\":\"naturalPerson\",\"name\":\"Anna\"",
        b"HTTP/1.1 200 OK\r\nContent-Type: application/json\r\nContent-Length: 36\r\n\r\n{\"made\":[2],\"number\":2,\"stamp\":1000}HTTP/1.1 400 Bad Request\r\nContent-Type: application/json\r\nContent-Length: 13\r\nConnection: close\r\n\r\n{\"fault\":144}",
    ),
    // An empty line after the last body begins another request.
    Exchange(
        2,
        b"GET /parties HTTP/1.1\r\nRegister-Party: 1\r\nRegister-Role: stateAdministrator\r\n\r\n\r\n",
        b"HTTP/1.1 200 OK\r\nContent-Type: application/json\r\nContent-Length: 15\r\n\r\n{\"numbers\":[1]}HTTP/1.1 400 Bad Request\r\nContent-Type: application/json\r\nContent-Length: 13\r\nConnection: close\r\n\r\n{\"fault\":144}",
    ),
    Exchange(
        1,
        b"POST /acts/enrol HTTP/1.1\r\nRegister-Party: 9\r\nRegister-Role: stateAdministrator\r\nContent-Length: 38\r\n\r\n{\"kind\":\"naturalPerson\",\"name\":\"Anna\"}",
        b"HTTP/1.1 403 Forbidden\r\nContent-Type: application/json\r\nContent-Length: 12\r\n\r\n{\"denied\":1}",
    ),
    // Input after a framing fault gets no reply.
    Exchange(
        1,
        b"POST /acts/enrol HTTP/1.1\r\nTransfer-Encoding: chunked\r\n\r\nGET /parties HTTP/1.1\r\nRegister-Party: 1\r\nRegister-Role: stateAdministrator\r\n\r\n",
        b"HTTP/1.1 400 Bad Request\r\nContent-Type: application/json\r\nContent-Length: 13\r\nConnection: close\r\n\r\n{\"fault\":143}",
    ),
    // Input after any other fault gets a reply.
    Exchange(
        2,
        b"POST /acts/enrol HTTP/1.1\r\nRegister-Party: 1\r\nRegister-Role: stateAdministrator\r\nContent-Length: 1\r\n\r\n{GET /parties HTTP/1.1\r\nRegister-Party: 1\r\nRegister-Role: stateAdministrator\r\n\r\n",
        b"HTTP/1.1 400 Bad Request\r\nContent-Type: application/json\r\nContent-Length: 13\r\n\r\n{\"fault\":130}HTTP/1.1 200 OK\r\nContent-Type: application/json\r\nContent-Length: 15\r\n\r\n{\"numbers\":[1]}",
    ),
    // The reply to a HEAD has no body, and the next one begins after its head.
    Exchange(
        2,
        b"HEAD /parties HTTP/1.1\r\nRegister-Party: 1\r\nRegister-Role: stateAdministrator\r\n\r\nGET /parties HTTP/1.1\r\nRegister-Party: 1\r\nRegister-Role: stateAdministrator\r\n\r\n",
        b"HTTP/1.1 400 Bad Request\r\nContent-Type: application/json\r\nContent-Length: 13\r\n\r\nHTTP/1.1 200 OK\r\nContent-Type: application/json\r\nContent-Length: 15\r\n\r\n{\"numbers\":[1]}",
    ),
    // A truncated HEAD is not a whole request, so the reply has a body.
    Exchange(
        1,
        b"HEAD /parties HTTP/1.1\r\n",
        b"HTTP/1.1 400 Bad Request\r\nContent-Type: application/json\r\nContent-Length: 13\r\nConnection: close\r\n\r\n{\"fault\":144}",
    ),
    // Fields in any case and order.
    Exchange(
        1,
        b"POST /acts/enrol HTTP/1.1\r\nhost: land\r\ncontent-length:\t 038 \t\r\nREGISTER-ROLE:stateAdministrator\r\nregister-PARTY:   0000000000001\t\r\n\r\n{\"kind\":\"naturalPerson\",\"name\":\"Anna\"}",
        ANNA_ENROLLED_RESPONSE,
    ),
    // Empty lines, also between requests, and lines that end with only a line feed.
    Exchange(
        2,
        b"\r\n\nGET /parties HTTP/1.1\nRegister-Party: 1\nRegister-Role: stateAdministrator\n\n\r\n\nGET / HTTP/1.1\n\n",
        b"HTTP/1.1 200 OK\r\nContent-Type: application/json\r\nContent-Length: 15\r\n\r\n{\"numbers\":[1]}HTTP/1.1 400 Bad Request\r\nContent-Type: application/json\r\nContent-Length: 13\r\n\r\n{\"fault\":136}",
    ),
    // The body of a GET is discarded.
    Exchange(
        2,
        b"GET /parties HTTP/1.1\r\nRegister-Party: 1\r\nRegister-Role: stateAdministrator\r\nContent-Length: 3\r\n\r\n{]?GET /units HTTP/1.1\r\nRegister-Party: 1\r\nRegister-Role: stateAdministrator\r\n\r\n",
        b"HTTP/1.1 200 OK\r\nContent-Type: application/json\r\nContent-Length: 15\r\n\r\n{\"numbers\":[1]}HTTP/1.1 200 OK\r\nContent-Type: application/json\r\nContent-Length: 14\r\n\r\n{\"numbers\":[]}",
    ),
    // The connection closes on request, and input after that gets no reply.
    Exchange(
        1,
        b"GET /parties HTTP/1.1\r\nRegister-Party: 1\r\nRegister-Role: stateAdministrator\r\n\r\n",
        LISTED,
    ),
    Exchange(
        1,
        b"GET /parties HTTP/1.0\r\nRegister-Party: 1\r\nRegister-Role: stateAdministrator\r\n\r\nGET / HTTP/1.1\r\n\r\n",
        LISTED_LAST,
    ),
    Exchange(
        1,
        b"GET /parties HTTP/1.0\r\nRegister-Party: 1\r\nRegister-Role: stateAdministrator\r\nConnection: keep-alive\r\n\r\n",
        LISTED_LAST,
    ),
    Exchange(
        1,
        b"GET /parties HTTP/1.1\r\nRegister-Party: 1\r\nRegister-Role: stateAdministrator\r\nConnection: close\r\n\r\nGET / HTTP/1.1\r\n\r\n",
        LISTED_LAST,
    ),
    Exchange(
        1,
        b"GET /parties HTTP/1.1\r\nRegister-Party: 1\r\nRegister-Role: stateAdministrator\r\nconnection: keep-alive, \tClose \r\n\r\n",
        LISTED_LAST,
    ),
    Exchange(
        1,
        b"GET /parties HTTP/1.1\r\nRegister-Party: 1\r\nRegister-Role: stateAdministrator\r\nConnection: a\r\nConnection: close\r\n\r\n",
        LISTED_LAST,
    ),
    Exchange(
        1,
        b"GET /parties HTTP/1.1\r\nRegister-Party: 1\r\nRegister-Role: stateAdministrator\r\nConnection: closed\r\n\r\n",
        LISTED,
    ),
    // Likewise after a fault.
    Exchange(
        1,
        b"GET / HTTP/1.0\r\n\r\nGET / HTTP/1.1\r\n\r\n",
        b"HTTP/1.1 400 Bad Request\r\nContent-Type: application/json\r\nContent-Length: 13\r\nConnection: close\r\n\r\n{\"fault\":136}",
    ),
];

/// Checks requests and their replies byte for byte.
pub fn requests_and_replies_as_bytes(alloc: Global) -> Result<(), Stop> {
    for (place, row) in EXCHANGES.iter().enumerate() {
        let is_answered = is_answered(alloc, row.1, 50, row.0, row.2)?;
        expect(is_answered, "row", place)?;
    }
    Ok(())
}

/// Checks that the first enrolment is the same in chunks of any size.
pub fn the_first_run(alloc: Global) -> Result<(), Stop> {
    let lengths = (ENROL_ANNA_REQUEST.len(), ANNA_ENROLLED_RESPONSE.len());
    expect(lengths == (141, 107), "lengths", 0)?;
    for piece in 1..=ENROL_ANNA_REQUEST.len() {
        let is_answered = is_answered(alloc, ENROL_ANNA_REQUEST, piece, 1, ANNA_ENROLLED_RESPONSE)?;
        expect(is_answered, "in pieces of", piece)?;
    }
    Ok(())
}

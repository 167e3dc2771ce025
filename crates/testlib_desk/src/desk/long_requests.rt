//! Requests at the limits of their sizes, with a new register.
use crate::desk::office::is_reply_as_expected;
use std::alloc::{AllocError, Global};
use testlib_scenario::stop::{Stop, expect};
use testlib_scenario::talk::ExpectedReply;

/// A request with a part that is repeated in its middle, and its reply.
struct Long {
    front: &'static [u8],
    filler: &'static [u8],
    times: usize,
    back: &'static [u8],
    told: ExpectedReply,
    ends: bool,
}

const LONG: &[Long] = &[
    // A name has at most 200 characters, here of four bytes each.
    Long {
        front: b"POST /acts/enrol HTTP/1.1\r\nRegister-Party: 1\r\nRegister-Role: stateAdministrator\r\nContent-Length: 38\r\n\r\n{\"kind\":\"naturalPerson\",\"name\":\"",
        filler: b"\xf0\x9f\x98\x80",
        times: 1,
        back: b"\"}",
        told: ExpectedReply::Shown("{\"made\":[2],\"number\":2,\"stamp\":1000}"),
        ends: false,
    },
    Long {
        front: b"POST /acts/enrol HTTP/1.1\r\nRegister-Party: 1\r\nRegister-Role: stateAdministrator\r\nContent-Length: 834\r\n\r\n{\"kind\":\"naturalPerson\",\"name\":\"",
        filler: b"\xf0\x9f\x98\x80",
        times: 200,
        back: b"\"}",
        told: ExpectedReply::Shown("{\"made\":[2],\"number\":2,\"stamp\":1000}"),
        ends: false,
    },
    Long {
        front: b"POST /acts/enrol HTTP/1.1\r\nRegister-Party: 1\r\nRegister-Role: stateAdministrator\r\nContent-Length: 838\r\n\r\n{\"kind\":\"naturalPerson\",\"name\":\"",
        filler: b"\xf0\x9f\x98\x80",
        times: 201,
        back: b"\"}",
        told: ExpectedReply::Fault(133),
        ends: false,
    },
    // A head has at most 8192 bytes, with the empty lines before it.
    Long {
        front: b"GET /parties HTTP/1.1\r\nRegister-Party: 1\r\nRegister-Role: stateAdministrator\r\nA: ",
        filler: b"x",
        times: 8192 - 84,
        back: b"\r\n\r\n",
        told: ExpectedReply::Shown("{\"numbers\":[1]}"),
        ends: false,
    },
    Long {
        front: b"\nGET /parties HTTP/1.1\r\nRegister-Party: 1\r\nRegister-Role: stateAdministrator\r\nA: ",
        filler: b"x",
        times: 8192 - 84,
        back: b"\r\n\r\n",
        told: ExpectedReply::Fault(141),
        ends: true,
    },
    Long {
        front: b"BGET /parties HTTP/1.1\r\nRegister-Party: 1\r\nRegister-Role: stateAdministrator\r\nA: ",
        filler: b"x",
        times: 8192 - 84,
        back: b"\r\n\r\n",
        told: ExpectedReply::Fault(141),
        ends: true,
    },
    Long {
        front: b"GET /parties HTTP/1.1\r\nRegister-Party: 1\r\nRegister-Role: stateAdministrator\r\nA: ",
        filler: b"x",
        times: 8192,
        back: b"\r\nContent-Length: 0\r\n\r\n",
        told: ExpectedReply::Fault(141),
        ends: true,
    },
    // An incomplete head, below 8192 bytes and at 8192 bytes.
    Long {
        front: b"",
        filler: b"X",
        times: 8191,
        back: b"",
        told: ExpectedReply::Fault(144),
        ends: true,
    },
    Long {
        front: b"",
        filler: b"X",
        times: 8192,
        back: b"",
        told: ExpectedReply::Fault(141),
        ends: true,
    },
    // A head has at most 64 fields.
    Long {
        front: b"GET /parties HTTP/1.1\r\nRegister-Party: 1\r\nRegister-Role: stateAdministrator\r\n",
        filler: b"a:b\r\n",
        times: 62,
        back: b"\r\n",
        told: ExpectedReply::Shown("{\"numbers\":[1]}"),
        ends: false,
    },
    Long {
        front: b"GET /parties HTTP/1.1\r\nRegister-Party: 1\r\nRegister-Role: stateAdministrator\r\n",
        filler: b"a:b\r\n",
        times: 62,
        back: b"Transfer-Encoding: chunked\r\n\r\n",
        told: ExpectedReply::Fault(140),
        ends: true,
    },
    // Only a whole head has too many fields.
    Long {
        front: b"GET /parties HTTP/1.1\r\nRegister-Party: 1\r\nRegister-Role: stateAdministrator\r\n",
        filler: b"a:b\r\n",
        times: 62,
        back: b"Transfer-Encoding: chunked\r\n",
        told: ExpectedReply::Fault(144),
        ends: true,
    },
    // A body has at most 1048576 bytes.
    Long {
        front: b"POST /acts/enrol HTTP/1.1\r\nRegister-Party: 1\r\nRegister-Role: stateAdministrator\r\nContent-Length: 1048576\r\n\r\n",
        filler: b" ",
        times: 1_048_576,
        back: b"",
        told: ExpectedReply::Fault(130),
        ends: false,
    },
    Long {
        front: b"POST /acts/enrol HTTP/1.1\r\nRegister-Party: 1\r\nRegister-Role: stateAdministrator\r\nContent-Length: 1048577\r\n\r\n",
        filler: b" ",
        times: 1_048_577,
        back: b"",
        told: ExpectedReply::Fault(142),
        ends: true,
    },
];

/// Returns a prefix, a repeated middle, and a suffix.
pub fn joined(
    alloc: Global,
    front: &[u8],
    filler: &[u8],
    times: usize,
    back: &[u8],
) -> Result<Vec<u8>, AllocError> {
    let mut bytes = Vec::new(alloc);
    bytes.extend_from_slice(front)?;
    for _ in 0..times {
        bytes.extend_from_slice(filler)?;
    }
    bytes.extend_from_slice(back)?;
    Ok(bytes)
}

fn is_limit_reported(alloc: Global, row: &Long) -> Result<bool, Stop> {
    let input = joined(alloc, row.front, row.filler, row.times, row.back)?;
    is_reply_as_expected(alloc, &input, row.told, row.ends)
}

/// Checks the limits of requests.
pub fn requests_have_limits(alloc: Global) -> Result<(), Stop> {
    for (place, row) in LONG.iter().enumerate() {
        expect(is_limit_reported(alloc, row)?, "row", place)?;
    }
    Ok(())
}

/// The depth of nested arrays, and the fault of such a body: 127 levels are JSON, 128 and more are not.
struct Deep {
    front: &'static [u8],
    depth: usize,
    fault: u16,
}

const DEEP: &[Deep] = &[
    Deep {
        front: b"POST /acts/enrol HTTP/1.1\r\nRegister-Party: 1\r\nRegister-Role: stateAdministrator\r\nContent-Length: 254\r\n\r\n",
        depth: 127,
        fault: 131,
    },
    Deep {
        front: b"POST /acts/enrol HTTP/1.1\r\nRegister-Party: 1\r\nRegister-Role: stateAdministrator\r\nContent-Length: 256\r\n\r\n",
        depth: 128,
        fault: 130,
    },
    Deep {
        front: b"POST /acts/enrol HTTP/1.1\r\nRegister-Party: 1\r\nRegister-Role: stateAdministrator\r\nContent-Length: 400\r\n\r\n",
        depth: 200,
        fault: 130,
    },
];

/// Returns a request whose body has arrays nested to this depth.
fn nested(alloc: Global, row: &Deep) -> Result<Vec<u8>, AllocError> {
    let mut input = joined(alloc, row.front, b"[", row.depth, b"")?;
    for _ in 0..row.depth {
        input.push(b']')?;
    }
    Ok(input)
}

fn is_depth_reported(alloc: Global, row: &Deep) -> Result<bool, Stop> {
    let input = nested(alloc, row)?;
    is_reply_as_expected(alloc, &input, ExpectedReply::Fault(row.fault), false)
}

/// Checks that arrays may be nested to this depth, and not deeper.
pub fn bodies_have_depth_limits(alloc: Global) -> Result<(), Stop> {
    for row in DEEP {
        expect(is_depth_reported(alloc, row)?, "depth", row.depth)?;
    }
    Ok(())
}

//! Requests as one stream, and the expected replies as another.
use land_desk::serve::{DeskFault, Served};
use std::alloc::{AllocError, Global};
use std::fmt::Write;

/// The fields of the office as the caller.
pub const OFFICE: &str = "Register-Party: 1\r\nRegister-Role: stateAdministrator\r\n";

/// The fields of Anna, Ben, Nora and Sam as callers.
pub const ANNA: &str = "Register-Party: 2\r\nRegister-Role: citizen\r\n";

pub const BEN: &str = "Register-Party: 3\r\nRegister-Role: citizen\r\n";

pub const NORA: &str = "Register-Party: 5\r\nRegister-Role: citizen\r\n";

pub const SAM: &str = "Register-Party: 6\r\nRegister-Role: citizen\r\n";

/// The bank, Nora as notary, and Sam as certified surveyor.
pub const BANK: &str = "Register-Party: 4\r\nRegister-Role: bank\r\n";

pub const NOTARY: &str = "Register-Party: 5\r\nRegister-Role: notary\r\n";

pub const SURVEYOR: &str = "Register-Party: 6\r\nRegister-Role: certifiedSurveyor\r\n";

/// The body that enrols Anna.
pub const ENROL: &[u8] = br#"{"kind":"naturalPerson","name":"Anna"}"#;

const JSON: &str = "application/json";

const PLAIN: &str = "text/plain; charset=utf-8";

/// An expected reply.
#[derive(Clone, Copy)]
pub enum ExpectedReply {
    /// 200: an object, numbers or a receipt.
    Shown(&'static str),
    /// 200: a title sheet.
    Sheet(&'static str),
    /// 403: the number of the rule that denies.
    Denied(u16),
    /// 409: the number of the refusal.
    Refused(u16),
    /// 400: the number of the fault.
    Fault(u16),
    /// 400 for a HEAD request: without a body, but with this length.
    HeadFault(usize),
}

/// A request and its expected reply: its line without the version, the fields of its caller, its body.
pub struct Row(
    pub &'static str,
    pub &'static str,
    pub &'static [u8],
    pub ExpectedReply,
);

/// The position of a row: its name and place, and its ends in the input and in the output.
#[derive(Clone, Copy)]
pub struct Mark {
    name: &'static str,
    place: usize,
    pub asked: usize,
    pub told: usize,
}

/// Requests as one stream, and the expected replies as another.
#[derive(Drop)]
pub struct Transcript {
    pub input: Vec<u8>,
    pub output: String,
    pub marks: Vec<Mark>,
    /// A buffer for a line or a body.
    line: String,
}

/// Returns the length of the common prefix.
pub fn common(first: &[u8], second: &[u8]) -> usize {
    let most = first.len().min(second.len());
    for place in 0..most {
        if first[place] != second[place] {
            return place;
        }
    }
    most
}

impl Transcript {
    /// Creates an empty list of requests.
    pub fn new(alloc: Global) -> Result<Transcript, AllocError> {
        Ok(Transcript {
            input: Vec::with_capacity(alloc, 65536)?,
            output: String::with_capacity(alloc, 65536)?,
            marks: Vec::with_capacity(alloc, 256)?,
            line: String::with_capacity(alloc, 256)?,
        })
    }

    /// Appends the requests of these rows.
    pub fn ask_all(&mut self, name: &'static str, rows: &[Row]) -> Result<(), AllocError> {
        for (place, row) in rows.iter().enumerate() {
            self.ask(name, place, row)?;
        }
        Ok(())
    }

    /// Appends the request of a row.
    pub fn ask(&mut self, name: &'static str, place: usize, row: &Row) -> Result<(), AllocError> {
        self.push_request(row.0, row.1, row.2)?;
        self.tell(row.3, false)?;
        self.mark(name, place)
    }

    /// Marks the end of a row.
    pub fn mark(&mut self, name: &'static str, place: usize) -> Result<(), AllocError> {
        self.marks.push(Mark {
            name,
            place,
            asked: self.input.len(),
            told: self.output.len(),
        })?;
        Ok(())
    }

    /// Appends a request: its line without the version, the fields of its caller, its body.
    pub fn push_request(
        &mut self,
        line: &str,
        fields: &str,
        body: &[u8],
    ) -> Result<(), AllocError> {
        let length = body.len();
        self.line.clear();
        write!(
            self.line,
            "{line} HTTP/1.1\r\n{fields}Content-Length: {length}\r\n\r\n"
        )?;
        self.input.extend_from_slice(self.line.as_bytes())?;
        self.input.extend_from_slice(body)
    }

    /// Appends an expected reply. `ends`: the connection closes after it.
    pub fn tell(&mut self, told: ExpectedReply, ends: bool) -> Result<(), AllocError> {
        match told {
            ExpectedReply::Shown(text) => write_reply(&mut self.output, "200 OK", JSON, ends, text),
            ExpectedReply::Sheet(text) => write_reply(
                &mut self.output,
                "200 OK",
                PLAIN,
                ends,
                text,
            ),
            ExpectedReply::Denied(number) => self.expect_number(
                "403 Forbidden",
                "denied",
                number,
                ends,
            ),
            ExpectedReply::Refused(number) => self.expect_number(
                "409 Conflict",
                "refused",
                number,
                ends,
            ),
            ExpectedReply::Fault(number) => self.expect_number(
                "400 Bad Request",
                "fault",
                number,
                ends,
            ),
            ExpectedReply::HeadFault(length) => {
                write_head(&mut self.output, "400 Bad Request", JSON, ends, length)
            }
        }
    }

    /// Appends an expected 200 with a JSON body. The connection stays open.
    pub fn expect_object(&mut self, text: &str) -> Result<(), AllocError> {
        write_reply(&mut self.output, "200 OK", JSON, false, text)
    }

    /// Appends an expected reply that is a number.
    fn expect_number(
        &mut self,
        status: &str,
        word: &str,
        number: u16,
        ends: bool,
    ) -> Result<(), AllocError> {
        self.line.clear();
        write!(self.line, "{{\"{word}\":{number}}}")?;
        write_reply(&mut self.output, status, JSON, ends, self.line.as_str())
    }

    /// Returns the name and the place of the first row with an unexpected reply, if any.
    pub fn first_mismatch(
        &self,
        served: &Result<Served, DeskFault>,
        taken: &[u8],
    ) -> Option<(&'static str, usize)> {
        let right = common(taken, self.output.as_bytes());
        for mark in &self.marks {
            if right < mark.told {
                return Some((mark.name, mark.place));
            }
        }
        let replies = self.marks.len() as u64;
        if *served == Ok(Served { replies }) && taken.len() == self.output.len() {
            return None;
        }
        Some(("the end", 0))
    }
}

/// Writes a response.
fn write_reply(
    output: &mut String,
    status: &str,
    medium: &str,
    ends: bool,
    text: &str,
) -> Result<(), AllocError> {
    write_head(output, status, medium, ends, text.len())?;
    output.push_str(text)
}

/// Writes the head of a response.
fn write_head(
    output: &mut String,
    status: &str,
    medium: &str,
    ends: bool,
    length: usize,
) -> Result<(), AllocError> {
    let close = if ends { "Connection: close\r\n" } else { "" };
    write!(
        output,
        "HTTP/1.1 {status}\r\nContent-Type: {medium}\r\nContent-Length: {length}\r\n{close}\r\n"
    )
}

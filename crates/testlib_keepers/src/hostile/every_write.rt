//! The first enrolment, with a writer that fails after each byte of its reply.
use crate::each::{Trial, over_each};
use crate::hostile::stream::Stream;
use land_core::kind::Kind;
use land_core::object::Object;
use land_desk::serve::DeskFault;
use land_keep::keeper::Keeper;
use std::alloc::Global;
use testlib_scenario::first::{ANNA_ENROLLED_RESPONSE, ENROL_ANNA_REQUEST};
use testlib_scenario::stop::{Stop, expect};

/// A writer that fails after the given number of bytes: the enrolment exists.
fn unwritten_after(bytes: usize) -> Stream<'static> {
    Stream {
        input: ENROL_ANNA_REQUEST,
        piece: usize::MAX,
        reads: u64::MAX,
        writes: bytes,
        ending: Err(DeskFault::Write),
        told: &ANNA_ENROLLED_RESPONSE[..bytes.min(ANNA_ENROLLED_RESPONSE.len())],
        last: 1000,
    }
}

/// Checks if Anna is party 2.
fn is_enrolled<K: Keeper>(alloc: Global, keeper: &mut K) -> Result<bool, Stop> {
    match keeper.object(alloc, Kind::Party, 2, 1000)? {
        Some(Object::Party(party)) => Ok(party.number == 2 && party.name.as_str() == "Anna"),
        _ => Ok(false),
    }
}

/// The enrolment, with a writer that accepts the given number of bytes.
#[derive(Clone, Copy)]
struct Unwritten(usize);

impl Trial for Unwritten {
    fn run<K: Keeper>(&self, alloc: Global, keeper: &mut K) -> Result<(), Stop> {
        let is_served = unwritten_after(self.0).is_served(alloc, keeper)?;
        // For the writer, a reply of 501 that fails looks the same.
        if keeper.last() == 0 {
            return Err(Stop::Memory);
        }
        expect(is_served, "unwritten", self.0)?;
        expect(is_enrolled(alloc, keeper)?, "enrolled", self.0)
    }
}

/// Tests that an enrolment exists if its reply is truncated, for each length.
pub fn every_write(alloc: Global) -> Result<(), Stop> {
    for bytes in 0..ANNA_ENROLLED_RESPONSE.len() {
        over_each(alloc, &Unwritten(bytes))?;
    }
    Ok(())
}

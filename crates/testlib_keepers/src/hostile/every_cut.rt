//! The first enrolment, truncated after each of its bytes: the input ends there, or its reader fails.
use crate::each::{Trial, over_each};
use crate::hostile::stream::Stream;
use land_desk::serve::{DeskFault, Served};
use land_keep::keeper::Keeper;
use std::alloc::Global;
use testlib_scenario::calls::CUT;
use testlib_scenario::first::{ANNA_ENROLLED_RESPONSE, ENROL_ANNA_REQUEST};
use testlib_scenario::stop::{Stop, expect};

/// No byte, and no reply.
const NOTHING: Stream<'static> = Stream {
    input: b"",
    piece: 1,
    reads: u64::MAX,
    writes: usize::MAX,
    ending: Ok(Served { replies: 0 }),
    told: b"",
    last: 0,
};

/// Input that ends after the given number of bytes: one whole reply reports the truncation, and nothing
/// changes.
fn cut_after(bytes: usize) -> Stream<'static> {
    Stream {
        input: &ENROL_ANNA_REQUEST[..bytes.min(ENROL_ANNA_REQUEST.len())],
        piece: usize::MAX,
        reads: u64::MAX,
        writes: usize::MAX,
        ending: Ok(Served { replies: 1 }),
        told: CUT,
        last: 0,
    }
}

/// A reader that fails after the given number of bytes, which arrive one by one: there is no reply, and
/// nothing changes.
fn unread_after(bytes: usize) -> Stream<'static> {
    Stream {
        input: ENROL_ANNA_REQUEST,
        piece: 1,
        reads: bytes as u64,
        writes: usize::MAX,
        ending: Err(DeskFault::Read),
        told: b"",
        last: 0,
    }
}

/// All bytes, which arrive one by one.
const WHOLE: Stream<'static> = Stream {
    input: ENROL_ANNA_REQUEST,
    piece: 1,
    reads: u64::MAX,
    writes: usize::MAX,
    ending: Ok(Served { replies: 1 }),
    told: ANNA_ENROLLED_RESPONSE,
    last: 1000,
};

/// The enrolment, truncated in each way on the same register, and then complete. Anna becomes party 2 at
/// 1000, which shows that nothing changed before.
#[derive(Clone, Copy)]
struct EveryCut;

impl Trial for EveryCut {
    fn run<K: Keeper>(&self, alloc: Global, keeper: &mut K) -> Result<(), Stop> {
        expect(NOTHING.is_served(alloc, keeper)?, "nothing", 0)?;
        for bytes in 1..ENROL_ANNA_REQUEST.len() {
            expect(cut_after(bytes).is_served(alloc, keeper)?, "cut", bytes)?;
        }
        for bytes in 0..ENROL_ANNA_REQUEST.len() {
            let is_unread = unread_after(bytes).is_served(alloc, keeper)?;
            expect(is_unread, "unread", bytes)?;
        }
        expect(WHOLE.is_served(alloc, keeper)?, "the whole", 0)
    }
}

/// Tests that a truncated enrolment is not executed, for each length.
pub fn every_cut(alloc: Global) -> Result<(), Stop> {
    over_each(alloc, &EveryCut)
}

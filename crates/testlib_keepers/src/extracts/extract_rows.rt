//! The rows of extracts.
use crate::each::new_tables;
use crate::extracts::page::Page;
use crate::extracts::texts;
use land_core::caller::Caller;
use land_core::kind::Kind;
use land_core::role::Role;
use land_keep::keeper::Keeper;
use land_keep::store_fault::StoreFault;
use land_select::sql_keeper::SqlKeeper;
use land_sheet::extracts::extract::extract_to;
use land_sheet::extracts::fault::ExtractFault;
use std::alloc::Global;
use testlib_scenario::run_scenario::{plain, play_steps};
use testlib_scenario::stop::{Stop, expect};

/// An extract: the caller, its role, the kind, the time, the result, and the bytes written.
#[derive(Drop)]
struct Extract(
    u64,
    Role,
    Kind,
    Option<i64>,
    Result<u64, ExtractFault>,
    &'static str,
);

/// Extracts to a writer that accepts all bytes. The first ones are given in full.
const EXTRACTS: &[Extract] = &[
    Extract(3, Role::Citizen, Kind::Rrr, None, Ok(296), texts::ENTRIES),
    Extract(
        6,
        Role::CertifiedSurveyor,
        Kind::Rrr,
        None,
        Ok(69),
        texts::NO_ENTRIES,
    ),
    Extract(
        3,
        Role::Citizen,
        Kind::Rrr,
        Some(1018),
        Err(ExtractFault::Fault(135)),
        "",
    ),
    Extract(
        9,
        Role::Citizen,
        Kind::Rrr,
        None,
        Err(ExtractFault::Denied(1)),
        "",
    ),
    Extract(
        3,
        Role::Notary,
        Kind::Parcel,
        None,
        Err(ExtractFault::Denied(2)),
        "",
    ),
    Extract(
        4,
        Role::Bank,
        Kind::Rrr,
        Some(1012),
        Err(ExtractFault::Denied(3)),
        "",
    ),
    Extract(
        3,
        Role::Citizen,
        Kind::Rrr,
        Some(1011),
        Ok(221),
        texts::OLD_ENTRIES,
    ),
    Extract(
        5,
        Role::Notary,
        Kind::Parcel,
        Some(1011),
        Ok(123),
        texts::OLD_PARCEL,
    ),
    Extract(
        2,
        Role::Citizen,
        Kind::Parcel,
        None,
        Ok(209),
        texts::PARCELS,
    ),
    Extract(5, Role::Notary, Kind::Party, None, Ok(188), texts::PARTIES),
    Extract(5, Role::Notary, Kind::Unit, None, Ok(48), texts::UNITS),
    Extract(
        1,
        Role::StateAdministrator,
        Kind::Source,
        None,
        Ok(135),
        texts::SOURCES,
    ),
    Extract(
        1,
        Role::StateAdministrator,
        Kind::Mutation,
        None,
        Ok(187),
        texts::MUTATIONS,
    ),
];

/// Checks if a page has a text or, if out of memory, its prefix of the reported length.
fn has_prefix(page: &Page, text: &str, written: u64) -> bool {
    let taken = page.taken.as_slice();
    taken.len() as u64 == written && text.as_bytes().starts_with(taken)
}

/// Ends a test without a failure if out of memory: then a prefix of the text is written, as long as reported.
fn pass_memory(
    told: Result<u64, ExtractFault>,
    page: &Page,
    text: &str,
    place: usize,
) -> Result<(), Stop> {
    match told {
        Err(
            ExtractFault::Store {
                fault: StoreFault::NoMemory,
                written,
            },
        ) => {
            expect(has_prefix(page, text, written), "a front", place)?;
            Err(Stop::Memory)
        }
        _ => Ok(()),
    }
}

/// Writes an extract with the clock at 1000, and compares the result and the bytes written.
fn compare<K: Keeper>(
    alloc: Global,
    keeper: &mut K,
    extract: &Extract,
    place: usize,
) -> Result<(), Stop> {
    let Extract(party, role, kind, at, wanted, text) = extract;
    let caller = Caller {
        party: *party,
        role: *role,
    };
    let mut page = Page::new(alloc, 4096, false)?;
    let told = extract_to(alloc, keeper, 1000, caller, *kind, *at, &mut page);
    pass_memory(told, &page, text, place)?;
    let is_text = page.taken.as_slice() == text.as_bytes();
    expect(told == *wanted && is_text, "an extract", place)
}

/// Writes all extracts.
fn compare_all<K: Keeper>(alloc: Global, keeper: &mut K) -> Result<(), Stop> {
    for (place, extract) in EXTRACTS.iter().enumerate() {
        compare(alloc, keeper, extract, place)?;
    }
    Ok(())
}

/// A writer with space for the given number of bytes gets that many bytes of Ben's entries, and the error has
/// this number.
fn compare_cut<K: Keeper>(
    alloc: Global,
    keeper: &mut K,
    room: usize,
    fails: bool,
) -> Result<(), Stop> {
    let caller = Caller {
        party: 3,
        role: Role::Citizen,
    };
    let mut page = Page::new(alloc, room, fails)?;
    let told = extract_to(alloc, keeper, 1000, caller, Kind::Rrr, None, &mut page);
    pass_memory(told, &page, texts::ENTRIES, room)?;
    let written = room as u64;
    let is_cut = told == Err(ExtractFault::Write { written });
    expect(
        is_cut && has_prefix(&page, texts::ENTRIES, written),
        "a cut",
        room,
    )
}

/// Writers that stop in the header, at its end, in rows, at the end of a row, and one byte too early.
fn compare_cuts<K: Keeper>(alloc: Global, keeper: &mut K) -> Result<(), Stop> {
    for room in [0usize, 1, 68, 69, 70, 96, 100, 101, 295] {
        compare_cut(alloc, keeper, room, true)?;
        compare_cut(alloc, keeper, room, false)?;
    }
    Ok(())
}

/// Tests the extracts of the keeper in memory.
pub fn extract_rows(alloc: Global) -> Result<(), Stop> {
    let mut keeper = plain(alloc)?;
    compare_all(alloc, &mut keeper)?;
    compare_cuts(alloc, &mut keeper)
}

/// Tests the extracts of the indexed keeper.
pub fn extract_rows_of_joins(alloc: Global) -> Result<(), Stop> {
    let mut keeper = SqlKeeper::new(new_tables(alloc)?);
    play_steps(alloc, &mut keeper)?;
    compare_all(alloc, &mut keeper)?;
    compare_cuts(alloc, &mut keeper)
}

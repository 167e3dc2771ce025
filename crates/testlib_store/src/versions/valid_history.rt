//! Valid and invalid histories.
ghost use Rattle.std.specs.Prelude.{◌≡◌};
ghost use Rattle.land_tables_validity.specs.CoverageSpans.{are_in_range};

use crate::versions::cell::Cell;
use crate::versions::histories::{OPEN, Span, history_of};
use crate::versions::table::Table;
use land_tables_history::intervals::has_intervals;
use land_tables_history::moment::Moment;
use land_tables_history::moments::{last, next_at};
use land_tables_validity::valid_history::is_valid_history;
use sqlite::{Alter, Connection, Error};
use std::alloc::Global;
use testlib_scenario::stop::{Stop, expect};

/// The cells of the Land Office, and of its role.
const OFFICE: &[(usize, Cell)] = &[
    (0, Cell::Number(1)),
    (1, Cell::Words("Land Office")),
    (2, Cell::Words("nonNaturalPerson")),
];

const ADMINISTRATOR: &[(usize, Cell)] = &[
    (0, Cell::Number(1)),
    (1, Cell::Words("stateAdministrator")),
];

/// A new register.
const NEW: &[Span] = &[
    Span(Table::Party, OFFICE, 0, OPEN),
    Span(Table::Role, ADMINISTRATOR, 0, OPEN),
];

/// A mutation with all records that it refers to, and the unit of its row of `names`, which need not exist.
const LODGED: &[Span] = &[
    Span(Table::Party, OFFICE, 0, OPEN),
    Span(Table::Role, ADMINISTRATOR, 0, OPEN),
    Span(Table::Party, &[(0, Cell::Number(4))], 1000, OPEN),
    Span(Table::Source, &[(0, Cell::Number(17))], 1000, OPEN),
    Span(Table::Mutation, &[], 1000, OPEN),
    Span(Table::Names, &[], 1000, OPEN),
];

/// The commits, the versions, and whether the history is valid.
struct Case(&'static [Moment], &'static [Span], bool);

const CASES: &[Case] = &[
    Case(&[Moment { stamp: 0, next: 2 }], NEW, true),
    // without a commit, or with one stamp twice
    Case(&[], &[], false),
    Case(
        &[Moment { stamp: 0, next: 2 }, Moment { stamp: 0, next: 2 }],
        NEW,
        false,
    ),
    // the next number decreases, in any order of the commits
    Case(
        &[
            Moment { stamp: 0, next: 5 },
            Moment {
                stamp: 1000,
                next: 5,
            },
        ],
        NEW,
        true,
    ),
    Case(
        &[
            Moment { stamp: 0, next: 5 },
            Moment {
                stamp: 1000,
                next: 4,
            },
        ],
        NEW,
        false,
    ),
    Case(
        &[
            Moment {
                stamp: 1000,
                next: 4,
            },
            Moment { stamp: 0, next: 5 },
        ],
        NEW,
        false,
    ),
    Case(
        &[
            Moment { stamp: 0, next: 2 },
            Moment {
                stamp: 1005,
                next: 4,
            },
            Moment {
                stamp: 1000,
                next: 5,
            },
        ],
        NEW,
        false,
    ),
    // the register is unsound at a commit: no administrator, a role without a party, a number that is not
    // below the next one, a unit without an owner
    Case(
        &[
            Moment { stamp: 0, next: 2 },
            Moment {
                stamp: 1000,
                next: 2,
            },
        ],
        &[
            Span(Table::Party, OFFICE, 0, OPEN),
            Span(Table::Role, ADMINISTRATOR, 0, 1000),
        ],
        false,
    ),
    Case(
        &[
            Moment { stamp: 0, next: 2 },
            Moment {
                stamp: 1000,
                next: 2,
            },
        ],
        &[
            Span(Table::Party, OFFICE, 0, 1000),
            Span(Table::Role, ADMINISTRATOR, 0, OPEN),
        ],
        false,
    ),
    Case(
        &[
            Moment { stamp: 0, next: 2 },
            Moment {
                stamp: 1000,
                next: 2,
            },
        ],
        &[
            Span(Table::Party, OFFICE, 0, OPEN),
            Span(Table::Role, ADMINISTRATOR, 0, OPEN),
            Span(Table::Party, &[], 1000, OPEN),
        ],
        false,
    ),
    Case(
        &[
            Moment { stamp: 0, next: 2 },
            Moment {
                stamp: 1000,
                next: 3,
            },
        ],
        &[
            Span(Table::Party, OFFICE, 0, OPEN),
            Span(Table::Role, ADMINISTRATOR, 0, OPEN),
            Span(Table::Party, &[], 1000, OPEN),
        ],
        true,
    ),
    Case(
        &[
            Moment { stamp: 0, next: 2 },
            Moment {
                stamp: 1000,
                next: 10,
            },
            Moment {
                stamp: 1005,
                next: 10,
            },
        ],
        &[
            Span(Table::Party, OFFICE, 0, OPEN),
            Span(Table::Role, ADMINISTRATOR, 0, OPEN),
            Span(Table::Unit, &[], 1000, 1005),
        ],
        false,
    ),
    // the rows of `names` and the mutation: they agree; one is without a mutation, one is missing, one has
    // another unit, one ends earlier
    Case(
        &[
            Moment { stamp: 0, next: 2 },
            Moment {
                stamp: 1000,
                next: 19,
            },
        ],
        LODGED,
        true,
    ),
    Case(
        &[
            Moment { stamp: 0, next: 2 },
            Moment {
                stamp: 1000,
                next: 19,
            },
        ],
        &[
            Span(Table::Party, OFFICE, 0, OPEN),
            Span(Table::Role, ADMINISTRATOR, 0, OPEN),
            Span(Table::Names, &[], 1000, OPEN),
        ],
        false,
    ),
    Case(
        &[
            Moment { stamp: 0, next: 2 },
            Moment {
                stamp: 1000,
                next: 19,
            },
        ],
        &[
            Span(Table::Party, OFFICE, 0, OPEN),
            Span(Table::Role, ADMINISTRATOR, 0, OPEN),
            Span(Table::Party, &[(0, Cell::Number(4))], 1000, OPEN),
            Span(Table::Source, &[(0, Cell::Number(17))], 1000, OPEN),
            Span(Table::Mutation, &[], 1000, OPEN),
        ],
        false,
    ),
    Case(
        &[
            Moment { stamp: 0, next: 2 },
            Moment {
                stamp: 1000,
                next: 19,
            },
        ],
        &[
            Span(Table::Party, OFFICE, 0, OPEN),
            Span(Table::Role, ADMINISTRATOR, 0, OPEN),
            Span(Table::Party, &[(0, Cell::Number(4))], 1000, OPEN),
            Span(Table::Source, &[(0, Cell::Number(17))], 1000, OPEN),
            Span(Table::Mutation, &[], 1000, OPEN),
            Span(Table::Names, &[], 1000, OPEN),
            Span(Table::Names, &[(1, Cell::Number(10))], 1000, OPEN),
        ],
        false,
    ),
    Case(
        &[
            Moment { stamp: 0, next: 2 },
            Moment {
                stamp: 1000,
                next: 19,
            },
            Moment {
                stamp: 1005,
                next: 19,
            },
        ],
        &[
            Span(Table::Party, OFFICE, 0, OPEN),
            Span(Table::Role, ADMINISTRATOR, 0, OPEN),
            Span(Table::Party, &[(0, Cell::Number(4))], 1000, OPEN),
            Span(Table::Source, &[(0, Cell::Number(17))], 1000, OPEN),
            Span(Table::Mutation, &[], 1000, 1005),
            Span(Table::Mutation, &[(7, Cell::Words("refused"))], 1005, OPEN),
            Span(Table::Names, &[], 1000, 1005),
        ],
        false,
    ),
    // a mandate is between two different single parties that exist
    Case(
        &[
            Moment { stamp: 0, next: 2 },
            Moment {
                stamp: 1000,
                next: 19,
            },
        ],
        &[
            Span(Table::Party, OFFICE, 0, OPEN),
            Span(Table::Role, ADMINISTRATOR, 0, OPEN),
            Span(Table::Party, &[], 1000, OPEN),
            Span(Table::Party, &[(0, Cell::Number(4))], 1000, OPEN),
            Span(Table::Mandate, &[(1, Cell::Number(4))], 1000, OPEN),
        ],
        true,
    ),
    Case(
        &[
            Moment { stamp: 0, next: 2 },
            Moment {
                stamp: 1000,
                next: 19,
            },
        ],
        &[
            Span(Table::Party, OFFICE, 0, OPEN),
            Span(Table::Role, ADMINISTRATOR, 0, OPEN),
            Span(Table::Party, &[], 1000, OPEN),
            Span(Table::Party, &[(0, Cell::Number(4))], 1000, OPEN),
            Span(Table::Mandate, &[], 1000, OPEN),
        ],
        false,
    ),
    Case(
        &[
            Moment { stamp: 0, next: 2 },
            Moment {
                stamp: 1000,
                next: 19,
            },
        ],
        &[
            Span(Table::Party, OFFICE, 0, OPEN),
            Span(Table::Role, ADMINISTRATOR, 0, OPEN),
            Span(Table::Party, &[], 1000, OPEN),
            Span(Table::Party, &[(0, Cell::Number(4))], 1000, OPEN),
            Span(Table::Mandate, &[(1, Cell::Number(2))], 1000, OPEN),
        ],
        false,
    ),
];

/// Returns whether all stamps are before the end of a current version's lifespan.
fn are_in_range(moments: &[Moment]) -> bool
    ensures { result ≡ are_in_range moments.now }
{
    moments
        .iter()
        .all(|moment| moment.stamp < 4_102_444_800_000)
}

/// Returns whether a history has valid intervals, and is valid if its case states so.
fn is_as_said<S: Alter>(
    alloc: Global,
    conn: &mut Connection<S>,
    case: &Case,
) -> Result<bool, Error> {
    let history = history_of(alloc, conn, case.1)?;
    if !has_intervals(alloc, &history, case.0)? || !are_in_range(case.0) {
        return Ok(false);
    }
    Ok(is_valid_history(alloc, &history, case.0)? == case.2)
}

/// Histories are valid, or have a fault that makes them invalid.
pub fn histories_are_valid_or_not(alloc: Global) -> Result<(), Stop> {
    let mut conn = Connection::open_in_memory(alloc)?;
    for (place, case) in CASES.iter().enumerate() {
        expect(is_as_said(alloc, &mut conn, case)?, "row", place)?;
    }
    Ok(())
}

const LAST: Moment = Moment {
    stamp: 1003,
    next: 9,
};

/// Unsorted.
const MOMENTS: &[Moment] = &[
    Moment {
        stamp: 1000,
        next: 5,
    },
    Moment { stamp: 0, next: 2 },
    LAST,
];

/// A moment, and the number of the next new object then.
struct Next(i64, u64);

const NEXTS: &[Next] = &[
    Next(-1, 2),
    Next(0, 2),
    Next(999, 2),
    Next(1000, 5),
    Next(1002, 5),
    Next(1003, 9),
    Next(4_102_444_799_999, 9),
];

/// The latest commit is found, and the next number at each moment.
pub fn the_latest_moment_is_found() -> Result<(), Stop> {
    let is_last = last(&[]) == None && last(MOMENTS) == Some(LAST);
    expect(is_last && next_at(&[], 5) == 2, "moments", 0)?;
    for (place, next) in NEXTS.iter().enumerate() {
        expect(next_at(MOMENTS, next.0) == next.1, "next", place)?;
    }
    Ok(())
}

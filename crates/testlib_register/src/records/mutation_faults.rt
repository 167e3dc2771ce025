//! Each fault of mutations, and the nearest valid cases.
use super::garden::{ANNA, ANNAS, BEN, DEED, GARDEN, LAWN, LEASE, LOAN, NOBODY, SAM};
use super::{Case, Part, REFERENCE, expect_faults};
use crate::facts::facts::Fact::{self, Mutation};
use crate::facts::lodged::Asked::{self, Discharge, Mortgage, Transfer};
use crate::facts::lodged::Lodged;
use land_core::mutation::MutationState::{Approved, Lodged as Open, Refused};
use land_core::soundness::Unsound;
use std::alloc::Global;
use testlib_cases::stop::Stop;

/// The garden, and numbers up to 19.
const UP_TO_19: &[Part] = &[Part::Persons, Part::Group, Part::Garden, Part::Next20];

/// A quarter of the garden goes from Anna to Sam.
const QUARTER: Asked = Transfer(GARDEN, ANNAS, SAM, 1, 4);

const LODGERS: &[Case] = &[
    Case(
        &[Mutation(16, Lodged(SAM, "T1", DEED, Open, QUARTER))],
        None,
    ),
    Case(&[Mutation(16, Lodged(5, "T1", DEED, Open, QUARTER))], None),
    Case(
        &[Mutation(16, Lodged(NOBODY, "T1", DEED, Open, QUARTER))],
        REFERENCE,
    ),
    Case(
        &[Mutation(16, Lodged(GARDEN, "T1", DEED, Approved, QUARTER))],
        REFERENCE,
    ),
    Case(
        &[Mutation(16, Lodged(0, "T1", DEED, Refused, QUARTER))],
        REFERENCE,
    ),
];

/// Checks that the lodger of a mutation exists.
pub fn the_lodger_of_a_mutation_exists(alloc: Global) -> Result<(), Stop> {
    expect_faults(alloc, UP_TO_19, LODGERS)
}

const SOURCES: &[Case] = &[
    Case(
        &[Mutation(16, Lodged(SAM, "T1", NOBODY, Open, QUARTER))],
        REFERENCE,
    ),
    Case(
        &[Mutation(16, Lodged(SAM, "T1", LAWN, Approved, QUARTER))],
        REFERENCE,
    ),
    Case(
        &[
            Fact::Source(17),
            Mutation(16, Lodged(SAM, "T1", 17, Refused, QUARTER)),
        ],
        None,
    ),
];

/// Checks that the source of a mutation exists.
pub fn the_source_of_a_mutation_exists(alloc: Global) -> Result<(), Stop> {
    expect_faults(alloc, UP_TO_19, SOURCES)
}

const NUMBERS: &[Case] = &[
    Case(
        &[Mutation(19, Lodged(SAM, "T1", DEED, Open, QUARTER))],
        None,
    ),
    Case(
        &[Mutation(20, Lodged(SAM, "T1", DEED, Open, QUARTER))],
        REFERENCE,
    ),
    Case(
        &[Mutation(0, Lodged(SAM, "T1", DEED, Approved, QUARTER))],
        REFERENCE,
    ),
];

/// Checks that numbers of mutations are below the next one.
pub fn numbers_of_mutations_lie_below_the_next_one(alloc: Global) -> Result<(), Stop> {
    expect_faults(alloc, UP_TO_19, NUMBERS)
}

/// The objects of a content need not exist, but its fields must be within their limits, even after the
/// decision.
const CONTENTS: &[Case] = &[
    Case(
        &[Mutation(
            16,
            Lodged(
                SAM,
                "T1",
                DEED,
                Open,
                Transfer(NOBODY, NOBODY, NOBODY, 1, 1),
            ),
        )],
        None,
    ),
    Case(
        &[Mutation(
            16,
            Lodged(SAM, "T1", DEED, Open, Transfer(0, ANNAS, SAM, 1, 4)),
        )],
        REFERENCE,
    ),
    Case(
        &[Mutation(
            16,
            Lodged(
                SAM,
                "T1",
                DEED,
                Refused,
                Transfer(GARDEN, ANNAS, 1_000_000_001, 1, 4),
            ),
        )],
        REFERENCE,
    ),
    Case(
        &[Mutation(
            16,
            Lodged(SAM, "M1", DEED, Open, Mortgage(NOBODY, NOBODY, 1, "EUR")),
        )],
        None,
    ),
    Case(
        &[Mutation(
            16,
            Lodged(SAM, "M1", DEED, Approved, Mortgage(GARDEN, SAM, 0, "EUR")),
        )],
        REFERENCE,
    ),
    Case(
        &[Mutation(
            16,
            Lodged(SAM, "M1", DEED, Open, Mortgage(GARDEN, SAM, 100, "eur")),
        )],
        REFERENCE,
    ),
    Case(
        &[Mutation(16, Lodged(SAM, "D1", DEED, Open, Discharge(NOBODY, NOBODY)))],
        None,
    ),
    Case(
        &[Mutation(16, Lodged(SAM, "D1", DEED, Open, Discharge(GARDEN, 0)))],
        REFERENCE,
    ),
];

/// Checks that the fields of contents are within their limits.
pub fn contents_of_mutations_keep_their_limits(alloc: Global) -> Result<(), Stop> {
    expect_faults(alloc, UP_TO_19, CONTENTS)
}

const REUSED: Option<Unsound> = Some(Unsound::Reused);

const LETTER: Asked = Discharge(GARDEN, LOAN);

const REFERENCES: &[Case] = &[
    Case(
        &[
            Mutation(16, Lodged(SAM, "T1", DEED, Open, QUARTER)),
            Mutation(17, Lodged(SAM, "T1", DEED, Open, QUARTER)),
        ],
        REUSED,
    ),
    Case(
        &[
            Mutation(16, Lodged(ANNA, "T1", DEED, Approved, QUARTER)),
            Mutation(17, Lodged(SAM, "T2", DEED, Open, LETTER)),
            Mutation(18, Lodged(ANNA, "T1", DEED, Refused, LETTER)),
        ],
        REUSED,
    ),
    Case(
        &[
            Mutation(16, Lodged(SAM, "T1", DEED, Open, QUARTER)),
            Mutation(17, Lodged(SAM, "T2", DEED, Open, QUARTER)),
            Mutation(18, Lodged(SAM, "t1", DEED, Open, QUARTER)),
        ],
        None,
    ),
    Case(
        &[
            Mutation(16, Lodged(SAM, "T1", DEED, Open, QUARTER)),
            Mutation(17, Lodged(BEN, "T1", DEED, Open, QUARTER)),
            Mutation(
                18,
                Lodged(ANNA, "T1", DEED, Open, Transfer(GARDEN, LEASE, BEN, 1, 1)),
            ),
        ],
        None,
    ),
];

/// Checks that a lodger has a reference once.
pub fn a_lodger_has_a_reference_once(alloc: Global) -> Result<(), Stop> {
    expect_faults(alloc, UP_TO_19, REFERENCES)
}

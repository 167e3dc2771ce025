//! Enrolments up to the last number and the last moment.
use super::Step::{self, Holds, Row, Sound};
use super::{STAMP, assert_steps};
use land_core::kind::PartyKind::NaturalPerson;
use land_core::role::Role::Citizen;
use std::test::Fail;
use testlib_cases::asked::RowAct::{self, Enrol};

const ANNA: RowAct = Enrol(NaturalPerson, "Anna");

/// Afterwards the party with the last number is a citizen, and the register is sound.
const STEPS: &[Step] = &[
    Row(ANNA, None, "refused 217"),
    Row(ANNA, STAMP, "done 1000000000 made [1000000000] at 1000"),
    Row(ANNA, STAMP, "refused 210"),
    Row(ANNA, None, "refused 210"),
    Holds(1_000_000_000, Citizen, true),
    Sound,
];

#[test]
fn the_last_number_is_assigned_and_none_after_it(rt: HostRuntime) -> Result<(), Fail> {
    assert_steps(&rt, rt.alloc(), 1_000_000_000, STEPS)
}

//! Mandates: given and withdrawn, and what citizens see by them at each time.
use crate::conclusion::conclude;
use crate::end_of_time::END;
use land_core::kind::Kind::{Party, Rrr, Unit};
use land_core::role::Role::{Citizen, Notary};
use std::test::Fail;
use testlib_cases::asked::RowAct::{Grant, Mandate, Revoke, Withdraw};
use testlib_cases::asked::RowAsk::{self, Do, List, View};
use testlib_cases::asked::{OFFICE, RowAct};
use testlib_cases::rows::Row;
use testlib_cases::steps::{
    ANNA, BANK, BANK_ITSELF, BEN, NORA, NORA_HERSELF, play_with_group, play_with_mortgage,
};

const UNIT: &str = "unit 9 Garden true";

/// The end of Anna's mandate to Nora.
const WITHDRAWAL: RowAsk = Do(Withdraw(2, 5));

const MANDATES: &[Row] = &[
    Row(1000, ANNA, Do(Mandate(5)), "done 5 made [] at 1012"),
    Row(1000, ANNA, Do(Mandate(5)), "refused 221"),
    Row(1000, ANNA, Do(Mandate(2)), "refused 219"),
    Row(1000, ANNA, Do(Mandate(7)), "refused 205"),
    Row(1000, NORA_HERSELF, List(Unit, None), "numbers [9]"),
    Row(
        1000,
        NORA_HERSELF,
        List(Rrr, None),
        "numbers [11, 12, 13, 16]",
    ),
    Row(
        1000,
        NORA_HERSELF,
        List(Party, None),
        "numbers [2, 4, 5, 6, 7]",
    ),
    Row(1000, NORA_HERSELF, View(Unit, 9, Some(1011)), "denied 11"),
    Row(1000, NORA_HERSELF, Do(Mandate(4)), "done 4 made [] at 1013"),
    Row(1000, BANK_ITSELF, List(Unit, None), "numbers []"),
    Row(1000, BEN, WITHDRAWAL, "denied 29"),
    Row(1000, NORA, WITHDRAWAL, "denied 28"),
    Row(1000, NORA_HERSELF, WITHDRAWAL, "done 5 made [] at 1014"),
    Row(1000, ANNA, WITHDRAWAL, "refused 222"),
    Row(1000, NORA_HERSELF, View(Unit, 9, None), "denied 11"),
    Row(1000, NORA_HERSELF, View(Unit, 9, Some(1013)), UNIT),
];

#[test]
fn mandates(rt: HostRuntime) -> Result<(), Fail> {
    conclude(&rt, play_with_mortgage(rt.alloc(), MANDATES))
}

/// The refusals in ascending order: the agent is a single party, a stamp exists, the agent is another party,
/// and the mandate is new.
const REFUSED: &[Row] = &[
    Row(1000, ANNA, Do(Mandate(9)), "refused 205"),
    Row(END, ANNA, Do(Mandate(7)), "refused 205"),
    Row(END, ANNA, Do(Mandate(2)), "refused 217"),
    Row(END, ANNA, Do(Mandate(3)), "refused 217"),
    Row(END, ANNA, Do(Withdraw(2, 3)), "refused 217"),
    Row(1000, ANNA, Do(Withdraw(2, 3)), "refused 222"),
    Row(1000, ANNA, Do(Withdraw(2, 2)), "refused 222"),
    Row(1000, ANNA, Do(Withdraw(2, 77)), "refused 222"),
    Row(1000, ANNA, Do(Mandate(3)), "done 3 made [] at 1009"),
    Row(1000, BEN, Do(Mandate(2)), "done 2 made [] at 1010"),
    Row(1000, ANNA, Do(Withdraw(2, 3)), "done 3 made [] at 1011"),
    Row(1000, ANNA, Do(Withdraw(2, 3)), "refused 222"),
    Row(1000, ANNA, Do(Withdraw(3, 2)), "done 2 made [] at 1012"),
    Row(1000, ANNA, Do(Mandate(3)), "done 3 made [] at 1013"),
    Row(END, ANNA, Do(Mandate(3)), "refused 217"),
];

#[test]
fn a_mandate_is_given_once_and_withdrawn_once(rt: HostRuntime) -> Result<(), Fail> {
    conclude(&rt, play_with_group(rt.alloc(), REFUSED))
}

const TO_BEN: RowAct = Mandate(3);

/// Only citizens give or withdraw mandates. The policy decides before any refusal.
const ROLES: &[Row] = &[
    Row(1000, OFFICE, Do(TO_BEN), "denied 28"),
    Row(1000, BANK, Do(TO_BEN), "denied 28"),
    Row(1000, NORA, Do(Mandate(5)), "denied 28"),
    Row(1000, OFFICE, Do(Withdraw(2, 3)), "denied 28"),
    Row(1000, BANK, Do(Withdraw(4, 3)), "denied 28"),
    Row(1000, BEN, Do(Withdraw(2, 5)), "denied 29"),
    Row(1000, BEN, Do(Withdraw(2, 77)), "denied 29"),
    Row(1000, BANK_ITSELF, Do(TO_BEN), "done 3 made [] at 1009"),
];

#[test]
fn mandates_are_of_citizens(rt: HostRuntime) -> Result<(), Fail> {
    conclude(&rt, play_with_group(rt.alloc(), ROLES))
}

/// Revoking a role does not end Anna's mandate to Nora. A party that is no longer a citizen sees nothing by
/// it, and sees by it again once it is a citizen again.
const REVOKED: &[Row] = &[
    Row(1000, ANNA, Do(Mandate(5)), "done 5 made [] at 1012"),
    Row(
        1000,
        OFFICE,
        Do(Revoke(2, Citizen)),
        "done 2 made [] at 1013",
    ),
    Row(1000, ANNA, List(Unit, None), "denied 2"),
    Row(1000, NORA_HERSELF, List(Unit, None), "numbers [9]"),
    Row(1000, NORA_HERSELF, View(Unit, 9, None), UNIT),
    Row(
        1000,
        OFFICE,
        Do(Revoke(5, Notary)),
        "done 5 made [] at 1014",
    ),
    Row(1000, NORA_HERSELF, List(Unit, None), "numbers [9]"),
    Row(
        1000,
        OFFICE,
        Do(Revoke(5, Citizen)),
        "done 5 made [] at 1015",
    ),
    Row(1000, NORA_HERSELF, List(Unit, None), "denied 2"),
    Row(
        1000,
        OFFICE,
        Do(Grant(5, Citizen)),
        "done 5 made [] at 1016",
    ),
    Row(1000, NORA_HERSELF, List(Unit, None), "numbers [9]"),
    Row(1000, NORA_HERSELF, View(Unit, 9, None), UNIT),
];

#[test]
fn a_mandate_outlives_the_roles_of_its_parties(rt: HostRuntime) -> Result<(), Fail> {
    conclude(&rt, play_with_mortgage(rt.alloc(), REVOKED))
}

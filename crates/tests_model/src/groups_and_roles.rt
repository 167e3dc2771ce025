//! Groups and their members, and roles that are granted and revoked.
use crate::conclusion::conclude;
use crate::end_of_time::END;
use land_core::caller::Caller;
use land_core::kind::Kind::Party;
use land_core::role::Role::{Bank, Citizen, Notary, StateAdministrator};
use std::test::Fail;
use testlib_cases::asked::RowAct::{Grant, Group, Regroup, Revoke};
use testlib_cases::asked::RowAsk::{Do, List, View};
use testlib_cases::asked::{OFFICE, RowAsk, Share};
use testlib_cases::rows::Row;
use testlib_cases::steps::{ANNA, BANK_ITSELF, BEN, NORA, play_with_group, play_with_parties};

const THIRDS: &[Share] = &[(2, 1, 3), (3, 1, 3), (4, 1, 3)];

const TOO_FINE: &[Share] = &[(2, 1, 3), (3, 1, 3), (4, 333_333_333, 1_000_000_000)];

const TOO_LITTLE: &[Share] = &[(2, 1, 3), (3, 1, 3), (4, 1, 4)];

const TOO_MUCH: &[Share] = &[(2, 1, 3), (3, 1, 3), (4, 1, 2)];

const ONE_TWICE: &[Share] = &[(2, 1, 2), (2, 1, 2)];

const ONE_TWICE_TOO_MUCH: &[Share] = &[(2, 1, 1), (2, 1, 1)];

const WITH_NOBODY: &[Share] = &[(2, 1, 2), (9, 1, 2)];

const WITH_A_GROUP: &[Share] = &[(2, 1, 2), (7, 1, 2)];

const ANNA_HALF_BEN_A_THIRD: &[Share] = &[(2, 1, 2), (3, 1, 3)];

const HALVES: &[Share] = &[(2, 1, 2), (3, 1, 2)];

const WITHOUT_ANNA: &[Share] = &[(4, 1, 2), (3, 1, 2)];

const SHARES: &[Row] = &[
    Row(1000, OFFICE, Do(Group("Group", TOO_FINE)), "refused 207"),
    Row(1000, OFFICE, Do(Group("Group", TOO_LITTLE)), "refused 213"),
    Row(1000, OFFICE, Do(Group("Group", TOO_MUCH)), "refused 213"),
    Row(1000, OFFICE, Do(Group("Group", ONE_TWICE)), "refused 219"),
    Row(
        1000,
        OFFICE,
        Do(Group("Group", ONE_TWICE_TOO_MUCH)),
        "refused 213",
    ),
    Row(1000, OFFICE, Do(Group("Group", WITH_NOBODY)), "refused 205"),
    Row(
        1000,
        OFFICE,
        Do(Group("Group", THIRDS)),
        "done 5 made [5] at 1003",
    ),
];

#[test]
fn shares_of_a_group_are_whole(rt: HostRuntime) -> Result<(), Fail> {
    conclude(&rt, play_with_parties(rt.alloc(), SHARES))
}

const GROUPS_AND_ROLES: &[Row] = &[
    Row(1000, ANNA, List(Party, None), "numbers [2, 7]"),
    Row(1000, OFFICE, Do(Grant(4, Bank)), "refused 215"),
    Row(1000, OFFICE, Do(Revoke(4, Notary)), "refused 216"),
    Row(1000, OFFICE, Do(Grant(7, Bank)), "refused 205"),
    Row(
        1000,
        OFFICE,
        Do(Revoke(5, Notary)),
        "done 5 made [] at 1009",
    ),
    Row(1000, NORA, List(Party, None), "denied 2"),
    Row(
        1000,
        OFFICE,
        Do(Regroup(7, ANNA_HALF_BEN_A_THIRD)),
        "refused 213",
    ),
    Row(
        1000,
        OFFICE,
        Do(Regroup(7, HALVES)),
        "done 7 made [] at 1010",
    ),
    Row(
        1000,
        OFFICE,
        Do(Revoke(1, StateAdministrator)),
        "refused 218",
    ),
];

#[test]
fn groups_and_roles(rt: HostRuntime) -> Result<(), Fail> {
    conclude(&rt, play_with_group(rt.alloc(), GROUPS_AND_ROLES))
}

const BEFORE: &str = "party 7 Group Anna and Ben [(2 1/3)(3 2/3)] []";

const AFTER: &str = "party 7 Group Anna and Ben [(3 1/2)(4 1/2)] []";

const MEMBERS: &[Row] = &[
    Row(1000, ANNA, View(Party, 7, None), BEFORE),
    Row(1000, BANK_ITSELF, View(Party, 7, None), "denied 13"),
    Row(
        1000,
        OFFICE,
        Do(Regroup(7, WITHOUT_ANNA)),
        "done 7 made [] at 1009",
    ),
    Row(1000, ANNA, View(Party, 7, None), "denied 13"),
    Row(1000, ANNA, List(Party, None), "numbers [2]"),
    Row(1000, ANNA, View(Party, 7, Some(1008)), BEFORE),
    Row(1000, ANNA, List(Party, Some(1008)), "numbers [2, 7]"),
    Row(1000, ANNA, List(Party, Some(1007)), "numbers [2]"),
    Row(1000, BANK_ITSELF, View(Party, 7, None), AFTER),
    Row(1000, BANK_ITSELF, View(Party, 7, Some(1008)), "denied 13"),
    Row(1000, BEN, List(Party, None), "numbers [3, 7]"),
];

#[test]
fn members_see_their_group_while_they_are_members(rt: HostRuntime) -> Result<(), Fail> {
    conclude(&rt, play_with_group(rt.alloc(), MEMBERS))
}

const NO_GROUP: &[Row] = &[
    Row(1000, OFFICE, Do(Regroup(2, HALVES)), "refused 205"),
    Row(1000, OFFICE, Do(Regroup(9, HALVES)), "refused 205"),
    Row(1000, OFFICE, Do(Regroup(7, WITH_A_GROUP)), "refused 205"),
    Row(1000, OFFICE, Do(Regroup(7, TOO_FINE)), "refused 207"),
    Row(1000, OFFICE, Do(Regroup(7, ONE_TWICE)), "refused 219"),
    Row(1000, ANNA, Do(Regroup(7, HALVES)), "denied 4"),
];

#[test]
fn only_groups_are_regrouped(rt: HostRuntime) -> Result<(), Fail> {
    conclude(&rt, play_with_group(rt.alloc(), NO_GROUP))
}

const ANNA_AS_OFFICE: Caller = Caller {
    party: 2,
    role: StateAdministrator,
};

const ANOTHER: &[Row] = &[
    Row(
        1000,
        OFFICE,
        Do(Grant(2, StateAdministrator)),
        "done 2 made [] at 1009",
    ),
    Row(
        1000,
        ANNA_AS_OFFICE,
        Do(Revoke(1, StateAdministrator)),
        "done 1 made [] at 1010",
    ),
    Row(1000, OFFICE, List(Party, None), "denied 2"),
    Row(
        1000,
        ANNA_AS_OFFICE,
        Do(Revoke(2, StateAdministrator)),
        "refused 218",
    ),
    Row(
        1000,
        ANNA_AS_OFFICE,
        Do(Revoke(2, Citizen)),
        "done 2 made [] at 1011",
    ),
    Row(1000, ANNA, List(Party, None), "denied 2"),
];

#[test]
fn another_administrator_may_go_first(rt: HostRuntime) -> Result<(), Fail> {
    conclude(&rt, play_with_group(rt.alloc(), ANOTHER))
}

const AT_THE_END: &[Row] = &[
    Row(END, OFFICE, Do(Group("Group", ONE_TWICE)), "refused 217"),
    Row(END, OFFICE, Do(Regroup(7, HALVES)), "refused 217"),
    Row(END, OFFICE, Do(Grant(4, Notary)), "refused 217"),
    Row(END, OFFICE, Do(Revoke(4, Bank)), "refused 217"),
    Row(
        END,
        OFFICE,
        Do(Revoke(1, StateAdministrator)),
        "refused 217",
    ),
];

#[test]
fn nothing_is_done_at_the_end_of_time(rt: HostRuntime) -> Result<(), Fail> {
    conclude(&rt, play_with_group(rt.alloc(), AT_THE_END))
}

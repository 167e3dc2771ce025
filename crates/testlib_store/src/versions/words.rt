//! The words of kinds, roles, classes and states.
use crate::versions::cell::{Cell, row_of};
use land_core::kind::PartyKind;
use land_core::mutation::MutationState;
use land_core::role::Role;
use land_core::rrr::RightType;
use land_core::source::SourceKind;
use land_tables_rows::reading::words::{
    ClassWord, class_word_at, party_kind_at, role_at, source_kind_at, state_at,
};
use land_wire_json::bodies::wire_fault::WireFault;
use sqlite::{Alter, Connection, Error, Row};
use std::alloc::Global;
use testlib_scenario::stop::{Stop, expect};

const WORDS: &[Cell] = &[
    Cell::Words("naturalPerson"),
    Cell::Words("nonNaturalPerson"),
    Cell::Words("group"),
    Cell::Words("administrative"),
    Cell::Words("spatial"),
    Cell::Words("lodged"),
    Cell::Words("approved"),
    Cell::Words("refused"),
];

const ROLES: &[Cell] = &[
    Cell::Words("citizen"),
    Cell::Words("conveyancer"),
    Cell::Words("notary"),
    Cell::Words("bank"),
    Cell::Words("certifiedSurveyor"),
    Cell::Words("stateAdministrator"),
];

const CLASSES: &[Cell] = &[
    Cell::Words("ownership"),
    Cell::Words("lease"),
    Cell::Words("usufruct"),
    Cell::Words("restriction"),
    Cell::Words("responsibility"),
    Cell::Words("mortgage"),
];

/// Returns whether the decoded value is the expected one.
fn is<T: PartialEq + Copy>(read: Result<T, WireFault>, meant: T) -> bool {
    match read {
        Ok(found) => found == meant,
        Err(_) => false,
    }
}

fn are_words(row: &Row) -> bool {
    is(party_kind_at(row, 0), PartyKind::NaturalPerson)
        && is(party_kind_at(row, 1), PartyKind::NonNaturalPerson)
        && is(party_kind_at(row, 2), PartyKind::Group)
        && is(source_kind_at(row, 3), SourceKind::Administrative)
        && is(source_kind_at(row, 4), SourceKind::Spatial)
        && is(state_at(row, 5), MutationState::Lodged)
        && is(state_at(row, 6), MutationState::Approved)
        && is(state_at(row, 7), MutationState::Refused)
}

fn are_roles(row: &Row) -> bool {
    is(role_at(row, 0), Role::Citizen)
        && is(role_at(row, 1), Role::Conveyancer)
        && is(role_at(row, 2), Role::Notary)
        && is(role_at(row, 3), Role::Bank)
        && is(role_at(row, 4), Role::CertifiedSurveyor)
        && is(role_at(row, 5), Role::StateAdministrator)
}

fn are_classes(row: &Row) -> bool {
    is(
        class_word_at(row, 0),
        ClassWord::Right(RightType::Ownership),
    ) && is(class_word_at(row, 1), ClassWord::Right(RightType::Lease))
        && is(class_word_at(row, 2), ClassWord::Right(RightType::Usufruct))
        && is(class_word_at(row, 3), ClassWord::Restriction)
        && is(class_word_at(row, 4), ClassWord::Responsibility)
        && is(class_word_at(row, 5), ClassWord::Mortgage)
}

fn are_known<S: Alter>(conn: &mut Connection<S>) -> Result<bool, Error> {
    let words = row_of(conn, WORDS)?;
    let roles = row_of(conn, ROLES)?;
    let classes = row_of(conn, CLASSES)?;
    Ok(are_words(&words) && are_roles(&roles) && are_classes(&classes))
}

/// Each word has one meaning, and no other word has it.
pub fn each_word_has_one_meaning(alloc: Global) -> Result<(), Stop> {
    let mut conn = Connection::open_in_memory(alloc)?;
    expect(are_known(&mut conn)?, "words", 0)
}

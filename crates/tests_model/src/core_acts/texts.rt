//! The lengths of the texts of acts, and the characters that they may have.
use super::asked::Asked;
use super::drafts::{Draft, burden, lodging, registration};
use super::{ANNA, GARDEN, LOAN, Right, is_good};
use crate::core_types::text;
use land_core::act::BurdenClass::{Responsibility, Restriction};
use land_core::act::{Act, BurdenClass, Enrol};
use land_core::kind::PartyKind;
use land_core::rrr::RightType::Ownership;
use std::alloc::Global;
use std::process::Abort;
use std::test::Fail;

/// A character, the number of times that it occurs in a text, and whether an act may have that text.
struct Row(&'static str, usize, bool);

/// The place of a text in an act.
enum Place {
    PartyName,
    UnitName,
    Document,
    Label,
    BurdenWords,
    BurdenDocument,
    Reference,
    LodgedDocument,
}

fn enrolment(alloc: Global, name: &str) -> Result<Act, Fail> {
    Ok(Act::Enrol(Enrol {
        kind: PartyKind::NaturalPerson,
        name: text(alloc, name)?,
    }))
}

fn first_registration(alloc: Global, name: &str, document: &str, label: &str) -> Result<Act, Fail> {
    let draft = Draft {
        name,
        document,
        label,
        parcels: 2,
    };
    Ok(Act::Register(registration(alloc, &draft, OWNED)?))
}

fn burdening(alloc: Global, class: BurdenClass, words: &str, document: &str) -> Result<Act, Fail> {
    Ok(Act::Burden(burden(alloc, class, words, document)?))
}

fn lodging_letter(alloc: Global, reference: &str, document: &str) -> Result<Act, Fail> {
    Ok(Act::Lodge(lodging(alloc, reference, document, &LETTER)?))
}

/// Returns an act that has a text at a place, and is otherwise within the limits.
fn with_text(alloc: Global, place: &Place, given: &str) -> Result<Act, Fail> {
    match place {
        Place::PartyName => enrolment(alloc, given),
        Place::UnitName => first_registration(alloc, given, "Deed 1", "12"),
        Place::Document => first_registration(alloc, "Garden", given, "12"),
        Place::Label => first_registration(alloc, "Garden", "Deed 1", given),
        Place::BurdenWords => burdening(alloc, Restriction, given, "Order"),
        Place::BurdenDocument => burdening(alloc, Responsibility, "No well", given),
        Place::Reference => lodging_letter(alloc, given, "Deed 2"),
        Place::LodgedDocument => lodging_letter(alloc, "D1", given),
    }
}

const LETTER: Asked = Asked::Discharge(GARDEN, LOAN);

const OWNED: &[Right] = &[(ANNA, Ownership, 1, 1)];

/// Returns whether an act may have a text at a place.
fn may_have(alloc: Global, place: &Place, given: &str) -> Result<bool, Fail> {
    Ok(is_good(with_text(alloc, place, given)?))
}

fn may_have_repeated(alloc: Global, place: &Place, row: &Row) -> Result<bool, Fail> {
    let given = row.0.repeat(alloc, row.1)?;
    may_have(alloc, place, given.as_str())
}

fn assert_texts(rt: &impl Abort, alloc: Global, place: &Place, rows: &[Row]) -> Result<(), Fail> {
    for (number, row) in rows.iter().enumerate() {
        assert!(rt;
            may_have_repeated(alloc, place, row)? == row.2,
            "row {number}"
        );
    }
    Ok(())
}

const NAMES: &[Row] = &[
    Row("", 0, false),
    Row("a", 1, true),
    Row("a", 200, true),
    Row("a", 201, false),
    Row("\u{1F600}", 200, true),
    Row("\u{1F600}", 201, false),
    Row("\u{1F}", 1, false),
    Row("\u{7F}", 1, false),
    Row(" ", 1, true),
    Row("\u{80}", 1, true),
];

fn assert_names(rt: &impl Abort, alloc: Global, places: &[Place]) -> Result<(), Fail> {
    for place in places {
        assert_texts(rt, alloc, place, NAMES)?;
    }
    Ok(())
}

#[test]
fn names_have_1_to_200_characters(rt: HostRuntime) -> Result<(), Fail> {
    assert_names(&rt, rt.alloc(), &[Place::PartyName])
}

#[test]
fn units_and_documents_have_1_to_200_characters(rt: HostRuntime) -> Result<(), Fail> {
    assert_names(&rt, rt.alloc(), &[Place::UnitName, Place::Document])
}

#[test]
fn burdens_have_words_and_a_document(rt: HostRuntime) -> Result<(), Fail> {
    assert_names(
        &rt,
        rt.alloc(),
        &[Place::BurdenWords, Place::BurdenDocument],
    )
}

const LABELS: &[Row] = &[
    Row("", 0, false),
    Row("a", 1, true),
    Row("a", 40, true),
    Row("a", 41, false),
    Row("\u{1F600}", 40, true),
    Row("\u{1F600}", 41, false),
    Row("\u{1F}", 1, false),
    Row("\u{7F}", 1, false),
];

fn assert_labels(rt: &impl Abort, alloc: Global, place: &Place) -> Result<(), Fail> {
    assert_texts(rt, alloc, place, LABELS)
}

#[test]
fn labels_have_1_to_40_characters(rt: HostRuntime) -> Result<(), Fail> {
    assert_labels(&rt, rt.alloc(), &Place::Label)
}

#[test]
fn references_have_1_to_40_characters(rt: HostRuntime) -> Result<(), Fail> {
    assert_labels(&rt, rt.alloc(), &Place::Reference)
}

#[test]
fn lodgings_have_a_document(rt: HostRuntime) -> Result<(), Fail> {
    assert_names(&rt, rt.alloc(), &[Place::LodgedDocument])
}

//! Reads the words of kinds, roles, types and classes.
ghost use Rattle.std.specs.Prelude.{◌≡◌, bytes_eq};
ghost use Rattle.land_wire_json.specs.Bodies.Words.{class_in, burden_class_of, kind_in};
ghost use Rattle.land_wire_json.specs.Bodies.Words.{enrolled_kind_of, role_in, role_of};
ghost use Rattle.land_wire_json.specs.Bodies.Words.{type_in, right_type_of};
ghost use Rattle.serde_json.specs.View.{view};

use crate::bodies::fields::text_at;
use crate::bodies::wire_fault::WireFault;
use land_core::act::BurdenClass;
use land_core::kind::PartyKind;
use land_core::role::Role;
use land_core::rrr::RightType;
use serde_json::Value;

/// Reads the kind of the key `kind`. Errors: 131 if it is missing or not a string; 133 if it is not a kind of
/// a single party.
#[tactic(auto, unfolding(crate::specs::Bodies::Words::kind_in))]
pub fn kind_in(value: &Value) -> Result<PartyKind, WireFault>
    ensures { result ≡ kind_in (view value.now) }
{
    kind_of(text_at(value, "kind")?)
}

/// Returns the kind of a single party. Errors: 133 for any other word.
pub fn kind_of(word: &str) -> Result<PartyKind, WireFault>
    ensures { result ≡ enrolled_kind_of word.now }
{
    if word == "naturalPerson" {
        Ok(PartyKind::NaturalPerson)
    } else if word == "nonNaturalPerson" {
        Ok(PartyKind::NonNaturalPerson)
    } else {
        Err(WireFault::Text)
    }
}

/// Reads the role of the key `role`. Errors: 131 if it is missing or not a string; 134 if it is not a role.
#[tactic(auto, unfolding(crate::specs::Bodies::Words::role_in))]
pub fn role_in(value: &Value) -> Result<Role, WireFault>
    ensures { result ≡ role_in (view value.now) }
{
    role_of(text_at(value, "role")?.as_bytes())
}

/// Returns the role for its word. Words are case-sensitive. Errors: 134 for any other word.
pub fn role_of(word: &[u8]) -> Result<Role, WireFault>
    ensures { result ≡ role_of word.now }
{
    if is_word(word, "citizen") {
        Ok(Role::Citizen)
    } else if is_word(word, "conveyancer") {
        Ok(Role::Conveyancer)
    } else if is_word(word, "notary") {
        Ok(Role::Notary)
    } else if is_word(word, "bank") {
        Ok(Role::Bank)
    } else if is_word(word, "certifiedSurveyor") {
        Ok(Role::CertifiedSurveyor)
    } else if is_word(word, "stateAdministrator") {
        Ok(Role::StateAdministrator)
    } else {
        Err(WireFault::Role)
    }
}

/// Checks whether the bytes are equal to a word.
pub fn is_word(bytes: &[u8], word: &str) -> bool
    ensures { result ≡ bytes_eq bytes.now word.now }
{
    bytes == word.as_bytes()
}

/// Reads the type of the key `type`. Errors: 131 if it is missing or not a string; 133 if it is not a type of
/// rights.
#[tactic(auto, unfolding(crate::specs::Bodies::Words::type_in))]
pub fn type_in(value: &Value) -> Result<RightType, WireFault>
    ensures { result ≡ type_in (view value.now) }
{
    type_of(text_at(value, "type")?)
}

/// Returns the type of a right. Errors: 133 for any other word.
pub fn type_of(word: &str) -> Result<RightType, WireFault>
    ensures { result ≡ right_type_of word.now }
{
    if word == "ownership" {
        Ok(RightType::Ownership)
    } else if word == "lease" {
        Ok(RightType::Lease)
    } else if word == "usufruct" {
        Ok(RightType::Usufruct)
    } else {
        Err(WireFault::Text)
    }
}

/// Reads the class of the key `class`. Errors: 131 if it is missing or not a string; 133 if it is not a class
/// of burdens.
#[tactic(auto, unfolding(crate::specs::Bodies::Words::class_in))]
pub fn class_in(value: &Value) -> Result<BurdenClass, WireFault>
    ensures { result ≡ class_in (view value.now) }
{
    class_of(text_at(value, "class")?)
}

/// Returns the class of a burden. Errors: 133 for any other word.
fn class_of(word: &str) -> Result<BurdenClass, WireFault>
    ensures { result ≡ burden_class_of word.now }
{
    if word == "restriction" {
        Ok(BurdenClass::Restriction)
    } else if word == "responsibility" {
        Ok(BurdenClass::Responsibility)
    } else {
        Err(WireFault::Text)
    }
}

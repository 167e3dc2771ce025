//! The code words of the register (code lists of ISO 19152), as in requests, replies, sheets, extracts and
//! tables.
ghost use Rattle.std.specs.Prelude.{◌≡◌};
ghost use Rattle.land_core.specs.Words.{content_word, class_word, party_word, right_word, role_word};
ghost use Rattle.land_core.specs.Words.{source_word};
ghost use Rattle.land_core.specs.Words.{state_word};

use crate::content::Content;
use crate::kind::PartyKind;
use crate::mutation::MutationState;
use crate::role::Role;
use crate::rrr::{Class, RightType};
use crate::source::SourceKind;

/// Returns the word of a kind of party (LA_PartyType).
pub fn party_word(kind: PartyKind) -> &'static str
    ensures { result.now ≡ party_word kind }
{
    match kind {
        PartyKind::NaturalPerson => "naturalPerson",
        PartyKind::NonNaturalPerson => "nonNaturalPerson",
        PartyKind::Group => "group",
    }
}

/// Returns the word of a role (LA_PartyRoleType).
pub fn role_word(role: Role) -> &'static str
    ensures { result.now ≡ role_word role }
{
    match role {
        Role::Citizen => "citizen",
        Role::Conveyancer => "conveyancer",
        Role::Notary => "notary",
        Role::Bank => "bank",
        Role::CertifiedSurveyor => "certifiedSurveyor",
        Role::StateAdministrator => "stateAdministrator",
    }
}

/// Returns the word of a type of right (LA_RightType).
pub fn right_word(right_type: RightType) -> &'static str
    ensures { result.now ≡ right_word right_type }
{
    match right_type {
        RightType::Ownership => "ownership",
        RightType::Lease => "lease",
        RightType::Usufruct => "usufruct",
    }
}

/// Returns the word of an entry's class. For a right it is the word of its type.
pub fn class_word(class: &Class) -> &'static str
    ensures { result.now ≡ class_word class.now }
{
    match class {
        Class::Right { right_type, .. } => right_word(*right_type),
        Class::Restriction { .. } => "restriction",
        Class::Responsibility { .. } => "responsibility",
        Class::Mortgage { .. } => "mortgage",
    }
}

/// Returns the word of a kind of source.
pub fn source_word(kind: SourceKind) -> &'static str
    ensures { result.now ≡ source_word kind }
{
    match kind {
        SourceKind::Administrative => "administrative",
        SourceKind::Spatial => "spatial",
    }
}

/// Returns the word of the act that lodges a content.
pub fn act_word(content: &Content) -> &'static str
    ensures { result.now ≡ content_word content.now }
{
    match content {
        Content::Transfer(_) => "transfer",
        Content::Subdivision(_) => "subdivision",
        Content::Merger(_) => "merger",
        Content::Mortgage(_) => "mortgage",
        Content::Discharge(_) => "discharge",
    }
}

/// Returns the word of the state of a mutation.
pub fn state_word(state: MutationState) -> &'static str
    ensures { result.now ≡ state_word state }
{
    match state {
        MutationState::Lodged => "lodged",
        MutationState::Approved => "approved",
        MutationState::Refused => "refused",
    }
}

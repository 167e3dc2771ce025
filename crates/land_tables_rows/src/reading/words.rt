//! The words of kinds, roles, classes and states.
ghost use Rattle.std.specs.Prelude.{◌≡◌};
ghost use Rattle.land_tables_rows.specs.Reading.Words.{entry_class_of, class_word_in};
ghost use Rattle.land_tables_rows.specs.Reading.Words.{party_kind_of, party_kind_in};
ghost use Rattle.land_tables_rows.specs.Reading.Words.{role_in, source_kind_in, source_kind_of, state_in};
ghost use Rattle.land_tables_rows.specs.Reading.Words.{mutation_state_of};
ghost use Rattle.land_wire_json.specs.Bodies.WireFaults.{Returns};
ghost use Rattle.sqlite_value.specs.Order.{column};

use crate::reading::cells::text_at;
use land_core::kind::PartyKind;
use land_core::mutation::MutationState;
use land_core::role::Role;
use land_core::rrr::RightType;
use land_core::source::SourceKind;
use land_wire_json::bodies::wire_fault::WireFault;
use land_wire_json::bodies::words;
use sqlite::Row;

/// The class of an entry, by the word in its row.
#[derive(Clone, Copy, Debug, PartialEq, Eq)]
pub enum ClassWord {
    /// A right of a type.
    Right(RightType),
    /// A restriction.
    Restriction,
    /// A responsibility.
    Responsibility,
    /// A mortgage.
    Mortgage,
}

/// Decodes the kind of a party. Errors: 131 if the cell is not a string; 133 if it is another word.
#[tactic(auto, unfolding(crate::specs::Reading::Words::party_kind_in))]
pub fn party_kind_at(row: &Row, at: usize) -> Result<PartyKind, WireFault>
    ensures { result ≡ party_kind_in (column row.now at) }
{
    kind_of(text_at(row, at)?)
}

fn kind_of(word: &str) -> Result<PartyKind, WireFault>
    ensures { result ≡ party_kind_of word.now }
{
    if word == "group" {
        Ok(PartyKind::Group)
    } else {
        words::kind_of(word)
    }
}

/// Decodes a role. Errors: 131 if the cell is not a string; 134 if it is another word.
#[tactic(auto, unfolding(crate::specs::Reading::Words::role_in))]
pub fn role_at(row: &Row, at: usize) -> Result<Role, WireFault>
    ensures { result ≡ role_in (column row.now at) }
{
    words::role_of(text_at(row, at)?.as_bytes())
}

/// Decodes the kind of a source. Errors: 131 if the cell is not a string; 133 if it is another word.
#[tactic(auto, unfolding(crate::specs::Reading::Words::source_kind_in))]
pub fn source_kind_at(row: &Row, at: usize) -> Result<SourceKind, WireFault>
    ensures { result ≡ source_kind_in (column row.now at) }
{
    source_kind_of(text_at(row, at)?)
}

fn source_kind_of(word: &str) -> Result<SourceKind, WireFault>
    ensures { result ≡ source_kind_of word.now }
{
    if word == "administrative" {
        Ok(SourceKind::Administrative)
    } else if word == "spatial" {
        Ok(SourceKind::Spatial)
    } else {
        Err(WireFault::Text)
    }
}

/// Decodes the state of a mutation. Errors: 131 if the cell is not a string; 133 if it is another word.
#[tactic(auto, unfolding(crate::specs::Reading::Words::state_in))]
pub fn state_at(row: &Row, at: usize) -> Result<MutationState, WireFault>
    ensures { result ≡ state_in (column row.now at) }
{
    state_of(text_at(row, at)?)
}

fn state_of(word: &str) -> Result<MutationState, WireFault>
    ensures { result ≡ mutation_state_of word.now }
{
    if word == "lodged" {
        Ok(MutationState::Lodged)
    } else if word == "approved" {
        Ok(MutationState::Approved)
    } else if word == "refused" {
        Ok(MutationState::Refused)
    } else {
        Err(WireFault::Text)
    }
}

/// Decodes the class of an entry. Errors: 131 if the cell is not a string; 133 if it is another word.
#[tactic(auto, unfolding(crate::specs::Reading::Words::class_word_in))]
pub fn class_word_at(row: &Row, at: usize) -> Result<ClassWord, WireFault>
    ensures { result ≡ class_word_in (column row.now at) }
{
    class_of(text_at(row, at)?)
}

fn class_of(word: &str) -> Result<ClassWord, WireFault>
    ensures { result ≡ entry_class_of word.now }
{
    if word == "restriction" {
        Ok(ClassWord::Restriction)
    } else if word == "responsibility" {
        Ok(ClassWord::Responsibility)
    } else if word == "mortgage" {
        Ok(ClassWord::Mortgage)
    } else {
        Ok(ClassWord::Right(words::type_of(word)?))
    }
}

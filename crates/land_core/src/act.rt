//! The acts that a caller can request.
ghost use Rattle.std.specs.Prelude.{◌≡◌};
ghost use Rattle.std.specs.List.{list_all};
ghost use Rattle.land_core.specs.Acts.{are_members, have_numbers, are_parcels, have_labels, are_rights};
ghost use Rattle.land_core.specs.Acts.{have_parties, have_owner};

use crate::content::Content;
use crate::kind::PartyKind;
use crate::limits::{are_words, is_label, is_name, is_number, is_reference, is_title};
use crate::mandates::Mandate;
use crate::member::Member;
use crate::roles::Grant;
use crate::rrr::RightType;
use crate::sequence::Sequence;
use crate::text::Text;
use land_fraction::Fraction;
use land_shape::Ring;

/// Enrols a single party, which gets the role of citizen.
#[derive(Debug, Drop)]
pub struct Enrol {
    /// A natural or a non-natural person.
    pub kind: PartyKind,
    /// The name: 1 to 200 characters.
    pub name: Text,
}

/// Enters a group: parties that hold jointly, each with its share.
#[derive(Debug, Drop)]
pub struct NewGroup {
    /// The name: 1 to 200 characters.
    pub name: Text,
    /// Its 2 to 64 members.
    pub members: Sequence<Member>,
}

/// Replaces the members of a group.
#[derive(Debug, Drop)]
pub struct Regroup {
    /// The group's number.
    pub group: u64,
    /// Its new members: 2 to 64.
    pub members: Sequence<Member>,
}

/// A parcel of a new unit.
#[derive(Debug, Drop)]
pub struct NewParcel {
    /// The label on the map: 1 to 40 characters.
    pub label: Text,
    /// Its outline, in millimetres.
    pub outline: Ring,
}

/// A right in a new unit.
#[derive(Clone, Copy, Debug)]
pub struct NewRight {
    /// The number of its party.
    pub party: u64,
    /// Its type.
    pub right_type: RightType,
    /// The party's share.
    pub share: Fraction,
}

/// Enters a unit with its first parcels and rights.
#[derive(Debug, Drop)]
pub struct NewUnit {
    /// The name: 1 to 200 characters.
    pub name: Text,
    /// Whether the shares of each type of right must sum to 1.
    pub checked: bool,
    /// The title of the document: 1 to 200 characters.
    pub document: Text,
    /// Its 1 to 64 parcels.
    pub parcels: Sequence<NewParcel>,
    /// Its 1 to 64 rights, at least one of them an ownership.
    pub rights: Sequence<NewRight>,
}

/// The class of a burden.
#[derive(Clone, Copy, Debug, PartialEq, Eq)]
pub enum BurdenClass {
    /// A duty to refrain or to tolerate (LA_Restriction).
    Restriction,
    /// A duty to act (LA_Responsibility).
    Responsibility,
}

/// Gives another party a mandate: it sees as the caller does.
#[derive(Clone, Copy, Debug, PartialEq, Eq)]
pub struct NewMandate {
    /// The number of the new agent. The principal is the caller.
    pub agent: u64,
}

/// Burdens a unit with a restriction or a responsibility of a party.
#[derive(Debug, Drop)]
pub struct Burden {
    /// The unit's number.
    pub unit: u64,
    /// The party's number.
    pub party: u64,
    /// The class.
    pub class: BurdenClass,
    /// The wording: 1 to 200 characters.
    pub words: Text,
    /// The title of the document: 1 to 200 characters.
    pub document: Text,
}

/// Lifts a restriction or a responsibility.
#[derive(Clone, Copy, Debug, PartialEq, Eq)]
pub struct Lift {
    /// The entry's number.
    pub rrr: u64,
}

/// Lodges a mutation, which is decided later.
#[derive(Debug, Drop)]
pub struct Lodging {
    /// The lodger's reference: 1 to 40 characters, unique for each lodger.
    pub reference: Text,
    /// The title of the document: 1 to 200 characters.
    pub document: Text,
    /// The requested change.
    pub content: Content,
}

/// Decides a mutation.
#[derive(Clone, Copy, Debug, PartialEq, Eq)]
pub struct Decision {
    /// The mutation's number.
    pub mutation: u64,
}

/// An act that a caller requests.
#[derive(Debug, Drop)]
pub enum Act {
    /// Enters a single party.
    Enrol(Enrol),
    /// Enters a group.
    Group(NewGroup),
    /// Replaces the members of a group.
    Regroup(Regroup),
    /// Grants a role to a single party.
    Grant(Grant),
    /// Revokes a role of a single party.
    Revoke(Grant),
    /// Gives another party a mandate of the caller.
    Mandate(NewMandate),
    /// Removes a mandate.
    Withdraw(Mandate),
    /// Enters a unit.
    Register(NewUnit),
    /// Burdens a unit.
    Burden(Burden),
    /// Lifts a burden.
    Lift(Lift),
    /// Lodges a mutation.
    Lodge(Lodging),
    /// Approves a mutation: its change is made.
    Approve(Decision),
    /// Refuses a mutation: nothing else changes.
    Refuse(Decision),
}

impl Act {
    ghost use Rattle.land_core.specs.Acts.{is_well_formed};

    /// Checks if each field is within its limits.
    pub fn is_well_formed(&self) -> bool
        ensures { result ≡ is_well_formed self.now }
    {
        match self {
            Act::Enrol(it) => it.kind != PartyKind::Group && is_name(it.name.as_str()),
            Act::Group(it) => is_name(it.name.as_str()) && are_members(it.members.as_slice()),
            Act::Regroup(it) => is_number(it.group) && are_members(it.members.as_slice()),
            Act::Grant(it) | Act::Revoke(it) => is_number(it.party),
            Act::Mandate(it) => is_number(it.agent),
            Act::Withdraw(it) => is_number(it.principal) && is_number(it.agent),
            Act::Register(it) => it.is_well_formed(),
            Act::Burden(it) => it.is_well_formed(),
            Act::Lift(it) => is_number(it.rrr),
            Act::Lodge(it) => it.is_well_formed(),
            Act::Approve(it) | Act::Refuse(it) => is_number(it.mutation),
        }
    }
}

impl NewUnit {
    ghost use Rattle.land_core.specs.Acts.{is_new_unit};

    fn is_well_formed(&self) -> bool
        ensures { result ≡ is_new_unit self.now }
    {
        is_name(self.name.as_str())
            && is_title(self.document.as_str())
            && are_parcels(self.parcels.as_slice())
            && are_rights(self.rights.as_slice())
    }
}

impl Burden {
    ghost use Rattle.land_core.specs.Acts.{is_burden};

    fn is_well_formed(&self) -> bool
        ensures { result ≡ is_burden self.now }
    {
        is_number(self.unit)
            && is_number(self.party)
            && are_words(self.words.as_str())
            && is_title(self.document.as_str())
    }
}

impl Lodging {
    ghost use Rattle.land_core.specs.Acts.{is_lodging};

    fn is_well_formed(&self) -> bool
        ensures { result ≡ is_lodging self.now }
    {
        is_reference(self.reference.as_str())
            && is_title(self.document.as_str())
            && self.content.is_well_formed()
    }
}

/// Checks if a unit may be registered with these parcels: 1 to 64, each with a valid label.
fn are_parcels(parcels: &[NewParcel]) -> bool
    ensures { result ≡ are_parcels parcels.now }
{
    1 <= parcels.len() && parcels.len() <= 64 && have_labels(parcels)
}

fn have_labels(parcels: &[NewParcel]) -> bool
    ensures { result ≡ have_labels parcels.now }
{
    parcels.iter().all(|parcel| is_label(parcel.label.as_str()))
}

/// Checks if a unit may be registered with these rights: 1 to 64, each of a party with a valid number, at
/// least one of them an ownership.
fn are_rights(rights: &[NewRight]) -> bool
    ensures { result ≡ are_rights rights.now }
{
    1 <= rights.len() && rights.len() <= 64 && have_parties(rights) && have_owner(rights)
}

fn have_parties(rights: &[NewRight]) -> bool
    ensures { result ≡ have_parties rights.now }
{
    rights.iter().all(|right| is_number(right.party))
}

/// Checks if any of the rights is an ownership.
pub fn have_owner(rights: &[NewRight]) -> bool
    ensures { result ≡ have_owner rights.now }
{
    rights
        .iter()
        .any(|right| right.right_type.is(RightType::Ownership))
}

/// Checks if a group may have these members: 2 to 64, each with a valid number.
fn are_members(members: &[Member]) -> bool
    ensures { result ≡ are_members members.now }
{
    2 <= members.len() && members.len() <= 64 && have_numbers(members)
}

fn have_numbers(members: &[Member]) -> bool
    ensures { result ≡ have_numbers members.now }
{
    members.iter().all(|member| is_number(member.party))
}

//! The interest of a citizen or a bank in a unit, and the objects that it makes visible. An interest follows
//! from the entries of the unit. A citizen has rights under its own name and under the names of its groups,
//! so these functions take a list of names.
ghost use Rattle.std.specs.List.{list_any};
ghost use Rattle.std.specs.Prelude.{◌≡◌, nat_eq};
ghost use Rattle.land_core.specs.Entries.{some};
ghost use Rattle.land_rules.specs.Denials.Interests.{interest_of, interest_of_bank, interest_of_citizen};
ghost use Rattle.land_rules.specs.Denials.Interests.{is_mortgage_for, is_ownership_under, is_right_under};
ghost use Rattle.land_rules.specs.Denials.Interests.{sees_by_interest};
ghost use Rattle.land_rules.specs.Relations.{is_mortgage_class, is_visible_to_creditor};

use land_core::caller::Caller;
use land_core::kind::Kind;
use land_core::records::Records;
use land_core::role::Role;
use land_core::rrr::{Class, RightType, RrrRecord};

/// The interest of a citizen or a bank in a unit.
#[derive(Clone, Copy, Debug)]
pub enum Interest {
    /// There is none.
    NoInterest,
    /// A citizen has a right in it, directly or through a group, but no ownership.
    Holder,
    /// A citizen owns it or a share of it, directly or through a group.
    Owner,
    /// A bank is the creditor of a mortgage on it.
    Creditor,
}

impl Interest {
    ghost use Rattle.land_rules.specs.Denials.Interests.{shows_entry, shows_unit};

    /// Returns whether this interest makes the unit visible.
    pub fn shows_unit(self) -> bool
        ensures { result ≡ shows_unit self }
    {
        match self {
            Interest::NoInterest => false,
            Interest::Holder | Interest::Owner | Interest::Creditor => true,
        }
    }

    /// Returns whether this interest of `party` makes an entry of the unit visible.
    pub fn shows_entry(self, party: u64, entry: &RrrRecord) -> bool
        ensures { result ≡ shows_entry self party entry.now }
    {
        match self {
            Interest::NoInterest => false,
            Interest::Holder => !is_mortgage(&entry.class),
            Interest::Owner => true,
            Interest::Creditor => is_visible_to_creditor(party, entry),
        }
    }
}

/// Returns whether a role sees the objects of a kind by its interest in their units or, for mutations, in the
/// units that they refer to.
pub fn sees_by_interest(role: Role, kind: Kind) -> bool
    ensures { result ≡ sees_by_interest role kind }
{
    match kind {
        Kind::Unit | Kind::Rrr => role == Role::Citizen || role == Role::Bank,
        Kind::Mutation => role == Role::Citizen,
        Kind::Party | Kind::Parcel | Kind::Source => false,
    }
}

fn is_mortgage(class: &Class) -> bool
    ensures { result ≡ is_mortgage_class class.now }
{
    class.rank().is_some()
}

fn is_visible_to_creditor(party: u64, entry: &RrrRecord) -> bool
    ensures { result ≡ is_visible_to_creditor party entry.now }
{
    !is_mortgage(&entry.class) || entry.party == party
}

fn is_among(names: &[u64], number: u64) -> bool
    ensures { result ≡ list_any (nat_eq number) names.now }
{
    names.iter().any(|name| number == *name)
}

fn is_right_in(names: &[u64], entry: &RrrRecord) -> bool
    ensures { result ≡ is_right_under (λ named. list_any (nat_eq named) names.now) entry.now }
{
    entry.class.right_type().is_some() && is_among(names, entry.party)
}

fn is_ownership_in(names: &[u64], entry: &RrrRecord) -> bool
    ensures { result ≡ is_ownership_under (λ named. list_any (nat_eq named) names.now) entry.now }
{
    entry.class.is_right_of(RightType::Ownership) && is_among(names, entry.party)
}

fn is_mortgage_for(party: u64, entry: &RrrRecord) -> bool
    ensures { result ≡ is_mortgage_for party entry.now }
{
    is_mortgage(&entry.class) && entry.party == party
}

fn has_right(names: &[u64], entries: &Records<RrrRecord>) -> bool
    ensures { result
        ≡ some (λ n e. is_right_under (λ named. list_any (nat_eq named) names.now) e) entries.now }
{
    entries.iter().any(|(_, entry)| is_right_in(names, entry))
}

fn has_ownership(names: &[u64], entries: &Records<RrrRecord>) -> bool
    ensures { result ≡ some (λ n e. is_ownership_under
        (λ named. list_any (nat_eq named) names.now) e) entries.now }
{
    entries
        .iter()
        .any(|(_, entry)| is_ownership_in(names, entry))
}

fn has_mortgage(party: u64, entries: &Records<RrrRecord>) -> bool
    ensures { result ≡ some (λ n e. is_mortgage_for party e) entries.now }
{
    entries
        .iter()
        .any(|(_, entry)| is_mortgage_for(party, entry))
}

fn interest_of_citizen(names: &[u64], entries: &Records<RrrRecord>) -> Interest
    ensures { result ≡ interest_of_citizen (λ named. list_any (nat_eq named) names.now) entries.now }
{
    if !has_right(names, entries) {
        Interest::NoInterest
    } else if has_ownership(names, entries) {
        Interest::Owner
    } else {
        Interest::Holder
    }
}

fn interest_of_bank(party: u64, entries: &Records<RrrRecord>) -> Interest
    ensures { result ≡ interest_of_bank party entries.now }
{
    if has_mortgage(party, entries) {
        Interest::Creditor
    } else {
        Interest::NoInterest
    }
}

/// Returns the interest of a caller in a unit with these entries. `names` are the names under which a citizen
/// has rights; for other roles they are not read.
pub fn interest_of(caller: Caller, names: &[u64], entries: &Records<RrrRecord>) -> Interest
    ensures { result ≡ interest_of (λ named. list_any (nat_eq named) names.now) caller entries.now }
{
    if caller.role == Role::Citizen {
        interest_of_citizen(names, entries)
    } else if caller.role == Role::Bank {
        interest_of_bank(caller.party, entries)
    } else {
        Interest::NoInterest
    }
}

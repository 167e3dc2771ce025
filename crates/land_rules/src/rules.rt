//! The verdict on a request, rule by rule, and the lists of objects that a caller sees.
ghost use Rattle.std.specs.Prelude.{◌≡◌, IfOk};
ghost use Rattle.land_core.specs.Entries.{numbers_where};
ghost use Rattle.land_rules.specs.Rules.{verdict_of, first_denial, sight_rules, sees, seen_of};

use crate::verdict::Verdict;
use land_core::ask::Ask;
use land_core::caller::Caller;
use land_core::kind::Kind;
use land_core::records::Records;
use land_core::register::Register;
use land_core::sequence::{NumberList, Sequence};
use std::alloc::{AllocError, Global};

mod holdings;
mod lists;
mod sight;
mod standing;

/// Returns the verdict on a request: the number of the first rule that denies it, or `Allowed`. Standing
/// rules read the register `now`, sight rules the register `at` the requested time. `past` is whether that
/// time is before now.
pub fn verdict(now: &Register, at: &Register, caller: Caller, ask: &Ask, past: bool) -> Verdict
    ensures { result ≡ verdict_of now.now at.now caller ask.now past }
{
    match standing::verdict(now, caller, ask, past) {
        Verdict::Allowed => sight_verdict(at, caller, ask),
        denied => denied,
    }
}

fn sight_verdict(at: &Register, caller: Caller, ask: &Ask) -> Verdict
    ensures { result ≡ first_denial (sight_rules at.now caller ask.now) }
{
    match ask {
        Ask::View { kind, number, .. } => sight::verdict(at, caller, *kind, *number),
        Ask::Sheet { unit, .. } => sight::verdict(at, caller, Kind::Unit, *unit),
        Ask::List { .. } | Ask::Do(_) => Verdict::Allowed,
    }
}

/// Returns the numbers of a kind that the caller sees in a register, ascending. The holdings and lodgings of
/// the caller's circle are collected once, in passes over the mandates, groups, entries and mutations; then
/// each object is one lookup, so that a list takes no quadratic time. The only error is out of memory.
pub fn seen(
    alloc: Global,
    at: &Register,
    caller: Caller,
    kind: Kind,
) -> Result<NumberList, AllocError>
    ensures { IfOk result (λ it. it ≡ seen_of at.now caller kind) }
{
    match kind {
        Kind::Party => lists::parties(alloc, at, caller),
        Kind::Unit => lists::units(alloc, at, caller),
        Kind::Parcel => seen_among(alloc, &at.parcels, at, caller, kind),
        Kind::Rrr => lists::entries(alloc, at, caller),
        Kind::Source => seen_among(alloc, &at.sources, at, caller, kind),
        Kind::Mutation => lists::mutations(alloc, at, caller),
    }
}

/// Returns those numbers of a map that the caller sees, ascending. Only for kinds and roles whose rules
/// search no entries.
fn seen_among<V>(
    alloc: Global,
    records: &Records<V>,
    at: &Register,
    caller: Caller,
    kind: Kind,
) -> Result<NumberList, AllocError>
    ensures { IfOk result (λ it. it ≡ numbers_where (λ n x. sees at.now caller kind n) records.now) }
{
    let mut seen = Sequence::new(alloc);
    for (number, _) in records.iter() {
        if sees(at, caller, kind, *number) {
            seen.push(*number)?;
        }
    }
    Ok(seen)
}

/// Returns whether no sight rule denies the view of an object.
pub fn sees(at: &Register, caller: Caller, kind: Kind, number: u64) -> bool
    ensures { result ≡ sees at.now caller kind number }
{
    sight::verdict(at, caller, kind, number).is_allowed()
}

//! The conditions of soundness on units.
ghost use Rattle.std.specs.Prelude.{◌≡◌, ◌≢◌, ◌&&◌, true, false, IfOk, OnOk, IfErr};
ghost use Rattle.std.specs.List.{list_any};
ghost use Rattle.land_core.specs.ByUnit.{are_claims_whole, claimed_shares, do_claims_clash, have_clash};
ghost use Rattle.land_core.specs.ByUnit.{is_bare, is_claim_of, is_crowded, lacks_whole_shares, under};
ghost use Rattle.land_core.specs.Entries.{some};
ghost use Rattle.land_core.specs.Soundness.{has_fault, has_rank_out_of_range, is_rank_out_of_range};
ghost use Rattle.land_core.specs.Units.{are_whole_or_none};
ghost use Rattle.land_core.specs.declared.rrr.RightType.TheVariants.{Ownership};

use crate::register::Register;
use crate::rrr::RightType;
use crate::sequence::Sequence;
use crate::soundness::Unsound;
use crate::soundness::by_unit::ByUnit;
use crate::soundness::check::is_used;
use crate::soundness::claim::Claim;
use land_fraction::{Fraction, Whole, is_whole};
use std::alloc::{AllocError, Global};

/// Checks the conditions on units. The error is a fault of a unit, or `Memory` if out of memory.
pub(crate) fn check_units(alloc: Global, register: &Register) -> Result<(), Unsound>
    requires { has_fault Unsound.Reference register.now ≡ false }
    ensures ok { OnOk result
        ((has_fault Unsound.Shares register.now ≡ false) × (has_fault Unsound.Bare register.now ≡ false)
        × (has_fault Unsound.Crowded register.now ≡ false) × (has_fault Unsound.Twice register.now ≡ false)
        × (has_fault Unsound.Rank register.now ≡ false)) }
    ensures fault { IfErr result (λ fault. fault ≢ Unsound.Memory → has_fault fault register.now ≡ true) }
{
    let by_unit = ByUnit::of(alloc, register)?;
    if has_bare_unit(register, &by_unit) {
        return Err(Unsound::Bare);
    }
    if has_crowded_unit(register, &by_unit) {
        return Err(Unsound::Crowded);
    }
    if has_clash(register, &by_unit) {
        return Err(Unsound::Twice);
    }
    if has_rank_out_of_range(register) {
        return Err(Unsound::Rank);
    }
    if has_unit_without_whole_shares(alloc, register, &by_unit)? {
        return Err(Unsound::Shares);
    }
    Ok(())
}

fn has_bare_unit(register: &Register, by_unit: &ByUnit) -> bool
    ensures { result ≡ some (λ n u. is_bare by_unit.now n) register.now.units }
{
    register
        .units
        .iter()
        .any(|(number, _)| is_bare(by_unit, *number))
}

fn is_bare(by_unit: &ByUnit, unit: u64) -> bool
    ensures { result ≡ is_bare by_unit.now unit }
{
    by_unit.parcels.under(unit).is_empty() || !has_owner(by_unit.claims.under(unit))
}

fn has_owner(claims: &[Claim]) -> bool
    ensures { result ≡ list_any (is_claim_of Ownership) claims.now }
{
    claims
        .iter()
        .any(|claim| claim.is_right_of(RightType::Ownership))
}

fn has_crowded_unit(register: &Register, by_unit: &ByUnit) -> bool
    ensures { result ≡ some (λ n u. is_crowded by_unit.now n) register.now.units }
{
    register
        .units
        .iter()
        .any(|(number, _)| is_crowded(by_unit, *number))
}

fn is_crowded(by_unit: &ByUnit, unit: u64) -> bool
    ensures { result ≡ is_crowded by_unit.now unit }
{
    256 < by_unit.parcels.under(unit).len() || 256 < by_unit.claims.under(unit).len()
}

fn has_clash(register: &Register, by_unit: &ByUnit) -> bool
    ensures { result ≡ some (λ n u. have_clash (under by_unit.now.claims n)) register.now.units }
{
    register
        .units
        .iter()
        .any(|(number, _)| have_clash(by_unit.claims.under(*number)))
}

/// Checks if any two claims clash.
fn have_clash(claims: &[Claim]) -> bool
    ensures { result ≡ have_clash claims.now }
{
    let mut rest = claims;
    while let [claim, later @ ..] = rest {
        if clashes(*claim, later) {
            return true;
        }
        rest = later;
    }
    false
}

/// Checks if a claim clashes with any of the others.
fn clashes(claim: Claim, others: &[Claim]) -> bool
    ensures { result ≡ list_any (do_claims_clash claim) others.now }
{
    others.iter().any(|other| claim.do_clash(*other))
}

fn has_rank_out_of_range(register: &Register) -> bool
    ensures { result ≡ has_rank_out_of_range register.now }
{
    register.rrrs.iter().any(|(_, entry)| is_rank_out_of_range(register, entry.class.rank()))
}

fn is_rank_out_of_range(register: &Register, rank: Option<u64>) -> bool
    ensures { result ≡ is_rank_out_of_range register.now rank }
{
    match rank {
        Some(rank) => !is_used(register, rank),
        None => false,
    }
}

fn has_unit_without_whole_shares(
    alloc: Global,
    register: &Register,
    by_unit: &ByUnit,
) -> Result<bool, AllocError>
    ensures { IfOk result
        (λ it. it ≡ some (λ n u. u.checked && lacks_whole_shares by_unit.now n) register.now.units) }
{
    for (number, unit) in register.units.iter() {
        if unit.checked && !are_whole(alloc, by_unit.claims.under(*number))? {
            return Ok(true);
        }
    }
    Ok(false)
}

/// Checks if the shares of each type of right that occurs sum to 1.
fn are_whole(alloc: Global, claims: &[Claim]) -> Result<bool, AllocError>
    ensures { IfOk result (λ it. it ≡ are_claims_whole claims.now) }
{
    Ok(
        is_whole_type(alloc, claims, RightType::Ownership)?
            && is_whole_type(alloc, claims, RightType::Lease)?
            && is_whole_type(alloc, claims, RightType::Usufruct)?,
    )
}

fn is_whole_type(alloc: Global, claims: &[Claim], right_type: RightType) -> Result<bool, AllocError>
    ensures { IfOk result (λ it. it ≡ are_whole_or_none (claimed_shares right_type claims.now)) }
{
    let shares = shares_of(alloc, claims, right_type)?;
    Ok(are_whole_or_none(shares.as_slice()))
}

/// Returns the shares of the rights of one type, in the order of the claims.
fn shares_of(
    alloc: Global,
    claims: &[Claim],
    right_type: RightType,
) -> Result<Sequence<Fraction>, AllocError>
    ensures { IfOk result (λ it. it ≡ claimed_shares right_type claims.now) }
{
    let mut shares = Sequence::new(alloc);
    for claim in claims {
        if let Some(share) = claim.share_of(right_type) {
            shares.push(share)?;
        }
    }
    Ok(shares)
}

fn are_whole_or_none(shares: &[Fraction]) -> bool
    ensures { result ≡ are_whole_or_none shares.now }
{
    shares.is_empty() || is_whole(shares) == Whole::Yes
}

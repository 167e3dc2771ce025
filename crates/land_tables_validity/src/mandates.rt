//! Checks that mandates are between two single parties, at each commit.
ghost use Rattle.std.specs.Fn.{FnReturnsAt};
ghost use Rattle.std.specs.List.{list_all};
ghost use Rattle.std.specs.Prelude.{◌≡◌, ◌↔◌, ℕ, true, not, nat_eq, IfOk};
ghost use Rattle.land_core.specs.Soundness.{has_dangling_mandate};
ghost use Rattle.land_tables_history.specs.Intervals.{has_intervals};
ghost use Rattle.land_tables_history.specs.Sweeps.Cover.{IsCovered};
ghost use Rattle.land_tables_validity.specs.Never.{Never};
ghost use Rattle.land_tables_validity.specs.CoverageSpans.{AreNonempty, are_in_range, coverage_spans};
ghost use Rattle.land_tables_validity.specs.Roles.{single_parties};

use crate::references_exist::require_numbers;
use crate::roles::provide_single_parties;
use land_core::mandates::Mandate;
use land_core::party::PartyRecord;
use land_core::sequence::Sequence;
use land_tables_history::history::History;
use land_tables_history::moment::Moment;
use land_tables_history::sweeps::cover::is_covered;
use land_tables_history::version::Version;
use std::alloc::{AllocError, Global};

/// Returns whether the principal and the agent of each mandate are two different single parties throughout
/// its lifespan. Returns an error only if it is out of memory.
pub(crate) fn mandates_refs_exist(
    alloc: Global,
    history: &History,
    moments: &[Moment],
) -> Result<bool, AllocError>
    requires intervals { has_intervals moments.now history.now ≡ true }
    requires in_time { are_in_range moments.now ≡ true }
    ensures { IfOk result (λ it. (it ≡ true) ↔ Never has_dangling_mandate moments.now history.now) }
{
    let others = are_of_others(history.mandates.as_slice());
    let principals = are_single_parties(
        alloc,
        &history.parties,
        &history.mandates,
        |mandate| mandate.principal,
    )?;
    let agents = are_single_parties(
        alloc,
        &history.parties,
        &history.mandates,
        |mandate| mandate.agent,
    )?;
    Ok(principals & agents & others)
}

/// Returns whether the number that each version refers to is that of a single party throughout its lifespan.
/// The closure returns the number.
fn are_single_parties<W, F: Fn(&W) -> u64>(
    alloc: Global,
    parties: &Sequence<Version<(u64, PartyRecord)>>,
    versions: &Sequence<Version<W>>,
    number: F,
) -> Result<bool, AllocError>
    ghost number_of: { W → ℕ }
    requires callable { F.IsAlwaysCallable number }
    requires computes { (what : W) (n : ℕ) → FnReturnsAt F.Fn number what n → n ≡ number_of what }
    requires nonempty { AreNonempty
        (coverage_spans (λ e. e.0) (single_parties parties.now) number_of versions.now) }
    ensures { IfOk result (λ it. (it ≡ true) ↔ IsCovered
        (coverage_spans (λ e. e.0) (single_parties parties.now) number_of versions.now)) }
{
    let mut coverage_spans = Vec::new(alloc);
    provide_single_parties(&mut coverage_spans, parties.as_slice())?;
    require_numbers(&mut coverage_spans, versions.as_slice(), number)?;
    Ok(is_covered(&mut coverage_spans))
}

/// Returns whether the principal and the agent of each mandate differ.
fn are_of_others(mandates: &[Version<Mandate>]) -> bool
    ensures { result ≡ list_all (λ v. not (nat_eq v.what.principal v.what.agent)) mandates.now }
{
    mandates
        .iter()
        .all(|mandate| mandate.what.principal != mandate.what.agent)
}

//! Checks that references by number exist, at every time. Each row that may be referred to provides its
//! number during its lifespan, each referring row requires the number that it refers to, and one sweep checks
//! the coverage.
ghost use Rattle.std.specs.Fn.{FnReturnsAt};
ghost use Rattle.std.specs.Prelude.{◌≡◌, ◌↔◌, ◌++◌, ℕ, true, IfOk, map as map_list};
ghost use Rattle.land_tables_validity.specs.CoverageSpans.{AreNonempty, required_span, provided_span};
ghost use Rattle.land_tables_validity.specs.CoverageSpans.{coverage_spans};
ghost use Rattle.land_tables_history.specs.Sweeps.Cover.{IsCovered};

use crate::coverage_spans::{provided_span, required_span};
use land_core::sequence::Sequence;
use land_tables_history::sweeps::cover::{CoverageSpan, is_covered};
use land_tables_history::version::Version;
use std::alloc::{AllocError, Global};

/// Returns whether the number that each version refers to exists throughout its lifespan. The closure returns
/// the number. Returns an error only if it is out of memory.
pub(crate) fn all_exist<V, W, F: Fn(&W) -> u64>(
    alloc: Global,
    there: &Sequence<Version<(u64, V)>>,
    versions: &Sequence<Version<W>>,
    number: F,
) -> Result<bool, AllocError>
    ghost number_of: { W → ℕ }
    requires callable { F.IsAlwaysCallable number }
    requires computes { (what : W) (n : ℕ) → FnReturnsAt F.Fn number what n → n ≡ number_of what }
    requires nonempty { AreNonempty (coverage_spans (λ e. e.0) there.now number_of versions.now) }
    ensures { IfOk result (λ it. (it ≡ true) ↔ IsCovered
        (coverage_spans (λ e. e.0) there.now number_of versions.now)) }
{
    let mut coverage_spans = Vec::new(alloc);
    provide_numbers(&mut coverage_spans, there.as_slice())?;
    require_numbers(&mut coverage_spans, versions.as_slice(), number)?;
    Ok(is_covered(&mut coverage_spans))
}

/// Adds a provided span for the number of each version.
pub(crate) fn provide_numbers<V>(
    coverage_spans: &mut Vec<CoverageSpan>,
    versions: &[Version<(u64, V)>],
) -> Result<(), AllocError>
    ensures { IfOk result (λ it. coverage_spans.new.items ≡ coverage_spans.old.items
        ++ map_list (provided_span (λ e. e.0)) versions.now) }
{
    for version in versions {
        coverage_spans.push(provided_span(version.what.0, version))?;
    }
    Ok(())
}

/// Adds a required span for the number that each version refers to. The closure returns the number.
pub(crate) fn require_numbers<W, F: Fn(&W) -> u64>(
    coverage_spans: &mut Vec<CoverageSpan>,
    versions: &[Version<W>],
    number: F,
) -> Result<(), AllocError>
    ghost number_of: { W → ℕ }
    requires callable { F.IsAlwaysCallable number }
    requires computes { (what : W) (n : ℕ) → FnReturnsAt F.Fn number what n → n ≡ number_of what }
    ensures { IfOk result (λ it. coverage_spans.new.items ≡ coverage_spans.old.items
        ++ map_list (required_span number_of) versions.now) }
{
    for version in versions {
        coverage_spans.push(required_span(number(&version.what), version))?;
    }
    Ok(())
}

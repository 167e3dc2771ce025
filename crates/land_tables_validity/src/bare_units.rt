//! Checks that units have parcels and owners, at each commit.
ghost use Rattle.std.specs.Prelude.{◌≡◌, ◌↔◌, ◌++◌, true, map as map_list, IfOk, OnOk};
ghost use Rattle.land_core.specs.Soundness.{has_bare_unit};
ghost use Rattle.land_tables_history.specs.Intervals.{has_intervals};
ghost use Rattle.land_tables_validity.specs.BareUnits.{entry_unit, record_number, ownerships, owns};
ghost use Rattle.land_tables_validity.specs.BareUnits.{parcel_unit};
ghost use Rattle.land_tables_validity.specs.Never.{Never};
ghost use Rattle.land_tables_validity.specs.CoverageSpans.{AreNonempty, are_in_range, provided_span};
ghost use Rattle.land_tables_validity.specs.CoverageSpans.{coverage_spans};
ghost use Rattle.land_tables_history.specs.Sweeps.Cover.{IsCovered};

use crate::coverage_spans::provided_span;
use crate::references_exist::require_numbers;
use land_core::parcel::ParcelRecord;
use land_core::rrr::{RightType, RrrRecord};
use land_tables_history::history::History;
use land_tables_history::moment::Moment;
use land_tables_history::sweeps::cover::{CoverageSpan, is_covered};
use land_tables_history::version::Version;
use std::alloc::{AllocError, Global};

/// Returns whether each unit has a parcel and an owner throughout its lifespan. Returns an error only if it
/// is out of memory.
pub(crate) fn have_parcels_and_owners(
    alloc: Global,
    history: &History,
    moments: &[Moment],
) -> Result<bool, AllocError>
    requires intervals { has_intervals moments.now history.now ≡ true }
    requires in_time { are_in_range moments.now ≡ true }
    ensures { IfOk result (λ it. (it ≡ true) ↔ Never has_bare_unit moments.now history.now) }
{
    let parcels = have_parcels(alloc, history)?;
    let owners = have_owners(alloc, history)?;
    Ok(parcels & owners)
}

/// Returns whether each unit has a parcel throughout its lifespan.
fn have_parcels(alloc: Global, history: &History) -> Result<bool, AllocError>
    requires { AreNonempty (coverage_spans parcel_unit history.now.parcels record_number history.now.units) }
    ensures { IfOk result (λ it. (it ≡ true) ↔ IsCovered
        (coverage_spans parcel_unit history.now.parcels record_number history.now.units)) }
{
    let mut coverage_spans = Vec::new(alloc);
    provide_parcels(&mut coverage_spans, history.parcels.as_slice())?;
    require_numbers(&mut coverage_spans, history.units.as_slice(), |unit| unit.0)?;
    Ok(is_covered(&mut coverage_spans))
}

/// Returns whether each unit has an owner throughout its lifespan.
fn have_owners(alloc: Global, history: &History) -> Result<bool, AllocError>
    requires { AreNonempty
        (coverage_spans entry_unit (ownerships history.now.rrrs) record_number history.now.units) }
    ensures { IfOk result (λ it. (it ≡ true) ↔ IsCovered
        (coverage_spans entry_unit (ownerships history.now.rrrs) record_number history.now.units)) }
{
    let mut coverage_spans = Vec::new(alloc);
    provide_ownerships(&mut coverage_spans, history.rrrs.as_slice())?;
    require_numbers(&mut coverage_spans, history.units.as_slice(), |unit| unit.0)?;
    Ok(is_covered(&mut coverage_spans))
}

/// Adds a provided span for the unit of each parcel.
fn provide_parcels(
    coverage_spans: &mut Vec<CoverageSpan>,
    parcels: &[Version<(u64, ParcelRecord)>],
) -> Result<(), AllocError>
    ensures { OnOk result (coverage_spans.new.items ≡ coverage_spans.old.items
        ++ map_list (provided_span parcel_unit) parcels.now) }
{
    for parcel in parcels {
        coverage_spans.push(provided_span(parcel.what.1.unit, parcel))?;
    }
    Ok(())
}

/// Adds a provided span for the unit of each ownership.
fn provide_ownerships(
    coverage_spans: &mut Vec<CoverageSpan>,
    rrrs: &[Version<(u64, RrrRecord)>],
) -> Result<(), AllocError>
    ensures { OnOk result (coverage_spans.new.items ≡ coverage_spans.old.items
        ++ map_list (provided_span entry_unit) (ownerships rrrs.now)) }
{
    for entry in rrrs {
        if owns(entry) {
            coverage_spans.push(provided_span(entry.what.1.unit, entry))?;
        }
    }
    Ok(())
}

/// Returns whether an entry is an ownership.
fn owns(entry: &Version<(u64, RrrRecord)>) -> bool
    ensures { result ≡ owns entry.now }
{
    entry.what.1.class.is_right_of(RightType::Ownership)
}

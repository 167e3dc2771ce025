//! Checks the limits and the share sums of units, at each commit.
ghost use Rattle.std.specs.Prelude.{◌≡◌, ◌↔◌, true, IfOk, refl, ◌++◌};
ghost use Rattle.land_core.specs.Soundness.{has_crowded_unit, has_unit_without_whole_shares};
ghost use Rattle.land_tables_history.specs.Intervals.{has_intervals};
ghost use Rattle.land_tables_validity.specs.AnyOrder.{sound_in_any_order};
ghost use Rattle.land_tables_validity.specs.Holdings.{is_unit_sound, entry_spans, parcel_spans};
ghost use Rattle.land_tables_validity.specs.Holdings.{unit_spans};
ghost use Rattle.land_tables_validity.specs.Never.{Never};
ghost use Rattle.land_tables_validity.specs.CoverageSpans.{are_in_range};

use crate::live_spans::live_span;
use crate::share_sums::{Holding, are_few_in_unit, are_whole_in_checked_unit};
use land_core::parcel::ParcelRecord;
use land_core::rrr::RrrRecord;
use land_core::unit::UnitRecord;
use land_tables_history::history::History;
use land_tables_history::moment::Moment;
use land_tables_history::sweeps::sweep::{LiveSpan, SweepItem, are_sound};
use land_tables_history::version::Version;
use std::alloc::{AllocError, Global};

impl SweepItem for Holding {
    ghost is_sound = { is_unit_sound };

    fn check_soundness(alloc: Global, there: &[LiveSpan<Holding>]) -> Result<bool, AllocError> {
        Ok(are_few_in_unit(there) && are_whole_in_checked_unit(alloc, there)?)
    }

    ghost empty_is_sound = { refl };

    ghost in_any_order = { λ xs ys p. sound_in_any_order xs ys p };
}

/// Returns whether at each commit the shares of each type of right that occurs in a checked unit sum to one,
/// and each unit has at most 256 parcels and 256 entries. Returns an error only if it is out of memory.
pub(crate) fn are_units_whole(
    alloc: Global,
    history: &History,
    moments: &[Moment],
) -> Result<bool, AllocError>
    requires intervals { has_intervals moments.now history.now ≡ true }
    requires in_time { are_in_range moments.now ≡ true }
    ensures { IfOk result (λ it. (it ≡ true)
        ↔ (Never has_unit_without_whole_shares moments.now history.now
        × Never has_crowded_unit moments.now history.now)) }
{
    let mut live_spans = holdings_in(
        alloc,
        history.units.as_slice(),
        history.parcels.as_slice(),
        history.rrrs.as_slice(),
    )?;
    are_sound(alloc, &mut live_spans)
}

/// Returns the units, their parcels and their entries, each with its lifespan.
fn holdings_in(
    alloc: Global,
    units: &[Version<(u64, UnitRecord)>],
    parcels: &[Version<(u64, ParcelRecord)>],
    entries: &[Version<(u64, RrrRecord)>],
) -> Result<Vec<LiveSpan<Holding>>, AllocError>
    ensures { IfOk result (λ it. it.items ≡ (unit_spans units.now ++ parcel_spans parcels.now)
        ++ entry_spans entries.now) }
{
    let mut live_spans = Vec::new(alloc);
    for unit in units {
        let checked = unit.what.1.checked;
        live_spans.push(live_span(unit.what.0, Holding::Unit { checked }, unit))?;
    }
    for parcel in parcels {
        live_spans.push(live_span(parcel.what.1.unit, Holding::Parcel, parcel))?;
    }
    for entry in entries {
        let held = Holding::of_class(&entry.what.1.class);
        live_spans.push(live_span(entry.what.1.unit, held, entry))?;
    }
    Ok(live_spans)
}

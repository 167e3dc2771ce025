//! Checks that the references of entries exist, at each commit.
ghost use Rattle.std.specs.Prelude.{◌≡◌, ◌↔◌, true, IfOk};
ghost use Rattle.land_core.specs.Soundness.{has_dangling_rrr};
ghost use Rattle.land_tables_history.specs.Intervals.{has_intervals};
ghost use Rattle.land_tables_validity.specs.Never.{Never};
ghost use Rattle.land_tables_validity.specs.CoverageSpans.{are_in_range};

use crate::references_exist::all_exist;
use land_tables_history::history::History;
use land_tables_history::moment::Moment;
use std::alloc::{AllocError, Global};

/// Returns whether the unit, the party and the source of each entry exist throughout its lifespan. Returns an
/// error only if it is out of memory.
pub(crate) fn entries_refs_exist(
    alloc: Global,
    history: &History,
    moments: &[Moment],
) -> Result<bool, AllocError>
    requires intervals { has_intervals moments.now history.now ≡ true }
    requires in_time { are_in_range moments.now ≡ true }
    ensures { IfOk result (λ it. (it ≡ true) ↔ Never has_dangling_rrr moments.now history.now) }
{
    let units = all_exist(alloc, &history.units, &history.rrrs, |entry| entry.1.unit)?;
    let parties = all_exist(
        alloc,
        &history.parties,
        &history.rrrs,
        |entry| entry.1.party,
    )?;
    let sources = all_exist(
        alloc,
        &history.sources,
        &history.rrrs,
        |entry| entry.1.source,
    )?;
    Ok(units & parties & sources)
}

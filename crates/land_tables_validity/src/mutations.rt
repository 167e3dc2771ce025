//! Checks that the references of mutations exist, and that their contents are within limits, at each commit.
ghost use Rattle.std.specs.List.{list_all};
ghost use Rattle.std.specs.Prelude.{◌≡◌, ◌↔◌, true, IfOk};
ghost use Rattle.land_core.specs.Contents.{is_well_formed_content};
ghost use Rattle.land_core.specs.Soundness.{has_dangling_mutation};
ghost use Rattle.land_tables_history.specs.Intervals.{has_intervals};
ghost use Rattle.land_tables_validity.specs.Never.{Never};
ghost use Rattle.land_tables_validity.specs.CoverageSpans.{are_in_range};

use crate::references_exist::all_exist;
use land_core::mutation::MutationRecord;
use land_tables_history::history::History;
use land_tables_history::moment::Moment;
use land_tables_history::version::Version;
use std::alloc::{AllocError, Global};

/// Returns whether the lodger and the source of each mutation exist throughout its lifespan, and its content
/// is within limits. Returns an error only if it is out of memory.
pub(crate) fn mutations_refs_exist(
    alloc: Global,
    history: &History,
    moments: &[Moment],
) -> Result<bool, AllocError>
    requires intervals { has_intervals moments.now history.now ≡ true }
    requires in_time { are_in_range moments.now ≡ true }
    ensures { IfOk result (λ it. (it ≡ true) ↔ Never has_dangling_mutation moments.now history.now) }
{
    let contents = are_well_formed(history.mutations.as_slice());
    let lodgers = all_exist(
        alloc,
        &history.parties,
        &history.mutations,
        |mutation| mutation.1.lodger,
    )?;
    let sources = all_exist(
        alloc,
        &history.sources,
        &history.mutations,
        |mutation| mutation.1.source,
    )?;
    Ok(lodgers & sources & contents)
}

/// Returns whether the content of each mutation is within limits.
fn are_well_formed(mutations: &[Version<(u64, MutationRecord)>]) -> bool
    ensures { result ≡ list_all (λ v. is_well_formed_content v.what.1.content) mutations.now }
{
    mutations
        .iter()
        .all(|mutation| mutation.what.1.content.is_well_formed())
}

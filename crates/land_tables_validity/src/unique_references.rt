//! Checks that each lodger uses a reference only once.
ghost use Rattle.std.specs.Prelude.{◌≡◌, ◌↔◌, true, IfOk, map as map_list};
ghost use Rattle.land_core.specs.Soundness.{has_reused_reference};
ghost use Rattle.land_tables_history.specs.Intervals.{has_intervals};
ghost use Rattle.land_tables_validity.specs.Lodgings.{lodging_span, owned_span};
ghost use Rattle.land_tables_validity.specs.Never.{Never};

use land_core::mutation::MutationRecord;
use land_tables_history::history::History;
use land_tables_history::moment::Moment;
use land_tables_history::sweeps::apart::{Span, are_apart};
use land_tables_history::version::Version;
use std::alloc::{AllocError, Global};

/// Returns whether no party has lodged two current mutations with the same reference, at each commit.
/// References are borrowed, not copied. Returns an error only if it is out of memory.
pub(crate) fn are_references_unique(
    alloc: Global,
    history: &History,
    moments: &[Moment],
) -> Result<bool, AllocError>
    requires { has_intervals moments.now history.now ≡ true }
    ensures { IfOk result (λ it. (it ≡ true) ↔ Never has_reused_reference moments.now history.now) }
{
    let mut spans = spans_of(alloc, history.mutations.as_slice())?;
    Ok(are_apart(&mut spans))
}

fn spans_of(
    alloc: Global,
    mutations: &[Version<(u64, MutationRecord)>],
) -> Result<Vec<Span<(u64, &str)>>, AllocError>
    ensures { IfOk result (λ it. map_list owned_span it.items ≡ map_list lodging_span mutations.now) }
{
    let mut spans = Vec::new(alloc);
    for mutation in mutations {
        spans.push(Span {
            key: (mutation.what.1.lodger, mutation.what.1.reference.as_str()),
            since: mutation.since,
            until: mutation.until,
        })?;
    }
    Ok(spans)
}

//! Lifespans with their keys.
ghost use Rattle.std.specs.List.{list_all};
ghost use Rattle.std.specs.Prelude.{◌≡◌, true, IfOk, map as map_list, int_lt};
ghost use Rattle.land_core.specs.Entries.{are_distinct};
ghost use Rattle.land_tables_history.specs.Intervals.{overlap};
ghost use Rattle.land_tables_history.specs.Spans.{span_of};

use crate::keyed::Keyed;
use crate::sweeps::apart;
use crate::sweeps::apart::Span;
use crate::version::Version;
use std::alloc::{AllocError, Global};

/// Returns whether no two lifespans of one key overlap.
pub(crate) fn are_apart<X: Keyed>(
    alloc: Global,
    versions: &[Version<X>],
) -> Result<bool, AllocError>
    requires { list_all (λ v. int_lt v.since v.until) versions.now ≡ true }
    ensures { IfOk result (λ it. it ≡ are_distinct (overlap X.Keyed.same_key) versions.now) }
{
    let mut spans = spans_of(alloc, versions)?;
    Ok(apart::are_apart(&mut spans))
}

fn spans_of<X: Keyed>(
    alloc: Global,
    versions: &[Version<X>],
) -> Result<Vec<Span<(u64, u64)>>, AllocError>
    ensures { IfOk result (λ it. it.items ≡ map_list (span_of X.Keyed.key_of) versions.now) }
{
    let mut spans = Vec::new(alloc);
    for version in versions {
        spans.push(span_of(version))?;
    }
    Ok(spans)
}

fn span_of<X: Keyed>(version: &Version<X>) -> Span<(u64, u64)>
    ensures { result ≡ span_of X.Keyed.key_of version.now }
{
    Span {
        key: version.what.key(),
        since: version.since,
        until: version.until,
    }
}

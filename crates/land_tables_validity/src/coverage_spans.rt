//! Coverage spans of versions.
ghost use Rattle.std.specs.Prelude.{◌≡◌};
ghost use Rattle.land_tables_validity.specs.CoverageSpans.{required_at, provided_at};

use land_tables_history::sweeps::cover::CoverageSpan;
use land_tables_history::version::Version;

/// Returns a span that provides a number during the lifespan of a version.
pub(crate) fn provided_span<X>(key: u64, version: &Version<X>) -> CoverageSpan
    ensures { result ≡ provided_at key version.now.since version.now.until }
{
    CoverageSpan {
        first: key,
        second: 0,
        since: version.since,
        required: false,
        until: version.until,
    }
}

/// Returns a span that requires a number during the lifespan of a version.
pub(crate) fn required_span<X>(key: u64, version: &Version<X>) -> CoverageSpan
    ensures { result ≡ required_at key version.now.since version.now.until }
{
    CoverageSpan {
        first: key,
        second: 0,
        since: version.since,
        required: true,
        until: version.until,
    }
}

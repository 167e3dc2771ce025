//! Coverage spans with keys of two numbers.
ghost use Rattle.std.specs.Prelude.{◌≡◌};
ghost use Rattle.land_tables_validity.specs.KeyPairs.{pair_at};

use land_tables_history::sweeps::cover::CoverageSpan;
use land_tables_history::version::Version;

/// Returns a span that requires or provides a key of two numbers during the lifespan of a version.
pub(crate) fn pair_span<X>(
    required: bool,
    first: u64,
    second: u64,
    version: &Version<X>,
) -> CoverageSpan
    ensures { result ≡ pair_at required first second version.now.since version.now.until }
{
    CoverageSpan {
        first,
        second,
        since: version.since,
        required,
        until: version.until,
    }
}

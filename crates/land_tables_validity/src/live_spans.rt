//! Values under a key, with the lifespans of versions.
ghost use Rattle.std.specs.Prelude.{◌≡◌};
ghost use Rattle.land_tables_validity.specs.LiveSpan.{live_span_at};

use land_tables_history::sweeps::sweep::LiveSpan;
use land_tables_history::version::Version;

/// Returns a value under a key, with the lifespan of a version.
pub(crate) fn live_span<X, T>(key: u64, what: T, version: &Version<X>) -> LiveSpan<T>
    ensures { result ≡ live_span_at key what version.now.since version.now.until }
{
    LiveSpan {
        key,
        since: version.since,
        until: version.until,
        what,
    }
}

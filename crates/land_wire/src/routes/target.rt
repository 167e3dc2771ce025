//! Splits request targets.
ghost use Rattle.std.specs.Prelude.{◌≡◌};
ghost use Rattle.land_wire.specs.Routes.Targets.{path_of, query_of};

/// Returns the path of a target, before its first `?`, and the query after it.
pub fn split_target(target: &str) -> (&str, &str)
    ensures path { result.0.now ≡ path_of target.now }
    ensures query { result.1.now ≡ query_of target.now }
{
    match target.split_once('?') {
        Some((path, query)) => (path, query),
        None => (target, ""),
    }
}

//! Checks that spans of one key are disjoint.
ghost use Rattle.std.specs.List.{list_all};
ghost use Rattle.std.specs.Prelude.{◌≡◌, ◌↔◌, true, int_lt};
ghost use Rattle.land_tables_history.specs.Sweeps.Apart.{AreApart, are_apart, overlap};
ghost use Rattle.land_tables_history.specs.Sweeps.ApartSteps.{are_neighbours_apart, overlaps_first};

/// A span of time of a key.
#[derive(Clone, Copy, Debug, PartialEq, Eq, PartialOrd, Ord)]
pub struct Span<K> {
    /// The key.
    pub key: K,
    /// The start, inclusive, in Unix milliseconds.
    pub since: i64,
    /// The end, exclusive, in Unix milliseconds.
    pub until: i64,
}

/// Returns whether no two spans of one key overlap. Sorts the spans, so that only neighbours can overlap.
pub fn are_apart<K: Ord>(spans: &mut Vec<Span<K>>) -> bool
    requires { list_all (λ x. int_lt x.since x.until) spans.old.items ≡ true }
    ensures moments { (result ≡ true) ↔ AreApart K.Ord.cmp spans.old.items }
    ensures pairs { result ≡ are_apart K.Ord.cmp spans.old.items }
{
    spans.sort_unstable();
    are_neighbours_apart(spans.as_slice())
}

/// Returns whether no span overlaps the next one of its key.
fn are_neighbours_apart<K: Ord>(spans: &[Span<K>]) -> bool
    ensures { result ≡ are_neighbours_apart K.Ord.cmp spans.now }
{
    let mut rest = spans;
    while let [span, later @ ..] = rest {
        if overlaps_first(span, later) {
            return false;
        }
        rest = later;
    }
    true
}

/// Returns whether a span overlaps the next one, if that has its key.
fn overlaps_first<K: Ord>(span: &Span<K>, later: &[Span<K>]) -> bool
    ensures { result ≡ overlaps_first K.Ord.cmp span.now later.now }
{
    match later {
        [next, ..] => overlap(span, next),
        [] => false,
    }
}

/// Returns whether two spans have the same key and overlap.
fn overlap<K: Ord>(span: &Span<K>, other: &Span<K>) -> bool
    ensures { result ≡ overlap K.Ord.cmp span.now other.now }
{
    span.key.cmp(&other.key).is_eq() && span.since < other.until && other.since < span.until
}

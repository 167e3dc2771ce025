//! Checks that required moments are provided, key by key.
ghost use Rattle.std.specs.List.{list_all};
ghost use Rattle.std.specs.Prelude.{◌≡◌, ◌↔◌, true, None, int_lt};
ghost use Rattle.land_tables_history.specs.Sweeps.Cover.{IsCovered};
ghost use Rattle.land_tables_history.specs.Sweeps.CoverSteps.{with_required, first_reach, covered_from};
ghost use Rattle.land_tables_history.specs.Sweeps.CoverSteps.{is_same_key};
ghost use Rattle.land_tables_history.specs.Sweeps.CoverSteps.{later, with_provided, cover_step};

/// A span of time in which a key is provided or required. The order of the fields is the order of the sweep.
#[derive(Clone, Copy, Debug, PartialEq, Eq, PartialOrd, Ord)]
pub struct CoverageSpan {
    /// The first number of the key.
    pub first: u64,
    /// The second number of the key.
    pub second: u64,
    /// The start, inclusive, in Unix milliseconds.
    pub since: i64,
    /// Whether the key is required; if not, it is provided. Of spans with the same start, provided ones come
    /// first.
    pub required: bool,
    /// The end, exclusive, in Unix milliseconds.
    pub until: i64,
}

/// How far the spans until now provide a key without a gap, and how far they require it.
#[derive(Clone, Copy, Debug)]
pub(crate) struct Reach {
    /// The first number of the key.
    first: u64,
    /// The second number of the key.
    second: u64,
    /// The start of the provided time.
    since: i64,
    /// The end of the provided time.
    reach: i64,
    /// The end of the required time.
    need: i64,
}

/// Returns whether each key is provided at each moment at which it is required, in one sort and one pass.
pub fn is_covered(coverage_spans: &mut Vec<CoverageSpan>) -> bool
    requires { list_all (λ x. int_lt x.since x.until) coverage_spans.old.items ≡ true }
    ensures { (result ≡ true) ↔ IsCovered coverage_spans.old.items }
{
    coverage_spans.sort_unstable();
    is_covered_in_order(coverage_spans.as_slice())
}

/// Checks the same for sorted spans.
fn is_covered_in_order(coverage_spans: &[CoverageSpan]) -> bool
    ensures { result ≡ covered_from None coverage_spans.now }
{
    let mut reached = None;
    let mut rest = coverage_spans;
    while let [piece, later @ ..] = rest {
        match step(reached, piece) {
            Some(reach) => reached = Some(reach),
            None => return false,
        }
        rest = later;
    }
    match reached {
        Some(reach) => reach.need <= reach.reach,
        None => true,
    }
}

/// Returns the reach after one more span, or `None` if a required moment is not provided.
fn step(reached: Option<Reach>, piece: &CoverageSpan) -> Option<Reach>
    ensures { result ≡ cover_step reached piece.now }
{
    match reached {
        None if piece.required => None,
        None => Some(first_reach(piece)),
        Some(reach) if piece.required => with_required(reach, piece),
        Some(reach) => with_provided(reach, piece),
    }
}

/// Returns the reach of a provided span, the first one or one after a gap.
fn first_reach(piece: &CoverageSpan) -> Reach
    ensures { result ≡ first_reach piece.now }
{
    Reach {
        first: piece.first,
        second: piece.second,
        since: piece.since,
        reach: piece.until,
        need: piece.since,
    }
}

/// Extends the required time. The span must start within the provided time.
fn with_required(reach: Reach, piece: &CoverageSpan) -> Option<Reach>
    ensures { result ≡ with_required reach piece.now }
{
    if is_same_key(reach, piece) && piece.since < reach.reach {
        Some(Reach {
            need: later(reach.need, piece.until),
            ..reach
        })
    } else {
        None
    }
}

/// Extends the provided time, or starts a new one after a gap. All required time before the gap must have
/// ended.
fn with_provided(reach: Reach, piece: &CoverageSpan) -> Option<Reach>
    ensures { result ≡ with_provided reach piece.now }
{
    if is_same_key(reach, piece) && piece.since <= reach.reach {
        Some(Reach {
            reach: later(reach.reach, piece.until),
            ..reach
        })
    } else if reach.need <= reach.reach {
        Some(first_reach(piece))
    } else {
        None
    }
}

/// Returns the later of two moments.
fn later(a: i64, b: i64) -> i64
    ensures { result ≡ later a b }
{
    if a < b { b } else { a }
}

/// Returns whether a span has the key of the reach.
fn is_same_key(reach: Reach, piece: &CoverageSpan) -> bool
    ensures { result ≡ is_same_key reach piece.now }
{
    reach.first == piece.first && reach.second == piece.second
}

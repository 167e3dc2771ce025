//! Checks that no two entries of a unit conflict at a commit.
ghost use Rattle.std.specs.Prelude.{◌≡◌, ◌↔◌, true, IfOk};
ghost use Rattle.land_core.specs.Soundness.{has_clash};
ghost use Rattle.land_tables_history.specs.Intervals.{has_intervals};
ghost use Rattle.land_tables_validity.specs.ApartSpans.{spans_where};
ghost use Rattle.land_tables_validity.specs.Never.{Never};
ghost use Rattle.land_tables_validity.specs.Places.{right_type_index, entry_place};

use land_core::rrr::{Class, RightType, RrrRecord};
use land_tables_history::history::History;
use land_tables_history::moment::Moment;
use land_tables_history::sweeps::apart::{Span, are_apart};
use land_tables_history::version::Version;
use std::alloc::{AllocError, Global};

/// The key of an entry that must be unique in its unit.
#[derive(Clone, Copy, Debug, PartialEq, Eq, PartialOrd, Ord)]
pub(crate) struct Place {
    /// The type of a right, 0 to 2, or 3 for a mortgage.
    kind: u64,
    /// The number of the unit.
    unit: u64,
    /// The number of the party of the right, or the rank of the mortgage.
    holder: u64,
}

/// Returns whether at each commit no party has two rights of one type in a unit, and no two mortgages of a
/// unit have the same rank. Returns an error only if it is out of memory.
pub(crate) fn have_no_duplicate_rights(
    alloc: Global,
    history: &History,
    moments: &[Moment],
) -> Result<bool, AllocError>
    requires { has_intervals moments.now history.now ≡ true }
    ensures { IfOk result (λ it. (it ≡ true) ↔ Never has_clash moments.now history.now) }
{
    let mut spans = spans_of(alloc, history.rrrs.as_slice())?;
    Ok(are_apart(&mut spans))
}

fn spans_of(
    alloc: Global,
    entries: &[Version<(u64, RrrRecord)>],
) -> Result<Vec<Span<Place>>, AllocError>
    ensures { IfOk result (λ it. it.items ≡ spans_where (λ e. entry_place e.1) entries.now) }
{
    let mut spans = Vec::new(alloc);
    for entry in entries {
        if let Some(key) = place_of(&entry.what.1) {
            spans.push(Span {
                key,
                since: entry.since,
                until: entry.until,
            })?;
        }
    }
    Ok(spans)
}

/// Returns the key of an entry, if it is a right or a mortgage.
fn place_of(entry: &RrrRecord) -> Option<Place>
    ensures { result ≡ entry_place entry.now }
{
    match &entry.class {
        Class::Right { right_type, .. } => Some(Place {
            kind: kind_of(*right_type),
            unit: entry.unit,
            holder: entry.party,
        }),
        Class::Mortgage { rank, .. } => Some(Place {
            kind: 3,
            unit: entry.unit,
            holder: *rank,
        }),
        Class::Restriction { .. } | Class::Responsibility { .. } => None,
    }
}

fn kind_of(right_type: RightType) -> u64
    ensures { result ≡ right_type_index right_type }
{
    match right_type {
        RightType::Ownership => 0,
        RightType::Lease => 1,
        RightType::Usufruct => 2,
    }
}

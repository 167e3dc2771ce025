//! The values of a history are within the limits of their types.
ghost use Rattle.std.specs.List.{AllByRecursion};
ghost use Rattle.land_digest.specs.Laws.{HasContentWithin, HasExactValues, HasParcelOutline};
ghost use Rattle.land_wire_json.specs.Texts.Limits.{FitsU64, IsContentWithin, IsMergerWithin};

use land_core::content::Content;
use land_core::merger::Merger;
use land_core::mutation::MutationRecord;
use land_core::parcel::ParcelRecord;
use land_tables_history::history::History;
use land_tables_history::version::Version;
use land_wire_json::bodies::stored::content_is_exact;

/// Proves that the outlines and contents of a history are within the limits of their types. It does nothing
/// at run time; callers use it before they compare digests.
pub fn values_are_exact(history: &History)
    ensures { HasExactValues history.now }
{
    parcels_are_exact(history.parcels.as_slice());
    mutations_are_exact(history.mutations.as_slice());
}

fn parcels_are_exact(versions: &[Version<(u64, ParcelRecord)>])
    ensures { AllByRecursion HasParcelOutline versions.now }
{
    'versions: for version in versions {
        version.what.1.outline.points();
    }
}

fn mutations_are_exact(versions: &[Version<(u64, MutationRecord)>])
    ensures { AllByRecursion HasContentWithin versions.now }
{
    'versions: for version in versions {
        content_is_within(&version.what.1.content);
    }
}

fn content_is_within(content: &Content)
    ensures { IsContentWithin content.now }
{
    content_is_exact(content);
    match content {
        Content::Transfer(it) => numbers_fit(&[it.unit, it.right, it.receiver]),
        Content::Subdivision(it) => numbers_fit(&[it.unit, it.parcel]),
        Content::Merger(it) => merger_is_within(it),
        Content::Mortgage(it) => numbers_fit(&[it.unit, it.creditor, it.amount]),
        Content::Discharge(it) => numbers_fit(&[it.unit, it.mortgage]),
    }
}

fn merger_is_within(merger: &Merger)
    ensures { IsMergerWithin merger.now }
{
    merger.outline.points();
    numbers_fit(&[merger.unit]);
    numbers_fit(merger.others.as_slice());
    numbers_fit(merger.parcels.as_slice());
}

fn numbers_fit(numbers: &[u64])
    ensures { AllByRecursion FitsU64 numbers.now }
{
    'numbers: for _number in numbers {}
}

//! Reads an object for its row.
ghost use Rattle.std.specs.Prelude.{◌≡◌, IfOk};
ghost use Rattle.land_keep.specs.Keepers.{LeavesTimeline, WasHonest};
ghost use Rattle.land_keep.specs.Keeping.{Closes};
ghost use Rattle.land_sheet.specs.Extracts.Seeing.{named_object_at};
ghost use Rattle.land_sheet.specs.Extracts.Timelines.{keeper_register};

use land_core::kind::Kind;
use land_keep::keeper::Keeper;
use land_keep::named::NamedObject;
use land_keep::store_fault::StoreFault;
use std::alloc::Global;

/// Reads the object with a number at a moment, or returns `None` if it does not exist.
pub(crate) fn read_row<K: Keeper>(
    alloc: Global,
    keeper: &mut K,
    kind: Kind,
    number: u64,
    at: i64,
) -> Result<Option<NamedObject>, StoreFault>
    ensures value { K.honest keeper.new
        → IfOk result (λ row. row ≡ named_object_at (keeper_register K.Keeper keeper.old at) kind number) }
    ensures was { WasHonest K.Keeper keeper.old keeper.new }
    ensures same { LeavesTimeline K.Keeper keeper.old keeper.new }
    ensures closes { Closes (K.closed keeper.old) (K.closed keeper.new) result }
{
    let found = keeper.objects(alloc, kind, &[number], at)?;
    let mut rows = found.into_vec();
    Ok(rows.pop())
}

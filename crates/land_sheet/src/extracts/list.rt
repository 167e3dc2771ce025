//! The list of objects in an extract.
ghost use Rattle.std.specs.Prelude.{◌≡◌, IfOk};
ghost use Rattle.land_keep.specs.Keepers.{LeavesTimeline, WasHonest};
ghost use Rattle.land_keep.specs.Keeping.{Closes};
ghost use Rattle.land_keep.specs.Moments.{now_after};
ghost use Rattle.land_rules.specs.Rules.{seen_of};
ghost use Rattle.land_sheet.specs.Extracts.{list_reply};
ghost use Rattle.land_sheet.specs.Extracts.Timelines.{keeper_register, time_of};
ghost use Rattle.land_sheet.specs.Extracts.Writing.{IsListed, store_result};

use crate::extracts::fault::ExtractFault;
use land_core::ask::Ask;
use land_core::caller::Caller;
use land_core::kind::Kind;
use land_core::limits::LAST_MOMENT;
use land_core::sequence::NumberList;
use land_keep::keeper::Keeper;
use land_keep::store_fault::StoreFault;
use land_rules::verdict::Verdict;
use std::alloc::Global;

/// A list with its requested time.
#[derive(Debug, Drop)]
pub(crate) struct VisibleList {
    /// The numbers of the objects that the caller sees, increasing.
    pub(crate) numbers: NumberList,
    /// The moment, in Unix milliseconds.
    pub(crate) at: i64,
}

/// Returns the time of a read that requests none: the clock's, but not before the last stamp.
fn read_moment(clock: i64, last: i64) -> i64
    ensures { result ≡ now_after clock last }
{
    clock.max(0).min(LAST_MOMENT).max(last)
}

/// Returns the list of a kind with its requested time, as the model replies it. Errors: the first rule that
/// denies the list; 135 if the moment is in the future; the store's errors.
pub(crate) fn list<K: Keeper>(
    alloc: Global,
    keeper: &mut K,
    clock: i64,
    caller: Caller,
    kind: Kind,
    at: Option<i64>,
) -> Result<VisibleList, ExtractFault>
    ensures listed { K.honest keeper.new
        → IsListed (list_reply clock caller kind at (K.timeline keeper.old)) result }
    ensures moment { K.honest keeper.new → IfOk result (λ it. it.at ≡ time_of K.Keeper keeper.old clock at) }
    ensures seen { K.honest keeper.new
        → IfOk result (λ it. it.numbers ≡ seen_of (keeper_register K.Keeper keeper.old it.at) caller kind) }
    ensures was { WasHonest K.Keeper keeper.old keeper.new }
    ensures same { LeavesTimeline K.Keeper keeper.old keeper.new }
    ensures closes { Closes (K.closed keeper.old) (K.closed keeper.new) (store_result result) }
{
    if keeper.is_closed() {
        return Err(ExtractFault::from(StoreFault::Closed));
    }
    let now = read_moment(clock, keeper.last());
    let moment = at.unwrap_or(now);
    if now < moment {
        return Err(ExtractFault::Fault(135));
    }
    let ask = Ask::List { kind, at };
    match keeper.first_denial(alloc, caller, &ask, now)? {
        Verdict::Denied(rule) => Err(ExtractFault::Denied(rule)),
        Verdict::Allowed => Ok(VisibleList {
            numbers: keeper.sight(alloc, caller, kind, moment)?,
            at: moment,
        }),
    }
}

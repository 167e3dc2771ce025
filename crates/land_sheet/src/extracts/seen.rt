//! Reads the objects that a caller sees, row by row.
ghost use Rattle.std.specs.Prelude.{◌≡◌, IfOk};
ghost use Rattle.land_keep.specs.Keepers.{LeavesTimeline, WasHonest};
ghost use Rattle.land_keep.specs.Keeping.{Closes};
ghost use Rattle.land_rules.specs.Rules.{seen_of};
ghost use Rattle.land_sheet.specs.Extracts.Left.{remaining_numbers};
ghost use Rattle.land_sheet.specs.Extracts.Seeing.{AllExist, ClosesAt, IsNextRow, LeavesNumbers};
ghost use Rattle.land_sheet.specs.Extracts.Timelines.{keeper_register};

use crate::extracts::row::read_row;
use land_core::caller::Caller;
use land_core::kind::Kind;
use land_core::sequence::NumberList;
use land_keep::keeper::Keeper;
use land_keep::named::NamedObject;
use land_keep::store_fault::StoreFault;
use std::alloc::Global;

/// An iterator over the rows that a caller sees of a kind at a moment, by increasing number. It borrows the
/// keeper; `into_keeper` returns it. It may be dropped at any row, since it owns nothing.
#[derive(Drop)]
pub struct Seen<'a, K: Keeper> {
    alloc: Global,
    keeper: &'a mut K,
    numbers: &'a [u64],
    given: usize,
    kind: Kind,
    at: i64,
}

/// Returns the numbers of the objects that a caller sees of a kind at a moment, increasing. `each_seen`
/// returns their rows. The register does not change. If the store fails, the keeper stays closed.
pub fn visible_numbers<K: Keeper>(
    alloc: Global,
    keeper: &mut K,
    caller: Caller,
    kind: Kind,
    at: i64,
) -> Result<NumberList, StoreFault>
    ensures seen { K.honest keeper.new
        → IfOk result (λ it. it ≡ seen_of (keeper_register K.Keeper keeper.old at) caller kind) }
    ensures stand { K.honest keeper.new
        → IfOk result (λ it. AllExist (keeper_register K.Keeper keeper.old at) kind it) }
    ensures was { WasHonest K.Keeper keeper.old keeper.new }
    ensures same { LeavesTimeline K.Keeper keeper.old keeper.new }
    ensures closes { Closes (K.closed keeper.old) (K.closed keeper.new) result }
{
    keeper.sight(alloc, caller, kind, at)
}

/// Returns an iterator over the rows of the objects with these numbers at a moment. It does not call the
/// keeper yet.
pub fn each_seen<'a, K: Keeper>(
    alloc: Global,
    keeper: &'a mut K,
    numbers: &'a NumberList,
    kind: Kind,
    at: i64,
) -> Seen<'a, K>
    ensures left { remaining_numbers result ≡ numbers.now }
    ensures asked { (result.kind ≡ kind) × (result.at ≡ at) }
    ensures same { result.keeper.now ≡ keeper.old }
    ensures same_reference { result.keeper.ghost_name ≡ keeper.entry.ghost_name }
{
    let numbers = numbers.as_slice();
    Seen {
        alloc,
        keeper,
        numbers,
        given: 0,
        kind,
        at,
    }
}

impl<'a, K: Keeper> Seen<'a, K> {
    /// Returns the row of the next object, or `None` after the last one. After an error it returns `None`.
    pub fn next(&mut self) -> Result<Option<NamedObject>, StoreFault>
        ensures gives { K.honest self.new.keeper.now
            → AllExist (keeper_register K.Keeper self.old.keeper.now self.old.at) self.old.kind
            (remaining_numbers self.old)
            → IfOk result
            (IsNextRow (keeper_register K.Keeper self.old.keeper.now self.old.at) self.old.kind
            (remaining_numbers self.old)) }
        ensures leaves { LeavesNumbers (remaining_numbers self.old) result (remaining_numbers self.new) }
        ensures asked { (self.new.kind ≡ self.old.kind) × (self.new.at ≡ self.old.at) }
        ensures was { WasHonest K.Keeper self.old.keeper.now self.new.keeper.now }
        ensures same { LeavesTimeline K.Keeper self.old.keeper.now self.new.keeper.now }
        ensures closes { ClosesAt (remaining_numbers self.old) (K.closed self.old.keeper.now)
            (K.closed self.new.keeper.now) result }
        ensures same_reference { self.new.keeper.ghost_name ≡ self.old.keeper.ghost_name }
    {
        let count = self.numbers.len();
        if count <= self.given {
            return Ok(None);
        }
        let number = self.numbers[self.given];
        let made = read_row(self.alloc, self.keeper, self.kind, number, self.at);
        self.given = match &made {
            Ok(Some(_)) => self.given + 1,
            _ => count,
        };
        made
    }

    /// Returns the borrowed keeper.
    pub fn into_keeper(self) -> &'a mut K
        ensures same { result.now ≡ self.entry.keeper.now }
        ensures same_reference { result.ghost_name ≡ self.entry.keeper.ghost_name }
    {
        let Seen {
            alloc: _,
            keeper,
            numbers: _,
            given: _,
            kind: _,
            at: _,
        } = self;
        keeper
    }
}

//! Items grouped by unit.
ghost use Rattle.std.specs.Prelude.{◌≡◌, ℕ, [], IfOk, OnOk};
ghost use Rattle.land_core.specs.ByUnit.{IsAdded, under};

use crate::sequence::Sequence;
use std::alloc::{AllocError, Global};
use std::collections::BTreeMap;

/// Lists of items by the number of the unit.
#[derive(Debug, Drop)]
pub(crate) struct Groups<T> {
    lists: BTreeMap<u64, Sequence<T>>,
}

impl<T> Groups<T> {
    /// Returns empty groups. Allocates nothing.
    pub(crate) fn new(alloc: Global) -> Groups<T>
        ensures { (unit : ℕ) → under result unit ≡ [] }
    {
        Groups {
            lists: BTreeMap::new(alloc),
        }
    }

    /// Returns the items of a unit, in the order of insertion.
    pub(crate) fn under(&self, unit: u64) -> &[T]
        ensures { result.now ≡ under self.now unit }
    {
        match self.lists.get(&unit) {
            Some(list) => list.as_slice(),
            None => &[],
        }
    }
}

impl<T: Drop> Groups<T> {
    /// Appends an item to the list of a unit.
    pub(crate) fn add(&mut self, alloc: Global, unit: u64, item: T) -> Result<(), AllocError>
        ensures { OnOk result (IsAdded self.old self.new unit item) }
    {
        match self.lists.get_mut(&unit) {
            Some(list) => list.push(item)?,
            None => {
                self.lists.insert(unit, Sequence::of_one(alloc, item)?)?;
            }
        }
        Ok(())
    }
}

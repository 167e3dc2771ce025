//! Records by number. Contracts see them as finite maps.
ghost use Rattle.std.specs.Prelude.{◌≡◌, ℕ, IfOk, OnOk, OnErr};
ghost use Rattle.std.specs.Option.{option_copied};
ghost use Rattle.std.specs.List.Sorted.{IsStrictlySortedBy};
ghost use Rattle.std.specs.Map.Iter.{ShowsInOrder, deref_pair};
ghost use Rattle.std.specs.Ordering.{nat_cmp};
ghost use Rattle.std.specs.FinMap as map;
ghost use Rattle.land_core.specs.Entries.{with_changes, with_entries, without};

use crate::duplicate::Duplicate;
use crate::sequence::{NumberList, Sequence};
use std::alloc::{AllocError, Global};
use std::collections::BTreeMap;
use std::collections::btree_map::Iter;
use std::marker::Model;

/// A map from numbers to records.
#[derive(Debug, Drop)]
pub struct Records<V> {
    entries: BTreeMap<u64, V>,
}

impl<V> Model for Records<V> {
    ghost use Rattle.std.specs.Ordering.{nat_cmp};
    ghost use Rattle.std.specs.FinMap as map;
    ghost use Rattle.std.specs.Coded.{coded_ℕ};

    ghost Value = { map.FinMap nat_cmp V };

    ghost coded = { map.code coded_ℕ V.code };

    ghost view = { λ a. map.from_entries a.entries.entries };
}

impl<V> Records<V> {
    /// Returns the empty map. Allocates nothing.
    pub fn new(alloc: Global) -> Records<V>
        ensures { result ≡ map.empty }
    {
        Records {
            entries: BTreeMap::new(alloc),
        }
    }

    /// Wraps a map of records.
    pub fn from_map(entries: BTreeMap<u64, V>) -> Records<V>
        ensures { result ≡ map.from_entries entries.entries }
    {
        Records { entries }
    }

    /// Returns the map.
    pub fn into_map(self) -> BTreeMap<u64, V>
        ensures { map.from_entries result.entries ≡ self }
    {
        let Records { entries } = self;
        entries
    }

    /// Returns the record of a number, if it exists.
    pub fn get(&self, number: u64) -> Option<&V>
        ensures { option_copied result ≡ map.get self.now number }
    {
        self.entries.get(&number)
    }

    /// Returns an iterator over the records, ordered by number.
    pub fn iter(&self) -> Iter<'_, u64, V>
        ensures rest { result ≡ map.entries self.now }
        ensures ordered { IsStrictlySortedBy nat_cmp (map.keys self.now) }
        ensures runs { ShowsInOrder (deref_pair {K = ℕ} {X = V}) }
    {
        self.entries.iter()
    }
}

impl<V: Drop> Records<V> {
    /// Inserts a record, or replaces the record of this number. If out of memory, changes nothing.
    pub fn insert(&mut self, number: u64, value: V) -> Result<(), AllocError>
        ensures ok { OnOk result (self.new ≡ map.insert self.old number value) }
        ensures err { OnErr result (self.new ≡ self.old) }
    {
        self.entries.insert(number, value)?;
        Ok(())
    }

    /// Removes the record of a number.
    pub fn remove(&mut self, number: u64)
        ensures { self.new ≡ map.remove self.old number }
    {
        let _ = self.entries.remove(&number);
    }

    /// Removes the records of these numbers.
    fn remove_all(&mut self, ended: &[u64])
        ensures { self.new ≡ without self.old ended.now }
    {
        for number in ended {
            self.remove(*number);
        }
    }
}

impl<V: Duplicate> Records<V> {
    /// Returns a copy without the records in `ended` and with copies of those in `put`.
    pub fn with_changes(
        &self,
        alloc: Global,
        put: &Sequence<(u64, V)>,
        ended: &NumberList,
    ) -> Result<Records<V>, AllocError>
        ensures { IfOk result (λ it. it ≡ with_changes self.now put.now ended.now) }
    {
        let mut records = self.copy(alloc)?;
        records.remove_all(ended.as_slice());
        records.insert_all(alloc, put.as_slice())?;
        Ok(records)
    }

    /// Inserts copies of records.
    fn insert_all(&mut self, alloc: Global, put: &[(u64, V)]) -> Result<(), AllocError>
        ensures { OnOk result (self.new ≡ with_entries self.old put.now) }
    {
        for (number, value) in put {
            self.insert(*number, value.copy(alloc)?)?;
        }
        Ok(())
    }
}

impl<V: Duplicate> Duplicate for Records<V> {
    fn copy(&self, alloc: Global) -> Result<Records<V>, AllocError> {
        let mut copy = Records::new(alloc);
        for (number, value) in self.iter() {
            copy.insert(*number, value.copy(alloc)?)?;
        }
        Ok(copy)
    }
}

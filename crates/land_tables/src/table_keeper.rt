//! The keeper that reads whole tables: each call reads the register at its moment.
ghost use Rattle.std.specs.Prelude.{◌≡◌, ◌≤ℤ◌};
ghost use Rattle.land_core.specs.Numbers.{last_moment};

use crate::tables::Tables;
use land_acts::slice::{Slice, needed_slice_of, slice_of};
use land_core::act::Act;
use land_core::ask::Ask;
use land_core::caller::Caller;
use land_core::change::Change;
use land_core::kind::Kind;
use land_core::object::Object;
use land_core::sequence::{NumberList, Sequence};
use land_keep::keeper::Keeper;
use land_keep::moments::explicit_moment;
use land_keep::named::{NamedObject, objects_of};
use land_keep::store_fault::StoreFault;
use land_keep::view::{View, view_of};
use land_rules::rules::{seen, verdict};
use land_rules::verdict::Verdict;
use sqlite::Alter;
use std::alloc::Global;

/// A keeper that reads whole tables, of any store.
pub struct TableKeeper<S: Alter> {
    /// The tables.
    pub tables: Tables<S>,
}

impl<S: Alter + Drop> Drop for TableKeeper<S> {
    fn drop(self) {
        let TableKeeper { tables: _ } = self;
    }
}

impl<S: Alter> TableKeeper<S> {
    /// Returns a keeper that uses the tables. It is closed if their store has failed.
    pub fn new(tables: Tables<S>) -> TableKeeper<S>
        ensures { result.tables ≡ tables }
    {
        TableKeeper { tables }
    }

    /// Returns the tables, unchanged.
    pub fn into_tables(self) -> Tables<S>
        ensures { result ≡ self.tables }
    {
        let TableKeeper { tables } = self;
        tables
    }
}

impl<S: Alter> Keeper for TableKeeper<S> {
    ghost use Rattle.land_acts.specs.Slices.{needed_slice_of as needed_slice_in, slice_of as slice_in};
    ghost use Rattle.land_core.specs.Register.{object_at};
    ghost use Rattle.land_keep.specs.Named.{objects_at};
    ghost use Rattle.land_keep.specs.Sheets.{view_at};
    ghost use Rattle.land_keep.specs.Timeline.{last_stamp};
    ghost use Rattle.land_tables.specs.TablesState.{IsHonest, held_timeline};

    ghost timeline = { λ keeper. held_timeline S.Store keeper.tables };

    ghost closed = { λ keeper. keeper.tables.is_closed };

    ghost honest = { λ keeper. IsHonest S.Store keeper.tables };

    fn last(&self) -> i64 {
        self.tables.last()
    }

    fn is_closed(&self) -> bool {
        self.tables.is_closed()
    }

    fn first_denial(
        &mut self,
        alloc: Global,
        caller: Caller,
        ask: &Ask,
        now: i64,
    ) -> Result<Verdict, StoreFault> {
        let at = explicit_moment(ask).unwrap_or(now);
        let newest = self.tables.last_register(alloc)?;
        if self.tables.last() <= at {
            return Ok(verdict(&newest, &newest, caller, ask, at < now));
        }
        let then = self.tables.read_at(alloc, at)?;
        Ok(verdict(&newest, &then, caller, ask, at < now))
    }

    fn sight(
        &mut self,
        alloc: Global,
        caller: Caller,
        kind: Kind,
        at: i64,
    ) -> Result<NumberList, StoreFault> {
        let then = self.tables.read_at(alloc, at)?;
        Ok(seen(alloc, &then, caller, kind)?)
    }

    fn object(
        &mut self,
        alloc: Global,
        kind: Kind,
        number: u64,
        at: i64,
    ) -> Result<Option<Object>, StoreFault> {
        let then = self.tables.read_at(alloc, at)?;
        Ok(then.object(alloc, kind, number)?)
    }

    fn objects(
        &mut self,
        alloc: Global,
        kind: Kind,
        numbers: &[u64],
        at: i64,
    ) -> Result<Sequence<NamedObject>, StoreFault> {
        let then = self.tables.read_at(alloc, at)?;
        Ok(objects_of(alloc, &then, kind, numbers)?)
    }

    fn view(
        &mut self,
        alloc: Global,
        caller: Caller,
        unit: u64,
        at: i64,
    ) -> Result<Option<View>, StoreFault> {
        let then = self.tables.read_at(alloc, at)?;
        Ok(view_of(alloc, &then, caller, unit, at)?)
    }

    fn slice(&mut self, alloc: Global, caller: Caller, act: &Act) -> Result<Slice, StoreFault> {
        let newest = self.tables.last_register(alloc)?;
        Ok(slice_of(alloc, &newest, caller, act)?)
    }

    fn needed_slice(
        &mut self,
        alloc: Global,
        caller: Caller,
        act: &Act,
    ) -> Result<Slice, StoreFault> {
        let newest = self.tables.last_register(alloc)?;
        Ok(needed_slice_of(alloc, &newest, caller, act)?)
    }

    fn write(&mut self, alloc: Global, change: &Change, stamp: i64) -> Result<(), StoreFault> {
        self.tables.write(alloc, change, stamp)
    }
}

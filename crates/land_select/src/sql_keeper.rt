//! The indexed keeper.
ghost use Rattle.std.specs.Prelude.{◌≡◌, ◌≤ℤ◌};
ghost use Rattle.land_core.specs.Numbers.{last_moment};

use crate::cache::{Cache, cache_for, take_mutation, take_object, take_value};
use crate::known_roles::{
    KnownRoles, forget_outdated, holds_no_mandate, is_known, is_latest, reading_moment, remember,
    remember_no_mandate,
};
use crate::object::ObjectQuery;
use crate::objects::ObjectsQuery;
use crate::query::execute;
use crate::sight::SightQuery;
use crate::slice_query::SliceQuery;
use crate::verdict::query::VerdictQuery;
use crate::view::{UnitViewQuery, with_moment};
use land_acts::slice::Slice;
use land_core::act::Act;
use land_core::ask::Ask;
use land_core::caller::Caller;
use land_core::change::Change;
use land_core::kind::Kind;
use land_core::laws::soundness_by_number;
use land_core::limits::LAST_MOMENT;
use land_core::object::Object;
use land_core::sequence::{NumberList, Sequence};
use land_keep::keeper::Keeper;
use land_keep::moments::explicit_moment;
use land_keep::named::NamedObject;
use land_keep::store_fault::StoreFault;
use land_keep::view::View;
use land_rules::verdict::Verdict;
use land_tables::tables::Tables;
use sqlite::Alter;
use std::alloc::Global;
use std::marker::Model;

/// A keeper on tables of any store. SQL queries select the numbers that a caller sees; lookups by key read
/// objects, title sheets, the slices of acts and the records that verdicts need. A value that a verdict has
/// read is cached, so that the reply does not read it again; so are the roles of callers until one ends, and
/// that citizens hold no mandate until one is given.
/// In contracts the value of the keeper is that of its tables.
pub struct SqlKeeper<S: Alter> {
    /// The tables.
    tables: Tables<S>,
    /// The value that the last verdict read, until the next call.
    cache: Option<Cache>,
    /// The roles that callers hold, and the citizens without mandates, until a role ends or a mandate is
    /// given.
    known: Option<KnownRoles>,
}

impl<S: Alter> Model for SqlKeeper<S> {
    ghost use Rattle.land_keep.specs.Keeping.{IsHonestAndOpen};
    ghost use Rattle.land_keep.specs.Timeline.{last_register};
    ghost use Rattle.land_select.specs.Cache.{IsCacheOf};
    ghost use Rattle.land_select.specs.KnownRoles.{AreKnownIn};
    ghost use Rattle.land_tables.specs.TablesState.{IsHonest, TablesState, held_timeline, tables_code};

    ghost Value = { TablesState S };

    ghost coded = { tables_code S.code };

    ghost view = { λ k. k.tables };

    ghost invariant = { λ k. IsHonestAndOpen (IsHonest S.Store k.tables) k.tables.is_closed
        → IsCacheOf (held_timeline S.Store k.tables) k.cache
        × AreKnownIn (last_register (held_timeline S.Store k.tables)) k.known };
}

impl<S: Alter + Drop> Drop for SqlKeeper<S> {
    fn drop(self) {
        let SqlKeeper {
            tables: _,
            cache: _,
            known: _,
        } = self;
    }
}

impl<S: Alter> SqlKeeper<S> {
    /// Creates a keeper on tables; closed if a store operation has failed.
    pub fn new(tables: Tables<S>) -> SqlKeeper<S>
        ensures { result ≡ tables }
    {
        SqlKeeper {
            tables,
            cache: None,
            known: None,
        }
    }

    /// Returns the tables, unchanged.
    pub fn into_tables(self) -> Tables<S>
        ensures { result ≡ self }
    {
        let SqlKeeper {
            tables,
            cache: _,
            known: _,
        } = self;
        tables
    }
}

impl<S: Alter> Keeper for SqlKeeper<S> {
    ghost use Rattle.land_acts.specs.Slices.{needed_slice_of, slice_of};
    ghost use Rattle.land_core.specs.Register.{object_at};
    ghost use Rattle.land_keep.specs.Named.{objects_at};
    ghost use Rattle.land_keep.specs.Sheets.{view_at};
    ghost use Rattle.land_keep.specs.Timeline.{last_stamp};
    ghost use Rattle.land_tables.specs.TablesState.{IsHonest, held_timeline};

    ghost timeline = { λ keeper. held_timeline S.Store keeper };

    ghost closed = { λ keeper. keeper.is_closed };

    ghost honest = { λ keeper. IsHonest S.Store keeper };

    fn last(&self) -> i64 {
        self.tables.last()
    }

    fn is_closed(&self) -> bool {
        self.tables.is_closed()
    }

    fn first_denial(
        &mut self,
        alloc: Global,
        caller: Caller,
        ask: &Ask,
        now: i64,
    ) -> Result<Verdict, StoreFault> {
        self.cache = None;
        let at = explicit_moment(ask).unwrap_or(now);
        soundness_by_number();
        let known_or_zero = at.min(LAST_MOMENT);
        let is_held = is_known(&self.known, caller);
        let denial = VerdictQuery {
            caller,
            is_held,
            ask,
            past: at < now,
            moment: known_or_zero,
        };
        let told = execute(alloc, &mut self.tables, &denial)?;
        let (verdict, found) = told;
        self.cache = cache_for(caller, ask, at, found);
        remember(alloc, &mut self.known, caller, is_held, verdict);
        Ok(verdict)
    }

    fn sight(
        &mut self,
        alloc: Global,
        caller: Caller,
        kind: Kind,
        at: i64,
    ) -> Result<NumberList, StoreFault> {
        self.cache = None;
        let latest = is_latest(self.tables.last(), at);
        let holds_none = holds_no_mandate(&self.known, caller, latest);
        let sight = SightQuery {
            caller,
            holds_none,
            kind,
            moment: reading_moment(at, latest),
        };
        let told = execute(alloc, &mut self.tables, &sight)?;
        let (numbers, is_none) = told;
        remember_no_mandate(alloc, &mut self.known, caller, latest, is_none);
        Ok(numbers)
    }

    fn object(
        &mut self,
        alloc: Global,
        kind: Kind,
        number: u64,
        at: i64,
    ) -> Result<Option<Object>, StoreFault> {
        if self.tables.is_closed() {
            return Err(StoreFault::Closed);
        }
        let cache = self.cache.take();
        if let Some(found) = take_object(cache, kind, number, at) {
            return Ok(Some(found));
        }
        soundness_by_number();
        let looked_at = at.min(LAST_MOMENT);
        let object = ObjectQuery {
            kind,
            number,
            moment: looked_at,
        };
        execute(alloc, &mut self.tables, &object)
    }

    fn objects(
        &mut self,
        alloc: Global,
        kind: Kind,
        numbers: &[u64],
        at: i64,
    ) -> Result<Sequence<NamedObject>, StoreFault> {
        self.cache = None;
        soundness_by_number();
        let moment = at.min(LAST_MOMENT);
        let listed = ObjectsQuery {
            kind,
            numbers,
            moment,
        };
        execute(alloc, &mut self.tables, &listed)
    }

    fn view(
        &mut self,
        alloc: Global,
        caller: Caller,
        unit: u64,
        at: i64,
    ) -> Result<Option<View>, StoreFault> {
        let cache = self.cache.take();
        let found = take_value(cache, caller, Kind::Unit, unit, at);
        let moment = at.min(LAST_MOMENT);
        let seen = UnitViewQuery {
            caller,
            unit,
            moment,
            found: &found,
        };
        let shown = execute(alloc, &mut self.tables, &seen)?;
        Ok(with_moment(shown, at))
    }

    fn slice(&mut self, alloc: Global, caller: Caller, act: &Act) -> Result<Slice, StoreFault> {
        let cache = self.cache.take();
        let known = take_mutation(cache, caller, act);
        soundness_by_number();
        let sliced = SliceQuery {
            caller,
            act,
            needed_only: false,
            known: &known,
            next: self.tables.next(),
            moment: LAST_MOMENT,
        };
        execute(alloc, &mut self.tables, &sliced)
    }

    fn needed_slice(
        &mut self,
        alloc: Global,
        caller: Caller,
        act: &Act,
    ) -> Result<Slice, StoreFault> {
        let cache = self.cache.take();
        let known = take_mutation(cache, caller, act);
        soundness_by_number();
        let sliced = SliceQuery {
            caller,
            act,
            needed_only: true,
            known: &known,
            next: self.tables.next(),
            moment: LAST_MOMENT,
        };
        execute(alloc, &mut self.tables, &sliced)
    }

    fn write(&mut self, alloc: Global, change: &Change, stamp: i64) -> Result<(), StoreFault> {
        self.cache = None; // The change may be to the cached object.
        forget_outdated(&mut self.known, change);
        self.tables.write(alloc, change, stamp)
    }
}

//! A store that records its reads.
ghost use Rattle.std.specs.Prelude.{◌≡◌};

use sqlite::Alter;
use sqlite_trees::error::StoreError;
use sqlite_trees::schema::Object;
use sqlite_trees::store::{Direction, Shape, Store};
use sqlite_value::row::Row;
use std::alloc::{AllocError, Global};

/// The reads of a store: their number, and a hash of the operations, the trees and the order.
#[derive(Clone, Copy, Debug, PartialEq, Eq)]
pub struct Reads {
    pub count: u64,
    pub mark: u64,
}

impl Reads {
    /// Adds an operation on a place.
    fn add(&mut self, call: u64, place: u64) {
        self.count = self.count.saturating_add(1);
        self.mark = self
            .mark
            .wrapping_mul(6_364_136_223_846_793_005)
            .wrapping_add(call)
            .wrapping_mul(6_364_136_223_846_793_005)
            .wrapping_add(place);
    }
}

/// A store, and its reads.
#[derive(Drop)]
pub struct Recorder<S: Alter> {
    store: S,
    reads: Reads,
}

impl<S: Alter> Recorder<S> {
    /// Returns a store without reads.
    pub fn over(store: S) -> Recorder<S>
        ensures { result.store ≡ store }
    {
        Recorder {
            store,
            reads: Reads { count: 0, mark: 0 },
        }
    }

    /// Returns the reads of the store.
    pub fn reads(&self) -> Reads {
        self.reads
    }
}

impl<S: Alter> Store for Recorder<S> {
    ghost view = { λ it. S.Store.view it.store };

    ghost faults = { λ it. S.Store.faults it.store };

    ghost recovers = { λ it. S.Store.recovers it.store };

    ghost is_shielded = { λ it. S.Store.is_shielded it.store };

    ghost is_step = { λ old new tree. S.Store.is_step old.store new.store tree };

    ghost blamed = { λ it. S.Store.blamed it.store };

    ghost names = { λ old new. S.Store.names old.store new.store };

    ghost ordered = { λ it. S.Store.ordered it.store };

    ghost shut_if_dirty = { λ it. S.Store.shut_if_dirty it.store };

    ghost empty_if_dirty = { λ it. S.Store.empty_if_dirty it.store };

    ghost broken_if_shut = { λ it. S.Store.broken_if_shut it.store };

    ghost settled = { λ it. S.Store.settled it.store };

    ghost stays = { λ it. S.Store.stays it.store };

    ghost survives = { λ it. S.Store.survives it.store };

    ghost unaltered = { λ it. S.Store.unaltered it.store };

    fn is_broken(&self) -> bool {
        self.store.is_broken()
    }

    fn shape(&self, tree: u32) -> Shape {
        self.store.shape(tree)
    }

    fn tree_count(&self) -> u64 {
        self.store.tree_count()
    }

    fn reals(&self, tree: u32) -> u64 {
        self.store.reals(tree)
    }

    fn seek(
        &mut self,
        cursor: u16,
        tree: u32,
        key: &Row,
        direction: Direction,
    ) -> Result<(), StoreError> {
        let call = match direction {
            Direction::Forward => 1,
            Direction::Backward => 2,
        };
        self.reads.add(call, u64::from(tree));
        self.store.seek(cursor, tree, key, direction)
    }

    fn next(&mut self, cursor: u16, row: &mut Row) -> Result<bool, StoreError> {
        self.reads.add(3, u64::from(cursor));
        self.store.next(cursor, row)
    }

    fn get(&mut self, table: u32, id: i64, row: &mut Row) -> Result<bool, StoreError> {
        self.reads.add(4, u64::from(table));
        self.store.get(table, id, row)
    }

    fn put(&mut self, table: u32, row: &Row) -> Result<(), StoreError> {
        self.store.put(table, row)
    }

    fn delete(&mut self, table: u32, id: i64) -> Result<(), StoreError> {
        self.store.delete(table, id)
    }

    fn insert(&mut self, index: u32, entry: &Row) -> Result<(), StoreError> {
        self.store.insert(index, entry)
    }

    fn remove(&mut self, index: u32, entry: &Row) -> Result<(), StoreError> {
        self.store.remove(index, entry)
    }

    fn commit(&mut self) -> Result<(), StoreError> {
        self.store.commit()
    }

    fn rollback(&mut self) {
        self.store.rollback()
    }

    fn savepoint(&mut self) -> Result<(), StoreError> {
        self.store.savepoint()
    }

    fn release(&mut self) -> Result<(), StoreError> {
        self.store.release()
    }

    fn rollback_to(&mut self) -> Result<(), StoreError> {
        self.store.rollback_to()
    }
}

impl<S: Alter> Alter for Recorder<S> {
    ghost listed = { λ it. S.Alter.listed it.store };

    fn objects(&self, alloc: Global) -> Result<Vec<Row>, AllocError> {
        self.store.objects(alloc)
    }

    fn create(&mut self, tree: u32, object: &Object<'_>) -> Result<(), StoreError> {
        self.store.create(tree, object)
    }

    fn destroy(&mut self, tree: u32) -> Result<(), StoreError> {
        self.store.destroy(tree)
    }

    fn relist(&mut self, changes: &[(u32, Object<'_>)]) -> Result<(), StoreError> {
        self.store.relist(changes)
    }

    fn version(&self) -> u32 {
        self.store.version()
    }

    fn set_version(&mut self, version: u32) -> Result<(), StoreError> {
        self.store.set_version(version)
    }
}

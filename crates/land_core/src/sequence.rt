//! Lists. Contracts see them as lists too.
ghost use Rattle.std.specs.Prelude.{◌≡◌, ◌∷◌, ◌++◌, [], IfOk, OnOk, OnErr};

use crate::duplicate::Duplicate;
use std::alloc::{AllocError, Global};
use std::marker::Model;

/// A list.
#[derive(Debug, Drop)]
pub struct Sequence<T> {
    items: Vec<T>,
}

/// A list of the numbers of objects.
pub type NumberList = Sequence<u64>;

impl<T> Model for Sequence<T> {
    ghost use Rattle.std.specs.Prelude.{List};
    ghost use Rattle.std.specs.Coded.{coded_list};

    ghost Value = { List T };

    ghost coded = { coded_list T.code };

    ghost view = { λ a. a.items.items };
}

impl<T> Sequence<T> {
    /// Returns the empty list. Allocates nothing.
    pub fn new(alloc: Global) -> Sequence<T>
        ensures { result ≡ [] }
    {
        Sequence {
            items: Vec::new(alloc),
        }
    }

    /// Wraps a vector.
    pub fn from_vec(items: Vec<T>) -> Sequence<T>
        ensures { result ≡ items.items }
    {
        Sequence { items }
    }

    /// Returns the vector.
    pub fn into_vec(self) -> Vec<T>
        ensures { result.items ≡ self }
    {
        let Sequence { items } = self;
        items
    }

    /// Returns the items as a slice.
    pub fn as_slice(&self) -> &[T]
        ensures { result.now ≡ self.now }
    {
        self.items.as_slice()
    }
}

impl<T: Drop> Sequence<T> {
    /// Appends an item. If out of memory, the list is unchanged.
    pub fn push(&mut self, item: T) -> Result<(), AllocError>
        ensures ok { OnOk result (self.new ≡ self.old ++ item ∷ []) }
        ensures err { OnErr result (self.new ≡ self.old) }
    {
        self.items.push(item)?;
        Ok(())
    }

    /// Returns a list of one item.
    pub fn of_one(alloc: Global, item: T) -> Result<Sequence<T>, AllocError>
        ensures { IfOk result (λ it. it ≡ item ∷ []) }
    {
        let mut items = Sequence::new(alloc);
        items.push(item)?;
        Ok(items)
    }
}

impl<T: Duplicate> Duplicate for Sequence<T> {
    fn copy(&self, alloc: Global) -> Result<Sequence<T>, AllocError> {
        let mut copy = Sequence::new(alloc);
        for item in self.as_slice() {
            copy.push(item.copy(alloc)?)?;
        }
        Ok(copy)
    }
}

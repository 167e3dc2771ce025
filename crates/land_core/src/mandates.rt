//! The current mandates. Contracts see them as a set of pairs.
ghost use Rattle.std.specs.Prelude.{◌≡◌, OnOk, OnErr, IfOk};
ghost use Rattle.std.specs.FinMap as map;
ghost use Rattle.std.specs.Map.Iter.{ShowsInOrder, deref};
ghost use Rattle.land_core.specs.Entries.{with_changes, with_entries, without};
ghost use Rattle.land_core.specs.Grants.{set_entries};
ghost use Rattle.land_core.specs.Mandates.{has_mandate, mandates_in};
ghost use Rattle.land_core.specs.declared.mandates.Mandate.{Mandate};

use crate::duplicate::Duplicate;
use crate::sequence::Sequence;
use std::alloc::{AllocError, Global};
use std::collections::BTreeSet;
use std::collections::btree_set::Iter;
use std::marker::Model;

/// A mandate: the agent sees as the principal does.
#[derive(Clone, Copy, Debug, PartialEq, Eq, PartialOrd, Ord)]
pub struct Mandate {
    /// The number of the principal, who gives the mandate.
    pub principal: u64,
    /// The number of the agent, who has it.
    pub agent: u64,
}

/// A set of mandates. A mandate has no number, so it is not an object.
#[derive(Debug, Drop)]
pub struct Mandates {
    pairs: BTreeSet<Mandate>,
}

impl Model for Mandates {
    ghost use Rattle.std.specs.FinMap as map;
    ghost use Rattle.std.specs.FinSet as set;
    ghost use Rattle.land_core.specs.Grants.{set_entries};
    ghost use Rattle.land_core.specs.Mandates.{coded_mandate, Mandates};

    ghost Value = { Mandates };

    ghost coded = { set.code coded_mandate };

    ghost view = { λ a. map.from_entries (set_entries a.pairs.keys) };
}

impl Mandates {
    /// Returns the empty set. Allocates nothing.
    pub fn new(alloc: Global) -> Mandates
        ensures { result ≡ map.empty }
    {
        Mandates {
            pairs: BTreeSet::new(alloc),
        }
    }

    /// Wraps a set of mandates.
    pub fn from_set(pairs: BTreeSet<Mandate>) -> Mandates
        ensures { result ≡ map.from_entries (set_entries pairs.keys) }
    {
        Mandates { pairs }
    }

    /// Returns the set.
    pub fn into_set(self) -> BTreeSet<Mandate>
        ensures { map.from_entries (set_entries result.keys) ≡ self }
    {
        let Mandates { pairs } = self;
        pairs
    }

    /// Checks if a mandate exists.
    pub fn contains(&self, mandate: Mandate) -> bool
        ensures { result ≡ has_mandate self.now mandate }
    {
        self.pairs.contains(&mandate)
    }

    /// Inserts a mandate. If out of memory, changes nothing.
    pub fn insert(&mut self, mandate: Mandate) -> Result<(), AllocError>
        ensures ok { OnOk result (self.new ≡ map.insert self.old mandate tt) }
        ensures err { OnErr result (self.new ≡ self.old) }
    {
        self.pairs.insert(mandate)?;
        Ok(())
    }

    /// Removes a mandate.
    pub fn remove(&mut self, mandate: Mandate)
        ensures { self.new ≡ map.remove self.old mandate }
    {
        let _ = self.pairs.remove(&mandate);
    }

    /// Returns an iterator over all mandates, ordered by principal and then by agent.
    pub fn iter(&self) -> Iter<'_, Mandate>
        ensures rest { result ≡ mandates_in self.now }
        ensures runs { ShowsInOrder (deref {X = Mandate}) }
    {
        self.pairs.iter()
    }

    /// Returns a copy without the mandates in `ended` and with those in `put`.
    pub fn with_changes(
        &self,
        alloc: Global,
        put: &Sequence<Mandate>,
        ended: &Sequence<Mandate>,
    ) -> Result<Mandates, AllocError>
        ensures { IfOk result (λ it. it ≡ with_changes self.now (set_entries put.now) ended.now) }
    {
        let mut mandates = self.copy(alloc)?;
        mandates.remove_all(ended.as_slice());
        mandates.insert_all(put.as_slice())?;
        Ok(mandates)
    }

    fn insert_all(&mut self, put: &[Mandate]) -> Result<(), AllocError>
        ensures { OnOk result (self.new ≡ with_entries self.old (set_entries put.now)) }
    {
        for mandate in put {
            self.insert(*mandate)?;
        }
        Ok(())
    }

    fn remove_all(&mut self, ended: &[Mandate])
        ensures { self.new ≡ without self.old ended.now }
    {
        for mandate in ended {
            self.remove(*mandate);
        }
    }
}

impl Duplicate for Mandates {
    fn copy(&self, _alloc: Global) -> Result<Mandates, AllocError> {
        Ok(Mandates {
            pairs: self.pairs.clone()?,
        })
    }
}

//! The roles of all parties. Contracts see them as a set of pairs.
ghost use Rattle.std.specs.Prelude.{◌≡◌, OnOk, OnErr, IfOk};
ghost use Rattle.std.specs.FinMap as map;
ghost use Rattle.std.specs.Map.Iter.{ShowsInOrder, deref};
ghost use Rattle.land_core.specs.Entries.{with_changes, with_entries, without};
ghost use Rattle.land_core.specs.Grants.{has_grant, grants_in, set_entries};
ghost use Rattle.land_core.specs.declared.roles.Grant.{Grant};

use crate::duplicate::Duplicate;
use crate::role::Role;
use crate::sequence::Sequence;
use std::alloc::{AllocError, Global};
use std::collections::BTreeSet;
use std::collections::btree_set::Iter;
use std::marker::Model;

/// A role of a party.
#[derive(Clone, Copy, Debug, PartialEq, Eq, PartialOrd, Ord)]
pub struct Grant {
    /// The party's number.
    pub party: u64,
    /// The role.
    pub role: Role,
}

/// A set of roles of parties.
#[derive(Debug, Drop)]
pub struct Roles {
    grants: BTreeSet<Grant>,
}

impl Model for Roles {
    ghost use Rattle.std.specs.FinMap as map;
    ghost use Rattle.std.specs.FinSet as set;
    ghost use Rattle.land_core.specs.Grants.{coded_grant, Grants, set_entries};

    ghost Value = { Grants };

    ghost coded = { set.code coded_grant };

    ghost view = { λ a. map.from_entries (set_entries a.grants.keys) };
}

impl Roles {
    /// Returns the empty set. Allocates nothing.
    pub fn new(alloc: Global) -> Roles
        ensures { result ≡ map.empty }
    {
        Roles {
            grants: BTreeSet::new(alloc),
        }
    }

    /// Wraps a set of roles.
    pub fn from_set(grants: BTreeSet<Grant>) -> Roles
        ensures { result ≡ map.from_entries (set_entries grants.keys) }
    {
        Roles { grants }
    }

    /// Returns the set.
    pub fn into_set(self) -> BTreeSet<Grant>
        ensures { map.from_entries (set_entries result.keys) ≡ self }
    {
        let Roles { grants } = self;
        grants
    }

    /// Checks if a party has a role.
    pub fn contains(&self, grant: Grant) -> bool
        ensures { result ≡ has_grant self.now grant }
    {
        self.grants.contains(&grant)
    }

    /// Inserts a role of a party. If out of memory, changes nothing.
    pub fn insert(&mut self, grant: Grant) -> Result<(), AllocError>
        ensures ok { OnOk result (self.new ≡ map.insert self.old grant tt) }
        ensures err { OnErr result (self.new ≡ self.old) }
    {
        self.grants.insert(grant)?;
        Ok(())
    }

    /// Removes a role of a party.
    pub fn remove(&mut self, grant: Grant)
        ensures { self.new ≡ map.remove self.old grant }
    {
        let _ = self.grants.remove(&grant);
    }

    /// Returns an iterator over all roles, ordered by party and then by role.
    pub fn iter(&self) -> Iter<'_, Grant>
        ensures rest { result ≡ grants_in self.now }
        ensures runs { ShowsInOrder (deref {X = Grant}) }
    {
        self.grants.iter()
    }

    /// Returns a copy without the roles in `ended` and with those in `put`.
    pub fn with_changes(
        &self,
        alloc: Global,
        put: &Sequence<Grant>,
        ended: &Sequence<Grant>,
    ) -> Result<Roles, AllocError>
        ensures { IfOk result (λ it. it ≡ with_changes self.now (set_entries put.now) ended.now) }
    {
        let mut roles = self.copy(alloc)?;
        roles.remove_all(ended.as_slice());
        roles.insert_all(put.as_slice())?;
        Ok(roles)
    }

    fn insert_all(&mut self, put: &[Grant]) -> Result<(), AllocError>
        ensures { OnOk result (self.new ≡ with_entries self.old (set_entries put.now)) }
    {
        for grant in put {
            self.insert(*grant)?;
        }
        Ok(())
    }

    fn remove_all(&mut self, ended: &[Grant])
        ensures { self.new ≡ without self.old ended.now }
    {
        for grant in ended {
            self.remove(*grant);
        }
    }
}

impl Duplicate for Roles {
    fn copy(&self, _alloc: Global) -> Result<Roles, AllocError> {
        Ok(Roles {
            grants: self.grants.clone()?,
        })
    }
}

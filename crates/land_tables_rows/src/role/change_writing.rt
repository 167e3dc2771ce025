//! Roles of parties (LA_PartyRoleType).
ghost use Rattle.std.specs.Prelude.{◌≡◌, IsTrue};
ghost use Rattle.land_core.specs.declared.roles.Grant.{Grant};
ghost use Rattle.land_tables_history.specs.Intervals.{is_same_grant};
ghost use Rattle.land_tables_rows.specs.Role.Writing.{fits_grant, role_reading};

use crate::change_writing::versioned::{Closable, HasKey, Versioned};
use crate::role::writing;
use land_core::roles::Grant;
use sqlite::{Alter, Error, Transaction};
use std::alloc::Global;

impl Versioned for Grant {
    ghost reading = { role_reading };

    ghost fits = { fits_grant };

    fn fits(&self) -> bool {
        writing::fits(*self)
    }

    fn begin<S: Alter>(
        &self,
        _alloc: Global,
        tx: &mut Transaction<'_, S>,
        since: i64,
    ) -> Result<usize, Error> {
        writing::begin(tx, *self, since)
    }
}

impl HasKey<Grant> for Grant {
    ghost key = { λ grant. grant };

    ghost number = { λ grant. grant.party };

    fn key(&self) -> &Grant {
        self
    }

    fn number(&self) -> u64 {
        self.party
    }
}

impl Closable<Grant> for Grant {
    ghost has = { λ e grant. is_same_grant e grant };

    ghost fits_key = { fits_grant };

    fn fits_key(key: &Grant) -> bool {
        writing::fits(*key)
    }

    fn close<S: Alter>(
        tx: &mut Transaction<'_, S>,
        key: &Grant,
        stamp: i64,
    ) -> Result<usize, Error> {
        writing::close(tx, *key, stamp)
    }
}

//! Members of groups (LA_PartyMember).
ghost use Rattle.std.specs.Prelude.{◌≡◌, ℕ, nat_eq, IsTrue};
ghost use Rattle.land_core.specs.Numbers.{is_number};
ghost use Rattle.land_tables_history.specs.declared.group_member.GroupMember.{GroupMember};
ghost use Rattle.land_tables_rows.specs.Member.Writing.{fits_member, member_reading};

use crate::change_writing::versioned::{Closable, Versioned};
use crate::member::writing;
use land_core::limits::is_number;
use land_tables_history::group_member::GroupMember;
use sqlite::{Alter, Error, Transaction};
use std::alloc::Global;

impl Versioned for GroupMember {
    ghost reading = { member_reading };

    ghost fits = { fits_member };

    fn fits(&self) -> bool {
        writing::fits(self)
    }

    fn begin<S: Alter>(
        &self,
        _alloc: Global,
        tx: &mut Transaction<'_, S>,
        since: i64,
    ) -> Result<usize, Error> {
        writing::begin(tx, self, since)
    }
}

impl Closable<u64> for GroupMember {
    ghost has = { λ e group. nat_eq e.group group };

    ghost fits_key = { is_number };

    fn fits_key(key: &u64) -> bool {
        is_number(*key)
    }

    fn close<S: Alter>(tx: &mut Transaction<'_, S>, key: &u64, stamp: i64) -> Result<usize, Error> {
        writing::close(tx, *key, stamp)
    }
}

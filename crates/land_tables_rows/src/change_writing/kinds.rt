//! Writes a change of one kind: its inserted records, and the keys of its ended ones.
ghost use Rattle.std.specs.FinMap as map;
ghost use Rattle.std.specs.List.{list_all, list_any};
ghost use Rattle.std.specs.Prelude.{◌≡◌, ◌++◌, IsTrue, map as map_list};
ghost use Rattle.land_core.specs.Numbers.{is_number, IsMoment};
ghost use Rattle.land_tables_history.specs.Changed.{is_changed, listed_members, named_by, new_mutations};
ghost use Rattle.land_tables_history.specs.Written.{existing_records};
ghost use Rattle.land_tables_rows.specs.Effects.{Performs};
ghost use Rattle.land_tables_rows.specs.Member.Writing.{member_reading};
ghost use Rattle.land_tables_rows.specs.Mutation.Cells.{fits_mutation};
ghost use Rattle.land_tables_rows.specs.Naming.Writing.{naming_reading};
ghost use Rattle.land_tables_rows.specs.Recording.{BeginsAll, Changes};
ghost use Rattle.land_tables_rows.specs.Recording.Whole.{fits_group, fits_kind};
ghost use Rattle.land_tables_schema.specs.Connections.{HasRegisterTables, SameReference};

use crate::change_writing::all::{all_fit, all_keys_fit, begin_all, change, close_all, close_put};
use crate::change_writing::lists::{list_members, list_names};
use crate::change_writing::versioned::{Closable, HasKey};
use land_core::limits::is_number;
use land_core::member::Members;
use land_core::mutation::MutationRecord;
use land_core::sequence::{NumberList, Sequence};
use land_tables_history::group_member::GroupMember;
use sqlite::{Alter, Error, Transaction};
use std::alloc::Global;

/// Checks if the inserted records and the ended keys can be written.
pub(crate) fn fit_kind<K, X: Closable<K>>(put: &Sequence<X>, ended: &Sequence<K>) -> bool
    ensures { result ≡ fits_kind X.fits X.fits_key put.now ended.now }
{
    all_fit(put.as_slice()) && all_keys_fit::<K, X>(ended.as_slice())
}

/// Checks if groups can be written, and the numbers of those that end.
pub(crate) fn groups_fit(put: &Sequence<(u64, Members)>, ended: &NumberList) -> bool
    ensures { result ≡ fits_kind fits_group is_number put.now ended.now }
{
    all_groups_fit(put.as_slice()) && all_keys_fit::<u64, GroupMember>(ended.as_slice())
}

fn all_groups_fit(groups: &[(u64, Members)]) -> bool
    ensures { result ≡ list_all fits_group groups.now }
{
    groups
        .iter()
        .all(|(group, members)| group_fits(*group, members))
}

/// Checks if a group's number and those of its members are within their limits.
fn group_fits(group: u64, members: &Members) -> bool
    ensures { result ≡ fits_group (group, members.now) }
{
    is_number(group) && are_numbers(members)
}

fn are_numbers(members: &Members) -> bool
    ensures { result ≡ list_all (λ e. is_number e.0) (map.entries members.now) }
{
    members.iter().all(|(party, _)| is_number(*party))
}

/// Writes the inserted records and the ended keys of a kind. Closes versions only of ended keys, and of
/// inserted ones of existing objects, whose numbers are below the next number.
pub(crate) fn change_kind<S: Alter, K, X: HasKey<K> + Closable<K>>(
    alloc: Global,
    tx: &mut Transaction<'_, S>,
    put: &Sequence<X>,
    ended: &Sequence<K>,
    next: u64,
    stamp: i64,
) -> Result<(), Error>
    requires fits { IsTrue (list_all X.fits put.now) }
    requires keys { IsTrue (list_all (λ x. X.fits_key (X.key x)) put.now) }
    requires ended { IsTrue (list_all X.fits_key ended.now) }
    requires moment { IsMoment stamp }
    requires has_tables { HasRegisterTables S.Store tx.old.conn.now }
    ensures same_reference { SameReference tx.old tx.new }
    ensures step { Performs S.Store result
        (Changes X.reading put.now
        (λ x. list_any (X.has x)
        (map_list X.key (existing_records X.number next put.now) ++ ended.now)) stamp)
        tx.old tx.new }
{
    change(alloc, tx, put.as_slice(), ended.as_slice(), next, stamp)
}

/// Writes the members of groups: all current members of a changed group end, and the new members begin. A
/// group is new if its number is not below the next number. No member of a new group ends.
pub(crate) fn change_members<S: Alter>(
    alloc: Global,
    tx: &mut Transaction<'_, S>,
    put: &Sequence<(u64, Members)>,
    ended: &NumberList,
    next: u64,
    stamp: i64,
) -> Result<(), Error>
    requires fits { IsTrue (fits_kind fits_group is_number put.now ended.now) }
    requires moment { IsMoment stamp }
    requires has_tables { HasRegisterTables S.Store tx.old.conn.now }
    ensures same_reference { SameReference tx.old tx.new }
    ensures step { Performs S.Store result
        (Changes member_reading (listed_members put.now)
        (λ e. is_changed (existing_records (λ g. g.0) next put.now) ended.now e.group) stamp) tx.old tx.new }
{
    let listed = list_members(alloc, put.as_slice())?;
    close_put::<S, u64, (u64, Members), GroupMember>(tx, put.as_slice(), next, stamp)?;
    close_all::<S, u64, GroupMember>(tx, ended.as_slice(), stamp)?;
    begin_all(alloc, tx, listed.as_slice(), stamp)
}

/// Writes the links of new mutations to units. A mutation is new if its number is at least the next number.
pub(crate) fn begin_names<S: Alter>(
    alloc: Global,
    tx: &mut Transaction<'_, S>,
    next: u64,
    put: &Sequence<(u64, MutationRecord)>,
    stamp: i64,
) -> Result<(), Error>
    requires fits { IsTrue (list_all fits_mutation put.now) }
    requires moment { IsMoment stamp }
    requires has_tables { HasRegisterTables S.Store tx.old.conn.now }
    ensures same_reference { SameReference tx.old tx.new }
    ensures step { Performs S.Store result
        (BeginsAll naming_reading (named_by (new_mutations next put.now)) stamp) tx.old tx.new }
{
    let names = list_names(alloc, next, put.as_slice())?;
    begin_all(alloc, tx, names.as_slice(), stamp)
}

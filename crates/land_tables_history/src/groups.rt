//! The members of groups at a moment.
ghost use Rattle.std.specs.FinMap.{FinMap};
ghost use Rattle.std.specs.Ordering.{nat_cmp};
ghost use Rattle.std.specs.Prelude.{◌≡◌, IfOk};
ghost use Rattle.land_core.specs.Members.{Members};
ghost use Rattle.land_tables_history.specs.Groups.{AreGroupsAt, HaveMembers, groups_at, joined_members};
ghost use Rattle.land_tables_history.specs.Groups.{members_of_group};

use crate::group_member::GroupMember;
use crate::version::Version;
use land_core::duplicate::Duplicate;
use land_core::member::Members;
use land_core::records::Records;
use std::alloc::{AllocError, Global};

/// Returns the members of all groups that are current at a moment, under the groups' numbers. Versions may be
/// in any order. Returns an error only if it is out of memory.
pub fn groups_at(
    alloc: Global,
    versions: &[Version<GroupMember>],
    at: i64,
) -> Result<Records<Members>, AllocError>
    ensures value { IfOk result (λ it. it ≡ groups_at at versions.now) }
    ensures stands { IfOk result (λ it. (groups : FinMap nat_cmp Members) → HaveMembers groups
        → AreGroupsAt at versions.now groups → it ≡ groups) }
{
    let mut groups = Records::new(alloc);
    for version in versions {
        if version.is_current(at) {
            let members = joined_members(alloc, &groups, &version.what)?;
            groups.insert(version.what.group, members)?;
        }
    }
    Ok(groups)
}

/// Returns the members of a group after another one has joined. A group is created with its first member.
fn joined_members(
    alloc: Global,
    groups: &Records<Members>,
    joining: &GroupMember,
) -> Result<Members, AllocError>
    ensures { IfOk result (λ it. it ≡ joined_members groups.now joining.now) }
{
    let mut members = members_of(alloc, groups, joining.group)?;
    members.insert(joining.member.party, joining.member.share)?;
    Ok(members)
}

/// Returns the members of a group, none if there is no group.
fn members_of(alloc: Global, groups: &Records<Members>, group: u64) -> Result<Members, AllocError>
    ensures { IfOk result (λ it. it ≡ members_of_group groups.now group) }
{
    match groups.get(group) {
        Some(members) => members.copy(alloc),
        None => Ok(Records::new(alloc)),
    }
}

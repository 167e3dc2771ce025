//! Lists rows that have no number of their own: members of groups, and links of mutations to units.
ghost use Rattle.std.specs.Prelude.{◌≡◌, ◌++◌, ◌∷◌, [], IfOk, OnOk};
ghost use Rattle.land_tables_history.specs.Changed.{listed_members, named_by, new_mutations};
ghost use Rattle.land_tables_rows.specs.Recording.Whole.{memberships_of_group, mutation_names, names_of};

use land_core::content::Content;
use land_core::member::{Member, Members};
use land_core::mutation::MutationRecord;
use land_core::sequence::Sequence;
use land_tables_history::group_member::GroupMember;
use land_tables_history::naming::Naming;
use std::alloc::{AllocError, Global};

/// Lists the members of groups, each with the number of its group.
pub(crate) fn list_members(
    alloc: Global,
    groups: &[(u64, Members)],
) -> Result<Sequence<GroupMember>, AllocError>
    ensures { IfOk result (λ it. it ≡ listed_members groups.now) }
{
    let mut listed = Sequence::new(alloc);
    for (group, members) in groups {
        add_members(&mut listed, *group, members)?;
    }
    Ok(listed)
}

/// Appends the members of one group.
fn add_members(
    listed: &mut Sequence<GroupMember>,
    group: u64,
    members: &Members,
) -> Result<(), AllocError>
    ensures { OnOk result (listed.new ≡ listed.old ++ memberships_of_group group members.now) }
{
    for (party, share) in members.iter() {
        let member = Member {
            party: *party,
            share: *share,
        };
        listed.push(GroupMember { group, member })?;
    }
    Ok(())
}

/// Lists the links of new mutations to units. A mutation is new if its number is at least the next number.
pub(crate) fn list_names(
    alloc: Global,
    next: u64,
    mutations: &[(u64, MutationRecord)],
) -> Result<Sequence<Naming>, AllocError>
    ensures { IfOk result (λ it. it ≡ named_by (new_mutations next mutations.now)) }
{
    let mut listed = Sequence::new(alloc);
    for (number, mutation) in mutations {
        if next <= *number {
            add_names(&mut listed, *number, &mutation.content)?;
        }
    }
    Ok(listed)
}

/// Appends the links of one mutation.
fn add_names(
    listed: &mut Sequence<Naming>,
    mutation: u64,
    content: &Content,
) -> Result<(), AllocError>
    ensures { OnOk result (listed.new ≡ listed.old ++ mutation_names mutation content.now) }
{
    match content {
        Content::Transfer(it) => add_name(listed, mutation, it.unit),
        Content::Subdivision(it) => add_name(listed, mutation, it.unit),
        Content::Merger(it) => {
            add_name(listed, mutation, it.unit)?;
            add_each_name(listed, mutation, it.others.as_slice())
        }
        Content::Mortgage(it) => add_name(listed, mutation, it.unit),
        Content::Discharge(it) => add_name(listed, mutation, it.unit),
    }
}

/// Appends links of a mutation to some units.
fn add_each_name(
    listed: &mut Sequence<Naming>,
    mutation: u64,
    units: &[u64],
) -> Result<(), AllocError>
    ensures { OnOk result (listed.new ≡ listed.old ++ names_of mutation units.now) }
{
    for unit in units {
        add_name(listed, mutation, *unit)?;
    }
    Ok(())
}

/// Appends the link of a mutation to one unit.
fn add_name(listed: &mut Sequence<Naming>, mutation: u64, unit: u64) -> Result<(), AllocError>
    ensures { OnOk result (listed.new ≡ listed.old ++ names_of mutation (unit ∷ [])) }
{
    listed.push(Naming { mutation, unit })
}

//! Checks the shares of groups at each commit: 2 to 64 members whose shares sum to one.
ghost use Rattle.std.specs.List.{list_any};
ghost use Rattle.std.specs.Prelude.{◌≡◌, ◌↔◌, ◌++◌, true, IfOk, length, refl};
ghost use Rattle.land_core.specs.Members.{is_group_size, is_yes};
ghost use Rattle.land_core.specs.Soundness.{has_broken_group};
ghost use Rattle.land_fraction.specs.Wholeness.{wholeness};
ghost use Rattle.land_tables_history.specs.Intervals.{has_intervals};
ghost use Rattle.land_tables_validity.specs.AnyOrder.{joined_in_any_order};
ghost use Rattle.land_tables_validity.specs.LiveSpan.{span_values};
ghost use Rattle.land_tables_validity.specs.Memberships.{are_members_sound, are_members_whole};
ghost use Rattle.land_tables_validity.specs.Memberships.{group_live_spans};
ghost use Rattle.land_tables_validity.specs.Memberships.{is_group, member_share, member_shares};
ghost use Rattle.land_tables_validity.specs.Memberships.{member_live_spans};
ghost use Rattle.land_tables_validity.specs.Never.{Never};
ghost use Rattle.land_tables_validity.specs.CoverageSpans.{are_in_range};

use crate::live_spans::live_span;
use land_core::kind::PartyKind;
use land_core::party::PartyRecord;
use land_fraction::{Fraction, Whole, is_whole};
use land_tables_history::group_member::GroupMember;
use land_tables_history::history::History;
use land_tables_history::moment::Moment;
use land_tables_history::sweeps::sweep::{LiveSpan, SweepItem, are_sound};
use land_tables_history::version::Version;
use std::alloc::{AllocError, Global};

/// A value of a group, as needed for the check.
#[derive(Clone, Copy, Debug, PartialEq, Eq, PartialOrd, Ord)]
pub(crate) enum Membership {
    /// The group itself.
    Group,
    /// A member.
    Member {
        /// The share.
        share: Fraction,
    },
}

impl Membership {
    fn is_group(self) -> bool
        ensures { result ≡ is_group self }
    {
        match self {
            Membership::Group => true,
            Membership::Member { .. } => false,
        }
    }

    /// Returns the share of a member.
    fn share(self) -> Option<Fraction>
        ensures { result ≡ member_share self }
    {
        match self {
            Membership::Group => None,
            Membership::Member { share } => Some(share),
        }
    }
}

impl SweepItem for Membership {
    ghost is_sound = { are_members_sound };

    fn check_soundness(alloc: Global, there: &[LiveSpan<Membership>]) -> Result<bool, AllocError> {
        Ok(!has_group(there) || are_members_whole(alloc, there)?)
    }

    ghost empty_is_sound = { refl };

    ghost in_any_order = { λ xs ys p. joined_in_any_order xs ys p };
}

/// Returns whether each group has 2 to 64 members whose shares sum to one, at each commit. Returns an error
/// only if it is out of memory.
pub(crate) fn are_groups_whole(
    alloc: Global,
    history: &History,
    moments: &[Moment],
) -> Result<bool, AllocError>
    requires intervals { has_intervals moments.now history.now ≡ true }
    requires in_time { are_in_range moments.now ≡ true }
    ensures { IfOk result (λ it. (it ≡ true) ↔ Never has_broken_group moments.now history.now) }
{
    let mut live_spans = memberships_in(
        alloc,
        history.parties.as_slice(),
        history.members.as_slice(),
    )?;
    are_sound(alloc, &mut live_spans)
}

/// Returns the groups and their members, each with its lifespan.
fn memberships_in(
    alloc: Global,
    parties: &[Version<(u64, PartyRecord)>],
    members: &[Version<GroupMember>],
) -> Result<Vec<LiveSpan<Membership>>, AllocError>
    ensures { IfOk result (λ it. it.items ≡ group_live_spans parties.now ++ member_live_spans members.now) }
{
    let mut live_spans = Vec::new(alloc);
    for party in parties {
        if party.what.1.kind == PartyKind::Group {
            live_spans.push(live_span(party.what.0, Membership::Group, party))?;
        }
    }
    for member in members {
        let share = member.what.member.share;
        live_spans.push(live_span(member.what.group, Membership::Member { share }, member))?;
    }
    Ok(live_spans)
}

fn has_group(there: &[LiveSpan<Membership>]) -> bool
    ensures { result ≡ list_any is_group (span_values there.now) }
{
    there.iter().any(|one| one.what.is_group())
}

/// Returns whether there are 2 to 64 members whose shares sum to one.
fn are_members_whole(alloc: Global, there: &[LiveSpan<Membership>]) -> Result<bool, AllocError>
    ensures { IfOk result (λ it. it ≡ are_members_whole (span_values there.now)) }
{
    Ok(is_group_size(there) && have_valid_sums(alloc, there)?)
}

/// Returns whether there are 2 to 64 members.
fn is_group_size(there: &[LiveSpan<Membership>]) -> bool
    ensures { result ≡ is_group_size (length (member_shares (span_values there.now))) }
{
    let mut members: usize = 0;
    for one in there {
        members += usize::from(!one.what.is_group());
        if members > 64 {
            return false;
        }
    }
    2 <= members
}

fn have_valid_sums(alloc: Global, there: &[LiveSpan<Membership>]) -> Result<bool, AllocError>
    ensures { IfOk result (λ it. it ≡ is_yes (wholeness (member_shares (span_values there.now)))) }
{
    let shares = shares_of(alloc, there)?;
    Ok(is_whole(shares.as_slice()) == Whole::Yes)
}

fn shares_of(alloc: Global, there: &[LiveSpan<Membership>]) -> Result<Vec<Fraction>, AllocError>
    ensures { IfOk result (λ it. it.items ≡ member_shares (span_values there.now)) }
{
    let mut shares = Vec::new(alloc);
    for one in there {
        if let Some(share) = one.what.share() {
            shares.push(share)?;
        }
    }
    Ok(shares)
}

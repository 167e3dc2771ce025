//! Checks that members are single parties in existing groups, at each commit.
ghost use Rattle.std.specs.Prelude.{◌≡◌, ◌↔◌, ◌++◌, true, IfOk, map as map_list};
ghost use Rattle.land_core.specs.Soundness.{has_dangling_members};
ghost use Rattle.land_tables_history.specs.Intervals.{has_intervals};
ghost use Rattle.land_tables_validity.specs.Members.{group_parties, group_spans, member_spans};
ghost use Rattle.land_tables_validity.specs.Never.{Never};
ghost use Rattle.land_tables_validity.specs.CoverageSpans.{AreNonempty, are_in_range, provided_span};
ghost use Rattle.land_tables_history.specs.Sweeps.Cover.{IsCovered};

use crate::coverage_spans::provided_span;
use crate::references_exist::require_numbers;
use crate::roles::{is_single, provide_single_parties};
use land_core::party::PartyRecord;
use land_tables_history::history::History;
use land_tables_history::moment::Moment;
use land_tables_history::sweeps::cover::{CoverageSpan, is_covered};
use land_tables_history::version::Version;
use std::alloc::{AllocError, Global};

/// Returns whether the group of each member is a group, and the member a single party, throughout its
/// lifespan. Returns an error only if it is out of memory.
pub(crate) fn members_refs_exist(
    alloc: Global,
    history: &History,
    moments: &[Moment],
) -> Result<bool, AllocError>
    requires intervals { has_intervals moments.now history.now ≡ true }
    requires in_time { are_in_range moments.now ≡ true }
    ensures { IfOk result (λ it. (it ≡ true) ↔ Never has_dangling_members moments.now history.now) }
{
    let groups = are_groups_there(alloc, history)?;
    let parties = are_parties_there(alloc, history)?;
    Ok(groups & parties)
}

fn are_groups_there(alloc: Global, history: &History) -> Result<bool, AllocError>
    requires { AreNonempty (group_spans history.now.parties history.now.members) }
    ensures { IfOk result (λ it. (it ≡ true) ↔ IsCovered
        (group_spans history.now.parties history.now.members)) }
{
    let mut coverage_spans = Vec::new(alloc);
    provide_groups(&mut coverage_spans, history.parties.as_slice())?;
    require_numbers(
        &mut coverage_spans,
        history.members.as_slice(),
        |member| member.group,
    )?;
    Ok(is_covered(&mut coverage_spans))
}

fn are_parties_there(alloc: Global, history: &History) -> Result<bool, AllocError>
    requires { AreNonempty (member_spans history.now.parties history.now.members) }
    ensures { IfOk result (λ it. (it ≡ true) ↔ IsCovered
        (member_spans history.now.parties history.now.members)) }
{
    let mut coverage_spans = Vec::new(alloc);
    provide_single_parties(&mut coverage_spans, history.parties.as_slice())?;
    require_numbers(
        &mut coverage_spans,
        history.members.as_slice(),
        |member| member.member.party,
    )?;
    Ok(is_covered(&mut coverage_spans))
}

/// Adds a provided span for each version of a party that is a group.
fn provide_groups(
    coverage_spans: &mut Vec<CoverageSpan>,
    parties: &[Version<(u64, PartyRecord)>],
) -> Result<(), AllocError>
    ensures { IfOk result (λ it. coverage_spans.new.items ≡ coverage_spans.old.items
        ++ map_list (provided_span (λ e. e.0)) (group_parties parties.now)) }
{
    for party in parties {
        if !is_single(party.what.1.kind) {
            coverage_spans.push(provided_span(party.what.0, party))?;
        }
    }
    Ok(())
}

//! Checks that roles are held by single parties, at each commit.
ghost use Rattle.std.specs.Prelude.{◌≡◌, ◌↔◌, ◌++◌, true, IfOk, map as map_list};
ghost use Rattle.land_core.specs.Register.{is_single};
ghost use Rattle.land_core.specs.Soundness.{has_dangling_grant};
ghost use Rattle.land_tables_history.specs.Intervals.{has_intervals};
ghost use Rattle.land_tables_validity.specs.Never.{Never};
ghost use Rattle.land_tables_validity.specs.CoverageSpans.{are_in_range, provided_span};
ghost use Rattle.land_tables_validity.specs.Roles.{single_parties};

use crate::coverage_spans::provided_span;
use crate::references_exist::require_numbers;
use land_core::kind::PartyKind;
use land_core::party::PartyRecord;
use land_tables_history::history::History;
use land_tables_history::moment::Moment;
use land_tables_history::sweeps::cover::{CoverageSpan, is_covered};
use land_tables_history::version::Version;
use std::alloc::{AllocError, Global};

/// Returns whether the party of each role is single throughout its lifespan. Returns an error only if it is
/// out of memory.
pub(crate) fn roles_refs_exist(
    alloc: Global,
    history: &History,
    moments: &[Moment],
) -> Result<bool, AllocError>
    requires intervals { has_intervals moments.now history.now ≡ true }
    requires in_time { are_in_range moments.now ≡ true }
    ensures { IfOk result (λ it. (it ≡ true) ↔ Never has_dangling_grant moments.now history.now) }
{
    let mut coverage_spans = Vec::new(alloc);
    provide_single_parties(&mut coverage_spans, history.parties.as_slice())?;
    require_numbers(
        &mut coverage_spans,
        history.roles.as_slice(),
        |role| role.party,
    )?;
    Ok(is_covered(&mut coverage_spans))
}

/// Adds a provided span for each version of a party that is single.
pub(crate) fn provide_single_parties(
    coverage_spans: &mut Vec<CoverageSpan>,
    parties: &[Version<(u64, PartyRecord)>],
) -> Result<(), AllocError>
    ensures { IfOk result (λ it. coverage_spans.new.items ≡ coverage_spans.old.items
        ++ map_list (provided_span (λ e. e.0)) (single_parties parties.now)) }
{
    for party in parties {
        if is_single(party.what.1.kind) {
            coverage_spans.push(provided_span(party.what.0, party))?;
        }
    }
    Ok(())
}

/// Returns whether a party is single. A natural or non-natural person is; a group is not.
pub(crate) fn is_single(kind: PartyKind) -> bool
    ensures { result ≡ is_single kind }
{
    kind != PartyKind::Group
}

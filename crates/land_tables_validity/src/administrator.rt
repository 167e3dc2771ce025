//! Checks that there is an administrator, at each commit.
ghost use Rattle.std.specs.Prelude.{◌≡◌, ◌↔◌, ◌++◌, true, not, IfOk, int_lt};
ghost use Rattle.land_core.specs.Role.{is_role};
ghost use Rattle.land_core.specs.Soundness.{has_administrator};
ghost use Rattle.land_core.specs.declared.role.Role.TheVariants.{StateAdministrator};
ghost use Rattle.land_tables_history.specs.Intervals.{has_intervals};
ghost use Rattle.land_tables_history.specs.Open.{never};
ghost use Rattle.land_tables_validity.specs.Administrator.{required_instants, instant};
ghost use Rattle.land_tables_validity.specs.Administrator.{provided_administrators};
ghost use Rattle.land_tables_validity.specs.Never.{Never};
ghost use Rattle.land_tables_validity.specs.CoverageSpans.{are_in_range, required_span};

use crate::coverage_spans::provided_span;
use land_core::role::Role;
use land_core::roles::Grant;
use land_tables_history::history::History;
use land_tables_history::moment::Moment;
use land_tables_history::sweeps::cover::{CoverageSpan, is_covered};
use land_tables_history::version::Version;
use std::alloc::{AllocError, Global};

/// Returns whether some party is state administrator at each commit. Returns an error only if it is out of
/// memory.
pub(crate) fn has_administrators(
    alloc: Global,
    history: &History,
    moments: &[Moment],
) -> Result<bool, AllocError>
    requires intervals { has_intervals moments.now history.now ≡ true }
    requires in_time { are_in_range moments.now ≡ true }
    ensures { IfOk result (λ it. (it ≡ true) ↔ Never
        (λ r. not (has_administrator r)) moments.now history.now) }
{
    let mut coverage_spans = Vec::new(alloc);
    provide_administrators(&mut coverage_spans, history.roles.as_slice())?;
    require_at_moments(&mut coverage_spans, moments)?;
    Ok(is_covered(&mut coverage_spans))
}

/// Adds a provided span for each state administrator, under one key.
fn provide_administrators(
    coverage_spans: &mut Vec<CoverageSpan>,
    roles: &[Version<Grant>],
) -> Result<(), AllocError>
    ensures { IfOk result (λ it. coverage_spans.new.items ≡ coverage_spans.old.items
        ++ provided_administrators roles.now) }
{
    for role in roles {
        if is_administrator(role.what.role) {
            coverage_spans.push(provided_span(0, role))?;
        }
    }
    Ok(())
}

fn is_administrator(role: Role) -> bool
    ensures { result ≡ is_role role StateAdministrator }
{
    role == Role::StateAdministrator
}

/// Adds a required span for each commit.
fn require_at_moments(
    coverage_spans: &mut Vec<CoverageSpan>,
    moments: &[Moment],
) -> Result<(), AllocError>
    requires { are_in_range moments.now ≡ true }
    ensures { IfOk result (λ it. coverage_spans.new.items ≡ coverage_spans.old.items
        ++ required_instants moments.now) }
{
    for moment in moments {
        coverage_spans.push(required_at(moment))?;
    }
    Ok(())
}

/// Returns the required span of a commit, which contains only its stamp.
fn required_at(moment: &Moment) -> CoverageSpan
    requires { int_lt moment.now.stamp never ≡ true }
    ensures { result ≡ required_span (λ m. 0) (instant moment.now) }
{
    CoverageSpan {
        first: 0,
        second: 0,
        since: moment.stamp,
        required: true,
        until: moment.stamp + 1,
    }
}

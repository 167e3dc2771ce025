//! Checks that the rows of `names` are the references of the mutations to units, at each commit.
ghost use Rattle.std.specs.Prelude.{◌≡◌, ◌↔◌, ◌∷◌, ◌++◌, [], true, flat_map, map as map_list, IfOk, OnOk};
ghost use Rattle.land_tables_history.specs.Intervals.{has_intervals};
ghost use Rattle.land_tables_validity.specs.KeyPairs.{pair_at, key_spans, key_pairs};
ghost use Rattle.land_tables_validity.specs.NamedUnits.{NamingsAgree, named_pairs, naming_pair, with_units};
ghost use Rattle.land_tables_validity.specs.CoverageSpans.{AreNonempty, are_in_range};
ghost use Rattle.land_tables_history.specs.Sweeps.Cover.{IsCovered};

use crate::key_pairs::pair_span;
use land_core::content::Content;
use land_core::mutation::MutationRecord;
use land_tables_history::history::History;
use land_tables_history::moment::Moment;
use land_tables_history::naming::Naming;
use land_tables_history::sweeps::cover::{CoverageSpan, is_covered};
use land_tables_history::version::Version;
use std::alloc::{AllocError, Global};

/// Returns whether the current rows of `names` are the references of the current mutations, at each commit.
/// Returns an error only if it is out of memory.
pub(crate) fn match_mutation_units(
    alloc: Global,
    history: &History,
    moments: &[Moment],
) -> Result<bool, AllocError>
    requires intervals { has_intervals moments.now history.now ≡ true }
    requires in_time { are_in_range moments.now ≡ true }
    ensures { IfOk result (λ it. (it ≡ true) ↔ NamingsAgree moments.now history.now) }
{
    let computes = are_namings_in_contents(alloc, history)?;
    let listed = are_contents_in_namings(alloc, history)?;
    Ok(computes & listed)
}

/// Returns whether each row of `names` is a reference of its mutation throughout its lifespan.
fn are_namings_in_contents(alloc: Global, history: &History) -> Result<bool, AllocError>
    requires { AreNonempty (key_pairs named_pairs history.now.mutations naming_pair history.now.namings) }
    ensures { IfOk result (λ it. (it ≡ true) ↔ IsCovered
        (key_pairs named_pairs history.now.mutations naming_pair history.now.namings)) }
{
    let mut coverage_spans = Vec::new(alloc);
    add_mutations(&mut coverage_spans, false, history.mutations.as_slice())?;
    add_namings(&mut coverage_spans, true, history.namings.as_slice())?;
    Ok(is_covered(&mut coverage_spans))
}

/// Returns whether each reference of a mutation has a row of `names` throughout its lifespan.
fn are_contents_in_namings(alloc: Global, history: &History) -> Result<bool, AllocError>
    requires { AreNonempty (key_pairs naming_pair history.now.namings named_pairs history.now.mutations) }
    ensures { IfOk result (λ it. (it ≡ true) ↔ IsCovered
        (key_pairs naming_pair history.now.namings named_pairs history.now.mutations)) }
{
    let mut coverage_spans = Vec::new(alloc);
    add_namings(&mut coverage_spans, false, history.namings.as_slice())?;
    add_mutations(&mut coverage_spans, true, history.mutations.as_slice())?;
    Ok(is_covered(&mut coverage_spans))
}

/// Adds the spans of rows of `names`, required or provided.
fn add_namings(
    coverage_spans: &mut Vec<CoverageSpan>,
    required: bool,
    namings: &[Version<Naming>],
) -> Result<(), AllocError>
    ensures { OnOk result (coverage_spans.new.items ≡ coverage_spans.old.items
        ++ flat_map (key_spans required naming_pair) namings.now) }
{
    for naming in namings {
        coverage_spans.push(pair_span(required, naming.what.mutation, naming.what.unit, naming))?;
    }
    Ok(())
}

/// Adds the spans of the references of mutations, required or provided.
fn add_mutations(
    coverage_spans: &mut Vec<CoverageSpan>,
    required: bool,
    mutations: &[Version<(u64, MutationRecord)>],
) -> Result<(), AllocError>
    ensures { OnOk result (coverage_spans.new.items ≡ coverage_spans.old.items
        ++ flat_map (key_spans required named_pairs) mutations.now) }
{
    for mutation in mutations {
        add_mutation(coverage_spans, required, mutation)?;
    }
    Ok(())
}

/// Adds the spans of the references of one mutation, required or provided.
fn add_mutation(
    coverage_spans: &mut Vec<CoverageSpan>,
    required: bool,
    mutation: &Version<(u64, MutationRecord)>,
) -> Result<(), AllocError>
    ensures { OnOk result (coverage_spans.new.items ≡ coverage_spans.old.items
        ++ key_spans required named_pairs mutation.now) }
{
    match &mutation.what.1.content {
        Content::Transfer(it) => add_unit(coverage_spans, required, mutation, it.unit),
        Content::Subdivision(it) => add_unit(coverage_spans, required, mutation, it.unit),
        Content::Merger(it) => {
            add_unit(coverage_spans, required, mutation, it.unit)?;
            add_units(coverage_spans, required, mutation, it.others.as_slice())
        }
        Content::Mortgage(it) => add_unit(coverage_spans, required, mutation, it.unit),
        Content::Discharge(it) => add_unit(coverage_spans, required, mutation, it.unit),
    }
}

/// Adds the spans of a mutation's references to these units.
fn add_units(
    coverage_spans: &mut Vec<CoverageSpan>,
    required: bool,
    mutation: &Version<(u64, MutationRecord)>,
    units: &[u64],
) -> Result<(), AllocError>
    ensures { OnOk result (coverage_spans.new.items ≡ coverage_spans.old.items
        ++ map_list (λ k. pair_at required k.0 k.1 mutation.now.since mutation.now.until)
        (with_units mutation.now.what.0 units.now)) }
{
    for unit in units {
        add_unit(coverage_spans, required, mutation, *unit)?;
    }
    Ok(())
}

/// Adds the span of a mutation's reference to one unit.
fn add_unit(
    coverage_spans: &mut Vec<CoverageSpan>,
    required: bool,
    mutation: &Version<(u64, MutationRecord)>,
    unit: u64,
) -> Result<(), AllocError>
    ensures { OnOk result (coverage_spans.new.items ≡ coverage_spans.old.items
        ++ pair_at required mutation.now.what.0 unit mutation.now.since mutation.now.until ∷ []) }
{
    coverage_spans.push(pair_span(required, mutation.what.0, unit, mutation))?;
    Ok(())
}

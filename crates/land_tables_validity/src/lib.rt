//! Decides whether a history is valid. Each condition of soundness is checked for all commits in one sort and
//! one pass.
#![tactic(auto)]

mod administrator;
mod bare_units;
mod coverage_spans;
mod duplicate_rights;
mod entries;
mod groups;
mod key_pairs;
mod live_spans;
mod mandates;
mod members;
mod moments;
mod mutations;
mod namings;
mod number_range;
mod parcels;
mod references_exist;
mod roles;
mod share_sums;
mod unique_references;
mod units;
pub mod valid_history;

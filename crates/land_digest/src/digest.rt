//! The digest of a history: its events are sorted and hashed part by part.
ghost use Rattle.std.specs.Prelude.{◌≡◌, true, IfOk, OnOk, map as map_list};
ghost use Rattle.land_digest.specs.Entries.{Gains, event_of};
ghost use Rattle.land_digest.specs.Events.{events_between, events_text, have_distinct_places, in_order};
ghost use Rattle.land_digest.specs.History.{history_digest, history_events};
ghost use Rattle.land_digest.specs.Laws.{HasIntervals};
ghost use Rattle.land_digest.specs.Stamps.{last_stamp_at};

use crate::entries::{add_all_versions, add_moments, is_between};
use crate::entry::Entry;
use crate::lines::put_entries;
use land_tables_history::history::History;
use land_tables_history::moment::Moment;
use land_tables_history::moments::latest_at;
use sha2::{Digest, Sha256};
use std::alloc::{AllocError, Global};

/// The number of parts of a history. Each is sorted by itself, so that its entries take little memory.
const PARTS: usize = 8;

/// Returns stamps at which a part may end, so that parts have about as many moments each.
fn part_ends(alloc: Global, moments: &[Moment]) -> Result<Vec<i64>, AllocError> {
    let mut stamps = Vec::with_capacity(alloc, moments.len())?;
    for moment in moments {
        stamps.push(moment.stamp)?;
    }
    stamps.sort_unstable();
    let size = stamps.len() / PARTS;
    let mut ends = Vec::new(alloc);
    for part in 1..PARTS {
        if let Some(end) = stamps.get(part.saturating_mul(size)) {
            ends.push(*end)?;
        }
    }
    Ok(ends)
}

/// Writes the lines of entries, which may be in any order.
fn put_in_order(
    alloc: Global,
    hasher: &mut Sha256,
    entries: &mut [Entry<'_>],
) -> Result<(), AllocError>
    requires { have_distinct_places (map_list event_of entries.old) ≡ true }
    ensures { OnOk result (Gains hasher.old hasher.new
        (events_text (in_order (map_list event_of entries.old)))) }
{
    entries.sort_unstable_by_key(|entry| entry.place());
    put_entries(alloc, hasher, entries)
}

/// Writes the lines of the events between two stamps.
fn put_part(
    alloc: Global,
    hasher: &mut Sha256,
    moments: &[Moment],
    history: &History,
    after: Option<i64>,
    upto: i64,
) -> Result<(), AllocError>
    requires { HasIntervals moments.now history.now }
    ensures { OnOk result (Gains hasher.old hasher.new
        (events_text (in_order (events_between after upto (history_events moments.now history.now))))) }
{
    let mut entries = Vec::new(alloc);
    add_moments(&mut entries, moments, after, upto)?;
    add_all_versions(&mut entries, history, after, upto)?;
    put_in_order(alloc, hasher, &mut entries)
}

/// Returns the digest of a history up to a stamp. Moments and versions may be in any order. Returns an error
/// only if it is out of memory.
pub fn history_digest(
    alloc: Global,
    moments: &[Moment],
    history: &History,
    upto: i64,
) -> Result<[u8; 32], AllocError>
    requires { HasIntervals moments.now history.now }
    ensures { IfOk result (λ it. it ≡ history_digest moments.now history.now upto) }
{
    let ends = part_ends(alloc, moments)?;
    let mut hasher = Sha256::new();
    let mut after: Option<i64> = None;
    'parts: for end in &ends {
        if is_between(after, upto, *end) {
            put_part(alloc, &mut hasher, moments, history, after, *end)?;
            after = Some(*end);
        }
    }
    put_part(alloc, &mut hasher, moments, history, after, upto)?;
    Ok(hasher.finalize())
}

/// Returns the last stamp at or before a time, in Unix milliseconds, or 0 if there is none. Moments may be in
/// any order.
pub fn last_stamp_at(moments: &[Moment], at: i64) -> i64
    ensures { result ≡ last_stamp_at moments.now at }
{
    match latest_at(moments, at) {
        Some(moment) => moment.stamp,
        None => 0,
    }
}

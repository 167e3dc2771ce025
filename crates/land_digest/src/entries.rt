//! Collects the events of a history between two stamps.
ghost use Rattle.std.specs.Prelude.{◌≡◌, [], ◌∷◌, ◌++◌, IfOk, map as map_list};
ghost use Rattle.land_digest.specs.Entries.{event_of};
ghost use Rattle.land_digest.specs.Events.{events_between, is_stamp_between};
ghost use Rattle.land_digest.specs.History.{all_version_events};
ghost use Rattle.land_digest.specs.Versions.{end_of, moment_events, start_of, table_events, version_events};

use crate::entry::{Entry, Values};
use crate::recorded::Recorded;
use land_tables_history::history::History;
use land_tables_history::moment::Moment;
use land_tables_history::version::Version;
use std::alloc::AllocError;

/// Checks if a stamp is after another one, if there is one, and at most `upto`.
pub(crate) fn is_between(after: Option<i64>, upto: i64, stamp: i64) -> bool
    ensures { result ≡ is_stamp_between after upto stamp }
{
    match after {
        Some(last) => stamp <= upto && !(stamp <= last),
        None => stamp <= upto,
    }
}

/// Adds the moments.
pub(crate) fn add_moments(
    entries: &mut Vec<Entry<'_>>,
    moments: &[Moment],
    after: Option<i64>,
    upto: i64,
) -> Result<(), AllocError>
    ensures { IfOk result (λ _. map_list event_of entries.new.items
        ≡ map_list event_of entries.old.items ++ events_between after upto (moment_events moments.now)) }
{
    'moments: for moment in moments {
        if is_between(after, upto, moment.stamp) {
            entries.push(Entry {
                place: (moment.stamp, 0, 0, 0, 0),
                values: Values::Moment(moment.next),
            })?;
        }
    }
    Ok(())
}

/// Adds an entry, if it is between the stamps.
fn add_entry<'a>(
    entries: &mut Vec<Entry<'a>>,
    event: Entry<'a>,
    after: Option<i64>,
    upto: i64,
) -> Result<(), AllocError>
    ensures { IfOk result (λ _. map_list event_of entries.new.items
        ≡ map_list event_of entries.old.items ++ events_between after upto (event_of event.entry ∷ [])) }
{
    if is_between(after, upto, event.place.0) {
        entries.push(event)?;
    }
    Ok(())
}

/// Returns the start of a version.
fn start_entry<X: Recorded>(version: &Version<X>) -> Entry<'_>
    ensures { event_of result ≡ start_of (X.Recorded.row version.now.what) version.now.since }
{
    let (table, first, second) = version.what.key();
    Entry {
        place: (version.since, 0, table, first, second),
        values: version.what.values(),
    }
}

/// Returns the end of a version.
fn end_entry<X: Recorded>(version: &Version<X>) -> Entry<'_>
    ensures { event_of result ≡ end_of (X.Recorded.row version.now.what) version.now.until }
{
    let (table, first, second) = version.what.key();
    Entry {
        place: (version.until, 1, table, first, second),
        values: Values::Nothing,
    }
}

fn add_version<'a, X: Recorded>(
    entries: &mut Vec<Entry<'a>>,
    version: &'a Version<X>,
    after: Option<i64>,
    upto: i64,
) -> Result<(), AllocError>
    ensures { IfOk result (λ _. map_list event_of entries.new.items
        ≡ map_list event_of entries.old.items
        ++ events_between after upto (version_events X.Recorded.row version.now)) }
{
    add_entry(entries, start_entry(version), after, upto)?;
    add_entry(entries, end_entry(version), after, upto)?;
    Ok(())
}

fn add_versions<'a, X: Recorded>(
    entries: &mut Vec<Entry<'a>>,
    versions: &'a [Version<X>],
    after: Option<i64>,
    upto: i64,
) -> Result<(), AllocError>
    ensures { IfOk result (λ _. map_list event_of entries.new.items
        ≡ map_list event_of entries.old.items
        ++ events_between after upto (table_events X.Recorded.row versions.now)) }
{
    'versions: for version in versions {
        add_version(entries, version, after, upto)?;
    }
    Ok(())
}

/// Adds the versions, table by table.
pub(crate) fn add_all_versions<'a>(
    entries: &mut Vec<Entry<'a>>,
    history: &'a History,
    after: Option<i64>,
    upto: i64,
) -> Result<(), AllocError>
    ensures { IfOk result (λ _. map_list event_of entries.new.items
        ≡ map_list event_of entries.old.items ++ events_between after upto (all_version_events history.now)) }
{
    add_versions(entries, history.parties.as_slice(), after, upto)?;
    add_versions(entries, history.roles.as_slice(), after, upto)?;
    add_versions(entries, history.members.as_slice(), after, upto)?;
    add_versions(entries, history.units.as_slice(), after, upto)?;
    add_versions(entries, history.parcels.as_slice(), after, upto)?;
    add_versions(entries, history.rrrs.as_slice(), after, upto)?;
    add_versions(entries, history.sources.as_slice(), after, upto)?;
    add_versions(entries, history.mutations.as_slice(), after, upto)?;
    add_versions(entries, history.namings.as_slice(), after, upto)?;
    add_versions(entries, history.mandates.as_slice(), after, upto)?;
    Ok(())
}

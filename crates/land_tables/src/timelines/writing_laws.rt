//! Laws of writing a change to versions that represent a timeline.
ghost use Rattle.land_tables.specs.Timelines.Writing.{WritesKeepIntervals, WritesRepresentTimelines};

/// States that versions that represent a timeline represent, with a change, the timeline with the change
/// written.
pub fn writes_represent_timelines()
    ensures { WritesRepresentTimelines }
{}

/// States that valid intervals stay valid with the change.
pub fn writes_keep_intervals()
    ensures { WritesKeepIntervals }
{}

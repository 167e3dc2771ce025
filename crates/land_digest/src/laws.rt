//! Laws of the text of a history, each on definitions only.
ghost use Rattle.land_digest.specs.Laws.{AppendingKeepsText, EarlierTextIsPrefix, EventsHaveDistinctPlaces};
ghost use Rattle.land_digest.specs.Laws.{TextBindsHistory, TextIgnoresRowOrder};
ghost use Rattle.land_digest.specs.Stamps.{LastStampIgnoresOrder};

/// A change and its moment leave the text up to each earlier stamp unchanged.
pub fn appending_keeps_text()
    ensures { AppendingKeepsText }
{}

/// The text binds the history: if two histories have the same text up to a stamp, they have the same moments
/// and the same versions up to it, and the same register at each moment up to it.
pub fn text_binds_history()
    ensures { TextBindsHistory }
{
    land_shape::laws::printed_rings();
    land_wire_json::texts::laws::texts_determine_contents();
}

/// The text up to a stamp is a prefix of the text up to a later one.
pub fn earlier_text_is_prefix()
    ensures { EarlierTextIsPrefix }
{}

/// The text does not depend on the order of the moments and the versions.
pub fn text_ignores_row_order()
    ensures { TextIgnoresRowOrder }
{}

/// No two events of a history have the same place in the order of the text.
pub fn events_have_distinct_places()
    ensures { EventsHaveDistinctPlaces }
{}

/// The last stamp at or before a time does not depend on the order of the moments.
pub fn last_stamp_ignores_order()
    ensures { LastStampIgnoresOrder }
{}

//! Laws, each stated with definitions only.
ghost use Rattle.land_wire_json.specs.Bodies.Laws.{BodiesAreWellFormed, ContentsRoundTrip};
ghost use Rattle.land_wire_json.specs.Bodies.Laws.{ContentsAreWellFormed, OutlinesAreAnswered};

/// The answer for an outline's text is a ring that the text denotes, or the text's first fault.
pub fn outlines_are_answered()
    ensures { OutlinesAreAnswered }
{}

/// The value read from a body is within the limits of its act, and a content that was read is within its
/// limits.
pub fn readings_are_well_formed()
    ensures bodies { BodiesAreWellFormed }
    ensures contents { ContentsAreWellFormed }
{}

/// Reading the text of a content with the word of its act returns that content.
pub fn contents_round_trip()
    ensures { ContentsRoundTrip }
{
    outlines_are_answered();
    land_fraction::laws::fractions_stay();
    land_shape::laws::printed_rings();
    land_shape::laws::one_answer();
    crate::texts::laws::compact_texts_are_read();
}

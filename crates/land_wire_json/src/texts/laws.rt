//! Laws, each stated with definitions only.
ghost use Rattle.land_wire_json.specs.Texts.Laws.{PartyTexts, UnitTexts, ParcelTexts, RrrTexts, SourceTexts};
ghost use Rattle.land_wire_json.specs.Texts.Laws.{MutationTexts, ContentTexts};
ghost use Rattle.land_wire_json.specs.Texts.Laws.{ShareTexts, OutlineTexts, CompactLaw};
ghost use Rattle.land_wire_json.specs.Texts.Laws.{TextsDetermineObjects};
ghost use Rattle.land_wire_json.specs.Texts.Laws.{TextsDetermineContents};

/// The texts of parties in replies.
pub fn parties_have_plain_texts()
    ensures { PartyTexts }
{}

/// The texts of units in replies.
pub fn units_have_plain_texts()
    ensures { UnitTexts }
{}

/// The texts of parcels in replies.
pub fn parcels_have_plain_texts()
    ensures { ParcelTexts }
{}

/// The texts of entries in replies: rights, restrictions, responsibilities and mortgages.
pub fn entries_have_plain_texts()
    ensures { RrrTexts }
{}

/// The texts of sources in replies.
pub fn sources_have_plain_texts()
    ensures { SourceTexts }
{}

/// The texts of mutations in replies, which contain the text of the content.
pub fn mutations_have_plain_texts()
    ensures { MutationTexts }
{}

/// The texts of the contents of each kind.
pub fn contents_have_plain_texts()
    ensures { ContentTexts }
{}

/// The text of a share is its canonical form in quotation marks.
pub fn shares_have_plain_texts()
    ensures { ShareTexts }
{}

/// The text of an outline is its canonical form in quotation marks.
pub fn outlines_have_plain_texts()
    ensures { OutlineTexts }
{}

/// Reading the compact text of JSON returns that JSON, if numbers are natural and below 2^64, the keys of
/// each object are increasing, and the depth is small.
pub fn compact_texts_are_read()
    ensures { CompactLaw }
{}

/// A text determines its object, if the object is within its limits.
pub fn texts_determine_objects()
    ensures { TextsDetermineObjects }
{
    land_shape::laws::printed_rings();
}

/// A text determines its content, if the content is within its limits.
pub fn texts_determine_contents()
    ensures { TextsDetermineContents }
{
    land_shape::laws::printed_rings();
}

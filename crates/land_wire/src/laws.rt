//! Laws, each stated with definitions only.
ghost use Rattle.land_wire.specs.Laws.{BodiesOfReadsAreIgnored, GetsDoNothing, OtherMethodsRequestActs};
ghost use Rattle.land_wire.specs.Laws.{ReadingsAreWellFormed};
ghost use Rattle.land_wire.specs.Laws.{RequestMomentsAreValid, FieldNamesIgnoreCase, QueryMomentsAreValid};
ghost use Rattle.land_wire.specs.Laws.{DoneTexts, NumbersTexts, TextsDetermineReplies, ShortTexts};
ghost use Rattle.land_wire.specs.Laws.{ObjectTexts};

/// Each request that was read is within the limits of its fields.
pub fn readings_are_well_formed()
    ensures { ReadingsAreWellFormed }
{
    land_wire_json::bodies::laws::readings_are_well_formed();
}

/// The body of a GET is ignored.
pub fn bodies_of_reads_are_ignored()
    ensures { BodiesOfReadsAreIgnored }
{}

/// A request that was read has the method GET or POST: only a POST requests an act, and it requests nothing
/// else.
pub fn posts_are_acts()
    ensures gets { GetsDoNothing }
    ensures others { OtherMethodsRequestActs }
{}

/// The moment in a query is valid, and so is the moment of a request.
pub fn stated_moments_are_valid()
    ensures queries { QueryMomentsAreValid }
    ensures requests { RequestMomentsAreValid }
{}

/// Names of fields are compared without case.
pub fn field_names_ignore_case()
    ensures { FieldNamesIgnoreCase }
{}

/// The texts of replies that contain one number.
pub fn short_replies_have_plain_texts()
    ensures { ShortTexts }
{}

/// The texts of lists of numbers.
pub fn lists_have_plain_texts()
    ensures { NumbersTexts }
{}

/// The texts of receipts of acts.
pub fn done_replies_have_plain_texts()
    ensures { DoneTexts }
{}

/// The text of a reply with an object contains the text of that object.
pub fn objects_have_plain_texts()
    ensures { ObjectTexts }
{}

/// A text determines its reply, if the reply is within its limits.
pub fn texts_determine_replies()
    ensures { TextsDetermineReplies }
{
    land_shape::laws::printed_rings();
}

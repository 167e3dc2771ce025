//! Laws of the definitions. Calling a function here gives its law as a fact; it does nothing else.

ghost use Rattle.land_shape.specs.Laws.{PrintedLaw, OneAnswerLaw, OutlineAnswerLaw};
ghost use Rattle.land_shape.specs.Matching.{LiesLaw, MatchingLaw, TestLaw};

/// Proves that the canonical form of a ring denotes that ring and no other.
pub fn printed_rings()
    ensures { PrintedLaw }
{}

/// Proves that a text does not have two results.
pub fn one_answer()
    ensures { OneAnswerLaw }
{}

/// Proves that each text has a result: the ring that it denotes, or a first fault.
pub fn every_text_has_an_answer()
    ensures { OutlineAnswerLaw }
{}

/// Proves that a place lies on an edge if and only if it is a point of the edge.
pub fn places_on_edges()
    ensures { LiesLaw }
{}

/// Proves that lists of rings that match have equal sums of doubled areas.
pub fn matching_chains_have_equal_areas()
    ensures { MatchingLaw }
{}

/// Proves that lists of rings match if and only if the test on their pieces passes.
pub fn matching_by_pieces()
    ensures { TestLaw }
{}

//! Laws, each stated on definitions only.
ghost use Rattle.land_select_queries.specs.Joins.Meaning.{TextsSelect};

/// States that the statement of a selection, on tables that hold a history and with any indexes, returns
/// exactly the numbers of the selection.
pub fn texts_select()
    ensures { TextsSelect }
{}

//! Laws, each stated with definitions only.
ghost use Rattle.land_wire.specs.Routes.Laws.{WordsNameActs, PathsNameResources, PathsNameOneResource};

/// A path has exactly the resource that the rule of fixed words and segments gives.
pub fn paths_name_resources()
    ensures { PathsNameResources }
{}

/// A path identifies at most one resource.
pub fn paths_name_one_thing()
    ensures { PathsNameOneResource }
{}

/// Exactly the word of an act yields that act.
pub fn words_name_acts()
    ensures { WordsNameActs }
{}

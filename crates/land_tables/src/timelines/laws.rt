//! Laws, each over the definitions only.
ghost use Rattle.land_tables.specs.Timelines.Laws.{LastMomentIsTheLastStamp};
ghost use Rattle.land_tables.specs.Timelines.Laws.{ValidHistoriesRepresentTimelines};
ghost use Rattle.land_tables.specs.Timelines.Laws.{OrderDoesNotMatter, ReadingIsTheRegister};
ghost use Rattle.land_tables.specs.Timelines.Laws.{HistoriesRepresentOneTimeline};

use land_core::laws::soundness_by_number;

/// States that versions represent at most one sound timeline, the one that they yield.
pub fn histories_represent_one_timeline()
    ensures { HistoriesRepresentOneTimeline }
{
    soundness_by_number();
}

/// States that versions represent the same timeline in any order.
pub fn order_does_not_matter()
    ensures { OrderDoesNotMatter }
{}

/// States that the current versions at a moment are the register of the timeline that the versions represent.
pub fn reading_is_the_register()
    ensures { ReadingIsTheRegister }
{
    soundness_by_number();
}

/// States that the latest moment is the timeline's last stamp.
pub fn the_last_moment_is_the_last_stamp()
    ensures { LastMomentIsTheLastStamp }
{}

/// States that the versions of a valid history represent a sound timeline, the one that they yield.
pub fn valid_histories_represent_timelines()
    ensures { ValidHistoriesRepresentTimelines }
{}

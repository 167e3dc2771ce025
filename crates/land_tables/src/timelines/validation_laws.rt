//! Laws of validating versions, in any order.
ghost use Rattle.land_tables.specs.Timelines.Judging.{OrderKeepsIntervals, SoundTimelinesAreValid};

use land_core::laws::soundness_by_number;

/// States that versions that represent a sound timeline are a valid history.
pub fn sound_timelines_are_valid()
    ensures { SoundTimelinesAreValid }
{
    soundness_by_number();
}

/// States that the validity of intervals does not depend on their order.
pub fn order_keeps_intervals()
    ensures { OrderKeepsIntervals }
{}

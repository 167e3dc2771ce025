//! Laws, each on definitions only.
ghost use Rattle.land_tables_history.specs.Laws.{ChangesTakeEffect, ChangedHaveEnded, ChangesKeepIntervals};
ghost use Rattle.land_tables_history.specs.Laws.{ChangesKeepThePast, WritesCloseAll};

/// A change leaves the register at all earlier moments unchanged.
pub fn changes_keep_the_past()
    ensures { ChangesKeepThePast }
{}

/// From the stamp of a change on, the register is the one after the change.
pub fn changes_take_effect()
    ensures { ChangesTakeEffect }
{}

/// After a change each lifespan is open, or has ended by its stamp.
pub fn changed_lifespans_have_ended()
    ensures { ChangedHaveEnded }
{}

/// A change and its commit keep all intervals valid.
pub fn changes_keep_intervals()
    ensures { ChangesKeepIntervals }
{}

/// A write of a change of a sound register closes each version that the change ends or replaces.
pub fn writes_close_all()
    ensures { WritesCloseAll }
{}

//! Laws, each stated with definitions only.
ghost use Rattle.land_sheet.specs.Laws.{DatesAreUnique, SheetsAreUnique};

/// A day has exactly one date.
pub fn dates_are_unique()
    ensures { DatesAreUnique }
{}

/// A view has exactly one sheet.
pub fn sheets_are_unique()
    ensures { SheetsAreUnique }
{}

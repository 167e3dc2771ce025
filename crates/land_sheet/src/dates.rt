//! The date of a moment.
ghost use Rattle.std.specs.Prelude.{◌≡◌, ◌≤◌, ◌/◌};
ghost use Rattle.land_core.specs.Numbers.{last_millisecond};
ghost use Rattle.land_sheet.specs.Dates.{IsDateOf, civil_date};

use jiff_core::civil::Date;

/// Returns the date of a moment in UTC. The moment is in Unix milliseconds, at most the last moment of 2099.
/// The day number is the moment divided by the milliseconds of a day, rounded down.
pub fn date_of(moment: u64) -> Date
    requires { moment ≤ last_millisecond }
    ensures { IsDateOf (moment / 86400000) (civil_date result) }
{
    match Date::from_unix_epoch_day((moment / 86_400_000) as i64) {
        Ok(date) => date,
        Err(_) => unreachable!(),
    }
}

//! Words of sheets and extracts.
ghost use Rattle.std.specs.Prelude.{◌≡◌};
ghost use Rattle.land_sheet.specs.Words.{checked_word};

/// Returns `yes` if the shares of a unit are checked, and otherwise `no`.
pub(crate) fn checked_word(checked: bool) -> &'static str
    ensures { result.now ≡ checked_word checked }
{
    if checked { "yes" } else { "no" }
}

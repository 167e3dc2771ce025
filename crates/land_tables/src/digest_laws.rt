//! Laws of the digest of the history in tables, each on definitions only.
ghost use Rattle.land_tables.specs.Digests.{TablesHaveOneText};

use land_digest::laws::{last_stamp_ignores_order, text_ignores_row_order};

/// Histories to which the same tables decode have the same text and the same last stamps.
pub fn tables_have_one_text()
    ensures { TablesHaveOneText }
{
    text_ignores_row_order();
    last_stamp_ignores_order();
}

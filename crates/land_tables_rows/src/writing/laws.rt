//! Laws, each over the definitions only.
ghost use Rattle.land_tables_rows.specs.Writing.Laws.{TableChangesKeepHistory, NewRowsHoldNewRegister};
ghost use Rattle.land_tables_rows.specs.Writing.Laws.{MigratedRegistersAreHeld};

/// States that if one table is rewritten and the others are unchanged, the tables hold the history with the
/// new versions of that table.
pub fn table_changes_keep_history()
    ensures { TableChangesKeepHistory }
{}

/// States that the rows of a new register decode to its history.
pub fn new_rows_hold_new_register()
    ensures { NewRowsHoldNewRegister }
{}

/// States that migrating from schema version 1 to 2 preserves the history, and adds no mandates.
pub fn migrated_registers_are_held()
    ensures { MigratedRegistersAreHeld }
{}

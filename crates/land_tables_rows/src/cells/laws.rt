//! Laws, each over the definitions only.
ghost use Rattle.land_tables_rows.specs.Cells.Laws.{MutationCellsDecode, MutationsReadBack};
ghost use Rattle.land_tables_rows.specs.Cells.Laws.{ParcelCellsDecode};
ghost use Rattle.land_tables_rows.specs.Cells.Laws.{ParcelsReadBack, RrrCellsDecode, RrrsReadBack};
ghost use Rattle.land_tables_rows.specs.Cells.Laws.{WordsAreRead};

/// States that the words of kinds, roles and states decode to their values.
pub fn words_are_read()
    ensures { WordsAreRead }
{}

/// States that a parcel within its limits decodes from its cells.
pub fn parcels_read_back()
    ensures { ParcelsReadBack }
{
    land_wire_json::bodies::laws::outlines_are_answered();
    land_fraction::laws::fractions_stay();
    land_shape::laws::printed_rings();
    land_shape::laws::one_answer();
}

/// States that decoded parcels were written as their cells, and that closing changes the value as it changes
/// the row.
pub fn parcel_cells_decode()
    ensures { ParcelCellsDecode }
{}

/// States that an entry within its limits decodes from its cells: a right, a restriction, a responsibility or
/// a mortgage.
pub fn rrrs_read_back()
    ensures { RrrsReadBack }
{
    land_fraction::laws::fractions_stay();
}

/// States that decoded entries were written as their cells, and that closing changes the value as it changes
/// the row.
pub fn rrr_cells_decode()
    ensures { RrrCellsDecode }
{}

/// States that a mutation within its limits decodes from its cells.
pub fn mutations_read_back()
    ensures { MutationsReadBack }
{
    land_wire_json::bodies::laws::contents_round_trip();
}

/// States that decoded mutations were written as their cells, and that closing changes the value as it
/// changes the row.
pub fn mutation_cells_decode()
    ensures { MutationCellsDecode }
{}

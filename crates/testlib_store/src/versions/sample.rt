//! Sample rows, one per table.
use crate::versions::cell::Cell;
use crate::versions::field::Field;
use crate::versions::table::Table;

/// A row of a table: its cells, and the type of each column.
pub struct Sample {
    pub cells: &'static [Cell],
    pub fields: &'static [Field],
}

const EDITION: Sample = Sample {
    cells: &[Cell::Number(1), Cell::Number(1)],
    fields: &[Field::Natural, Field::Natural],
};

const MOMENT: Sample = Sample {
    cells: &[Cell::Number(1000), Cell::Number(3)],
    fields: &[Field::Moment, Field::Next],
};

const PARTY: Sample = Sample {
    cells: &[
        Cell::Number(2),
        Cell::Words("Anna"),
        Cell::Words("naturalPerson"),
        Cell::Number(1000),
        Cell::Number(1005),
    ],
    fields: &[
        Field::Number,
        Field::Name,
        Field::PartyKind,
        Field::Moment,
        Field::End,
    ],
};

const ROLE: Sample = Sample {
    cells: &[
        Cell::Number(5),
        Cell::Words("notary"),
        Cell::Number(1000),
        Cell::Number(1005),
    ],
    fields: &[Field::Number, Field::Role, Field::Moment, Field::End],
};

const MEMBER: Sample = Sample {
    cells: &[
        Cell::Number(7),
        Cell::Number(2),
        Cell::Number(1),
        Cell::Number(2),
        Cell::Number(1000),
        Cell::Number(1005),
    ],
    fields: &[
        Field::Number,
        Field::Number,
        Field::Numerator,
        Field::Denominator,
        Field::Moment,
        Field::End,
    ],
};

const UNIT: Sample = Sample {
    cells: &[
        Cell::Number(9),
        Cell::Words("Garden"),
        Cell::Number(1),
        Cell::Number(1000),
        Cell::Number(1005),
    ],
    fields: &[
        Field::Number,
        Field::Name,
        Field::Flag,
        Field::Moment,
        Field::End,
    ],
};

const PARCEL: Sample = Sample {
    cells: &[
        Cell::Number(10),
        Cell::Number(9),
        Cell::Words("12"),
        Cell::Words("POLYGON ((7 -3, 7 4, 2 4, 2 -3, 7 -3))"),
        Cell::Number(8),
        Cell::Number(1000),
        Cell::Number(1005),
    ],
    fields: &[
        Field::Number,
        Field::Number,
        Field::Label,
        Field::Outline,
        Field::Number,
        Field::Moment,
        Field::End,
    ],
};

const RIGHT: Sample = Sample {
    cells: &[
        Cell::Number(11),
        Cell::Number(9),
        Cell::Number(2),
        Cell::Words("usufruct"),
        Cell::Number(1),
        Cell::Number(2),
        Cell::Null,
        Cell::Null,
        Cell::Null,
        Cell::Null,
        Cell::Number(8),
        Cell::Number(1000),
        Cell::Number(1005),
    ],
    fields: &[
        Field::Number,
        Field::Number,
        Field::Number,
        Field::Class,
        Field::Numerator,
        Field::Denominator,
        Field::Unused,
        Field::Unused,
        Field::Unused,
        Field::Unused,
        Field::Number,
        Field::Moment,
        Field::End,
    ],
};

const BURDEN: Sample = Sample {
    cells: &[
        Cell::Number(13),
        Cell::Number(9),
        Cell::Number(2),
        Cell::Words("restriction"),
        Cell::Null,
        Cell::Null,
        Cell::Null,
        Cell::Null,
        Cell::Null,
        Cell::Words("Right of way"),
        Cell::Number(8),
        Cell::Number(1000),
        Cell::Number(1005),
    ],
    fields: &[
        Field::Number,
        Field::Number,
        Field::Number,
        Field::Class,
        Field::Unused,
        Field::Unused,
        Field::Unused,
        Field::Unused,
        Field::Unused,
        Field::Name,
        Field::Number,
        Field::Moment,
        Field::End,
    ],
};

const MORTGAGE: Sample = Sample {
    cells: &[
        Cell::Number(16),
        Cell::Number(9),
        Cell::Number(4),
        Cell::Words("mortgage"),
        Cell::Null,
        Cell::Null,
        Cell::Number(25_000_000),
        Cell::Words("EUR"),
        Cell::Number(1),
        Cell::Null,
        Cell::Number(14),
        Cell::Number(1000),
        Cell::Number(1005),
    ],
    fields: &[
        Field::Number,
        Field::Number,
        Field::Number,
        Field::Class,
        Field::Unused,
        Field::Unused,
        Field::Amount,
        Field::Currency,
        Field::Natural,
        Field::Unused,
        Field::Number,
        Field::Moment,
        Field::End,
    ],
};

const SOURCE: Sample = Sample {
    cells: &[
        Cell::Number(8),
        Cell::Words("administrative"),
        Cell::Words("Deed"),
        Cell::Number(1000),
        Cell::Number(1005),
    ],
    fields: &[
        Field::Number,
        Field::SourceKind,
        Field::Name,
        Field::Moment,
        Field::End,
    ],
};

const MUTATION: Sample = Sample {
    cells: &[
        Cell::Number(18),
        Cell::Number(4),
        Cell::Words("D-1"),
        Cell::Number(17),
        Cell::Number(999),
        Cell::Words("discharge"),
        Cell::Words(r#"{"mortgage":16,"unit":9}"#),
        Cell::Words("lodged"),
        Cell::Number(1000),
        Cell::Number(1005),
    ],
    fields: &[
        Field::Number,
        Field::Number,
        Field::Label,
        Field::Number,
        Field::Moment,
        Field::Act,
        Field::Content,
        Field::State,
        Field::Moment,
        Field::End,
    ],
};

const NAMING: Sample = Sample {
    cells: &[
        Cell::Number(18),
        Cell::Number(9),
        Cell::Number(1000),
        Cell::Number(1005),
    ],
    fields: &[Field::Number, Field::Number, Field::Moment, Field::End],
};

const MANDATE: Sample = Sample {
    cells: &[
        Cell::Number(2),
        Cell::Number(5),
        Cell::Number(1000),
        Cell::Number(1005),
    ],
    fields: &[Field::Number, Field::Number, Field::Moment, Field::End],
};

/// Returns the sample row of a table.
pub fn sample_of(table: Table) -> &'static Sample {
    match table {
        Table::Edition => &EDITION,
        Table::Moments => &MOMENT,
        Table::Party => &PARTY,
        Table::Role => &ROLE,
        Table::Member => &MEMBER,
        Table::Unit => &UNIT,
        Table::Parcel => &PARCEL,
        Table::Right => &RIGHT,
        Table::Burden => &BURDEN,
        Table::Mortgage => &MORTGAGE,
        Table::Source => &SOURCE,
        Table::Mutation => &MUTATION,
        Table::Names => &NAMING,
        Table::Mandate => &MANDATE,
    }
}

//! The columns of rows, with valid and wrong values of each.
use crate::versions::cell::Cell;

/// The type of a column.
#[derive(Clone, Copy)]
pub enum Field {
    /// An integer from 0.
    Natural,
    /// The number of an object.
    Number,
    /// The number of the next new object.
    Next,
    /// A moment.
    Moment,
    /// The end of a lifespan.
    End,
    /// A truth value.
    Flag,
    /// A name, a title or words.
    Name,
    /// A label or a reference.
    Label,
    /// The kind of a party.
    PartyKind,
    /// A role.
    Role,
    /// The class of an entry.
    Class,
    /// The kind of a source.
    SourceKind,
    /// The state of a mutation.
    State,
    /// The act of a mutation.
    Act,
    /// The content of a discharge.
    Content,
    /// An outline.
    Outline,
    /// The numerator of 1/2.
    Numerator,
    /// The denominator of 1/2.
    Denominator,
    /// The amount of a mortgage.
    Amount,
    /// The currency of a mortgage.
    Currency,
    /// A column that the class of an entry does not use.
    Unused,
}

/// A value, and the number of its fault in a column, or 0 if it is valid.
pub struct Value(pub Cell, pub u16);

/// Values that are not an integer from 0, regardless of the range.
const NATURALS: &[Value] = &[
    Value(Cell::Null, 131),
    Value(Cell::Real, 131),
    Value(Cell::Blob, 131),
    Value(Cell::Broken, 131),
    Value(Cell::Words("2"), 131),
    Value(Cell::Words(""), 131),
    Value(Cell::Number(-1), 132),
    Value(Cell::Number(-9_223_372_036_854_775_808), 132),
    Value(Cell::Number(1), 0),
];

const NUMBERS: &[Value] = &[
    Value(Cell::Null, 131),
    Value(Cell::Real, 131),
    Value(Cell::Words("2"), 131),
    Value(Cell::Number(-2), 132),
    Value(Cell::Number(0), 132),
    Value(Cell::Number(1), 0),
    Value(Cell::Number(1_000_000_000), 0),
    Value(Cell::Number(1_000_000_001), 132),
    Value(Cell::Number(9_223_372_036_854_775_807), 132),
];

const NEXTS: &[Value] = &[
    Value(Cell::Null, 131),
    Value(Cell::Words("2"), 131),
    Value(Cell::Number(-2), 132),
    Value(Cell::Number(1), 132),
    Value(Cell::Number(2), 0),
    Value(Cell::Number(1_000_000_001), 0),
    Value(Cell::Number(1_000_000_002), 132),
];

const MOMENTS: &[Value] = &[
    Value(Cell::Null, 131),
    Value(Cell::Real, 131),
    Value(Cell::Words("1970-01-01"), 131),
    Value(Cell::Number(-1), 132),
    Value(Cell::Number(0), 0),
    Value(Cell::Number(4_102_444_799_999), 0),
    Value(Cell::Number(4_102_444_800_000), 132),
];

const ENDS: &[Value] = &[
    Value(Cell::Null, 131),
    Value(Cell::Real, 131),
    Value(Cell::Words("2100-01-01"), 131),
    Value(Cell::Number(-1), 132),
    Value(Cell::Number(4_102_444_799_999), 0),
    Value(Cell::Number(4_102_444_800_000), 0),
    Value(Cell::Number(4_102_444_800_001), 132),
];

const FLAGS: &[Value] = &[
    Value(Cell::Null, 131),
    Value(Cell::Words("true"), 131),
    Value(Cell::Number(-1), 132),
    Value(Cell::Number(0), 0),
    Value(Cell::Number(1), 0),
    Value(Cell::Number(2), 132),
];

/// 40 letters of two bytes each.
const FORTY: &str = "ÄÄÄÄÄÄÄÄÄÄÄÄÄÄÄÄÄÄÄÄÄÄÄÄÄÄÄÄÄÄÄÄÄÄÄÄÄÄÄÄ";

/// 41 letters.
const FORTY_ONE: &str = "AAAAAAAAAAAAAAAAAAAAAAAAAAAAAAAAAAAAAAAAA";

/// 200 letters of two bytes each.
const TWO_HUNDRED: &str = "ÄÄÄÄÄÄÄÄÄÄÄÄÄÄÄÄÄÄÄÄÄÄÄÄÄÄÄÄÄÄÄÄÄÄÄÄÄÄÄÄÄÄÄÄÄÄÄÄÄÄ\
    ÄÄÄÄÄÄÄÄÄÄÄÄÄÄÄÄÄÄÄÄÄÄÄÄÄÄÄÄÄÄÄÄÄÄÄÄÄÄÄÄÄÄÄÄÄÄÄÄÄÄ\
    ÄÄÄÄÄÄÄÄÄÄÄÄÄÄÄÄÄÄÄÄÄÄÄÄÄÄÄÄÄÄÄÄÄÄÄÄÄÄÄÄÄÄÄÄÄÄÄÄÄÄ\
    ÄÄÄÄÄÄÄÄÄÄÄÄÄÄÄÄÄÄÄÄÄÄÄÄÄÄÄÄÄÄÄÄÄÄÄÄÄÄÄÄÄÄÄÄÄÄÄÄÄÄ";

/// 201 letters.
const TWO_HUNDRED_ONE: &str = "AAAAAAAAAAAAAAAAAAAAAAAAAAAAAAAAAAAAAAAAAAAAAAAAAA\
    AAAAAAAAAAAAAAAAAAAAAAAAAAAAAAAAAAAAAAAAAAAAAAAAAA\
    AAAAAAAAAAAAAAAAAAAAAAAAAAAAAAAAAAAAAAAAAAAAAAAAAA\
    AAAAAAAAAAAAAAAAAAAAAAAAAAAAAAAAAAAAAAAAAAAAAAAAAAA";

const NAMES: &[Value] = &[
    Value(Cell::Null, 131),
    Value(Cell::Number(2), 131),
    Value(Cell::Blob, 131),
    Value(Cell::Broken, 133),
    Value(Cell::Words(""), 133),
    Value(Cell::Words("A\u{1f}"), 133),
    Value(Cell::Words("A\u{7f}"), 133),
    Value(Cell::Words(TWO_HUNDRED_ONE), 133),
    Value(Cell::Words(TWO_HUNDRED), 0),
    Value(Cell::Words("A"), 0),
];

const LABELS: &[Value] = &[
    Value(Cell::Null, 131),
    Value(Cell::Number(12), 131),
    Value(Cell::Blob, 131),
    Value(Cell::Broken, 133),
    Value(Cell::Words(""), 133),
    Value(Cell::Words("A\n"), 133),
    Value(Cell::Words(FORTY_ONE), 133),
    Value(Cell::Words(FORTY), 0),
    Value(Cell::Words("A"), 0),
];

const PARTY_KINDS: &[Value] = &[
    Value(Cell::Null, 131),
    Value(Cell::Number(1), 131),
    Value(Cell::Broken, 133),
    Value(Cell::Words(""), 133),
    Value(Cell::Words("NaturalPerson"), 133),
    Value(Cell::Words("group "), 133),
    Value(Cell::Words("group"), 0),
];

const ROLES: &[Value] = &[
    Value(Cell::Null, 131),
    Value(Cell::Number(1), 131),
    Value(Cell::Broken, 133),
    Value(Cell::Words(""), 134),
    Value(Cell::Words("banker"), 134),
    Value(Cell::Words("Bank"), 134),
    Value(Cell::Words("bank"), 0),
];

/// Classes other than a right use other columns.
const CLASSES: &[Value] = &[
    Value(Cell::Null, 131),
    Value(Cell::Number(1), 131),
    Value(Cell::Broken, 133),
    Value(Cell::Words(""), 133),
    Value(Cell::Words("Mortgage"), 133),
    Value(Cell::Words("rent"), 133),
];

const SOURCE_KINDS: &[Value] = &[
    Value(Cell::Null, 131),
    Value(Cell::Number(1), 131),
    Value(Cell::Broken, 133),
    Value(Cell::Words(""), 133),
    Value(Cell::Words("Spatial"), 133),
    Value(Cell::Words("spatial"), 0),
];

const STATES: &[Value] = &[
    Value(Cell::Null, 131),
    Value(Cell::Number(1), 131),
    Value(Cell::Broken, 133),
    Value(Cell::Words(""), 133),
    Value(Cell::Words("Lodged"), 133),
    Value(Cell::Words("approved"), 0),
];

/// Acts other than a discharge have other fields.
const ACTS: &[Value] = &[
    Value(Cell::Null, 131),
    Value(Cell::Number(1), 131),
    Value(Cell::Broken, 133),
    Value(Cell::Words(""), 133),
    Value(Cell::Words("Discharge"), 133),
    Value(Cell::Words("enrol"), 133),
];

const CONTENTS: &[Value] = &[
    Value(Cell::Null, 131),
    Value(Cell::Number(1), 131),
    Value(Cell::Broken, 133),
    Value(Cell::Words(""), 130),
    Value(Cell::Words(r#"{"mortgage":16,"unit":9"#), 130),
    Value(Cell::Words("[]"), 131),
    Value(Cell::Words(r#"{"mortgage":16}"#), 131),
    Value(Cell::Words(r#"{"mortgage":16,"right":12,"unit":9}"#), 131),
    Value(Cell::Words(r#"{"mortgage":16,"unit":"9"}"#), 131),
    Value(Cell::Words(r#"{"mortgage":0,"unit":9}"#), 132),
    Value(Cell::Words(r#"{"mortgage":16,"unit":9.0}"#), 132),
    Value(Cell::Words(r#"{"mortgage":1,"unit":1000000000}"#), 0),
];

/// 202 points.
const MANY_POINTS: &str =
    "POLYGON ((0 0,0 0,0 0,0 0,0 0,0 0,0 0,0 0,0 0,0 0,0 0,0 0,0 0,0 0,0 0,0 0,0 0,0 0,0 0,0 0,0 0,0 0,\
    0 0,0 0,0 0,0 0,0 0,0 0,0 0,0 0,0 0,0 0,0 0,0 0,0 0,0 0,0 0,0 0,0 0,0 0,0 0,0 0,0 0,0 0,0 0,0 0,\
    0 0,0 0,0 0,0 0,0 0,0 0,0 0,0 0,0 0,0 0,0 0,0 0,0 0,0 0,0 0,0 0,0 0,0 0,0 0,0 0,0 0,0 0,0 0,0 0,\
    0 0,0 0,0 0,0 0,0 0,0 0,0 0,0 0,0 0,0 0,0 0,0 0,0 0,0 0,0 0,0 0,0 0,0 0,0 0,0 0,0 0,0 0,0 0,0 0,\
    0 0,0 0,0 0,0 0,0 0,0 0,0 0,0 0,0 0,0 0,0 0,0 0,0 0,0 0,0 0,0 0,0 0,0 0,0 0,0 0,0 0,0 0,0 0,0 0,\
    0 0,0 0,0 0,0 0,0 0,0 0,0 0,0 0,0 0,0 0,0 0,0 0,0 0,0 0,0 0,0 0,0 0,0 0,0 0,0 0,0 0,0 0,0 0,0 0,\
    0 0,0 0,0 0,0 0,0 0,0 0,0 0,0 0,0 0,0 0,0 0,0 0,0 0,0 0,0 0,0 0,0 0,0 0,0 0,0 0,0 0,0 0,0 0,0 0,\
    0 0,0 0,0 0,0 0,0 0,0 0,0 0,0 0,0 0,0 0,0 0,0 0,0 0,0 0,0 0,0 0,0 0,0 0,0 0,0 0,0 0,0 0,0 0,0 0,\
    0 0,0 0,0 0,0 0,0 0,0 0,0 0,0 0,0 0,0 0,0 0,0 0))";

const OUTLINES: &[Value] = &[
    Value(Cell::Null, 131),
    Value(Cell::Number(1), 131),
    Value(Cell::Blob, 131),
    Value(Cell::Broken, 133),
    Value(Cell::Words(""), 110),
    Value(Cell::Words("POINT (0 0)"), 110),
    Value(Cell::Words("POLYGON EMPTY"), 111),
    Value(
        Cell::Words("POLYGON ((0 0, 4 0, 0 4, 0 0), (1 1, 2 1, 1 2, 1 1))"),
        112,
    ),
    Value(Cell::Words("POLYGON Z ((0 0, 1 0, 0 1, 0 0))"), 113),
    Value(Cell::Words("POLYGON ((1e3 0, 0 1, 1 1, 1e3 0))"), 114),
    Value(Cell::Words("POLYGON ((0 0, 10000000001 0, 0 1, 0 0))"), 115),
    Value(Cell::Words("POLYGON ((0 0, 1 0, 0 0))"), 116),
    Value(Cell::Words(MANY_POINTS), 117),
    Value(Cell::Words("POLYGON ((0 0, 1 0, 0 1, 1 1))"), 118),
    Value(Cell::Words("POLYGON ((0 0, 2 2, 2 0, 0 2, 0 0))"), 119),
    Value(
        Cell::Words("POLYGON ((0 0, 1000000001 0, 0 1000000000, 0 0))"),
        120,
    ),
    Value(Cell::Words("POLYGON ((0 0, 1 0, 0 1, 0 0))"), 0),
];

/// With the denominator 2.
const NUMERATORS: &[Value] = &[
    Value(Cell::Null, 131),
    Value(Cell::Real, 131),
    Value(Cell::Words("1"), 131),
    Value(Cell::Number(-1), 132),
    Value(Cell::Number(0), 101),
    Value(Cell::Number(2), 0),
    Value(Cell::Number(3), 102),
];

/// With the numerator 1.
const DENOMINATORS: &[Value] = &[
    Value(Cell::Null, 131),
    Value(Cell::Real, 131),
    Value(Cell::Words("2"), 131),
    Value(Cell::Number(-2), 132),
    Value(Cell::Number(0), 101),
    Value(Cell::Number(1), 0),
    Value(Cell::Number(1_000_000_000), 0),
    Value(Cell::Number(1_000_000_001), 103),
];

const AMOUNTS: &[Value] = &[
    Value(Cell::Null, 131),
    Value(Cell::Real, 131),
    Value(Cell::Words("1"), 131),
    Value(Cell::Number(-1), 132),
    Value(Cell::Number(0), 132),
    Value(Cell::Number(1), 0),
    Value(Cell::Number(1_000_000_000_000_000), 0),
    Value(Cell::Number(1_000_000_000_000_001), 132),
];

const CURRENCIES: &[Value] = &[
    Value(Cell::Null, 131),
    Value(Cell::Number(978), 131),
    Value(Cell::Broken, 133),
    Value(Cell::Words(""), 133),
    Value(Cell::Words("EU"), 133),
    Value(Cell::Words("EURO"), 133),
    Value(Cell::Words("eur"), 133),
    Value(Cell::Words("AZ@"), 133),
    Value(Cell::Words("AZ["), 133),
    Value(Cell::Words("AZZ"), 0),
];

/// Only NULL is valid, neither 0 nor the empty text.
const NOTHING: &[Value] = &[
    Value(Cell::Number(0), 131),
    Value(Cell::Number(1), 131),
    Value(Cell::Real, 131),
    Value(Cell::Blob, 131),
    Value(Cell::Words(""), 131),
    Value(Cell::Null, 0),
];

/// Returns valid and wrong values of a column.
pub fn values_of(field: Field) -> &'static [Value] {
    match field {
        Field::Natural => NATURALS,
        Field::Number => NUMBERS,
        Field::Next => NEXTS,
        Field::Moment => MOMENTS,
        Field::End => ENDS,
        Field::Flag => FLAGS,
        Field::Name => NAMES,
        Field::Label => LABELS,
        Field::PartyKind => PARTY_KINDS,
        Field::Role => ROLES,
        Field::Class => CLASSES,
        Field::SourceKind => SOURCE_KINDS,
        Field::State => STATES,
        Field::Act => ACTS,
        Field::Content => CONTENTS,
        Field::Outline => OUTLINES,
        Field::Numerator => NUMERATORS,
        Field::Denominator => DENOMINATORS,
        Field::Amount => AMOUNTS,
        Field::Currency => CURRENCIES,
        Field::Unused => NOTHING,
    }
}

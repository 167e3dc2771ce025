//! Rows with the same value in different representations.
use crate::versions::cell::{Cell, row_except};
use crate::versions::sample::sample_of;
use crate::versions::table::Table;
use land_core::content::Content;
use land_core::kind::PartyKind;
use land_core::mandates::Mandate;
use land_core::mutation::{MutationRecord, MutationState};
use land_core::parcel::ParcelRecord;
use land_core::party::PartyRecord;
use land_core::role::Role;
use land_core::roles::Grant;
use land_core::rrr::{Class, RightType, RrrRecord};
use land_core::source::{SourceKind, SourceRecord};
use land_core::unit::UnitRecord;
use land_fraction::Fraction;
use land_shape::Point;
use land_tables_history::group_member::GroupMember;
use land_tables_history::moment::Moment;
use land_tables_history::naming::Naming;
use land_tables_history::version::Version;
use land_tables_rows::edition::reading::Edition;
use land_tables_rows::reading::from_row::FromRow;
use land_wire_json::bodies::wire_fault::WireFault;
use sqlite::{Alter, Connection, Error, Row};
use std::alloc::{AllocError, Global};
use testlib_scenario::stop::{Stop, expect};

/// Returns the decoded sample of a table.
trait Expected: FromRow {
    fn is_expected(&self) -> bool;
}

/// Returns whether a version has the lifespan of the samples.
fn lasts<X>(version: &Version<X>) -> bool {
    version.since == 1000 && version.until == 1005
}

fn is_half(share: Fraction) -> bool {
    share.numerator() == 1 && share.denominator() == 2
}

/// The corners of the sample, counterclockwise.
const CORNERS: &[(i64, i64)] = &[(7, -3), (7, 4), (2, 4), (2, -3)];

fn are_corners(points: &[Point]) -> bool {
    for (point, (x, y)) in points.iter().zip(CORNERS) {
        if point.x != *x || point.y != *y {
            return false;
        }
    }
    points.len() == 4
}

impl Expected for Edition {
    fn is_expected(&self) -> bool {
        self.id == 1 && self.version == 1
    }
}

impl Expected for Moment {
    fn is_expected(&self) -> bool {
        self.stamp == 1000 && self.next == 3
    }
}

impl Expected for Version<(u64, PartyRecord)> {
    fn is_expected(&self) -> bool {
        let (number, party) = &self.what;
        lasts(self)
            && *number == 2
            && party.name.as_str() == "Anna"
            && party.kind == PartyKind::NaturalPerson
    }
}

impl Expected for Version<Grant> {
    fn is_expected(&self) -> bool {
        lasts(self) && self.what.party == 5 && self.what.role == Role::Notary
    }
}

impl Expected for Version<GroupMember> {
    fn is_expected(&self) -> bool {
        lasts(self)
            && self.what.group == 7
            && self.what.member.party == 2
            && is_half(self.what.member.share)
    }
}

impl Expected for Version<(u64, UnitRecord)> {
    fn is_expected(&self) -> bool {
        let (number, unit) = &self.what;
        lasts(self) && *number == 9 && unit.name.as_str() == "Garden" && unit.checked
    }
}

impl Expected for Version<(u64, ParcelRecord)> {
    fn is_expected(&self) -> bool {
        let (number, parcel) = &self.what;
        lasts(self)
            && *number == 10
            && parcel.unit == 9
            && parcel.label.as_str() == "12"
            && are_corners(parcel.outline.points())
            && parcel.source == 8
    }
}

fn is_mortgage(amount: u64, currency: &str, rank: u64) -> bool {
    amount == 25_000_000 && currency == "EUR" && rank == 1
}

/// Returns whether an entry of this number has this class.
fn is_class(number: u64, class: &Class) -> bool {
    match class {
        Class::Right { right_type, share } => {
            number == 11 && *right_type == RightType::Usufruct && is_half(*share)
        }
        Class::Restriction { words } => number == 13 && words.as_str() == "Right of way",
        Class::Responsibility { .. } => false,
        Class::Mortgage {
            amount,
            currency,
            rank,
        } => number == 16 && is_mortgage(*amount, currency.as_str(), *rank),
    }
}

/// Returns whether an entry of this number has this party and this source.
fn is_of(number: u64, party: u64, source: u64) -> bool {
    if number == 16 {
        party == 4 && source == 14
    } else {
        party == 2 && source == 8
    }
}

impl Expected for Version<(u64, RrrRecord)> {
    fn is_expected(&self) -> bool {
        let (number, entry) = &self.what;
        lasts(self)
            && entry.unit == 9
            && is_class(*number, &entry.class)
            && is_of(*number, entry.party, entry.source)
    }
}

impl Expected for Version<(u64, SourceRecord)> {
    fn is_expected(&self) -> bool {
        let (number, source) = &self.what;
        lasts(self)
            && *number == 8
            && source.kind == SourceKind::Administrative
            && source.title.as_str() == "Deed"
    }
}

fn is_content(content: &Content) -> bool {
    match content {
        Content::Discharge(it) => it.unit == 9 && it.mortgage == 16,
        _ => false,
    }
}

fn is_mutation(mutation: &MutationRecord) -> bool {
    mutation.lodger == 4
        && mutation.reference.as_str() == "D-1"
        && mutation.source == 17
        && mutation.lodged == 999
        && mutation.state == MutationState::Lodged
        && is_content(&mutation.content)
}

impl Expected for Version<(u64, MutationRecord)> {
    fn is_expected(&self) -> bool {
        let (number, mutation) = &self.what;
        lasts(self) && *number == 18 && is_mutation(mutation)
    }
}

impl Expected for Version<Naming> {
    fn is_expected(&self) -> bool {
        lasts(self) && self.what.mutation == 18 && self.what.unit == 9
    }
}

impl Expected for Version<Mandate> {
    fn is_expected(&self) -> bool {
        lasts(self) && self.what.principal == 2 && self.what.agent == 5
    }
}

/// Returns whether a row decodes, as `X`, to the same value as the sample.
fn says<X: Expected>(alloc: Global, row: &Row) -> Result<bool, AllocError> {
    match X::from_row(alloc, row) {
        Ok(it) => Ok(it.is_expected()),
        Err(WireFault::NoMemory) => Err(AllocError),
        Err(_) => Ok(false),
    }
}

/// Returns whether a row of a table decodes to the same value as the sample.
fn decodes_to_sample(alloc: Global, table: Table, row: &Row) -> Result<bool, AllocError> {
    match table {
        Table::Edition => says::<Edition>(alloc, row),
        Table::Moments => says::<Moment>(alloc, row),
        Table::Party => says::<Version<(u64, PartyRecord)>>(alloc, row),
        Table::Role => says::<Version<Grant>>(alloc, row),
        Table::Member => says::<Version<GroupMember>>(alloc, row),
        Table::Unit => says::<Version<(u64, UnitRecord)>>(alloc, row),
        Table::Parcel => says::<Version<(u64, ParcelRecord)>>(alloc, row),
        Table::Right | Table::Burden | Table::Mortgage => {
            says::<Version<(u64, RrrRecord)>>(alloc, row)
        }
        Table::Source => says::<Version<(u64, SourceRecord)>>(alloc, row),
        Table::Mutation => says::<Version<(u64, MutationRecord)>>(alloc, row),
        Table::Names => says::<Version<Naming>>(alloc, row),
        Table::Mandate => says::<Version<Mandate>>(alloc, row),
    }
}

/// A table, and other representations of the values in some columns of its sample.
struct Spelling(Table, &'static [(usize, Cell)]);

const SPELLINGS: &[Spelling] = &[
    Spelling(Table::Edition, &[]),
    Spelling(Table::Moments, &[]),
    Spelling(Table::Party, &[]),
    Spelling(Table::Role, &[]),
    Spelling(Table::Member, &[]),
    Spelling(Table::Unit, &[]),
    Spelling(Table::Parcel, &[]),
    Spelling(Table::Right, &[]),
    Spelling(Table::Burden, &[]),
    Spelling(Table::Mortgage, &[]),
    Spelling(Table::Source, &[]),
    Spelling(Table::Mutation, &[]),
    Spelling(Table::Names, &[]),
    Spelling(Table::Mandate, &[]),
    // 2/4, and a half with numerator and denominator above the bound
    Spelling(Table::Member, &[(2, Cell::Number(2)), (3, Cell::Number(4))]),
    Spelling(Table::Right, &[(4, Cell::Number(2)), (5, Cell::Number(4))]),
    Spelling(
        Table::Right,
        &[
            (4, Cell::Number(2_000_000_000)),
            (5, Cell::Number(4_000_000_000)),
        ],
    ),
    // clockwise, in other letters and with other digits
    Spelling(
        Table::Parcel,
        &[(3, Cell::Words("polygon((7.0 -3,+2 -3,2 04,7 4,7 -3))"))],
    ),
    // with spaces, and its keys in another order
    Spelling(
        Table::Mutation,
        &[(6, Cell::Words(" { \"unit\" : 9 ,\n\"mortgage\" : 16 } "))],
    ),
];

/// Returns whether a row decodes to the sample of its table.
fn is_read<S: Alter>(
    alloc: Global,
    conn: &mut Connection<S>,
    spelling: &Spelling,
) -> Result<bool, Error> {
    let row = row_except(conn, sample_of(spelling.0).cells, spelling.1, &[])?;
    Ok(decodes_to_sample(alloc, spelling.0, &row)?)
}

/// Rows with the same value decode alike, in any representation.
pub fn representations_decode_alike(alloc: Global) -> Result<(), Stop> {
    let mut conn = Connection::open_in_memory(alloc)?;
    for (place, spelling) in SPELLINGS.iter().enumerate() {
        expect(is_read(alloc, &mut conn, spelling)?, "row", place)?;
    }
    Ok(())
}

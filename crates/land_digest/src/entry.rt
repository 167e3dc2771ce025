//! Events by reference: an entry refers to the record whose values it writes.
ghost use Rattle.std.specs.Prelude.{◌≡◌};

use land_core::mutation::MutationRecord;
use land_core::parcel::ParcelRecord;
use land_core::party::PartyRecord;
use land_core::rrr::RrrRecord;
use land_core::source::SourceRecord;
use land_core::unit::UnitRecord;
use land_fraction::Fraction;

/// The values of a row that starts; a row that ends has none.
#[derive(Clone, Copy)]
pub enum Values<'a> {
    /// No value: the row has only its key, or it ends.
    Nothing,
    /// Of a moment: the number of the next new object.
    Moment(u64),
    /// Of a party.
    Party(&'a PartyRecord),
    /// Of a member of a group.
    Share(&'a Fraction),
    /// Of a unit.
    Unit(&'a UnitRecord),
    /// Of a parcel.
    Parcel(&'a ParcelRecord),
    /// Of an entry of a unit.
    Rrr(&'a RrrRecord),
    /// Of a source.
    Source(&'a SourceRecord),
    /// Of a mutation.
    Mutation(&'a MutationRecord),
}

/// A row of a table starts or ends at a stamp.
#[derive(Clone, Copy)]
pub struct Entry<'a> {
    /// The place in the order: the stamp, 0 for a start or 1 for an end, the number of the table, and the
    /// two numbers of the key.
    pub place: (i64, u8, u8, u64, u64),
    /// The values.
    pub values: Values<'a>,
}

impl<'a> Entry<'a> {
    /// Returns the place in the order.
    pub fn place(&self) -> (i64, u8, u8, u64, u64)
        ensures { result ≡ self.now.place }
    {
        self.place
    }
}

//! Random values for the marks of a draft, from the current objects.
use crate::random::dice::Dice;
use land_core::caller::Caller;
use land_core::kind::Kind;
use land_core::object::Object;
use land_core::parcel::Parcel;
use land_core::role::Role;
use land_keep::keeper::Keeper;
use std::alloc::Global;
use testlib_scenario::stop::Stop;

/// The office, which sees everything.
pub const OFFICE: Caller = Caller {
    party: 1,
    role: Role::StateAdministrator,
};

/// The words of roles.
const WORDS: &[&str] = &[
    "citizen",
    "conveyancer",
    "notary",
    "bank",
    "certifiedSurveyor",
    "stateAdministrator",
];

/// The random values. A number is 1 if no object exists that it could refer to.
#[derive(Clone, Copy)]
pub struct Drawn {
    party: u64,
    other: u64,
    unit: u64,
    entry: Holding,
    mutation: u64,
    parcel: Holding,
    next: Holding,
    part: u64,
    fresh: u64,
    moment: u64,
    pub role: &'static str,
}

/// An entry or a parcel: its number, its unit, and for a parcel the left edge and half the width.
#[derive(Clone, Copy)]
struct Holding {
    number: u64,
    unit: u64,
    left: u64,
    half: u64,
}

impl Holding {
    /// Returns the middle of a parcel.
    fn middle(&self) -> u64 {
        self.left.saturating_add(self.half)
    }

    /// Returns the right edge of a parcel.
    fn right(&self) -> u64 {
        self.middle().saturating_add(self.half)
    }
}

impl Drawn {
    /// Returns the number for a mark, if it has one.
    pub fn number(&self, mark: char) -> Option<u64> {
        match mark {
            '@' => Some(self.party),
            '&' => Some(self.other),
            '#' => Some(self.unit),
            '$' => Some(self.entry.number),
            '~' => Some(self.entry.unit),
            '%' => Some(self.mutation),
            '*' => Some(self.part),
            ';' => Some(self.fresh),
            '|' => Some(self.moment),
            _ => self.of_parcels(mark),
        }
    }

    /// Returns the number for a mark of parcels, if it is one.
    fn of_parcels(&self, mark: char) -> Option<u64> {
        match mark {
            '!' => Some(self.parcel.number),
            '^' => Some(self.parcel.unit),
            '+' => Some(self.next.number),
            '\'' => Some(self.next.unit),
            '«' => Some(self.parcel.left),
            '<' => Some(self.parcel.middle()),
            '»' => Some(self.parcel.right()),
            '>' => Some(self.next.right()),
            _ => None,
        }
    }
}

/// Returns the numbers of a current object of a kind, later ones more often, and of the one after it; 1 if
/// there is none.
fn two_of<K: Keeper>(
    alloc: Global,
    keeper: &mut K,
    dice: &mut Dice,
    kind: Kind,
) -> Result<(u64, u64), Stop> {
    let last = keeper.last();
    let numbers = keeper.sight(alloc, OFFICE, kind, last)?;
    let numbers = numbers.as_slice();
    let place = dice.place(numbers.len());
    let number = numbers.get(place).copied().unwrap_or(1);
    let next = numbers.get(place.saturating_add(1)).copied().unwrap_or(1);
    Ok((number, next))
}

/// Returns the number of a current object of a kind, later ones more often; 1 if there is none.
fn one_of<K: Keeper>(
    alloc: Global,
    keeper: &mut K,
    dice: &mut Dice,
    kind: Kind,
) -> Result<u64, Stop> {
    let (number, _) = two_of(alloc, keeper, dice, kind)?;
    Ok(number)
}

/// Returns the left edge of a parcel. All parcels are rectangles of one height next to each other, whose
/// outline starts at the left.
fn left_of(parcel: &Parcel) -> u64 {
    match parcel.outline.points().first() {
        Some(point) => u64::try_from(point.x).unwrap_or(0),
        None => 0,
    }
}

/// Returns an object as an entry or a parcel.
fn holding_of(object: &Option<Object>, number: u64) -> Holding {
    let (unit, left, half) = match object {
        Some(Object::Parcel(parcel)) => (
            parcel.unit,
            left_of(parcel),
            parcel.outline.doubled_area() / 40_000,
        ),
        Some(Object::Rrr(entry)) => (entry.unit, 0, 0),
        _ => (1, 0, 0),
    };
    Holding {
        number,
        unit,
        left,
        half,
    }
}

/// Reads the entry or the parcel of a number now.
fn look_up<K: Keeper>(
    alloc: Global,
    keeper: &mut K,
    kind: Kind,
    number: u64,
) -> Result<Holding, Stop> {
    let last = keeper.last();
    let object = keeper.object(alloc, kind, number, last)?;
    Ok(holding_of(&object, number))
}

/// Chooses the values for a request.
pub fn draw<K: Keeper>(
    alloc: Global,
    keeper: &mut K,
    dice: &mut Dice,
    place: u32,
) -> Result<Drawn, Stop> {
    let (party, _) = two_of(alloc, keeper, dice, Kind::Party)?;
    let other = one_of(alloc, keeper, dice, Kind::Party)?;
    let unit = one_of(alloc, keeper, dice, Kind::Unit)?;
    let mutation = one_of(alloc, keeper, dice, Kind::Mutation)?;
    let entry = one_of(alloc, keeper, dice, Kind::Rrr)?;
    let entry = look_up(alloc, keeper, Kind::Rrr, entry)?;
    let (parcel, next) = two_of(alloc, keeper, dice, Kind::Parcel)?;
    let parcel = look_up(alloc, keeper, Kind::Parcel, parcel)?;
    let next = look_up(alloc, keeper, Kind::Parcel, next)?;
    let moment = keeper.last().saturating_sub(i64::from(dice.throw(100)));
    let fresh = if dice.throw(20) == 0 { 1 } else { place };
    Ok(Drawn {
        party,
        other,
        unit,
        entry,
        mutation,
        parcel,
        next,
        part: if dice.throw(8) == 0 { 3 } else { 2 },
        fresh: u64::from(fresh),
        moment: u64::try_from(moment).unwrap_or(0),
        role: word(dice),
    })
}

/// Returns the word of a random role.
fn word(dice: &mut Dice) -> &'static str {
    WORDS
        .get(dice.throw(6) as usize)
        .copied()
        .unwrap_or("citizen")
}

//! The register at each stamp, compared with that of the plain keeper.
use crate::cases::run_scenario::tables_after_more;
use land_core::kind::Kind;
use land_core::object::Object;
use land_core::register::Register;
use land_keep::keeper::Keeper;
use land_keep::plain_keeper::PlainKeeper;
use land_tables::tables::Tables;
use land_wire_json::texts::fields::{new_writer, text_of};
use land_wire_json::texts::object::write_object_json;
use sqlite::Alter;
use std::alloc::{AllocError, Global};
use testlib_scenario::run_scenario::plain_more;
use testlib_scenario::stop::{Stop, expect};

const KINDS: &[Kind] = &[
    Kind::Party,
    Kind::Unit,
    Kind::Parcel,
    Kind::Rrr,
    Kind::Source,
    Kind::Mutation,
];

/// A time, the number of objects at that time, and the number that the next new object takes.
struct At(i64, usize, u64);

/// The stamps of all steps, and times between and after.
const AT: &[At] = &[
    At(0, 1, 2),
    At(999, 1, 2),
    At(1000, 2, 3),
    At(1001, 3, 4),
    At(1002, 4, 5),
    At(1003, 4, 5),
    At(1004, 5, 6),
    At(1005, 5, 6),
    At(1006, 6, 7),
    At(1007, 6, 7),
    At(1008, 7, 8),
    At(1009, 13, 14),
    At(1010, 15, 16),
    At(1011, 16, 17),
    At(1012, 18, 19),
    At(1013, 17, 19),
    At(1014, 19, 21),
    At(1015, 19, 22),
    At(1016, 21, 24),
    At(1017, 26, 30),
    At(1018, 28, 32),
    At(1019, 23, 33),
    At(1020, 25, 35),
    At(1021, 24, 35),
    At(1022, 24, 35),
    At(1023, 24, 35),
    At(1024, 26, 37),
    At(1025, 26, 37),
    At(1026, 28, 39),
    At(1027, 27, 39),
    At(4_102_444_799_999, 27, 39),
];

/// Writes an object in its shown form; the empty string if there is none.
fn text_shown(alloc: Global, object: &Option<Object>) -> Result<String, AllocError> {
    match object {
        Some(object) => {
            let mut out = new_writer(alloc)?;
            write_object_json(alloc, &mut out, object)?;
            Ok(text_of(out))
        }
        None => Ok(String::new(alloc)),
    }
}

/// Writes the object with a number in a register.
fn text_in(alloc: Global, register: &Register, what: (Kind, u64)) -> Result<String, Stop> {
    let object = register.object(alloc, what.0, what.1)?;
    Ok(text_shown(alloc, &object)?)
}

/// Writes the plain keeper's object with that number at a time.
fn text_at(
    alloc: Global,
    plain: &mut PlainKeeper,
    what: (Kind, u64),
    at: i64,
) -> Result<String, Stop> {
    let object = plain.object(alloc, what.0, what.1, at)?;
    Ok(text_shown(alloc, &object)?)
}

/// Checks if the object with a number in a register equals the plain keeper's at a time.
fn is_same(
    alloc: Global,
    register: &Register,
    plain: &mut PlainKeeper,
    what: (Kind, u64),
    at: i64,
) -> Result<bool, Stop> {
    let text = text_in(alloc, register, what)?;
    Ok(text.as_str() == text_at(alloc, plain, what, at)?.as_str())
}

/// Checks if all objects of a kind are equal.
fn are_same(
    alloc: Global,
    register: &Register,
    plain: &mut PlainKeeper,
    kind: Kind,
    at: i64,
) -> Result<bool, Stop> {
    for number in 0..40 {
        if !is_same(alloc, register, plain, (kind, number), at)? {
            return Ok(false);
        }
    }
    Ok(true)
}

/// Checks if all objects are equal.
fn equals_plain(
    alloc: Global,
    register: &Register,
    plain: &mut PlainKeeper,
    at: i64,
) -> Result<bool, Stop> {
    for kind in KINDS {
        if !are_same(alloc, register, plain, *kind, at)? {
            return Ok(false);
        }
    }
    Ok(true)
}

/// Counts the objects in a register.
fn count(register: &Register) -> usize {
    let mut count = 0usize;
    for number in 0..40 {
        for kind in KINDS {
            if register.stands(*kind, number) {
                count = count.saturating_add(1);
            }
        }
    }
    count
}

/// Checks if the register in tables at a time is the plain keeper's, and has the given number of objects.
fn matches_row<S: Alter>(
    alloc: Global,
    tables: &mut Tables<S>,
    plain: &mut PlainKeeper,
    at: &At,
) -> Result<bool, Stop> {
    let register = tables.read_at(alloc, at.0)?;
    Ok(
        equals_plain(alloc, &register, plain, at.0)?
            && count(&register) == at.1
            && register.next == at.2,
    )
}

/// Fails if the tables do not have the plain keeper's register at some time.
fn check_rows<S: Alter>(
    alloc: Global,
    tables: &mut Tables<S>,
    plain: &mut PlainKeeper,
) -> Result<(), Stop> {
    for (place, at) in AT.iter().enumerate() {
        expect(matches_row(alloc, tables, plain, at)?, "moment", place)?;
    }
    Ok(())
}

/// After the scenario and its sequel the tables have the registers of the plain keeper.
pub fn tables_have_the_registers_of_the_plain_keeper(alloc: Global) -> Result<(), Stop> {
    let mut plain = plain_more(alloc)?;
    let mut tables = tables_after_more(alloc)?;
    check_rows(alloc, &mut tables, &mut plain)
}

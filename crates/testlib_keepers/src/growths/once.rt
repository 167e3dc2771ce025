//! A value that a verdict has read is not read again for the reply. Each object and each title sheet is
//! returned first without a verdict, and then after its verdict.
use crate::growths::marks::{mark, mark_end};
use crate::growths::registers::large_tables;
use land_core::ask::Ask;
use land_core::caller::Caller;
use land_core::kind::Kind;
use land_core::role::Role;
use land_keep::keeper::Keeper;
use land_rules::verdict::Verdict;
use land_select::sql_keeper::SqlKeeper;
use std::alloc::Global;
use testlib_scenario::stop::{Stop, expect};

/// The requested view.
#[derive(Clone, Copy)]
enum Shown {
    /// An object of a kind, by its number.
    Object(Kind, u64),
    /// The title sheet of a unit.
    Sheet(u64),
}

/// A view: its name, the caller, its role, and the requested view.
struct Reply(&'static str, u64, Role, Shown);

/// Ben owns the garden, Sam has a lease in it and lodged its subdivision, the bank has a mortgage on it.
const REPLIES: &[Reply] = &[
    Reply(
        "an entry, to an owner",
        3,
        Role::Citizen,
        Shown::Object(Kind::Rrr, 21),
    ),
    Reply(
        "a mutation, to an owner",
        3,
        Role::Citizen,
        Shown::Object(Kind::Mutation, 23),
    ),
    Reply(
        "a parcel, to a lessee",
        6,
        Role::Citizen,
        Shown::Object(Kind::Parcel, 24),
    ),
    Reply(
        "an entry, to a bank",
        4,
        Role::Bank,
        Shown::Object(Kind::Rrr, 21),
    ),
    Reply(
        "an entry, to a notary",
        5,
        Role::Notary,
        Shown::Object(Kind::Rrr, 21),
    ),
    Reply(
        "a unit, to a notary",
        5,
        Role::Notary,
        Shown::Object(Kind::Unit, 9),
    ),
    Reply("a sheet, to an owner", 3, Role::Citizen, Shown::Sheet(9)),
    Reply("a sheet, to a bank", 4, Role::Bank, Shown::Sheet(9)),
    Reply("a sheet, to a notary", 5, Role::Notary, Shown::Sheet(9)),
];

impl Reply {
    /// Returns the caller.
    fn caller(&self) -> Caller {
        Caller {
            party: self.1,
            role: self.2,
        }
    }

    /// Checks if the view is returned now.
    fn has_expected_object<K: Keeper>(&self, alloc: Global, keeper: &mut K) -> Result<bool, Stop> {
        let last = keeper.last();
        match self.3 {
            Shown::Object(kind, number) => Ok(keeper.object(alloc, kind, number, last)?.is_some()),
            Shown::Sheet(unit) => Ok(keeper.view(alloc, self.caller(), unit, last)?.is_some()),
        }
    }

    /// Checks if the view is allowed now.
    fn is_allowed<K: Keeper>(&self, alloc: Global, keeper: &mut K) -> Result<bool, Stop> {
        let last = keeper.last();
        let ask = match self.3 {
            Shown::Object(kind, number) => Ask::View {
                kind,
                number,
                at: None,
            },
            Shown::Sheet(unit) => Ask::Sheet { unit, at: None },
        };
        Ok(keeper.first_denial(alloc, self.caller(), &ask, last)? == Verdict::Allowed)
    }
}

/// Checks that the view is returned without a verdict, once all its SQL statements are planned, and then
/// after its verdict. Prints a line before each.
fn is_shown_once<K: Keeper>(
    rt: &impl Print,
    alloc: Global,
    keeper: &mut K,
    place: usize,
    reply: &Reply,
) -> Result<(), Stop> {
    expect(reply.is_allowed(alloc, keeper)?, reply.0, place)?;
    expect(reply.has_expected_object(alloc, keeper)?, reply.0, place)?;
    expect(reply.has_expected_object(alloc, keeper)?, reply.0, place)?;
    mark(rt, reply.0)?;
    expect(reply.has_expected_object(alloc, keeper)?, reply.0, place)?;
    mark(rt, "the verdict")?;
    expect(reply.is_allowed(alloc, keeper)?, reply.0, place)?;
    mark(rt, "once it was judged")?;
    expect(reply.has_expected_object(alloc, keeper)?, reply.0, place)?;
    mark(rt, "what comes between")
}

/// Tests each view with indexed queries. Prints a line after the last.
pub fn replies_by_joins(rt: &impl Print, alloc: Global) -> Result<(), Stop> {
    let mut keeper = SqlKeeper::new(large_tables(alloc)?);
    for (place, reply) in REPLIES.iter().enumerate() {
        is_shown_once(rt, alloc, &mut keeper, place, reply)?;
    }
    mark_end(rt)
}

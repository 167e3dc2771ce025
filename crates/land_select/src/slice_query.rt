//! Reads the slice of the latest register for an act, or the part of it that the outcome depends on.
ghost use Rattle.std.specs.Prelude.{◌≡◌};

use crate::cache::CachedValue;
use crate::query::Query;
use crate::slices::slice::slice_at;
use land_acts::slice::Slice;
use land_core::act::Act;
use land_core::caller::Caller;
use land_tables_rows::listing::fault::ReadFault;
use sqlite::{Alter, Connection};
use std::alloc::Global;

/// The query for the slice that planning an act may read, or the part that its outcome depends on, at a time.
#[derive(Clone, Copy, Debug)]
pub(crate) struct SliceQuery<'a> {
    /// The caller.
    pub(crate) caller: Caller,
    /// The act.
    pub(crate) act: &'a Act,
    /// Whether only the part that the outcome of the act depends on is read.
    pub(crate) needed_only: bool,
    /// The cached value of the mutation that the act decides.
    pub(crate) known: &'a CachedValue,
    /// The next number of the register.
    pub(crate) next: u64,
    /// The time, in Unix milliseconds.
    pub(crate) moment: i64,
}

impl Query<Slice> for SliceQuery<'_> {
    ghost use Rattle.land_rules.specs.Denials.Standing.{mutation_of_act};
    ghost use Rattle.land_select.specs.Cache.{IsMutationValue};
    ghost use Rattle.land_select.specs.Slices.Gathered.{HoldsOfRegister, read_slice_of};

    ghost results = { λ it db slice. HoldsOfRegister
        (λ r. IsMutationValue r it.caller (mutation_of_act it.act.now) it.known.now
        → r.next ≡ it.next → slice ≡ read_slice_of it.needed_only r it.caller it.act.now) it.moment db };

    fn run<S: Alter>(&self, alloc: Global, conn: &mut Connection<S>) -> Result<Slice, ReadFault> {
        slice_at(
            alloc,
            conn,
            self.caller,
            self.act,
            self.needed_only,
            self.known,
            self.next,
            self.moment,
        )
    }
}

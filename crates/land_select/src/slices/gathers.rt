//! Parts of a register that are read number by number.
ghost use Rattle.std.specs.Prelude.{◌≡◌, ℕ, Bool, false};
ghost use Rattle.land_core.specs.declared.register.Register.{Register};
ghost use Rattle.land_select.specs.Slices.Gathered.{HoldsOfRegister, KnowsMore, numbers_if};
ghost use Rattle.land_select.specs.Slices.Gathered.{with_number, with_numbers};
ghost use Rattle.land_select_queries.specs.TableReads.{ReadsTables};
ghost use Rattle.land_tables_schema.specs.Connections.{HasRegisterTables, IsUsable, LeavesAutocommit};

use land_tables_rows::listing::fault::ReadFault;
use sqlite::{Alter, Connection};
use std::alloc::Global;

/// A part of a register that is read number by number.
pub(crate) trait Gathers: Sized {
    /// The part is correct for a set of numbers.
    ghost knows: { Register → (ℕ → Bool) → Self → Type 0 };

    /// Reads the records of one more number at a time, in Unix milliseconds.
    fn gather<S: Alter>(
        self,
        alloc: Global,
        conn: &mut Connection<S>,
        number: u64,
        at: i64,
    ) -> Result<Self, ReadFault>
        requires has_tables { HasRegisterTables S.Store conn.old }
        ensures reads_only { ReadsTables S.Store result
            (λ db it. KnowsMore knows (with_number number) self it at db)
            conn.old conn.new }
        ensures autocommit { LeavesAutocommit conn.old conn.new };
}

/// Reads the records of a list of numbers at a time, in Unix milliseconds.
pub(crate) fn gather_all<G: Gathers + Drop, S: Alter>(
    alloc: Global,
    conn: &mut Connection<S>,
    from: G,
    numbers: &[u64],
    at: i64,
) -> Result<G, ReadFault>
    requires open { IsUsable S.Store conn.old }
    requires has_tables { HasRegisterTables S.Store conn.old }
    ensures reads_only { ReadsTables S.Store result
        (λ db it. KnowsMore G.knows (with_numbers numbers.now) from it at db) conn.old conn.new }
    ensures autocommit { LeavesAutocommit conn.old conn.new }
{
    let mut gathered = from;
    for number in numbers {
        gathered = gathered.gather(alloc, conn, *number, at)?;
    }
    Ok(gathered)
}

/// Returns a list if it is included, else an empty one.
pub(crate) fn numbers_if(numbers: &[u64], is_included: bool) -> &[u64]
    ensures { result.now ≡ numbers_if is_included numbers.now }
{
    if is_included { numbers } else { &[] }
}

/// Reads the records of a list of numbers at a time, in Unix milliseconds, if they are included.
pub(crate) fn gather_included<G: Gathers + Drop, S: Alter>(
    alloc: Global,
    conn: &mut Connection<S>,
    none: G,
    numbers: &[u64],
    is_included: bool,
    at: i64,
) -> Result<G, ReadFault>
    requires open { IsUsable S.Store conn.old }
    requires has_tables { HasRegisterTables S.Store conn.old }
    ensures reads_only { ReadsTables S.Store result
        (λ db it. HoldsOfRegister (λ r. G.knows r (λ n. false) none
        → G.knows r (with_numbers (numbers_if is_included numbers.now) (λ n. false)) it) at db)
        conn.old conn.new }
    ensures autocommit { LeavesAutocommit conn.old conn.new }
{
    gather_all(alloc, conn, none, numbers_if(numbers, is_included), at)
}

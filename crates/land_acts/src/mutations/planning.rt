//! The parts that all plans share.
ghost use Rattle.std.specs.Prelude.{◌≡◌, ◌≤◌, ◌+◌, IfOk};
ghost use Rattle.land_acts.specs.Mutations.Numbering.{numbers_from};
ghost use Rattle.land_acts.specs.Mutations.Planning.{document_source, done_on, runs_out_of_numbers};
ghost use Rattle.land_acts.specs.Mutations.Planning.{would_exceed_entries};
ghost use Rattle.land_core.specs.Numbers.{last_next};

use land_core::change::Done;
use land_core::contents::rrr_count;
use land_core::duplicate::Duplicate;
use land_core::limits::LAST_NEXT;
use land_core::register::Register;
use land_core::sequence::{NumberList, Sequence};
use land_core::source::{SourceKind, SourceRecord};
use land_core::text::Text;
use std::alloc::{AllocError, Global};

/// The records of a register that planning an act may read.
pub type Slice = Register;

/// Returns whether `count` new objects would need more numbers.
pub fn runs_out_of_numbers(slice: &Slice, count: u128) -> bool
    ensures { result ≡ runs_out_of_numbers slice.now count }
{
    u128::from(LAST_NEXT) < u128::from(slice.next).saturating_add(count)
}

/// Returns whether a unit would have more than 256 entries with one more.
pub fn would_exceed_entries(slice: &Slice, unit: u64) -> bool
    ensures { result ≡ would_exceed_entries slice.now unit 1 }
{
    256 <= rrr_count(slice, unit)
}

/// Returns `count` numbers, starting at `first`. The only error is out of memory.
pub fn numbers_from(alloc: Global, first: u64, count: u64) -> Result<NumberList, AllocError>
    requires { first + count ≤ last_next }
    ensures { IfOk result (λ it. it ≡ numbers_from first count) }
{
    let numbers = (first..first + count).collect::<Vec<u64>>(alloc)?;
    Ok(Sequence::from_vec(numbers))
}

/// Returns the source that represents a document, under its number.
pub fn document_source(
    alloc: Global,
    number: u64,
    kind: SourceKind,
    document: &Text,
) -> Result<Sequence<(u64, SourceRecord)>, AllocError>
    ensures { IfOk result (λ it. it ≡ document_source number kind document.now) }
{
    let record = SourceRecord {
        kind,
        title: document.copy(alloc)?,
    };
    Sequence::of_one(alloc, (number, record))
}

/// Returns the receipt of an act that is about an object and creates none. It allocates nothing.
pub fn done_on(alloc: Global, number: u64, stamp: i64) -> Done
    ensures { result ≡ done_on number stamp }
{
    Done {
        number,
        made: Sequence::new(alloc),
        stamp,
    }
}

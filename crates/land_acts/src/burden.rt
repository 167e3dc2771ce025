//! The act `burden`: a unit gets a restriction or a responsibility.
ghost use Rattle.std.specs.Prelude.{◌≡◌, ◌≤◌, IfOk};
ghost use Rattle.land_acts.specs.Burdening.{burden_refusals, burden_change, burden_done, class_of_burden};
ghost use Rattle.land_acts.specs.Mutations.Planning.{IsPlanOf, first_refusal_of, would_exceed_entries};

use crate::mutations::planning::{document_source, runs_out_of_numbers, would_exceed_entries};
use crate::mutations::refusal::Refusal;
use crate::slice::Slice;
use land_core::act::{Burden, BurdenClass};
use land_core::change::{Change, Done};
use land_core::duplicate::Duplicate;
use land_core::kind::Kind;
use land_core::rrr::{Class, RrrRecord};
use land_core::sequence::Sequence;
use land_core::source::SourceKind;
use land_core::text::Text;
use std::alloc::{AllocError, Global};

/// Returns the first refusal of a burden whose condition holds: 202, 205, 210 or 217.
pub(crate) fn refusal(slice: &Slice, it: &Burden, stamp: Option<i64>) -> Option<Refusal>
    ensures { result ≡ first_refusal_of (burden_refusals slice.now it.now stamp) }
{
    if !slice.stands(Kind::Unit, it.unit) {
        Some(Refusal::NoSuchUnit)
    } else if !slice.stands(Kind::Party, it.party) {
        Some(Refusal::NoSuchParty)
    } else if runs_out_of_numbers(slice, 2) || would_exceed_entries(slice, it.unit) {
        Some(Refusal::TooMany)
    } else if stamp.is_none() {
        Some(Refusal::ClockOut)
    } else {
        None
    }
}

/// Returns the change, with the source and the entry under the next two numbers, and the receipt.
pub(crate) fn plan_of(
    alloc: Global,
    slice: &Slice,
    it: &Burden,
    stamp: i64,
) -> Result<(Change, Done), AllocError>
    requires { slice.now.next ≤ 999_999_999 }
    ensures { IfOk result (IsPlanOf (burden_change slice.now it.now) (burden_done slice.now stamp)) }
{
    let source = slice.next;
    let number = source + 1;
    let sources = document_source(alloc, source, SourceKind::Administrative, &it.document)?;
    let entry = RrrRecord {
        unit: it.unit,
        party: it.party,
        class: class_of_burden(it.class, it.words.copy(alloc)?),
        source,
    };
    let rrrs = Sequence::of_one(alloc, (number, entry))?;
    let mut made = Sequence::of_one(alloc, source)?;
    made.push(number)?;
    let mut change = Change::empty(alloc, source + 2);
    change.put.sources = sources;
    change.put.rrrs = rrrs;
    Ok((
        change,
        Done {
            number,
            made,
            stamp,
        },
    ))
}

/// Returns the class of the entry with these words.
fn class_of_burden(class: BurdenClass, words: Text) -> Class
    ensures { result ≡ class_of_burden class words }
{
    match class {
        BurdenClass::Restriction => Class::Restriction { words },
        BurdenClass::Responsibility => Class::Responsibility { words },
    }
}

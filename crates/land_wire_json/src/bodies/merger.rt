//! Reads the contents of mergers.
ghost use Rattle.std.specs.Prelude.{◌≡◌};
ghost use Rattle.land_wire_json.specs.Bodies.Fields.{each_item, number_in};
ghost use Rattle.land_wire_json.specs.Bodies.Mutations.{merger_of, increasing_at, others_besides};
ghost use Rattle.land_wire_json.specs.Bodies.WireFaults.{Returns};
ghost use Rattle.serde_json.specs.View.{view, items_view};

use crate::bodies::fields::{items_at, label_at, number_at, number_in};
use crate::bodies::outline::outline_in;
use crate::bodies::wire_fault::WireFault;
use land_core::merger::{Merger, all_above, lists_number};
use land_core::sequence::{NumberList, Sequence};
use serde_json::Value;
use std::alloc::Global;

/// Reads the fields of a merger: `unit`, `others` (0 to 15 numbers, the unit not among them), `parcels` (2 to
/// 16 numbers), both strictly increasing, `label`, `outline`.
#[tactic(auto, unfolding(crate::specs::Bodies::Mutations::merger_of))]
pub(crate) fn merger_of(alloc: Global, value: &Value) -> Result<Merger, WireFault>
    ensures { Returns (λ it. it) result (merger_of (view value.now)) }
{
    let unit = number_at(value, "unit")?;
    let others = without(unit, increasing_at(alloc, value, "others", 0, 15)?)?;
    let parcels = increasing_at(alloc, value, "parcels", 2, 16)?;
    let label = label_at(alloc, value, "label")?;
    let outline = outline_in(alloc, value)?;
    Ok(Merger {
        unit,
        others,
        parcels,
        label,
        outline,
    })
}

fn without(unit: u64, others: NumberList) -> Result<NumberList, WireFault>
    ensures { result ≡ others_besides unit others }
{
    if lists_number(others.as_slice(), unit) {
        Err(WireFault::Field)
    } else {
        Ok(others)
    }
}

/// Reads an array of `least` to `most` strictly increasing numbers of objects. Errors: 131 in another order,
/// after each number was read.
#[tactic(auto, unfolding(crate::specs::Bodies::Mutations::increasing_at))]
fn increasing_at(
    alloc: Global,
    value: &Value,
    key: &str,
    least: usize,
    most: usize,
) -> Result<NumberList, WireFault>
    ensures { Returns (λ it. it) result (increasing_at least most key.now (view value.now)) }
{
    let numbers = each_number(alloc, items_at(value, key, least, most)?)?;
    if all_above(0, numbers.as_slice()) {
        Ok(numbers)
    } else {
        Err(WireFault::Field)
    }
}

fn each_number(alloc: Global, items: &[Value]) -> Result<NumberList, WireFault>
    ensures { Returns (λ it. it) result (each_item number_in (items_view items.now)) }
{
    let mut numbers = Sequence::new(alloc);
    for value in items {
        numbers.push(number_in(value)?)?;
    }
    Ok(numbers)
}

//! Reads the contents of subdivisions.
ghost use Rattle.std.specs.Prelude.{◌≡◌, option_map};
ghost use Rattle.land_wire_json.specs.Bodies.Fields.{each_item};
ghost use Rattle.land_wire_json.specs.Bodies.Mutations.{new_name_of, part_of, rest_of, subdivision_of};
ghost use Rattle.land_wire_json.specs.Bodies.WireFaults.{Returns};
ghost use Rattle.serde_json.specs.View.{view, items_view};

use crate::bodies::fields::{check_keys, field_at, items_at, label_at, name_of, number_at};
use crate::bodies::outline::outline_in;
use crate::bodies::unit::parcel_of;
use crate::bodies::wire_fault::WireFault;
use land_core::sequence::Sequence;
use land_core::subdivision::{Part, Subdivision};
use land_core::text::Text;
use serde_json::Value;
use std::alloc::Global;

/// Reads the fields of a subdivision: `unit`, `parcel`, `first` (`label`, `outline`), `rest` (1 to 15 of
/// `label`, `outline` and, if the part goes to a new unit, its name `unit`).
#[tactic(auto, unfolding(crate::specs::Bodies::Mutations::subdivision_of))]
pub(crate) fn subdivision_of(alloc: Global, value: &Value) -> Result<Subdivision, WireFault>
    ensures { Returns (λ it. it) result (subdivision_of (view value.now)) }
{
    let unit = number_at(value, "unit")?;
    let parcel = number_at(value, "parcel")?;
    let first = parcel_of(alloc, field_at(value, "first")?)?;
    let rest = rest_of(alloc, value)?;
    Ok(Subdivision {
        unit,
        parcel,
        first,
        rest,
    })
}

#[tactic(auto, unfolding(crate::specs::Bodies::Mutations::rest_of))]
fn rest_of(alloc: Global, value: &Value) -> Result<Sequence<Part>, WireFault>
    ensures { Returns (λ it. it) result (rest_of (view value.now)) }
{
    each_part(alloc, items_at(value, "rest", 1, 15)?)
}

fn each_part(alloc: Global, items: &[Value]) -> Result<Sequence<Part>, WireFault>
    ensures { Returns (λ it. it) result (each_item part_of (items_view items.now)) }
{
    let mut parts = Sequence::new(alloc);
    for value in items {
        parts.push(part_of(alloc, value)?)?;
    }
    Ok(parts)
}

#[tactic(auto, unfolding(crate::specs::Bodies::Mutations::part_of))]
fn part_of(alloc: Global, value: &Value) -> Result<Part, WireFault>
    ensures { Returns (λ it. it) result (part_of (view value.now)) }
{
    check_keys(value, &["label", "outline", "unit"])?;
    let label = label_at(alloc, value, "label")?;
    let outline = outline_in(alloc, value)?;
    let unit = new_name_of(alloc, value.get("unit"))?;
    Ok(Part {
        label,
        outline,
        unit,
    })
}

fn new_name_of(alloc: Global, value: Option<&Value>) -> Result<Option<Text>, WireFault>
    ensures { Returns (λ it. it) result (new_name_of (option_map (λ value. view value.now) value.entry)) }
{
    match value {
        None => Ok(None),
        Some(value) => match value.as_str() {
            Some(text) => Ok(Some(name_of(alloc, text)?)),
            None => Err(WireFault::Field),
        },
    }
}

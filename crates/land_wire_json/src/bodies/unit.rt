//! Reads the bodies of acts on units and their entries.
ghost use Rattle.std.specs.Prelude.{◌≡◌, map};
ghost use Rattle.land_wire_json.specs.Bodies.Fields.{each_item};
ghost use Rattle.land_wire_json.specs.Bodies.Units.{burden_by, burden_fields, burden_of, lift_of};
ghost use Rattle.land_wire_json.specs.Bodies.Units.{require_owner};
ghost use Rattle.land_wire_json.specs.Bodies.Units.{parcel_of, parcels_of, right_of, rights_of, unit_by};
ghost use Rattle.land_wire_json.specs.Bodies.Units.{new_unit_fields, unit_of};
ghost use Rattle.land_wire_json.specs.Bodies.WireFaults.{Returns};
ghost use Rattle.serde_json.specs.View.{view, items_view};

use crate::bodies::fields::{
    bool_at, check_keys, items_at, label_at, name_at, number_at, title_at, words_at,
};
use crate::bodies::outline::outline_in;
use crate::bodies::share::share_at;
use crate::bodies::wire_fault::WireFault;
use crate::bodies::words::{class_in, type_in};
use land_core::act::{Burden, Lift, NewParcel, NewRight, NewUnit, have_owner};
use land_core::sequence::Sequence;
use serde_json::Value;
use std::alloc::Global;

/// Reads a unit: `name`, `checked` (true or false), `document`, `parcels` (1 to 64 of `label`, `outline`),
/// `rights` (1 to 64 of `party`, `type`, `share`). Errors: 131 if none of the rights is an ownership, after
/// all were read.
#[tactic(auto, unfolding(crate::specs::Bodies::Units::unit_of))]
pub fn unit_of(alloc: Global, value: &Value) -> Result<NewUnit, WireFault>
    ensures { Returns (λ it. it) result (unit_of (view value.now)) }
{
    check_keys(value, unit_fields())?;
    unit_by(alloc, value)
}

fn unit_fields() -> &'static [&'static str]
    ensures { map (λ name. name.now) result.now ≡ new_unit_fields }
{
    &["name", "checked", "document", "parcels", "rights"]
}

#[tactic(auto, unfolding(crate::specs::Bodies::Units::unit_by))]
fn unit_by(alloc: Global, value: &Value) -> Result<NewUnit, WireFault>
    ensures { Returns (λ it. it) result (unit_by (view value.now)) }
{
    let name = name_at(alloc, value, "name")?;
    let checked = bool_at(value, "checked")?;
    let document = title_at(alloc, value, "document")?;
    let parcels = parcels_of(alloc, value)?;
    let rights = rights_of(alloc, value)?;
    Ok(NewUnit {
        name,
        checked,
        document,
        parcels,
        rights,
    })
}

/// Reads a burden: `unit`, `party`, `class` (restriction or responsibility), `words`, `document`.
#[tactic(auto, unfolding(crate::specs::Bodies::Units::burden_of))]
pub fn burden_of(alloc: Global, value: &Value) -> Result<Burden, WireFault>
    ensures { Returns (λ it. it) result (burden_of (view value.now)) }
{
    check_keys(value, burden_fields())?;
    burden_by(alloc, value)
}

fn burden_fields() -> &'static [&'static str]
    ensures { map (λ name. name.now) result.now ≡ burden_fields }
{
    &["unit", "party", "class", "words", "document"]
}

#[tactic(auto, unfolding(crate::specs::Bodies::Units::burden_by))]
fn burden_by(alloc: Global, value: &Value) -> Result<Burden, WireFault>
    ensures { Returns (λ it. it) result (burden_by (view value.now)) }
{
    let unit = number_at(value, "unit")?;
    let party = number_at(value, "party")?;
    let class = class_in(value)?;
    let words = words_at(alloc, value, "words")?;
    let document = title_at(alloc, value, "document")?;
    Ok(Burden {
        unit,
        party,
        class,
        words,
        document,
    })
}

/// Reads a burden to lift: `rrr`.
#[tactic(auto, unfolding(crate::specs::Bodies::Units::lift_of))]
pub fn lift_of(value: &Value) -> Result<Lift, WireFault>
    ensures { result ≡ lift_of (view value.now) }
{
    check_keys(value, &["rrr"])?;
    let rrr = number_at(value, "rrr")?;
    Ok(Lift { rrr })
}

/// Reads a parcel: `label`, `outline`.
#[tactic(auto, unfolding(crate::specs::Bodies::Units::parcel_of))]
pub fn parcel_of(alloc: Global, value: &Value) -> Result<NewParcel, WireFault>
    ensures { Returns (λ it. it) result (parcel_of (view value.now)) }
{
    check_keys(value, &["label", "outline"])?;
    let label = label_at(alloc, value, "label")?;
    let outline = outline_in(alloc, value)?;
    Ok(NewParcel { label, outline })
}

#[tactic(auto, unfolding(crate::specs::Bodies::Units::parcels_of))]
fn parcels_of(alloc: Global, value: &Value) -> Result<Sequence<NewParcel>, WireFault>
    ensures { Returns (λ it. it) result (parcels_of (view value.now)) }
{
    each_parcel(alloc, items_at(value, "parcels", 1, 64)?)
}

fn each_parcel(alloc: Global, items: &[Value]) -> Result<Sequence<NewParcel>, WireFault>
    ensures { Returns (λ it. it) result (each_item parcel_of (items_view items.now)) }
{
    let mut parcels = Sequence::new(alloc);
    for value in items {
        parcels.push(parcel_of(alloc, value)?)?;
    }
    Ok(parcels)
}

#[tactic(auto, unfolding(crate::specs::Bodies::Units::rights_of))]
fn rights_of(alloc: Global, value: &Value) -> Result<Sequence<NewRight>, WireFault>
    ensures { Returns (λ it. it) result (rights_of (view value.now)) }
{
    require_owner(each_right(alloc, items_at(value, "rights", 1, 64)?)?)
}

fn require_owner(rights: Sequence<NewRight>) -> Result<Sequence<NewRight>, WireFault>
    ensures { result ≡ require_owner rights }
{
    if have_owner(rights.as_slice()) {
        Ok(rights)
    } else {
        Err(WireFault::Field)
    }
}

fn each_right(alloc: Global, items: &[Value]) -> Result<Sequence<NewRight>, WireFault>
    ensures { Returns (λ it. it) result (each_item right_of (items_view items.now)) }
{
    let mut rights = Sequence::new(alloc);
    for value in items {
        rights.push(right_of(value)?)?;
    }
    Ok(rights)
}

#[tactic(auto, unfolding(crate::specs::Bodies::Units::right_of))]
fn right_of(value: &Value) -> Result<NewRight, WireFault>
    ensures { result ≡ right_of (view value.now) }
{
    check_keys(value, &["party", "type", "share"])?;
    let party = number_at(value, "party")?;
    let right_type = type_in(value)?;
    let share = share_at(value, "share")?;
    Ok(NewRight {
        party,
        right_type,
        share,
    })
}

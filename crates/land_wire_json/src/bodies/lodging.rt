//! Reads the bodies of lodgings, approvals and refusals.
ghost use Rattle.std.specs.Prelude.{◌≡◌, ◌∷◌, codes, map};
ghost use Rattle.land_wire_json.specs.Bodies.Mutations.{decision_of, content_fields, lodging_of};
ghost use Rattle.land_wire_json.specs.Bodies.WireFaults.{Returns};
ghost use Rattle.serde_json.specs.View.{view};

use crate::bodies::content::content_by;
use crate::bodies::content_kind::ContentKind;
use crate::bodies::fields::{check_keys, number_at, reference_at, title_at};
use crate::bodies::wire_fault::WireFault;
use land_core::act::{Decision, Lodging};
use serde_json::Value;
use std::alloc::Global;

/// Reads a lodging: `reference`, `document`, then the fields of its content.
#[tactic(auto, unfolding(crate::specs::Bodies::Mutations::lodging_of))]
pub fn lodging_of(alloc: Global, kind: ContentKind, value: &Value) -> Result<Lodging, WireFault>
    ensures { Returns (λ it. it) result (lodging_of kind (view value.now)) }
{
    check_keys(value, lodged_fields(kind))?;
    let reference = reference_at(alloc, value, "reference")?;
    let document = title_at(alloc, value, "document")?;
    let content = content_by(alloc, kind, value)?;
    Ok(Lodging {
        reference,
        document,
        content,
    })
}

/// Returns the names of a lodging's fields, by the kind of its content.
fn lodged_fields(kind: ContentKind) -> &'static [&'static str]
    ensures { map (λ name. name.now) result.now ≡ codes "reference" ∷ codes "document" ∷ content_fields kind }
{
    match kind {
        ContentKind::Transfer => &[
            "reference",
            "document",
            "unit",
            "right",
            "receiver",
            "share",
        ],
        ContentKind::Subdivision => &["reference", "document", "unit", "parcel", "first", "rest"],
        ContentKind::Merger => &[
            "reference",
            "document",
            "unit",
            "others",
            "parcels",
            "label",
            "outline",
        ],
        ContentKind::Mortgage => &[
            "reference",
            "document",
            "unit",
            "creditor",
            "amount",
            "currency",
        ],
        ContentKind::Discharge => &["reference", "document", "unit", "mortgage"],
    }
}

/// Reads a decision, which approves or refuses a mutation: `mutation`.
#[tactic(auto, unfolding(crate::specs::Bodies::Mutations::decision_of))]
pub fn decision_of(value: &Value) -> Result<Decision, WireFault>
    ensures { result ≡ decision_of (view value.now) }
{
    check_keys(value, &["mutation"])?;
    let mutation = number_at(value, "mutation")?;
    Ok(Decision { mutation })
}

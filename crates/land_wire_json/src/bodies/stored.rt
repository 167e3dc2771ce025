//! Contents that are stored as texts.
ghost use Rattle.std.specs.List.{AllByRecursion};
ghost use Rattle.land_fraction.specs.Ratio.{IsFraction};
ghost use Rattle.land_shape.specs.Outline.{IsOutline};
ghost use Rattle.land_wire_json.specs.Bodies.Stored.{HasPartOutline, IsExactContent};

use land_core::content::Content;
use land_core::subdivision::Part;
use land_fraction::Fraction;
use land_shape::Ring;

/// Proves that the share of a content is a fraction and that its outlines are outlines, as their types
/// guarantee. It does nothing at run time; callers use it before they store a content.
pub fn content_is_exact(content: &Content)
    ensures { IsExactContent content.now }
{
    match content {
        Content::Transfer(it) => share_is_exact(it.share),
        Content::Subdivision(it) => {
            outline_is_exact(&it.first.outline);
            parts_are_exact(it.rest.as_slice());
        }
        Content::Merger(it) => outline_is_exact(&it.outline),
        Content::Mortgage(_) => {}
        Content::Discharge(_) => {}
    }
}

fn share_is_exact(share: Fraction)
    ensures { IsFraction share }
{
    share.numerator();
}

fn outline_is_exact(outline: &Ring)
    ensures { IsOutline outline.now }
{
    outline.points();
}

fn parts_are_exact(parts: &[Part])
    ensures { AllByRecursion HasPartOutline parts.now }
{
    for part in parts {
        outline_is_exact(&part.outline);
    }
}

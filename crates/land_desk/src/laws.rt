//! Theorems about the definitions, without reference to code.
ghost use Rattle.land_desk.specs.Responses.{OneResponse};
ghost use Rattle.land_desk.specs.Serving.{StepOf, ServesItemsInOrder};

use land_keep::clock::Clock;

/// A reply has exactly one response.
pub fn responses_are_unique()
    ensures { OneResponse }
{
    land_sheet::laws::sheets_are_unique();
}

/// The items that are served are the first items of the stream, in their order.
pub fn items_are_served_in_order<C: Clock>()
    ensures { ServesItemsInOrder (StepOf C.reads) }
{}

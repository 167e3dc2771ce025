//! Laws, each stated with definitions only.
ghost use Rattle.land_wire.specs.Framing.Items.{ItemsAreUnique, ItemListsAreUnique};

/// A stream has exactly one first item.
pub fn items_are_unique()
    ensures { ItemsAreUnique }
{}

/// A stream has exactly one list of items.
pub fn item_lists_are_unique()
    ensures { ItemListsAreUnique }
{}

//! Checks the keys of a table against a shape.
ghost use Rattle.std.specs.Prelude.{◌≡◌, ◌↔◌, [], ◌∷◌, IsTrue};
ghost use Rattle.land_tables_schema.specs.Shapes.{HasRowsOf, IsPlain};

use crate::shape::Rows;
use crate::terms::{is_free, is_ordered};
use sqlite_items::Items;
use sqlite_schema::schema::Table;
use sqlite_value::keys::Order;

/// Returns whether a table has no foreign key, no computed default and no counter.
pub fn is_plain(table: &Table) -> bool
    ensures { IsTrue result ↔ IsPlain table.now }
{
    table.references.is_empty()
        && table.computed.is_empty()
        && table.stamps.places.is_empty()
        && is_free(&table.stamps.terms)
        && table.stamps.formats.is_empty()
        && !table.is_counted
}

/// Returns whether the positions are equal.
fn are_places(places: &[usize], wanted: &[usize]) -> bool
    ensures { IsTrue result ↔ (places.now ≡ wanted.now) }
{
    places == wanted
}

/// Returns whether the only unique key has these positions.
fn is_only(uniques: &Items<Items<usize>>, wanted: &[usize]) -> bool
    ensures { IsTrue result ↔ (uniques.now ≡ wanted.now ∷ []) }
{
    match uniques.as_slice() {
        [places] => are_places(places.as_slice(), wanted),
        _ => false,
    }
}

/// Returns whether there is only one order, and all its columns ascend.
fn is_ascending(orders: &Items<Order>) -> bool
    ensures { IsTrue result ↔ (orders.now ≡ (record { digits = 0 }) ∷ []) }
{
    match orders.as_slice() {
        [order] => order.digits == 0,
        _ => false,
    }
}

/// Returns whether a table has this key, this CHECK, and no other constraint on its rows.
pub fn are_rows(table: &Table, rows: Rows<'_>) -> bool
    ensures { IsTrue result ↔ HasRowsOf table.now rows.entry }
{
    match rows {
        Rows::Numbered => {
            table.key == Some(0)
                && are_places(table.primary.as_slice(), &[0])
                && table.uniques.is_empty()
                && table.orders.is_empty()
                && is_free(&table.checks)
        }
        Rows::Versioned { key, since, until } => {
            table.key.is_none()
                && are_places(table.primary.as_slice(), key)
                && is_only(&table.uniques, key)
                && is_ascending(&table.orders)
                && is_ordered(&table.checks, since, until)
        }
    }
}

//! Decodes rows.
ghost use Rattle.std.specs.Prelude.{◌≡◌, Result};
ghost use Rattle.land_tables_rows.specs.Reading.Readings.{each_row};
ghost use Rattle.land_wire_json.specs.Bodies.WireFaults.{Returns};
ghost use Rattle.land_wire_json.specs.declared.bodies.wire_fault.WireFault.{WireFault as Fault};
ghost use Rattle.sqlite_value.specs.Order.{Row as SqlRow};

use land_core::sequence::Sequence;
use land_wire_json::bodies::wire_fault::WireFault;
use sqlite::Row;
use std::alloc::Global;

/// A record that a row decodes to.
pub trait FromRow: Drop {
    /// The record that the cells decode to, or the fault of the first cell that is not valid for its field.
    ghost said: { SqlRow → Result Self Fault };

    /// Decodes a row.
    fn from_row(alloc: Global, row: &Row) -> Result<Self, WireFault>
        ensures { Returns (λ it. it) result (said row.now) };
}

/// Decodes rows in order.
pub fn read_all<X: FromRow>(alloc: Global, rows: &[Row]) -> Result<Sequence<X>, WireFault>
    ensures { Returns (λ it. it) result (each_row X.FromRow.said rows.now) }
{
    let mut all = Sequence::new(alloc);
    for row in rows {
        all.push(X::from_row(alloc, row)?)?;
    }
    Ok(all)
}

//! Areas in square metres.
ghost use Rattle.std.specs.Prelude.{◌≡◌, ◌≤◌, ◌*◌, ◌^◌, IfOk, string_bytes, length};
ghost use Rattle.land_sheet.specs.Areas.{doubled_parcel_areas, square_metres};

use land_core::parcel::Parcel;
use std::alloc::{AllocError, Global};

/// Returns twice the total area of parcels, in square millimetres. The sum is exact: it cannot overflow.
pub(crate) fn doubled_areas(parcels: &[Parcel]) -> u128
    ensures sum { result ≡ doubled_parcel_areas parcels.now }
    ensures bounded { result ≤ 2 ^ 64 * 1000000000000000000 }
{
    let count = parcels.len();
    let mut area: u128 = 0;
    for parcel in parcels {
        area += u128::from(parcel.outline.doubled_area());
    }
    area
}

#[tactic(auto, unfolding(crate::specs::Areas::square_metres))]
/// Returns an area in square metres with seven decimals, from twice the area in square millimetres. The only
/// error is out of memory.
pub(crate) fn square_metres(alloc: Global, doubled: u128) -> Result<String, AllocError>
    requires { doubled ≤ 2 ^ 64 * 1000000000000000000 }
    ensures { IfOk result (λ text. string_bytes text ≡ square_metres doubled) }
{
    let units = 5 * doubled;
    let whole = units / 10_000_000;
    let rest = units % 10_000_000;
    format!(in alloc; "{whole}.{rest:07}")
}

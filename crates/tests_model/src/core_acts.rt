//! The limits of acts and of requests.

use land_core::act::Act;
use land_core::rrr::RightType;

mod asked;
mod drafts;
mod limits;
mod lodging_limits;
mod texts;

const ANNA: u64 = 2;

const SAM: u64 = 4;

const GARDEN: u64 = 7;

/// Anna's half of the garden.
const ANNAS: u64 = 10;

/// A restriction of Anna.
const PATH: u64 = 13;

/// A mortgage of Sam.
const LOAN: u64 = 15;

/// A party, the type of its right, and the numerator and denominator of its share.
type Right = (u64, RightType, u64, u64);

/// Returns whether an act is well formed.
fn is_good(act: Act) -> bool {
    act.is_well_formed()
}

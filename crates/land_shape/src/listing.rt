//! The points that a ring lists.

ghost use Rattle.std.specs.Prelude.{◌≡◌, ◌↔◌, IsTrue, length, MatchResult, Ok, Err};
ghost use Rattle.std.specs.List.{AllByRecursion};
ghost use Rattle.land_shape.specs.Faults.{SomeOf, IsNotNumber};
ghost use Rattle.land_shape.specs.Simple.{places};
ghost use Rattle.land_shape.specs.Steps.{HasTwoWords, ReadsPoint, ReadsPoints};

use crate::body::WrittenPoint;
use crate::faults::ShapeFault;
use crate::numbers::coordinate;
use crate::plane::Point;
use crate::tokens::Word;
use std::alloc::Global;

/// Checks if a word is not a number.
fn is_no_number(word: &[u8]) -> bool
    ensures { IsTrue result ↔ IsNotNumber word.now }
{
    coordinate(word) == Err(ShapeFault::Number)
}

/// Checks if any word of a point is not a number.
fn has_wrong_word(words: &[Word<'_>]) -> bool
    ensures { IsTrue result ↔ SomeOf IsNotNumber words.now }
{
    for word in words {
        if is_no_number(word.bytes()) {
            return true;
        }
    }
    false
}

/// Checks if any point has a word that is not a number.
fn has_wrong_point(points: &[WrittenPoint<'_>]) -> bool
    ensures { IsTrue result ↔ SomeOf (SomeOf IsNotNumber) points.now }
{
    for point in points {
        if has_wrong_word(point.words()) {
            return true;
        }
    }
    false
}

/// Returns the point of two words.
fn point_of(words: &[Word<'_>]) -> Result<Point, ShapeFault>
    requires { HasTwoWords words.now }
    ensures { ReadsPoint words.now result }
{
    let x = coordinate(words[0].bytes())?;
    let y = coordinate(words[1].bytes())?;
    Ok(Point { x, y })
}

/// Returns the points of a ring. Errors: `Number` if any word is not a number, else `Range` if any is too
/// large; `NoMemory`.
pub(crate) fn listed_points(
    alloc: Global,
    ring: &[WrittenPoint<'_>],
) -> Result<Vec<Point>, ShapeFault>
    requires { AllByRecursion HasTwoWords ring.now }
    ensures { MatchResult result (λ points. ReadsPoints ring.now (Ok (places points.items)))
        (λ fault. ReadsPoints ring.now (Err fault)) }
{
    if has_wrong_point(ring) {
        return Err(ShapeFault::Number);
    }
    let mut points = Vec::new(alloc);
    for words in ring {
        points.push(point_of(words.words())?)?;
    }
    Ok(points)
}

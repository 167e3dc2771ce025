//! Points and edges in order.

ghost use Rattle.std.specs.Prelude.{◌≡◌, ◌↔◌, IsTrue};
ghost use Rattle.land_shape.specs.Edges.{edges};
ghost use Rattle.land_shape.specs.Place.{Place};
ghost use Rattle.land_shape.specs.Simple.{places};
ghost use Rattle.land_shape.specs.Walks.{HaveSameEdges, IsOneOf, IsAscendingBy, edge_before, is_before};

use crate::edges::Edge;
use crate::plane::Point;

/// Returns the points sorted from left to right, then from bottom to top.
pub(crate) fn sorted_points(points: Vec<Point>) -> Vec<Point>
    ensures rise { IsAscendingBy is_before (places result.items) }
    ensures all { (p : Place) → IsOneOf p (places points.items) → IsOneOf p (places result.items) }
    ensures alone { (p : Place) → IsOneOf p (places result.items) → IsOneOf p (places points.items) }
{
    let mut sorted = points;
    sorted.sort_unstable();
    sorted
}

/// Returns the edges, sorted.
fn sorted_edges(list: Vec<Edge>) -> Vec<Edge>
    ensures rise { IsAscendingBy edge_before (edges result.items) }
    ensures same { HaveSameEdges (edges result.items) (edges list.items) }
{
    let mut sorted = list;
    sorted.sort_unstable();
    sorted
}

/// Checks if two lists contain each edge equally often.
pub(crate) fn have_same_edges(list: Vec<Edge>, other: Vec<Edge>) -> bool
    ensures { IsTrue result ↔ HaveSameEdges (edges list.items) (edges other.items) }
{
    sorted_edges(list) == sorted_edges(other)
}

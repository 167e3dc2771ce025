//! Checks that the CHECK of a table is `since < until`.
ghost use Rattle.std.specs.Prelude.{◌≡◌, ◌≢◌, ◌↔◌, ℕ, [], IfSome, IsTrue, None, Some, slice_get};
ghost use Rattle.land_tables_schema.specs.Columns.{lifespan_check};
ghost use Rattle.sqlite_schema.specs.Code.{terms_in};
ghost use Rattle.sqlite_schema.specs.declared.code.Op.TheVariants.{Binary as ABinary, Column as AColumn};
ghost use Rattle.sqlite_sql.specs.declared.ops.BinaryOp.TheVariants.{Compare};
ghost use Rattle.sqlite_sql.specs.declared.ops.CompareOp.TheVariants.{Lt};
ghost use Rattle.sqlite_value.specs.declared.keys.Collation.TheVariants.{Binary as Bytewise};

use sqlite_schema::code::{Op, Terms};
use sqlite_sql::ops::{BinaryOp, CompareOp};
use sqlite_value::keys::Collation;

/// Returns whether there is no term.
pub fn is_free(terms: &Terms) -> bool
    ensures { IsTrue result ↔ (terms.now ≡ []) }
{
    terms.roots.is_empty()
}

/// Returns the positions of the two sides of a node, if the node is a comparison by `<`.
fn sides(nodes: &[Op], at: usize) -> Option<(usize, usize)>
    ensures some { IfSome result (λ p. slice_get nodes.now at
        ≡ Some (ABinary (Compare Lt Bytewise) p.0 p.1)) }
    ensures none { result ≡ None → (a : ℕ) → (b : ℕ) → slice_get nodes.now at
        ≢ Some (ABinary (Compare Lt Bytewise) a b) }
{
    match nodes.get(at) {
        Some(Op::Binary(BinaryOp::Compare(CompareOp::Lt, Collation::Binary), a, b)) => {
            Some((*a, *b))
        }
        _ => None,
    }
}

/// Returns whether a node is the column of a row at this position.
fn is_place(nodes: &[Op], at: usize, place: usize) -> bool
    ensures { IsTrue result ↔ (slice_get nodes.now at ≡ Some (AColumn 1 place)) }
{
    match nodes.get(at) {
        Some(Op::Column(slot, there)) => *slot == 1 && *there == place,
        _ => false,
    }
}

/// Returns whether nodes with these roots are the comparison `since < until` of two columns of a row, and
/// nothing else.
fn is_interval(nodes: &[Op], roots: &[usize], since: usize, until: usize) -> bool
    ensures { IsTrue result ↔ (terms_in nodes.now roots.now ≡ lifespan_check since until) }
{
    if roots.len() != 1 || nodes.len() < 2 {
        return false;
    }
    match sides(nodes, roots[0]) {
        Some((a, b)) => is_place(nodes, a, since) && is_place(nodes, b, until),
        None => false,
    }
}

/// Returns whether terms are the comparison `since < until` of two columns of a row, and nothing else.
pub fn is_ordered(terms: &Terms, since: usize, until: usize) -> bool
    ensures { IsTrue result ↔ (terms.now ≡ lifespan_check since until) }
{
    is_interval(terms.nodes.as_slice(), terms.roots.as_slice(), since, until)
}

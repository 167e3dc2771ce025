//! Outlines: worked examples, and the texts of the faults, which no clause states. A test returns `Err` if
//! memory ran out, and so fails only if an allocation was made to fail.

use land_shape::{Point, Ring, ShapeFault, laws, read_wkt};
use std::alloc::{AllocError, Global};
use std::process::Abort;
use std::test::Fail;

/// A text, its doubled area and its canonical form.
struct Row(&'static str, u64, &'static str);

pub(super) const SQUARE: &str = "POLYGON ((0 0, 10 0, 10 10, 0 10, 0 0))";

const CORNER: &str = "POLYGON ((0 0, 1 0, 0 1, 0 0))";

/// Returns the ring of a text, or the number of its fault.
fn read(alloc: Global, text: &str) -> Result<Result<Ring, u16>, AllocError> {
    match read_wkt(alloc, text) {
        Ok(ring) => Ok(Ok(ring)),
        Err(ShapeFault::NoMemory) => Err(AllocError),
        Err(fault) => Ok(Err(fault.number())),
    }
}

/// Returns whether a ring has the doubled area and the canonical form of a row.
fn is_ring(ring: &Ring, row: &Row) -> Result<bool, AllocError> {
    let written = ring.write_wkt()?;
    Ok(ring.doubled_area() == row.1 && written.as_str() == row.2)
}

/// Returns whether a copy of a ring has the results of its row.
fn is_copied(ring: &Ring, row: &Row) -> Result<bool, AllocError> {
    let copy = ring.copy()?;
    is_ring(&copy, row)
}

/// Returns whether a text has the results of its row.
fn is_read(alloc: Global, row: &Row) -> Result<bool, AllocError> {
    match read(alloc, row.0)? {
        Ok(ring) => Ok(is_ring(&ring, row)? && is_copied(&ring, row)?),
        Err(_) => Ok(false),
    }
}

/// The number of a fault, and a text that has it.
struct Faulty(u16, &'static str);

fn has_fault(alloc: Global, number: u16, text: &str) -> Result<bool, AllocError> {
    match read(alloc, text)? {
        Ok(_) => Ok(false),
        Err(found) => Ok(found == number),
    }
}

fn assert_faults(rt: &impl Abort, alloc: Global, rows: &[Faulty]) -> Result<(), AllocError> {
    for row in rows {
        assert!(rt; has_fault(alloc, row.0, row.1)?, "{}", row.1);
    }
    Ok(())
}

const OUTLINES: &[Row] = &[
    Row(
        "polygon((0.0 0, 10000 0,10000 10000, 0 10000, 0 0))",
        200_000_000,
        "POLYGON ((0 0, 10000 0, 10000 10000, 0 10000, 0 0))",
    ),
    Row("POLYGON ((0 0, 1 0, 0 1, 0 0))", 1, CORNER),
    Row("POLYGON ((0 0, 0 10, 10 10, 10 0, 0 0))", 200, SQUARE),
    Row(
        "POLYGON((0 0,5 0,10 0,10 10,0 0))",
        100,
        "POLYGON ((0 0, 5 0, 10 0, 10 10, 0 0))",
    ),
    Row("POLYGON ((+0 -0, 01 0., 0 1, 0 0))", 1, CORNER),
    Row(
        "POLYGON ((0 0, 1000000000 0, 0 1000000000, 0 0))",
        1_000_000_000_000_000_000,
        "POLYGON ((0 0, 1000000000 0, 0 1000000000, 0 0))",
    ),
    // coordinates at their bounds
    Row(
        "POLYGON ((-10000000000 0, 10000000000 0, 0 1, -10000000000 0))",
        20_000_000_000,
        "POLYGON ((-10000000000 0, 10000000000 0, 0 1, -10000000000 0))",
    ),
    Row(
        "POLYGON ((0 -10000000000, 1 0, 0 10000000000, 0 -10000000000))",
        20_000_000_000,
        "POLYGON ((0 -10000000000, 1 0, 0 10000000000, 0 -10000000000))",
    ),
    // clockwise, starting at another corner
    Row(
        "POLYGON ((7 -3, 2 -3, 2 4, 7 4, 7 -3))",
        70,
        "POLYGON ((7 -3, 7 4, 2 4, 2 -3, 7 -3))",
    ),
    // more than 64 bits in the sum of a ring far from the origin
    Row(
        "POLYGON ((9999999999 9999999998, 10000000000 9999999998, 9999999999 9999999999, 9999999999 9999999998))",
        1,
        "POLYGON ((9999999999 9999999998, 10000000000 9999999998, 9999999999 9999999999, 9999999999 9999999998))",
    ),
    // a ring that is not convex
    Row(
        "POLYGON ((0 0, 4 0, 4 4, 2 1, 0 4, 0 0))",
        20,
        "POLYGON ((0 0, 4 0, 4 4, 2 1, 0 4, 0 0))",
    ),
    // white space of each kind, and no space
    Row(
        "\t\r\nPoLyGoN\t(\n(\r0\t0\n,1\r0,\t0\n1,\r0\t0\n)\r)\t\n",
        1,
        CORNER,
    ),
    Row("POLYGON((0\t0,1\n0,0\r1,0\t0))", 1, CORNER),
    Row("  POLYGON  ( ( 0  0 , 1  0 , 0  1 , 0  0 ) )  ", 1, CORNER),
    // any number of zeros before a digit, 20 after the point
    Row(
        "POLYGON ((0 0, 00000000000000000000000000000000000000001 0, 0 1, 0 0))",
        1,
        CORNER,
    ),
    Row(
        "POLYGON ((0 0, 1.00000000000000000000 0, 0 1, 0 0))",
        1,
        CORNER,
    ),
];

#[test]
fn outlines(rt: HostRuntime) -> Result<(), Fail> {
    for row in OUTLINES {
        assert!(&rt; is_read(rt.alloc(), row)?, "{}", row.0);
    }
    Ok(())
}

const WITHOUT_A_BODY: &[Faulty] = &[
    Faulty(110, ""),
    Faulty(110, "POLYGON"),
    Faulty(110, "POLYGON Z"),
    Faulty(110, "POLYGON ()"),
    Faulty(110, "POLYGON (())"),
    Faulty(110, "POLYGON ((0))"),
    Faulty(110, "POLYGON ((0 0 0 0 0))"),
    Faulty(110, "POLYGON ((0 0, , 1 0))"),
    Faulty(110, "POLYGON ((0 0, 1 0, 0 1, 0 0)"),
    Faulty(110, "POLYGON ((0 0, 1 0, 0 1, 0 0)))"),
    Faulty(110, "POLYGON ((0 0, 1 0, 0 1, 0 0)) x"),
    Faulty(110, "POLYGON ((0 0, 1 0, 0 1, 0 0),)"),
    Faulty(110, "POLYGON (0 0, 1 0, 0 1, 0 0)"),
    Faulty(110, "POINT (0 0)"),
    Faulty(110, "SRID=4326;POLYGON ((0 0, 1 0, 0 1, 0 0))"),
    Faulty(110, "POLYGONZ M ((0 0, 1 0, 0 1, 0 0))"),
    Faulty(110, "POLYGON Z M ((0 0, 1 0, 0 1, 0 0))"),
    Faulty(110, "POLYGONEMPTY"),
    Faulty(110, "POLYGON EMPTY EMPTY"),
    Faulty(110, "POLYGON\u{a0}((0 0, 1 0, 0 1, 0 0))"),
    Faulty(111, "POLYGON EMPTY"),
    Faulty(111, "polygonzm empty"),
    Faulty(111, "POLYGON Z EMPTY"),
];

#[test]
fn texts_without_a_body(rt: HostRuntime) -> Result<(), Fail> {
    Ok(assert_faults(&rt, rt.alloc(), WITHOUT_A_BODY)?)
}

const WITH_A_FAULT: &[Faulty] = &[
    Faulty(112, "POLYGON ((0 0, 4 0, 0 4, 0 0), (1 1, 2 1, 1 2, 1 1))"),
    Faulty(112, "POLYGON Z ((0 0 0), (x y z))"),
    Faulty(113, "POLYGON Z ((0 0 0, 1 0 0, 0 1 0, 0 0 0))"),
    Faulty(113, "POLYGON M ((0 0, 1 0, 0 1, 0 0))"),
    Faulty(113, "polygonzm((0 0, 1 0, 0 1, 0 0))"),
    Faulty(113, "POLYGON ((0 0, x y z, 0 1, 0 0))"),
    Faulty(113, "POLYGON ((0 0, 1 0, 0 1 2 3, 0 0))"),
    Faulty(114, "POLYGON ((0 0, 1 0, 0 0.5, 0 0))"),
    Faulty(114, "POLYGON ((1e3 0, 0 1, 1 1, 1e3 0))"),
    Faulty(114, "POLYGON ((0 0, 10000000001 0, 0 x, 0 0))"),
    Faulty(114, "POLYGON ((0 0, .0 0, 0 1, 0 0))"),
    Faulty(114, "POLYGON ((0 0, +-1 0, 0 1, 0 0))"),
    Faulty(114, "POLYGON ((0 0, 1 -, 0 1, 0 0))"),
    Faulty(114, "POLYGON ((0 0, 1.0.0 0, 0 1, 0 0))"),
    Faulty(114, "POLYGON ((0 0, 1.000000000000000000000 0, 0 1, 0 0))"),
    Faulty(115, "POLYGON ((0 0, 10000000001 0, 0 1, 0 0))"),
    Faulty(115, "POLYGON ((0 0, 1 0, 0 -10000000001, 0 0))"),
    // 2^64 + 1, and 41 nines
    Faulty(115, "POLYGON ((0 0, 18446744073709551617 0, 0 1, 0 0))"),
    Faulty(
        115,
        "POLYGON ((0 0, 99999999999999999999999999999999999999999 0, 0 1, 0 0))",
    ),
    Faulty(116, "POLYGON ((0 0, 1 0, 0 1))"),
    Faulty(116, "POLYGON ((0 0))"),
    Faulty(118, "POLYGON ((0 0, 1 0, 1 1, 0 1))"),
    Faulty(118, "POLYGON ((0 0, 2 2, 2 0, 0 2, 0 1))"),
    Faulty(119, "POLYGON ((0 0, 2 2, 2 0, 0 2, 0 0))"),
    Faulty(119, "POLYGON ((0 0, 4 0, 2 2, 4 4, 0 4, 2 2, 0 0))"),
    Faulty(119, "POLYGON ((0 0, 10 0, 5 0, 5 5, 0 0))"),
    Faulty(119, "POLYGON ((0 0, 1 0, 1 0, 0 1, 0 0))"),
    Faulty(119, "POLYGON ((0 0, 10 0, 5 0, 0 0))"),
    Faulty(119, "POLYGON ((0 0, 0 0, 0 0, 0 0))"),
    // the last edge lies on the first
    Faulty(119, "POLYGON ((0 0, 4 0, 4 4, 2 0, 0 0))"),
    // its doubled area is too large as well
    Faulty(
        119,
        "POLYGON ((0 0, 4000000000 0, 4000000000 4000000000, 1 -1, 0 0))",
    ),
    Faulty(120, "POLYGON ((0 0, 1000000001 0, 0 1000000000, 0 0))"),
    Faulty(
        120,
        "POLYGON ((-10000000000 -10000000000, 10000000000 -10000000000, 10000000000 10000000000, -10000000000 10000000000, -10000000000 -10000000000))",
    ),
];

#[test]
fn bodies_with_a_fault(rt: HostRuntime) -> Result<(), Fail> {
    Ok(assert_faults(&rt, rt.alloc(), WITH_A_FAULT)?)
}

/// Returns the text of a closed ring of `count` points on a parabola.
fn parabola(alloc: Global, count: u64) -> Result<String, AllocError> {
    let mut text = String::from_str(alloc, "POLYGON ((")?;
    for i in 0..count {
        let square = i.wrapping_mul(i);
        let point = format!(in alloc; "{i} {square}, ")?;
        text.push_str(point.as_str())?;
    }
    text.push_str("0 0))")?;
    Ok(text)
}

/// Returns whether the ring of a text has 200 points and is printed as the text.
fn is_many(ring: &Ring, text: &str) -> Result<bool, AllocError> {
    let written = ring.write_wkt()?;
    // the sum of i * (i + 1) from 1 to 198, which is 198 * 199 * 200 / 3
    let doubled = 2_626_800;
    Ok(ring.points().len() == 200 && ring.doubled_area() == doubled && written.as_str() == text)
}

fn is_read_many(alloc: Global) -> Result<bool, AllocError> {
    let text = parabola(alloc, 200)?;
    match read(alloc, text.as_str())? {
        Ok(ring) => is_many(&ring, text.as_str()),
        Err(_) => Ok(false),
    }
}

fn is_refused_more(alloc: Global) -> Result<bool, AllocError> {
    let text = parabola(alloc, 201)?;
    has_fault(alloc, 117, text.as_str())
}

#[test]
fn rings_of_many_points(rt: HostRuntime) -> Result<(), Fail> {
    assert!(&rt; is_read_many(rt.alloc())? && is_refused_more(rt.alloc())?);
    Ok(())
}

const CORNERS: &[(i64, i64)] = &[(7, -3), (7, 4), (2, 4), (2, -3)];

/// Returns whether points are those of a list, in its order.
fn are_points(points: &[Point], expected: &[(i64, i64)]) -> bool {
    for (point, (x, y)) in points.iter().zip(expected) {
        if point.x != *x || point.y != *y {
            return false;
        }
    }
    points.len() == expected.len()
}

#[test]
fn points_begin_with_the_first_one(rt: HostRuntime) -> Result<(), Fail> {
    let ring = read_wkt(rt.alloc(), "POLYGON ((7 -3, 2 -3, 2 4, 7 4, 7 -3))")?;
    assert!(&rt; are_points(ring.points(), CORNERS));
    Ok(())
}

const TURNED: Row = Row("POLYGON ((0 0, 0 10, 10 10, 10 0, 0 0))", 200, SQUARE);

/// If an allocation fails (`--fail-alloc N`), each call returns out of memory, or its ordinary result.
#[test]
fn memory_runs_out(rt: HostRuntime) -> Result<(), Fail> {
    assert!(&rt; is_read(rt.alloc(), &TURNED)?);
    assert!(&rt; has_fault(rt.alloc(), 114, "POLYGON ((0 0, 1 0, 0 0.5, 0 0))")?);
    Ok(())
}

fn has_text(alloc: Global, fault: ShapeFault, expected: &str) -> Result<bool, AllocError> {
    let text = fault.to_string(alloc)?;
    Ok(text.as_str() == expected)
}

const NOT_SIMPLE: &str = "the outline touches or crosses itself, or has no area";

#[test]
fn faults_have_texts(rt: HostRuntime) -> Result<(), Fail> {
    assert!(&rt; has_text(rt.alloc(), ShapeFault::NotSimple, NOT_SIMPLE)?);
    assert!(&rt; has_text(rt.alloc(), ShapeFault::NoMemory, "memory ran out")?);
    laws::printed_rings();
    laws::one_answer();
    Ok(())
}

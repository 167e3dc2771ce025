//! The largest registration: 64 parcels with outlines of 200 points each.
use crate::keepers::keepers::play_over_each;
use std::alloc::{AllocError, Global};
use std::fmt::Write;
use testlib_scenario::stop::Stop;
use testlib_scenario::talk::{ExpectedReply, OFFICE, Transcript};

/// The number of points of an outline, and of parcels of a unit.
const POINTS: usize = 200;

const PARCELS: usize = 64;

/// The number of the last parcel, after the source and the unit.
const LAST_PARCEL: usize = 3 + PARCELS;

/// Writes the points of a parabola, which make a convex ring. For a self-intersecting ring the second and the
/// third are exchanged.
fn write_points(text: &mut String, crossed: bool) -> Result<(), AllocError> {
    for step in 0..POINTS {
        let x = match step {
            1 if crossed => 2,
            2 if crossed => 1,
            _ => step,
        };
        let y = x * x;
        write!(text, "{x} {y}, ")?;
    }
    Ok(())
}

fn write_outline(text: &mut String, crossed: bool) -> Result<(), AllocError> {
    text.push_str("POLYGON ((")?;
    write_points(text, crossed)?;
    text.push_str("0 0))")
}

fn write_parcels(text: &mut String, crossed: Option<usize>) -> Result<(), AllocError> {
    for parcel in 0..PARCELS {
        if parcel > 0 {
            text.push_str(",")?;
        }
        text.push_str(r#"{"label":"P","outline":""#)?;
        write_outline(text, crossed == Some(parcel))?;
        text.push_str(r#""}"#)?;
    }
    Ok(())
}

/// Writes the body that registers the unit, with at most one self-intersecting parcel.
fn write_unit(text: &mut String, crossed: Option<usize>) -> Result<(), AllocError> {
    text.clear();
    text.push_str(r#"{"name":"G","checked":true,"document":"D","parcels":["#)?;
    write_parcels(text, crossed)?;
    text.push_str(r#"],"rights":[{"party":1,"type":"ownership","share":"1/1"}]}"#)
}

/// The office registers the unit, with at most one self-intersecting parcel.
fn ask_registration(
    talk: &mut Transcript,
    text: &mut String,
    crossed: Option<usize>,
) -> Result<(), AllocError> {
    write_unit(text, crossed)?;
    talk.push_request("POST /acts/register", OFFICE, text.as_bytes())
}

/// Expects the fault of a self-intersecting outline, in any parcel.
fn ask_crossed(talk: &mut Transcript, text: &mut String, parcel: usize) -> Result<(), AllocError> {
    ask_registration(talk, text, Some(parcel))?;
    talk.tell(ExpectedReply::Fault(119), false)?;
    talk.mark("a crossed outline", parcel)
}

/// Expects success without one: source 2, unit 3, the parcels, and the right.
fn ask_whole(talk: &mut Transcript, text: &mut String) -> Result<(), AllocError> {
    ask_registration(talk, text, None)?;
    text.clear();
    text.push_str(r#"{"made":[2"#)?;
    for number in 3..=LAST_PARCEL + 1 {
        write!(text, ",{number}")?;
    }
    text.push_str(r#"],"number":3,"stamp":1000}"#)?;
    talk.expect_object(text.as_str())?;
    talk.mark("the registration", 0)
}

/// Expects the last parcel with its outline. If n is the last x, its doubled area is n(n + 1)(n - 1) / 3.
fn ask_parcel(talk: &mut Transcript, text: &mut String) -> Result<(), AllocError> {
    text.clear();
    write!(text, "GET /parcels/{LAST_PARCEL}")?;
    talk.push_request(text.as_str(), OFFICE, b"")?;
    text.clear();
    write!(
        text,
        r#"{{"object":{{"doubled":2626800,"label":"P","number":{LAST_PARCEL},"outline":""#
    )?;
    write_outline(text, false)?;
    text.push_str(r#"","source":2,"unit":3}}"#)?;
    talk.expect_object(text.as_str())?;
    talk.mark("the last parcel", 0)
}

/// Registers with a self-intersecting outline in the first and the last parcel, and then without one; then
/// reads the parcel.
fn registrations(alloc: Global) -> Result<Transcript, AllocError> {
    let mut talk = Transcript::new(alloc)?;
    let mut text = String::with_capacity(alloc, 65536)?;
    ask_crossed(&mut talk, &mut text, 0)?;
    ask_crossed(&mut talk, &mut text, PARCELS - 1)?;
    ask_whole(&mut talk, &mut text)?;
    ask_parcel(&mut talk, &mut text)?;
    Ok(talk)
}

/// Tests that the largest registration is accepted, unless an outline intersects itself.
pub fn the_largest_registration_is_accepted(alloc: Global) -> Result<(), Stop> {
    play_over_each(alloc, &[], &registrations(alloc)?)
}

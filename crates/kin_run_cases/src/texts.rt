//! The texts and statuses of scripts.

ghost use Rattle.std.specs.Prelude.{◌<◌};

use crate::bounds::CORNERS;
use crate::boxes::{BOXES, EACH_KIND, EACH_KIND_TEXT};
use crate::farthest::FARTHEST;
use crate::kept::{CARRIAGEWAYS, CARRIAGEWAYS_TEXT, CHANGES, CLOSE, HULLS};
use crate::legs::LEGS;
use crate::nearest::{CROWD, CROWD_TEXT, NEAREST};
use crate::runs::{run_to, source_of};
use crate::worked::WORKED;
use kin_run::status::Status;
use std::alloc::Global;
use std::test::Fail;

/// The first of these scripts whose text or status is another one. It is read in pieces so long.
fn first_wrong(
    alloc: Global,
    rows: &[(&str, &str, Status)],
    piece: usize,
    room: u64,
) -> Result<Option<usize>, Fail>
    requires { 0 < piece }
{
    for (row, (script, text, status)) in rows.iter().enumerate() {
        let source = source_of(alloc, script, piece, Vec::new(alloc))?;
        let (found, sink) = run_to(alloc, source, room, Vec::new(alloc))?;
        if found != *status || sink.held() != text.as_bytes() {
            return Ok(Some(row));
        }
    }
    Ok(None)
}

#[test]
fn gives_the_worked_texts(rt: HostRuntime) -> Result<(), Fail> {
    let wrong = first_wrong(rt.alloc(), &WORKED, 3, 200)?;
    assert!(rt; wrong == None, "script {wrong:?}");
    Ok(())
}

#[test]
fn gives_the_texts_of_closest_pairs_and_rectangles(rt: HostRuntime) -> Result<(), Fail> {
    let wrong = first_wrong(rt.alloc(), &CLOSE, 64, 200)?;
    assert!(rt; wrong == None, "script {wrong:?}");
    Ok(())
}

#[test]
fn gives_the_texts_of_hulls(rt: HostRuntime) -> Result<(), Fail> {
    let wrong = first_wrong(rt.alloc(), &HULLS, 64, 400)?;
    assert!(rt; wrong == None, "script {wrong:?}");
    Ok(())
}

#[test]
fn gives_the_texts_of_points_with_legs(rt: HostRuntime) -> Result<(), Fail> {
    let wrong = first_wrong(rt.alloc(), &LEGS, 64, 100)?;
    assert!(rt; wrong == None, "script {wrong:?}");
    Ok(())
}

#[test]
fn gives_the_texts_of_nearest_points(rt: HostRuntime) -> Result<(), Fail> {
    let wrong = first_wrong(rt.alloc(), &NEAREST, 64, 100)?;
    assert!(rt; wrong == None, "script {wrong:?}");
    Ok(())
}

#[test]
fn gives_the_texts_of_farthest_pairs(rt: HostRuntime) -> Result<(), Fail> {
    let wrong = first_wrong(rt.alloc(), &FARTHEST, 64, 400)?;
    assert!(rt; wrong == None, "script {wrong:?}");
    Ok(())
}

#[test]
fn gives_the_texts_of_boxes(rt: HostRuntime) -> Result<(), Fail> {
    let wrong = first_wrong(rt.alloc(), &BOXES, 64, 300)?;
    assert!(rt; wrong == None, "script {wrong:?}");
    Ok(())
}

#[test]
fn gives_the_text_of_a_structure_of_each_kind(rt: HostRuntime) -> Result<(), Fail> {
    let rows = [(EACH_KIND, EACH_KIND_TEXT, Status::Done)];
    let wrong = first_wrong(rt.alloc(), &rows, 64, 2000)?;
    assert!(rt; wrong == None, "script {wrong:?}");
    Ok(())
}

/// A script with 256 points at one place, and these lines after it.
fn crowd_and(alloc: Global, lines: &str) -> Result<String, Fail> {
    let mut script = String::from_str(alloc, "size 9\nkeep nearest\n")?;
    for no in 0..256 {
        script.push_str(&format!(in alloc; "insert {no} 0 0 1 0\n")?)?;
    }
    script.push_str(lines)?;
    Ok(script)
}

#[test]
fn gives_the_nearest_points_of_a_crowd(rt: HostRuntime) -> Result<(), Fail> {
    let script = crowd_and(rt.alloc(), CROWD)?;
    let rows = [(script.as_str(), CROWD_TEXT, Status::Done)];
    let wrong = first_wrong(rt.alloc(), &rows, 4096, 100)?;
    assert!(rt; wrong == None, "script {wrong:?}");
    Ok(())
}

#[test]
fn gives_the_texts_of_points_that_turn_and_leave(rt: HostRuntime) -> Result<(), Fail> {
    let wrong = first_wrong(rt.alloc(), &CHANGES, 64, 100)?;
    assert!(rt; wrong == None, "script {wrong:?}");
    Ok(())
}

#[test]
fn gives_the_texts_of_points_at_the_bounds(rt: HostRuntime) -> Result<(), Fail> {
    let wrong = first_wrong(rt.alloc(), &CORNERS, 64, 700)?;
    assert!(rt; wrong == None, "script {wrong:?}");
    Ok(())
}

#[test]
fn gives_the_text_of_two_carriageways(rt: HostRuntime) -> Result<(), Fail> {
    let rows = [(CARRIAGEWAYS, CARRIAGEWAYS_TEXT, Status::Done)];
    let wrong = first_wrong(rt.alloc(), &rows, 64, 400)?;
    assert!(rt; wrong == None, "script {wrong:?}");
    Ok(())
}

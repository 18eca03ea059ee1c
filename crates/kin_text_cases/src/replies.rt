//! Printed replies.

use kin_num::NoMemory;
use kin_print::{Reply, put_list, put_pairs, put_reply};
use std::alloc::Global;
use std::test::Fail;

/// The lines of these replies.
fn lines(alloc: Global, replies: &[Reply]) -> Result<Vec<u8>, NoMemory> {
    let mut out = Vec::new(alloc);
    for reply in replies {
        put_reply(&mut out, reply)?;
    }
    Ok(out)
}

#[test]
fn numbers_stand_behind_one_space_each(rt: HostRuntime) -> Result<(), Fail> {
    let rows: [(&[u32], &[u8]); 3] = [
        (&[], b"none\n"),
        (&[5], b"5\n"),
        (&[1, 0, 4095], b"1 0 4095\n"),
    ];
    for (list, line) in rows {
        let mut out = Vec::new(rt.alloc());
        put_list(&mut out, list)?;
        assert!(rt; out.as_slice() == line, "{} numbers", list.len());
    }
    Ok(())
}

#[test]
fn a_pair_or_none_is_a_line(rt: HostRuntime) -> Result<(), Fail> {
    let text = lines(
        rt.alloc(),
        &[Reply::Pair(Some((0, 4095))), Reply::Pair(None)],
    )?;
    assert!(rt; text.as_slice() == b"0 4095\nnone\n".as_slice());
    Ok(())
}

#[test]
fn pairs_are_a_line_each(rt: HostRuntime) -> Result<(), Fail> {
    let rows: [(&[(u32, u32)], &[u8]); 3] = [
        (&[], b"none\n"),
        (&[(0, 1)], b"0 1\n"),
        (&[(0, 1), (0, 4095), (2, 3)], b"0 1\n0 4095\n2 3\n"),
    ];
    for (pairs, text) in rows {
        let mut out = Vec::new(rt.alloc());
        put_pairs(&mut out, pairs)?;
        assert!(rt; out.as_slice() == text, "{} pairs", pairs.len());
    }
    Ok(())
}

#[test]
fn a_number_or_none_is_a_line(rt: HostRuntime) -> Result<(), Fail> {
    let text = lines(
        rt.alloc(),
        &[
            Reply::One(Some(4095)),
            Reply::One(None),
            Reply::One(Some(0)),
            Reply::Count(399_999),
            Reply::Count(0),
        ],
    )?;
    assert!(rt; text.as_slice() == b"4095\nnone\n0\n399999\n0\n".as_slice());
    Ok(())
}

#[test]
fn each_reply_is_a_line(rt: HostRuntime) -> Result<(), Fail> {
    let text = lines(
        rt.alloc(),
        &[
            Reply::List(Vec::from_slice(rt.alloc(), &[3, 1, 2])?),
            Reply::List(Vec::new(rt.alloc())),
            Reply::One(Some(7)),
            Reply::Pair(Some((1, 2))),
            Reply::Pairs(Vec::from_slice(rt.alloc(), &[(5, 6)])?),
            Reply::Count(13),
        ],
    )?;
    assert!(rt; text.as_slice() == b"3 1 2\nnone\n7\n1 2\n5 6\n13\n".as_slice());
    Ok(())
}
